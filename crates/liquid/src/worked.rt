// A figure that the formula of the linear liquid gives.
ghost use Rattle.liquid.specs.Linear.{LinearExample};

/// The worked figure of the linear liquid holds of its formula.
pub fn linear_example()
    ensures { LinearExample }
{}
