// Figures that the formula of the exponential liquid gives.
ghost use Rattle.petroleum.specs.Exponential.{ExponentialExample};

/// The worked figures of the exponential liquid hold of its formula.
pub fn exponential_example()
    ensures { ExponentialExample }
{}
