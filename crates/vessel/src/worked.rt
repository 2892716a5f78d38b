// Worked figures of the wall factors, as a theorem of their formulas.
ghost use Rattle.vessel.specs.Worked.{WallFigures};

/// The worked figures of CTS and CPS.
pub fn wall_figures()
    ensures { WallFigures }
{}
