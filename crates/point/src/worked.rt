// Figures worked by hand, as theorems of the definitions.
ghost use Rattle.point.specs.Worked.{ScatterWorked, RandomWorked};

/// S² and ε² of five corrections.
pub fn worked()
    ensures scatter { ScatterWorked }
    ensures random { RandomWorked }
{}
