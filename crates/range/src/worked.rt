// Figures worked by hand, as theorems of the definitions.
ghost use Rattle.range.specs.Worked.{NeighboursWorked, SystematicWorked, MixedWorked, SystematicErrorWorked};

/// Θ_A of two means, Θ of two given limits, and the error by two rules.
pub fn worked()
    ensures neighbours { NeighboursWorked }
    ensures systematic { SystematicWorked }
    ensures mixed { MixedWorked }
    ensures systematic_error { SystematicErrorWorked }
{}
