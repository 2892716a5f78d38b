// What a value of a meter is, worked out from the two masses of a pass.
ghost use Rattle.std.specs.Prelude.{pos, ◌+ℤ◌, ◌≤ℤ◌};
ghost use Rattle.pass.specs.Kinds.{Kind, least, most};
ghost use Rattle.pass.specs.Values.{Valued};

use crate::masses::Masses;
use exact::pair::Pair;

/// A kind of value of a meter.
pub trait Value {
    // which kind it is
    ghost kind: { Kind };

    /// The value of an accepted pass, in steps.
    fn of(masses: &Masses) -> Pair
        ensures value { Valued kind masses.now result }
        ensures range { (least kind ≤ℤ result.low) × (result.high ≤ℤ most kind) };
}

/// A kind whose values are ratios near 1: one may divide by their mean.
pub trait RatioValue: Value {
    /// The value, never below 90,000,000 steps.
    fn ratio(masses: &Masses) -> Pair
        ensures value { Valued Self.Value.kind masses.now result }
        ensures floor { (pos 90000000 ≤ℤ result.low) × (result.high ≤ℤ most Self.Value.kind) }
    {
        Self::of(masses)
    }

    // no end is ever below 90,000,000 steps
    ghost bound: { pos 90000000 ≤ℤ least Self.Value.kind };
}
