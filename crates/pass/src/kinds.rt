// The three kinds of value.
ghost use Rattle.std.specs.Prelude.{pos, ◌+ℤ◌, ◌≤ℤ◌};
ghost use Rattle.pass.specs.Kinds.{K, MF, F as Signed};
ghost use Rattle.pass.specs.Values.{Valued};
ghost use Rattle.std.proofs.Common.{rules};

use crate::masses::Masses;
use crate::value::{RatioValue, Value};
use exact::pair::Pair;
use exact::rounding::ratio;
use exact::shifts::less_one;

/// K: the meter's pulses per tonne, kept as a part of its set factor, M/M0.
#[derive(Clone, Copy, Drop)]
pub struct PulseFactor;

/// MF: the meter factor, M0/M.
#[derive(Clone, Copy, Drop)]
pub struct MeterFactor;

/// F: the correction, M0/M − 1, which may be negative.
#[derive(Clone, Copy, Drop)]
pub struct Correction;

/// The meter's mass over the reference's, in steps: a function of its own, as the next one, since their ranges differ.
fn meter_by_reference(masses: &Masses) -> Pair
    ensures value { Valued K masses.now result }
    ensures range { (pos 90000000 ≤ℤ result.low) × (result.high ≤ℤ pos 111111112) }
{
    ratio(masses.meter.pair, masses.reference.pair)
}

/// The reference's mass over the meter's, in steps.
fn reference_by_meter(masses: &Masses) -> Pair
    ensures value { Valued MF masses.now result }
    ensures range { (pos 90000000 ≤ℤ result.low) × (result.high ≤ℤ pos 110000000) }
{
    ratio(masses.reference.pair, masses.meter.pair)
}

impl Value for PulseFactor {
    ghost kind = { K };

    fn of(masses: &Masses) -> Pair {
        meter_by_reference(masses)
    }
}

impl RatioValue for PulseFactor {
    ghost bound = { Prim.search rules };
}

impl Value for MeterFactor {
    ghost kind = { MF };

    fn of(masses: &Masses) -> Pair {
        reference_by_meter(masses)
    }
}

impl RatioValue for MeterFactor {
    ghost bound = { Prim.search rules };
}

impl Value for Correction {
    ghost kind = { Signed };

    fn of(masses: &Masses) -> Pair {
        less_one(reference_by_meter(masses))
    }
}
