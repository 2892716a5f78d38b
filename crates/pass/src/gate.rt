// Counting in the gate, alike for every meter that gives pulses.
ghost use Rattle.std.specs.Prelude.{◌≡◌, ℕ, ◌+◌, ◌-◌, ◌*◌, ◌≤◌, true, pos, ◌+ℤ◌, ◌≤ℤ◌};
ghost use Rattle.exact.specs.Fractions.{whole};
ghost use Rattle.exact.specs.Figures.{number};
ghost use Rattle.exact.specs.Pairs.{Holds, parts};
ghost use Rattle.pass.specs.Gates.{matched as in_step, interpolated, mass_of, mass_low, mass_high};

use crate::factor::Factor;
use crate::masses::CountedMass;
use exact::pair::Pair;
use exact::rounding::Quotient;

/// Pulses counted in the gate of a pass, with the two times by which they are scaled.
#[derive(Clone, Copy, Drop)]
pub struct Gate {
    pub pulses: u32,
    /// From detector trip to detector trip, in µs.
    pub detector_time: u32,
    /// From the first pulse after one trip to the first after the other, in µs.
    pub pulse_time: u32,
    ghost countable: { (1100 ≤ pulses) × (pulses ≤ 800000) },
    ghost gated: { (1 ≤ detector_time) × (detector_time ≤ 600000000) },
    ghost counted: { (1 ≤ pulse_time) × (pulse_time ≤ 600000000) },
    ghost matched: { ((detector_time - pulse_time) + (pulse_time - detector_time)) * pulses ≤ pulse_time },
}

/// Whether the two times differ by at most the mean time of a pulse.
pub fn matched(pulses: u32, detector_time: u32, pulse_time: u32) -> bool
    ensures value { result ≡ in_step (pos pulses) (pos detector_time) (pos pulse_time) }
    ensures close { result ≡ true → ((detector_time - pulse_time) + (pulse_time - detector_time)) * pulses ≤ pulse_time }
{
    let apart = u64::from(detector_time.abs_diff(pulse_time));
    apart * u64::from(pulses) <= u64::from(pulse_time)
}

impl Gate {
    /// N·Td, the top of the interpolated count; its bottom is Tp.
    fn product(&self) -> u128
        ensures value { result ≡ self.now.pulses * self.now.detector_time }
        ensures least { 1099 * self.now.pulse_time ≤ result }
        ensures most { result ≤ 800001 * self.now.pulse_time }
    {
        self.pulses as u128 * self.detector_time as u128
    }

    /// The interpolated count, in ten-thousandths of a pulse.
    pub fn count(&self) -> Pair
        ensures holds { Holds (parts 10000) result.low result.high (number (interpolated (pos self.now.pulses) (pos self.now.detector_time) (pos self.now.pulse_time))) }
        ensures narrow { result.high ≤ℤ (result.low +ℤ pos 1) }
    {
        Quotient {
            top: 10_000 * self.product(),
            bottom: self.pulse_time as u128,
        }
        .pair()
    }

    /// The mass of the count at a factor, in milligrams, with one rounding at each end.
    pub fn mass(&self, factor: &Factor) -> CountedMass
        ensures low { result.pair.low ≡ pos (mass_low factor.now.ten_thousandths self.now.pulses self.now.detector_time self.now.pulse_time) }
        ensures high { result.pair.high ≡ pos (mass_high factor.now.ten_thousandths self.now.pulses self.now.detector_time self.now.pulse_time) }
        ensures holds { Holds whole result.pair.low result.pair.high (number (mass_of (pos factor.now.ten_thousandths) (interpolated (pos self.now.pulses) (pos self.now.detector_time) (pos self.now.pulse_time)))) }
    {
        let quotient = Quotient {
            top: 10_000_000_000_000 * self.product(),
            bottom: self.pulse_time as u128 * factor.ten_thousandths as u128,
        };
        CountedMass {
            pair: quotient.pair(),
        }
    }
}
