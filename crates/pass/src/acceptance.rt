// Which passes are accepted, by the meter factor between their two masses.
ghost use Rattle.std.specs.Prelude.{◌≡◌, ◌*◌, ◌≤◌, true, false, ◌&&◌, MatchOption, unsigned_abs};
ghost use Rattle.pass.specs.Values.{weighable, fine, near_one_lem, acceptable as acceptably, Accepted};

use crate::denials::Denial;
use crate::masses::{CountedMass, Masses, ReferenceMass};
use exact::pair::Pair;
use exact::rounding::ratio;

impl ReferenceMass {
    /// A pair in milligrams as a reference's mass, or none where it leaves the range or is too wide.
    pub fn new(pair: Pair) -> Option<ReferenceMass>
        ensures { MatchOption result ((weighable pair.low pair.high && fine pair.low pair.high) ≡ false) (λ m. ((weighable pair.low pair.high && fine pair.low pair.high) ≡ true) × (m.pair ≡ pair)) }
    {
        if pair.low < 10_000_000 || pair.high > 30_000_000_000 {
            return None;
        }
        if pair.high - pair.low > pair.low / 500_000 + 6 {
            return None;
        }
        Some(ReferenceMass { pair })
    }
}

/// Whether a meter factor's pair, in steps, lies wholly in 0.9 to 1.1.
fn near_one(factor: Pair) -> bool
    ensures { result ≡ near_one_lem factor.low factor.high }
{
    factor.low >= 90_000_000 && factor.high <= 110_000_000
}

/// Whether a pass is accepted, by the meter factor's pair between its two masses.
fn acceptable(meter: &CountedMass, reference: &ReferenceMass) -> bool
    ensures value { result ≡ acceptably meter.now.pair reference.now.pair }
    ensures near { result ≡ true → (9 * unsigned_abs meter.now.pair.high ≤ 10 * unsigned_abs reference.now.pair.low) × (10 * unsigned_abs reference.now.pair.high ≤ 11 * unsigned_abs meter.now.pair.low) }
{
    near_one(ratio(reference.pair, meter.pair))
}

impl Masses {
    /// The two masses of a pass, if it is accepted.
    pub fn accept(meter: CountedMass, reference: ReferenceMass) -> Result<Masses, Denial>
        ensures { Accepted meter reference result }
    {
        if acceptable(&meter, &reference) {
            Ok(Masses { meter, reference })
        } else {
            Err(Denial::Value)
        }
    }
}
