// The product of volume, density and carry factor.
ghost use Rattle.std.specs.Prelude.{◌≡◌, ◌*◌, ◌≤◌, pos, ◌≤ℤ◌, unsigned_abs};
ghost use Rattle.exact.specs.Pairs.{floor as floored, ceiling};

use exact::pair::Pair;
use exact::rounding::Quotient;

/// What one end of a mass is the product of.
#[derive(Clone, Copy, Drop)]
struct Factors {
    /// In microlitres.
    volume: u64,
    /// In 0.01 kg/m³.
    density: u32,
    /// The carry factor, in steps.
    carry: u64,
    ghost ranged: { (volume ≤ 23000000000) × (density ≤ 120000) × (carry ≤ 120000000) },
}

impl Factors {
    /// The product in 10⁻¹³ mg, to be rounded to milligrams.
    fn product(self) -> Quotient
        ensures value { result.top ≡ self.volume * self.density * self.carry }
        ensures most { result.top ≤ 331200000000000000000000 }
        ensures unit { result.bottom ≡ 10000000000000 }
    {
        Quotient {
            top: self.volume as u128 * self.density as u128 * self.carry as u128,
            bottom: 10_000_000_000_000,
        }
    }
}

/// The pair of a mass, in milligrams, also for a density below those that a densitometer gives.
pub fn weigh(volume: Pair, density: u32, factor: Pair) -> Pair
    requires volume { (pos 0 ≤ℤ volume.low) × (volume.high ≤ℤ pos 23000000000) }
    requires density { density ≤ 120000 }
    requires factor { (pos 0 ≤ℤ factor.low) × (factor.high ≤ℤ pos 120000000) }
    ensures low { result.low ≡ pos (floored (unsigned_abs volume.low * density * unsigned_abs factor.low) 10000000000000) }
    ensures high { result.high ≡ pos (ceiling (unsigned_abs volume.high * density * unsigned_abs factor.high) 10000000000000) }
{
    let least = Factors {
        volume: volume.low.unsigned_abs(),
        density,
        carry: factor.low.unsigned_abs(),
    };
    let most = Factors {
        volume: volume.high.unsigned_abs(),
        density,
        carry: factor.high.unsigned_abs(),
    };
    Pair {
        low: least.product().floor(),
        high: most.product().ceil(),
    }
}
