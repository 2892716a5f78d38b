// The coefficients of a petroleum liquid's thermal expansion.
ghost use Rattle.std.specs.Prelude.{◌≡◌, ◌+◌, ◌*◌, ◌≤◌, true, false, pos, negsuc, neg_ℤ, MatchOption};
ghost use Rattle.pass.specs.Ranges.{between};

use pass::ranges::Density;

/// What gives the thermal expansion at 15 °C together with the density r there: b = K0/r² + K1/r + K2.
/// They are those of a group of liquids, and r is the one liquid's, so that it stands beside them.
#[derive(Clone, Copy, Drop)]
pub struct Coefficients {
    /// K0, in 10⁻⁴.
    pub k0: u32,
    /// K1, in 10⁻⁴.
    pub k1: u32,
    /// −K2, in 10⁻⁸.
    pub minus_k2: u32,
    ghost ranged: { (k0 ≤ 30000000) × (k1 ≤ 10000) × (minus_k2 ≤ 340000) },
}

/// A coefficient of −0.0034 to 0, in 10⁻⁸, as its size.
pub(crate) fn downward(k2: i32) -> Option<u32>
    ensures { MatchOption result (between (negsuc 339999) (pos 0) k2 ≡ false) (λ n. (between (negsuc 339999) (pos 0) k2 ≡ true) × (k2 ≡ neg_ℤ (pos n)) × (n ≤ 340000)) }
{
    if !(-340_000..=0).contains(&k2) {
        return None;
    }
    Some(k2.unsigned_abs())
}

/// r², in 10⁻⁴ (kg/m³)².
#[tactic(auto, using(crate::specs::Openings::square_most, crate::specs::Openings::square_least))]
pub(crate) fn square(density: Density) -> u128
    ensures value { result ≡ density.hundredths * density.hundredths }
    ensures range { (3600000000 ≤ result) × (result ≤ 14400000000) }
{
    density.hundredths as u128 * density.hundredths as u128
}

impl Coefficients {
    /// K0/r² + K1/r, times 10⁸r².
    #[tactic(auto, using(crate::proofs::Expansions::above_most))]
    pub(crate) fn above(self, density: Density) -> u128
        ensures value { result ≡ 100000000 * self.k0 + 1000000 * self.k1 * density.hundredths }
        ensures most { result ≤ 4200000000000000 }
    {
        100_000_000 * self.k0 as u128 + 1_000_000 * self.k1 as u128 * density.hundredths as u128
    }

    /// −K2, times 10⁸r².
    #[tactic(auto, using(crate::proofs::Expansions::below_most))]
    pub(crate) fn below(self, density: Density) -> u128
        ensures value { result ≡ self.minus_k2 * (density.hundredths * density.hundredths) }
        ensures most { result ≤ 4896000000000000 }
    {
        self.minus_k2 as u128 * square(density)
    }
}
