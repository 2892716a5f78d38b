// Quotients as pairs: the lower end rounded down, the upper end rounded up.
ghost use Rattle.std.specs.Prelude.{◌≡◌, ℕ, ◌+◌, ◌-◌, ◌*◌, ◌^◌, ◌<◌, ◌≤◌, ℤ, pos, ◌+ℤ◌, ◌≤ℤ◌, unsigned_abs};
ghost use Rattle.exact.specs.Fractions.{Fraction, whole, nat, div};
ghost use Rattle.exact.specs.Figures.{number};
ghost use Rattle.exact.specs.Pairs.{Holds, steps as in_steps, floor as floored, ceiling};

use crate::pair::Pair;

/// A quotient of whole numbers, to be rounded.
#[derive(Clone, Copy, Drop)]
pub struct Quotient {
    pub top: u128,
    pub bottom: u128,
    ghost defined: { 0 < bottom },
}

impl Quotient {
    /// Rounded down.
    pub fn floor(self) -> i64
        requires fits { floored self.top self.bottom < 2 ^ 63 }
        ensures value { result ≡ pos (floored self.top self.bottom) }
    {
        (self.top / self.bottom) as i64
    }

    /// Rounded up.
    pub fn ceil(self) -> i64
        requires fits { ceiling self.top self.bottom < 2 ^ 63 }
        ensures value { result ≡ pos (ceiling self.top self.bottom) }
    {
        self.top.div_ceil(self.bottom) as i64
    }

    /// As a pair.
    pub fn pair(self) -> Pair
        requires fits { ceiling self.top self.bottom < 2 ^ 63 }
        ensures low { result.low ≡ pos (floored self.top self.bottom) }
        ensures high { result.high ≡ pos (ceiling self.top self.bottom) }
        ensures holds { Holds whole result.low result.high (number (div (nat self.top) (nat self.bottom))) }
        ensures narrow { result.high ≤ℤ (result.low +ℤ pos 1) }
    {
        Pair {
            low: self.floor(),
            high: self.ceil(),
        }
    }
}

/// The quotient of two ends, to be rounded to steps.
fn steps(top: i64, bottom: i64) -> Quotient
    requires top { pos 0 ≤ℤ top }
    requires bottom { pos 1 ≤ℤ bottom }
    ensures top { result.top ≡ 100000000 * unsigned_abs top }
    ensures bottom { result.bottom ≡ unsigned_abs bottom }
{
    Quotient {
        top: 100_000_000 * u128::from(top.unsigned_abs()),
        bottom: u128::from(bottom.unsigned_abs()),
    }
}

/// The quotient of two figures, in steps; both are in one unit, and the lower one is above 0.
#[tactic(auto, using(crate::proofs::Quotients::floor_fits, crate::proofs::Quotients::ceil_fits))]
pub fn ratio(top: Pair, bottom: Pair) -> Pair
    requires top { (pos 0 ≤ℤ top.low) × (top.high ≤ℤ pos 1000000000000) }
    requires bottom { pos 1 ≤ℤ bottom.low }
    requires fits { unsigned_abs top.high ≤ 1000000000 * unsigned_abs bottom.low }
    ensures low { result.low ≡ pos (floored (100000000 * unsigned_abs top.low) (unsigned_abs bottom.high)) }
    ensures high { result.high ≡ pos (ceiling (100000000 * unsigned_abs top.high) (unsigned_abs bottom.low)) }
    ensures holds { (x y : Fraction) → Holds whole top.low top.high (number x) → Holds whole bottom.low bottom.high (number y) → Holds in_steps result.low result.high (number (div x y)) }
{
    Pair {
        low: steps(top.low, bottom.high).floor(),
        high: steps(top.high, bottom.low).ceil(),
    }
}
