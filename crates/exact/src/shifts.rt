// Figures less a whole number.
ghost use Rattle.std.specs.Prelude.{◌≡◌, ℕ, ℤ, pos, negsuc, ◌+ℤ◌, ◌≤ℤ◌};
ghost use Rattle.exact.specs.Fractions.{Fraction, nat, sub};
ghost use Rattle.exact.specs.Figures.{number};
ghost use Rattle.exact.specs.Pairs.{Holds, steps};

use crate::pair::Pair;

/// An end less 1, in steps.
fn end_less_one(end: i64) -> i64
    requires { pos 0 ≤ℤ end }
    ensures { end ≡ result +ℤ pos 100000000 }
{
    end - 100_000_000
}

/// A figure less 1, in steps.
pub fn less_one(pair: Pair) -> Pair
    requires { pos 0 ≤ℤ pair.low }
    ensures low { pair.low ≡ result.low +ℤ pos 100000000 }
    ensures high { pair.high ≡ result.high +ℤ pos 100000000 }
    ensures holds { (x : Fraction) → Holds steps pair.low pair.high (number x) → Holds steps result.low result.high (number (sub x (nat 1))) }
{
    Pair {
        low: end_less_one(pair.low),
        high: end_less_one(pair.high),
    }
}
