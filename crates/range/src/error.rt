// The error of the meter over the range.
ghost use Rattle.std.specs.Prelude.{◌≡◌, ◌+◌, ◌*◌, ◌≤◌, min, max, pos};
ghost use Rattle.exact.specs.Fractions.{Fraction};
ghost use Rattle.exact.specs.Figures.{root};
ghost use Rattle.exact.specs.Pairs.{floor, ceiling};
ghost use Rattle.range.specs.Outcomes.{Decided, ErrorHolds};
ghost use Rattle.range.specs.Rules.{mixed as by_both, error_by};
ghost use Rattle.range.specs.Span.{SpanHolds};

use crate::left::Left;
use crate::span::{MixedError, RandomLimit, SystematicLimit};
use point::bounds::Bounds;

/// 0.81·(Θ + ε), in steps; each end is rounded once.
#[tactic(auto, using(exact::proofs::Quotients::div_ceil_ceiling))]
fn mixed(systematic: SystematicLimit, random: RandomLimit) -> MixedError
    ensures low { result.low ≡ floor (81 * (systematic.low + random.low)) 100 }
    ensures high { result.high ≡ ceiling (81 * (systematic.high + random.high)) 100 }
    ensures holds { (θ² ε² : Fraction) → SpanHolds systematic (root θ²) → SpanHolds random (root ε²) → SpanHolds result (error_by by_both θ² ε²) }
{
    MixedError {
        low: 81 * (systematic.low + random.low) / 100,
        high: (81 * (systematic.high + random.high)).div_ceil(100),
    }
}

/// The least pair around two.
fn around(one: Bounds, other: Bounds) -> Bounds
    ensures low { result.low ≡ min one.low other.low }
    ensures high { result.high ≡ max one.high other.high }
{
    Bounds {
        low: one.low.min(other.low),
        high: one.high.max(other.high),
    }
}

/// The error, in steps, by the rules that are left.
pub(crate) fn error(left: Left, systematic: SystematicLimit, random: RandomLimit) -> Bounds
    ensures holds { (θ² s² ε² : Fraction) → Decided θ² s² left → SpanHolds systematic (root θ²) → SpanHolds random (root ε²) → ErrorHolds θ² s² ε² (pos result.low) (pos result.high) }
    ensures within { result.high ≤ 100000000 }
{
    let both = Bounds::from(mixed(systematic, random));
    let systematic = Bounds::from(systematic);
    let random = Bounds::from(random);
    match left {
        Left::Systematic => systematic,
        Left::Random => random,
        Left::Mixed => both,
        Left::Upper => around(systematic, both),
        Left::Lower => around(random, both),
        Left::Both => around(around(systematic, random), both),
    }
}
