// What the statistics of a point ask of a kind of value.
ghost use Rattle.std.specs.Prelude.{◌≡◌, ℤ, pos, negsuc, ◌+ℤ◌, ◌≤ℤ◌, unsigned_abs, refl};
ghost use Rattle.pass.specs.Kinds.{K, MF, F as Signed, least, most};
ghost use Rattle.point.specs.Levels.{raise, against_end};
ghost use Rattle.std.proofs.Common.{rules};

use crate::level::Level;
use exact::pair::Pair;
use pass::kinds::{Correction, MeterFactor, PulseFactor};
use pass::value::{RatioValue, Value};

/// A kind of value, as the statistics of a point need it.
pub trait Statistic: Value {
    /// What brings a value near 1, in steps: nothing for a ratio, 1 for F.
    const RAISE: i64;
    /// The least step that the value of an accepted pass reaches.
    const LEAST: i64;
    /// The greatest.
    const MOST: i64;

    // the constants, as clauses read them
    ghost RAISE: { ℤ };

    ghost LEAST: { ℤ };

    ghost MOST: { ℤ };

    /// What scatter is divided by, in steps: the mean of a ratio; for F, whose mean may be 0, the number 1.
    fn divisor(mean: Pair) -> Level
        requires range { (least Self.Value.kind ≤ℤ mean.low) × (mean.high ≤ℤ pos 111111112) }
        requires narrow { mean.high ≤ℤ (mean.low +ℤ pos 301) }
        ensures low { result.low ≡ against_end Self.Value.kind mean.low }
        ensures high { result.high ≡ against_end Self.Value.kind mean.high };

    // the constants are those of the kind
    ghost of_kind: { (RAISE ≡ pos (raise Self.Value.kind)) × (LEAST ≡ least Self.Value.kind) × (MOST ≡ most Self.Value.kind) };

    // no kind's values leave these steps
    ghost ranged: { (negsuc 9999999 ≤ℤ LEAST) × (LEAST ≤ℤ MOST) × (MOST ≤ℤ pos 111111112) };
}

/// The mean of a ratio, as what divides: it is never near 0.
fn by_mean<V: RatioValue>(mean: Pair) -> Level
    requires range { (least V.Value.kind ≤ℤ mean.low) × (mean.high ≤ℤ pos 111111112) }
    requires narrow { mean.high ≤ℤ (mean.low +ℤ pos 301) }
    ensures low { result.low ≡ unsigned_abs mean.low }
    ensures high { result.high ≡ unsigned_abs mean.high }
{
    Level {
        low: mean.low.unsigned_abs(),
        high: mean.high.unsigned_abs(),
    }
}

// Two blocks that differ in K and MF: one over every `RatioValue` would overlap with F's, as far as Rust can tell here.
impl Statistic for PulseFactor {
    const RAISE: i64 = 0;

    const LEAST: i64 = 90_000_000;

    const MOST: i64 = 111_111_112;

    ghost RAISE = { pos (raise K) };

    ghost LEAST = { least K };

    ghost MOST = { most K };

    ghost of_kind = { (refl, refl, refl) };

    ghost ranged = { Prim.search rules };

    fn divisor(mean: Pair) -> Level {
        by_mean::<PulseFactor>(mean)
    }
}

impl Statistic for MeterFactor {
    const RAISE: i64 = 0;

    const LEAST: i64 = 90_000_000;

    const MOST: i64 = 110_000_000;

    ghost RAISE = { pos (raise MF) };

    ghost LEAST = { least MF };

    ghost MOST = { most MF };

    ghost of_kind = { (refl, refl, refl) };

    ghost ranged = { Prim.search rules };

    fn divisor(mean: Pair) -> Level {
        by_mean::<MeterFactor>(mean)
    }
}

impl Statistic for Correction {
    const RAISE: i64 = 100_000_000;

    const LEAST: i64 = -10_000_000;

    const MOST: i64 = 10_000_000;

    ghost RAISE = { pos (raise Signed) };

    ghost LEAST = { least Signed };

    ghost MOST = { most Signed };

    ghost of_kind = { (refl, refl, refl) };

    ghost ranged = { Prim.search rules };

    fn divisor(_mean: Pair) -> Level {
        Level {
            low: 100_000_000,
            high: 100_000_000,
        }
    }
}
