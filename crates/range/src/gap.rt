// How far apart the means of neighbouring points are.
ghost use Rattle.std.specs.Prelude.{◌≡◌};
ghost use Rattle.range.specs.Gaps.{half_gap_low, half_gap_high};

use crate::span::HalfGap;
use point::deviations::{farthest, nearest};
use point::level::Level;

/// |x − y|/(2·(x + y)) of two levels, in steps: the lower end over the upper sum rounded down, the upper end the other way.
#[tactic(auto, using(exact::proofs::Quotients::div_ceil_ceiling))]
pub(crate) fn half_gap(one: Level, other: Level) -> HalfGap
    ensures low { result.low ≡ half_gap_low one.low one.high other.low other.high }
    ensures high { result.high ≡ half_gap_high one.low one.high other.low other.high }
{
    let least = 2 * (one.low + other.low);
    let most = 2 * (one.high + other.high);
    HalfGap {
        low: 100_000_000 * nearest(one, other) / most,
        high: (100_000_000 * farthest(one, other)).div_ceil(least),
    }
}
