// How far a point's values lie from their mean.
ghost use Rattle.std.specs.Prelude.{◌≡◌, ◌*◌, ◌≤◌, List, length, sum_by};
ghost use Rattle.point.specs.Deviations.{nearest as nearest_of, farthest as farthest_of, nearest², farthest²};
ghost use Rattle.point.specs.Outcomes.{Workable};

use crate::bounds::Bounds;
use crate::ends::Ends;
use crate::level::Level;
use crate::mean::read;
use crate::statistic::Statistic;

/// How near two figures may lie to each other, in steps: 0 where their pairs meet. Neither is the one that is asked, so this is no method.
pub fn nearest(one: Level, other: Level) -> u64
    ensures value { result ≡ nearest_of one.low one.high other.low other.high }
    ensures small { result ≤ 21111112 }
{
    one.low.saturating_sub(other.high) + other.low.saturating_sub(one.high)
}

/// How far two figures may lie from each other, in steps.
pub fn farthest(one: Level, other: Level) -> u64
    ensures value { result ≡ farthest_of one.low one.high other.low other.high }
    ensures small { result ≤ 21111112 }
{
    let above = one.high.saturating_sub(other.low);
    let below = other.high.saturating_sub(one.low);
    above.max(below)
}

/// The least and the greatest sum of squared deviations from a mean between two ends, in squared steps, in one loop as for the mean.
pub(crate) fn spread<V: Statistic>(rows: &[Ends], mean: Level) -> Bounds
    requires { Workable V.Value.kind rows.now }
    ensures low { result.low ≡ sum_by (nearest² V.Value.kind mean.low mean.high) rows.now }
    ensures high { result.high ≡ sum_by (farthest² V.Value.kind mean.low mean.high) rows.now }
    ensures small { result.high ≤ length rows.now * 445679049876544 }
{
    let mut low: u64 = 0;
    let mut high: u64 = 0;
    for row in rows {
        let level = read::<V>(*row);
        let least = nearest(level, mean);
        let most = farthest(level, mean);
        low += least * least;
        high += most * most;
    }
    Bounds { low, high }
}
