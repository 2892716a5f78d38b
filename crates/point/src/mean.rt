// The mean of a point. The rows stay a plain slice, each made into a level as it is read; what they must meet is `Workable`, here and below.
ghost use Rattle.std.specs.Prelude.{◌≡◌, ◌+◌, ◌*◌, ◌<◌, ◌≤◌, List, length, pos, ◌+ℤ◌, sum_by};
ghost use Rattle.exact.specs.Fractions.{Fraction};
ghost use Rattle.exact.specs.Figures.{number};
ghost use Rattle.exact.specs.Pairs.{Holds, steps};
ghost use Rattle.point.specs.Points.{mean as exact_mean};
ghost use Rattle.point.specs.Levels.{raise, raised, level as level_of};
ghost use Rattle.point.specs.Rows.{Fits, Held};
ghost use Rattle.point.specs.Outcomes.{Workable};

use crate::bounds::Bounds;
use crate::ends::Ends;
use crate::level::Level;
use crate::statistic::Statistic;
use exact::pair::Pair;

/// A row made into a pair near 1, as it is read; a `From` could not ask that it fits.
pub(crate) fn read<V: Statistic>(row: Ends) -> Level
    requires { Fits V.Value.kind row }
    ensures low { result.low ≡ raised V.Value.kind row.low }
    ensures high { result.high ≡ raised V.Value.kind row.high }
{
    Level {
        low: (row.low + V::RAISE).unsigned_abs(),
        high: (row.high + V::RAISE).unsigned_abs(),
    }
}

/// The ends of the rows, near 1, added up: a loop, since a fold's closure would have to ask that its row fits.
fn total<V: Statistic>(rows: &[Ends]) -> Bounds
    requires { Workable V.Value.kind rows.now }
    ensures low { result.low ≡ sum_by (λ e. raised V.Value.kind e.low) rows.now }
    ensures high { result.high ≡ sum_by (λ e. raised V.Value.kind e.high) rows.now }
{
    let mut low: u64 = 0;
    let mut high: u64 = 0;
    for row in rows {
        let level = read::<V>(*row);
        low += level.low;
        high += level.high;
    }
    Bounds { low, high }
}

/// The mean's pair near 1: the ends' means, rounded down and up.
pub(crate) fn mean_level<V: Statistic>(rows: &[Ends]) -> Level
    requires { Workable V.Value.kind rows.now }
    ensures holds { (xs : List Fraction) → Held rows.now xs → Holds steps (pos result.low) (pos result.high) (number (level_of V.Value.kind (exact_mean xs))) }
{
    let passes = rows.len() as u64;
    let sums = total::<V>(rows);
    Level {
        low: sums.low / passes,
        high: sums.high.div_ceil(passes),
    }
}

/// A pair near 1 as a pair of the value, by the value's kind, which no `From` is given.
pub(crate) fn lowered<V: Statistic>(level: Level) -> Pair
    ensures low { result.low +ℤ pos (raise V.Value.kind) ≡ pos level.low }
    ensures high { result.high +ℤ pos (raise V.Value.kind) ≡ pos level.high }
{
    Pair {
        low: level.low as i64 - V::RAISE,
        high: level.high as i64 - V::RAISE,
    }
}
