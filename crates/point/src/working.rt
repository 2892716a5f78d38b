// The figures of a point, worked out from its rows.
ghost use Rattle.std.specs.Prelude.{◌↔◌, IsTrue, List};
ghost use Rattle.std.specs.List.{AllByRecursion};
ghost use Rattle.exact.specs.Fractions.{Fraction};
ghost use Rattle.point.specs.Rows.{Fits, Held};
ghost use Rattle.point.specs.Outcomes.{Workable, PointHolds, Answered};

use crate::ends::Ends;
use crate::figures::Point;
use crate::mean::{lowered, mean_level};
use crate::scatter::{Deviations, random_limit};
use crate::statistic::Statistic;

/// The figures of a point from rows that are known to be workable.
pub fn work<V: Statistic>(rows: &[Ends]) -> Point
    requires { Workable V.Value.kind rows.now }
    ensures holds { (xs : List Fraction) → Held rows.now xs → PointHolds V.Value.kind xs result }
{
    let level = mean_level::<V>(rows);
    let deviations = Deviations::of::<V>(rows, level);
    let of_mean = deviations.of_mean();
    Point {
        mean: lowered::<V>(level),
        level,
        scatter: deviations.scatter(),
        of_mean,
        random: random_limit(rows.len(), of_mean),
    }
}

/// Whether a row fits its kind.
fn fitting<V: Statistic>(row: Ends) -> bool
    ensures { IsTrue result ↔ Fits V.Value.kind row }
{
    V::LEAST <= row.low && row.low <= row.high && row.high <= V::MOST && row.high - row.low <= 300
}

/// Whether every row fits its kind.
fn all_fitting<V: Statistic>(rows: &[Ends]) -> bool
    ensures { IsTrue result ↔ AllByRecursion (Fits V.Value.kind) rows.now }
{
    rows.iter().all(|row| fitting::<V>(*row))
}

/// Whether there are 5 to 20 rows and each fits its kind.
pub fn workable<V: Statistic>(rows: &[Ends]) -> bool
    ensures { IsTrue result ↔ Workable V.Value.kind rows.now }
{
    (5..=20).contains(&rows.len()) && all_fitting::<V>(rows)
}

/// The figures of a point, where its rows are workable.
pub fn point<V: Statistic>(rows: &[Ends]) -> Option<Point>
    ensures { Answered V.Value.kind rows.now result }
{
    workable::<V>(rows).then(|| work::<V>(rows))
}
