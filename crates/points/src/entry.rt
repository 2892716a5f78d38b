// From rows of pairs and given limits to the figures of the range.
ghost use Rattle.std.specs.Prelude.{◌≤◌, length};
ghost use Rattle.points.specs.Rows.{Gathered, Answered};

use point::ends::Ends;
use point::statistic::Statistic;
use point::working::point;
use range::figures::Range;
use range::judging::judge;
use range::limits::GivenLimits;
use range::reach::Reach;

/// The reach of points, each given by its rows, taken from the last to the first.
// A loop beside range's `gather`, where no point is refused: one function for both, or a fold that may refuse, would wrap each given point in an Option.
fn gather<V: Statistic>(points: &[&[Ends]]) -> Option<Reach>
    requires { 1 ≤ length points.now }
    ensures { Gathered V.Value.kind points.now result }
{
    let (last, before) = points.split_last().unwrap();
    let mut reach = Reach::from(&point::<V>(last)?);
    for rows in before.iter().rev() {
        reach = reach.further(&point::<V>(rows)?);
    }
    Some(reach)
}

/// The figures of a range of 2 to 10 points, where each has 5 to 20 rows that fit its kind.
fn work<V: Statistic>(points: &[&[Ends]], limits: GivenLimits) -> Option<Range>
    requires { (2 ≤ length points.now) × (length points.now ≤ 10) }
    ensures { Answered V.Value.kind points.now limits.entry.steps.now result }
{
    Some(judge(gather::<V>(points)?, limits))
}

/// The figures of a range, where there are 2 to 10 points with 5 to 20 rows each that fit their kind,
/// and at most eight given limits of at most 1,000,000 steps each.
pub fn figures<V: Statistic>(points: &[&[Ends]], limits: &[u32]) -> Option<Range>
    ensures { Answered V.Value.kind points.now limits.now result }
{
    let limits = GivenLimits::new(limits)?;
    if !(2..=10).contains(&points.len()) {
        return None;
    }
    work::<V>(points, limits)
}
