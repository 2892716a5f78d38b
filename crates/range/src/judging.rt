// The figures of a range, from its points and the given limits.
ghost use Rattle.std.specs.Prelude.{◌≤◌, List, ◌∷◌, length};
ghost use Rattle.exact.specs.Fractions.{Fraction};
ghost use Rattle.pass.specs.Kinds.{Kind};
ghost use Rattle.range.specs.Reaches.{PointsHold, Reaches};
ghost use Rattle.range.specs.Judgements.{RangeHolds, Answered};

use crate::deciding::Ratio;
use crate::error::error;
use crate::figures::Range;
use crate::limits::GivenLimits;
use crate::reach::Reach;
use crate::systematic::systematic;
use point::figures::Point;

/// The figures of a range, from the reach of its points.
pub fn judge(reach: Reach, limits: GivenLimits) -> Range
    ensures { (k : Kind) (xs : List Fraction) (xss : List (List Fraction)) → Reaches k xs xss reach → RangeHolds k (xs ∷ xss) limits.entry.steps.now result }
{
    let theta = systematic(reach.neighbours, limits);
    let ratio = Ratio {
        systematic: theta,
        of_mean: reach.of_mean,
    };
    let left = ratio.decide();
    let error = error(left, theta, reach.random);
    Range {
        of_mean: reach.of_mean.pair(),
        random: reach.random.pair(),
        neighbours: reach.neighbours.pair(),
        systematic: theta.pair(),
        left,
        error: error.pair(),
    }
}

/// The reach of points, taken from the last to the first.
fn gather(points: &[Point]) -> Reach
    requires { 1 ≤ length points.now }
    ensures { (k : Kind) (xs : List Fraction) (xss : List (List Fraction)) → PointsHold k points.now (xs ∷ xss) → Reaches k xs xss result }
{
    let (last, before) = points.split_last().unwrap();
    before.iter().rev().fold(Reach::from(last), Reach::further)
}

/// The figures of a range of 2 to 10 points.
pub fn work(points: &[Point], limits: GivenLimits) -> Range
    requires { (2 ≤ length points.now) × (length points.now ≤ 10) }
    ensures { Answered points.now limits.entry.steps.now (Some result) }
{
    judge(gather(points), limits)
}

/// The figures of a range, where there are 2 to 10 points, and at most eight given limits of at most 1,000,000 steps each.
pub fn range(points: &[Point], limits: &[u32]) -> Option<Range>
    ensures { Answered points.now limits.now result }
{
    let limits = GivenLimits::new(limits)?;
    if !(2..=10).contains(&points.len()) {
        return None;
    }
    Some(work(points, limits))
}
