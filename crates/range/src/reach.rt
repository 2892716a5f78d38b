// The figures of points taken together, one by one.
ghost use Rattle.std.specs.Prelude.{◌≡◌, max, List, [], unsigned_abs};
ghost use Rattle.exact.specs.Fractions.{Fraction};
ghost use Rattle.pass.specs.Kinds.{Kind};
ghost use Rattle.point.specs.Outcomes.{PointHolds};
ghost use Rattle.range.specs.Gaps.{half_gap_low, half_gap_high};
ghost use Rattle.range.specs.Reaches.{Reaches, Extends};

use crate::gap::half_gap;
use crate::span::{HalfGap, MeanScatter, RandomLimit};
use point::figures::Point;
use point::level::Level;

/// The figures of some points together, in steps; further points are put before them one by one.
#[derive(Clone, Copy, Drop)]
pub struct Reach {
    /// The first point's mean near 1.
    pub level: Level,
    /// S0, the largest over the points.
    pub of_mean: MeanScatter,
    /// ε, the largest over the points.
    pub random: RandomLimit,
    /// Θ_A, the largest half-gap of neighbours.
    pub neighbours: HalfGap,
}

/// The reach of one point.
impl From<&Point> for Reach {
    ghost from_gives = { λ point reach. (k : Kind) (xs : List Fraction) → PointHolds k xs point.now → Reaches k xs [] reach };

    fn from(point: &Point) -> Reach {
        Reach {
            level: point.level,
            of_mean: MeanScatter::of(point.of_mean),
            random: RandomLimit::of(point.random),
            neighbours: HalfGap { low: 0, high: 0 },
        }
    }
}

impl Reach {
    /// The reach of a point and those that follow it: the larger of each figure, and the half-gap to the next.
    #[tactic(auto, using(crate::proofs::Together::extends))]
    pub fn further(self, point: &Point) -> Reach
        ensures holds { Extends self point.now result }
        ensures level { result.level ≡ point.now.level }
        ensures of_mean { (result.of_mean.low ≡ max (unsigned_abs point.now.of_mean.low) self.of_mean.low) × (result.of_mean.high ≡ max (unsigned_abs point.now.of_mean.high) self.of_mean.high) }
        ensures random { (result.random.low ≡ max (unsigned_abs point.now.random.low) self.random.low) × (result.random.high ≡ max (unsigned_abs point.now.random.high) self.random.high) }
        ensures neighbours { (result.neighbours.low ≡ max (half_gap_low point.now.level.low point.now.level.high self.level.low self.level.high) self.neighbours.low) × (result.neighbours.high ≡ max (half_gap_high point.now.level.low point.now.level.high self.level.low self.level.high) self.neighbours.high) }
    {
        Reach {
            level: point.level,
            of_mean: MeanScatter::of(point.of_mean).larger(self.of_mean),
            random: RandomLimit::of(point.random).larger(self.random),
            neighbours: half_gap(point.level, self.level).larger(self.neighbours),
        }
    }
}
