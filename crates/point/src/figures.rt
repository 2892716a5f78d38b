ghost use Rattle.std.specs.Prelude.{◌+◌, ◌≤◌, pos, ◌+ℤ◌, ◌≤ℤ◌};

use crate::level::Level;
use exact::pair::Pair;

/// The figures of one flow point, in steps: pairs, as every figure that a maker is given, whether it can be negative or not.
#[derive(Clone, Copy, Drop)]
pub struct Point {
    /// x, the mean.
    pub mean: Pair,
    /// The mean near 1, by which neighbouring points are compared: x of a ratio, 1 + x of F.
    pub level: Level,
    /// S, the scatter of single values.
    pub scatter: Pair,
    /// S0, the scatter of the mean.
    pub of_mean: Pair,
    /// ε, the random limit.
    pub random: Pair,
    ghost narrow: { (mean.high ≤ℤ (mean.low +ℤ pos 432)) × (scatter.high ≤ℤ (scatter.low +ℤ pos 1200)) × (of_mean.high ≤ℤ (of_mean.low +ℤ pos 520)) × (random.high ≤ℤ (random.low +ℤ pos 1450)) },
    ghost least: { (pos 0 ≤ℤ scatter.low) × (pos 0 ≤ℤ of_mean.low) × (pos 0 ≤ℤ random.low) },
    ghost most: { (scatter.high ≤ℤ pos 50000000) × (of_mean.high ≤ℤ pos 50000000) × (random.high ≤ℤ pos 50000000) },
}
