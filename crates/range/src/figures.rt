ghost use Rattle.std.specs.Prelude.{pos, ◌+ℤ◌, ◌≤ℤ◌};

use crate::left::Left;
use exact::pair::Pair;

/// The figures of a range, in steps: pairs, as every figure that a maker is given.
#[derive(Clone, Copy, Drop)]
pub struct Range {
    /// S0, the largest over the points.
    pub of_mean: Pair,
    /// ε, the largest over the points.
    pub random: Pair,
    /// Θ_A, the largest half-gap of neighbouring means.
    pub neighbours: Pair,
    /// Θ, the systematic limit.
    pub systematic: Pair,
    /// Which rules the pairs leave for the error.
    pub left: Left,
    /// The error.
    pub error: Pair,
    ghost narrow: { (of_mean.high ≤ℤ (of_mean.low +ℤ pos 520)) × (random.high ≤ℤ (random.low +ℤ pos 1450)) × (neighbours.high ≤ℤ (neighbours.low +ℤ pos 280)) × (systematic.high ≤ℤ (systematic.low +ℤ pos 310)) },
    ghost least: { (pos 0 ≤ℤ of_mean.low) × (pos 0 ≤ℤ random.low) × (pos 0 ≤ℤ neighbours.low) × (pos 0 ≤ℤ systematic.low) × (pos 0 ≤ℤ error.low) },
}
