// Θ, the systematic limit.
ghost use Rattle.exact.specs.Fractions.{Fraction};
ghost use Rattle.exact.specs.Figures.{number, root};
ghost use Rattle.range.specs.Ranges.{Θ², given};
ghost use Rattle.range.specs.Span.{SpanHolds};

use crate::limits::GivenLimits;
use crate::span::{HalfGap, SystematicLimit};
use point::roots::{root_ceil, root_floor};

/// Θ = 1.1·root(Θ_A² + the squares of the given limits), in steps; each end is rounded once.
pub(crate) fn systematic(neighbours: HalfGap, limits: GivenLimits) -> SystematicLimit
    ensures { (x : Fraction) → SpanHolds neighbours (number x) → SpanHolds result (root (Θ² (given limits.entry.steps.now) x)) }
{
    let squares = limits.squares();
    let least = 121 * (neighbours.low * neighbours.low + squares);
    let most = 121 * (neighbours.high * neighbours.high + squares);
    SystematicLimit {
        low: root_floor(u128::from(least), 100),
        high: root_ceil(u128::from(most), 100),
    }
}
