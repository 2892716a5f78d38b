ghost use Rattle.std.specs.Prelude.{◌≡◌, ◌+◌, ◌≤◌, max, pos, ◌+ℤ◌, ◌≤ℤ◌, unsigned_abs};

use exact::pair::Pair;
use point::bounds::Bounds;

/// A figure that is not negative as two ends in steps, at most WIDTH apart and at most MOST.
#[derive(Clone, Copy, Drop)]
pub struct Span<const WIDTH: u64, const MOST: u64> {
    pub low: u64,
    pub high: u64,
    ghost ordered: { low ≤ high },
    ghost narrow: { high ≤ low + WIDTH },
    ghost within: { high ≤ MOST },
}

/// S0, the scatter of the mean.
pub type MeanScatter = Span<520, 50_000_000>;

/// ε, the random limit.
pub type RandomLimit = Span<1_450, 50_000_000>;

/// Θ_A, the half-gap of neighbouring means.
pub type HalfGap = Span<280, 6_000_000>;

/// Θ, the systematic limit.
pub type SystematicLimit = Span<310, 20_000_000>;

/// The error by both limits together.
pub type MixedError = Span<1_450, 100_000_000>;

impl<const WIDTH: u64, const MOST: u64> Span<WIDTH, MOST> {
    /// The ends of a pair that is as narrow and as small; a `From` could not ask that.
    pub(crate) fn of(pair: Pair) -> Self
        requires least { pos 0 ≤ℤ pair.low }
        requires narrow { pair.high ≤ℤ (pair.low +ℤ pos WIDTH) }
        requires within { pair.high ≤ℤ pos MOST }
        ensures low { result.low ≡ unsigned_abs pair.low }
        ensures high { result.high ≡ unsigned_abs pair.high }
    {
        Span {
            low: pair.low.unsigned_abs(),
            high: pair.high.unsigned_abs(),
        }
    }

    /// The ends as a pair; a `From` could not ask that they fit one.
    pub(crate) fn pair(self) -> Pair
        requires { MOST ≤ 1000000000000 }
        ensures low { result.low ≡ pos self.entry.low }
        ensures high { result.high ≡ pos self.entry.high }
    {
        Bounds::from(self).pair()
    }

    /// The larger of two figures, end by end.
    pub(crate) fn larger(self, other: Self) -> Self
        ensures low { result.low ≡ max self.entry.low other.entry.low }
        ensures high { result.high ≡ max self.entry.high other.entry.high }
    {
        Span {
            low: self.low.max(other.low),
            high: self.high.max(other.high),
        }
    }
}

impl<const WIDTH: u64, const MOST: u64> From<Span<WIDTH, MOST>> for Bounds {
    ghost from_gives = { λ span bounds. (bounds.low ≡ span.low) × (bounds.high ≡ span.high) };

    fn from(span: Span<WIDTH, MOST>) -> Bounds {
        Bounds {
            low: span.low,
            high: span.high,
        }
    }
}
