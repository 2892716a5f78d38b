// Pairs of whole numbers that hold a figure.
ghost use Rattle.std.specs.Prelude.{◌≡◌, ◌<ℤ◌, ◌≤ℤ◌, MatchOption};

/// A figure as two whole numbers of some unit, the lower never above the upper.
#[derive(Clone, Copy, PartialEq, Eq, Debug, Drop)]
pub struct Pair {
    pub low: i64,
    pub high: i64,
    ghost ordered: { low ≤ℤ high },
}

impl Pair {
    /// The pair of two ends, or none where the lower one is above the upper.
    pub fn new(low: i64, high: i64) -> Option<Pair>
        ensures { MatchOption result (high <ℤ low) (λ p. (p.low ≡ low) × (p.high ≡ high)) }
    {
        if low <= high {
            Some(Pair { low, high })
        } else {
            None
        }
    }
}
