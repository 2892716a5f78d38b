ghost use Rattle.std.specs.Prelude.{◌≡◌, ◌≤◌, pos, ◌≤ℤ◌, unsigned_abs};

use exact::pair::Pair;

/// A figure that is not negative as two ends, the lower never above the upper: a `Pair` without signs, for arithmetic that has none.
#[derive(Clone, Copy, Drop)]
pub struct Bounds {
    pub low: u64,
    pub high: u64,
    ghost ordered: { low ≤ high },
}

impl Bounds {
    /// The ends of a pair that is not negative; a `From` could not ask that.
    pub fn of(pair: Pair) -> Bounds
        requires { pos 0 ≤ℤ pair.low }
        ensures low { result.low ≡ unsigned_abs pair.low }
        ensures high { result.high ≡ unsigned_abs pair.high }
    {
        Bounds {
            low: pair.low.unsigned_abs(),
            high: pair.high.unsigned_abs(),
        }
    }

    /// The ends as a pair; a `From` could not ask that they fit one.
    pub fn pair(self) -> Pair
        requires { self.high ≤ 1000000000000 }
        ensures low { result.low ≡ pos self.low }
        ensures high { result.high ≡ pos self.high }
    {
        Pair {
            low: self.low as i64,
            high: self.high as i64,
        }
    }
}
