// Which rule gives the error, as far as the pairs tell.
ghost use Rattle.std.specs.Prelude.{◌≡◌, ◌*◌, ◌<◌, ◌≤◌, ◌↔◌, IsTrue};
ghost use Rattle.exact.specs.Fractions.{Fraction};
ghost use Rattle.exact.specs.Figures.{root};
ghost use Rattle.range.specs.Outcomes.{Decided};
ghost use Rattle.range.specs.Span.{SpanHolds};

use crate::left::Left;
use crate::span::{MeanScatter, SystematicLimit};

/// Θ and S0, by whose ratio a rule gives the error.
#[derive(Clone, Copy, Drop)]
pub(crate) struct Ratio {
    pub(crate) systematic: SystematicLimit,
    pub(crate) of_mean: MeanScatter,
}

impl Ratio {
    /// Whether Θ exceeds 8·S0, whichever numbers the pairs hold.
    fn above_upper(self) -> bool
        ensures { IsTrue result ↔ (8 * self.of_mean.high < self.systematic.low) }
    {
        self.systematic.low > 8 * self.of_mean.high
    }

    /// Whether Θ lies below 0.8·S0, whichever numbers the pairs hold.
    fn below_lower(self) -> bool
        ensures { IsTrue result ↔ (10 * self.systematic.high < 8 * self.of_mean.low) }
    {
        10 * self.systematic.high < 8 * self.of_mean.low
    }

    /// Whether Θ may exceed 8·S0.
    fn may_exceed_upper(self) -> bool
        ensures { IsTrue result ↔ (8 * self.of_mean.low < self.systematic.high) }
    {
        self.systematic.high > 8 * self.of_mean.low
    }

    /// Whether Θ may lie below 0.8·S0.
    fn may_fall_below_lower(self) -> bool
        ensures { IsTrue result ↔ (10 * self.systematic.low < 8 * self.of_mean.high) }
    {
        10 * self.systematic.low < 8 * self.of_mean.high
    }

    /// The rules that the pairs leave, Θ being compared with 8·S0 and with 0.8·S0.
    pub(crate) fn decide(self) -> Left
        ensures { (θ² s² : Fraction) → SpanHolds self.systematic (root θ²) → SpanHolds self.of_mean (root s²) → Decided θ² s² result }
    {
        if self.above_upper() {
            return Left::Systematic;
        }
        if self.below_lower() {
            return Left::Random;
        }
        match (self.may_exceed_upper(), self.may_fall_below_lower()) {
            (true, true) => Left::Both,
            (true, false) => Left::Upper,
            (false, true) => Left::Lower,
            (false, false) => Left::Mixed,
        }
    }
}
