ghost use Rattle.std.specs.Prelude.{◌≡◌, ◌*◌, ◌≤◌, ◌↔◌, sum_by, IsSome, IfSome};
ghost use Rattle.std.proofs.Props.{props};
ghost use Rattle.range.specs.Judgements.{Limits};

/// Given limits, in steps: at most eight, each at most 1,000,000.
#[derive(Clone, Copy, Drop)]
pub struct GivenLimits<'a> {
    pub steps: &'a [u32],
    ghost given: { Limits steps.now } by { Prim.hlevel props },
}

impl<'a> GivenLimits<'a> {
    /// The limits, where they are few and small enough.
    pub fn new(steps: &'a [u32]) -> Option<GivenLimits<'a>>
        ensures accepted { IsSome result ↔ Limits steps.now }
        ensures same { IfSome result (λ limits. limits.steps.now ≡ steps.now) }
    {
        // No `then`: its closure would owe the type's facts in clauses of its own.
        if steps.len() > 8 || !steps.iter().all(|&limit| limit <= 1_000_000) {
            return None;
        }
        Some(GivenLimits { steps })
    }

    /// The squares of the limits added up, in squared steps.
    pub(crate) fn squares(self) -> u64
        ensures value { result ≡ sum_by (λ g. g * g) self.entry.steps.now }
        ensures small { result ≤ 8000000000000 }
    {
        self.steps
            .iter()
            .map(|&limit| u64::from(limit) * u64::from(limit))
            .sum()
    }
}
