// A meter's factor.
ghost use Rattle.std.specs.Prelude.{◌≡◌, ◌≤◌, true, false, pos, MatchOption};
ghost use Rattle.pass.specs.Ranges.{settable};

use crate::ranges::in_range;

/// A meter's factor: ten-thousandths of a pulse per tonne, 10⁷ to 10⁹.
#[derive(Clone, Copy, Drop)]
pub struct Factor {
    pub ten_thousandths: u32,
    ghost ranged: { (10000000 ≤ ten_thousandths) × (ten_thousandths ≤ 1000000000) },
}

impl Factor {
    /// A factor in its range, or none.
    pub fn new(ten_thousandths: i32) -> Option<Factor>
        ensures { MatchOption result (settable ten_thousandths ≡ false) (λ f. (settable ten_thousandths ≡ true) × (ten_thousandths ≡ pos f.ten_thousandths)) }
    {
        let ten_thousandths = in_range(ten_thousandths, 10_000_000, 1_000_000_000)?;
        Some(Factor { ten_thousandths })
    }
}
