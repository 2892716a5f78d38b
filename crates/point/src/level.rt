ghost use Rattle.std.specs.Prelude.{◌+◌, ◌≤◌};

/// The ends of a figure near 1, in steps.
#[derive(Clone, Copy, Drop)]
pub struct Level {
    pub low: u64,
    pub high: u64,
    ghost ranged: { (90000000 ≤ low) × (low ≤ high) × (high ≤ 111111112) },
    ghost narrow: { high ≤ low + 301 },
}
