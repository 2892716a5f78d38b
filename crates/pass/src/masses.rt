ghost use Rattle.std.specs.Prelude.{◌+◌, ◌*◌, ◌/◌, ◌≤◌, pos, ◌+ℤ◌, ◌≤ℤ◌, unsigned_abs};

use exact::pair::Pair;

/// A mass counted in the gate, in milligrams.
#[derive(Clone, Copy, Drop)]
pub struct CountedMass {
    pub pair: Pair,
    ghost ranged: { (pos 10990000 ≤ℤ pair.low) × (pair.high ≤ℤ pos 800001000000) },
    ghost narrow: { pair.high ≤ℤ (pair.low +ℤ pos 1) },
}

/// A mass that a reference gives, in milligrams. Its width grows with it, so no size would make one type of the two.
#[derive(Clone, Copy, Drop)]
pub struct ReferenceMass {
    pub pair: Pair,
    ghost ranged: { (pos 10000000 ≤ℤ pair.low) × (pair.high ≤ℤ pos 30000000000) },
    ghost narrow: { unsigned_abs pair.high ≤ unsigned_abs pair.low + (unsigned_abs pair.low / 500000 + 6) },
}

/// The two masses of an accepted pass: their meter factor lies in 0.9 to 1.1, whichever numbers the pairs hold.
#[derive(Clone, Copy, Drop)]
pub struct Masses {
    pub meter: CountedMass,
    pub reference: ReferenceMass,
    ghost near: { (9 * unsigned_abs meter.pair.high ≤ 10 * unsigned_abs reference.pair.low) × (10 * unsigned_abs reference.pair.high ≤ 11 * unsigned_abs meter.pair.low) },
}
