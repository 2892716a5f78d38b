// What a vessel means, and what each one owes.
ghost use Rattle.std.specs.Prelude.{◌≡◌, ℕ, ◌≤◌, Bool, true};
ghost use Rattle.exact.specs.Fractions.{Fraction};
ghost use Rattle.exact.specs.Ends.{Ends};
ghost use Rattle.pass.specs.declared.readings.Record.{Record as RecordT};
ghost use Rattle.pass.specs.declared.denials.Field.{Field as FieldT};
ghost use Rattle.vessel.specs.Vessels.{Good, Same, Asked};

use exact::pair::Pair;
use pass::denials::Field;
use pass::passes::Passes;
use pass::readings::Record;

/// A vessel of known volume, through which the liquid of a pass goes.
pub trait Vessel {
    /// The least number of passes at a point for a working meter.
    const LEAST_WORKING: u8;
    /// The same for a check meter.
    const LEAST_CHECK: u8;
    /// w: by how many thousand-millionths of the volume its pair may be wide, 3 µl aside.
    const WIDTH: u16;

    // the constants, as clauses read them
    ghost LEAST_WORKING: { ℕ };

    ghost LEAST_CHECK: { ℕ };

    // the width w
    ghost width: { Self → ℕ };

    // which records it takes
    ghost takes: { Self → RecordT → Bool };

    // the field that it faults otherwise
    ghost fault: { Self → RecordT → FieldT };

    // the exact volume in microlitres
    ghost volume: { Self → RecordT → Fraction };

    // the pair that it gives
    ghost answer: { Self → RecordT → Ends };

    // two records agree in the fields that it uses
    ghost alike: { RecordT → RecordT → Type 0 };

    /// The least numbers of passes.
    fn passes() -> Passes
        ensures { result ≡ record { working = LEAST_WORKING; check = LEAST_CHECK } }
    {
        Passes {
            working: Self::LEAST_WORKING,
            check: Self::LEAST_CHECK,
        }
    }

    /// The width w. It has no default body: a vessel that is built on another has its width from that one.
    fn spread(&self) -> u16
        ensures { result ≡ width self.now };

    /// The volume of a pass, in microlitres, or the field at fault.
    fn ask(&self, pass: &Record) -> Result<Pair, Field>
        ensures { Asked (takes self.now pass.now) (answer self.now pass.now) (fault self.now pass.now) result };

    ghost working: { (5 ≤ LEAST_WORKING) × (LEAST_WORKING ≤ 20) };

    ghost check: { (5 ≤ LEAST_CHECK) × (LEAST_CHECK ≤ 20) };

    ghost narrow: { (v : Self) → width v ≤ 1200 };

    // the pair of a record that is taken holds the volume, lies in 9,000,000 to 23,000,000,000 µl and is as narrow as owed
    ghost good: { (v : Self) (r : RecordT) → takes v r ≡ true → Good (width v) (volume v r) (answer v r) };

    // records that agree in the fields used get the same
    ghost same: { (v : Self) (p q : RecordT) → alike p q → Same (takes v p) (takes v q) (fault v p) (fault v q) (volume v p) (volume v q) (answer v p) (answer v q) };
}
