// What a reference means, and what each one owes.
ghost use Rattle.std.specs.Prelude.{◌≡◌, ◌≤◌, Bool, true};
ghost use Rattle.exact.specs.Fractions.{Fraction};
ghost use Rattle.exact.specs.Ends.{Ends};
ghost use Rattle.pass.specs.declared.readings.Record.{Record as RecordT};
ghost use Rattle.pass.specs.declared.denials.Fault.{Fault as FaultT};
ghost use Rattle.pass.specs.declared.passes.Passes.{Passes as PassesT};
ghost use Rattle.reference.specs.References.{Weighs, Same, Asked};

use pass::denials::Fault;
use pass::masses::ReferenceMass;
use pass::passes::Passes;
use pass::readings::Record;

/// A device that gives the mass that went through the meter in a pass.
pub trait Reference {
    // which records it takes
    ghost takes: { Self → RecordT → Bool };

    // the device and the field that it faults otherwise
    ghost fault: { Self → RecordT → FaultT };

    // the exact mass in milligrams
    ghost mass: { Self → RecordT → Fraction };

    // the pair that it gives
    ghost answer: { Self → RecordT → Ends };

    // two records agree in the fields that it uses
    ghost alike: { RecordT → RecordT → Type 0 };

    // the least numbers of passes
    ghost least: { Self → PassesT };

    /// The least numbers of passes at a point: of this reference, which may have them from a device that it is made of.
    fn passes(&self) -> Passes
        ensures { result ≡ least self.now };

    /// The mass of a pass, in milligrams, or the device and the field at fault.
    fn ask(&self, pass: &Record) -> Result<ReferenceMass, Fault>
        ensures { Asked (takes self.now pass.now) (answer self.now pass.now) (fault self.now pass.now) result };

    ghost working: { (s : Self) → (5 ≤ (least s).working) × ((least s).working ≤ 20) };

    ghost check: { (s : Self) → (5 ≤ (least s).check) × ((least s).check ≤ 20) };

    // the pair of a record that is taken holds the mass, lies in 10,000,000 to 30,000,000,000 mg and is as narrow as owed
    ghost good: { (s : Self) (r : RecordT) → takes s r ≡ true → Weighs (mass s r) (answer s r) };

    // records that agree in the fields used get the same
    ghost same: { (s : Self) (p q : RecordT) → alike p q → Same (takes s p) (takes s q) (fault s p) (fault s q) (mass s p) (mass s q) (answer s p) (answer s q) };
}
