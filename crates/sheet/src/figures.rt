// The sheet of a pass, and working it out.
ghost use Rattle.std.specs.Prelude.{◌≡◌};
ghost use Rattle.pass.specs.Kinds.{K, MF, F as Signed};
ghost use Rattle.pass.specs.Values.{Valued};

use exact::pair::Pair;
use pass::denials::Denial;
use pass::kinds::{Correction, MeterFactor, PulseFactor};
use pass::masses::Masses;
use pass::meter::Meter;
use pass::readings::Record;
use pass::value::Value;
use reference::reference::Reference;

/// The figures of one pass.
#[derive(Clone, Copy, Drop)]
pub struct Sheet {
    /// The interpolated count of the meter, in ten-thousandths of a pulse.
    pub count: Pair,
    /// The mass that the meter counted, in milligrams.
    pub meter_mass: Pair,
    /// The reference's mass, in milligrams.
    pub reference_mass: Pair,
    /// K as a part of the set factor, M/M0, in steps.
    pub pulse_factor: Pair,
    /// MF = M0/M, in steps.
    pub meter_factor: Pair,
    /// F = MF − 1, in steps.
    pub correction: Pair,
}

impl Sheet {
    ghost use Rattle.sheet.specs.Sheets.{WorkedOut};

    /// The sheet of an accepted pass, from its count and its two masses.
    fn of(count: Pair, masses: &Masses) -> Sheet
        ensures same { (result.count ≡ count) × (result.meter_mass ≡ masses.now.meter.pair) × (result.reference_mass ≡ masses.now.reference.pair) }
        ensures pulse_factor { Valued K masses.now result.pulse_factor }
        ensures meter_factor { Valued MF masses.now result.meter_factor }
        ensures correction { Valued Signed masses.now result.correction }
    {
        Sheet {
            count,
            meter_mass: masses.meter.pair,
            reference_mass: masses.reference.pair,
            pulse_factor: PulseFactor::of(masses),
            meter_factor: MeterFactor::of(masses),
            correction: Correction::of(masses),
        }
    }

    /// The sheet of a pass against a reference, or why it is denied: first by the meter, then by the reference, then by the value.
    pub fn against<R: Reference>(
        meter: &Meter,
        reference: &R,
        pass: &Record,
    ) -> Result<Sheet, Denial>
        ensures { WorkedOut meter.now.factor.ten_thousandths (R.Reference.takes reference.now pass.now) (R.Reference.fault reference.now pass.now) (R.Reference.mass reference.now pass.now) (R.Reference.answer reference.now pass.now) pass.now result }
    {
        let count = Meter::count(pass)?;
        let counted = meter.mass(pass)?;
        let weighed = reference.ask(pass)?;
        let masses = Masses::accept(counted, weighed)?;
        Ok(Sheet::of(count, &masses))
    }
}
