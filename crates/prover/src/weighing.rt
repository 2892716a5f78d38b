// Each device of a prover in turn: what it gives of a pass, or its fault under its name.
ghost use Rattle.std.specs.Prelude.{◌≡◌};
ghost use Rattle.liquid.specs.Asking.{question_of};
ghost use Rattle.prover.specs.Masses.{VolumeGiven, DensityGiven, CarryGiven};

use exact::pair::Pair;
use liquid::meaning::Liquid;
use liquid::question::Question;
use pass::denials::{Device, Fault, Field};
use pass::ranges::{Density, Pressure, Temperature};
use pass::readings::Record;
use vessel::vessel::Vessel;

/// The volume that the vessel gives of a pass, in microlitres.
pub(crate) fn volume<V: Vessel>(vessel: &V, pass: &Record) -> Result<Pair, Fault>
    ensures { VolumeGiven (V.Vessel.takes vessel.now pass.now) (V.Vessel.answer vessel.now pass.now) (V.Vessel.fault vessel.now pass.now) result }
{
    vessel.ask(pass).map_err(|field| Fault {
        device: Device::Vessel,
        field,
    })
}

/// The density of a pass, if the densitometer's three fields are in range.
pub(crate) fn density(pass: &Record) -> Result<Density, Fault>
    ensures { DensityGiven pass.now result }
{
    let fault = |field| Fault {
        device: Device::Densitometer,
        field,
    };
    // The liquid reads these two again: it may be any liquid, and is asked by its own contract.
    Temperature::new(pass.densitometer_temperature).ok_or(fault(Field::DensitometerTemperature))?;
    Pressure::new(pass.densitometer_pressure).ok_or(fault(Field::DensitometerPressure))?;
    Density::new(pass.density).ok_or(fault(Field::Density))
}

/// The factor that carries the density to the vessel, in steps.
pub(crate) fn factor<L: Liquid>(liquid: &L, pass: &Record) -> Result<Pair, Fault>
    ensures { CarryGiven pass.now (L.Liquid.answer liquid.now (question_of pass.now)) result }
{
    liquid.ask(&Question::from(pass)).map_err(|field| Fault {
        device: Device::Liquid,
        field,
    })
}
