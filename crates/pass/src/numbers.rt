// The numbers of fields, devices and denials.
ghost use Rattle.std.specs.Prelude.{◌≡◌};
ghost use Rattle.pass.specs.Denials.{field_number, device_number, denial_number, carried as carried_by, ReferenceDenied};

use crate::denials::{Denial, Device, Fault, Field};

/// The field's number in the record, 1 to 11; 0 for no one field. A table, as the definition has it, so that the order in which the
/// variants are declared says nothing.
impl From<Field> for u8 {
    ghost from_gives = { λ field n. n ≡ field_number field };

    fn from(field: Field) -> u8 {
        match field {
            Field::Together => 0,
            Field::Pulses => 1,
            Field::DetectorTime => 2,
            Field::PulseTime => 3,
            Field::WallTemperature => 4,
            Field::VesselPressure => 5,
            Field::RodTemperature => 6,
            Field::DensitometerTemperature => 7,
            Field::DensitometerPressure => 8,
            Field::Density => 9,
            Field::MasterPulses => 10,
            Field::MasterTime => 11,
        }
    }
}

/// The device's number.
impl From<Device> for u8 {
    ghost from_gives = { λ device n. n ≡ device_number device };

    fn from(device: Device) -> u8 {
        match device {
            Device::Vessel => 1,
            Device::Densitometer => 2,
            Device::Master => 3,
            Device::Liquid => 4,
            Device::Mass => 5,
        }
    }
}

/// What a reference faults denies the call.
impl From<Fault> for Denial {
    ghost from_gives = { ReferenceDenied };

    fn from(fault: Fault) -> Self {
        Self::Reference(fault)
    }
}

impl Denial {
    /// The denial's number; a denial is more than its number, so it is no conversion.
    pub fn number(&self) -> u8
        ensures { result ≡ denial_number self.now }
    {
        match self {
            Denial::Figure(_) => 1,
            Denial::Meter(_) => 4,
            Denial::Reference(_) => 5,
            Denial::Value => 6,
        }
    }

    /// What the denial carries, which is no conversion either, 0 where there is nothing: a figure's place; the meter's field; the reference's device and field.
    pub fn carried(&self) -> (u8, u8)
        ensures { result ≡ carried_by self.now }
    {
        match self {
            Denial::Figure(place) => (*place, 0),
            Denial::Meter(field) => (u8::from(*field), 0),
            Denial::Reference(fault) => (u8::from(fault.device), u8::from(fault.field)),
            Denial::Value => (0, 0),
        }
    }
}
