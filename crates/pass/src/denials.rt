// Why a call is denied.

/// A field of a pass's record.
#[derive(Clone, Copy, PartialEq, Eq, Debug, Drop)]
pub enum Field {
    /// No one field: what the fields give together is out of its range.
    /// A variant and no `None`: a field is named by one of twelve numbers wherever one is, and other makers' devices name it too.
    Together,
    Pulses,
    DetectorTime,
    PulseTime,
    WallTemperature,
    VesselPressure,
    RodTemperature,
    DensitometerTemperature,
    DensitometerPressure,
    Density,
    MasterPulses,
    MasterTime,
}

/// A device that a reference is made of.
#[derive(Clone, Copy, PartialEq, Eq, Debug, Drop)]
pub enum Device {
    /// The vessel.
    Vessel,
    /// The densitometer: fields 7 to 9.
    Densitometer,
    /// The master meter.
    Master,
    /// The liquid.
    Liquid,
    /// The reference mass itself.
    Mass,
}

/// Why a reference does not take a record: the device, and the lowest field that it faults. It is written out where it arises, since
/// these two words are all that it says.
#[derive(Clone, Copy, PartialEq, Eq, Debug, Drop)]
pub struct Fault {
    pub device: Device,
    pub field: Field,
}

/// Why a call is denied. A denied call changes nothing.
#[derive(Clone, Copy, PartialEq, Eq, Debug, Drop)]
pub enum Denial {
    /// A figure of a certificate or a setting is out of its range: its place among them, from 1.
    /// A count and no enum: other makers' certificates have figures of their own, which a list of ours would shut out.
    Figure(u8),
    /// The meter does not take the record: the lowest field that it faults.
    Meter(Field),
    /// The reference does not take the record.
    Reference(Fault),
    /// The meter factor's pair does not lie wholly in 0.9 to 1.1.
    Value,
}
