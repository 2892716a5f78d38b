// The meter under test: its opening, its count in the gate and the mass that it counted.
use crate::denials::{Denial, Field};
use crate::factor::Factor;
use crate::gate::{Gate, matched};
use crate::masses::CountedMass;
use crate::ranges::in_range;
use crate::readings::Record;
use exact::pair::Pair;

/// The meter under test, by its set factor. It has a type of its own, so that none is given where a master meter is wanted.
#[derive(Clone, Copy, Drop)]
pub struct Meter {
    pub factor: Factor,
}

impl Meter {
    ghost use Rattle.pass.specs.Meters.{MeterOpened, Gated, Counted, Metered};

    /// A meter by its set factor, in ten-thousandths of a pulse per tonne, 10⁷ to 10⁹.
    pub fn open(set_factor: i32) -> Result<Meter, Denial>
        ensures { MeterOpened set_factor result }
    {
        let factor = Factor::new(set_factor).ok_or(Denial::Figure(1))?;
        Ok(Meter { factor })
    }

    /// What the meter counted in the gate of a pass. A master meter asks its fields in another order, the lowest first, so each has its own.
    pub fn gate(pass: &Record) -> Result<Gate, Denial>
        ensures { Gated pass.now result }
    {
        let pulses = in_range(pass.pulses, 1_100, 800_000).ok_or(Denial::Meter(Field::Pulses))?;
        let detector_time = in_range(pass.detector_time, 1, 600_000_000).ok_or(Denial::Meter(
            Field::DetectorTime,
        ))?;
        let pulse_time = in_range(pass.pulse_time, 1, 600_000_000).ok_or(Denial::Meter(
            Field::PulseTime,
        ))?;
        if !matched(pulses, detector_time, pulse_time) {
            return Err(Denial::Meter(Field::PulseTime));
        }
        Ok(Gate {
            pulses,
            detector_time,
            pulse_time,
        })
    }

    /// The interpolated count of a pass, in ten-thousandths of a pulse.
    pub fn count(pass: &Record) -> Result<Pair, Denial>
        ensures { Counted pass.now result }
    {
        Ok(Meter::gate(pass)?.count())
    }

    /// The mass that the meter counted in a pass, in milligrams.
    pub fn mass(&self, pass: &Record) -> Result<CountedMass, Denial>
        ensures { Metered self.now.factor.ten_thousandths pass.now result }
    {
        Ok(Meter::gate(pass)?.mass(&self.factor))
    }
}
