// The master meter as a reference: its opening, and the mass that it gives of a pass.
ghost use Rattle.std.proofs.Common.{rules};
ghost use Rattle.reference.specs.MasterWeighs.{master_weighs};

use crate::reference::Reference;
use pass::denials::{Denial, Device, Fault, Field};
use pass::factor::Factor;
use pass::gate::{Gate, matched};
use pass::masses::ReferenceMass;
use pass::passes::Passes;
use pass::ranges::in_range;
use pass::readings::Record;

/// A master meter, by its factor. It has a type of its own, so that none is put where the meter under test is meant.
#[derive(Clone, Copy, Drop)]
pub struct MasterMeter {
    pub factor: Factor,
}

impl MasterMeter {
    ghost use Rattle.reference.specs.Masters.{MasterOpened, Gated};

    /// A master meter by its factor, in ten-thousandths of a pulse per tonne, 10⁷ to 10⁹.
    pub fn open(factor: i32) -> Result<MasterMeter, Denial>
        ensures { MasterOpened factor result }
    {
        let factor = Factor::new(factor).ok_or(Denial::Figure(1))?;
        Ok(MasterMeter { factor })
    }

    /// What the master meter counted in the gate of a pass.
    fn gate(pass: &Record) -> Result<Gate, Fault>
        ensures { Gated pass.now result }
    {
        let fault = |field| Fault {
            device: Device::Master,
            field,
        };
        let detector_time = in_range(pass.detector_time, 1, 600_000_000).ok_or(fault(
            Field::DetectorTime,
        ))?;
        let pulses = in_range(pass.master_pulses, 1_100, 800_000).ok_or(fault(
            Field::MasterPulses,
        ))?;
        let pulse_time = in_range(pass.master_time, 1, 600_000_000).ok_or(fault(
            Field::MasterTime,
        ))?;
        if !matched(pulses, detector_time, pulse_time) {
            return Err(fault(Field::MasterTime));
        }
        Ok(Gate {
            pulses,
            detector_time,
            pulse_time,
        })
    }
}

impl Reference for MasterMeter {
    ghost use Rattle.reference.specs.Masters.{master_takes, master_fault, master_mass, master_answer, MasterAlike, master_passes};

    ghost takes = { λ m r. master_takes m.factor.ten_thousandths r };

    ghost fault = { λ _ r. master_fault r };

    ghost mass = { λ m r. master_mass m.factor.ten_thousandths r };

    ghost answer = { master_answer };

    ghost alike = { MasterAlike };

    ghost least = { λ _. master_passes };

    ghost working = { Prim.search rules };

    ghost check = { Prim.search rules };

    ghost good = { λ m r. master_weighs m.factor.ten_thousandths m.factor.ranged.0 r };

    ghost same = { Prim.search rules };

    fn passes(&self) -> Passes {
        Passes {
            working: 5,
            check: 7,
        }
    }

    fn ask(&self, pass: &Record) -> Result<ReferenceMass, Fault> {
        let counted = MasterMeter::gate(pass)?.mass(&self.factor);
        ReferenceMass::new(counted.pair).ok_or(Fault {
            device: Device::Mass,
            field: Field::Together,
        })
    }
}
