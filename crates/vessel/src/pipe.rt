// The pipe prover: its opening, its volume, and the vessel that it is.
ghost use Rattle.std.specs.Prelude.{◌≤◌};

use crate::section::{Section, SectionFigures};
use crate::stretch::stretch;
use crate::vessel::Vessel;
use exact::pair::Pair;
use exact::rounding::Quotient;
use pass::denials::{Denial, Field};
use pass::ranges::{Pressure, Temperature, in_range};
use pass::readings::Record;

/// A pipe prover.
#[derive(Clone, Copy, Drop)]
pub struct PipeProver {
    pub section: Section,
    /// α: the linear coefficient of the wall, in 10⁻⁸ per °C.
    pub expansion: u32,
    ghost ranged: { expansion ≤ 3000 },
}

impl PipeProver {
    ghost use Rattle.exact.specs.Ends.{Has};
    ghost use Rattle.vessel.specs.Provers.{PipeOpened, pipe_ends};

    /// A pipe prover by its certificate: V0 10,000 to 20,000,000 ml, D 100 to 15,000 and s 10 to 500 tenths of a millimetre,
    /// E 100,000 to 250,000 MPa, α 0 to 3,000 in 10⁻⁸ per °C.
    pub fn open(section: &SectionFigures, expansion: i32) -> Result<PipeProver, Denial>
        ensures { PipeOpened section.now.volume section.now.bore section.now.wall section.now.modulus expansion result }
    {
        Ok(PipeProver {
            section: Section::open(section)?,
            expansion: in_range(expansion, 0, 3_000).ok_or(Denial::Figure(5))?,
        })
    }

    /// The volume at a wall temperature and a pressure, in microlitres.
    #[tactic(auto, using(crate::specs::Volumes::pipe_top_most, crate::specs::Volumes::pipe_ends_most), unfolding(crate::specs::Provers::pipe_ends))]
    fn volume_at(&self, wall: Temperature, pressure: Pressure) -> Pair
        ensures { Has result (pipe_ends self.now wall.raised pressure.kilopascals) }
    {
        let stretched = self.section.volume as u128 * stretch(3 * self.expansion, wall);
        Quotient {
            top: stretched * self.section.strained(pressure),
            bottom: 10_000_000 * self.section.stiffness(),
        }
        .pair()
    }
}

impl Vessel for PipeProver {
    ghost use Rattle.std.proofs.Common.{rules};
    ghost use Rattle.vessel.specs.Provers.{pipe_takes, pipe_fault, PipeAlike, pipe_volume, pipe_answer};
    ghost use Rattle.vessel.specs.Volumes.{pipe_good};

    const LEAST_WORKING: u8 = 5;

    const LEAST_CHECK: u8 = 7;

    const WIDTH: u16 = 200;

    ghost LEAST_WORKING = { 5 };

    ghost LEAST_CHECK = { 7 };

    ghost width = { λ _. 200 };

    ghost takes = { pipe_takes };

    ghost fault = { pipe_fault };

    ghost volume = { pipe_volume };

    ghost answer = { pipe_answer };

    ghost alike = { PipeAlike };

    ghost working = { Prim.search rules };

    ghost check = { Prim.search rules };

    ghost narrow = { Prim.search rules };

    ghost good = { pipe_good };

    ghost same = { Prim.search rules };

    fn spread(&self) -> u16 {
        Self::WIDTH
    }

    fn ask(&self, pass: &Record) -> Result<Pair, Field> {
        let wall = Temperature::new(pass.wall_temperature).ok_or(Field::WallTemperature)?;
        let pressure = Pressure::new(pass.vessel_pressure).ok_or(Field::VesselPressure)?;
        Ok(self.volume_at(wall, pressure))
    }
}
