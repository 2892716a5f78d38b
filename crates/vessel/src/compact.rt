// The compact prover: its opening, its volume, and the vessel that it is.
ghost use Rattle.std.specs.Prelude.{◌≡◌, ◌*◌, ◌≤◌};

use crate::section::{Section, SectionFigures};
use crate::stretch::stretch;
use crate::vessel::Vessel;
use exact::pair::Pair;
use exact::rounding::Quotient;
use pass::denials::{Denial, Field};
use pass::ranges::{Pressure, Temperature, in_range};
use pass::readings::Record;

/// 10⁻⁶ µl in a product of the certified volume and the two temperature factors.
const MILLIONTH: u128 = 100_000_000_000;

/// A compact prover.
#[derive(Clone, Copy, Drop)]
pub struct CompactProver {
    pub section: Section,
    /// α_k: the area coefficient of the tube, in 10⁻⁸ per °C.
    pub area_expansion: u32,
    /// α_d: the linear coefficient of the rod, in 10⁻⁸ per °C.
    pub rod_expansion: u32,
    ghost ranged: { (area_expansion ≤ 6000) × (rod_expansion ≤ 3000) },
}

impl CompactProver {
    ghost use Rattle.exact.specs.Ends.{Has};
    ghost use Rattle.exact.specs.Pairs.{ceiling};
    ghost use Rattle.vessel.specs.Provers.{CompactOpened, compact_top, compact_ends, strained as strain, stiffness as stiff};

    /// A compact prover by its certificate: as a pipe prover's, with α_k 0 to 6,000 and α_d 0 to 3,000 in 10⁻⁸ per °C.
    pub fn open(
        section: &SectionFigures,
        area_expansion: i32,
        rod_expansion: i32,
    ) -> Result<CompactProver, Denial>
        ensures { CompactOpened section.now.volume section.now.bore section.now.wall section.now.modulus area_expansion rod_expansion result }
    {
        Ok(CompactProver {
            section: Section::open(section)?,
            area_expansion: in_range(area_expansion, 0, 6_000).ok_or(Denial::Figure(5))?,
            rod_expansion: in_range(rod_expansion, 0, 3_000).ok_or(Denial::Figure(6))?,
        })
    }

    /// The certified volume times the two temperature factors, each times 10¹⁰.
    fn product(&self, wall: Temperature, rod: Temperature) -> u128
        ensures { result ≡ compact_top self.now wall.raised rod.raised }
    {
        self.section.volume as u128
            * stretch(self.area_expansion, wall)
            * stretch(self.rod_expansion, rod)
    }

    /// A volume at no pressure, in 10⁻⁶ µl, put under a pressure: the microlitres before they are rounded.
    #[tactic(auto, using(crate::specs::Volumes::under_most))]
    fn under(&self, millionths: u128, pressure: Pressure) -> Quotient
        requires { millionths ≤ 20110000000000000 }
        ensures top { result.top ≡ millionths * strain self.now.section pressure.kilopascals }
        ensures bottom { result.bottom ≡ 1000000 * stiff self.now.section }
        ensures most { ceiling result.top result.bottom ≤ 23000000000 }
    {
        Quotient {
            top: millionths * self.section.strained(pressure),
            bottom: 1_000_000 * self.section.stiffness(),
        }
    }

    /// The volume at a wall and a rod temperature and a pressure, in microlitres.
    /// The whole product would not fit 128 bits, so the volume at no pressure is rounded to 10⁻⁶ µl first.
    #[tactic(auto, using(crate::specs::Volumes::compact_high, crate::specs::Volumes::compact_ordered, exact::proofs::Quotients::div_ceil_ceiling), unfolding(crate::specs::Provers::compact_ends))]
    fn volume_at(&self, wall: Temperature, rod: Temperature, pressure: Pressure) -> Pair
        ensures { Has result (compact_ends self.now wall.raised rod.raised pressure.kilopascals) }
    {
        let product = self.product(wall, rod);
        Pair {
            low: self.under(product / MILLIONTH, pressure).floor(),
            high: self.under(product.div_ceil(MILLIONTH), pressure).ceil(),
        }
    }
}

impl Vessel for CompactProver {
    ghost use Rattle.std.proofs.Common.{rules};
    ghost use Rattle.vessel.specs.Provers.{compact_takes, compact_fault, CompactAlike, compact_volume, compact_answer};
    ghost use Rattle.vessel.specs.Volumes.{compact_good};

    const LEAST_WORKING: u8 = 7;

    const LEAST_CHECK: u8 = 11;

    const WIDTH: u16 = 200;

    ghost LEAST_WORKING = { 7 };

    ghost LEAST_CHECK = { 11 };

    ghost width = { λ _. 200 };

    ghost takes = { compact_takes };

    ghost fault = { compact_fault };

    ghost volume = { compact_volume };

    ghost answer = { compact_answer };

    ghost alike = { CompactAlike };

    ghost working = { Prim.search rules };

    ghost check = { Prim.search rules };

    ghost narrow = { Prim.search rules };

    ghost good = { compact_good };

    ghost same = { Prim.search rules };

    fn spread(&self) -> u16 {
        Self::WIDTH
    }

    fn ask(&self, pass: &Record) -> Result<Pair, Field> {
        let wall = Temperature::new(pass.wall_temperature).ok_or(Field::WallTemperature)?;
        let pressure = Pressure::new(pass.vessel_pressure).ok_or(Field::VesselPressure)?;
        let rod = Temperature::new(pass.rod_temperature).ok_or(Field::RodTemperature)?;
        Ok(self.volume_at(wall, rod, pressure))
    }
}
