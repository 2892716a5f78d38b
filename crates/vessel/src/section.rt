// The measuring section of a prover: its opening, and the whole numbers of its pressure factor.
ghost use Rattle.std.specs.Prelude.{◌≡◌, ◌≤◌};

use pass::denials::Denial;
use pass::ranges::{Pressure, in_range};

/// The figures of a measuring section as a certificate states them; by itself it may hold any numbers.
#[derive(Clone, Copy, PartialEq, Eq, Debug, Drop)]
pub struct SectionFigures {
    /// V0, in ml.
    pub volume: i32,
    /// D, in 0.1 mm.
    pub bore: i32,
    /// s, in 0.1 mm.
    pub wall: i32,
    /// E, in MPa.
    pub modulus: i32,
}

/// A measuring section, each of its figures in range.
#[derive(Clone, Copy, Drop)]
pub struct Section {
    /// V0: the certified volume at 20 °C and no gauge pressure, in ml.
    pub volume: u32,
    /// D: the bore, in 0.1 mm.
    pub bore: u32,
    /// s: the wall, in 0.1 mm.
    pub wall: u32,
    /// E: the modulus of elasticity, in MPa.
    pub modulus: u32,
    ghost volume_ranged: { (10000 ≤ volume) × (volume ≤ 20000000) },
    ghost bore_ranged: { (100 ≤ bore) × (bore ≤ 15000) },
    ghost wall_ranged: { (10 ≤ wall) × (wall ≤ 500) },
    ghost modulus_ranged: { (100000 ≤ modulus) × (modulus ≤ 250000) },
}

impl Section {
    ghost use Rattle.vessel.specs.Provers.{SectionOpened, stiffness as stiff, strained as strain};

    /// A measuring section by its figures, or the denial of the first that is out of range: opened, like the provers, and no conversion.
    /// The definitions name the four figures one by one, as a certificate does.
    pub(crate) fn open(figures: &SectionFigures) -> Result<Section, Denial>
        ensures { SectionOpened figures.now.volume figures.now.bore figures.now.wall figures.now.modulus result }
    {
        Ok(Section {
            volume: in_range(figures.volume, 10_000, 20_000_000).ok_or(Denial::Figure(1))?,
            bore: in_range(figures.bore, 100, 15_000).ok_or(Denial::Figure(2))?,
            wall: in_range(figures.wall, 10, 500).ok_or(Denial::Figure(3))?,
            modulus: in_range(figures.modulus, 100_000, 250_000).ok_or(Denial::Figure(4))?,
        })
    }

    /// The bottom of CPS, 20,000·E·s.
    #[tactic(auto, using(crate::specs::Volumes::section_stiff_most))]
    pub fn stiffness(&self) -> u128
        ensures value { result ≡ stiff self.now }
        ensures most { result ≤ 2500000000000 }
    {
        20_000 * self.modulus as u128 * self.wall as u128
    }

    /// The top of CPS at a pressure, 20,000·E·s + 19·P·D.
    pub fn strained(&self, pressure: Pressure) -> u128
        ensures { result ≡ strain self.now pressure.kilopascals }
    {
        self.stiffness() + 19 * pressure.kilopascals as u128 * self.bore as u128
    }
}
