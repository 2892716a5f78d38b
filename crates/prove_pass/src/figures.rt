// The vessels and liquids of a line, opened from their figures.
ghost use Rattle.std.specs.Prelude.{◌≡◌, ℕ, length};

use liquid::linear::Linear;
use pass::denials::Denial;
use petroleum::exponential::Exponential;
use vessel::compact::CompactProver;
use vessel::pipe::PipeProver;
use vessel::section::SectionFigures;

/// What is opened from figures that follow one another in a line.
pub trait FromFigures: Sized + Drop {
    /// How many figures it is opened from; of 8 bits, so that those of two and one more add up.
    const FIGURES: u8;

    // the constant, as clauses read it
    ghost FIGURES: { ℕ };

    /// Opens it from its figures, in the order of the line, or denies the first that is out of range.
    fn from_figures(figures: &[i32]) -> Result<Self, Denial>
        requires { length figures.now ≡ FIGURES };
}

impl FromFigures for PipeProver {
    const FIGURES: u8 = 5;

    ghost FIGURES = { 5 };

    fn from_figures(figures: &[i32]) -> Result<PipeProver, Denial> {
        let &[volume, bore, wall, modulus, expansion] = figures else {
            unreachable!();
        };
        let section = SectionFigures {
            volume,
            bore,
            wall,
            modulus,
        };
        PipeProver::open(&section, expansion)
    }
}

impl FromFigures for CompactProver {
    const FIGURES: u8 = 6;

    ghost FIGURES = { 6 };

    fn from_figures(figures: &[i32]) -> Result<CompactProver, Denial> {
        let &[volume, bore, wall, modulus, area_expansion, rod_expansion] = figures else {
            unreachable!();
        };
        let section = SectionFigures {
            volume,
            bore,
            wall,
            modulus,
        };
        CompactProver::open(&section, area_expansion, rod_expansion)
    }
}

impl FromFigures for Linear {
    const FIGURES: u8 = 2;

    ghost FIGURES = { 2 };

    fn from_figures(figures: &[i32]) -> Result<Linear, Denial> {
        let &[expansion, compressibility] = figures else {
            unreachable!();
        };
        Linear::open(expansion, compressibility)
    }
}

impl FromFigures for Exponential {
    const FIGURES: u8 = 4;

    ghost FIGURES = { 4 };

    fn from_figures(figures: &[i32]) -> Result<Exponential, Denial> {
        let &[density, k0, k1, k2] = figures else {
            unreachable!();
        };
        Exponential::open(density, k0, k1, k2)
    }
}
