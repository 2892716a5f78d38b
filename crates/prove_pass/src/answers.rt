// What a line is answered, or why it gets no figures.
ghost use Rattle.std.specs.Prelude.{◌≡◌};
ghost use Rattle.prove_pass.specs.declared.answers.Refusal.TheVariants.{Denied, Faulted};

use exact::pair::Pair;
use pass::denials::{Denial, Field};
use point::figures::Point;
use range::figures::Range;
use sheet::figures::Sheet;

/// A pass against a prover: its volume, its carry factor and its sheet.
#[derive(Clone, Copy, Drop)]
pub struct Proving {
    /// In microlitres.
    pub volume: Pair,
    /// In steps.
    pub factor: Pair,
    pub sheet: Sheet,
}

/// The answer to a line.
#[derive(Clone, Copy, Drop)]
pub enum Answer {
    /// A volume, in microlitres.
    Volume(Pair),
    /// A carry factor, in steps.
    Carry(Pair),
    /// A pass against a master meter.
    Sheet(Sheet),
    /// A pass against a prover.
    Proving(Proving),
    /// A flow point.
    Point(Point),
    /// The range that the kept points span.
    Range(Range),
}

/// Why a line gets no figures.
#[derive(Clone, Copy, Drop)]
pub enum Refusal {
    /// The line is none of the program's.
    Unread,
    /// A call was denied.
    Denied(Denial),
    /// The device does not take the record: the field that it faults.
    Faulted(Field),
}

impl From<Denial> for Refusal {
    ghost from_gives = { λ denial refusal. refusal ≡ Denied denial };

    fn from(denial: Denial) -> Refusal {
        Refusal::Denied(denial)
    }
}

impl From<Field> for Refusal {
    ghost from_gives = { λ field refusal. refusal ≡ Faulted field };

    fn from(field: Field) -> Refusal {
        Refusal::Faulted(field)
    }
}

/// The answer to a line, or why it gets no figures.
pub type Answered = Result<Answer, Refusal>;
