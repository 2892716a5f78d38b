// A vessel that takes no record: a prover that is sealed off.
ghost use Rattle.foreign.specs.Sealed.{never, faulty, nothing, none, Any};
ghost use Rattle.std.proofs.Common.{rules};

use exact::pair::Pair;
use pass::denials::Field;
use pass::readings::Record;
use vessel::vessel::Vessel;

/// A prover whose valves are sealed: it declines every record, at its wall temperature.
#[derive(Clone, Copy, Drop)]
pub struct SealedProver;

impl Vessel for SealedProver {
    const LEAST_WORKING: u8 = 20;

    const LEAST_CHECK: u8 = 20;

    const WIDTH: u16 = 1_200;

    ghost LEAST_WORKING = { 20 };

    ghost LEAST_CHECK = { 20 };

    ghost width = { λ _. 1200 };

    ghost takes = { λ _ r. never r };

    ghost fault = { λ _ r. faulty r };

    ghost volume = { λ _ r. nothing r };

    ghost answer = { λ _ r. none r };

    ghost alike = { Any };

    ghost working = { Prim.search rules };

    ghost check = { Prim.search rules };

    ghost narrow = { Prim.search rules };

    ghost good = { Prim.search rules };

    ghost same = { Prim.search rules };

    fn spread(&self) -> u16 {
        Self::WIDTH
    }

    fn ask(&self, pass: &Record) -> Result<Pair, Field> {
        Err(Field::WallTemperature)
    }
}
