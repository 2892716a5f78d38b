// The work of each kind of line that has a record.
use crate::answers::{Answer, Answered, Proving, Refusal};
use crate::figures::FromFigures;
use crate::lines::figures_and_record;
use liquid::meaning::Liquid;
use liquid::question::Question;
use pass::meter::Meter;
use pass::readings::Record;
use prover::prover::Prover;
use reference::master::MasterMeter;
use sheet::figures::Sheet;
use vessel::vessel::Vessel;

/// What a line's figures open, and the record of its pass.
fn opened_and_record<T: FromFigures>(numbers: &[i32]) -> Result<(T, Record), Refusal> {
    let count = usize::from(T::FIGURES);
    let (figures, pass) = figures_and_record(numbers, count).ok_or(Refusal::Unread)?;
    Ok((T::from_figures(figures)?, pass))
}

/// The volume of a vessel in a pass.
pub fn volume_of<V: Vessel + FromFigures>(numbers: &[i32]) -> Answered {
    let (vessel, pass) = opened_and_record::<V>(numbers)?;
    Ok(Answer::Volume(vessel.ask(&pass)?))
}

/// The carry factor of a liquid in a pass.
pub fn carry_of<L: Liquid + FromFigures>(numbers: &[i32]) -> Answered {
    let (liquid, pass) = opened_and_record::<L>(numbers)?;
    Ok(Answer::Carry(liquid.ask(&Question::from(&pass))?))
}

/// A pass against a master meter.
pub fn against_master(numbers: &[i32]) -> Answered {
    let (figures, pass) = figures_and_record(numbers, 2).ok_or(Refusal::Unread)?;
    let &[set_factor, factor] = figures else {
        unreachable!();
    };
    let meter = Meter::open(set_factor)?;
    let master = MasterMeter::open(factor)?;
    Ok(Answer::Sheet(Sheet::against(&meter, &master, &pass)?))
}

/// A pass against a prover of any vessel and any liquid, whose figures are denied before the meter's set factor.
pub fn against_prover<V: Vessel + FromFigures, L: Liquid + FromFigures>(
    numbers: &[i32],
) -> Answered {
    let of_vessel = usize::from(V::FIGURES);
    let of_liquid = usize::from(L::FIGURES);
    let count = 1 + of_vessel + of_liquid;
    let (figures, pass) = figures_and_record(numbers, count).ok_or(Refusal::Unread)?;
    let [set_factor, others @ ..] = figures else {
        unreachable!();
    };
    let (vessel, liquid) = others.split_at(of_vessel);
    let prover = Prover {
        vessel: V::from_figures(vessel)?,
        liquid: L::from_figures(liquid)?,
    };
    let meter = Meter::open(*set_factor)?;
    let sheet = Sheet::against(&meter, &prover, &pass)?;
    let volume = prover.vessel.ask(&pass)?;
    let factor = prover.liquid.ask(&Question::from(&pass))?;
    Ok(Answer::Proving(Proving {
        volume,
        factor,
        sheet,
    }))
}
