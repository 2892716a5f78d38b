// A prover as a reference, over any vessel and any liquid.
ghost use Rattle.std.specs.Prelude.{◌≡◌};
ghost use Rattle.std.proofs.Common.{rules};
ghost use Rattle.liquid.specs.Asking.{question_of};
ghost use Rattle.prover.specs.Masses.{mass_of, mass_ends, prover_takes, prover_fault};
ghost use Rattle.prover.specs.Weights.{prover_weighs, prover_same};

use crate::products::weigh;
use crate::weighing::{density, factor, volume};
use liquid::meaning::Liquid;
use pass::denials::{Device, Fault, Field};
use pass::masses::ReferenceMass;
use pass::passes::Passes;
use pass::readings::Record;
use reference::reference::Reference;
use vessel::vessel::Vessel;

/// A prover: a vessel, and the liquid that carries the density from the densitometer to it.
#[derive(Clone, Copy, Drop)]
pub struct Prover<V, L> {
    pub vessel: V,
    pub liquid: L,
}

impl<V: Vessel, L: Liquid> Reference for Prover<V, L> {
    ghost takes = { λ p r. prover_takes (V.Vessel.takes p.vessel r) r (mass_ends (V.Vessel.answer p.vessel r) r.density (L.Liquid.answer p.liquid (question_of r))) };

    ghost fault = { λ p r. prover_fault (V.Vessel.takes p.vessel r) (V.Vessel.fault p.vessel r) r };

    ghost mass = { λ p r. mass_of (V.Vessel.volume p.vessel r) r.density (L.Liquid.factor p.liquid (question_of r)) };

    ghost answer = { λ p r. mass_ends (V.Vessel.answer p.vessel r) r.density (L.Liquid.answer p.liquid (question_of r)) };

    ghost alike = { λ p q. V.Vessel.alike p q × (question_of p ≡ question_of q) × (p.density ≡ q.density) };

    ghost least = { λ _. record { working = V.Vessel.LEAST_WORKING; check = V.Vessel.LEAST_CHECK } };

    ghost working = { Prim.search rules };

    ghost check = { Prim.search rules };

    ghost good = { λ p r. prover_weighs (V.Vessel.takes p.vessel r) (V.Vessel.width p.vessel) (V.Vessel.volume p.vessel r) (L.Liquid.factor p.liquid (question_of r)) (V.Vessel.answer p.vessel r) (L.Liquid.answer p.liquid (question_of r)) r
        (V.Vessel.narrow p.vessel) (V.Vessel.good p.vessel r) (L.Liquid.carries p.liquid (question_of r)) };

    ghost same = { λ s p q alike. prover_same (L.Liquid.factor s.liquid) (L.Liquid.answer s.liquid) p q (V.Vessel.same s.vessel p q alike.0) alike.1 alike.2 };

    fn passes(&self) -> Passes {
        V::passes()
    }

    fn ask(&self, pass: &Record) -> Result<ReferenceMass, Fault> {
        let volume = volume(&self.vessel, pass)?;
        let density = density(pass)?;
        let factor = factor(&self.liquid, pass)?;
        let mass = weigh(volume, density.hundredths, factor);
        ReferenceMass::new(mass).ok_or(Fault {
            device: Device::Mass,
            field: Field::Together,
        })
    }
}
