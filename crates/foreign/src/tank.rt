// A reference that weighs: whatever the record says, the mass is what the scale shows.
ghost use Rattle.std.specs.Prelude.{◌≡◌, ◌≤◌, true, false, MatchOption};
ghost use Rattle.std.proofs.Common.{rules};
ghost use Rattle.foreign.specs.ShownWeighs.{shown_weighs};

use exact::pair::Pair;
use pass::denials::Fault;
use pass::masses::ReferenceMass;
use pass::passes::Passes;
use pass::readings::Record;
use reference::reference::Reference;

/// A tank on a scale, which weighed the liquid of the pass.
#[derive(Clone, Copy, Drop)]
pub struct TankScale {
    /// What the scale shows, in milligrams.
    pub shown: u64,
    ghost ranged: { (10000000 ≤ shown) × (shown ≤ 30000000000) },
}

impl TankScale {
    ghost use Rattle.foreign.specs.Tanks.{showing};

    /// A scale that shows so many milligrams, if a reference may give them.
    pub fn open(shown: u64) -> Option<TankScale>
        ensures { MatchOption result (showing shown ≡ false) (λ s. (showing shown ≡ true) × (s.shown ≡ shown)) }
    {
        if !(10_000_000..=30_000_000_000).contains(&shown) {
            return None;
        }
        Some(TankScale { shown })
    }
}

impl Reference for TankScale {
    ghost use Rattle.foreign.specs.Tanks.{every, faultless, shown_mass, shown_ends, Any, passes as least_passes};

    ghost takes = { every };

    ghost fault = { faultless };

    ghost mass = { shown_mass };

    ghost answer = { shown_ends };

    ghost alike = { Any };

    ghost least = { λ _. least_passes };

    ghost working = { Prim.search rules };

    ghost check = { Prim.search rules };

    ghost good = { λ s r h. shown_weighs s.shown s.ranged.0 s.ranged.1 };

    ghost same = { Prim.search rules };

    fn passes(&self) -> Passes {
        Passes {
            working: 5,
            check: 20,
        }
    }

    fn ask(&self, pass: &Record) -> Result<ReferenceMass, Fault> {
        let mass = self.shown as i64;
        Ok(ReferenceMass {
            pair: Pair {
                low: mass,
                high: mass,
            },
        })
    }
}
