// The linear liquid: its opening and its carry factor.
ghost use Rattle.std.specs.Prelude.{◌≡◌, ◌+◌, ◌*◌, ◌≤◌, pos};

use crate::conditions::Conditions;
use crate::meaning::Liquid;
use crate::question::Question;
use exact::pair::Pair;
use exact::rounding::Quotient;
use pass::denials::{Denial, Field};
use pass::ranges::{Pressure, Temperature, in_range};

/// A liquid whose density goes linearly with temperature and pressure.
#[derive(Clone, Copy, Drop)]
pub struct Linear {
    /// β, thermal expansion, in 10⁻⁶ per °C.
    pub expansion: u32,
    /// γ, compressibility, in 10⁻⁶ per MPa.
    pub compressibility: u32,
    ghost expanding: { expansion ≤ 2000 },
    ghost compressible: { compressibility ≤ 5000 },
}

impl Linear {
    ghost use Rattle.liquid.specs.Linear.{tenths as tenths_of, LinearOpened};

    /// A linear liquid: β 0 to 2,000 in 10⁻⁶ per °C, γ 0 to 5,000 in 10⁻⁶ per MPa.
    pub fn open(expansion: i32, compressibility: i32) -> Result<Linear, Denial>
        ensures { LinearOpened expansion compressibility result }
    {
        let expansion = in_range(expansion, 0, 2_000).ok_or(Denial::Figure(1))?;
        let compressibility = in_range(compressibility, 0, 5_000).ok_or(Denial::Figure(2))?;
        Ok(Linear {
            expansion,
            compressibility,
        })
    }

    /// βt + γP, in tenths of a step.
    #[tactic(auto, using(crate::specs::Linears::parts_most))]
    fn change(&self, temperature: Temperature, pressure: Pressure) -> u64
        ensures value { result ≡ 10 * self.now.expansion * temperature.raised + self.now.compressibility * pressure.kilopascals }
        ensures most { result ≤ 170000000 }
    {
        10 * self.expansion as u64 * temperature.raised as u64
            + self.compressibility as u64 * pressure.kilopascals as u64
    }

    /// The carry factor in tenths of a step, exactly.
    fn tenths(&self, at: &Conditions) -> u64
        ensures value { result ≡ tenths_of self.now.expansion self.now.compressibility at.now.densitometer_temperature.raised at.now.densitometer_pressure.kilopascals at.now.wall_temperature.raised at.now.vessel_pressure.kilopascals }
        ensures range { (830000000 ≤ result) × (result ≤ 1170000000) }
    {
        let more = self.change(at.densitometer_temperature, at.vessel_pressure);
        let less = self.change(at.wall_temperature, at.densitometer_pressure);
        1_000_000_000 + more - less
    }
}

impl Liquid for Linear {
    ghost use Rattle.liquid.specs.Linear.{linear_factor, linear_answer};
    ghost use Rattle.liquid.specs.Linears.{linear_carries};

    ghost factor = { λ l q. linear_factor (pos l.expansion) (pos l.compressibility) q };

    ghost answer = { linear_answer };

    ghost carries = { λ l q h. linear_carries l.expansion l.compressibility q l.expanding l.compressible h };

    fn ask(&self, question: &Question) -> Result<Pair, Field> {
        let conditions = Conditions::try_from(question)?;
        let tenths = Quotient {
            top: self.tenths(&conditions) as u128,
            bottom: 10,
        };
        Ok(tenths.pair())
    }
}
