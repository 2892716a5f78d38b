// The exponential liquid: its opening, and its carry factor worked out in whole units of 10⁻¹².
// A temperature is in 0.01 °C above −10 °C, so that 15 °C is 2,500.
ghost use Rattle.std.specs.Prelude.{◌≡◌, ◌+◌, ◌*◌, ◌≤◌, true, false, MatchOption};

use crate::coefficients::{Coefficients, downward, square};
use crate::units::{bent, beside_density, falling, rising};
use exact::pair::Pair;
use liquid::conditions::Conditions;
use liquid::meaning::Liquid;
use liquid::question::Question;
use pass::denials::{Denial, Field};
use pass::ranges::{Density, Pressure, Temperature, in_range};

/// A petroleum liquid whose density goes exponentially with temperature.
#[derive(Clone, Copy, Drop)]
pub struct Exponential {
    /// r, density at 15 °C.
    pub density: Density,
    pub coefficients: Coefficients,
    ghost least: { let r = density.hundredths in 10000 * (r * r) + coefficients.minus_k2 * (r * r) ≤ 100000000 * coefficients.k0 + 1000000 * coefficients.k1 * r },
    ghost most: { let r = density.hundredths in 100000000 * coefficients.k0 + 1000000 * coefficients.k1 * r ≤ 200000 * (r * r) + coefficients.minus_k2 * (r * r) },
}

impl Exponential {
    ghost use Rattle.petroleum.specs.Exponential.{figures_of, expansive, ExponentialOpened};
    ghost use Rattle.petroleum.specs.Rounded.{slope as slope_of, straight as straight_of, thermal_units, over_density_lem, compressibility_units, elastic_units, carried as carried_of};

    /// The liquid of a density and coefficients, if b lies in 0.0001 to 0.002, judged exactly: b is compared times 10⁸r².
    #[tactic(auto, using(crate::proofs::Expansions::expansive_is, std::proofs::lemmas::Bool::Decides::nat_tests))]
    fn new(density: Density, coefficients: Coefficients) -> Option<Exponential>
        ensures { MatchOption result (expansive (figures_of density coefficients) ≡ false) (λ l. (expansive (figures_of density coefficients) ≡ true) × (l.density ≡ density) × (l.coefficients ≡ coefficients)) }
    {
        let square = square(density);
        let above = coefficients.above(density);
        let below = coefficients.below(density);
        if 10_000 * square + below <= above && above <= 200_000 * square + below {
            Some(Exponential {
                density,
                coefficients,
            })
        } else {
            None
        }
    }

    /// An exponential liquid: density at 15 °C 60,000 to 120,000 in 0.01 kg/m³, K0 0 to 30,000,000 and K1 0 to 10,000 in 10⁻⁴,
    /// K2 −340,000 to 0 in 10⁻⁸, which together give a thermal expansion of 0.0001 to 0.002 per °C.
    pub fn open(density: i32, k0: i32, k1: i32, k2: i32) -> Result<Exponential, Denial>
        ensures { ExponentialOpened (record { density = density; k0 = k0; k1 = k1; k2 = k2 }) result }
    {
        let density = Density::new(density).ok_or(Denial::Figure(1))?;
        let coefficients = Coefficients {
            k0: in_range(k0, 0, 30_000_000).ok_or(Denial::Figure(2))?,
            k1: in_range(k1, 0, 10_000).ok_or(Denial::Figure(3))?,
            minus_k2: downward(k2).ok_or(Denial::Figure(4))?,
        };
        Exponential::new(density, coefficients).ok_or(Denial::Figure(5))
    }

    /// b times 10⁸r².
    #[tactic(auto, using(crate::specs::Thermals::slope_most, crate::specs::Openings::square_most), unfolding(crate::specs::Rounded::slope))]
    fn slope(&self) -> u128
        ensures value { result ≡ slope_of self.now }
        ensures most { result ≤ 2880000000000000 }
    {
        self.coefficients.above(self.density) - self.coefficients.below(self.density)
    }

    /// The size of bΔ.
    #[tactic(auto, using(crate::specs::Thermals::straight_small), unfolding(crate::specs::Rounded::straight))]
    fn straight(&self, temperature: Temperature) -> u128
        ensures value { result ≡ straight_of self.now temperature.raised }
        ensures most { result ≤ 70000000000 }
    {
        let away = temperature.raised.abs_diff(2_500) as u128;
        100 * self.slope() * away / square(self.density)
    }

    /// e(−bΔ(1 + 0.8bΔ)).
    #[tactic(auto, using(crate::specs::Thermals::warm_range, crate::specs::Thermals::cold_range), unfolding(crate::specs::Rounded::thermal_units))]
    fn thermal(&self, temperature: Temperature) -> u128
        ensures value { result ≡ thermal_units self.now temperature.raised }
        ensures range { (926000000000 ≤ result) × (result ≤ 1053000000000) }
    {
        let straight = self.straight(temperature);
        if temperature.raised >= 2_500 {
            falling(straight + bent(straight))
        } else {
            rising(straight - bent(straight))
        }
    }

    /// The part of the exponent of g that is over r², rounded down.
    #[tactic(auto, unfolding(crate::specs::Rounded::over_density_lem))]
    fn over_density(&self, temperature: Temperature) -> u128
        ensures value { result ≡ over_density_lem self.now temperature.raised }
    {
        let top = 8_288_680_000 + 420_920 * temperature.raised as u128;
        1_000_000_000_000 * top / square(self.density)
    }

    /// 1,000·g.
    #[tactic(auto, using(crate::specs::Elastics::above_small, crate::specs::Elastics::below_small), unfolding(crate::specs::Rounded::compressibility_units))]
    fn compressibility(&self, temperature: Temperature) -> u128
        ensures value { result ≡ compressibility_units self.now temperature.raised }
    {
        let over = self.over_density(temperature);
        let beside = beside_density(temperature);
        if beside <= over {
            rising(over - beside)
        } else {
            falling(beside - over)
        }
    }

    /// 1 − gP, rounded down.
    #[tactic(auto, using(crate::specs::Elastics::elastic_units_is, crate::specs::Elastics::elastic_range, crate::specs::Elastics::taken_most))]
    fn elastic(&self, temperature: Temperature, pressure: Pressure) -> u128
        ensures value { result ≡ elastic_units self.now temperature.raised pressure.kilopascals }
        ensures range { (956000000000 ≤ result) × (result ≤ 1001000000000) }
    {
        let taken = self.compressibility(temperature) * pressure.kilopascals as u128;
        (1_000_000_000_000_000_000 - taken) / 1_000_000
    }

    /// The carry factor in steps, rounded down.
    #[tactic(auto, using(crate::specs::Exponentials::product_most, crate::specs::Exponentials::factor_positive, crate::specs::Exponentials::steps_range), unfolding(crate::specs::Rounded::carried))]
    fn carried(&self, at: &Conditions) -> u64
        ensures value { result ≡ carried_of self.now at.now.densitometer_temperature.raised at.now.densitometer_pressure.kilopascals at.now.wall_temperature.raised at.now.vessel_pressure.kilopascals }
        ensures range { (83900000 ≤ result) × (result ≤ 119100000) }
    {
        let thermal = self.thermal(at.wall_temperature);
        let elastic = self.elastic(at.wall_temperature, at.vessel_pressure);
        let thermal_before = self.thermal(at.densitometer_temperature);
        let elastic_before = self.elastic(at.densitometer_temperature, at.densitometer_pressure);
        (100_000_000 * thermal * elastic_before / (thermal_before * elastic)) as u64
    }
}

impl Liquid for Exponential {
    ghost use Rattle.petroleum.specs.Exponential.{figures, exponential_factor};
    ghost use Rattle.petroleum.specs.Exponentials.{exponential_carries};
    ghost use Rattle.petroleum.specs.Rounded.{exponential_answer};

    ghost factor = { λ l q. exponential_factor (figures l) q };

    ghost answer = { exponential_answer };

    ghost carries = { λ l q h. exponential_carries l q h };

    fn ask(&self, question: &Question) -> Result<Pair, Field> {
        let conditions = Conditions::try_from(question)?;
        let steps = self.carried(&conditions) as i64;
        Ok(Pair {
            low: steps - 1,
            high: steps + 2,
        })
    }
}
