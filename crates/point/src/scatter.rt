// S, the scatter of a point's values; S0, the scatter of their mean; and ε, the random limit.
ghost use Rattle.std.specs.Prelude.{◌≡◌, ℕ, ◌+◌, ◌-◌, ◌*◌, ◌^◌, ◌<◌, ◌≤◌, List, length, pos, ◌+ℤ◌, ◌≤ℤ◌, unsigned_abs};
ghost use Rattle.exact.specs.Fractions.{Fraction};
ghost use Rattle.exact.specs.Figures.{number};
ghost use Rattle.exact.specs.Pairs.{Holds, steps, floor, ceiling};
ghost use Rattle.pass.specs.Kinds.{Kind};
ghost use Rattle.point.specs.Points.{mean as exact_mean, scatter as exact_scatter, of_mean as exact_of_mean, random as exact_random, student};
ghost use Rattle.point.specs.Levels.{level as level_of};
ghost use Rattle.point.specs.Deviations.{Deviates};
ghost use Rattle.point.specs.Rows.{Held};
ghost use Rattle.point.specs.Outcomes.{Workable};

use crate::bounds::Bounds;
use crate::deviations::spread;
use crate::ends::Ends;
use crate::level::Level;
use crate::mean::lowered;
use crate::roots::{root_ceil, root_floor};
use crate::statistic::Statistic;
use crate::student::quantile;
use exact::pair::Pair;

/// A divisor's end squared, times what the squares are shared by: what they are divided by under the root.
fn bottom(shares: u64, end: u64) -> u128
    requires shares { (1 ≤ shares) × (shares ≤ 380) }
    requires end { (90000000 ≤ end) × (end ≤ 111111112) }
    ensures value { result ≡ shares * (end * end) }
    ensures range { (0 < result) × (result < 2 ^ 126) }
{
    shares as u128 * (end as u128 * end as u128)
}

/// What scatter is worked out from: the sum of squared deviations, in squared steps, and what scatter is divided by.
/// Which exact values they hold is said in clauses, since no field has those values.
#[derive(Clone, Copy, Drop)]
pub(crate) struct Deviations {
    squares: Bounds,
    divisor: Level,
    passes: u64,
    ghost counted: { (5 ≤ passes) × (passes ≤ 20) },
    ghost small: { squares.high ≤ passes * 445679049876544 },
    ghost narrow: { (k s : ℕ) → (k * s) * squares.high ≤ (k * (s + k)) * squares.low + (s * (s + k)) * (passes * (601 * 601)) },
}

impl Deviations {
    /// The squared deviations of a point's values, from its mean near 1.
    pub(crate) fn of<V: Statistic>(rows: &[Ends], level: Level) -> Deviations
        requires { Workable V.Value.kind rows.now }
        ensures passes { result.passes ≡ length rows.now }
        ensures holds { (xs : List Fraction) → Held rows.now xs → Holds steps (pos level.low) (pos level.high) (number (level_of V.Value.kind (exact_mean xs))) → Deviates V.Value.kind xs result.squares.low result.squares.high result.divisor.low result.divisor.high }
    {
        Deviations {
            squares: spread::<V>(rows, level),
            divisor: V::divisor(lowered::<V>(level)),
            passes: rows.len() as u64,
        }
    }

    /// The root of the squares over shares times the divisor's square, in steps.
    fn relative_root(self, shares: u64) -> Bounds
        requires { (1 ≤ shares) × (shares ≤ 380) }
        ensures under { (result.low * result.low) * (shares * (self.divisor.high * self.divisor.high)) ≤ self.squares.low * 10000000000000000 }
        ensures near_low { self.squares.low * 10000000000000000 < ((result.low + 1) * (result.low + 1)) * (shares * (self.divisor.high * self.divisor.high)) }
        ensures over { self.squares.high * 10000000000000000 ≤ (result.high * result.high) * (shares * (self.divisor.low * self.divisor.low)) }
        ensures near_high { (j : ℕ) → result.high ≡ j + 1 → (j * j) * (shares * (self.divisor.low * self.divisor.low)) < self.squares.high * 10000000000000000 }
    {
        let least = self.squares.low as u128 * 10_000_000_000_000_000;
        let most = self.squares.high as u128 * 10_000_000_000_000_000;
        Bounds {
            low: root_floor(least, bottom(shares, self.divisor.high)),
            high: root_ceil(most, bottom(shares, self.divisor.low)),
        }
    }

    /// S, in steps: the root of the squares over n − 1, against the divisor.
    pub(crate) fn scatter(self) -> Pair
        ensures holds { (k : Kind) (xs : List Fraction) → length xs ≡ self.passes → Deviates k xs self.squares.low self.squares.high self.divisor.low self.divisor.high → Holds steps result.low result.high (exact_scatter k xs) }
        ensures range { (pos 0 ≤ℤ result.low) × (result.high ≤ℤ pos 40001200) }
        ensures narrow { result.high ≤ℤ (result.low +ℤ pos 1200) }
    {
        self.relative_root(self.passes - 1).pair()
    }

    /// S0, in steps: the root of the squares over n·(n − 1), against the divisor.
    pub(crate) fn of_mean(self) -> Pair
        ensures holds { (k : Kind) (xs : List Fraction) → length xs ≡ self.passes → Deviates k xs self.squares.low self.squares.high self.divisor.low self.divisor.high → Holds steps result.low result.high (exact_of_mean k xs) }
        ensures range { (pos 0 ≤ℤ result.low) × (result.high ≤ℤ pos 14000520) }
        ensures narrow { result.high ≤ℤ (result.low +ℤ pos 520) }
    {
        self.relative_root(self.passes * (self.passes - 1)).pair()
    }
}

/// ε = t·S0, in steps; each end is rounded once.
#[tactic(auto, using(exact::proofs::Quotients::div_ceil_ceiling))]
pub(crate) fn random_limit(passes: usize, of_mean: Pair) -> Pair
    requires passes { (5 ≤ passes) × (passes ≤ 20) }
    requires range { (pos 0 ≤ℤ of_mean.low) × (of_mean.high ≤ℤ pos 14000520) }
    requires narrow { of_mean.high ≤ℤ (of_mean.low +ℤ pos 520) }
    ensures low { result.low ≡ pos (floor (student passes * unsigned_abs of_mean.low) 1000) }
    ensures high { result.high ≡ pos (ceiling (student passes * unsigned_abs of_mean.high) 1000) }
    ensures holds { (k : Kind) (xs : List Fraction) → length xs ≡ passes → Holds steps of_mean.low of_mean.high (exact_of_mean k xs) → Holds steps result.low result.high (exact_random k xs) }
    ensures range { (pos 0 ≤ℤ result.low) × (result.high ≤ℤ pos 40000000) }
    ensures narrow { result.high ≤ℤ (result.low +ℤ pos 1450) }
{
    let t = u64::from(quantile(passes));
    let ends = Bounds::of(of_mean);
    let limit = Bounds {
        low: t * ends.low / 1_000,
        high: (t * ends.high).div_ceil(1_000),
    };
    limit.pair()
}
