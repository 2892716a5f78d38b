// The sum of xᵏ/k! for k from 0 to 20, in units of 10⁻¹².
#![tactic(auto)]

ghost use Rattle.std.specs.Prelude.{◌*◌, ◌+◌, ◌≤◌, ◌≡◌};
ghost use Rattle.expsum.specs.Terms.{terms, next_term_lem};

/// The even terms of the sum and its odd terms, in units of 10⁻¹².
#[derive(Clone, Copy, Drop)]
pub struct Parts {
    pub even: u128,
    pub odd: u128,
}

/// From one term to the k-th, rounded down.
#[tactic(auto, using(crate::proofs::Bounds::next_small))]
fn next_term(size: u128, k: u128, term: u128) -> u128
    requires small { (size ≤ 1500000000000) × (term ≤ 1500000000000) }
    requires place { (2 ≤ k) × (k ≤ 20) }
    ensures value { result ≡ next_term_lem size k term }
    ensures small { result ≤ 1500000000000 }
{
    term * size / (k * 1_000_000_000_000)
}

/// The terms 0 to 20 for an argument of this size. The sum is even + odd for a positive argument, even − odd for a negative one.
#[tactic(auto, using(crate::proofs::Bounds::sums_most, crate::proofs::Bounds::last_most), unfolding(crate::specs::Terms::terms))]
pub fn sum(size: u128) -> Parts
    requires small { size ≤ 1500000000000 }
    ensures even { result.even ≡ (terms size 9).even }
    ensures odd { result.odd ≡ (terms size 9).odd }
{
    let mut last = next_term(size, 2, size);
    let mut even = 1_000_000_000_000 + last;
    let mut odd = size;
    for j in 0..9u128 {
        let middle = next_term(size, 2 * j + 3, last);
        odd += middle;
        last = next_term(size, 2 * j + 4, middle);
        even += last;
    }
    Parts { even, odd }
}
