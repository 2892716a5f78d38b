// Roots of quotients, rounded down and up; each end is rounded once.
ghost use Rattle.std.specs.Prelude.{◌≡◌, ℕ, ◌+◌, ◌*◌, ◌^◌, ◌<◌, ◌≤◌};

/// The greatest whole number whose square is at most top/bottom.
pub fn root_floor(top: u128, bottom: u128) -> u64
    requires { 0 < bottom }
    ensures under { (result * result) * bottom ≤ top }
    ensures near { top < ((result + 1) * (result + 1)) * bottom }
{
    (top / bottom).isqrt() as u64
}

/// The least whole number whose square is at least a number.
fn root_over(square: u128) -> u64
    requires { square < 2 ^ 127 }
    ensures over { square ≤ result * result }
    ensures near { (k : ℕ) → result ≡ k + 1 → k * k < square }
{
    let root = square.isqrt() as u64;
    if root as u128 * root as u128 == square {
        root
    } else {
        root + 1
    }
}

/// The least whole number whose square is at least top/bottom.
#[tactic(auto, using(crate::proofs::RootBounds::times_ceil, crate::proofs::RootBounds::ceil_times))]
pub fn root_ceil(top: u128, bottom: u128) -> u64
    requires some { 0 < bottom }
    requires small { (bottom < 2 ^ 126) × (top < 2 ^ 126) }
    ensures over { top ≤ (result * result) * bottom }
    ensures near { (k : ℕ) → result ≡ k + 1 → (k * k) * bottom < top }
{
    root_over(top.div_ceil(bottom))
}
