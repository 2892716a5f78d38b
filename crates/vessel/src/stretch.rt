// How far steel stretches with its temperature.
ghost use Rattle.std.specs.Prelude.{◌≡◌, ◌≤◌};
ghost use Rattle.vessel.specs.Provers.{stretch as stretched};

use pass::ranges::Temperature;

/// 10¹⁰·(1 + c(t − 20 °C)), with c in 10⁻⁸ per °C.
pub fn stretch(coefficient: u32, warm: Temperature) -> u128
    requires { coefficient ≤ 9000 }
    ensures { result ≡ stretched coefficient warm.raised }
{
    10_000_000_000 + coefficient as u128 * warm.raised as u128 - coefficient as u128 * 3_000
}
