// The parts of the exponential liquid's carry factor that none of its figures enters, in whole units of 10⁻¹².
ghost use Rattle.std.specs.Prelude.{◌≡◌, ◌≤◌};
ghost use Rattle.petroleum.specs.Rounded.{rising as rising_of, falling as falling_of, bent as bent_of, beside_density_lem};

use expsum::sum;
use pass::ranges::Temperature;

/// e(a) for an argument of this size.
#[tactic(auto, using(expsum::proofs::Bounds::sized, crate::specs::Elastics::sums_most), unfolding(crate::specs::Rounded::rising))]
pub(crate) fn rising(size: u128) -> u128
    requires small { size ≤ 1400000000000 }
    ensures value { result ≡ rising_of size }
{
    let parts = sum(size);
    parts.even + parts.odd
}

/// e(−a) for an argument of this size: the sign is that of the odd terms, so that no number here has one.
#[tactic(auto, using(expsum::proofs::Bounds::odd_less), unfolding(crate::specs::Rounded::falling))]
pub(crate) fn falling(size: u128) -> u128
    requires small { size ≤ 1050000000000 }
    ensures value { result ≡ falling_of size }
{
    let parts = sum(size);
    parts.even - parts.odd
}

/// 0.8·y², rounded down.
#[tactic(auto, using(crate::specs::Thermals::bent_less), unfolding(crate::specs::Rounded::bent))]
pub(crate) fn bent(y: u128) -> u128
    requires small { y ≤ 70000000000 }
    ensures value { result ≡ bent_of y }
    ensures less { result ≤ y }
{
    4 * y * y / 5_000_000_000_000
}

/// The part of the exponent of g that is not over r².
#[tactic(auto, unfolding(crate::specs::Rounded::beside_density_lem))]
pub(crate) fn beside_density(temperature: Temperature) -> u128
    ensures value { result ≡ beside_density_lem temperature.raised }
{
    100 * (16_229_592_000 - 21_592 * temperature.raised as u128)
}
