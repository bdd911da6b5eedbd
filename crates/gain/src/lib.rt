// The gain of a reading, and its margin.
#![tactic(auto)]

ghost use Rattle.std.specs.Prelude.{◌≡◌, ◌≤◌};
ghost use Rattle.units.specs.Units.{C, S};
ghost use Rattle.weighting.specs.Estimates.{EstimateFits};
ghost use Rattle.method.specs.Correction.{gain, gain_margin};

use weighting::{Estimate, SCALE};

// The gain of a reading over the element's own discharge, out of S.
pub fn gain_of(noise: u64, variance: u64) -> u64
    requires { (1 ≤ noise) × ((noise ≤ C) × (variance ≤ C)) }
    ensures { (result ≡ gain noise variance) × (result ≤ S) }
{
    SCALE * variance / (variance + noise)
}

// How far the gain may be from the exact one.
#[tactic(auto, unfolding(method::specs::Correction::gain_margin))]
pub fn gain_margin_of(noise: u64, variance: Estimate) -> u64
    requires { (1 ≤ noise) × ((noise ≤ C) × EstimateFits variance) }
    ensures { (result ≡ gain_margin noise variance) × (result ≤ S) }
{
    SCALE.min(SCALE * variance.margin / (variance.value + noise) + 2)
}
