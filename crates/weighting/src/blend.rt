// The blend of two estimates by a weight.
ghost use Rattle.std.specs.Prelude.{◌≡◌, ◌≤◌, ◌*◌, ◌/◌};
ghost use Rattle.units.specs.Units.{C, S};
ghost use Rattle.weighting.specs.Blend.{weighted_mean, gap_of, blended};
ghost use Rattle.weighting.specs.Estimates.{EstimateFits};

use crate::{Estimate, SCALE};

// x by the weight w and y by the rest of S.
fn weighted_mean(w: u64, x: u64, y: u64) -> u64
    requires { (w ≤ S) × ((x ≤ C) × (y ≤ C)) }
    ensures { (result ≡ weighted_mean w x y) × (result ≤ C) }
{
    (w * x + (SCALE - w) * y) / SCALE
}

// The larger of x and y less the smaller.
#[tactic(auto, unfolding(crate::specs::Blend::gap_of))]
fn gap(x: u64, y: u64) -> u64
    requires { (x ≤ C) × (y ≤ C) }
    ensures { (result ≡ gap_of x y) × (result ≤ C) }
{
    if x < y { y - x } else { x - y }
}

// What a weight that is g from the exact one can do to values so far apart.
fn weight_error(g: u64, apart: u64) -> u64
    requires { (g ≤ S) × (apart ≤ 12000000000) }
    ensures { (result ≡ g * apart / S) × (result ≤ 12000000000) }
{
    g * apart / SCALE
}

// The blend of x and y by the weight w, which is within g of the exact one. Its value is under the ceiling as theirs are;
// the margin may pass it, and is judged by those who know its unit.
#[tactic(auto, unfolding(crate::specs::Blend::blended))]
pub fn blend(w: u64, g: u64, x: Estimate, y: Estimate) -> Estimate
    requires { (w ≤ S) × ((g ≤ S) × (EstimateFits x × EstimateFits y)) }
    ensures { (result ≡ blended w g x y) × (result.value ≤ C) }
{
    let value = weighted_mean(w, x.value, y.value);
    let own = weighted_mean(w, x.margin, y.margin);
    let by_weight = weight_error(g, gap(x.value, y.value) + x.margin + y.margin);
    let margin = own + by_weight + 3;
    Estimate { value, margin }
}
