// The series weight H of an element.
ghost use Rattle.std.specs.Prelude.{◌≡◌, ◌+◌, ◌*◌, ◌/◌, ◌≤◌, ◌<◌};
ghost use Rattle.units.specs.Units.{S};
ghost use Rattle.weighting.specs.Weight.{weight};

use crate::SCALE;

// 2^34: to divide by it is a shift, and it times S fits in 64 bits.
const SHARES: u64 = 17_179_869_184;

// x / lag, where `near` is that or one less.
fn quotient(x: u64, lag: u64, near: u64) -> u64
    requires { ((1 ≤ lag) × ((lag ≤ 60000) × (x ≤ 60000 * S))) × ((near * lag ≤ x) × (x < near * lag + 2 * lag)) }
    ensures { result ≡ x / lag }
{
    if near * lag + lag <= x {
        near + 1
    } else {
        near
    }
}

// H, the share of its old outflow that an element keeps over one step, out of S.
// step / lag is divided once, out of SHARES; each turn takes its quotient by lag from that.
pub fn series_weight(step: u64, lag: u64) -> u64
    requires { (1 ≤ step) × ((step ≤ lag) × (lag ≤ 60000)) }
    ensures { (result ≡ weight step lag) × (result ≤ S) }
{
    let share = step * SHARES / lag;
    let mut h = SCALE;
    for m in (1..=12).rev() {
        h = SCALE - quotient(step * h, lag, h * share / SHARES) / m;
    }
    h
}
