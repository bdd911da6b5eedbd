// The sums of the last rains, for a forecast.
#![tactic(auto)]

ghost use Rattle.std.specs.Prelude.{◌≡◌, ◌≤◌, ◌<◌};
ghost use Rattle.sizes.specs.Sizes.{most_places};
ghost use Rattle.state.specs.States.{rains_of};
ghost use Rattle.state.specs.Bounds.{RainsUnder};
ghost use Rattle.network.specs.Forecast.{rain_count, rain_sum};

use sizes::STATE_NUMBERS;
use state::{Rains, rains_of};

// The smaller of 3 and the step count.
#[tactic(auto, unfolding(network::specs::Forecast::rain_count))]
pub fn rain_count(steps: u64) -> u64
    ensures { (result ≡ rain_count steps) × (result ≤ 3) }
{
    steps.min(3)
}

// The sum of the last rains.
#[tactic(auto, unfolding(network::specs::Forecast::rain_sum))]
fn rain_sum(rains: Rains, count: u64) -> u64
    requires { (count ≤ 3) × RainsUnder rains }
    ensures { (result ≡ rain_sum rains count) × (result ≤ 9000) }
{
    match count {
        0 => 0,
        1 => rains.first,
        2 => rains.first + rains.second,
        _ => rains.first + rains.second + rains.third,
    }
}

// The sum of the last rains of element i, a basin.
pub fn sum_of(state: &[u64; STATE_NUMBERS], i: usize, count: u64) -> u64
    requires { (i < most_places) × ((count ≤ 3) × RainsUnder (rains_of state.now i)) }
    ensures { (result ≡ rain_sum (rains_of state.now i) count) × (result ≤ 9000) }
{
    rain_sum(rains_of(state, i), count)
}
