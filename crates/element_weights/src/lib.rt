// The weights of an accepted table's elements: worked out in lent numbers before the elements are, so that the series of several elements go
// on at the same time; the program keeps them for all its steps.
#![tactic(auto)]

ghost use Rattle.std.specs.Prelude.{◌≡◌, ◌≤◌, length};
ghost use Rattle.units.specs.Units.{S};
ghost use Rattle.table.specs.InUse.{table_in};
ghost use Rattle.element_weights.specs.Weights.{element_weight, Weighable, ElementKnown, WeightsHeld};

use elements::lag_at;
use weighting::weight::series_weight;

// The weight of element i, worked out: a dam, whose lag is 0, has none.
fn work_weight(table: &[u8], step: u64, i: usize) -> u64
    requires { ElementKnown table.now step i }
    ensures { (result ≡ element_weight (table_in table.now) i) × (result ≤ S) }
{
    let lag = lag_at(table, i);
    if lag == 0 {
        return 0;
    }
    series_weight(step, lag)
}

// The weights of the n elements of an accepted table with this step, put into lent numbers.
pub fn put_weights(table: &[u8], step: u64, n: usize, weights: &mut [u64])
    requires { Weighable table.now step n × (n ≤ length weights.old) }
    ensures { WeightsHeld (table_in table.now) weights.new }
{
    // (By the number: the table is read by it, too.)
    for i in 0..n {
        weights[i] = work_weight(table, step, i);
    }
}
