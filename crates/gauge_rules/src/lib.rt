// Rule 7: the gauges' fields and order.
#![tactic(auto)]

ghost use Rattle.std.specs.Prelude.{◌≡◌, ◌≤◌, length};
ghost use Rattle.sizes.specs.Sizes.{most_elements, most_gauges};
ghost use Rattle.fields.specs.Ranges.{all_below};
ghost use Rattle.elements.specs.Elements.{element_at};
ghost use Rattle.gauges.specs.Gauges.{gauge_place, gauge_at};
ghost use Rattle.gauges.specs.Places.{Versioned};
ghost use Rattle.gauges.specs.Rules.{gauge_fits};
ghost use Rattle.gauge_rules.specs.Judged.{GaugeAfter};

use curve_rules::curve_fits;
use elements::{Kind, kind_at};
use fields::bytes::whole32;
use fields::range::in_range;
use gauges::{beta_at, element_of, place_of};
use units::Variance;

// Rule 7 on gauge g, counted from 0, given the element of the gauge before it (0 before the first).
fn gauge_fits(table: &[u8], n: usize, g: usize, above: usize) -> bool
    requires { GaugeAfter table.now n g above }
    ensures { result ≡ gauge_fits n (element_at table.now) (gauge_at table.now n) g }
{
    let at = place_of(table, n, g);
    let element = usize::from(table[at]);
    if element <= above {
        return false;
    }
    if n < element {
        return false;
    }
    if kind_at(table, element - 1) == Some(Kind::Dam) {
        return false;
    }
    if !in_range(whole32(table, at + 2), 1, Variance::CEILING) {
        return false;
    }
    if !curve_fits(table, at) {
        return false;
    }
    beta_at(table, at) <= 500
}

// Whether the first m gauges of a table with n elements keep rule 7.
pub fn gauges_fit(table: &[u8], n: usize, m: usize) -> bool
    requires { Versioned table.now × ((n ≤ most_elements) × ((m ≤ most_gauges) × (gauge_place table.now n m ≤ length table.now))) }
    ensures { result ≡ all_below (gauge_fits n (element_at table.now) (gauge_at table.now n)) m }
{
    // (A loop, since each gauge is tested with the element of the one before it.)
    let mut above: usize = 0;
    for g in 0..m {
        if !gauge_fits(table, n, g, above) {
            return false;
        }
        above = element_of(table, n, g);
    }
    true
}
