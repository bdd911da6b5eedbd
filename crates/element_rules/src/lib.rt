// Rule 5: the fields of an element.
#![tactic(auto)]

ghost use Rattle.std.specs.Prelude.{◌≡◌};
ghost use Rattle.elements.specs.Rules.{lag_fits, basin_fits, reach_fits, dam_fits, tanks_fit, kind_fits};
ghost use Rattle.element_rules.specs.Judged.{judged};

use elements::{Element, Kind};
use fields::range::in_range;
use units::{Discharge, Variance};

// The lag of an element that stores water.
#[tactic(auto, unfolding(elements::specs::Rules::lag_fits))]
fn lag_fits(step: u64, e: Element) -> bool
    ensures { result ≡ lag_fits step e }
{
    in_range(e.lag, step, 60_000)
}

#[tactic(auto, unfolding(elements::specs::Rules::basin_fits))]
fn basin_fits(e: Element) -> bool
    ensures { result ≡ basin_fits e }
{
    in_range(e.area, 1, 400_000) && e.runoff <= 1_000 && e.rain_noise.0 <= 100_000_000
}

#[tactic(auto, unfolding(elements::specs::Rules::reach_fits))]
fn reach_fits(e: Element) -> bool
    ensures { result ≡ reach_fits e }
{
    (e.area == 0) & (e.runoff == 0) & (e.rain_noise.0 == 0)
}

#[tactic(auto, unfolding(elements::specs::Rules::tanks_fit))]
fn tanks_fit(e: Element) -> bool
    ensures { result ≡ tanks_fit e }
{
    (e.area == 0) & in_range(e.runoff, 2, 8) & (e.rain_noise.0 == 0)
}

#[tactic(auto, unfolding(elements::specs::Rules::dam_fits))]
fn dam_fits(e: Element) -> bool
    ensures { result ≡ dam_fits e }
{
    e.lag == 0 && reach_fits(e)
}

// The kind chooses the ranges of lag, area, runoff and rain noise.
#[tactic(auto, unfolding(elements::specs::Rules::kind_fits, elements::specs::Kinds::by_kind, elements::specs::Kinds::same_kind))]
fn kind_fits(step: u64, e: Element) -> bool
    ensures { result ≡ kind_fits step e }
{
    match e.kind {
        Some(Kind::Basin) => lag_fits(step, e) && basin_fits(e),
        Some(Kind::Reach) => lag_fits(step, e) && reach_fits(e),
        Some(Kind::Dam) => dam_fits(e),
        Some(Kind::Tanks) => lag_fits(step, e) && tanks_fit(e),
        None => false,
    }
}

// Rule 5 on one element: its kind where it keeps the rule.
#[tactic(auto, unfolding(elements::specs::Rules::element_fits, crate::specs::Judged::judged))]
pub fn judge_element(step: u64, e: Element) -> Option<Kind>
    ensures { result ≡ judged step e }
{
    let fits = e.first_discharge.0 <= Discharge::CEILING
        && e.first_variance.0 <= Variance::CEILING
        && e.system_noise.0 <= 100_000_000
        && kind_fits(step, e);
    if fits { e.kind } else { None }
}
