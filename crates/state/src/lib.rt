// The state of a river as numbers that the caller lends: N, the step count, then for each place four figures and three rains. What rule
// 8 asks of a place, and rule 9.
#![tactic(auto)]

ghost use Rattle.std.specs.Prelude.{◌≡◌, ◌<◌, length};
ghost use Rattle.sizes.specs.Sizes.{most_places, state_numbers};
ghost use Rattle.state.specs.States.{figures_of, rains_of, place_of, put_figures, put_rains};
ghost use Rattle.state.specs.Rules.{figures_fit, rains_fit, place_fits, steps_left};

use elements::Kind;
use method::Figures;
use sizes::{PLACE_NUMBERS, STATE_NUMBERS};
use units::{Discharge, Variance};

// A basin's last three rains, the latest first.
#[derive(Clone, Copy)]
pub struct Rains {
    pub first: u64,
    pub second: u64,
    pub third: u64,
}

// The figures of element i, counted from 0.
#[tactic(auto, unfolding(crate::specs::States::figures_of))]
pub fn figures_of(state: &[u64; STATE_NUMBERS], i: usize) -> Figures
    requires { i < most_places }
    ensures { result ≡ figures_of state.now i }
{
    let at = PLACE_NUMBERS * i + 2;
    Figures {
        discharge: Discharge(state[at]),
        discharge_margin: Discharge(state[at + 1]),
        variance: Variance(state[at + 2]),
        variance_margin: Variance(state[at + 3]),
    }
}

// The discharge of element i alone.
#[tactic(auto, unfolding(crate::specs::States::figures_of))]
pub fn discharge_of(state: &[u64; STATE_NUMBERS], i: usize) -> Discharge
    requires { i < most_places }
    ensures { result ≡ (figures_of state.now i).discharge }
{
    Discharge(state[PLACE_NUMBERS * i + 2])
}

// The rains of element i.
#[tactic(auto, unfolding(crate::specs::States::rains_of))]
pub fn rains_of(state: &[u64; STATE_NUMBERS], i: usize) -> Rains
    requires { i < most_places }
    ensures { result ≡ rains_of state.now i }
{
    let at = PLACE_NUMBERS * i + 2;
    Rains {
        first: state[at + 4],
        second: state[at + 5],
        third: state[at + 6],
    }
}

// Other figures of element i.
#[tactic(auto, unfolding(crate::specs::States::put_figures))]
pub fn put_figures(state: &mut [u64; STATE_NUMBERS], i: usize, f: Figures)
    requires { i < most_places }
    ensures { state.new ≡ put_figures state.old i f }
{
    let at = PLACE_NUMBERS * i + 2;
    state[at] = f.discharge.0;
    state[at + 1] = f.discharge_margin.0;
    state[at + 2] = f.variance.0;
    state[at + 3] = f.variance_margin.0;
}

// Other rains of element i.
#[tactic(auto, unfolding(crate::specs::States::put_rains))]
pub fn put_rains(state: &mut [u64; STATE_NUMBERS], i: usize, r: Rains)
    requires { i < most_places }
    ensures { state.new ≡ put_rains state.old i r }
{
    let at = PLACE_NUMBERS * i + 2;
    state[at + 4] = r.first;
    state[at + 5] = r.second;
    state[at + 6] = r.third;
}

// Rule 8 on the figures of a place.
#[tactic(auto, unfolding(crate::specs::Rules::figures_fit))]
pub fn figures_fit(f: Figures) -> bool
    ensures { result ≡ figures_fit f }
{
    f.discharge.0 <= Discharge::CEILING
        && f.discharge_margin.0 <= Discharge::CEILING
        && f.variance.0 <= Variance::CEILING
        && f.variance_margin.0 <= Variance::CEILING
}

#[tactic(auto, unfolding(crate::specs::Rules::rains_fit))]
fn rains_fit(r: Rains) -> bool
    ensures { result ≡ rains_fit r }
{
    r.first <= 3_000 && r.second <= 3_000 && r.third <= 3_000
}

// Rule 8 on the place of element i: the rains of a basin alone are read.
#[tactic(auto, unfolding(crate::specs::Rules::place_fits, crate::specs::States::place_of, elements::specs::Kinds::by_kind, elements::specs::Kinds::same_kind))]
pub fn place_fits(state: &[u64; STATE_NUMBERS], i: usize, kind: Option<Kind>) -> bool
    requires { i < most_places }
    ensures { result ≡ place_fits kind (place_of state.now i) }
{
    if !figures_fit(figures_of(state, i)) {
        return false;
    }
    match kind {
        Some(Kind::Basin) => rains_fit(rains_of(state, i)),
        Some(Kind::Reach | Kind::Dam | Kind::Tanks) => true,
        None => false,
    }
}

// Rule 9; and a state has all its numbers.
#[tactic(auto, unfolding(crate::specs::Rules::steps_left))]
pub fn steps_left(state: &[u64; STATE_NUMBERS]) -> bool
    ensures { (result ≡ steps_left state.now) × (length state.now ≡ state_numbers) }
{
    let numbers: &[u64] = state;
    numbers[1] != 10_000
}
