// All elements through all leads of a forecast, in one space in which each place holds what drains into an element until its turn and its
// figures from then on.
#![tactic(auto)]

ghost use Rattle.std.specs.Prelude.{◌≡◌, get_or};
ghost use Rattle.elements.specs.Elements.{element_at};
ghost use Rattle.table.specs.InUse.{table_in};
ghost use Rattle.network_leads.specs.Inputs.{InputReady, input_of, lead_input};
ghost use Rattle.network_leads.specs.Worked.{Given, Cleared, RunReady, RunWorked, TanksReady, TanksDone, LeadsWorked};

use elements::{Element, Kind, down_at, element_at, extra_at, kind_at, noise_at};
use inflow::mean_rain_inflow;
use lead_walk::{store_tank, work_element};
use method::Figures;
use one_lead::ElementInput;
use rain_sums::{rain_count, sum_of};
use refusal::Refusal;
use sizes::STATE_NUMBERS;
use state::{discharge_of, figures_of};
use tank_walk::{TankPlaces, is_tanks, open_tanks};

// What the leads of an element are worked out from: its weight and its own number.
fn input_of(element: Element, weight: u64, own: u64) -> ElementInput
    ensures { result ≡ input_of element weight own }
{
    ElementInput {
        element,
        weight,
        own,
        first_lead: 1,
        observation: None,
    }
}

// The same of element i, counted from 0, of this kind, of whose last rains there are `count`: only a basin's are read. A dam goes on letting
// out the discharge that the state holds. (Its weight is read in the arms, where it takes the fewest instructions.)
#[tactic(auto, unfolding(crate::specs::Inputs::lead_input, crate::specs::Inputs::own_number, elements::specs::Kinds::by_kind))]
fn lead_input(
    table: &[u8],
    i: usize,
    kind: Option<Kind>,
    weights: &[u64],
    count: u64,
    state: &[u64; STATE_NUMBERS],
) -> ElementInput
    requires { InputReady table.now state.now i kind weights.now count }
    ensures { result ≡ lead_input (element_at table.now i) (get_or weights.now i 0) count state.now i }
{
    match kind {
        Some(Kind::Basin) => {
            let sum = sum_of(state, i, count);
            let element = element_at(table, i);
            input_of(
                element,
                weights[i],
                mean_rain_inflow(sum, count, element.area, element.runoff),
            )
        }
        Some(Kind::Reach) => input_of(element_at(table, i), weights[i], 0),
        Some(Kind::Dam) => {
            let held = discharge_of(state, i);
            input_of(element_at(table, i), weights[i], held.0)
        }
        _ => input_of(element_at(table, i), weights[i], 0),
    }
}

// The elements from one on, each through all leads by its weight, up to the next element of tanks, which it answers; none
// where all are worked out; 16 where a number passes the ceiling. (These are worked out apart, so that the
// loop has no more calls.)
#[tactic(auto, unfolding(crate::specs::Worked::RunWorked))]
fn work_run(
    table: &[u8],
    n: usize,
    from: usize,
    leads: usize,
    weights: &[u64],
    state: &[u64; STATE_NUMBERS],
    space: &mut [Figures],
) -> Result<Option<usize>, Refusal>
    requires { Given table.now n leads weights.now state.now × RunReady (table_in table.now) state.now leads from space.old }
    ensures { RunWorked result (table_in table.now) state.now leads from space.new }
{
    let width = leads + 1;
    let steps = state[1];
    let count = rain_count(steps);
    for i in from..n {
        if is_tanks(table, i) {
            return Ok(Some(i));
        }
        let first = figures_of(state, i);
        let own = (i + 1) * width;
        let here = own + 1;
        space[own] = first;
        let input = lead_input(table, i, kind_at(table, i), weights, count, state);
        let element = input.element;
        let below = element.down * width + 1;
        work_element(input, first, here, below, leads, &mut *space)?;
    }
    Ok(None)
}

// Element i of n, one of tanks, through all leads; the tanks above its last stand in the state from place x on.
#[inline(never)]
fn work_tanks(
    table: &[u8],
    n: usize,
    i: usize,
    x: usize,
    leads: usize,
    weight: u64,
    state: &[u64; STATE_NUMBERS],
    space: &mut [Figures],
) -> Result<(), Refusal>
    requires { TanksReady table.now n i x leads weight state.now space.old }
    ensures { TanksDone result (table_in table.now) state.now leads i space.new }
{
    let width = leads + 1;
    let own = (i + 1) * width;
    let last = figures_of(state, i);
    space[own] = last;
    let noise = noise_at(table, i);
    let places = TankPlaces {
        own: own + 1,
        first: (n + 1) * width + 1,
        width,
        leads,
    };
    let extra = extra_at(table, i);
    open_tanks(noise, weight, extra, x, places, state, &mut *space)?;
    let below = down_at(table, i) * width + 1;
    store_tank(noise, weight, None, last, own + 1, below, leads, space)
}

// All n elements, each through all leads by its weight, in a space that has room for them and nothing in it: element number k at lead l at place
// k * (leads + 1) + l. Runs of elements that are no tanks, and between them those of tanks. 16 where a number passes the ceiling.
#[tactic(auto, unfolding(crate::specs::Worked::RunWorked))]
pub fn work_leads(
    table: &[u8],
    n: usize,
    leads: usize,
    weights: &[u64],
    state: &[u64; STATE_NUMBERS],
    space: &mut [Figures],
) -> Result<(), Refusal>
    requires { Given table.now n leads weights.now state.now × Cleared (table_in table.now) space.old }
    ensures { LeadsWorked result space.new (table_in table.now) state.now }
{
    let mut from: usize = 0;
    let mut x = n;
    loop {
        let Some(i) = work_run(table, n, from, leads, weights, state, &mut *space)? else {
            return Ok(());
        };
        work_tanks(table, n, i, x, leads, weights[i], state, &mut *space)?;
        x += extra_at(table, i);
        from = i + 1;
    }
}
