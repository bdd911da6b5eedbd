// A step of the whole network: all elements in one working space.
#![tactic(auto)]

ghost use Rattle.std.specs.Prelude.{◌≡◌};
ghost use Rattle.method.specs.Inflow.{old_outflow};
ghost use Rattle.elements.specs.Elements.{element_at};
ghost use Rattle.table.specs.InUse.{table_in};
ghost use Rattle.state.specs.States.{figures_of};
ghost use Rattle.answer_space.specs.Places.{added};
ghost use Rattle.network_step.specs.Inputs.{input_of, step_input, StepInputReady};
ghost use Rattle.network_step.specs.Held.{StepReady, place_count, Cleared, OldReady, RunReady, RunEnded, TanksReady, TanksTurned, PastReady, past_tanks, StepWorked};

use answer_space::add_figures;
use elements::{Element, Kind, down_at, element_at, extra_at, kind_at, noise_at};
use inflow::{mean_rain_inflow, old_outflow};
use lead_walk::store_tank;
use method::Figures;
use one_lead::ElementInput;
use rating::RatedReading;
use readings::{gauge_here, observation_here};
use record::{rain_at, release_at};
use refusal::Refusal;
use sizes::STATE_NUMBERS;
use state::figures_of;
use tank_walk::{TankPlaces, is_tanks, open_tanks};

// What a step works an element out of: its weight, its own number, lead 0, and what its gauge observed.
#[tactic(auto, unfolding(crate::specs::Inputs::input_of))]
fn input_of(
    element: Element,
    weight: u64,
    own: u64,
    observation: Option<RatedReading>,
) -> ElementInput
    ensures { result ≡ input_of element weight own observation }
{
    ElementInput {
        element,
        weight,
        own,
        first_lead: 0,
        observation,
    }
}

// How many basins and dams a step has come past.
#[derive(Clone, Copy)]
struct Passed {
    basins: usize,
    dams: usize,
}

// What an element is worked out of, and the basins and dams with it.
#[derive(Clone, Copy)]
struct StepInput {
    input: ElementInput,
    passed: Passed,
}

// What element i, counted from 0, is worked out of: its kind chooses what the record, in which b rains stand, brings it: a rain, a release
// or nothing. (The element is read last: where a branch follows, the compiler puts its numbers together byte by byte. Basins and dams are
// counted in the arms, where it takes the fewest instructions.)
#[tactic(auto, unfolding(crate::specs::Inputs::step_input, crate::specs::Inputs::input_of, crate::specs::Inputs::own_number, crate::specs::Inputs::passed_by, elements::specs::Kinds::by_kind, elements::specs::Kinds::basin_of, elements::specs::Kinds::dam_of))]
fn step_input(
    table: &[u8],
    i: usize,
    weight: u64,
    bytes: &[u8],
    b: usize,
    passed: Passed,
    observation: Option<RatedReading>,
) -> StepInput
    requires { StepInputReady table.now i bytes.now b passed }
    ensures { result ≡ step_input table.now i weight bytes.now b passed observation }
{
    match kind_at(table, i) {
        Some(Kind::Basin) => {
            let rain = rain_at(bytes, passed.basins);
            let element = element_at(table, i);
            let inflow = mean_rain_inflow(rain, 1, element.area, element.runoff);
            let basins = passed.basins + 1;
            StepInput {
                input: input_of(element, weight, inflow, observation),
                passed: Passed { basins, ..passed },
            }
        }
        Some(Kind::Dam) => {
            let release = release_at(bytes, b, passed.dams);
            let dams = passed.dams + 1;
            StepInput {
                input: input_of(element_at(table, i), weight, release, observation),
                passed: Passed { dams, ..passed },
            }
        }
        Some(Kind::Reach | Kind::Tanks) | None => StepInput {
            input: input_of(element_at(table, i), weight, 0, observation),
            passed,
        },
    }
}

// What element i, counted from 0, has let out before the step, added to the sums of the element below it.
fn add_old_outflow(table: &[u8], i: usize, state: &[u64; STATE_NUMBERS], space: &mut [Figures])
    requires { OldReady table.now i state.now space.old }
    ensures { space.new ≡ added space.old (element_at table.now i).down (old_outflow (figures_of state.now i)) }
{
    let old = figures_of(state, i);
    add_figures(space, down_at(table, i), old_outflow(old));
}

// How far a step has come: before which element, the place in the state of the next tank above the last of its element, and past how many
// basins, dams and gauges.
#[derive(Clone, Copy)]
struct Reached {
    element: usize,
    tank: usize,
    passed: Passed,
    gauges: usize,
}

// Before the first of n elements.
fn begun(n: usize) -> Reached
    ensures { result ≡ record { element = 0; tank = n; passed = record { basins = 0; dams = 0 }; gauges = 0 } }
{
    Reached {
        element: 0,
        tank: n,
        passed: Passed { basins: 0, dams: 0 },
        gauges: 0,
    }
}

// The elements from one on up to the next one of tanks, each as one lead, of number 0: how far the step has then come, where one of tanks is
// next; none where all are worked out; 16 where a number passes the ceiling. (Elements of tanks are worked out apart, so that there
// is no call in the loop. The table's counts are handed over, and `one_lead::work_step` is called here: either takes fewer instructions. An
// element's old figures are added before it is worked out, and read again then: kept until its new figures are there, they would take more.)
fn work_run(
    table: &[u8],
    n: usize,
    m: usize,
    basins: usize,
    from: Reached,
    weights: &[u64],
    bytes: &[u8],
    observed: &[u64],
    state: &[u64; STATE_NUMBERS],
    space: &mut [Figures],
) -> Result<Option<Reached>, Refusal>
    requires { RunReady table.now n m basins from weights.now bytes.now observed.now state.now space.old }
    ensures { RunEnded result (table_in table.now) bytes.now state.now from space.new }
{
    let first = from.element;
    let mut passed = from.passed;
    let mut g = from.gauges;
    for i in first..n {
        let here = gauge_here(table, n, m, g, i);
        let observation = observation_here(observed, here, g);
        if is_tanks(table, i) {
            return Ok(Some(Reached {
                element: i,
                tank: from.tank,
                passed,
                gauges: g,
            }));
        }
        add_old_outflow(table, i, state, &mut *space);
        let taken = step_input(table, i, weights[i], bytes, basins, passed, observation);
        let input = taken.input;
        let element = input.element;
        let before = figures_of(state, i);
        let worked = one_lead::work_step(input, i + 1, element.down, before, &mut *space);
        worked?;
        passed = taken.passed;
        g += here;
    }
    Ok(None)
}

// The element of tanks that a step has come to: its tanks one after the other, the last corrected by what its gauge observed. 16 where a
// number passes the ceiling.
fn work_tanks(
    table: &[u8],
    n: usize,
    m: usize,
    met: Reached,
    weights: &[u64],
    observed: &[u64],
    state: &[u64; STATE_NUMBERS],
    space: &mut [Figures],
) -> Result<(), Refusal>
    requires { TanksReady table.now n m met weights.now observed.now state.now space.old }
    ensures { TanksTurned result table.now n m met weights.now observed.now state.now space.old space.new }
{
    let i = met.element;
    let x = met.tank;
    let g = met.gauges;
    let observation = observation_here(observed, gauge_here(table, n, m, g, i), g);
    let weight = weights[i];
    let noise = noise_at(table, i);
    let extra = extra_at(table, i);
    let places = TankPlaces {
        own: i + 1,
        first: x + 1,
        width: 1,
        leads: 1,
    };
    open_tanks(noise, weight, extra, x, places, state, &mut *space)?;
    let last = figures_of(state, i);
    let below = down_at(table, i);
    store_tank(noise, weight, observation, last, i + 1, below, 1, space)
}

// How far a step has come after it.
fn past_tanks(table: &[u8], n: usize, m: usize, met: Reached) -> Reached
    requires { PastReady table.now n m met }
    ensures { result ≡ past_tanks (table_in table.now) met }
{
    let i = met.element;
    Reached {
        element: i + 1,
        tank: met.tank + extra_at(table, i),
        passed: met.passed,
        gauges: met.gauges + gauge_here(table, n, m, met.gauges, i),
    }
}

// All elements, one after the other, runs of those that are one cell and between them those of tanks; then the new figures of all cells stand
// in the working space; or 16. (The table's counts are read where they stand: a struct is handed over through memory.)
pub fn work_step(
    table: &[u8],
    basins: usize,
    weights: &[u64],
    bytes: &[u8],
    observed: &[u64],
    state: &[u64; STATE_NUMBERS],
    space: &mut [Figures],
) -> Result<(), Refusal>
    requires { StepReady table.now basins weights.now bytes.now observed.now state.now × Cleared (place_count (table_in table.now)) space.old }
    ensures { StepWorked result space.new (table_in table.now) bytes.now state.now }
{
    let counts = table::counts_of(table);
    let n = counts.elements;
    let m = counts.gauges;
    let mut from = begun(n);
    loop {
        let run = work_run(
            table,
            n,
            m,
            basins,
            from,
            weights,
            bytes,
            observed,
            state,
            &mut *space,
        )?;
        let Some(met) = run else {
            return Ok(());
        };
        work_tanks(table, n, m, met, weights, observed, state, &mut *space)?;
        from = past_tanks(table, n, m, met);
    }
}
