// The forecast: the spaces that it is worked out in, and what is laid out of them; rules 15 and 16.
#![tactic(auto)]

ghost use Rattle.std.specs.Prelude.{true, ◌≡◌, ◌+◌, ◌*◌, ◌≤◌, min, length};
ghost use Rattle.sizes.specs.Sizes.{most_elements, most_leads, answer_numbers, tiny_forecast_elements, small_forecast_elements, tiny_forecast_places, small_forecast_places, medium_forecast_places, forecast_places};
ghost use Rattle.table.specs.Bounds.{CountedPlaces};
ghost use Rattle.table.specs.InUse.{table_in};
ghost use Rattle.state.specs.Rules.{state_fits};
ghost use Rattle.element_weights.specs.Weights.{Weighed};
ghost use Rattle.network.specs.Answer.{leads_answer};
ghost use Rattle.network.specs.Lent.{Lent};
ghost use Rattle.answer_space.specs.Places.{Empty};
ghost use Rattle.leads.specs.Held.{SpaceGiven, CopyReady, Copied, ForecastHeld};

use answer_space::{clear, lay_out};
use element_weights::put_weights;
use method::Figures;
use network_leads::work_leads;
use refusal::Refusal;
use sizes::{
    FORECAST_PLACES, MEDIUM_FORECAST_PLACES, MOST_ELEMENTS, SMALL_FORECAST_ELEMENTS,
    SMALL_FORECAST_PLACES, STATE_NUMBERS, TINY_FORECAST_ELEMENTS, TINY_FORECAST_PLACES,
};
use table::Counts;

// How many numbers the answer has: four for each element at lead 0 and at each lead.
#[tactic(auto, using(crate::proofs::AnswerLaws::answer_most))]
fn answer_numbers(elements: usize, leads: usize) -> usize
    requires { (elements ≤ most_elements) × (leads ≤ most_leads) }
    ensures { (result ≡ 4 * elements * (leads + 1)) × (result ≤ answer_numbers) }
{
    4 * elements * (leads + 1)
}

// Rows for the tanks of one element above its last: as many as there are, and no more than one element has.
fn spare_rows(extra: usize) -> usize
    ensures { (result ≡ min extra 7) × (result ≤ 7) }
{
    extra.min(7)
}

// How many places of a space are worked in: those of the answer, those that take what leaves the river, and rows for tanks.
#[tactic(auto, using(network_leads::proofs::WorkLaws::space_most))]
fn space_places(elements: usize, extra: usize, leads: usize) -> usize
    requires { (elements ≤ most_elements) × (leads ≤ most_leads) }
    ensures { (result ≡ (elements + 1 + min extra 7) * (leads + 1)) × (result ≤ forecast_places) }
{
    (elements + 1 + spare_rows(extra)) * (leads + 1)
}

// A forecast from a state that rule 8 accepts, with the weights of the elements and a space lent, in which the answer begins after the places
// of what leaves the river; what the space holds where the forecast is refused is left open.
pub fn forecast_in(
    table: &[u8],
    counts: Counts,
    weights: &[u64],
    state: &[u64; STATE_NUMBERS],
    space: &mut [Figures],
) -> Result<usize, Refusal>
    requires { Weighed table.now counts weights.now × ((state_fits (table_in table.now) state.now ≡ true) × (length space.old ≡ forecast_places)) }
    ensures { ForecastHeld result space.new (table_in table.now) state.now }
{
    let room = space_places(counts.elements, counts.extra, counts.leads);
    let part = &mut space[..room];
    clear(&mut *part);
    work_leads(table, counts.elements, counts.leads, weights, state, part)?;
    Ok(answer_numbers(counts.elements, counts.leads))
}

// The leads worked out, by weights that are worked out first, in a space that has room for them and nothing in it, and laid out where
// no number passes the ceiling: the count of numbers.
fn copy_out(
    table: &[u8],
    n: usize,
    leads: usize,
    step: u64,
    state: &[u64; STATE_NUMBERS],
    own: &mut [u64],
    space: &mut [Figures],
    out: &mut [u64],
) -> Result<usize, Refusal>
    requires { CopyReady table.now n leads step state.now (length own.old) (length space.old) (length out.old) × Empty space.old }
    ensures { Copied result (table_in table.now) state.now out.old out.new }
{
    let needed = answer_numbers(n, leads);
    let from = leads + 1;
    put_weights(table, step, n, &mut *own);
    let worked = work_leads(table, n, leads, &*own, state, &mut *space);
    worked?;
    lay_out(&space[from..from + n * from], out);
    Ok(needed)
}

// The same in a space of its own: E weights, and so many places to work in.
fn in_space<const E: usize, const PLACES: usize>(
    table: &[u8],
    n: usize,
    leads: usize,
    step: u64,
    state: &[u64; STATE_NUMBERS],
    out: &mut [u64],
) -> Result<usize, Refusal>
    requires { SpaceGiven E PLACES × CopyReady table.now n leads step state.now E PLACES (length out.old) }
    ensures { Copied result (table_in table.now) state.now out.old out.new }
{
    let mut own = [0u64; E];
    let mut space = [Figures::NONE; PLACES];
    copy_out(table, n, leads, step, state, &mut own, &mut space, out)
}

// In the largest: a call of its own, so that the pages of its frame are not its caller's.
#[inline(never)]
fn in_largest_space(
    table: &[u8],
    n: usize,
    leads: usize,
    step: u64,
    state: &[u64; STATE_NUMBERS],
    out: &mut [u64],
) -> Result<usize, Refusal>
    requires { CopyReady table.now n leads step state.now most_elements forecast_places (length out.old) }
    ensures { Copied result (table_in table.now) state.now out.old out.new }
{
    in_space::<MOST_ELEMENTS, FORECAST_PLACES>(table, n, leads, step, state, out)
}

// A forecast from a state that rule 8 accepts, in the smallest space that is large enough: all is worked out before a number is written. (The
// sizes are handed numbers: a struct would be copied before the first test.)
pub fn forecast_on(
    table: &[u8],
    counts: Counts,
    state: &[u64; STATE_NUMBERS],
    out: &mut [u64],
) -> Result<usize, Refusal>
    requires { CountedPlaces table.now counts × (state_fits (table_in table.now) state.now ≡ true) }
    ensures { Lent result out.new (leads_answer (table_in table.now) state.now (length out.old)) out.old }
{
    let n = counts.elements;
    let leads = counts.leads;
    let step = counts.step;
    if out.len() < answer_numbers(n, leads) {
        return Err(Refusal::AnswerSpace);
    }
    let room = space_places(n, counts.extra, leads);
    if room <= TINY_FORECAST_PLACES {
        return in_space::<TINY_FORECAST_ELEMENTS, TINY_FORECAST_PLACES>(
            table, n, leads, step, state, out,
        );
    }
    if room <= SMALL_FORECAST_PLACES {
        return in_space::<SMALL_FORECAST_ELEMENTS, SMALL_FORECAST_PLACES>(
            table, n, leads, step, state, out,
        );
    }
    if room <= MEDIUM_FORECAST_PLACES {
        return in_space::<MOST_ELEMENTS, MEDIUM_FORECAST_PLACES>(table, n, leads, step, state, out);
    }
    in_largest_space(table, n, leads, step, state, out)
}
