// A trial of a step: the figures that the step would leave, in lent space; the state is kept.
#![tactic(auto)]

ghost use Rattle.std.specs.Prelude.{◌+◌, ◌≤◌, length};
ghost use Rattle.table.specs.KindCounts.{extra_count};
ghost use Rattle.table.specs.Bounds.{CountedPlaces};
ghost use Rattle.table.specs.InUse.{table_in};
ghost use Rattle.network.specs.Lent.{Lent};
ghost use Rattle.record_step.specs.Judged.{RiverGiven, SpaceGiven};
ghost use Rattle.entries.specs.Trials.{trial_answer};
ghost use Rattle.trial.specs.Held.{TrialHeld};

use answer_space::write_figures;
use method::Figures;
use record_step::work_record;
use refusal::Refusal;
use sizes::{
    MEDIUM_PLACES, MEDIUM_STEP_PLACES, MIDDLE_ELEMENTS, MIDDLE_STEP_PLACES, MOST_ELEMENTS,
    OBSERVED_NUMBERS, SMALL_ELEMENTS, SMALL_OBSERVED_NUMBERS, SMALL_STEP_PLACES, STATE_NUMBERS,
    STEP_PLACES,
};
use state_rules::judge_state;
use table::Counts;

// A trial that rule 8 accepts, in a working space of its own: E weights, so many numbers for what the gauges observe, and so many
// places to work in.
fn trial_in_space<const E: usize, const OBSERVED: usize, const PLACES: usize>(
    table: &[u8],
    n: usize,
    basins: usize,
    dams: usize,
    bytes: &[u8],
    state: &[u64; STATE_NUMBERS],
    out: &mut [u64],
) -> Result<usize, Refusal>
    requires { RiverGiven table.now n (extra_count (table_in table.now)) basins dams state.now × SpaceGiven (table_in table.now) n (extra_count (table_in table.now)) E OBSERVED PLACES }
    ensures { TrialHeld result out.new table.now bytes.now state.now out.old }
{
    let mut own = [0u64; E];
    let mut observed = [0u64; OBSERVED];
    let mut space = [Figures::NONE; PLACES];
    work_record(
        table,
        basins,
        dams,
        bytes,
        state,
        out.len(),
        &mut own,
        &mut observed,
        &mut space,
    )?;
    write_figures(&space, n, out);
    Ok(4 * n)
}

// In the largest: a call of its own, so that the pages of its frame are not its caller's.
#[inline(never)]
fn trial_in_largest_space(
    table: &[u8],
    n: usize,
    basins: usize,
    dams: usize,
    bytes: &[u8],
    state: &[u64; STATE_NUMBERS],
    out: &mut [u64],
) -> Result<usize, Refusal>
    requires { RiverGiven table.now n (extra_count (table_in table.now)) basins dams state.now }
    ensures { TrialHeld result out.new table.now bytes.now state.now out.old }
{
    trial_in_space::<MOST_ELEMENTS, OBSERVED_NUMBERS, STEP_PLACES>(
        table, n, basins, dams, bytes, state, out,
    )
}

// A trial on an accepted table: rules 8 to 18.
fn trial_counted(
    table: &[u8],
    counts: Counts,
    bytes: &[u8],
    state: &[u64; STATE_NUMBERS],
    out: &mut [u64],
) -> Result<usize, Refusal>
    requires { CountedPlaces table.now counts }
    ensures { TrialHeld result out.new table.now bytes.now state.now out.old }
{
    let n = counts.elements;
    let basins = counts.basins;
    let dams = counts.dams;
    let places = n + counts.extra;
    judge_state(table, n, counts.extra, state)?;
    if places <= SMALL_ELEMENTS {
        return trial_in_space::<SMALL_ELEMENTS, SMALL_OBSERVED_NUMBERS, SMALL_STEP_PLACES>(
            table, n, basins, dams, bytes, state, out,
        );
    }
    if places <= MIDDLE_ELEMENTS {
        return trial_in_space::<MIDDLE_ELEMENTS, OBSERVED_NUMBERS, MIDDLE_STEP_PLACES>(
            table, n, basins, dams, bytes, state, out,
        );
    }
    if places <= MEDIUM_PLACES {
        return trial_in_space::<MOST_ELEMENTS, OBSERVED_NUMBERS, MEDIUM_STEP_PLACES>(
            table, n, basins, dams, bytes, state, out,
        );
    }
    trial_in_largest_space(table, n, basins, dams, bytes, state, out)
}

// A trial on the bytes of a table and of a record: rules 1 to 18, in the step's order, 15 before 16.
pub fn trial(
    table: &[u8],
    bytes: &[u8],
    state: &[u64; STATE_NUMBERS],
    out: &mut [u64],
) -> Result<usize, Refusal>
    ensures { Lent result out.new (trial_answer table.now bytes.now state.now (length out.old)) out.old }
{
    let counts = table_reader::read(table)?;
    trial_counted(table, counts, bytes, state, out)
}
