// A step or a trial by a record, on what is known of an accepted table and from a state that rule 8 accepts.
#![tactic(auto)]

ghost use Rattle.std.specs.Prelude.{true, ◌≡◌, ◌+◌, ◌≤◌};
ghost use Rattle.table.specs.Bounds.{CountedPlaces};
ghost use Rattle.table.specs.InUse.{table_in};
ghost use Rattle.state.specs.Rules.{state_fits};
ghost use Rattle.state.specs.Answers.{Answered};
ghost use Rattle.network_step.specs.Held.{Cleared, place_count};
ghost use Rattle.entries.specs.Entries.{step_on_answer};
ghost use Rattle.record_step.specs.Judged.{RiverGiven, JudgeReady, StepJudged, RecordGiven, RecordWorked, SpaceGiven, LentGiven};

use answer_space::clear;
use element_weights::put_weights;
use method::Figures;
use network_step::work_step;
use next_state::{write_state, write_tanks};
use refusal::Refusal;
use sizes::{
    MEDIUM_PLACES, MEDIUM_STEP_PLACES, MIDDLE_ELEMENTS, MIDDLE_STEP_PLACES, MOST_ELEMENTS,
    OBSERVED_NUMBERS, SMALL_ELEMENTS, SMALL_OBSERVED_NUMBERS, SMALL_STEP_PLACES, STATE_NUMBERS,
    STEP_PLACES,
};
use table::Counts;

// The rules of a step before 15 and 16 on an accepted table and the bytes of a record, from a state that rule 8 accepts: 9 to 14, 17 and 18;
// and what the gauges observed, two numbers a gauge.
fn judge_step(
    table: &[u8],
    counts: Counts,
    bytes: &[u8],
    state: &[u64; STATE_NUMBERS],
    observed: &mut [u64],
) -> Result<(), Refusal>
    requires { JudgeReady table.now counts state.now observed.old }
    ensures { StepJudged (table_in table.now) bytes.now state.now result observed.new }
{
    if !state::steps_left(state) {
        return Err(Refusal::StepLimit);
    }
    record_reader::read(bytes, table, counts, observed)
}

// All rules of a step or a trial but 8, on an accepted table with so many basins and dams: 9 to 14, 17 and 18, 15 where fewer numbers are
// lent than the figures have (never in a step, which lends itself 4 N), and 16; where they accept, the new figures stand in the working space,
// which had nothing in it. (Steps and trials of all sizes call it, so that it stays a call, into which the compiler puts what it calls.)
pub fn work_record(
    table: &[u8],
    basins: usize,
    dams: usize,
    bytes: &[u8],
    state: &[u64; STATE_NUMBERS],
    lent: usize,
    own: &mut [u64],
    observed: &mut [u64],
    space: &mut [Figures],
) -> Result<(), Refusal>
    requires { RecordGiven table.now basins dams state.now own.old observed.old × Cleared (place_count (table_in table.now)) space.old }
    ensures { RecordWorked result space.new (table_in table.now) bytes.now state.now lent }
{
    let counts = table::counts_with(table, basins, dams);
    judge_step(table, counts, bytes, state, &mut *observed)?;
    if lent < 4 * counts.elements {
        return Err(Refusal::AnswerSpace);
    }
    put_weights(table, counts.step, counts.elements, &mut *own);
    work_step(table, basins, &*own, bytes, &*observed, state, &mut *space)
}

// The whole step in a working space of its own: E weights, so many numbers for what the gauges observe, and so many places to work in.
fn step_in_space<const E: usize, const OBSERVED: usize, const PLACES: usize>(
    table: &[u8],
    n: usize,
    extra: usize,
    basins: usize,
    dams: usize,
    bytes: &[u8],
    state: &mut [u64; STATE_NUMBERS],
) -> Result<(), Refusal>
    requires { RiverGiven table.now n extra basins dams state.old × SpaceGiven (table_in table.now) n extra E OBSERVED PLACES }
    ensures { Answered result state.new (step_on_answer (table_in table.now) bytes.now state.old) state.old }
{
    let mut own = [0u64; E];
    let mut observed = [0u64; OBSERVED];
    let mut space = [Figures::NONE; PLACES];
    work_record(
        table,
        basins,
        dams,
        bytes,
        &*state,
        4 * n,
        &mut own,
        &mut observed,
        &mut space,
    )?;
    write_tanks(n, extra, &space, &mut *state);
    write_state(table, n, bytes, &space, state);
    Ok(())
}

// In the largest: a call of its own, so that the pages of its frame are not its caller's.
#[inline(never)]
fn step_in_largest_space(
    table: &[u8],
    n: usize,
    extra: usize,
    basins: usize,
    dams: usize,
    bytes: &[u8],
    state: &mut [u64; STATE_NUMBERS],
) -> Result<(), Refusal>
    requires { RiverGiven table.now n extra basins dams state.old }
    ensures { Answered result state.new (step_on_answer (table_in table.now) bytes.now state.old) state.old }
{
    step_in_space::<MOST_ELEMENTS, OBSERVED_NUMBERS, STEP_PLACES>(
        table, n, extra, basins, dams, bytes, state,
    )
}

// A step on an accepted table, its counts and the bytes of a record, from a state that rule 8 accepts: rules 9 to 14 and 16 to 18; in the
// smallest space that is large enough, the smaller ones where there are no tanks. (The sizes are handed numbers: a struct would be copied
// before the first test.)
pub fn step_from(
    table: &[u8],
    counts: Counts,
    bytes: &[u8],
    state: &mut [u64; STATE_NUMBERS],
) -> Result<(), Refusal>
    requires { CountedPlaces table.now counts × (state_fits (table_in table.now) state.old ≡ true) }
    ensures { Answered result state.new (step_on_answer (table_in table.now) bytes.now state.old) state.old }
{
    let n = counts.elements;
    let extra = counts.extra;
    let basins = counts.basins;
    let dams = counts.dams;
    if extra == 0 {
        if n <= SMALL_ELEMENTS {
            return step_in_space::<SMALL_ELEMENTS, SMALL_OBSERVED_NUMBERS, SMALL_STEP_PLACES>(
                table, n, 0, basins, dams, bytes, state,
            );
        }
        if n <= MIDDLE_ELEMENTS {
            return step_in_space::<MIDDLE_ELEMENTS, OBSERVED_NUMBERS, MIDDLE_STEP_PLACES>(
                table, n, 0, basins, dams, bytes, state,
            );
        }
    }
    if n + extra <= MEDIUM_PLACES {
        return step_in_space::<MOST_ELEMENTS, OBSERVED_NUMBERS, MEDIUM_STEP_PLACES>(
            table, n, extra, basins, dams, bytes, state,
        );
    }
    step_in_largest_space(table, n, extra, basins, dams, bytes, state)
}

// The same with the weights of the elements and a working space lent.
pub fn step_lent(
    table: &[u8],
    counts: Counts,
    weights: &[u64],
    bytes: &[u8],
    space: &mut [Figures],
    state: &mut [u64; STATE_NUMBERS],
) -> Result<(), Refusal>
    requires { LentGiven table.now counts weights.now space.old state.old }
    ensures { Answered result state.new (step_on_answer (table_in table.now) bytes.now state.old) state.old }
{
    let n = counts.elements;
    let extra = counts.extra;
    let mut observed = [0u64; OBSERVED_NUMBERS];
    judge_step(table, counts, bytes, &*state, &mut observed)?;
    let room = n + extra + 1;
    let part = &mut space[..room];
    clear(&mut *part);
    work_step(
        table,
        counts.basins,
        weights,
        bytes,
        &observed,
        &*state,
        &mut *part,
    )?;
    write_tanks(n, extra, &*part, &mut *state);
    write_state(table, n, bytes, &*part, state);
    Ok(())
}
