// The entries of document 01: start, step and forecast, on the bytes of a table and on lent numbers.
#![tactic(auto)]

ghost use Rattle.std.specs.Prelude.{length};
ghost use Rattle.table.specs.Bounds.{CountedPlaces};
ghost use Rattle.table.specs.InUse.{table_in};
ghost use Rattle.state.specs.Answers.{Answered};
ghost use Rattle.network.specs.Lent.{Lent};
ghost use Rattle.entries.specs.Entries.{start_answer, step_on_answer, step_answer, forecast_on_answer, forecast_answer};

use record_step::step_from;
use refusal::Refusal;
use sizes::STATE_NUMBERS;
use state_rules::judge_state;
use table::Counts;

// Starts a river on the bytes of a table, from any state: rules 1 to 7.
pub fn start(table: &[u8], state: &mut [u64; STATE_NUMBERS]) -> Result<(), Refusal>
    ensures { Answered result state.new (start_answer table.now state.old) state.old }
{
    let counts = table_reader::read(table)?;
    first_values::start_on(table, counts.elements, state);
    Ok(())
}

// A step on an accepted table and the bytes of a record: rules 8 to 14 and 16 to 18.
fn step_counted(
    table: &[u8],
    counts: Counts,
    bytes: &[u8],
    state: &mut [u64; STATE_NUMBERS],
) -> Result<(), Refusal>
    requires { CountedPlaces table.now counts }
    ensures { Answered result state.new (step_on_answer (table_in table.now) bytes.now state.old) state.old }
{
    judge_state(table, counts.elements, counts.extra, &*state)?;
    step_from(table, counts, bytes, state)
}

// A step on the bytes of a table and of a record: rules 1 to 14 and 16 to 18.
pub fn step(table: &[u8], bytes: &[u8], state: &mut [u64; STATE_NUMBERS]) -> Result<(), Refusal>
    ensures { Answered result state.new (step_answer table.now bytes.now state.old) state.old }
{
    let counts = table_reader::read(table)?;
    step_counted(table, counts, bytes, state)
}

// A forecast on an accepted table into lent space: rules 8, 15 and 16.
fn forecast_counted(
    table: &[u8],
    counts: Counts,
    state: &[u64; STATE_NUMBERS],
    out: &mut [u64],
) -> Result<usize, Refusal>
    requires { CountedPlaces table.now counts }
    ensures { Lent result out.new (forecast_on_answer (table_in table.now) state.now (length out.old)) out.old }
{
    judge_state(table, counts.elements, counts.extra, state)?;
    leads::forecast_on(table, counts, state, out)
}

// A forecast on the bytes of a table into lent space: rules 1 to 8, 15 and 16.
pub fn forecast(
    table: &[u8],
    state: &[u64; STATE_NUMBERS],
    out: &mut [u64],
) -> Result<usize, Refusal>
    ensures { Lent result out.new (forecast_answer table.now state.now (length out.old)) out.old }
{
    let counts = table_reader::read(table)?;
    forecast_counted(table, counts, state, out)
}
