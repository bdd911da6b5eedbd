// The engine's entries for programs in C, as a static library: each export calls the entry of its name in `river` and promises the same.
// include/river.h declares them.
#![tactic(auto)]

ghost use Rattle.std.specs.Prelude.{◌≡◌, length};
ghost use Rattle.refusal.specs.Answers.{accepted};
ghost use Rattle.table.specs.InUse.{table_in};
ghost use Rattle.table.specs.Rules.{table_rules};
ghost use Rattle.entries.specs.Entries.{start_answer, step_answer, forecast_answer};
ghost use Rattle.entries.specs.Trials.{trial_answer};
ghost use Rattle.gauge_look.specs.GaugeLooks.{rating_answer};
ghost use Rattle.display.specs.Display.{show_answer};
ghost use Rattle.river.specs.Replies.{version, plan_reply, rating_reply, display_reply, StateReplied, ForecastReplied};

use river::{Display, Rating, TablePlan, Written};
use sizes::STATE_NUMBERS;

// The version of this interface, RIVER_VERSION of include/river.h.
#[unsafe(no_mangle)]
pub extern "C" fn river_version() -> u64
    ensures { result ≡ version }
{
    river::river_version()
}

// Judges the bytes of a table: rules 1 to 7.
#[unsafe(no_mangle)]
pub extern "C" fn river_check(table: &[u8]) -> TablePlan
    ensures { result ≡ plan_reply (table_rules table.now (accepted (table_in table.now))) }
{
    river::river_check(table)
}

// Starts a river on the bytes of a table, from any state.
#[unsafe(no_mangle)]
pub extern "C" fn river_start(table: &[u8], state: &mut [u64; STATE_NUMBERS]) -> u64
    ensures { StateReplied result state.new (start_answer table.now state.old) state.old }
{
    river::river_start(table, state)
}

// A step on the bytes of a table and of a record.
#[unsafe(no_mangle)]
pub extern "C" fn river_step(table: &[u8], bytes: &[u8], state: &mut [u64; STATE_NUMBERS]) -> u64
    ensures { StateReplied result state.new (step_answer table.now bytes.now state.old) state.old }
{
    river::river_step(table, bytes, state)
}

// A forecast on the bytes of a table into lent space.
#[unsafe(no_mangle)]
pub extern "C" fn river_forecast(
    table: &[u8],
    state: &[u64; STATE_NUMBERS],
    out: &mut [u64],
) -> Written
    ensures { ForecastReplied result out.new (forecast_answer table.now state.now (length out.old)) out.old }
{
    river::river_forecast(table, state, out)
}

// A trial of a step on the bytes of a table and of a record, into lent space.
#[unsafe(no_mangle)]
pub extern "C" fn river_trial(
    table: &[u8],
    bytes: &[u8],
    state: &[u64; STATE_NUMBERS],
    out: &mut [u64],
) -> Written
    ensures { ForecastReplied result out.new (trial_answer table.now bytes.now state.now (length out.old)) out.old }
{
    river::river_trial(table, bytes, state, out)
}

// A stage on the curve of a gauge, counted from 1, on the bytes of a table.
#[unsafe(no_mangle)]
pub extern "C" fn river_rate(table: &[u8], gauge: usize, stage: u64) -> Rating
    ensures { result ≡ rating_reply (rating_answer table.now gauge stage) }
{
    river::river_rate(table, gauge, stage)
}

// A discharge and its margin, in grains, as floats in m³/s for a display.
#[unsafe(no_mangle)]
pub extern "C" fn river_show(discharge: u64, margin: u64) -> Display
    ensures { result ≡ display_reply (show_answer discharge margin) }
{
    river::river_show(discharge, margin)
}
