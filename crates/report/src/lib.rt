// What the program prints of a record, and the state that the record leaves.
#![tactic(auto)]

ghost use Rattle.sizes.specs.Sizes.{answer_numbers};
ghost use Rattle.table.specs.InUse.{table_in};
ghost use Rattle.entries.specs.Entries.{forecast_on_answer};
ghost use Rattle.program.specs.Records.{forecast_printed, record_on_printed};
ghost use Rattle.report.specs.Answers.{RecordReady, TextAnsweredOf, Reported};

use lines::put_lines;
use method::Figures;
use refusal_answer::answer_refusal;
use sizes::STATE_NUMBERS;
use table::Counts;
use text::{DigitFours, TextSpace};

// The forecast after an accepted step, which rule 8 never refuses: its lines, or its refusal's, which may end the run. It is worked out in
// lent space, in which its answer begins after the places of what leaves the river.
fn answer_forecast(
    table: &[u8],
    counts: Counts,
    weights: &[u64],
    state: &[u64; STATE_NUMBERS],
    space: &mut [Figures],
    fours: &DigitFours,
    text: &mut TextSpace<'_>,
) -> bool
    requires { RecordReady table.now counts weights.now state.now space.old text.old }
    ensures { TextAnsweredOf result text.old text.new (forecast_printed (table_in table.now) state.now (forecast_on_answer (table_in table.now) state.now answer_numbers)) }
{
    let answer = leads::forecast_in(table, counts, weights, state, space);
    let steps = state[1];
    let leads = counts.leads + 1;
    match answer {
        Ok(_) => {
            put_lines(text, &space[leads..], steps, counts.elements, leads, fours);
            false
        }
        Err(refusal) => answer_refusal(refusal, steps, text),
    }
}

// A record on an accepted table, its counts and weights, and a state that rule 8 accepts: what it prints is put into lent space, and
// whether it ends the run; the other space is lent for its forecast, the digits of all groups of four for its lines.
pub fn answer_record(
    table: &[u8],
    counts: Counts,
    weights: &[u64],
    bytes: &[u8],
    state: &mut [u64; STATE_NUMBERS],
    space: &mut [Figures],
    fours: &DigitFours,
    text: &mut TextSpace<'_>,
) -> bool
    requires { RecordReady table.now counts weights.now state.old space.old text.old }
    ensures { Reported result text.old text.new state.new (record_on_printed (table_in table.now) bytes.now state.old) }
{
    let step = record_step::step_lent(table, counts, weights, bytes, space, state);
    match step {
        Ok(()) => answer_forecast(table, counts, weights, state, space, fours, text),
        Err(refusal) => answer_refusal(refusal, state[1], text),
    }
}
