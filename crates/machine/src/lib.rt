// The program as a machine on lent buffers: each call does the next thing and says what it was.
#![tactic(auto)]

ghost use Rattle.progress.specs.Places.{held_in};
ghost use Rattle.machine.specs.Buffers.{BuffersFit, WorkingSpace, TableDue, RecordDue, AnswerDue};
ghost use Rattle.machine.specs.Turns.{HeldAnswered, Turned};

use input_parts::{record_length, wants_more};
use method::Figures;
use progress::{
    Progress, after_record, after_refusal, after_stop, after_table, after_write, has_ended,
    moved_front, text_due,
};
use refusal_answer::answer_refusal;
use report::answer_record;
use sizes::STATE_NUMBERS;
use table_input::started_on_input;
use text::{DigitFours, TextSpace};

// What a call has done: so many bytes of text are handed over; the run has ended; more input is asked for, to be put at a place; or the
// table or a record has been answered, and the next call goes on.
#[derive(Clone, Copy)]
pub enum Next {
    Write(usize),
    End,
    Read(usize),
    Answer,
}

#[derive(Clone, Copy)]
pub struct Turn {
    pub progress: Progress,
    pub next: Next,
}

// The table is answered: it is kept with its counts, its weights and the first state, or refused.
fn table_answered(
    p: Progress,
    input: &[u8],
    table: &mut [u8],
    weights: &mut [u64],
    state: &mut [u64; STATE_NUMBERS],
    out: &mut [u8],
) -> Progress
    requires { BuffersFit p input.now table.old weights.old state.old out.old × TableDue p }
    ensures { HeldAnswered (held_in p input.now table.old state.old out.old) result input.now table.new weights.new state.new out.new }
{
    let unused = &input[p.from..p.have];
    let started = started_on_input(unused, weights, state);
    let size = started.length;
    match started.counts {
        Ok(counts) => {
            table[..size].copy_from_slice(&unused[..size]);
            after_table(p, counts, size)
        }
        Err(refusal) => {
            let mut text = TextSpace {
                bytes: out,
                at: p.at,
            };
            answer_refusal(refusal, 0, &mut text);
            after_refusal(p, text.at)
        }
    }
}

// The next record is answered; input that stops before its first byte ends the run.
fn next_answered(
    p: Progress,
    input: &[u8],
    table: &[u8],
    weights: &[u64],
    state: &mut [u64; STATE_NUMBERS],
    space: &mut [Figures],
    fours: &DigitFours,
    out: &mut [u8],
) -> Progress
    requires { BuffersFit p input.now table.now weights.now state.old out.old × (WorkingSpace space.old × RecordDue p) }
    ensures { HeldAnswered (held_in p input.now table.now state.old out.old) result input.now table.now weights.now state.new out.new }
{
    if p.from == p.have {
        return after_stop(p);
    }
    let unused = &input[p.from..p.have];
    let size = record_length(unused);
    let mut text = TextSpace {
        bytes: out,
        at: p.at,
    };
    let ended = answer_record(
        &table[..p.length],
        p.counts,
        weights,
        &unused[..size],
        state,
        space,
        fours,
        &mut text,
    );
    after_record(p, size, ended, text.at)
}

// The table, or else the next record, is answered.
fn answered(
    p: Progress,
    input: &[u8],
    table: &mut [u8],
    weights: &mut [u64],
    state: &mut [u64; STATE_NUMBERS],
    space: &mut [Figures],
    fours: &DigitFours,
    out: &mut [u8],
) -> Progress
    requires { BuffersFit p input.now table.old weights.old state.old out.old × (WorkingSpace space.old × AnswerDue p) }
    ensures { HeldAnswered (held_in p input.now table.old state.old out.old) result input.now table.new weights.new state.new out.new }
{
    if p.judged {
        next_answered(p, input, table, weights, state, space, fours, out)
    } else {
        table_answered(p, input, table, weights, state, out)
    }
}

// The next thing: text is handed over, the run ends, input is asked for, or what is held is answered.
pub fn proceed(
    p: Progress,
    input: &mut [u8],
    table: &mut [u8],
    weights: &mut [u64],
    state: &mut [u64; STATE_NUMBERS],
    space: &mut [Figures],
    fours: &DigitFours,
    out: &mut [u8],
) -> Turn
    requires { BuffersFit p input.old table.old weights.old state.old out.old × WorkingSpace space.old }
    ensures { Turned (held_in p input.old table.old state.old out.old) result input.new table.new weights.new state.new out.new }
{
    let wants = wants_more(p.judged, p.over, &input[p.from..p.have]);
    let ended = has_ended(p.judged, p.left);
    if text_due(ended, wants, p.at) {
        return Turn {
            progress: after_write(p),
            next: Next::Write(p.at),
        };
    }
    if ended {
        return Turn {
            progress: p,
            next: Next::End,
        };
    }
    if wants {
        let progress = moved_front(p, input);
        return Turn {
            progress,
            next: Next::Read(progress.have),
        };
    }
    Turn {
        progress: answered(p, input, table, weights, state, space, fours, out),
        next: Next::Answer,
    }
}
