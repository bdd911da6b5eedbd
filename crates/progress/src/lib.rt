// How far a run of the program has come: what it holds beside the lent numbers, and where it lies in the program's buffers.
#![tactic(auto)]

ghost use Rattle.std.specs.Prelude.{cond, ◌≡◌, ◌+◌, ◌-◌, ◌≤◌, ◌<◌, length, take, drop};
ghost use Rattle.sizes.specs.Sizes.{input_buffer};
ghost use Rattle.program_run.specs.Machine.{none_left, goes_out};
ghost use Rattle.progress.specs.Places.{FirstProgress, after_table, after_refusal, after_record, after_stop, TextWritten, WindowFits, MovedFront, ReadIn};

use sizes::{MOST_RECORDS, TEXT_BUFFER, TEXT_BYTES};
use table::Counts;

// Whether the table has been judged; the bytes of the input buffer that are read and not used yet, from one place to another; whether the
// input has ended; how many records are left to be answered; the accepted table's counts and how many bytes it has; the place after the
// text that is not handed over yet.
#[derive(Clone, Copy)]
pub struct Progress {
    pub judged: bool,
    pub from: usize,
    pub have: usize,
    pub over: bool,
    pub left: u64,
    pub counts: Counts,
    pub length: usize,
    pub at: usize,
}

// Before the first byte.
#[tactic(auto, unfolding(crate::specs::Places::held_in, program_run::specs::Machine::first))]
pub fn first_progress() -> Progress
    ensures { FirstProgress result }
{
    Progress {
        judged: false,
        from: 0,
        have: 0,
        over: false,
        left: MOST_RECORDS,
        counts: Counts {
            step: 0,
            leads: 0,
            elements: 0,
            gauges: 0,
            basins: 0,
            dams: 0,
            extra: 0,
        },
        length: 0,
        at: 0,
    }
}

// Whether no record is left to be answered.
#[tactic(auto, unfolding(program_run::specs::Machine::none_left))]
pub fn has_ended(judged: bool, left: u64) -> bool
    ensures { result ≡ none_left judged left }
{
    judged && left == 0
}

// Whether so many bytes of text go out now.
#[tactic(auto, unfolding(program_run::specs::Machine::goes_out))]
pub fn text_due(ended: bool, wants: bool, at: usize) -> bool
    ensures { result ≡ goes_out ended wants at }
{
    at > 0 && (ended || wants || at > TEXT_BUFFER - TEXT_BYTES)
}

// The text is handed over.
#[tactic(auto, unfolding(crate::specs::Places::held_in, program_run::specs::Machine::written))]
pub fn after_write(p: Progress) -> Progress
    ensures { TextWritten p result }
{
    Progress { at: 0, ..p }
}

// A table of so many bytes is accepted.
pub fn after_table(p: Progress, counts: Counts, size: usize) -> Progress
    requires { p.from + size ≤ p.have }
    ensures { result ≡ after_table p counts size }
{
    Progress {
        judged: true,
        from: p.from + size,
        counts,
        length: size,
        ..p
    }
}

// The table is refused, and its refusal's line ends at a place.
pub fn after_refusal(p: Progress, at: usize) -> Progress
    ensures { result ≡ after_refusal p at }
{
    let judged = true;
    Progress {
        judged,
        left: 0,
        at,
        ..p
    }
}

// A record of so many bytes is answered, and its text ends at a place.
pub fn after_record(p: Progress, size: usize, ended: bool, end: usize) -> Progress
    requires { (0 < p.left) × (p.from + size ≤ p.have) }
    ensures { result ≡ after_record p size ended end }
{
    Progress {
        from: p.from + size,
        left: if ended { 0 } else { p.left - 1 },
        at: end,
        ..p
    }
}

// The input has ended before a record's first byte.
pub fn after_stop(p: Progress) -> Progress
    ensures { result ≡ after_stop p }
{
    Progress { left: 0, ..p }
}

// The bytes that are not used yet, moved to the front, so that there is room for more after them.
pub fn moved_front(p: Progress, input: &mut [u8]) -> Progress
    requires { WindowFits p input.old }
    ensures { MovedFront p input.old result input.new }
{
    input.copy_within(p.from..p.have, 0);
    Progress {
        from: 0,
        have: p.have - p.from,
        ..p
    }
}

// What a read of so many bytes after those that were held leaves; the input has ended where it brought none.
pub fn after_read(p: Progress, got: usize) -> Progress
    requires { p.have + got ≤ input_buffer }
    ensures { ReadIn p got result }
{
    Progress {
        have: p.have + got,
        over: got == 0,
        ..p
    }
}
