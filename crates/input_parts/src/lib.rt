// The parts of the program's input, in the bytes that are read and not used yet: whether the table or a record is whole, and where a
// record ends.
#![tactic(auto)]

ghost use Rattle.std.specs.Prelude.{true, false};
ghost use Rattle.program_run.specs.Machine.{table_held, record_held, lacking};
ghost use Rattle.input_parts.specs.Parts.{Tells, RecordEnd};

use fields::bytes::{read16, read32};
use sizes::TABLE_BYTES;

// Whether all bytes of the table are held, or its length where it is too long.
fn holds_table(unused: &[u8]) -> bool
    ensures { Tells result (table_held unused.now) false unused.now }
{
    let size = unused.len();
    if size < 4 {
        return false;
    }
    let counted = read32(unused, 0) + 4;
    if counted > TABLE_BYTES as u64 {
        return true;
    }
    counted <= size as u64
}

// Whether all bytes of the next record are held.
fn holds_record(unused: &[u8]) -> bool
    ensures { Tells result (record_held unused.now) false unused.now }
{
    read16(unused, 0) + 2 <= unused.len() as u64
}

// How many bytes of the input that is left the next record has.
pub fn record_length(rest: &[u8]) -> usize
    ensures { RecordEnd rest.now result }
{
    let counted = read16(rest, 0) + 2;
    rest.len().min(counted as usize)
}

// Whether more input is needed before the table or the next record can be answered.
pub fn wants_more(judged: bool, over: bool, unused: &[u8]) -> bool
    ensures { Tells result (lacking judged over unused.now) true unused.now }
{
    if over {
        return false;
    }
    if judged {
        return !holds_record(unused);
    }
    !holds_table(unused)
}
