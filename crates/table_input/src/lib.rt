// A start on the table that the program's input begins with.
#![tactic(auto)]

ghost use Rattle.std.specs.Prelude.{◌≡◌, ◌≤◌, length};
ghost use Rattle.sizes.specs.Sizes.{most_elements};
ghost use Rattle.table_input.specs.Starts.{TableEnd, StartedOn, StartedOnInput};

use fields::bytes::read32;
use refusal::Refusal;
use sizes::{STATE_NUMBERS, TABLE_BYTES};
use table::Counts;

// The counts of a table, or its refusal, and how many bytes of the input it has.
#[derive(Clone, Copy)]
pub struct TableStart {
    pub counts: Result<Counts, Refusal>,
    pub length: usize,
}

// How many bytes of the input its table has; none where the table is too long.
fn table_length(input: &[u8]) -> usize
    ensures { TableEnd input.now result }
{
    let counted = read32(input, 0) + 4;
    if counted > TABLE_BYTES as u64 {
        return 0;
    }
    input.len().min(counted as usize)
}

// A start on the bytes of a table; its weights are put into lent numbers where it is accepted.
fn start_on(
    table: &[u8],
    weights: &mut [u64],
    state: &mut [u64; STATE_NUMBERS],
) -> Result<Counts, Refusal>
    requires { most_elements ≤ length weights.old }
    ensures { StartedOn table.now state.old result weights.new state.new }
{
    let counts = table_reader::read(table)?;
    first_values::start_on(table, counts.elements, state);
    element_weights::put_weights(table, counts.step, counts.elements, weights);
    Ok(counts)
}

// A start on the table that the input begins with.
pub fn started_on_input(
    input: &[u8],
    weights: &mut [u64],
    state: &mut [u64; STATE_NUMBERS],
) -> TableStart
    requires { most_elements ≤ length weights.old }
    ensures { StartedOnInput input.now state.old result weights.new state.new }
{
    let length = table_length(input);
    TableStart {
        counts: start_on(&input[..length], weights, state),
        length,
    }
}
