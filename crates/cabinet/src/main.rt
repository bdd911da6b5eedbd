// Document 01, the program: a table and then records on standard input, the figures of each accepted step on standard output. The loop
// alone: what is read, what is written and when the run ends is the machine's to say (`machine::proceed`).
#![tactic(auto)]

ghost use Rattle.std.specs.Prelude.{◌≡◌, length};
ghost use Rattle.io.specs.Counts.{IsPrefixLen};
ghost use Rattle.sizes.specs.Sizes.{most_elements, table_bytes, forecast_places, input_buffer, text_buffer};
ghost use Rattle.table_input.specs.Start.{empty_state};

use machine::{Next, proceed};
use method::Figures;
use progress::{after_read, first_progress};
use sizes::{
    FORECAST_PLACES, INPUT_BUFFER, MOST_ELEMENTS, STATE_NUMBERS, TABLE_BYTES, TEXT_BUFFER,
};
use std::io::{Read, Stdin};
use text::DigitFours;

// The bytes of the input that are not used yet.
fn input_buffer() -> [u8; INPUT_BUFFER]
    ensures { input_buffer ≡ length result }
{
    [0; INPUT_BUFFER]
}

// The longest table.
fn table_buffer() -> [u8; TABLE_BYTES]
    ensures { table_bytes ≡ length result }
{
    [0; TABLE_BYTES]
}

// The weights of the most elements.
fn weight_space() -> [u64; MOST_ELEMENTS]
    ensures { most_elements ≡ length result }
{
    [0; MOST_ELEMENTS]
}

// A state with nothing in it.
#[tactic(auto, unfolding(table_input::specs::Start::empty_state))]
fn empty_state() -> [u64; STATE_NUMBERS]
    ensures { result ≡ empty_state }
{
    [0; STATE_NUMBERS]
}

// Working space for the largest forecast.
fn forecast_space() -> [Figures; FORECAST_PLACES]
    ensures { forecast_places ≡ length result }
{
    [Figures::NONE; FORECAST_PLACES]
}

// The text that is not written yet.
fn text_buffer() -> [u8; TEXT_BUFFER]
    ensures { text_buffer ≡ length result }
{
    [0; TEXT_BUFFER]
}

// One read of standard input; how many bytes came, none at its end or where it cannot be read.
fn read_input(input: &mut Stdin, buffer: &mut [u8]) -> usize
    ensures { IsPrefixLen result buffer.new }
{
    input.read(buffer).unwrap_or(0)
}

fn main(rt: HostRuntime) {
    let mut stdin = rt.stdin();
    let mut input = input_buffer();
    let mut table = table_buffer();
    let mut weights = weight_space();
    let mut state = empty_state();
    let mut space = forecast_space();
    let fours = DigitFours::new();
    let mut out = text_buffer();
    let mut progress = first_progress();
    loop {
        let turn = proceed(
            progress,
            &mut input,
            &mut table,
            &mut weights,
            &mut state,
            &mut space,
            &fours,
            &mut out,
        );
        progress = turn.progress;
        match turn.next {
            Next::Write(size) => {
                io::write_all(1, &out[..size]);
            }
            Next::End => break,
            Next::Read(at) => {
                let got = read_input(&mut stdin, &mut input[at..]);
                progress = after_read(progress, got);
            }
            Next::Answer => {}
        }
    }
}
