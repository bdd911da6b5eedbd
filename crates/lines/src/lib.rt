// The lines of a forecast and of a refusal, put into lent space.
#![tactic(auto)]

ghost use Rattle.std.specs.Prelude.{[], ◌∷◌, ◌++◌, ◌≡◌, ◌+◌, ◌*◌, ◌≤◌, length, take};
ghost use Rattle.method.specs.Figures.{figure_numbers};
ghost use Rattle.text.specs.Decimal.{decimal};
ghost use Rattle.text.specs.Lines.{line};
ghost use Rattle.text.specs.Places.{TextPut};
ghost use Rattle.lines.specs.Printed.{refusal_line, answer_lines};
ghost use Rattle.lines.specs.Ready.{FiguresReady, LineReady, ElementReady, ElementPut, LinesReady};
ghost use Rattle.lines.specs.Starts.{line_after, lines_after};

use figure_text::put_figure;
use method::Figures;
use std::simd::u8x32;
use text::{DigitFours, TextSpace};

// The line of a refusal.
pub fn put_refusal(text: &mut TextSpace<'_>, steps: u64, number: u64)
    requires { text.old.at + 50 ≤ length text.old.bytes.now }
    ensures { TextPut text.old (refusal_line steps number) text.new × (text.new.at ≤ text.old.at + 50) }
{
    text.put_number(steps, b' ');
    text.put_bytes(b"refused ");
    text.put_number(number, b'\n');
}

// How a line starts. Two vectors of sixteen bytes are copied, also where fewer bytes count.
fn put_start(text: &mut TextSpace<'_>, start: &[u8], size: usize)
    requires { (length start.now ≡ 32) × ((size ≤ 32) × (text.old.at + 32 ≤ length text.old.bytes.now)) }
    ensures { TextPut text.old (take size start.now) text.new }
{
    let bytes = &mut *text.bytes;
    u8x32::from_slice(start).copy_to_slice(&mut bytes[text.at..]);
    text.at += size;
}

// The four figures, which end a line. Four calls, which are compiled into the loop over the lines.
fn put_figures(text: &mut TextSpace<'_>, figures: Figures, fours: &DigitFours)
    requires { FiguresReady text.old figures }
    ensures { TextPut text.old (line (figure_numbers figures)) text.new × (text.new.at ≤ text.old.at + 84) }
{
    put_figure(text, figures.discharge.0 as u32, b' ', fours);
    put_figure(text, figures.discharge_margin.0 as u32, b' ', fours);
    put_figure(text, figures.variance.0 as u32, b' ', fours);
    put_figure(text, figures.variance_margin.0 as u32, b'\n', fours);
}

// The line at a lead, with its four figures.
fn put_line(
    text: &mut TextSpace<'_>,
    start: &[u8],
    size: usize,
    lead: usize,
    figures: Figures,
    fours: &DigitFours,
)
    requires { LineReady text.old start.now size lead figures }
    ensures { TextPut text.old (line_after (take size start.now) lead figures) text.new × (text.new.at ≤ text.old.at + 147) }
{
    put_start(text, start, size);
    text.put_small(lead as u32, b' ', fours);
    put_figures(text, figures, fours);
}

// The lines of element i, counted from 0, of a forecast's figures. The start of a line says the step count already, up to a place, and
// is given the element.
fn put_element(
    text: &mut TextSpace<'_>,
    figures: &[Figures],
    start: &mut [u8],
    size: usize,
    i: usize,
    leads: usize,
    fours: &DigitFours,
)
    requires { ElementReady text.old figures.now start.old size i leads }
    ensures { ElementPut text.old (lines_after (take size start.old ++ (decimal (i + 1) ++ 32 ∷ [])) leads figures.now i) text.new leads size start.old start.new }
{
    let mut whole = TextSpace {
        bytes: &mut *start,
        at: size,
    };
    whole.put_small(i as u32 + 1, b' ', fours);
    let size = whole.at;
    for lead in 0..leads {
        put_line(text, start, size, lead, figures[i * leads + lead], fours);
    }
}

// The lines of a forecast's figures, by element and then lead.
pub fn put_lines(
    text: &mut TextSpace<'_>,
    figures: &[Figures],
    steps: u64,
    elements: usize,
    leads: usize,
    fours: &DigitFours,
)
    requires { LinesReady text.old figures.now elements leads }
    ensures { TextPut text.old (answer_lines steps leads figures.now elements) text.new × (text.new.at ≤ text.old.at + 147 * (elements * leads)) }
{
    let mut start = [0u8; 32];
    let mut steps_put = TextSpace {
        bytes: &mut start,
        at: 0,
    };
    steps_put.put_number(steps, b' ');
    let size = steps_put.at;
    // A space of this function's own, whose place stays in a register over the lines.
    let mut lines = TextSpace {
        bytes: &mut *text.bytes,
        at: text.at,
    };
    for i in 0..elements {
        put_element(&mut lines, figures, &mut start, size, i, leads, fours);
    }
    text.at = lines.at;
}
