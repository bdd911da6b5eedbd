// The digits of a figure, at most ten of them, in groups of four.
#![tactic(auto)]

ghost use Rattle.std.specs.Prelude.{[], ◌∷◌, ◌++◌, ◌+◌, ◌≤◌, ◌<◌, length};
ghost use Rattle.text.specs.Decimal.{decimal};
ghost use Rattle.text.specs.Places.{TextPut};

use text::{DigitFours, TextSpace};

// The digits of a number of at most four.
fn put_short(text: &mut TextSpace<'_>, v: u32, fours: &DigitFours)
    requires { (v < 10000) × (text.old.at + 4 ≤ length text.old.bytes.now) }
    ensures { TextPut text.old (decimal v) text.new × (text.new.at ≤ text.old.at + 4) }
{
    if v < 10 {
        text.put_byte((48 + v) as u8);
        return;
    }
    if v < 100 {
        text.put_last_digits::<2>(v, fours);
        return;
    }
    if v < 1_000 {
        // One store of four bytes, the last of which does not count.
        text.put_last_digits::<4>(10 * v, fours);
        text.at -= 1;
        return;
    }
    text.put_last_digits::<4>(v, fours);
}

// The digits of a number of at most eight.
fn put_upper(text: &mut TextSpace<'_>, v: u32, fours: &DigitFours)
    requires { (v < 100000000) × (text.old.at + 8 ≤ length text.old.bytes.now) }
    ensures { TextPut text.old (decimal v) text.new × (text.new.at ≤ text.old.at + 8) }
{
    if v < 10_000 {
        put_short(text, v, fours);
        return;
    }
    let first = v / 10_000;
    put_short(text, first, fours);
    text.put_last_digits::<4>(v - 10_000 * first, fours);
}

// The digits of a number of at most ten. A short number, as most margins are, goes the shortest way.
fn put_decimal(text: &mut TextSpace<'_>, x: u32, fours: &DigitFours)
    requires { text.old.at + 12 ≤ length text.old.bytes.now }
    ensures { TextPut text.old (decimal x) text.new × (text.new.at ≤ text.old.at + 12) }
{
    if x < 10_000 {
        put_short(text, x, fours);
        return;
    }
    let upper = x / 10_000;
    put_upper(text, upper, fours);
    text.put_last_digits::<4>(x - 10_000 * upper, fours);
}

// As TextSpace::put_number, and faster, for numbers of at most ten digits: the figures of each line.
pub fn put_figure(text: &mut TextSpace<'_>, x: u32, after: u8, fours: &DigitFours)
    requires { text.old.at + 21 ≤ length text.old.bytes.now }
    ensures { TextPut text.old (decimal x ++ after ∷ []) text.new × (text.new.at ≤ text.old.at + 21) }
{
    put_decimal(text, x, fours);
    text.put_byte(after);
}
