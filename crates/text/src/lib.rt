// Numbers and bytes as text, put into lent space at the place that it holds.
#![tactic(auto)]

ghost use Rattle.std.specs.Prelude.{[], ◌∷◌, ◌++◌, ◌≡◌, ◌+◌, ◌≤◌, ◌<◌, length};
ghost use Rattle.text.specs.Decimal.{last_digits, decimal};
ghost use Rattle.text.specs.Fours.{pair_of, fours_below};
ghost use Rattle.text.specs.Places.{TextPut};

use std::array::from_fn;

// Two digits as bytes, the first one the lower byte.
fn pair_of(v: u32) -> u32
    requires { v < 100 }
    ensures { result ≡ pair_of v }
{
    12_336 + v / 10 + 256 * (v % 10)
}

// The digits of 0 to 9,999, four to a word.
#[derive(Clone, Copy)]
pub struct DigitFours {
    pub words: [u32; 10000],
    pub ghost digits: { words ≡ fours_below 10000 },
}

impl DigitFours {
    pub fn new() -> Self {
        DigitFours {
            words: from_fn(|v| {
                let x = v as u32;
                pair_of(x / 100) + 65_536 * pair_of(x % 100)
            }),
        }
    }
}

// Lent space, and the place in it that the next text is put at.
#[derive(Drop)]
pub struct TextSpace<'a> {
    pub bytes: &'a mut [u8],
    pub at: usize,
}

impl TextSpace<'_> {
    pub fn put_bytes(&mut self, bytes: &[u8])
        requires { self.old.at + length bytes.now ≤ length self.old.bytes.now }
        ensures { TextPut self.old bytes.now self.new }
    {
        let end = self.at + bytes.len();
        self.bytes[self.at..end].copy_from_slice(bytes);
        self.at = end;
    }

    pub fn put_byte(&mut self, byte: u8)
        requires { self.old.at < length self.old.bytes.now }
        ensures { TextPut self.old (byte ∷ []) self.new }
    {
        self.bytes[self.at] = byte;
        self.at += 1;
    }

    // The digits of x one by one.
    fn put_digits(&mut self, x: u64)
        requires { self.old.at + length (decimal x) ≤ length self.old.bytes.now }
        ensures { TextPut self.old (decimal x) self.new }
    {
        if x < 10 {
            self.put_byte((48 + x) as u8);
            return;
        }
        self.put_digits(x / 10);
        self.put_byte((48 + x % 10) as u8);
    }

    // The digits of x one by one and then one byte.
    pub fn put_number(&mut self, x: u64, after: u8)
        requires { self.old.at + 21 ≤ length self.old.bytes.now }
        ensures { TextPut self.old (decimal x ++ after ∷ []) self.new × (self.new.at ≤ self.old.at + 21) }
    {
        self.put_digits(x);
        self.put_byte(after);
    }

    // The last N digits of a number of at most four, zeros before them where it has fewer.
    pub fn put_last_digits<const N: usize>(&mut self, v: u32, fours: &DigitFours)
        requires few { N ≤ 4 }
        requires small { v < 10000 }
        requires room { self.old.at + N ≤ length self.old.bytes.now }
        ensures { TextPut self.old (last_digits N v) self.new × (self.new.at ≡ self.old.at + N) }
    {
        let four = fours.words[v as usize].to_le_bytes();
        self.put_bytes(&four[4 - N..]);
    }

    // A number of one or two digits and then one byte.
    pub fn put_small(&mut self, x: u32, after: u8, fours: &DigitFours)
        requires { (x < 100) × (self.old.at + 3 ≤ length self.old.bytes.now) }
        ensures { TextPut self.old (decimal x ++ after ∷ []) self.new × (self.new.at ≤ self.old.at + 3) }
    {
        if x < 10 {
            self.put_byte((48 + x) as u8);
        } else {
            self.put_last_digits::<2>(x, fours);
        }
        self.put_byte(after);
    }
}
