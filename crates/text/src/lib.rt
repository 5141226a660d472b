// Lines of text, gathered in a buffer before they are written to standard output, and standard input in large parts.
#![tactic(auto)]

ghost use Rattle.std.specs.Prelude.{◌≡◌, cond, true, false, [], ◌∷◌, ltb};
ghost use Rattle.out.specs.Encode.{Wrote};
ghost use Rattle.text.specs.Digits.{glyph, digit_of, digits_of, Decimal};

mod input;
mod number;

pub use input::{read_full, read_line, read_part};
pub use number::{decimal, hex_value, hex_word};
use std::io::{Stdout, Write};

// Text in memory of a fixed size, and where it ends. A byte past the buffer's end is dropped: a line that begins at `room` and has 8,192 bytes at most
// is never cut.
#[derive(Drop)]
pub struct Buffer {
    pub bytes: [u8; 65536],
    pub end: usize,
}

impl Buffer {
    // Writes the text. What cannot be written is dropped. (No clause can say what standard output gets.)
    pub fn flush(&self, to: Stdout) {
        write_first(to, &self.bytes, self.end);
    }

    // The next line starts here: where less than 8,192 bytes are left, what is gathered is written first.
    pub fn room(&mut self, to: Stdout)
        ensures end { self.new.end ≡ cond (ltb self.old.end 57344) self.old.end 0 }
        ensures bytes { self.new.bytes ≡ self.old.bytes }
    {
        if 57344 <= self.end {
            self.flush(to);
            self.end = 0;
        }
    }

    pub fn put(&mut self, b: u8)
        ensures { Wrote self.old.bytes self.old.end (b ∷ []) self.new.bytes self.new.end }
    {
        self.end = put_in(&mut self.bytes, self.end, b);
    }

    // The bytes of s.
    pub fn text(&mut self, s: &[u8])
        ensures { Wrote self.old.bytes self.old.end s.now self.new.bytes self.new.end }
    {
        for b in s {
            self.put(*b);
        }
    }

    // A number in decimal.
    pub fn decimal(&mut self, v: u64)
        ensures { Decimal self.old.bytes self.old.end v self.new.bytes self.new.end }
    {
        let mut digits = [0u8; 20];
        let n = decimal(v, &mut digits);
        self.text(&digits[..n]);
    }

    // The last `digits` hexadecimal digits of v.
    fn digits(&mut self, v: u64, digits: usize, small: bool)
        ensures { Wrote self.old.bytes self.old.end (digits_of small v digits) self.new.bytes self.new.end }
    {
        for k in (0..digits).rev() {
            self.put(glyph(digit_of(v, k), small));
        }
    }

    // In lower case.
    pub fn hex(&mut self, v: u64, digits: usize)
        ensures { Wrote self.old.bytes self.old.end (digits_of true v digits) self.new.bytes self.new.end }
    {
        self.digits(v, digits, true);
    }

    // In capitals.
    pub fn big(&mut self, v: u64, digits: usize)
        ensures { Wrote self.old.bytes self.old.end (digits_of false v digits) self.new.bytes self.new.end }
    {
        self.digits(v, digits, false);
    }
}

fn write_first(mut to: Stdout, t: &[u8], n: usize) {
    if n <= t.len() {
        let _ = to.write_all(&t[..n]);
    }
}

fn put_in(t: &mut [u8], at: usize, b: u8) -> usize
    ensures { Wrote t.old at (b ∷ []) t.new result }
{
    if at < t.len() {
        t[at] = b;
        return at + 1;
    }
    at
}

// A hexadecimal digit.
fn glyph(d: u8, small: bool) -> u8
    ensures { result ≡ glyph small d }
{
    let e = d % 16;
    if e < 10 {
        return e + 48;
    }
    if small { e + 87 } else { e + 55 }
}

// Hexadecimal digit k of v, the lowest being 0.
fn digit_of(v: u64, k: usize) -> u8
    ensures { result ≡ digit_of v k }
{
    if k < 16 {
        return ((v >> (4 * k)) % 16) as u8;
    }
    0
}
