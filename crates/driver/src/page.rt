// The text that the programs print: result words, masks, messages, and what `dump` and `panel` say.
ghost use Rattle.std.specs.Prelude.{◌≡◌, true, false, [], ◌∷◌, ◌++◌, take};
ghost use Rattle.refusal.specs.Numbers.{number_of};
ghost use Rattle.text.specs.Digits.{digits_of};
ghost use Rattle.driver.specs.Lines.{word_line, word_lines, mask_line, byte_pairs, message_line, answer_lines, heard_lines, heard_by, begun, written, lines_on};

use refusal::Refusal;
use std::fmt;
use std::io::Stdout;

// Lines are gathered, and written to standard output in large parts. A byte past the end is dropped: a line of 8,192 bytes at most never is cut.
// Memory of a fixed size: printing cannot fail.
#[derive(Drop)]
pub struct Page {
    pub to: Stdout,
    pub text: text::Buffer,
}

impl Page {
    // A line begins here: where less than 8,192 bytes are left, what is gathered is written first.
    pub fn begin(&mut self)
        ensures { self.new ≡ begun self.old }
    {
        self.text.room(self.to);
    }

    pub fn put(&mut self, b: u8)
        ensures { self.new ≡ written self.old (b ∷ []) }
    {
        self.text.put(b);
    }

    // The last `digits` hexadecimal digits of v, in capitals.
    fn big(&mut self, v: u64, digits: usize)
        ensures { self.new ≡ written self.old (digits_of false v digits) }
    {
        self.text.big(v, digits);
    }

    // In lower case.
    pub fn small(&mut self, v: u64, digits: usize)
        ensures { self.new ≡ written self.old (digits_of true v digits) }
    {
        self.text.hex(v, digits);
    }

    // Two digits a byte.
    fn pairs(&mut self, m: &[u8])
        ensures { self.new ≡ written self.old (byte_pairs m.now) }
    {
        for x in m {
            self.big(u64::from(*x), 2);
        }
    }

    // A word as eight digits on a line.
    pub fn word(&mut self, w: u32)
        ensures { self.new ≡ lines_on self.old (word_line w ∷ []) }
    {
        self.begin();
        self.big(u64::from(w), 8);
        self.put(b'\n');
    }

    pub fn words(&mut self, ws: &[u32])
        ensures { self.new ≡ lines_on self.old (word_lines ws.now) }
    {
        for w in ws {
            self.word(*w);
        }
    }

    // A refusal's number.
    pub fn refusal(&mut self, r: Refusal)
        ensures { self.new ≡ lines_on self.old (word_line (number_of r) ∷ []) }
    {
        self.word(u32::from(u8::from(r)));
    }

    // A refusal, or the words of a call.
    pub fn answer(&mut self, out: &[u32; 8192], a: Result<usize, Refusal>)
        ensures { self.new ≡ lines_on self.old (answer_lines out.now a) }
    {
        match a {
            Ok(n) => self.words(first(out, n)),
            Err(r) => self.refusal(r),
        }
    }

    // Half a mask.
    fn mask(&mut self, w: u64)
        ensures { self.new ≡ lines_on self.old (mask_line w ∷ []) }
    {
        self.begin();
        self.put(b'M');
        self.put(b' ');
        self.big(w, 8);
        self.put(b'\n');
    }

    // The n words of a reception, and in `drive` the mask.
    fn reception(&mut self, drive: bool, out: &[u32; 8192], n: usize, mask: u64)
        ensures { self.new ≡ lines_on self.old (heard_lines drive out.now n mask) }
    {
        self.words(first(out, n));
        if drive {
            self.mask(mask / 4294967296);
            self.mask(mask % 4294967296);
        }
    }

    // A reception's answer.
    pub fn heard(&mut self, drive: bool, out: &[u32; 8192], mask: u64, a: Result<usize, Refusal>)
        ensures { self.new ≡ lines_on self.old (heard_by drive out.now mask a) }
    {
        match a {
            Ok(n) => self.reception(drive, out, n, mask),
            Err(r) => self.refusal(r),
        }
    }

    // A message's bytes on a line.
    pub fn message(&mut self, m: &[u8])
        ensures { self.new ≡ lines_on self.old (message_line m.now ∷ []) }
    {
        self.begin();
        self.put(b'R');
        self.put(b' ');
        self.pairs(m);
        self.put(b'\n');
    }

    // What is gathered is written. (No clause can say what standard output gets.)
    pub fn flush(&self) {
        self.text.flush(self.to);
    }
}

impl fmt::Write for Page {
    ghost write_str_gives = { λ p bs q. q ≡ written p bs };

    fn write_str(&mut self, s: &str) -> fmt::Result {
        self.text.text(s.as_bytes());
        Ok(())
    }
}

// The first n words.
fn first(out: &[u32; 8192], n: usize) -> &[u32]
    ensures { result.now ≡ take n out.now }
{
    if n < out.len() { &out[..n] } else { &out[..] }
}
