// Document 01's words, written to an output that the caller lends.
// Each method writes behind what is written. Past the output's end nothing is written, and the place stays.
#![tactic(auto)]

ghost use Rattle.std.specs.Prelude.{◌≡◌, [], ◌∷◌, ◌≤◌, ◌<◌, ◌%◌, length, take, get_or};
ghost use Rattle.words.specs.Words.{least};
ghost use Rattle.out.specs.Encode.{word12, pack, frame_words, ctrl_words, head_word, wave_word, event_word, missed_word, message_word, chunk_words};
ghost use Rattle.out.specs.Outputs.{Writes};

use words::least;

// The output, and the place after what is written: `Output { words, at: 0 }` writes from the start.
#[derive(Drop)]
pub struct Output<'a> {
    pub words: &'a mut [u32],
    pub at: usize,
}

impl Output<'_> {
    // A word.
    pub fn word(&mut self, w: u32)
        ensures { Writes self.old (w ∷ []) self.new }
    {
        if self.at < self.words.len() {
            self.words[self.at] = w;
            self.at += 1;
        }
    }

    // Event 1 checked in, 4 relayed or 5 routed.
    pub fn event(&mut self, kind: u32, slot: usize, relay: u8)
        ensures { Writes self.old (event_word kind slot relay ∷ []) self.new }
    {
        self.word(kind % 16 * 268435456 + u32::from(relay) % 64 * 64 + (slot % 64) as u32);
    }

    // Event 2: a message landed in a cell.
    pub fn message(&mut self, slot: usize, cell: usize, number: u32)
        ensures { Writes self.old (message_word slot cell number ∷ []) self.new }
    {
        self.word(
            0x2000_0000 + number % 256 * 8192 + (cell % 128) as u32 * 64 + (slot % 64) as u32,
        );
    }

    // Event 3: a boat missed its turn.
    pub fn missed(&mut self, slot: usize)
        ensures { Writes self.old (missed_word slot ∷ []) self.new }
    {
        self.word(0x3000_0000 + (slot % 64) as u32);
    }

    // Words 8 and 9: a sending's head and its level.
    pub fn head(&mut self, code: u32, hi: u32, extra: u32, level: u32)
        ensures { Writes self.old (head_word code hi extra ∷ wave_word level ∷ []) self.new }
    {
        self.word(0x8000_0000 + code % 128 * 2097152 + hi % 16 * 131072 + extra % 65536);
        self.word(0x9000_0000 + level % 32);
    }

    // The head and the level of a tiny burst, which has code 62 and no frames.
    pub fn tiny(&mut self, kind: u32, extra: u32, level: u32)
        ensures { Writes self.old (head_word 62 kind extra ∷ wave_word level ∷ []) self.new }
    {
        self.head(62, kind, extra, level);
    }

    // A frame of the first n bytes of p, 255 at most: words 10, 11 and 12.
    pub fn frame(&mut self, flags: u8, field: u32, p: &[u8], n: usize)
        ensures { Writes self.old (frame_words flags (field % 16777216) (take (least n 255) p.now)) self.new }
    {
        let m = least(least(n, 255), p.len());
        self.word(0xa000_0000 + u32::from(flags) * 256 + m as u32);
        self.word(0xb000_0000 + field % 16777216);
        self.payload(&p[..m]);
    }

    // A control frame to everyone, of the first n bytes of p.
    pub fn ctrl(&mut self, p: &[u8; 32], n: usize)
        ensures { Writes self.old (ctrl_words (take n p.now)) self.new }
    {
        self.frame(0xbf, 0, p, n);
    }

    // The rows in control frames of `size` bytes each (1 to 31) behind the byte `kind`.
    pub fn chunks(&mut self, kind: u8, rows: &[u8], size: usize)
        ensures { Writes self.old (chunk_words kind size rows.now) self.new }
    {
        for chunk in rows.chunks(size.clamp(1, 31)) {
            self.chunk(kind, chunk);
        }
    }

    // The control frame of the byte `kind` and the bytes of a chunk.
    fn chunk(&mut self, kind: u8, chunk: &[u8])
        requires { length chunk.now ≤ 31 }
        ensures { Writes self.old (ctrl_words (kind ∷ chunk.now)) self.new }
    {
        let n = chunk.len();
        let mut p = [0u8; 32];
        p[0] = kind;
        p[1..=n].copy_from_slice(chunk);
        self.ctrl(&p, n + 1);
    }

    // The words 12 of a payload.
    fn payload(&mut self, p: &[u8])
        ensures { Writes self.old (pack p.now) self.new }
    {
        for three in p.chunks(3) {
            self.word(payload_word(three));
        }
    }
}

// The word 12 of its first three bytes, zeros for those that it has not.
fn payload_word(p: &[u8]) -> u32
    ensures { result ≡ word12 (get_or p.now 0 0) (get_or p.now 1 0) (get_or p.now 2 0) }
{
    0xc000_0000 + byte_or_zero(p, 0) * 65536 + byte_or_zero(p, 1) * 256 + byte_or_zero(p, 2)
}

// Byte i, 0 past the end.
fn byte_or_zero(p: &[u8], i: usize) -> u32
    ensures { (result ≡ get_or p.now i 0) × (result < 256) }
{
    u32::from(p.get(i).copied().unwrap_or(0))
}
