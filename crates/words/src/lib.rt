// Document 01's words, read: whether they are a burst, and what stands in it.
#![tactic(auto)]

ghost use Rattle.std.specs.Prelude.{◌≡◌, ◌-◌, ◌≤◌, ◌%◌, length, drop, get_or};
ghost use Rattle.words.specs.Words.{head_ok, head_of, word_ok, payload_ok, item_at, peek_at, size_of, words_for, shape_of, last_shape, parse, least, byte_of, byte_at, five_at, payload_at};

// What stands at a place of a burst's words.
#[derive(Clone, Copy)]
pub enum Item {
    // Nothing: the words end here.
    End,
    // Words that are no frame.
    Bad,
    // Word 13.
    Lost,
    // Words 10 and 11, and after them the words 12 of len payload bytes.
    Frame { flags: u32, field: u32, len: usize },
}

// What word 8 says.
#[derive(Clone, Copy)]
pub struct Head {
    pub code: u32,
    pub hi: u32,
    pub extra: u32,
}

// Whether the words are a burst, and of how many frames.
pub fn shape_of(words: &[u32]) -> Option<usize>
    ensures { result ≡ shape_of (parse words.now) }
{
    if words.is_empty() {
        return None;
    }
    if !head_ok(words[0]) {
        return None;
    }
    let mut at = 1;
    for n in 0..64 {
        let i = item_at(&words[at..]);
        let size = size_of(i);
        if size == 0 {
            return last(i, n);
        }
        at += size;
    }
    last(item_at(&words[at..]), 64)
}

// The fields of word 8.
pub fn head_of(w: u32) -> Head
    ensures { result ≡ head_of w }
{
    Head {
        code: w / 2097152 % 128,
        hi: w / 131072 % 16,
        extra: w % 65536,
    }
}

// What stands at `at`, with no look at the payload: for a walk over a burst that `shape_of` found well formed. (Words and a place, not the words from
// there on, as `payload_byte` and `payload`: such a walk does not say that the place lies within the words.)
pub fn peek(words: &[u32], at: usize) -> Item
    ensures { result ≡ peek_at (drop at words.now) }
{
    let Some(&w) = words.get(at) else {
        return Item::End;
    };
    if w == 0xd000_0000 {
        return Item::Lost;
    }
    let v = word_or_zero(words, at + 1);
    Item::Frame {
        flags: w / 256 % 256,
        field: v % 16777216,
        len: (w % 256) as usize,
    }
}

// How many words an item takes.
pub fn size_of(i: Item) -> usize
    ensures { result ≡ size_of i }
{
    match i {
        Item::End => 0,
        Item::Bad => 0,
        Item::Lost => 1,
        Item::Frame {
            flags: _,
            field: _,
            len,
        } => 2 + words_for(len),
    }
}

// Byte j of the payload of the frame at `at`.
pub fn payload_byte(words: &[u32], at: usize, j: usize) -> u8
    ensures { result ≡ byte_at (drop at words.now) j }
{
    if words.len() <= at {
        return 0;
    }
    byte_of(word_or_zero(words, at + 2 + j / 3), j % 3)
}

// The five bytes from byte j on of the payload of the frame at the head of the words: a packed call. (Each by its index: a part of `payload` would
// first copy 255.)
pub fn five(words: &[u32], j: usize) -> [u8; 5]
    ensures { result ≡ five_at words.now j }
{
    if words.len() <= j / 3 {
        return [0, 0, 0, 0, 0];
    }
    [
        payload_byte(words, 0, j),
        payload_byte(words, 0, j + 1),
        payload_byte(words, 0, j + 2),
        payload_byte(words, 0, j + 3),
        payload_byte(words, 0, j + 4),
    ]
}

// The first n bytes of that payload, 255 at most, and zeros behind them.
pub fn payload(words: &[u32], at: usize, n: usize) -> [u8; 255]
    ensures { result ≡ payload_at (drop at words.now) n }
{
    let m = least(n, 255);
    let mut out = [0u8; 255];
    if words.len() <= at {
        return out;
    }
    let full = m / 3;
    for k in 0..full {
        let [_, a, b, c] = word_or_zero(words, at + 2 + k).to_be_bytes();
        out[3 * k] = a;
        out[3 * k + 1] = b;
        out[3 * k + 2] = c;
    }
    for j in 3 * full..m {
        out[j] = payload_byte(words, at, j);
    }
    out
}

// What stands at the head of the words, the payload checked.
pub fn item_at(words: &[u32]) -> Item
    ensures { result ≡ item_at words.now }
{
    let [w, rest @ ..] = words else {
        return Item::End;
    };
    if *w == 0xd000_0000 {
        return Item::Lost;
    }
    if *w / 65536 != 0xa000 {
        return Item::Bad;
    }
    let [v, payload @ ..] = rest else {
        return Item::Bad;
    };
    if *v / 16777216 != 176 {
        return Item::Bad;
    }
    let len = (*w % 256) as usize;
    if !payload_ok(payload, len) {
        return Item::Bad;
    }
    Item::Frame {
        flags: *w / 256 % 256,
        field: *v % 16777216,
        len,
    }
}

// The words 12 that len bytes take. (No sum wraps, whatever len is.)
pub fn words_for(len: usize) -> usize
    ensures { result ≡ words_for len }
{
    len / 3 + (len % 3 + 2) / 3
}

// std's min, under the name that the contracts have for it.
pub fn least(a: usize, b: usize) -> usize
    ensures { result ≡ least a b }
{
    a.min(b)
}

// The word at i, 0 past the end.
fn word_or_zero(words: &[u32], i: usize) -> u32
    ensures { result ≡ get_or words.now i 0 }
{
    words.get(i).copied().unwrap_or(0)
}

// Byte k of a word 12, the first highest.
fn byte_of(w: u32, k: usize) -> u8
    ensures { result ≡ byte_of w k }
{
    let [_, first, second, third] = w.to_be_bytes();
    match k {
        0 => first,
        1 => second,
        _ => third,
    }
}

// The shape of a burst that has n frames before the item i, after which there is none.
fn last(i: Item, n: usize) -> Option<usize>
    ensures { result ≡ last_shape i n }
{
    match i {
        Item::End => Some(n),
        Item::Bad => None,
        Item::Lost => None,
        Item::Frame {
            flags: _,
            field: _,
            len: _,
        } => None,
    }
}

// w is a word 8.
#[tactic(auto, using(std::proofs::lemmas::Bool::Decides::nat_tests), unfolding(crate::specs::Words::head_ok))]
pub fn head_ok(w: u32) -> bool
    ensures { result ≡ head_ok w }
{
    w / 268435456 == 8 && w / 65536 % 2 == 0
}

// w is a word 12 that holds the next of left bytes, its spare ones zero. (An arm for each number of spare bytes: each tests others.)
#[tactic(auto, using(std::proofs::lemmas::Bool::Decides::nat_tests), unfolding(crate::specs::Words::word_ok))]
fn word_ok(w: u32, left: usize) -> bool
    ensures { result ≡ word_ok w left }
{
    if w / 16777216 != 192 {
        return false;
    }
    match left {
        1 => w % 65536 == 0,
        2 => w % 256 == 0,
        _ => true,
    }
}

// At the head of words stand those of len payload bytes.
fn payload_ok(words: &[u32], len: usize) -> bool
    ensures { result ≡ payload_ok words.now len }
{
    let mut left = len;
    for w in words {
        if left == 0 {
            return true;
        }
        if !word_ok(*w, left) {
            return false;
        }
        left = left.saturating_sub(3);
    }
    left == 0
}
