// Reception, the frames (ncs_rx of ncs.rs): what stands at the cursor, and what a frame of each kind does.
#![tactic(auto)]

ghost use Rattle.std.specs.Prelude.{◌≡◌, ◌+◌, ◌^◌, ◌<◌, drop};
ghost use Rattle.words.specs.Words.{peek_at, byte_at};
ghost use Rattle.frames.specs.Code.Reading.{first_rx, next_rx, passed_rx};
ghost use Rattle.frames.specs.Code.Frames.{frame_of, control_byte};

use payload::Payload;
use words::Item;

pub mod control;
pub mod payload;
pub mod pieces;

// What all frames of a reception have in common. polled: the slot whose reply this may be; start: the boats on the roster before it.
#[derive(Clone, Copy)]
pub struct Air {
    pub level: f32,
    pub time: f64,
    pub aside: bool,
    pub polled: Option<u8>,
    pub start: u64,
}

// The running values of a reception. word: where the next frame stands; sender: the slot that the last report names, not a forwarded
// one; more: a report told of more to come; heard: the frames that were heard and kept; unkept: the pieces not kept.
#[derive(Clone, Copy)]
pub struct Rx {
    pub word: usize,
    pub frame: usize,
    pub sender: Option<u8>,
    pub more: bool,
    pub heard: u64,
    pub unkept: u64,
}

pub fn first_rx() -> Rx
    ensures { result ≡ first_rx }
{
    Rx {
        word: 1,
        frame: 0,
        sender: None,
        more: false,
        heard: 0,
        unkept: 0,
    }
}

// A frame: `ty` is the top two bits of its flags, `slot` the low six, `len` the length of its payload, `size` how many words it takes.
#[derive(Clone, Copy)]
pub struct Frame {
    pub ty: u32,
    pub slot: u8,
    pub field: u32,
    pub len: u8,
    pub size: usize,
}

// The frame at `at`, the payload not looked at; None for a lost one, and where no frame stands.
pub fn frame_at(words: &[u32], at: usize) -> Option<Frame>
    ensures { result ≡ frame_of (peek_at (drop at words.now)) }
{
    match words::peek(words, at) {
        Item::End => None,
        Item::Bad => None,
        Item::Lost => None,
        Item::Frame { flags, field, len } => {
            let size = 2 + words::words_for(len);
            Some(Frame {
                ty: flags / 64,
                slot: (flags % 64) as u8,
                field: field,
                len: (len % 256) as u8,
                size: size,
            })
        }
    }
}

// The first byte of a control frame; of any other, and of an empty one, 0, which means nothing.
pub fn control_byte(f: Frame, payload: &Payload) -> u8
    ensures { result ≡ control_byte f (byte_at (drop payload.now.at payload.now.words.now) 0) }
{
    if (f.ty == wire::T_CTRL) & (f.len != 0) {
        return words::payload_byte(payload.words, payload.at, 0);
    }
    0
}

// On to the next frame.
pub fn next_frame(x: Rx, f: Frame) -> Rx
    requires { (x.word + f.size < 2 ^ 64) × (x.frame + 1 < 2 ^ 64) }
    ensures { result ≡ next_rx x f }
{
    let heard = bits::with_if(x.heard, !bits::has(x.unkept, x.frame), x.frame);
    let mut k = x;
    k.heard = heard;
    k.word = x.word + f.size;
    k.frame = x.frame + 1;
    k
}

// Past a lost frame, which is one word and is not heard.
pub fn pass(x: Rx) -> Rx
    requires { (x.word + 1 < 2 ^ 64) × (x.frame + 1 < 2 ^ 64) }
    ensures { result ≡ passed_rx x }
{
    let mut k = x;
    k.word = x.word + 1;
    k.frame = x.frame + 1;
    k
}
