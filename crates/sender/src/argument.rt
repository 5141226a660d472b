// The frames that are a command's argument: flags and field 0.
ghost use Rattle.std.specs.Prelude.{◌≤◌, IfOk};

use crate::answer::Error;
use arrayvec::ArrayVec;
use words::Item;

// The bytes of a body: one with more is malformed.
pub type Body = ArrayVec<u8, 2300>;

// The numbers in a frame: no payload has more.
pub type Numbers = ArrayVec<u32, 63>;

// How long the payload of a frame with flags and field 0 is.
fn payload_len(item: Item) -> Result<usize, Error>
    ensures { IfOk result (λ n. n ≤ 255) }
{
    match item {
        Item::Frame {
            flags: 0,
            field: 0,
            len,
        } if len <= 255 => Ok(len),
        _ => Err(Error::Malformed),
    }
}

// One frame or more: their payloads joined, in place of what `body` held.
pub fn joined(words: &[u32], body: &mut Body) -> Result<(), Error> {
    body.clear();
    if words.is_empty() {
        return Err(Error::Malformed);
    }
    let mut rest = words;
    // A while: a step is as long as its frame.
    while !rest.is_empty() {
        let len = payload_len(words::item_at(rest))?;
        body.try_extend_from_slice(&words::payload(rest, 0, len)[..len])?;
        let size = 2 + words::words_for(len);
        rest = &rest[size.min(rest.len())..];
    }
    Ok(())
}

// One frame: the numbers in its payload, each lowest byte first, in place of what `numbers` held.
pub fn numbers(words: &[u32], numbers: &mut Numbers) -> Result<(), Error> {
    let item = words::item_at(words);
    let len = payload_len(item)?;
    if words::size_of(item) != words.len() {
        return Err(Error::Malformed);
    }
    let payload = words::payload(words, 0, len);
    let (each, rest) = payload[..len].as_chunks::<4>();
    if !rest.is_empty() {
        return Err(Error::Malformed);
    }
    numbers.clear();
    for number in each {
        numbers.try_push(u32::from_le_bytes(*number))?;
    }
    Ok(())
}
