// Where a log has words that are no part of one.
ghost use Rattle.std.specs.Prelude.{◌<◌, ◌≤◌, length, IfOk};

use super::verdict::Fault;
use words::Item;

// A word 6, a head with its wave, or a frame: how many words it takes, and how many frames may follow.
#[derive(Clone, Copy)]
struct Part {
    size: usize,
    room: usize,
}

// What is wrong where no mark and no head stands.
fn no_part(room: usize) -> Fault {
    if room == 0 {
        Fault::NoHead
    } else {
        Fault::NoFrame
    }
}

fn head(words: &[u32], room: usize) -> Result<Part, Fault>
    ensures { IfOk result (λ p. (0 < p.size) × (p.size ≤ length words.now)) }
{
    match words {
        [first, ..] if first / 65536 % 2 != 0 => Err(no_part(room)),
        [_, wave, ..] if wave / 32 == 0x9000_0000 / 32 => Ok(Part { size: 2, room: 64 }),
        _ => Err(Fault::NoWave),
    }
}

fn frame(words: &[u32], room: usize) -> Result<Part, Fault>
    ensures { IfOk result (λ p. (0 < p.size) × (p.size ≤ length words.now)) }
{
    let item = words::item_at(words);
    let size = words::size_of(item);
    if matches!(item, Item::Frame { .. }) && 0 < room && 0 < size && size <= words.len() {
        return Ok(Part {
            size,
            room: room - 1,
        });
    }
    Err(no_part(room))
}

// The part that the words begin with, where `room` frames may stand.
fn first_part(words: &[u32], room: usize) -> Result<Part, Fault>
    ensures { IfOk result (λ p. (0 < p.size) × (p.size ≤ length words.now)) }
{
    let Some(first) = words.first() else {
        return Err(Fault::NoFrame);
    };
    match first >> 28 {
        6 => Ok(Part { size: 1, room: 0 }),
        8 => head(words, room),
        _ => frame(words, room),
    }
}

// Where the first words stand that are no part of a log. (No `for`: parts differ in size.)
pub fn first_fault(words: &[u32]) -> Option<(usize, Fault)> {
    let mut rest = words;
    let mut room = 0;
    while !rest.is_empty() {
        match first_part(rest, room) {
            Ok(part) => {
                rest = &rest[part.size..];
                room = part.room;
            }
            Err(fault) => return Some((words.len() - rest.len(), fault)),
        }
    }
    None
}
