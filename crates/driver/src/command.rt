// The commands: what they ask of the station, and what is printed of it.
ghost use Rattle.std.specs.Prelude.{◌≡◌, ◌≤◌, [], length};
ghost use Rattle.std.proofs.lemmas.List.Edits.{sets};
ghost use Rattle.script.specs.Actions.{closed};
ghost use Rattle.station.specs.Entries.{answered, heard_of, refused};
ghost use Rattle.driver.specs.Commands.{kept_by, settled_by};
ghost use Rattle.driver.specs.Lines.{lines_on};
ghost use Rattle.driver.specs.Asked.{only_frame, length_ok, flags_of, store_of, received, admitted, started, reading_lines};

use super::memory::Memory;
use super::page::Page;
use net::Station;
use refusal::Refusal;
use script::action::{Command, Control};
use script::number::Pattern;
use script::{action, given, number};
use station::{Answered, Heard};
use words::Item;

// How many bytes of the store the cells are, of those that there are.
fn store_of(cells: usize, have: usize) -> usize
    ensures { (result ≡ store_of cells have) × (result ≤ have) }
{
    if 64 < cells {
        have
    } else {
        (6400 * cells).min(have)
    }
}

// ---- commands of one word

// A landed message.
#[inline(never)]
pub fn read(s: &Station, c: Control, w: u32, store: &[u8], page: &mut Page)
    ensures { page.new ≡ lines_on page.old (reading_lines s.now c w store.now) }
{
    let z = store_of(c.cells, store.len());
    match station::read(*s, &store[..z], action::rest_of(w) as usize) {
        Ok(m) => page.message(m),
        Err(r) => page.refusal(r),
    }
}

// ---- commands whose words follow

// The flags, the field and the length of the one frame that the words are.
pub fn only_frame(words: &[u32]) -> Option<(u32, u32, usize)>
    ensures { result ≡ only_frame words.now }
{
    let i = words::item_at(words);
    let Item::Frame { flags, field, len } = i else {
        return None;
    };
    (words::size_of(i) == words.len()).then_some((flags, field, len))
}

// How long the payload of a command's frame is. A start may have the settings of the beacon's timing too.
fn length_ok(command: Command, len: usize) -> bool
    ensures { result ≡ length_ok command len }
{
    match command {
        Command::Admit => len == 5,
        Command::Start => (len == 182) | (len == 199),
        Command::Clock => len == 8,
        Command::Payloads => len == 17,
        _ => len == 4,
    }
}

// The flags of a command's one frame. Only an admission has flags.
fn flags_of(words: &[u32], command: Command) -> Option<u32>
    ensures { result ≡ flags_of command words.now }
{
    let (flags, field, len) = only_frame(words)?;
    let bare = (flags == 0) | (command == Command::Admit);
    (bare & (field == 0) & length_ok(command, len)).then_some(flags)
}

fn malformed(s: &Station) -> Answered
    ensures { result ≡ answered (refused 3 s.now []) 0 }
{
    Answered {
        station: *s,
        answer: Err(Refusal::Words),
    }
}

// ---- durations and payloads of data bursts

// Where the numbers stand that a frame of durations brings, at 64 * level + index, and how many there are: for its level, which is its flags, from the
// index on that is its field. None for no such frame, or where one is a NaN's pattern.
fn durations_in(words: &[u32], p: &[u8; 255]) -> Option<(usize, usize)> {
    let (flags, field, len) = only_frame(words)?;
    let n = (len / 8).min(31);
    let bad = (len % 8 != 0) | (16 < flags) | (63 < field) | (n == 0);
    if bad || 64 < field as usize % 64 + n || number::any_nan::<f64>(p, 0, n) {
        return None;
    }
    Some((64 * (flags as usize % 17) + field as usize % 64, n))
}

fn hold(times: &mut [f64], p: &[u8; 255], n: usize) {
    for i in 0..n.min(31).min(times.len()) {
        times[i] = f64::at(p, 8 * i);
    }
}

fn durations(words: &[u32], times: &mut [f64; 1088], page: &mut Page) {
    let p = words::payload(words, 0, 248);
    match durations_in(words, &p) {
        Some((at, n)) => hold(&mut times[at % 1088..], &p, n),
        None => page.word(3),
    }
}

fn largest(words: &[u32], payloads: &mut [u8; 17], page: &mut Page) {
    if flags_of(words, Command::Payloads).is_none() {
        page.word(3);
        return;
    }
    let p = words::payload(words, 0, 17);
    payloads.copy_from_slice(&p[..17]);
}

// A number of the words, if they are one frame with no NaN in it.
fn number_in<F: Pattern>(words: &[u32], command: Command) -> Option<F> {
    flags_of(words, command)?;
    let p = words::payload(words, 0, 8);
    if F::nan_at(&p, 0) {
        return None;
    }
    Some(F::at(&p, 0))
}

// Runs the open command, which asks nothing of the station: the clock or the level from here on, or durations or payloads of data bursts.
pub fn setting(c: Control, command: Command, memory: &mut Memory, page: &mut Page) -> Control {
    let words = memory.words.as_slice();
    let mut k = action::closed(c);
    match command {
        Command::Durations => durations(words, &mut memory.times, page),
        Command::Payloads => largest(words, &mut memory.payloads, page),
        Command::Clock => match number_in(words, command) {
            Some(now) => k.now = now,
            None => page.word(3),
        },
        _ => match number_in(words, command) {
            Some(level) => k.level = level,
            None => page.word(3),
        },
    }
    k
}

// ---- posting

// A message in the making.
#[derive(Drop)]
struct Message {
    bytes: [u8; 2300],
    len: usize,
    ghost fits: { len ≤ 2300 },
}

impl Message {
    // Puts the bytes behind those that there are. None where they do not fit.
    fn join(&mut self, b: &[u8]) -> Option<()> {
        let end = self.len + b.len().min(2301);
        if 2300 < end {
            return None;
        }
        self.bytes[self.len..end].copy_from_slice(b);
        self.len = end;
        Some(())
    }
}

// The slot of the first frame.
fn post_slot(words: &[u32]) -> Option<u32> {
    match words::item_at(words) {
        Item::Frame { flags, .. } => Some(flags),
        _ => None,
    }
}

// The message that the frames to the slot say.
fn message_of(words: &[u32], slot: u32) -> Option<Message> {
    let mut message = Message {
        bytes: [0; 2300],
        len: 0,
    };
    let mut rest = words;
    // A while: a step is as long as its frame.
    while !rest.is_empty() {
        let i = words::item_at(rest);
        let Item::Frame { flags, field, len } = i else {
            return None;
        };
        let size = words::size_of(i);
        if (flags != slot) | (field != 0) | (rest.len() < size) | (size == 0) {
            return None;
        }
        message.join(&words::payload(rest, 0, len)[..len.min(255)])?;
        rest = &rest[size..];
    }
    Some(message)
}

// A message posted, of the words that were kept for it.
pub fn post(s: Station, memory: &mut Memory) -> Answered {
    let words = memory.words.as_slice();
    let Some(slot) = post_slot(words) else {
        return malformed(&s);
    };
    match message_of(words, slot) {
        Some(m) => station::post(s, (slot % 256) as u8, &m.bytes[..m.len], &mut memory.queue),
        None => malformed(&s),
    }
}

// The queue of the boat in a slot as if the boat had reported all that can be posted to it.
fn reported(mut s: Station, slot: u8) -> Station {
    let i = net::index(slot);
    s.queues[i] = queue::reported_to(s.queues[i], 16777215);
    s
}

// So often as bits 27-16 say, a message of 2,046 zeros is posted to the boat in the slot of bits 15-8 and taken as reported by it. The first refusal ends it.
#[inline(never)]
pub fn fill(s: &Station, w: u32, queue: &mut [u8; 126976]) -> Answered {
    let rest = action::rest_of(w);
    let slot = (rest / 16 % 256) as u8;
    let mut u = *s;
    for _ in 0..rest / 4096 {
        let r = station::post(u, slot, &[0; 2046], queue);
        if r.answer.is_err() {
            return r;
        }
        u = reported(r.station, slot);
    }
    Answered {
        station: u,
        answer: Ok(0),
    }
}

// ---- receptions

// A reception of the words that were kept for it. (What the store is after it has no clause: how a part of an array that is lent comes back is not said
// to the proof.)
pub fn receive(s: Station, c: Control, memory: &mut Memory) -> Heard
    ensures heard { result ≡ heard_of (received s c memory.old) (length memory.old.out) }
    ensures out { memory.new.out ≡ sets memory.old.out 0 (received s c memory.old).words }
{
    let store = &mut memory.store[..];
    let z = store_of(c.cells, store.len());
    let words = memory.words.as_slice();
    station::receive(s, words, c.level, c.now, &mut store[..z], &mut memory.out)
}

// ---- direct admissions and starts

// A direct admission, of the words that were kept for it.
pub fn admit(s: &Station, c: Control, words: &[u32], out: &mut [u32; 8192]) -> Answered
    ensures answered { result ≡ answered (admitted s.now c words.now (length out.old)) (length out.old) }
    ensures out { out.new ≡ sets out.old 0 (admitted s.now c words.now (length out.old)).words }
{
    let Some(flags) = flags_of(words, Command::Admit) else {
        return malformed(s);
    };
    let b = words::five(words, 0);
    station::admit(*s, b, (flags % 256) as u8, c.now, out)
}

// A fresh start, of the words that were kept for it.
pub fn start(s: &Station, memory: &Memory) -> Answered
    ensures { result ≡ answered (started s.now memory.now) 0 }
{
    let words = memory.words.as_slice();
    let p = words::payload(words, 0, 199);
    let Some(_) = flags_of(words, Command::Start) else {
        return malformed(s);
    };
    if given::has_nan(&p) {
        return malformed(s);
    }
    let z = store_of(given::lent_cells(&p), memory.store.len());
    let g = given::given(&p, &memory.times, &memory.payloads);
    station::start(*s, g, &memory.store[..z])
}

// A start that was not refused: so many cells are lent from here on.
fn kept(c: Control, words: &[u32]) -> Control
    ensures { result ≡ kept_by c words.now }
{
    if c.command == Some(Command::Start) {
        let p = words::payload(words, 0, 255);
        Control {
            cells: given::lent_cells(&p),
            ..c
        }
    } else {
        c
    }
}

// What is held once an admission or a start was answered: the command is closed.
pub fn settled(c: Control, words: &[u32], a: Result<usize, Refusal>) -> Control
    ensures { result ≡ closed (settled_by c words.now a) }
{
    match a {
        Ok(_) => action::closed(kept(c, words)),
        Err(_) => action::closed(c),
    }
}
