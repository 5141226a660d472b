// The functions that a host in C or Rust links: each is the one of `shore` of its name, under the same clauses.
// A refusal, a flag and a boat that is not there are numbers, since C reads them.
#![tactic(auto)]

ghost use Rattle.std.specs.Prelude.{◌≡◌, length, take, drop};
ghost use Rattle.std.proofs.lemmas.List.Edits.{sets};
ghost use Rattle.station.specs.Entries.{answered, heard_of, start_of, admit_of, receive_of, next_of, post_of, sent_of, close_of, read_refusal, reading_of, free_of};
ghost use Rattle.station.specs.SignOff.{sign_off_of};
ghost use Rattle.station.specs.Worst.{worst_of};
ghost use Rattle.station.specs.Shows.{entry_of, hears_of};
ghost use Rattle.roster.specs.Relays.{heard_at};
ghost use Rattle.dues.specs.Dues.{dues_of};
ghost use Rattle.logs.specs.Turns.{verdict_of};
ghost use Rattle.sheet.specs.Sheet.{refusal, written};
ghost use Rattle.shore.specs.Blocks.{reading_of as reading_in, station_of};
ghost use Rattle.shore.specs.Calls.{given_of, told, told_heard, poorest_of, shown_of, month_of, checked_of, counts_of};

use net::Totals;
use shore::answer::{Checked, Counts, Done, Month, Part, Plan, Poorest, Shown};
use shore::block::{Block, Reading};

mod sending;

// A fresh start; `store` is the memory for messages. The block given comes back where it is refused.
#[unsafe(no_mangle)]
pub extern "C" fn shore_start(b: Block, p: Plan, store: &[u8]) -> Done
    ensures { result ≡ told (answered (start_of (station_of b) (given_of p) store.now) 0) }
{
    shore::shore_start(b, p, store)
}

// Direct admission: five packed bytes, and a relay slot or 63.
#[unsafe(no_mangle)]
pub extern "C" fn shore_admit(
    b: Block,
    call: &[u8; 5],
    relay: u8,
    time: f64,
    out: &mut [u32],
) -> Done
    ensures { (result ≡ told (answered (admit_of (station_of b) call.now relay time (length out.old)) (length out.old)))
        × (out.new ≡ sets out.old 0 (admit_of (station_of b) call.now relay time (length out.old)).words) }
{
    shore::shore_admit(b, call, relay, time, out)
}

// A burst received at snr.
#[unsafe(no_mangle)]
pub extern "C" fn shore_receive(
    b: Block,
    words: &[u32],
    snr: f32,
    time: f64,
    store: &mut [u8],
    out: &mut [u32],
) -> Done
    ensures { (result ≡ told_heard (heard_of (receive_of (station_of b) words.now snr time store.old (length out.old)) (length out.old)))
        × (store.new ≡ (receive_of (station_of b) words.now snr time store.old (length out.old)).store)
        × (out.new ≡ sets out.old 0 (receive_of (station_of b) words.now snr time store.old (length out.old)).words) }
{
    shore::shore_receive(b, words, snr, time, store, out)
}

// The next decision; `queue` is the directed queue.
#[unsafe(no_mangle)]
pub extern "C" fn shore_next(b: Block, time: f64, queue: &[u8], out: &mut [u32]) -> Done
    ensures { (result ≡ told (answered (next_of (station_of b) time queue.now (length out.old)) (length out.old)))
        × (out.new ≡ sets out.old 0 (next_of (station_of b) time queue.now (length out.old)).words) }
{
    shore::shore_next(b, time, queue, out)
}

// The end of a sending.
#[unsafe(no_mangle)]
pub extern "C" fn shore_sent(b: Block, time: f64) -> Done
    ensures { result ≡ told (answered (sent_of (station_of b) time) 0) }
{
    shore::shore_sent(b, time)
}

// Closing, with `count` closing bursts to send.
#[unsafe(no_mangle)]
pub extern "C" fn shore_close(b: Block, count: u32) -> Done
    ensures { result ≡ told (answered (close_of (station_of b) count) 0) }
{
    shore::shore_close(b, count)
}

// Where the landed message of a cell stands in the store.
#[unsafe(no_mangle)]
pub extern "C" fn shore_read(b: Block, store: &[u8], cell: usize) -> Part
    ensures { (result.refusal ≡ read_refusal (length store.now) (station_of b).count (station_of b).landed cell)
        × (take result.length (drop result.offset store.now) ≡ reading_of (station_of b) store.now cell) }
{
    shore::shore_read(b, store, cell)
}

// A cell given back for reuse.
#[unsafe(no_mangle)]
pub extern "C" fn shore_free(b: Block, cell: usize) -> Done
    ensures { result ≡ told (answered (free_of (station_of b) cell) 0) }
{
    shore::shore_free(b, cell)
}

// A message is posted to a boat; `queue` is the directed queue.
#[unsafe(no_mangle)]
pub extern "C" fn shore_post(b: Block, slot: u8, message: &[u8], queue: &mut [u8]) -> Done
    ensures { (result ≡ told (answered (post_of (station_of b) slot message.now queue.old) 0))
        × (queue.new ≡ (post_of (station_of b) slot message.now queue.old).store) }
{
    shore::shore_post(b, slot, message, queue)
}

// A boat signs off.
#[unsafe(no_mangle)]
pub extern "C" fn shore_sign_off(b: Block, slot: u8) -> Done
    ensures { result ≡ told (answered (sign_off_of (station_of b) slot) 0) }
{
    shore::shore_sign_off(b, slot)
}

// A boat's poorest signal of late.
#[unsafe(no_mangle)]
pub extern "C" fn shore_worst(b: Block, slot: u8) -> Poorest
    ensures { result ≡ poorest_of (worst_of (station_of b) slot) }
{
    shore::shore_worst(b, slot)
}

// How many boats are silent.
#[unsafe(no_mangle)]
pub extern "C" fn shore_silent(b: Block) -> u32
    ensures { result ≡ (station_of b).totals.silent }
{
    shore::shore_silent(b)
}

// How many polls, polls by relay, received lists, rounds and replies there were, and how many boats are silent.
#[unsafe(no_mangle)]
pub extern "C" fn shore_totals(b: Block) -> Totals
    ensures { result ≡ (station_of b).totals }
{
    shore::shore_totals(b)
}

// The boat in a slot; `here` is 0 where there is none.
#[unsafe(no_mangle)]
pub extern "C" fn shore_entry(b: Block, slot: u8) -> Shown
    ensures { result ≡ shown_of (entry_of (station_of b) slot) }
{
    shore::shore_entry(b, slot)
}

// The level at which the boat in slot r hears the one in slot a.
#[unsafe(no_mangle)]
pub extern "C" fn shore_hears(b: Block, r: u8, a: u8) -> Reading
    ensures { result ≡ reading_in (hears_of (station_of b) r a) }
{
    shore::shore_hears(b, r, a)
}

// The level field at which the boat in slot r said that it hears slot a, whoever is there: decibels plus 24, 63 for nothing.
#[unsafe(no_mangle)]
pub extern "C" fn shore_hears_field(b: Block, r: u8, a: u8) -> u8
    ensures { result ≡ heard_at (station_of b).hears r a }
{
    shore::shore_hears_field(b, r, a)
}

// The numbers of the boat in a slot; they are no boat's where it has none.
#[unsafe(no_mangle)]
pub extern "C" fn shore_numbers(b: Block, slot: u8) -> Counts
    ensures { result ≡ counts_of (station_of b) slot }
{
    shore::shore_numbers(b, slot)
}

// The month's dues: `figures` are the bytes landed, one for each slot.
#[unsafe(no_mangle)]
pub extern "C" fn shore_dues(b: Block, figures: &[u32]) -> Month
    ensures { result ≡ month_of (dues_of (station_of b) figures.now) }
{
    shore::shore_dues(b, figures)
}

// The turn check of a log.
#[unsafe(no_mangle)]
pub extern "C" fn shore_turn_check(words: &[u32]) -> Checked
    ensures { result ≡ checked_of (verdict_of words.now) }
{
    shore::shore_turn_check(words)
}

// The sheet of short calls, to the front of the output; 4 for an output that cannot hold it.
#[unsafe(no_mangle)]
pub extern "C" fn shore_short_calls(out: &mut [u8]) -> u8
    ensures { (result ≡ refusal out.old) × (out.new ≡ written out.old) }
{
    shore::shore_short_calls(out)
}
