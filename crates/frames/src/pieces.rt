// Reception, up frames: a boat's piece, kept or not, and what lands.
ghost use Rattle.std.specs.Prelude.{◌≡◌, ◌+◌, ◌/◌, ◌%◌, ◌^◌, ◌<◌, ◌≤◌, length, drop};
ghost use Rattle.bits.specs.Stop.{stop};
ghost use Rattle.words.specs.Words.{bytes_at};
ghost use Rattle.out.specs.Outputs.{Writes};
ghost use Rattle.stream.specs.Table.{took, take_of, room_for, owner_of, place_of};
ghost use Rattle.frames.specs.Pieces.{size_of, heard_member};
ghost use Rattle.frames.specs.Code.Reading.{next_rx};
ghost use Rattle.frames.specs.Code.Pieces.{kept_rx, unwanted_of, numbered_of, piece_of, RoomIn, taken_of, owner_after, frees, busy_after, landed_after, member_after, relayer, round_after, totals_after, landed_events};

use crate::payload::Payload;
use crate::{Air, Frame, Rx};
use inbox::cell::Cell;
use inbox::keep::Kept;
use inbox::{keep, piece};
use net::{Round, Totals};
use out::Output;
use roster::Member;
use stream::table::{Room, Taken};
use stream::window::Window;
use stream::{table, window};
use wire::number;

// A boat's piece as it is read. wanted: its slot has a member, and its message a number that is not handed over; else nothing is done
// with its bytes. barred: that number is barred. (Flags beside the values: the number and the room are asked of a piece that is not wanted
// too, so that its cell is stored back in the same way.)
#[derive(Clone, Copy)]
pub struct Piece {
    pub slot: u8,
    pub here: bool,
    pub wanted: bool,
    pub barred: bool,
    pub number: u32,
    pub offset: u16,
    pub room: Room,
}

// The piece in the frame f, whose boat is m where it is `here`.
pub fn piece_of(
    m: Member,
    here: bool,
    f: Frame,
    owners: &[u64; 64],
    busy: u64,
    landed: u64,
    count: usize,
) -> Piece
    ensures { result ≡ piece_of m.up here f.slot f.field owners.now busy landed count }
{
    let w = m.up;
    let Some(n) = number::widen8(high8(f.field), w.next) else {
        return unwanted(f.slot, here);
    };
    numbered(w, here, f.slot, f.field, n, owners, busy, landed, count)
}

// The cell it is offered to.
pub fn cell_of(p: Piece) -> usize
    ensures { result ≡ place_of p.room }
{
    let room = p.room;
    table::place_of(room)
}

// The piece offered to its cell c.
pub fn take(p: Piece, c: Cell, payload: &Payload, lent: &mut [u8]) -> Taken
    requires { RoomIn p.room (length lent.old) }
    ensures { took result lent.new ≡ taken_of p c (bytes_at (drop payload.now.at payload.now.words.now) payload.now.len) lent.old }
{
    if !p.wanted {
        return table::left(c, Kept::Needless);
    }
    let n = usize::from(payload.len);
    let bytes = words::payload(payload.words, payload.at, n);
    let piece = piece::Piece {
        offset: p.offset,
        bytes: &bytes[..n],
    };
    let room = p.room;
    offer(room, c, p.barred, p.number, piece, lent)
}

pub fn owner_after(old: u64, d: Taken, p: Piece) -> u64
    ensures { result ≡ owner_after old d p }
{
    let kept = d.kept;
    if table::changed(kept) {
        return table::owner_of(p.slot, p.number);
    }
    old
}

// Which cells are taken after a piece offered to cell c.
pub fn busy_after(busy: u64, d: Taken, p: Piece, c: usize) -> u64
    ensures { result ≡ busy_after busy d p c }
{
    let kept = d.kept;
    if table::changed(kept) {
        return bits::with(busy, c);
    }
    bits::without_if(busy, is_freed(d, p), c)
}

// Which cells hold a landed message after it.
pub fn landed_after(mask: u64, d: Taken, p: Piece, c: usize) -> u64
    ensures { result ≡ landed_after mask d p c }
{
    let kept = d.kept;
    let landed = d.landed;
    if table::changed(kept) {
        if landed.is_some() {
            return bits::with(mask, c);
        }
        return bits::without(mask, c);
    }
    bits::without_if(mask, is_freed(d, p), c)
}

// Whether the message claims too much and has a cell, which is given back.
fn is_freed(d: Taken, p: Piece) -> bool
    ensures { result ≡ frees d p }
{
    let kept = d.kept;
    let room = p.room;
    table::barring(kept) & table::has_own(room)
}

// The boat whose piece it was: heard, unless the piece was not kept; a message that claims too much is barred.
pub fn member_after(m: Member, d: Taken, p: Piece, a: Air) -> Member
    ensures { result ≡ member_after m d p a }
{
    let kept = d.kept;
    let landed = d.landed;
    let silent = !p.here | table::lost(kept);
    if silent {
        if table::barring(kept) {
            return roster::barred(m, p.number);
        }
        return m;
    }
    let k = heard_member(m, p.slot, a);
    if landed.is_some() {
        return roster::landed(k, p.number, size_of(landed));
    }
    k
}

// The boat that brought a message that landed, where it is the polled one and not its sender.
pub fn relayer(d: Taken, p: Piece, a: Air, used: u64) -> Option<u8>
    ensures { result ≡ relayer d p a used }
{
    let landed = d.landed;
    if !landed.is_some() {
        return None;
    }
    let slot = a.polled?;
    let other = (slot != p.slot) & net::is_member(used, slot);
    if other { Some(slot) } else { None }
}

pub fn round_after(r: Round, d: Taken, via: Option<u8>) -> Round
    ensures { result ≡ round_after r d via }
{
    let landed = d.landed;
    let mut k = r;
    k.traffic = r.traffic | landed.is_some();
    k.rxdirty = r.rxdirty | via.is_some();
    k
}

pub fn totals_after(t: Totals, via: Option<u8>) -> Totals
    ensures { result ≡ totals_after t via }
{
    if !via.is_some() {
        return t;
    }
    let mut k = t;
    k.relays = bits::one_more(t.relays);
    k
}

// On to the next frame; a piece that was not kept is noted.
pub fn next_piece(x: Rx, f: Frame, d: Taken) -> Rx
    requires { (x.word + f.size < 2 ^ 64) × (x.frame + 1 < 2 ^ 64) }
    ensures { result ≡ next_rx (kept_rx x d) f }
{
    let kept = d.kept;
    let mut k = x;
    k.unkept = bits::with_if(x.unkept, table::lost(kept), x.frame);
    crate::next_frame(k, f)
}

// Event 4, where another boat brought it, and event 2.
pub fn landed_events(o: &mut Output, d: Taken, p: Piece, c: usize, via: Option<u8>)
    ensures { Writes o.old (landed_events d p c via) o.new }
{
    let landed = d.landed;
    if !landed.is_some() {
        return;
    }
    let slot = usize::from(p.slot);
    match via {
        Some(relay) => {
            o.event(4, slot, relay);
            o.message(slot, c, p.number);
        }
        None => o.message(slot, c, p.number),
    }
}

fn high8(field: u32) -> u8
    ensures { result ≡ field / 65536 % 256 }
{
    (field / 65536 % 256) as u8
}

fn low16(field: u32) -> u16
    ensures { result ≡ field % 65536 }
{
    (field % 65536) as u16
}

fn unwanted(slot: u8, here: bool) -> Piece
    ensures { result ≡ unwanted_of slot here }
{
    Piece {
        slot: slot,
        here: here,
        wanted: false,
        barred: false,
        number: 0,
        offset: 0,
        room: Room::Full,
    }
}

// The piece of the message n.
fn numbered(
    w: Window,
    here: bool,
    slot: u8,
    field: u32,
    n: u32,
    owners: &[u64; 64],
    busy: u64,
    landed: u64,
    count: usize,
) -> Piece
    ensures { result ≡ numbered_of w here slot field n (room_for owners.now busy landed count (owner_of slot n)) }
{
    let passed = !here | window::handed(w, n);
    if passed {
        return unwanted(slot, here);
    }
    let offset = low16(field);
    let barred = window::barred(w, n);
    let room = table::room_for(owners, busy, landed, count, table::owner_of(slot, n));
    Piece {
        slot: slot,
        here: here,
        wanted: true,
        barred: barred,
        number: n,
        offset: offset,
        room: room,
    }
}

// A piece offered to the room that there is. Of a store without a cell the room is none, and nothing is stored.
fn offer(
    room: Room,
    c: Cell,
    barred: bool,
    number: u32,
    piece: piece::Piece,
    lent: &mut [u8],
) -> Taken
    requires { RoomIn room (length lent.old) }
    ensures { took result lent.new ≡ take_of barred lent.old room c number piece.entry.offset piece.entry.bytes.now }
{
    if inbox::store::CELL_SIZE <= lent.len() {
        return table::take(lent, room, c, barred, number, piece);
    }
    let n = piece.bytes.len() as u8;
    let over = barred | inbox::cell::shows_first(piece);
    table::left(
        c,
        keep::keeping(
            number,
            piece.offset,
            n,
            over,
            false,
            inbox::store::empty_cell(),
        ),
    )
}

fn size_of(x: Option<usize>) -> u32
    ensures { result ≡ stop (size_of x) }
{
    match x {
        Some(n) => stopped(n),
        None => 0,
    }
}

fn stopped(n: usize) -> u32
    ensures { result ≡ stop n }
{
    if n <= 4294967295 {
        n as u32
    } else {
        4294967295
    }
}

fn heard_member(m: Member, slot: u8, a: Air) -> Member
    ensures { result ≡ heard_member a m slot }
{
    let h = roster::with_heard(m, a.time);
    let leaf = a.aside & (m.via != wire::ALL) & bits::has(a.start, usize::from(slot));
    if leaf {
        return roster::with_direct(h, a.level);
    }
    h
}
