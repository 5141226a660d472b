// A message cell: its numbers are a struct by value, its bytes a part of the lent store. The joined bytes stand at 0 .. joined, the
// piece at place k from 2,048 + 256 k on. A place whose piece ends at or before the joined end is free.
ghost use Rattle.std.specs.Prelude.{◌≡◌, [], ◌∷◌, ◌+◌, ◌*◌, ◌-◌, ◌≤◌, ◌<◌, ltb, length, take, drop};
ghost use Rattle.std.proofs.Math.Seq.{paste};
ghost use Rattle.inbox.specs.Cells.{size, end_at, better, settle, store, await, accept, held, place_at, free_place, next_place, found};
ghost use Rattle.inbox.specs.Messages.{empty, shows_of};
ghost use Rattle.inbox.specs.Sizes.{message_room, body_room};

use crate::piece::Piece;

// How many bytes of a message a cell can join, the two of its length among them.
pub const MESSAGE_ROOM: usize = 2048;

// The most bytes that follow the two of the length.
pub const BODY_ROOM: usize = 2046;

// A cell's numbers. No value of it is wrong: every function here is safe, and does what its contract says, for each.
#[repr(C)]
#[derive(Clone, Copy)]
pub struct Cell {
    // The joined end.
    pub joined: u16,
    // Where the piece at each place starts in the message, and how long it is: two arrays, as C has them.
    pub offsets: [u16; 16],
    pub lengths: [u8; 16],
}

// `Inbox::accept`: one piece taken into a cell, whose bytes are given alone. (The bounds stand in each contract: the bytes are lent, to read
// and to write, and that a piece ends within 2,048 is what the kept rule has found before.)
pub fn join(bytes: &mut [u8], cell: Cell, piece: Piece) -> Cell
    requires in_bounds { 6144 ≤ length bytes.old }
    requires end_bound { piece.offset + length piece.bytes.now ≤ message_room }
    ensures { held result bytes.new ≡ accept (held cell bytes.old) piece.entry.offset piece.entry.bytes.now }
{
    let joined = usize::from(cell.joined);
    let start = usize::from(piece.offset);
    let end = start + piece.bytes.len();
    if end <= joined {
        return cell;
    }
    if piece.bytes.len() == 0 {
        return cell;
    }
    if start <= joined {
        let skip = joined - start;
        copy_in(bytes, joined, &piece.bytes[skip..]);
        let mut c = cell;
        c.joined = end as u16;
        return settle_all(bytes, c);
    }
    wait(bytes, cell, piece)
}

// Whether a piece would show a length above 2,046: both bytes of the length are joined with it, or with what comes into reach then, and say so.
pub fn shows(bytes: &[u8], cell: Cell, piece: Piece) -> bool
    requires { 6144 ≤ length bytes.now }
    ensures { result ≡ shows_of (held cell bytes.now) piece.entry.offset piece.entry.bytes.now }
{
    let joined = usize::from(cell.joined);
    if 2 <= joined {
        return is_over(bytes[0], bytes[1]);
    }
    let start = usize::from(piece.offset);
    let end = start + piece.bytes.len();
    if joined < start {
        return false;
    }
    if end <= joined {
        return false;
    }
    if joined == 1 {
        return is_over(bytes[0], piece.bytes[1 - start]);
    }
    if end == 1 {
        return shows_next(bytes, cell, piece.bytes[0]);
    }
    is_over(piece.bytes[0], piece.bytes[1])
}

// The same of a message that has no cell yet.
pub fn shows_first(piece: Piece) -> bool
    ensures { result ≡ shows_of (empty []) piece.entry.offset piece.entry.bytes.now }
{
    if piece.offset != 0 {
        return false;
    }
    if piece.bytes.len() < 2 {
        return false;
    }
    is_over(piece.bytes[0], piece.bytes[1])
}

// Whether a piece of the first byte alone would show it: the second is then one of the waiting piece that goes next.
fn shows_next(bytes: &[u8], cell: Cell, first: u8) -> bool
    requires { (6144 ≤ length bytes.now) × (cell.joined ≡ 0) }
    ensures { result ≡ shows_of (held cell bytes.now) 0 (first ∷ []) }
{
    let mut c = cell;
    c.joined = 1;
    let Some(k) = next_place(c) else {
        return false;
    };
    let start = usize::from(cell.offsets[k]);
    is_over(first, bytes[MESSAGE_ROOM + 256 * k + (1 - start)])
}

// Whether a length in two bytes, lowest first, is above 2,046.
fn is_over(low: u8, high: u8) -> bool
    ensures { result ≡ ltb body_room (low + 256 * high) }
{
    BODY_ROOM < usize::from(low) + 256 * usize::from(high)
}

// The waiting pieces that have come into reach are joined.
fn settle_all(bytes: &mut [u8], cell: Cell) -> Cell
    requires { (cell.joined ≤ message_room) × (6144 ≤ length bytes.old) }
    ensures { held result bytes.new ≡ settle message_room (held cell bytes.old) }
{
    let mut c = cell;
    loop {
        let Some(k) = next_place(c) else {
            return c;
        };
        let joined = usize::from(c.joined);
        let start = usize::from(c.offsets[k]);
        let end = end_of(c, k);
        move_down(
            bytes,
            joined,
            MESSAGE_ROOM + 256 * k + (joined - start),
            end - joined,
        );
        c.joined = end as u16;
    }
}

// A piece that starts past the joined end: at one offset the longer stays; else it takes the first free place, if there is one.
fn wait(bytes: &mut [u8], cell: Cell, piece: Piece) -> Cell
    requires { 6144 ≤ length bytes.old }
    ensures { held result bytes.new ≡ await (held cell bytes.old) piece.entry.offset piece.entry.bytes.now }
{
    if let Some(i) = at_offset(cell, piece.offset) {
        if usize::from(cell.lengths[i]) < piece.bytes.len() {
            return store_at(bytes, cell, i, piece);
        }
        return cell;
    }
    if let Some(j) = free_place(cell) {
        return store_at(bytes, cell, j, piece);
    }
    cell
}

// A piece put at place k to wait.
fn store_at(bytes: &mut [u8], cell: Cell, k: usize, piece: Piece) -> Cell
    requires { (6144 ≤ length bytes.old) × (k < 16) }
    ensures { held result bytes.new ≡ store (held cell bytes.old) k piece.entry.offset piece.entry.bytes.now }
{
    copy_in(bytes, MESSAGE_ROOM + 256 * k, piece.bytes);
    let mut c = cell;
    c.offsets[k] = piece.offset;
    c.lengths[k] = piece.bytes.len() as u8;
    c
}

// The place whose piece starts at offset.
pub fn at_offset(cell: Cell, offset: u16) -> Option<usize>
    ensures { result ≡ found (place_at cell offset) }
{
    for k in 0..16 {
        if cell.offsets[k] == offset {
            return Some(k);
        }
    }
    None
}

// The first free place.
pub fn free_place(cell: Cell) -> Option<usize>
    ensures { result ≡ found (free_place cell) }
{
    let joined = usize::from(cell.joined);
    for k in 0..16 {
        if end_of(cell, k) <= joined {
            return Some(k);
        }
    }
    None
}

// The place that goes next: of those that start at or before the joined end and reach past it, the one with the greatest offset.
fn next_place(cell: Cell) -> Option<usize>
    ensures { result ≡ found (next_place cell) }
{
    let mut best = None;
    let mut from = 0;
    for k in 0..16 {
        if better_place(cell, k, from) {
            best = Some(k);
            from = cell.offsets[k];
        }
    }
    best
}

// Whether the piece at k starts at or before the joined end, reaches past it but not past 2,048, and starts no earlier than from.
fn better_place(cell: Cell, k: usize, from: u16) -> bool
    requires { k < 16 }
    ensures { result ≡ better cell k from }
{
    let joined = cell.joined;
    let o = cell.offsets[k];
    if joined < o {
        return false;
    }
    let end = end_of(cell, k);
    if end <= usize::from(joined) {
        return false;
    }
    if MESSAGE_ROOM < end {
        return false;
    }
    from <= o
}

// Where the piece at place k ends in the message.
fn end_of(cell: Cell, k: usize) -> usize
    requires { k < 16 }
    ensures { (result ≡ end_at cell k) × (size cell k < 256) }
{
    usize::from(cell.offsets[k]) + usize::from(cell.lengths[k])
}

// All of src into dst from index at on.
fn copy_in(dst: &mut [u8], at: usize, src: &[u8])
    requires { at + length src.now ≤ length dst.old }
    ensures { dst.new ≡ paste dst.old at src.now (length src.now) }
{
    dst[at..at + src.len()].copy_from_slice(src);
}

// The n bytes at from, down to index to.
fn move_down(bytes: &mut [u8], to: usize, from: usize, n: usize)
    requires { (to ≤ from) × (from + n ≤ length bytes.old) }
    ensures { bytes.new ≡ paste bytes.old to (take n (drop from bytes.old)) n }
{
    bytes.copy_within(from..from + n, to);
}
