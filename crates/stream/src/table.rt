// The station's message cells: whose message each holds, the cell that a piece goes into, and what becomes of the piece.
// The station has the table as plain fields (owners, busy and landed masks, count, cells), and lends or copies what a function needs.
ghost use Rattle.std.specs.Prelude.{◌≡◌, ◌+◌, ◌*◌, ◌≤◌, ◌<◌, length};
ghost use Rattle.inbox.specs.Sizes.{cell_size, message_room};
ghost use Rattle.stream.specs.Table.{owner_of, is_own, cell_count, own_cell, room_of, room_for, place_of, has_room, has_own, cell_for, is_over, changes, bars, is_lost, took, put_of, left_of, take_of};

use inbox::cell::Cell;
use inbox::keep;
use inbox::keep::Kept;
use inbox::piece::Piece;

// Where a piece goes: the cell of its message, a free one, or no cell is left.
#[derive(Clone, Copy)]
pub enum Room {
    Own(usize),
    Free(usize),
    Full,
}

// What became of a piece: the cell's numbers after it, the kept rule's answer, and whether its message landed with it.
#[derive(Clone, Copy)]
pub struct Taken {
    pub cell: Cell,
    pub kept: Kept,
    pub landed: Option<usize>,
}

// A boat's message, as the table names it.
pub fn owner_of(slot: u8, number: u32) -> u64
    ensures { result ≡ owner_of slot number }
{
    u64::from(slot) * 4294967296 + u64::from(number)
}

// Where a piece of the message `owner` goes.
pub fn room_for(owners: &[u64; 64], busy: u64, landed: u64, count: usize, owner: u64) -> Room
    ensures { result ≡ room_for owners.now busy landed count owner }
{
    let n = cell_count(count);
    let own = own_cell(owners, busy, landed, n, owner);
    let free = bits::lowest_free(busy, n);
    room_of(own, free)
}

// The cell that the room names; where there is none, 0, which is then stored back as it was: one way for both.
pub fn place_of(room: Room) -> usize
    ensures { result ≡ place_of room }
{
    match room {
        Room::Own(c) | Room::Free(c) => c,
        Room::Full => 0,
    }
}

// Whether the message has a cell.
pub fn has_own(room: Room) -> bool
    ensures { result ≡ has_own room }
{
    matches!(room, Room::Own(_))
}

// A piece taken into the cell that the room names, where the kept rule keeps it. barred: its message's number is.
pub fn take(
    store: &mut [u8],
    room: Room,
    cell: Cell,
    barred: bool,
    number: u32,
    piece: Piece,
) -> Taken
    requires { (place_of room < 64) × (cell_size * place_of room + cell_size ≤ length store.old) }
    ensures { took result store.new ≡ take_of barred store.old room cell number piece.entry.offset piece.entry.bytes.now }
{
    let c = place_of(room);
    let old = cell_for(room, cell);
    let some = has_room(room);
    let n = piece.bytes.len() as u8;
    let over = is_over(store, room, cell, barred, piece);
    let kept = keep::keeping(number, piece.offset, n, over, some, old);
    if changed(kept) {
        return put(store, c, old, piece);
    }
    left(cell, kept)
}

// Whether a piece changed its cell.
pub fn changed(kept: Kept) -> bool
    ensures { result ≡ changes kept }
{
    matches!(kept, Kept::Yes)
}

// Whether the number is barred with a piece, and the message's cell freed.
pub fn barring(kept: Kept) -> bool
    ensures { result ≡ bars kept }
{
    matches!(kept, Kept::Overlong)
}

// Whether a piece was not kept: the reception's mask marks it.
pub fn lost(kept: Kept) -> bool
    ensures { result ≡ is_lost kept }
{
    matches!(
        kept,
        Kept::Late | Kept::Overlong | Kept::Long | Kept::NoCell | Kept::NoPlace
    )
}

// As many cells as are counted, and no more than 64.
#[tactic(auto, using(std::proofs::lemmas::Bool::Decides::nat_tests))]
fn cell_count(count: usize) -> usize
    ensures { (result ≡ cell_count count) × (result ≤ 64) }
{
    count.min(64)
}

// Whether cell c is filling with the message `owner`, where it holds `held`.
fn is_own(busy: u64, landed: u64, c: usize, held: u64, owner: u64) -> bool
    ensures { result ≡ is_own busy landed c held owner }
{
    bits::has(busy, c) & !bits::has(landed, c) & (held == owner)
}

// The cell of n that is filling with the message `owner`.
fn own_cell(owners: &[u64; 64], busy: u64, landed: u64, n: usize, owner: u64) -> Option<usize>
    requires { n ≤ 64 }
    ensures { result ≡ own_cell owners.now busy landed n owner }
{
    for c in 0..n {
        if is_own(busy, landed, c, owners[c], owner) {
            return Some(c);
        }
    }
    None
}

fn room_of(own: Option<usize>, free: Option<usize>) -> Room
    ensures { result ≡ room_of own free }
{
    match own {
        Some(c) => Room::Own(c),
        None => match free {
            Some(c) => Room::Free(c),
            None => Room::Full,
        },
    }
}

fn has_room(room: Room) -> bool
    ensures { result ≡ has_room room }
{
    !matches!(room, Room::Full)
}

// The cell that a piece is asked of: its message's own, or an empty one.
fn cell_for(room: Room, cell: Cell) -> Cell
    ensures { result ≡ cell_for room cell }
{
    match room {
        Room::Own(_) => cell,
        Room::Free(_) | Room::Full => inbox::store::empty_cell(),
    }
}

// Whether a piece's message claims too much: its number is barred, or the piece would show a length above 2,046.
fn is_over(store: &[u8], room: Room, cell: Cell, barred: bool, piece: Piece) -> bool
    requires { (place_of room < 64) × (cell_size * place_of room + cell_size ≤ length store.now) }
    ensures { result ≡ is_over barred store.now room cell piece.entry.offset piece.entry.bytes.now }
{
    if barred {
        return true;
    }
    match room {
        Room::Own(c) => inbox::store::shows_in(store, c, cell, piece),
        Room::Free(_) => inbox::cell::shows_first(piece),
        Room::Full => inbox::cell::shows_first(piece),
    }
}

// A kept piece joined into cell c.
fn put(store: &mut [u8], c: usize, cell: Cell, piece: Piece) -> Taken
    requires c_bound { (c < 64) × (cell_size * c + cell_size ≤ length store.old) }
    requires end_bound { piece.offset + length piece.bytes.now ≤ message_room }
    ensures { took result store.new ≡ put_of store.old c cell piece.entry.offset piece.entry.bytes.now }
{
    let after = inbox::store::join_in(store, c, cell, piece);
    let landed = inbox::store::landed_at(store, c, after);
    Taken {
        cell: after,
        kept: Kept::Yes,
        landed: landed,
    }
}

// A piece that changed nothing.
pub fn left(cell: Cell, kept: Kept) -> Taken
    ensures { result ≡ left_of cell kept }
{
    Taken {
        cell: cell,
        kept: kept,
        landed: None,
    }
}
