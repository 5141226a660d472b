// Cells in the store that the caller lends: cell c is its 6,400 bytes from 6,400 c on.
// (The bound on c stands in each contract: some are lent the store to read and some to write, so a type for a cell's place in it would be two.)
ghost use Rattle.std.specs.Prelude.{◌≡◌, ◌++◌, ◌+◌, ◌*◌, ◌≤◌, ◌<◌, length, take, drop};
ghost use Rattle.inbox.specs.Sizes.{cell_size, message_room};
ghost use Rattle.inbox.specs.Cells.{held, accept};
ghost use Rattle.inbox.specs.Messages.{empty_cell, announced, shows_of};
ghost use Rattle.inbox.specs.Stores.{cell_of, in_cell, landed_of, message_of};

use crate::cell;
use crate::cell::Cell;
use crate::piece::Piece;

// The bytes of the store that one cell has.
pub const CELL_SIZE: usize = 6400;

// A cell that has just been taken, or freed: nothing of the store is touched.
pub fn empty_cell() -> Cell
    ensures { result ≡ empty_cell }
{
    Cell {
        joined: 0,
        offsets: [0; 16],
        lengths: [0; 16],
    }
}

// One piece taken into cell c of the store.
pub fn join_in(store: &mut [u8], c: usize, cell: Cell, piece: Piece) -> Cell
    requires c_bound { (c < 64) × (cell_size * c + cell_size ≤ length store.old) }
    requires end_bound { piece.offset + length piece.bytes.now ≤ message_room }
    ensures cell { result ≡ (accept (held cell (cell_of store.old c)) piece.entry.offset piece.entry.bytes.now).cell }
    ensures bytes { store.new ≡ in_cell store.old c (accept (held cell (cell_of store.old c)) piece.entry.offset piece.entry.bytes.now).bytes }
{
    let at = CELL_SIZE * c;
    join_first(&mut store[at..], cell, piece)
}

// Whether a piece of the message in cell c would show a length above 2,046.
pub fn shows_in(store: &[u8], c: usize, cell: Cell, piece: Piece) -> bool
    requires { (c < 64) × (cell_size * c + cell_size ≤ length store.now) }
    ensures { result ≡ shows_of (held cell (cell_of store.now c)) piece.entry.offset piece.entry.bytes.now }
{
    let at = CELL_SIZE * c;
    let end = at + CELL_SIZE;
    cell::shows(&store[at..end], cell, piece)
}

// Whether the message in cell c has landed.
pub fn landed_at(store: &[u8], c: usize, cell: Cell) -> Option<usize>
    requires { (c < 64) × (cell_size * c + cell_size ≤ length store.now) }
    ensures { result ≡ landed_of (held cell (cell_of store.now c)) }
{
    let joined = usize::from(cell.joined);
    if joined < 2 {
        return None;
    }
    let n = length_in(store, c);
    if joined < 2 + n {
        return None;
    }
    Some(n)
}

// The landed message of cell c, as a part of the store itself.
pub fn read(store: &[u8], c: usize) -> &[u8]
    requires { (c < 64) × (cell_size * c + cell_size ≤ length store.now) }
    ensures { result.now ≡ message_of store.now c }
{
    let n = length_in(store, c);
    let from = CELL_SIZE * c + 2;
    if n <= cell::BODY_ROOM {
        return &store[from..from + n];
    }
    &store[from..from + cell::BODY_ROOM]
}

// The first 6,400 bytes of a part of the store are the cell.
fn join_first(part: &mut [u8], cell: Cell, piece: Piece) -> Cell
    requires cell_size_in_bounds { cell_size ≤ length part.old }
    requires end_bound { piece.offset + length piece.bytes.now ≤ message_room }
    ensures cell { result ≡ (accept (held cell (take cell_size part.old)) piece.entry.offset piece.entry.bytes.now).cell }
    ensures bytes { part.new ≡ (accept (held cell (take cell_size part.old)) piece.entry.offset piece.entry.bytes.now).bytes ++ drop cell_size part.old }
{
    cell::join(&mut part[..CELL_SIZE], cell, piece)
}

// The length that the first two bytes of cell c say, lowest first.
fn length_in(store: &[u8], c: usize) -> usize
    requires { (c < 64) × (cell_size * c + cell_size ≤ length store.now) }
    ensures { (result ≡ announced (cell_of store.now c)) × (result < 65536) }
{
    let at = CELL_SIZE * c;
    usize::from(store[at]) + 256 * usize::from(store[at + 1])
}
