// Which pieces are kept, and what refuses one.
ghost use Rattle.std.specs.Prelude.{◌≡◌};
ghost use Rattle.inbox.specs.Keeping.{shorter_of, full_of, kept_of};

use crate::cell;
use crate::cell::Cell;

// A piece of a message whose number is this or above is not kept.
pub const NUMBER_LIMIT: u32 = 4294967040;

// What becomes of a piece.
#[derive(Clone, Copy)]
pub enum Kept {
    // It changes nothing.
    Needless,
    // It changes the cell.
    Yes,
    // Its number is 4,294,967,040 or above.
    Late,
    // Its message claims too much: its number is barred, or the piece would show a length above 2,046.
    Overlong,
    // It ends above 2,048.
    Long,
    // Its message has no cell, and none is free.
    NoCell,
    // 16 pieces wait.
    NoPlace,
}

// What becomes of a piece of n bytes at offset. `over`: its message claims too much; `room`: its message has a cell, or one is free.
pub fn keeping(number: u32, offset: u16, n: u8, over: bool, room: bool, cell: Cell) -> Kept
    ensures { result ≡ kept_of number offset n over room cell }
{
    if n == 0 {
        return Kept::Needless;
    }
    let end = usize::from(offset) + usize::from(n);
    if end <= usize::from(cell.joined) {
        return Kept::Needless;
    }
    if shorter(cell, offset, n) {
        return Kept::Needless;
    }
    if NUMBER_LIMIT <= number {
        return Kept::Late;
    }
    if over {
        return Kept::Overlong;
    }
    if cell::MESSAGE_ROOM < end {
        return Kept::Long;
    }
    if !room {
        return Kept::NoCell;
    }
    if full(cell, offset) {
        return Kept::NoPlace;
    }
    Kept::Yes
}

// Whether a piece of at least n bytes waits at offset already.
fn shorter(cell: Cell, offset: u16, n: u8) -> bool
    ensures { result ≡ shorter_of cell offset n }
{
    if offset <= cell.joined {
        return false;
    }
    cell::at_offset(cell, offset).is_some_and(|i| n <= cell.lengths[i])
}

// Whether 16 pieces wait, a piece at offset starts past the joined end, and none waits there.
fn full(cell: Cell, offset: u16) -> bool
    ensures { result ≡ full_of cell offset }
{
    if offset <= cell.joined {
        return false;
    }
    cell::at_offset(cell, offset).is_none() && cell::free_place(cell).is_none()
}
