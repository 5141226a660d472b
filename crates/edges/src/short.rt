// The sheet of short calls.
ghost use Rattle.std.specs.Prelude.{◌≡◌};
ghost use Rattle.edges.specs.Filled.{filled};

use crate::call::Call;
use crate::page::Page;
use std::fmt::{self, Write};

// The bytes before the first that is 0. (A loop: from a chain with `position` or `take_while` the check did not find that it counts what `filled` does.)
fn filled(out: &[u8]) -> usize
    ensures { result ≡ filled out.now }
{
    for (i, b) in out.iter().enumerate() {
        if *b == 0 {
            return i;
        }
    }
    out.len()
}

// What an output gets.
fn lent(text: &mut Page, out: &mut [u8]) -> fmt::Result {
    let room = out.len();
    let refusal = refusal::number_in(&sheet::short_calls(out));
    let calls = filled(out) / 7;
    writeln!(text, "  {room} bytes: {refusal}, calls written: {calls}")
}

pub fn calls(text: &mut Page) -> fmt::Result {
    writeln!(text, "Short calls: the sheet, its first three and its last")?;
    let mut out = [0u8; 9856];
    lent(text, &mut out[..9848])?;
    lent(text, &mut out)?;
    let (calls, _rest) = out.as_chunks::<7>();
    for call in [calls[0], calls[1], calls[2], calls[1406]] {
        writeln!(text, "  \"{}\"", Call(call))?;
    }
    Ok(())
}
