// The sheet of short calls that a port hands out to workboats: every call of up to two characters, in rising order of its number.
#![tactic(auto)]

ghost use Rattle.std.specs.Prelude.{◌≡◌, [], ◌*◌, ◌≤◌, ◌<◌, length, get_or};
ghost use Rattle.std.proofs.Math.Seq.{paste};
ghost use Rattle.wire.specs.Call.{packed};
ghost use Rattle.refusal.specs.Numbers.{number_in};
ghost use Rattle.sheet.specs.Sheet.{short_calls, refusal, written};

use refusal::Refusal;

// How many short calls there are, and the bytes of their sheet.
pub const CALLS: usize = 1407;

pub const SHEET: usize = 9849;

// 38 to the power 5: the number of a call is this times that of its first two characters, where none follow.
const PLACE: u64 = 79235168;

// The whole sheet, to the front of the output; refused where the output cannot hold it.
pub fn short_calls(out: &mut [u8]) -> Result<(), Refusal>
    ensures { (number_in result ≡ refusal out.old) × (out.new ≡ written out.old) }
{
    if out.len() < SHEET {
        return Err(Refusal::SmallOut);
    }
    for k in 0..CALLS {
        put_call(out, k);
    }
    Ok(())
}

// Call k at its place on the sheet.
fn put_call(out: &mut [u8], k: usize)
    requires { (k < 1407) × (9849 ≤ length out.old) }
    ensures { out.new ≡ paste out.old (7 * k) (get_or short_calls k []) 7 }
{
    let at = 7 * k;
    out[at..at + 7].copy_from_slice(&wire::calls::unpack_number(number_at(k)));
}

// The packed number of call k. The empty call has 0; from `0` on the first two characters count up by one, and those of `0` are 38.
fn number_at(k: usize) -> u64
    requires { k < 1407 }
    ensures { result ≡ packed (get_or short_calls k []) }
{
    if k == 0 {
        return 0;
    }
    (k as u64 + 37) * PLACE
}
