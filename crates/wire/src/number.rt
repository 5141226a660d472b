// Message numbers: eight bits on air, made whole near the lowest number not handed over.
ghost use Rattle.std.specs.Prelude.{◌≡◌, ◌≤◌};
ghost use Rattle.wire.specs.Numbers.{numbers, widened, widened_at};

// No message has this number or one above it.
pub const NUMBERS: u32 = 4294967040;

// The number near next whose lowest eight bits are s. No station has a next above NUMBERS; one that had is read as NUMBERS.
pub fn widen8(s: u8, next: u32) -> Option<u32>
    ensures { result ≡ widened s next }
{
    if NUMBERS < next {
        return widen_at(s, NUMBERS);
    }
    widen_at(s, next)
}

fn widen_at(s: u8, next: u32) -> Option<u32>
    requires { next ≤ numbers }
    ensures { result ≡ widened_at s next }
{
    let d = (u32::from(s) + 256 - next % 256) % 256;
    if d < 128 {
        return Some(next + d);
    }
    let back = 256 - d;
    if next < back {
        return None;
    }
    Some(next - back)
}
