// Sets of slots as 64-bit masks, counters that stop, and the laws of counting loops and lists.
#![tactic(auto)]

ghost use Rattle.std.specs.Prelude.{◌≡◌, ◌+◌, ◌^◌, ◌<◌, cond};
ghost use Rattle.bits.specs.Mask.{has_bit, with_bit, without_bit, both_of, either_of, minus_of, lowest_bit, lowest_free};
ghost use Rattle.bits.specs.Stop.{stop};

// Whether slot i is in the mask.
pub fn has(mask: u64, i: usize) -> bool
    ensures { result ≡ has_bit mask i }
{
    if i < 64 { (mask >> i) % 2 == 1 } else { false }
}

// The mask with slot i; a slot of 64 or above is no slot.
pub fn with(mask: u64, i: usize) -> u64
    ensures { result ≡ with_bit mask i }
{
    if 64 <= i {
        return mask;
    }
    if has(mask, i) {
        return mask;
    }
    mask + power(i)
}

// The mask without slot i.
pub fn without(mask: u64, i: usize) -> u64
    ensures { result ≡ without_bit mask i }
{
    if 64 <= i {
        return mask;
    }
    if has(mask, i) {
        return mask - power(i);
    }
    mask
}

// The mask with slot i where yes.
pub fn with_if(mask: u64, yes: bool, i: usize) -> u64
    ensures { result ≡ cond yes (with_bit mask i) mask }
{
    if yes { with(mask, i) } else { mask }
}

// The mask without slot i where yes.
pub fn without_if(mask: u64, yes: bool, i: usize) -> u64
    ensures { result ≡ cond yes (without_bit mask i) mask }
{
    if yes { without(mask, i) } else { mask }
}

// The slots of both masks.
pub fn both(a: u64, b: u64) -> u64
    ensures { result ≡ both_of a b }
{
    a & b
}

// The slots of either mask.
pub fn either(a: u64, b: u64) -> u64
    ensures { result ≡ either_of a b }
{
    a | b
}

// The slots of a that are not in b.
pub fn minus(a: u64, b: u64) -> u64
    ensures { result ≡ minus_of a b }
{
    a & !b
}

// The lowest slot of the mask.
pub fn lowest(mask: u64) -> Option<usize>
    ensures { result ≡ lowest_bit mask }
{
    let t = u64::trailing_zeros(mask);
    if t < 64 {
        let slot = t as usize;
        Some(slot)
    } else {
        None
    }
}

// The lowest slot below count that is not in the mask: the trailing zeros of its complement.
pub fn lowest_free(mask: u64, count: usize) -> Option<usize>
    ensures { result ≡ lowest_free mask count }
{
    let t = u64::trailing_zeros(!mask);
    let slot = t as usize;
    if slot < count { Some(slot) } else { None }
}

// The counter one higher; at 4,294,967,295 it stops.
pub fn one_more(n: u32) -> u32
    ensures { result ≡ stop (n + 1) }
{
    n.saturating_add(1)
}

// The counter k higher; at 4,294,967,295 it stops.
pub fn more_by(n: u32, k: u32) -> u32
    ensures { result ≡ stop (n + k) }
{
    n.saturating_add(k)
}

fn power(i: usize) -> u64
    requires { i < 64 }
    ensures { result ≡ 2 ^ i }
{
    1 << i
}
