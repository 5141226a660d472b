// What is whole of a boat's messages: every number below next, and the marked ones of the 128 after it.
// Bit d of low is the number next + 1 + d, bit d of high the number next + 65 + d. The barred numbers (request U4) in the same way, from
// next on: bit d of barlow is the number next + d, bit d of barhigh the number next + 64 + d. No value of a Window is wrong.
ghost use Rattle.std.specs.Prelude.{◌≡◌, true, false, cond, ltb, ◌+◌, ◌-◌, ◌*◌, ◌^◌};
ghost use Rattle.bits.specs.Mask.{has_bit, with_bit};
ghost use Rattle.stream.specs.Window.{fresh_of, marks_of, bitmap_of, holes_of, handed_of, bars_of, barred_of, bar_of, slid_of, slide_of, mark_of, land_of};

// Two halves of 64 bits and no u128: the C structure has them so, and C has no plain type of 128 bits.
#[repr(C)]
#[derive(Clone, Copy)]
pub struct Window {
    pub next: u32,
    pub low: u64,
    pub high: u64,
    pub barlow: u64,
    pub barhigh: u64,
}

// A boat's window before its first message.
pub fn fresh() -> Window
    ensures { result ≡ fresh_of }
{
    Window {
        next: 0,
        low: 0,
        high: 0,
        barlow: 0,
        barhigh: 0,
    }
}

// Which of the eight after next are whole.
pub fn bitmap(w: Window) -> u8
    ensures { result ≡ bitmap_of w }
{
    (w.low % 256) as u8
}

// Whole messages past one that is missing.
pub fn holes(w: Window) -> bool
    ensures { result ≡ holes_of w }
{
    (w.low != 0) | (w.high != 0)
}

// Whether the message of this number is handed over.
pub fn handed(w: Window, number: u32) -> bool
    ensures { result ≡ handed_of w number }
{
    let next = w.next;
    if number < next {
        return true;
    }
    if number == next {
        return false;
    }
    let d = (number - next - 1) as usize;
    has(w.low, w.high, d)
}

// Whether this number is barred.
pub fn barred(w: Window, number: u32) -> bool
    ensures { result ≡ barred_of w number }
{
    let next = w.next;
    if number < next {
        return false;
    }
    let d = (number - next) as usize;
    has(w.barlow, w.barhigh, d)
}

// This number is barred from now on.
pub fn bar(w: Window, number: u32) -> Window
    ensures { result ≡ bar_of w number }
{
    let next = w.next;
    if number < next {
        return w;
    }
    let d = (number - next) as usize;
    let (barlow, barhigh) = with(w.barlow, w.barhigh, d);
    Window {
        barlow,
        barhigh,
        ..w
    }
}

// The message of this number has landed.
pub fn land(w: Window, number: u32) -> Window
    ensures { result ≡ land_of w number }
{
    let next = w.next;
    if number <= next {
        return slide(w);
    }
    let d = (number - next - 1) as usize;
    mark(w, d)
}

// Bit d of 128, the low 64 and the high 64.
fn has(low: u64, high: u64, d: usize) -> bool
    ensures { result ≡ has_bit (low + 2 ^ 64 * high) d }
{
    if d < 64 {
        return bits::has(low, d);
    }
    bits::has(high, d - 64)
}

// The same 128 with bit d; past them nothing is put in.
#[tactic(auto, using(std::proofs::lemmas::Bool::Decides::nat_tests))]
fn with(low: u64, high: u64, d: usize) -> (u64, u64)
    ensures low { result.0 ≡ cond (ltb d 64) (with_bit low d) low }
    ensures high { result.1 ≡ cond (ltb d 64) high (with_bit high (d - 64)) }
{
    if d < 64 {
        (bits::with(low, d), high)
    } else {
        (low, bits::with(high, d - 64))
    }
}

// One on: the number next is whole. (Halves and numbers, no shift of 128 bits: the C structure has halves, the definition numbers.)
fn slid(w: Window) -> Window
    ensures { result ≡ slid_of w.next (marks_of w) (bars_of w) }
{
    let next = bits::one_more(w.next);
    Window {
        next: next,
        low: w.low / 2 + w.high % 2 * 9223372036854775808,
        high: w.high / 2,
        barlow: w.barlow / 2 + w.barhigh % 2 * 9223372036854775808,
        barhigh: w.barhigh / 2,
    }
}

// The number next is whole, and with it the marked ones right after it.
fn slide(w: Window) -> Window
    ensures { result ≡ slide_of 128 w.next (marks_of w) (bars_of w) }
{
    let mut t = w;
    for _ in 0..128usize {
        let on = t.low % 2 == 1;
        t = slid(t);
        if !on {
            return t;
        }
    }
    slid(t)
}

fn mark(w: Window, d: usize) -> Window
    ensures { result ≡ mark_of w d }
{
    let (low, high) = with(w.low, w.high, d);
    Window { low, high, ..w }
}
