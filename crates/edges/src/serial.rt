// Serial numbers as RFC 1982 has them, beside what the station makes of them. half is 2 to the power SERIAL_BITS - 1.
ghost use Rattle.std.specs.Prelude.{◌≡◌, ◌+◌, ◌*◌, ◌%◌, ◌<◌};
ghost use Rattle.wire.specs.Numbers.{serial_lt};

use crate::number::Widened;
use crate::page::Page;
use std::cmp::Ordering;
use std::fmt::{self, Write};

// a is less than b.
fn is_less(half: u8, a: u8, b: u8) -> bool
    ensures { result ≡ serial_lt half a b }
{
    if a < b {
        return b - a < half;
    }
    if b < a {
        return half < a - b;
    }
    false
}

fn sum(half: u8, a: u8, n: u8) -> u32
    requires { 0 < half }
    ensures { result ≡ (a + n) % (2 * half) }
{
    (u32::from(a) + u32::from(n)) % (2 * u32::from(half))
}

// a against b; none where neither is less and they differ.
fn order(half: u8, a: u8, b: u8) -> Option<Ordering> {
    if is_less(half, b, a) {
        Some(Ordering::Greater)
    } else if is_less(half, a, b) {
        Some(Ordering::Less)
    } else if a == b {
        Some(Ordering::Equal)
    } else {
        None
    }
}

// Two numbers with the sign between them.
#[derive(Clone, Copy, Debug, PartialEq, Eq)]
struct Compared {
    half: u8,
    a: u8,
    b: u8,
}

impl fmt::Display for Compared {
    fn fmt<W: fmt::Write>(&self, f: &mut fmt::Formatter<W>) -> fmt::Result {
        let sign = match order(self.half, self.a, self.b) {
            Some(Ordering::Greater) => ">",
            Some(Ordering::Less) => "<",
            Some(Ordering::Equal) => "=",
            None => "undefined against",
        };
        write!(f, "{} {sign} {}", self.a, self.b)
    }
}

pub fn two_bits(text: &mut Page) -> fmt::Result {
    writeln!(text, "Order: RFC 1982, section 5.1, SERIAL_BITS 2")?;
    for (a, b) in [
        (1, 0),
        (2, 1),
        (3, 2),
        (0, 3),
        (2, 0),
        (0, 2),
        (1, 3),
        (3, 1),
        (3, 3),
    ] {
        writeln!(text, "  {}", Compared { half: 2, a, b })?;
    }
    Ok(())
}

// a against b, and what the station makes of a while it waits for a number whose eight bits are b.
fn eight(text: &mut Page, a: u8, b: u8) -> fmt::Result {
    let next = 256 + u32::from(b);
    let compared = Compared { half: 128, a, b };
    let number = Widened { on_air: a, next };
    writeln!(text, "  {compared}; on air {a}, next {next}: {number}")
}

pub fn eight_bits(text: &mut Page) -> fmt::Result {
    writeln!(
        text,
        "Order: RFC 1982, section 5.2, SERIAL_BITS 8, and message numbers"
    )?;
    for (a, b) in [
        (1, 0),
        (44, 0),
        (100, 0),
        (100, 44),
        (200, 100),
        (255, 200),
        (0, 255),
        (100, 255),
        (0, 200),
        (44, 200),
        (100, 100),
    ] {
        eight(text, a, b)?;
    }
    Ok(())
}

// The 128 pairs at distance 128, of which neither is less.
pub fn pairs(text: &mut Page) -> fmt::Result {
    writeln!(
        text,
        "The same, the pairs 0 and 128 to 127 and 255, which it leaves undefined"
    )?;
    for k in 0..128 {
        eight(text, k, k + 128)?;
        eight(text, k + 128, k)?;
    }
    Ok(())
}

fn added(text: &mut Page, half: u8, a: u8, n: u8) -> fmt::Result
    requires { 0 < half }
{
    let sum = sum(half, a, n);
    writeln!(text, "  {a} + {n} = {sum}")
}

pub fn sums(text: &mut Page) -> fmt::Result {
    writeln!(text, "Sums: RFC 1982, section 5.1, SERIAL_BITS 2")?;
    for a in 0..4 {
        added(text, 2, a, 1)?;
    }
    writeln!(text, "Sums: RFC 1982, section 5.2, SERIAL_BITS 8")?;
    for (a, n) in [(255, 1), (100, 100), (200, 100)] {
        added(text, 128, a, n)?;
    }
    added_twice(text, 100, 100)
}

// a + n, and then + n once more, each against a.
fn added_twice(text: &mut Page, a: u8, n: u8) -> fmt::Result {
    let b = (sum(128, a, n) % 256) as u8;
    let c = (sum(128, b, n) % 256) as u8;
    let once = Compared {
        half: 128,
        a: b,
        b: a,
    };
    let twice = Compared {
        half: 128,
        a: c,
        b: a,
    };
    writeln!(text, "  {a} + {n} = {once}")?;
    writeln!(text, "  ({a} + {n}) + {n} = {twice}")
}
