// Airtime dues: ports share the radio cost by the bytes that landed. Each boat's month is charged in cents, a part of it is credited to its relay, and the
// rest is the port's. The station is only read.
#![tactic(auto)]

ghost use Rattle.std.specs.Prelude.{◌≡◌, leb};
ghost use Rattle.std.specs.List.{list_all};
ghost use Rattle.dues.specs.Dues.{started256, charge_of, charge_by, tenth_of, tenth_to, taking_by, figures_ok, dues_of};

use net::Station;
use refusal::Refusal;

// Each slot's charge and credit, an empty one's 0, and the port's takings; two arrays, as C has them.
#[derive(Clone, Copy)]
pub struct Bill {
    pub charges: [u32; 62],
    pub credits: [u32; 62],
    pub takings: u64,
}

// The month's dues: `figures` are the bytes landed, one for each slot.
pub fn dues(s: Station, figures: &[u32]) -> Result<Bill, Refusal>
    ensures { result ≡ dues_of s figures.now }
{
    if !figures_ok(figures) {
        return Err(Refusal::Figures);
    }
    let mut charges = [0u32; 62];
    let mut credits = [0u32; 62];
    let mut takings: u64 = 0;
    for i in 0..62 {
        let m = s.members[i];
        let relay = m.via;
        let cents = charge_in(s.used, i as u8, figures[i]);
        let v = net::index(relay);
        charges[i] = cents;
        credits[v] += tenth_to(s.used, relay, cents);
        takings += u64::from(taking(relay, cents));
    }
    Ok(Bill {
        charges,
        credits,
        takings,
    })
}

// There are 62 figures, none above 1,000,000,000.
fn figures_ok(figures: &[u32]) -> bool
    ensures { result ≡ figures_ok figures.now }
{
    if figures.len() != 62 {
        return false;
    }
    all_fit(figures)
}

// None is above 1,000,000,000.
fn all_fit(figures: &[u32]) -> bool
    ensures { result ≡ list_all (λ n. leb n 1000000000) figures.now }
{
    figures.iter().all(|n| *n <= 1000000000)
}

// An empty slot is charged nothing.
fn charge_in(used: u64, slot: u8, n: u32) -> u32
    ensures { result ≡ charge_by used slot n }
{
    if net::is_member(used, slot) {
        charge(n)
    } else {
        0
    }
}

// A month of n bytes, in cents. From 1,024 to 16,384 there are 60 times 256, which come to 2,100.
fn charge(n: u32) -> u32
    ensures { result ≡ charge_of n }
{
    if n <= 1024 {
        return 0;
    }
    if n <= 16384 {
        return 35 * started(n - 1024);
    }
    2100 + 20 * started(n - 16384)
}

// How many times 256 bytes are started.
fn started(n: u32) -> u32
    ensures { result ≡ started256 n }
{
    n.div_ceil(256)
}

// What the relay is credited of a charge: an empty slot gets nothing, and 63 is no relay.
fn tenth_to(used: u64, relay: u8, cents: u32) -> u32
    ensures { result ≡ tenth_to used relay cents }
{
    let here = net::is_member(used, relay);
    if here { tenth(cents) } else { 0 }
}

// Rounded down to a cent.
fn tenth(cents: u32) -> u32
    ensures { result ≡ tenth_of cents }
{
    cents / 10
}

// What the port takes of a charge: all of it, or what the tenth for a relay leaves.
fn taking(relay: u8, cents: u32) -> u32
    ensures { result ≡ taking_by relay cents }
{
    if relay == wire::ALL {
        cents
    } else {
        cents - tenth(cents)
    }
}
