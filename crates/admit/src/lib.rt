// Admission (admit of ncs.rs): a known boat keeps its slot, an unknown one takes the lowest free slot.
#![tactic(auto)]

ghost use Rattle.std.specs.Prelude.{◌≡◌};
ghost use Rattle.out.specs.Outputs.{Writes};
ghost use Rattle.admit.specs.Admission.{find_call, seat_of, is_full, admit_events, leads_to, via_for};

use net::Station;
use out::Output;

// Where a boat with some call sits, or would sit.
#[derive(Clone, Copy)]
pub enum Seat {
    Known(u8),
    Free(u8),
    Full,
}

// The least slot whose member has the call with this key.
fn find_call(s: Station, key: u64) -> Option<usize>
    ensures { result ≡ find_call s key }
{
    let ms = s.members;
    for i in 0..62 {
        let m = ms[i];
        let call = m.call;
        if bits::has(s.used, i) & (wire::calls::key_of(call) == key) {
            return Some(i);
        }
    }
    None
}

pub fn seat_of(s: Station, call: [u8; 7]) -> Seat
    ensures { result ≡ seat_of s call }
{
    match find_call(s, wire::calls::key_of(call)) {
        Some(i) => Seat::Known((i % 256) as u8),
        None => match bits::lowest_free(s.used, 62) {
            Some(i) => Seat::Free((i % 256) as u8),
            None => Seat::Full,
        },
    }
}

pub fn is_full(seat: Seat) -> bool
    ensures { result ≡ is_full seat }
{
    matches!(seat, Seat::Full)
}

// Events 4, where there is a relay, and 1.
pub fn admit_events(o: &mut Output, slot: u8, via: u8)
    ensures { Writes o.old (admit_events slot via) o.new }
{
    let i = usize::from(slot);
    if via != wire::ALL {
        o.event(4, i, via);
    }
    o.event(1, i, via);
}

// Whether the relays from slot `from` on lead to slot `to`.
fn leads_to(s: Station, from: u8, to: u8) -> bool
    ensures { result ≡ leads_to 62 s from to }
{
    let ms = s.members;
    let mut at = from;
    for _ in 0..62usize {
        if at == to {
            return true;
        }
        if !net::is_member(s.used, at) {
            return false;
        }
        let i = net::index(at);
        let m = ms[i];
        at = m.via;
    }
    false
}

// The relay of a newcomer in this slot: one that leads back to the slot is not written.
pub fn via_for(s: Station, slot: u8, via: u8) -> u8
    ensures { result ≡ via_for s (Seat.Free slot) via }
{
    if via == wire::ALL {
        return via;
    }
    if leads_to(s, via, slot) {
        wire::ALL
    } else {
        via
    }
}
