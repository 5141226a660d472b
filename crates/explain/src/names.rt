// Whose slot it is: the calls that acknowledgements told.
use super::call::Call;
use std::fmt;

// No boat has this slot: in its place stands the call of the last beacon.
const BEACON: u32 = 62;

#[derive(Drop)]
pub struct Names {
    calls: [Option<Call>; 63],
}

// A slot, and its call where it is known.
#[derive(Clone, Copy)]
pub struct Slot {
    number: u32,
    call: Option<Call>,
}

// The call stands in brackets.
impl fmt::Display for Slot {
    fn fmt<W: fmt::Write>(&self, f: &mut fmt::Formatter<W>) -> fmt::Result {
        let number = self.number;
        match self.call {
            Some(call) => write!(f, "{number} ({call})"),
            None => write!(f, "{number}"),
        }
    }
}

// Whom a frame speaks to, or about: a slot, or everyone.
#[derive(Clone, Copy)]
pub struct Whom(Option<Slot>);

impl fmt::Display for Whom {
    fn fmt<W: fmt::Write>(&self, f: &mut fmt::Formatter<W>) -> fmt::Result {
        match self.0 {
            Some(slot) => write!(f, "slot {slot}"),
            None => write!(f, "everyone"),
        }
    }
}

// How a boat is reached: by a relay, or by none.
#[derive(Clone, Copy)]
pub struct Route(Option<Slot>);

impl fmt::Display for Route {
    fn fmt<W: fmt::Write>(&self, f: &mut fmt::Formatter<W>) -> fmt::Result {
        match self.0 {
            Some(slot) => write!(f, "by relay {slot}"),
            None => write!(f, "direct"),
        }
    }
}

impl Names {
    pub fn new() -> Names {
        Names { calls: [None; 63] }
    }

    fn call_of(&self, number: u32) -> Option<Call> {
        *self.calls.get(number as usize)?
    }

    fn set(&mut self, number: u32, call: Option<Call>) {
        if let Some(place) = self.calls.get_mut(number as usize) {
            *place = call;
        }
    }

    pub fn slot(&self, number: u32) -> Slot {
        let known = if number == BEACON {
            None
        } else {
            self.call_of(number)
        };
        Slot {
            number,
            call: known.filter(|call| !call.is_blank()),
        }
    }

    fn slot_or_none(&self, number: u32) -> Option<Slot> {
        (number != u32::from(wire::ALL)).then_some(self.slot(number))
    }

    pub fn whom(&self, number: u32) -> Whom {
        Whom(self.slot_or_none(number))
    }

    pub fn route(&self, number: u32) -> Route {
        Route(self.slot_or_none(number))
    }

    fn forget_all(&mut self) {
        self.calls = [None; 63];
    }

    // A check-in or a sign-off: the slot may be another boat's. A start: all may.
    pub fn forget_by(&mut self, word: u32) {
        match (word >> 28, word % 16) {
            (1, _) => self.set(word % 64, None),
            (7, 14) => self.set(word / 16 % 16777216, None),
            (7, 8) => self.forget_all(),
            _ => {}
        }
    }

    // A beacon of another call than the last one is another net's.
    fn beacon(&mut self, call: Call) {
        if self.call_of(BEACON).is_some_and(|last| last != call) {
            self.forget_all();
        }
        self.set(BEACON, Some(call));
    }

    // The members that are told: a slot and its call, six bytes each.
    fn members(&mut self, members: &[u8]) {
        for member in members.chunks_exact(6) {
            if let [slot, a, b, c, d, e] = member {
                self.set(u32::from(*slot), Some(Call::unpack([*a, *b, *c, *d, *e])));
            }
        }
    }

    // What a frame of the station's tells.
    pub fn told(&mut self, flags: u32, payload: &[u8]) {
        if flags / 64 % 4 != wire::T_CTRL {
            return;
        }
        match payload {
            [wire::C_BEACON, a, b, c, d, e, _, _, _, _, _, _, _, _, ..] => {
                self.beacon(Call::unpack([*a, *b, *c, *d, *e]));
            }
            [wire::C_ACKS, members @ ..] => self.members(members),
            _ => {}
        }
    }
}
