// Refusals and events.
use super::word::Word;
use std::fmt;

// (No enum: any number may stand in the word, and only its text is wanted.)
fn reason(number: u32) -> &'static str {
    match number {
        1 => "clock out of its span",
        2 => "level out of its span",
        3 => "words malformed or out of place",
        4 => "output too short",
        5 => "a setting out of its span",
        6 => "no such cell",
        7 => "store too short",
        8 => "no such slot",
        9 => "closing count above 15",
        // What the station holds.
        21 => "no member in the slot",
        22 => "no landed message in the cell",
        23 => "the net is full",
        // What the requests add.
        24 => "no room in the boat's queue",
        25 => "too much posted to the boat",
        26 => "a figure too large, or not 62",
        27 => "a fault in a mark",
        28 => "eight messages held",
        29 => "message too long",
        _ => "no refusal of the station's",
    }
}

impl Word<'_> {
    pub fn refusal<W: fmt::Write>(&self, f: &mut fmt::Formatter<W>) -> fmt::Result {
        let number = self.word % 268435456;
        let reason = reason(number);
        write!(f, "refused, {number}: {reason}")
    }

    // Words of kinds 1 to 5. A slot that may be another boat's from here on: its call is not said.
    pub fn event<W: fmt::Write>(&self, f: &mut fmt::Formatter<W>) -> fmt::Result {
        let word = self.word;
        let number = word % 64;
        let slot = self.slot(0);
        let route = self.route();
        match word >> 28 {
            1 => write!(f, "event: slot {number} checked in, {route}"),
            2 => {
                let cell = word / 64 % 128;
                let message = word / 8192 % 256;
                write!(
                    f,
                    "event: message from slot {slot} in cell {cell}, number {message} mod 256"
                )
            }
            3 => write!(f, "event: slot {slot} missed its turn"),
            4 => write!(f, "event: slot {number} relayed, {route}"),
            _ => write!(f, "event: slot {slot} routed, {route}"),
        }
    }
}
