// What the day had, in words.
use crate::chance::Call;
use crate::holds::Fault;
use refusal::Refusal;
use std::fmt;

// Calls not refused, by kind, and the refused ones; events 1 and 2, the polls, the most boats at once; what first did not hold, and after which call.
#[derive(Clone, Copy, Debug, Default)]
pub struct Tally {
    signed: u32,
    admitted: u32,
    heard: u32,
    decided: u32,
    sent: u32,
    freed: u32,
    refused: u32,
    newcomers: u32,
    messages: u32,
    polls: u32,
    most: u32,
    fault: Option<(u32, Fault)>,
}

impl Tally {
    // A call and its answer.
    pub fn count(&mut self, call: Call, answer: Result<usize, Refusal>, out: &[u32]) {
        let Ok(n) = answer else {
            self.refused = bits::one_more(self.refused);
            return;
        };
        match call {
            Call::SignOff => self.signed = bits::one_more(self.signed),
            Call::Admit => self.admitted = bits::one_more(self.admitted),
            Call::NewBoat | Call::Idle | Call::Reply => self.heard = bits::one_more(self.heard),
            Call::Decide => self.decided = bits::one_more(self.decided),
            Call::Sent => self.sent = bits::one_more(self.sent),
            Call::Empty => self.freed = bits::one_more(self.freed),
        }
        for word in out.iter().take(n) {
            self.word(*word);
        }
    }

    // A word returned.
    fn word(&mut self, word: u32) {
        match word >> 28 {
            1 => self.newcomers = bits::one_more(self.newcomers),
            2 => self.messages = bits::one_more(self.messages),
            _ => {}
        }
        if word / 2097152 == 1086 && matches!(word / 131072 % 16, 1 | 5) {
            self.polls = bits::one_more(self.polls);
        }
    }

    // The boats after a call.
    pub fn hold(&mut self, used: u64) {
        self.most = self.most.max(used.count_ones());
    }

    // What did not hold after call i, kept the first time.
    pub fn judge(&mut self, i: u32, holds: Result<(), Fault>) {
        if let (None, Err(fault)) = (self.fault, holds) {
            self.fault = Some((i, fault));
        }
    }
}

impl fmt::Display for Tally {
    fn fmt<W: fmt::Write>(&self, f: &mut fmt::Formatter<W>) -> fmt::Result {
        writeln!(f, "a day of 20000 calls on 62 slots")?;
        writeln!(f, "boats signed off: {}", self.signed)?;
        writeln!(f, "direct admissions: {}", self.admitted)?;
        writeln!(f, "receptions: {}", self.heard)?;
        writeln!(f, "decisions: {}", self.decided)?;
        writeln!(f, "ends of sendings: {}", self.sent)?;
        writeln!(f, "cells read and freed: {}", self.freed)?;
        writeln!(f, "calls refused: {}", self.refused)?;
        writeln!(f, "boats checked in: {}", self.newcomers)?;
        writeln!(f, "messages landed: {}", self.messages)?;
        writeln!(f, "polls sent: {}", self.polls)?;
        writeln!(f, "most boats at once: {}", self.most)?;
        match self.fault {
            None => writeln!(
                f,
                "after each call: free slots blank, on no list, in no turn, with no cell; the count of silent boats true; relays end: yes"
            ),
            Some((call, fault)) => writeln!(f, "not so after call: {call}\n{fault}"),
        }
    }
}
