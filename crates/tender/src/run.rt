// The run: bursts of the boat, and what becomes of them.
use crate::boat::Boat;
use crate::channel;
use crate::channel::{Burst, Dice};
use crate::shore::Shore;
use crate::tell::Counts;
use std::fmt::Write;
use words::Head;

// id: the number of the boat's burst. before: the burst that it sent last. polled: the boat heard that it is to send.
#[derive(Drop)]
pub struct Run {
    pub shore: Shore,
    boat: Boat,
    dice: Dice,
    id: u32,
    before: Burst,
    polled: bool,
    counts: Counts,
}

// The head is K_ACK or K_POLLACK to slot 0 for the burst with this number.
fn is_ack(head: Head, id: u32) -> bool {
    head.code == 62
        && matches!(head.hi, 2 | 3)
        && head.extra % 64 == 0
        && head.extra / 64 % 4 == id % 4
}

impl Run {
    pub fn new() -> Run {
        Run {
            shore: Shore::new(),
            boat: Boat::new(),
            dice: Dice(20260717),
            id: 0,
            before: Burst::new(),
            polled: false,
            counts: Counts::default(),
        }
    }

    // The dice say how long the pieces of the boat's burst are and how many.
    fn prepared(&mut self) -> Burst {
        let max = (self.dice.draw() % 216) as usize + 40;
        let room = (self.dice.draw() % 9) as usize + 1;
        self.id = (self.id % 4 + 1) % 4;
        self.counts.bursts = bits::one_more(self.counts.bursts);
        self.shore.wait(2.0);
        self.boat.burst(self.id, max, room)
    }

    // This burst is lost one time in eight; each of its frames one time in four. The head of the answer to what arrives, which comes once more one time in
    // eight: the boat has heard the first answer.
    fn arrives(&mut self, burst: &[u32]) -> Option<Head> {
        if self.dice.one_in(8) {
            self.counts.gone = bits::one_more(self.counts.gone);
            let _not_again = self.dice.draw();
            return None;
        }
        let arrived = channel::through(&mut self.dice, burst);
        self.counts.lost = self.counts.lost.saturating_add(arrived.lost);
        let head = self.shore.hears(&arrived.words);
        if self.dice.one_in(8) && head.is_some() {
            self.counts.twice = bits::one_more(self.counts.twice);
            let _second = self.shore.hears(&arrived.words);
        }
        head
    }

    // The burst before comes behind it, one time in eight.
    fn late(&mut self) {
        if self.dice.one_in(8) && !self.before.is_empty() {
            self.counts.late = bits::one_more(self.counts.late);
            let _late = self.shore.hears(&self.before);
        }
    }

    // The answer is lost one time in eight; the next burst begins with the same throw.
    fn heard_back(&self, head: Option<Head>) -> Option<Head> {
        let mut dice = self.dice;
        if dice.one_in(8) { None } else { head }
    }

    // What the boat makes of the answer to its burst: acknowledgements, and whether it is to send again; or that it got none.
    fn answered(&mut self, head: Option<Head>, burst: &[u32]) {
        match head {
            Some(head) if is_ack(head, self.id) => {
                self.boat.acked(head.extra / 256, burst);
                self.polled = head.hi == 2;
            }
            _ => {
                self.boat.stale();
                self.polled = false;
            }
        }
    }

    fn exchange(&mut self) {
        let burst = self.prepared();
        let head = self.arrives(&burst);
        self.late();
        self.answered(self.heard_back(head), &burst);
        self.before = burst;
    }

    // All messages have landed, and the sending end holds none.
    fn is_over(&self) -> bool {
        7 < self.shore.landed && self.boat.pending() == 0
    }

    pub fn whole(&mut self) {
        for _ in 0..3000 {
            if self.polled {
                self.exchange();
            } else {
                self.polled = self.shore.decides();
            }
            if self.is_over() {
                break;
            }
        }
        let counts = Counts {
            landed: self.shore.landed,
            pending: self.boat.pending(),
            ..self.counts
        };
        let _ = write!(self.shore.text, "{counts}");
    }
}
