// One call of the day.
use crate::burst;
use crate::chance::{Call, Drawn};
use net::Station;
use refusal::Refusal;
use station::Answered;

// Seconds: a call every 4.32 of them.
pub fn time(i: u32) -> f64 {
    i as f64 * 4.32
}

fn level(x: u32) -> f32 {
    let q = (x % 40) as u16;
    q as f32 - 20.0
}

// The station, and the store and the output that it is lent.
#[derive(Drop)]
pub struct Port {
    pub station: Station,
    pub out: [u32; 8192],
    store: [u8; 64000],
}

impl Port {
    // At a first start.
    pub fn new() -> Port {
        let store = [0u8; 64000];
        let r = station::start(preset::blank(), preset::tape_settings(), &store);
        Port {
            station: r.station,
            out: [0; 8192],
            store,
        }
    }

    pub fn call(&mut self, d: Drawn, now: f64) -> Result<usize, Refusal> {
        let s = self.station;
        let r = match d.call {
            Call::SignOff => station::sign_off(s, (d.a % 64) as u8),
            Call::Admit => self.admitted(d, now),
            Call::NewBoat => self.heard(&burst::new_boat(d), d, now),
            Call::Idle => self.heard(&burst::idle(s, d), d, now),
            Call::Reply => self.heard(&burst::reply(s, d), d, now),
            Call::Decide => self.decided(now),
            Call::Sent => station::sent(s, now),
            Call::Empty => self.emptied((d.a % 10) as usize),
        };
        self.station = r.station;
        r.answer
    }

    // A direct admission: two in three without a relay.
    fn admitted(&mut self, d: Drawn, now: f64) -> Answered {
        let relay = if d.b % 3 == 0 {
            (d.b / 4 % 62) as u8
        } else {
            63
        };
        let call = burst::call_of(d.a);
        station::admit(self.station, call, relay, now, &mut self.out)
    }

    fn heard(&mut self, words: &[u32], d: Drawn, now: f64) -> Answered {
        let r = station::receive(
            self.station,
            words,
            level(d.a / 64),
            now,
            &mut self.store,
            &mut self.out,
        );
        Answered {
            station: r.station,
            answer: r.answer,
        }
    }

    // A next decision; nothing is posted, so no byte of the queue is sent.
    fn decided(&mut self, now: f64) -> Answered {
        let queue = [0u8; 126976];
        station::next(self.station, now, &queue, &mut self.out)
    }

    // A landed message is read and its cell given back; an answer of 0 words.
    fn emptied(&mut self, cell: usize) -> Answered {
        match station::read(self.station, &self.store, cell) {
            Ok(_) => station::free(self.station, cell),
            Err(r) => Answered {
                station: self.station,
                answer: Err(r),
            },
        }
    }
}

// The slot that the call freed.
pub fn freed(d: Drawn, a: Result<usize, Refusal>) -> Option<usize> {
    match (d.call, a) {
        (Call::SignOff, Ok(_)) => Some((d.a % 64) as usize),
        _ => None,
    }
}
