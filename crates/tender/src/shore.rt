// The shore station, and what it answers.
use crate::message;
use crate::tell::Landed;
use arrayvec::ArrayString;
use net::Station;
use std::fmt::Write;
use words::Head;

// The station with its store, the time, how many messages have landed, and the text with the lines on them: what would have no room in it is dropped.
#[derive(Drop)]
pub struct Shore {
    station: Station,
    store: [u8; 64000],
    now: f64,
    pub landed: usize,
    pub text: ArrayString<2048>,
}

// The head among the words, the last if there are more.
fn head_in(words: &[u32]) -> Option<Head> {
    let head = words.iter().rfind(|word| **word >> 28 == 8)?;
    Some(words::head_of(*head))
}

// The head is a poll of slot 0.
fn is_poll(head: Head) -> bool {
    head.code == 62 && head.hi == 1 && head.extra % 64 == 0
}

impl Shore {
    // The boat with call `A` is admitted to slot 0.
    pub fn new() -> Shore {
        let store = [0u8; 64000];
        let mut out = [0u32; 8192];
        let r = station::start(preset::blank(), preset::tape_settings(), &store);
        let call = wire::calls::bytes_of(33120300224);
        let a = station::admit(r.station, call, 63, 0.0, &mut out);
        Shore {
            station: a.station,
            store,
            now: 0.0,
            landed: 0,
            text: ArrayString::new(),
        }
    }

    // Time goes by.
    pub fn wait(&mut self, seconds: f64) {
        self.now += seconds;
    }

    fn sent(&mut self, now: f64) {
        let r = station::sent(self.station, now);
        self.station = r.station;
    }

    // A reception, and the end of the answer's sending: its head.
    pub fn hears(&mut self, burst: &[u32]) -> Option<Head> {
        let mut out = [0u32; 8192];
        let r = station::receive(
            self.station,
            burst,
            0.0,
            self.now,
            &mut self.store,
            &mut out,
        );
        self.station = r.station;
        let words = &out[..r.answer.unwrap_or(0).min(out.len())];
        for word in words {
            if word >> 28 == 2 {
                self.lands(*word);
            }
        }
        self.now += 1.0;
        let head = head_in(words);
        if head.is_some() {
            self.sent(self.now);
        }
        head
    }

    // Event 2: the message is read and held to what was posted.
    fn lands(&mut self, word: u32) {
        let cell = (word / 64 % 128) as usize;
        let number = word / 8192 % 256;
        let answer = station::read(self.station, &self.store, cell);
        let m = answer.unwrap_or(&[]);
        let landed = Landed {
            number,
            cell,
            size: m.len(),
            same: message::is(m, number) && answer.is_ok(),
        };
        let _ = writeln!(self.text, "{landed}");
        self.landed = self.landed.saturating_add(1);
    }

    // A next decision, and the end of its sending: whether it polls the boat. Nothing is posted, so no byte of the queue is sent.
    pub fn decides(&mut self) -> bool {
        let mut out = [0u32; 8192];
        let queue = [0u8; 126976];
        self.now += 10.0;
        let r = station::next(self.station, self.now, &queue, &mut out);
        self.station = r.station;
        let words = &out[..r.answer.unwrap_or(0).min(out.len())];
        if !words.is_empty() {
            self.sent(self.now + 1.0);
        }
        head_in(words).is_some_and(is_poll)
    }
}
