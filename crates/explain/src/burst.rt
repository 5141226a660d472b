// The head of a burst.
use super::parts::{Heard, Marks};
use super::word::Word;
use std::fmt;
use words::Head;

impl Word<'_> {
    fn poll<W: fmt::Write>(&self, f: &mut fmt::Formatter<W>) -> fmt::Result {
        let slot = self.slot(0);
        let cap = self.word / 64 % 16;
        let burst = self.word / 1024 % 4;
        write!(
            f,
            "burst: K_POLL, poll of slot {slot}, level cap {cap}, burst {burst}"
        )
    }

    fn relay<W: fmt::Write>(&self, f: &mut fmt::Formatter<W>) -> fmt::Result {
        let slot = self.slot(0);
        let source = self.slot(6);
        let cap = self.word / 4096 % 16;
        write!(
            f,
            "burst: K_RELAY, poll of slot {slot} for source {source}, level cap {cap}"
        )
    }

    fn ack<W: fmt::Write>(&self, f: &mut fmt::Formatter<W>, what: &str) -> fmt::Result {
        let slot = self.slot(0);
        let burst = self.word / 64 % 4;
        let frames = Marks((self.word / 256 % 256) as u8);
        write!(
            f,
            "burst: {what}: slot {slot}, burst {burst}, frames {frames}"
        )
    }

    fn idle<W: fmt::Write>(&self, f: &mut fmt::Formatter<W>) -> fmt::Result {
        let slot = self.slot(0);
        let heard = Heard((self.word / 64 % 64) as u8);
        write!(
            f,
            "burst: K_IDLE, nothing to send: slot {slot}, hears us {heard}"
        )
    }

    // A burst with no frames: what it says stands in the head.
    fn tiny<W: fmt::Write>(&self, f: &mut fmt::Formatter<W>, kind: u32) -> fmt::Result {
        match kind {
            wire::K_POLL => self.poll(f),
            wire::K_POLLACK => self.ack(f, "K_POLLACK, acknowledged and polled again"),
            wire::K_ACK => self.ack(f, "K_ACK, acknowledged"),
            wire::K_IDLE => self.idle(f),
            wire::K_RELAY => self.relay(f),
            wire::K_CLOSE => write!(f, "burst: K_CLOSE, the net closes"),
            _ => write!(f, "burst: header only, kind {kind}"),
        }
    }

    // Word 8.
    pub fn head<W: fmt::Write>(&self, f: &mut fmt::Formatter<W>) -> fmt::Result {
        let Head { code, hi, extra } = words::head_of(self.word);
        match code {
            wire::TINY => self.tiny(f, hi),
            0 => write!(f, "burst: control frames"),
            _ => write!(
                f,
                "burst: data frames, code {code}, high nibble {hi}, extra {extra}"
            ),
        }
    }
}
