// The boat set: the sending end, its bursts, and the acknowledgements that it takes.
use crate::channel::{Burst, Frames};
use crate::message;
use outbox::sender::Sender;
use outbox::{leave, sender, taking};

// A sending end with its two memories.
#[derive(Drop)]
pub struct Boat {
    sender: Sender,
    bytes: [u8; sender::MEMORY],
    marks: [u8; sender::MEMORY],
}

// Word 8 of a burst with this number, and more to come.
fn head(id: u32) -> u32 {
    0x8000_0000 + 5 * 2097152 + (id % 4 + 4) * 131072
}

impl Boat {
    // Eight messages posted; a ninth would be refused.
    pub fn new() -> Boat {
        let mut boat = Boat {
            sender: sender::new(),
            bytes: [0; sender::MEMORY],
            marks: [0; sender::MEMORY],
        };
        for k in 0..8 {
            boat.post(&message::bytes(k));
        }
        boat
    }

    fn post(&mut self, message: &[u8]) {
        let _ = sender::post(&mut self.sender, &mut self.bytes, message);
    }

    // How many bytes are to be sent or in flight.
    pub fn pending(&self) -> usize {
        sender::pending(self.sender, &self.marks).unwrap_or(0)
    }

    // A burst of up to `room` pieces of at most `max` bytes, as the boat in slot 0 sends them: its flags are those of the pieces, 0.
    pub fn burst(&mut self, id: u32, max: usize, room: usize) -> Burst {
        let mut out = [0u32; 8192];
        let n = taking::take(
            &mut self.sender,
            &self.bytes,
            &mut self.marks,
            max,
            room,
            &mut out,
        )
        .unwrap_or(0);
        let mut burst = Burst::new();
        let _ = burst.try_push(head(id));
        let _ = burst.try_extend_from_slice(&out[..n.min(out.len())]);
        burst
    }

    // The burst got no answer.
    pub fn stale(&mut self) {
        let _ = sender::stale(self.sender, &mut self.marks);
    }

    // Each of the first six frames of the burst whose bit is set is acknowledged. (No message has a number of 256 or above.)
    pub fn acked(&mut self, bits: u32, burst: &[u32]) {
        let (_head, frames) = burst.split_at(burst.len().min(1));
        let mut bits = bits;
        for frame in Frames(frames).take(6) {
            if bits % 2 == 1 {
                self.ack(frame);
            }
            bits /= 2;
        }
    }

    // The piece in the frame is acknowledged: its field is behind the frame's first word.
    fn ack(&mut self, frame: &[u32]) {
        let field = frame.get(1).copied().unwrap_or(0) % 16777216;
        let _ = leave::ack(
            &mut self.sender,
            &mut self.bytes,
            &mut self.marks,
            field / 65536,
            (field % 65536) as usize,
        );
    }
}
