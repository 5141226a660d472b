// A line `R ` and a message's bytes in hexadecimal digits: the bytes as text, one that no line can show as a backslash and its digits.
use crate::Said;

// A byte from its digits, which stand behind a backslash where it is no character, or is one that would be taken for an end.
fn pair(high: u8, low: u8, said: &mut Said) {
    let b = (text::hex_value(&[high, low]).unwrap_or(0) % 256) as u8;
    match b {
        b' '..=b'~' if b != b'"' && b != b'\\' => {
            let _ = said.try_push(b);
        }
        _ => {
            let digits = [b'\\', high.to_ascii_uppercase(), low.to_ascii_uppercase()];
            let _ = said.try_extend_from_slice(&digits);
        }
    }
}

// A message that is being read: the first digit of a byte whose second is still to come.
#[derive(Clone, Copy)]
pub struct Message {
    first: Option<u8>,
}

impl Message {
    // A message may have no byte; a line where what is no digit stands behind the blank is no message.
    pub fn begins(behind: &[u8]) -> bool {
        behind.first().is_none_or(|b| b.is_ascii_hexdigit())
    }

    pub fn begin(said: &mut Said) -> Message {
        let _ = said.try_extend_from_slice(b"message: \"");
        Message { first: None }
    }

    fn digit(&mut self, digit: u8, said: &mut Said) {
        match self.first.take() {
            Some(first) => pair(first, digit, said),
            None => self.first = Some(digit),
        }
    }

    // The digits that a part begins with. Answers what stands behind them: what is no digit ends the message, and passes.
    pub fn part<'a>(&mut self, part: &'a [u8], said: &mut Said) -> &'a [u8] {
        let end = part.iter().position(|b| !b.is_ascii_hexdigit());
        let (digits, rest) = part.split_at(end.unwrap_or(part.len()));
        for digit in digits {
            self.digit(*digit, said);
        }
        rest
    }

    // A digit that is left over stands for itself.
    pub fn end(self, said: &mut Said) {
        if let Some(digit) = self.first {
            let _ = said.try_push(digit.to_ascii_uppercase());
        }
        let _ = said.try_push(b'"');
    }
}
