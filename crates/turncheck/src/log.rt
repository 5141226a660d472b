// A log as it is read.
use arrayvec::ArrayVec;
use out::Output;

// More words than this are too long for a log.
pub const MOST: usize = 262144;

// Its words, in memory that is lent, since a struct that holds a megabyte would be copied where it is made, and has room for MOST and one more; and of the
// line that is being read the first bytes: with nine it is no word.
#[derive(Drop)]
pub struct Log<'a> {
    kept: Output<'a>,
    line: ArrayVec<u8, 9>,
}

impl<'a> Log<'a> {
    pub fn new(memory: &'a mut [u32; MOST + 1]) -> Log<'a> {
        Log {
            kept: Output {
                words: memory,
                at: 0,
            },
            line: ArrayVec::new(),
        }
    }

    // Bytes of a line.
    pub fn bytes(&mut self, bytes: &[u8]) {
        let room = self.line.remaining_capacity();
        let _ = self
            .line
            .try_extend_from_slice(&bytes[..bytes.len().min(room)]);
    }

    // The line's end: one that isn't eight hexadecimal digits counts as a malformed word. Answers whether the line has a byte.
    pub fn line_end(&mut self) -> bool {
        if self.line.is_empty() {
            return false;
        }
        self.kept.word(text::hex_word(&self.line).unwrap_or(0));
        self.line.clear();
        true
    }

    pub fn words(&self) -> &[u32] {
        let n = self.kept.at.min(self.kept.words.len());
        &self.kept.words[..n]
    }

    pub fn is_empty(&self) -> bool {
        self.kept.at == 0
    }

    pub fn is_too_long(&self) -> bool {
        MOST < self.kept.at
    }

    pub fn clear(&mut self) {
        self.kept.at = 0;
    }
}
