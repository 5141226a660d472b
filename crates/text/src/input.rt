// Standard input: in parts as large as the buffer that is lent for them, in lines, and in parts of lines.
ghost use Rattle.std.specs.Prelude.{◌≡◌, ◌≢◌, ℕ, true, List, ◌++◌, ◌<◌, ◌≤◌, ◌↔◌, All, Ok, length, take, IsTrue, IfOk, IfErr, vec_len};
ghost use Rattle.std.specs.Io.{StopsAt};
ghost use Rattle.std.specs.Io.KnownBytes.{Consumes};
ghost use Rattle.std.specs.IoError.{error_kind};

use std::alloc::AllocError;
use std::io::{self, BufRead, ErrorKind, Read, Stdin};

// Reads until b is full, the input ends or a read fails, and answers how many bytes it put at the start of b.
// (No `read_exact`: where the input ends before b is full, it does not say how much of b is filled.)
pub fn read_full(mut from: Stdin, b: &mut [u8]) -> usize
    ensures { result ≤ length b.new }
{
    let mut done = 0;
    while done < b.len() {
        let n = from.read(&mut b[done..]).unwrap_or(0);
        if n == 0 {
            break;
        }
        done += n;
    }
    done
}

// Reads the next line, with its line feed, in place of what `line` held; one that the input's end or a failed read cuts short has none.
// Answers whether there is a byte.
pub fn read_line<R: BufRead>(from: &mut R, line: &mut Vec<u8>) -> io::Result<bool>
    ensures taken { Consumes (R.remaining from.old) (R.remaining from.new) line.new.items }
    ensures stops { StopsAt line.new.items 10 }
    ensures any { IfOk result (λ any. IsTrue any ↔ (0 < vec_len line.new)) }
    ensures err { IfErr result (λ e. error_kind e ≡ ErrorKind.OutOfMemory) }
{
    Ok(read_part(from, line, usize::MAX)?)
}

// Reads as `read_line` does, but `most` bytes at most: of a longer line the next call reads on. So a part that is shorter and has no line feed is the last.
pub fn read_part<R: BufRead>(
    from: &mut R,
    line: &mut Vec<u8>,
    most: usize,
) -> Result<bool, AllocError>
    ensures taken { Consumes (R.remaining from.old) (R.remaining from.new) line.new.items }
    ensures stops { StopsAt line.new.items 10 }
    ensures most { vec_len line.new ≤ most }
    ensures any { IfOk result (λ any. IsTrue any ↔ (0 < vec_len line.new)) }
{
    line.clear();
    while line.len() < most {
        if !append_held(from, line, most - line.len())? {
            break;
        }
    }
    Ok(!line.is_empty())
}

// Appends what the reader holds of a line, with its line feed, `most` bytes at most. Answers whether the line goes on: it doesn't behind its line feed, at the
// input's end and where a read fails. (No `read_until`, which has no bound and goes on where a signal makes a read fail.)
fn append_held<R: BufRead>(
    from: &mut R,
    line: &mut Vec<u8>,
    most: usize,
) -> Result<bool, AllocError>
    ensures { (bs : List ℕ) × (line.new.items ≡ line.old.items ++ bs) × (length bs ≤ most) × Consumes (R.remaining from.old) (R.remaining from.new) bs
        × StopsAt bs 10 × (result ≡ Ok true → (0 < length bs) × All (λ x. x ≢ 10) bs) }
{
    let Ok(held) = from.fill_buf() else {
        return Ok(false);
    };
    let held = &held[..held.len().min(most)];
    let before = len_before(held);
    let end = held.len().min(before + 1);
    line.extend_from_slice(&held[..end])?;
    let goes_on = 0 < before && before == held.len();
    from.consume(end);
    Ok(goes_on)
}

// How many bytes stand before the first line feed, or in all.
fn len_before(bytes: &[u8]) -> usize
    ensures within { result ≤ length bytes.now }
    ensures before { All (λ b. b ≢ 10) (take result bytes.now) }
{
    bytes
        .iter()
        .position(|b| *b == b'\n')
        .unwrap_or(bytes.len())
}

#[cfg(test)]
mod tests {
    use super::*;
    use std::test::Fail;

    #[test]
    fn lines(rt: HostRuntime) -> Result<(), Fail> {
        let mut from: &[u8] = b"12\n\n345";
        let mut line = Vec::new(rt.alloc());
        for want in ["12\n", "\n", "345"] {
            assert!(rt; read_line(&mut from, &mut line)?);
            assert_eq!(rt; line.as_slice(), want.as_bytes());
        }
        assert!(rt; !read_line(&mut from, &mut line)?);
        Ok(())
    }

    // A read fails where its bytes end.
    #[derive(Drop)]
    struct Broken<'a>(&'a [u8]);

    impl Read for Broken<'_> {
        fn read(&mut self, _into: &mut [u8]) -> io::Result<usize> {
            Err(io::Error::from(ErrorKind::Interrupted))
        }
    }

    impl BufRead for Broken<'_> {
        fn fill_buf(&mut self) -> io::Result<&[u8]> {
            if self.0.is_empty() {
                return Err(io::Error::from(ErrorKind::Interrupted));
            }
            Ok(self.0)
        }

        fn consume(&mut self, amount: usize) {
            self.0 = &self.0[amount.min(self.0.len())..];
        }
    }

    #[test]
    fn failed_reads(rt: HostRuntime) -> Result<(), Fail> {
        let mut from = Broken(b"12\n34");
        let mut line = Vec::new(rt.alloc());
        for want in ["12\n", "34"] {
            assert!(rt; read_line(&mut from, &mut line)?);
            assert_eq!(rt; line.as_slice(), want.as_bytes());
        }
        assert!(rt; !read_line(&mut from, &mut line)?);
        Ok(())
    }

    #[test]
    fn parts(rt: HostRuntime) -> Result<(), Fail> {
        let mut from: &[u8] = b"12\n345\n6789ab";
        let mut part = Vec::new(rt.alloc());
        for want in ["12\n", "345", "\n", "678", "9ab"] {
            assert!(rt; read_part(&mut from, &mut part, 3)?);
            assert_eq!(rt; part.as_slice(), want.as_bytes());
        }
        assert!(rt; !read_part(&mut from, &mut part, 3)?);
        Ok(())
    }
}
