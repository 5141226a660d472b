// Small parts of a line.
use std::{array, fmt, str};

// ASCII characters at once: a call for each takes longer than all else in a line.
pub fn write_ascii<W: fmt::Write>(f: &mut fmt::Formatter<W>, text: &[u8]) -> fmt::Result {
    match str::from_utf8(text) {
        Ok(text) => f.write_str(text),
        Err(_) => Err(fmt::Error),
    }
}

// A level field: decibels plus 24 in the low six bits, 63 for nothing measured: a code on the air.
#[derive(Clone, Copy)]
pub struct Heard(pub u8);

impl fmt::Display for Heard {
    fn fmt<W: fmt::Write>(&self, f: &mut fmt::Formatter<W>) -> fmt::Result {
        let level = self.0 % 64;
        if level == wire::UNHEARD {
            return write!(f, "not measured");
        }
        let decibels = i32::from(level) - 24;
        write!(f, "at {decibels} dB")
    }
}

// The bits of a bitmap, the lowest first: x for one that is set.
#[derive(Clone, Copy)]
pub struct Marks(pub u8);

impl fmt::Display for Marks {
    fn fmt<W: fmt::Write>(&self, f: &mut fmt::Formatter<W>) -> fmt::Result {
        let marks: [u8; 8] = array::from_fn(|k| if self.0 >> k & 1 == 1 { b'x' } else { b'.' });
        write_ascii(f, &marks)
    }
}

// A number, and what stands behind its point.
#[derive(Clone, Copy)]
pub struct Fixed {
    pub whole: u32,
    pub behind: u32,
}

// What stands behind the point is left out where it is zero.
impl fmt::Display for Fixed {
    fn fmt<W: fmt::Write>(&self, f: &mut fmt::Formatter<W>) -> fmt::Result {
        let Fixed { whole, behind } = *self;
        if behind == 0 {
            return write!(f, "{whole}");
        }
        write!(f, "{whole}.{behind}")
    }
}

#[derive(Clone, Copy)]
pub struct Raw<'a>(pub &'a [u8]);

impl fmt::Display for Raw<'_> {
    fn fmt<W: fmt::Write>(&self, f: &mut fmt::Formatter<W>) -> fmt::Result {
        f.write_str("bytes")?;
        for b in self.0 {
            write!(f, " {b:02x}")?;
        }
        Ok(())
    }
}
