// What the program prints.
use std::fmt;

// A message that has landed.
#[derive(Clone, Copy, Debug, PartialEq, Eq)]
pub struct Landed {
    pub number: u32,
    pub cell: usize,
    pub size: usize,
    pub same: bool,
}

impl fmt::Display for Landed {
    fn fmt<W: fmt::Write>(&self, f: &mut fmt::Formatter<W>) -> fmt::Result {
        let is = if self.same { "those" } else { "NOT those" };
        write!(
            f,
            "message {} has landed in cell {}: {} bytes, {is} that were posted",
            self.number, self.cell, self.size
        )
    }
}

// What the run counted, and the bytes that the sending end has left.
#[derive(Clone, Copy, Debug, Default, PartialEq, Eq)]
pub struct Counts {
    pub landed: usize,
    pub pending: usize,
    pub bursts: u32,
    pub gone: u32,
    pub late: u32,
    pub twice: u32,
    pub lost: usize,
}

impl fmt::Display for Counts {
    fn fmt<W: fmt::Write>(&self, f: &mut fmt::Formatter<W>) -> fmt::Result {
        writeln!(f, "{} messages have landed", self.landed)?;
        writeln!(
            f,
            "the sending end has {} bytes left to send or in flight",
            self.pending
        )?;
        writeln!(f, "it sent {} bursts of at most nine pieces", self.bursts)?;
        writeln!(f, "{} of them were lost whole", self.gone)?;
        writeln!(f, "{} times the burst before came behind it", self.late)?;
        writeln!(f, "{} came twice", self.twice)?;
        writeln!(f, "{} frames were lost in the others", self.lost)
    }
}
