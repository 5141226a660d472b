// Words of a tape or a script: commands, clocks, levels.
use super::parts::Fixed;
use super::word::Word;
use std::fmt;

impl Word<'_> {
    // Bits 3-0 say which command.
    pub fn command<W: fmt::Write>(&self, f: &mut fmt::Formatter<W>) -> fmt::Result {
        let rest = self.word / 16 % 16777216;
        f.write_str("command: ")?;
        match self.word % 16 {
            0 => write!(f, "next decision"),
            1 => write!(f, "end of a sending"),
            2 => write!(f, "receive the burst that follows"),
            3 => write!(f, "admit the call that follows"),
            4 => write!(f, "close with closing bursts: {rest}"),
            5 => write!(f, "read cell {rest}"),
            6 => write!(f, "free cell {rest}"),
            7 => write!(f, "show the roster"),
            8 => write!(f, "start with the settings that follow"),
            9 => write!(f, "set the clock that follows"),
            10 => write!(f, "set the level that follows"),
            11 => write!(f, "hold the durations of data bursts that follow"),
            12 => write!(f, "hold the largest payloads that follow"),
            13 => write!(f, "post the message that follows"),
            14 => write!(f, "sign off slot {}", self.names.slot(rest)),
            _ => self.question(f),
        }
    }

    // A question of `panel`.
    fn question<W: fmt::Write>(&self, f: &mut fmt::Formatter<W>) -> fmt::Result {
        let kind = self.word / 16 % 16;
        let slot = self.wide_slot(8);
        match kind {
            0 => write!(f, "how many boats are silent"),
            1 => write!(f, "show slot {slot}"),
            2 => {
                let other = self.wide_slot(16);
                write!(f, "at which level slot {slot} hears slot {other}")
            }
            3 => write!(f, "the dues of the figures that follow"),
            4 => write!(f, "the worst level of slot {slot}"),
            5 => {
                let count = self.word / 65536 % 4096;
                write!(
                    f,
                    "post messages of 2,046 zeros, so many: {count}, to slot {slot}"
                )
            }
            _ => write!(f, "no question of the panel's, {kind}"),
        }
    }

    // Eighths of a second.
    pub fn clock<W: fmt::Write>(&self, f: &mut fmt::Formatter<W>) -> fmt::Result {
        let eighths = self.word % 268435456;
        let seconds = Fixed {
            whole: eighths / 8,
            behind: eighths % 8 * 125,
        };
        write!(f, "clock: {seconds} s")
    }

    // Quarter decibels plus 800.
    pub fn level<W: fmt::Write>(&self, f: &mut fmt::Formatter<W>) -> fmt::Result {
        let raised = self.word % 268435456;
        let sign = if raised < 800 { "-" } else { "" };
        let quarters = raised.abs_diff(800);
        let decibels = Fixed {
            whole: quarters / 4,
            behind: quarters % 4 * 25,
        };
        write!(f, "level: {sign}{decibels} dB")
    }
}
