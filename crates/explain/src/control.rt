// A control frame of a burst, from its payload.
ghost use Rattle.std.specs.Prelude.{◌<◌};

use super::call::{Call, visible};
use super::names::Names;
use super::parts::{Heard, Marks, Raw};
use std::fmt;

#[derive(Clone, Copy)]
pub struct Control<'a> {
    pub names: &'a Names,
    pub payload: &'a [u8],
}

// What the entries of a list are.
#[derive(Clone, Copy)]
enum List {
    Hearing,
    Overheard,
    Members,
    Received,
    Tree,
    Children,
}

impl List {
    // How many bytes an entry takes.
    fn size(self) -> usize
        ensures { 0 < result }
    {
        match self {
            List::Overheard => 8,
            List::Members => 6,
            List::Received => 3,
            List::Hearing | List::Tree | List::Children => 2,
        }
    }

    fn title(self) -> &'static str {
        match self {
            List::Hearing => ", hears:",
            List::Overheard => "overheard:",
            List::Members => "members:",
            List::Received => "received:",
            List::Tree => "tree:",
            List::Children => "children:",
        }
    }
}

impl Control<'_> {
    // An entry of so many bytes.
    fn entry<W: fmt::Write>(
        &self,
        f: &mut fmt::Formatter<W>,
        list: List,
        bytes: &[u8],
    ) -> fmt::Result {
        match (list, bytes) {
            // A call that asks in, the level field at which it was heard, capability and version.
            (List::Overheard, [a, b, c, d, e, level, _, _]) => {
                let call = Call::unpack([*a, *b, *c, *d, *e]);
                write!(f, " \"{call}\" {}", Heard(*level))
            }
            (List::Members, [slot, a, b, c, d, e]) => {
                let call = Call::unpack([*a, *b, *c, *d, *e]);
                write!(f, " slot {slot} is \"{call}\"")
            }
            // The first message that is missing, and which of the eight after it are there.
            (List::Received, [slot, first, after]) => {
                let slot = self.names.slot(u32::from(*slot));
                write!(f, " slot {slot} wants {first} after it {}", Marks(*after))
            }
            (_, [slot, how]) => self.pair(f, list, *slot, *how),
            _ => Ok(()),
        }
    }

    // An entry of two bytes.
    fn pair<W: fmt::Write>(
        &self,
        f: &mut fmt::Formatter<W>,
        list: List,
        slot: u8,
        how: u8,
    ) -> fmt::Result {
        let slot = self.names.slot(u32::from(slot));
        match list {
            // A leaf and its relay.
            List::Tree => {
                let route = self.names.route(u32::from(how));
                write!(f, " slot {slot} {route}")
            }
            // A boat relayed by the sender, and from 128 on the level at which it answered.
            List::Children if how < 128 => write!(f, " slot {slot} did not answer"),
            // A boat that the sender hears, and how.
            _ => write!(f, " slot {slot} {}", Heard(how)),
        }
    }

    // The entries, a comma between two.
    fn entries<W: fmt::Write>(
        &self,
        f: &mut fmt::Formatter<W>,
        list: List,
        bytes: &[u8],
    ) -> fmt::Result {
        f.write_str(list.title())?;
        for (k, entry) in bytes.chunks_exact(list.size()).enumerate() {
            if 0 < k {
                f.write_char(',')?;
            }
            self.entry(f, list, entry)?;
        }
        Ok(())
    }

    // A call, the net's name, whether it is open, how many check-in slots, and as far as it says so when the first begins and how long one is, two bytes each,
    // lowest first.
    fn beacon<W: fmt::Write>(&self, f: &mut fmt::Formatter<W>) -> fmt::Result {
        let [_, a, b, c, d, e, name @ ..] = self.payload else {
            return self.raw(f);
        };
        let Some((name, [open, slots, timing @ ..])) = name.split_at_checked(6) else {
            return self.raw(f);
        };
        let call = Call::unpack([*a, *b, *c, *d, *e]);
        write!(f, "beacon of \"{call}\", net ")?;
        for character in name {
            f.write_char(char::from(visible(*character)))?;
        }
        let open = if *open == 0 { "closed" } else { "open" };
        write!(f, ", {open}, check-in slots {slots}")?;
        if let [a, b, c, d, ..] = timing {
            let first = u16::from_le_bytes([*a, *b]);
            let each = u16::from_le_bytes([*c, *d]);
            write!(f, ", the first after {first} ms, each of {each} ms")?;
        }
        Ok(())
    }

    // Twelve bytes, then two for each boat that it hears.
    fn report<W: fmt::Write>(&self, f: &mut fmt::Formatter<W>) -> fmt::Result {
        let [_, slot, level, x, y, z, _, _, _, a, b, c, heard @ ..] = self.payload else {
            return self.raw(f);
        };
        let slot = self.names.slot(u32::from(*slot));
        write!(f, "report of slot {slot}, hears us {}", Heard(*level))?;
        if [*x, *y, *z] != [0, 0, 0] {
            f.write_str(", has bytes to send")?;
        }
        let held = u32::from_le_bytes([*a, *b, *c, 0]);
        if held != 0 {
            write!(f, ", holds {held} bytes of ours")?;
        }
        if heard.len() < 2 {
            return Ok(());
        }
        self.entries(f, List::Hearing, heard)
    }

    fn checkin<W: fmt::Write>(&self, f: &mut fmt::Formatter<W>) -> fmt::Result {
        let [_, a, b, c, d, e, level, ..] = self.payload else {
            return self.raw(f);
        };
        let call = Call::unpack([*a, *b, *c, *d, *e]);
        write!(f, "check-in of \"{call}\", hears us {}", Heard(*level))
    }

    // One that is too short for what it is to say, or of no kind.
    fn raw<W: fmt::Write>(&self, f: &mut fmt::Formatter<W>) -> fmt::Result {
        write!(f, "{}", Raw(self.payload))
    }
}

impl fmt::Display for Control<'_> {
    fn fmt<W: fmt::Write>(&self, f: &mut fmt::Formatter<W>) -> fmt::Result {
        match self.payload {
            [wire::C_BEACON, ..] => self.beacon(f),
            [wire::C_CHECKIN, ..] => self.checkin(f),
            [wire::C_REPORT, ..] => self.report(f),
            [wire::C_OVERHEARD, calls @ ..] => self.entries(f, List::Overheard, calls),
            [wire::C_ACKS, members @ ..] => self.entries(f, List::Members, members),
            [wire::C_RXLIST, boats @ ..] => self.entries(f, List::Received, boats),
            [wire::C_TREE, leaves @ ..] => self.entries(f, List::Tree, leaves),
            [wire::C_KIDS, boats @ ..] => self.entries(f, List::Children, boats),
            _ => self.raw(f),
        }
    }
}
