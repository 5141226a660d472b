// Numbers by chance, the same at each run: Park and Miller's generator, x to 48,271 x mod 2^31 - 1.

// Which call is made.
#[derive(Clone, Copy, Debug, PartialEq, Eq)]
pub enum Call {
    SignOff,
    Admit,
    NewBoat,
    Idle,
    Reply,
    Decide,
    Sent,
    Empty,
}

impl From<u32> for Call {
    fn from(number: u32) -> Call {
        match number % 16 {
            0 | 1 => Call::SignOff,
            2 | 3 => Call::Admit,
            4 => Call::NewBoat,
            5 => Call::Idle,
            6..=8 => Call::Reply,
            9..=11 => Call::Decide,
            12 | 13 => Call::Sent,
            _ => Call::Empty,
        }
    }
}

// A call, and whatever else it needs.
#[derive(Clone, Copy, Debug, PartialEq, Eq)]
pub struct Drawn {
    pub call: Call,
    pub a: u32,
    pub b: u32,
}

#[derive(Drop)]
pub struct Chance(pub u64);

impl Chance {
    // The higher bits of a number are the better ones.
    fn number(&mut self) -> u32 {
        self.0 = self.0 % 2147483647 * 48271 % 2147483647;
        (self.0 / 512 % 1048576) as u32
    }

    pub fn draw(&mut self) -> Drawn {
        Drawn {
            call: Call::from(self.number()),
            a: self.number(),
            b: self.number(),
        }
    }
}
