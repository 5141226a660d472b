// What goes on the air (wire.rs): calls, message numbers, level fields, the capability byte.
#![tactic(auto)]

ghost use Rattle.std.specs.Prelude.{◌≡◌};
ghost use Rattle.wire.specs.Fields.{field_db, snr_from_q, caps_of, relays};

use level::Level;

pub mod calls;
pub mod number;

// The slot that means everyone, or nobody.
pub const ALL: u8 = 63;

// The level field of a boat that measured nothing; in the table of who hears whom: not heard.
pub const UNHEARD: u8 = 63;

// The code of a header-only message.
pub const TINY: u32 = 62;

// The codes below are constants and no enums: they are built into words by sums and told apart in bits of any value that comes on the air,
// most of which no code has, so an enum would only be turned from and to a number at each place.

// Frame types: the top two bits of a frame's flags.
pub const T_UP: u32 = 0;

pub const T_DOWN: u32 = 1;

pub const T_CTRL: u32 = 2;

// Control frames: their first payload byte.
pub const C_BEACON: u8 = 1;

pub const C_CHECKIN: u8 = 2;

pub const C_REPORT: u8 = 3;

pub const C_OVERHEARD: u8 = 4;

pub const C_ACKS: u8 = 5;

pub const C_RXLIST: u8 = 6;

pub const C_TREE: u8 = 8;

pub const C_KIDS: u8 = 10;

// Header-only messages: the high nibble of a burst's head.
pub const K_POLL: u32 = 1;

pub const K_POLLACK: u32 = 2;

pub const K_ACK: u32 = 3;

pub const K_IDLE: u32 = 4;

pub const K_RELAY: u32 = 5;

pub const K_CLOSE: u32 = 6;

pub const K_SUBPOLL: u32 = 7;

pub const K_SUBACK: u32 = 8;

// The bit of the high nibble of a burst that does not answer a poll.
pub const ASIDE: u32 = 8;

// The decibels of a level field: its low six bits less 24.
pub fn field_db(q: u8) -> f32
    ensures { result ≡ field_db q }
{
    (q % 64) as f32 - 24.0
}

// The level that a field says.
pub fn snr_from_q(q: u8) -> Level
    ensures { result ≡ snr_from_q q }
{
    if q % 64 == UNHEARD {
        return Level::Unheard;
    }
    Level::Decibels(field_db(q))
}

// Caps::from_byte: qsy 1, wide 2, relay 4, attended 8, chorus 16; the other bits are dropped.
pub fn caps_of(b: u8) -> u8
    ensures { result ≡ caps_of b }
{
    b % 32
}

// Whether the station is willing to relay for others.
pub fn relays(caps: u8) -> bool
    ensures { result ≡ relays caps }
{
    caps / 4 % 2 == 1
}
