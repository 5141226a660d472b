// A call: seven bytes, padded right, packed as five.
ghost use Rattle.std.specs.Prelude.{◌≡◌, [], ◌<◌};
ghost use Rattle.wire.specs.Call.{digit, char, packed, pack_call, bytes_of, number_of, unpacked, unpack_call, chars, shifted, key_of};

pub fn pack_call(call: [u8; 7]) -> [u8; 5]
    ensures { result ≡ pack_call call }
{
    bytes_of(number_of(call))
}

pub fn unpack_call(b: [u8; 5]) -> [u8; 7]
    ensures { result ≡ unpack_call b }
{
    unpack_number(number_from(b))
}

// The number of a call.
pub fn number_of(call: [u8; 7]) -> u64
    ensures { result ≡ packed call }
{
    let mut v = 0;
    for &c in &call {
        v = v * 38 + digit_of(c);
    }
    v
}

// The call of a number: its seven characters, then those from the first that is no space on, padded right.
pub fn unpack_number(v: u64) -> [u8; 7]
    ensures { result ≡ unpacked v }
{
    let mut c = chars_of(v);
    for _ in 0..7usize {
        shift(&mut c);
    }
    c
}

// A number as five bytes, the lowest first.
pub fn bytes_of(v: u64) -> [u8; 5]
    ensures { result ≡ bytes_of 5 v }
{
    let [a, b, c, d, e, _, _, _] = v.to_le_bytes();
    [a, b, c, d, e]
}

// Five bytes, the lowest first, as a number.
pub fn number_from(b: [u8; 5]) -> u64
    ensures { result ≡ number_of b }
{
    u64::from_le_bytes([b[0], b[1], b[2], b[3], b[4], 0, 0, 0])
}

// Seven bytes as one number: equal exactly where the calls are.
pub fn key_of(c: [u8; 7]) -> u64
    ensures { result ≡ key_of c }
{
    u64::from_le_bytes([c[0], c[1], c[2], c[3], c[4], c[5], c[6], 0])
}

// The value of a character; a small letter counts as its capital, and any other byte as a space.
#[tactic(auto, using(std::proofs::lemmas::Bool::Decides::nat_tests), unfolding(crate::specs::Call::digit))]
fn digit_of(c: u8) -> u64
    ensures { (result ≡ digit c) × (result < 38) }
{
    match c {
        b'0'..=b'9' => u64::from(c) - 47,
        b'A'..=b'Z' => u64::from(c) - 54,
        b'a'..=b'z' => u64::from(c) - 86,
        b'/' => 37,
        _ => 0,
    }
}

// The character of a value.
#[tactic(auto, using(std::proofs::lemmas::Bool::Decides::nat_tests), unfolding(crate::specs::Call::char))]
fn char_of(d: u64) -> u8
    requires { d < 38 }
    ensures { result ≡ char d }
{
    match d {
        0 => b' ',
        1..=10 => (d + 47) as u8,
        11..=36 => (d + 54) as u8,
        _ => b'/',
    }
}

// The seven characters of a number, the highest first.
fn chars_of(v: u64) -> [u8; 7]
    ensures { result ≡ chars 7 v [] }
{
    let mut c = [b' '; 7];
    let mut v = v;
    for k in (0..7).rev() {
        c[k] = char_of(v % 38);
        v /= 38;
    }
    c
}

// One place to the left, where the first is a space.
fn shift(c: &mut [u8; 7])
    ensures { c.new ≡ shifted c.old }
{
    if c[0] == b' ' {
        c.rotate_left(1);
    }
}
