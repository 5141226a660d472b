// The eight messages.
use arrayvec::ArrayVec;

// How many bytes message k has.
fn size(k: u32) -> usize {
    match k {
        0 => 0,
        1 => 1,
        2 => 253,
        3 => 254,
        4 => 700,
        5 => 1300,
        6 => 2045,
        _ => 2046,
    }
}

// Byte i of message k.
fn byte(k: u32, i: usize) -> u8 {
    let a = (k % 8) as usize;
    ((a * 37 + i % 65536 * 7 + i % 65536 / 256 + 11) % 256) as u8
}

pub fn bytes(k: u32) -> ArrayVec<u8, 2046> {
    let mut bytes = ArrayVec::new();
    for i in 0..size(k) {
        let _ = bytes.try_push(byte(k, i));
    }
    bytes
}

// m is message k.
pub fn is(m: &[u8], k: u32) -> bool {
    m.len() == size(k) && m.iter().enumerate().all(|(i, b)| *b == byte(k, i))
}
