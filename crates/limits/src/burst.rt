// Stations and bursts for the cases.
use arrayvec::ArrayVec;
use net::Station;
use out::Output;

// A station of `tape`'s settings over the whole store.
pub fn fresh(store: &[u8]) -> Station {
    let r = station::start(preset::blank(), preset::tape_settings(), store);
    r.station
}

// The station with the boat of call number 2,560 + k: three characters, so that no two are alike.
pub fn with_boat(s: Station, k: u8, out: &mut [u32]) -> Station {
    let r = station::admit(s, [k, 10, 0, 0, 0], 63, 0.0, out);
    r.station
}

// The next decision and the end of its sending.
pub fn turned(s: Station, time: f64, out: &mut [u32]) -> Station {
    let queue = [0u8; 126976];
    let r = station::next(s, time, &queue, out);
    let u = r.station;
    let q = station::sent(u, time);
    q.station
}

// Word 8: code 0, burst 0.
pub const HEAD: u32 = 0x8000_0000;

// A burst of one frame from the boat in slot 0, a piece of its message with this number at offset 0: words 8, 10 and 11, and 85 words 12 at most.
pub fn piece(number: u32, payload: &[u8]) -> ArrayVec<u32, 88> {
    let mut words = [0u32; 88];
    let mut o = Output {
        words: &mut words,
        at: 0,
    };
    o.word(HEAD);
    o.frame(0, number % 256 * 65536, payload, payload.len());
    let n = o.at;
    let mut burst = ArrayVec::from(words);
    burst.truncate(n);
    burst
}
