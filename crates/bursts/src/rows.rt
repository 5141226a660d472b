// What bursts say of the members: rows of bytes, and the level that the weakest of them can hear. The station is only read.
ghost use Rattle.std.specs.Prelude.{◌≡◌, [], ◌∷◌, ◌++◌, ◌+◌, ◌≤◌, ◌%◌};
ghost use Rattle.arrayvec.specs.ArrayVec.{array_vec_len};
ghost use Rattle.wire.specs.Call.{pack_call};
ghost use Rattle.stream.specs.Window.{bitmap_of};
ghost use Rattle.bursts.specs.Bursts.{beacon_rows};
ghost use Rattle.bursts.specs.Rows.{ack_rows, ack_rows_on, tree_rows, list_rows, any_holes, least_if, or_floor, reach_by, least_reach, least_direct};

use arrayvec::ArrayVec;
use net::{Settings, Station};
use roster::Member;
use stream::window;

// The rows of 62 slots, of six bytes at most.
pub type Rows = ArrayVec<u8, 372>;

// Six bytes: the slot and its packed call.
fn ack_row<const N: usize>(rows: &mut ArrayVec<u8, N>, m: Member, i: u8)
    requires { array_vec_len rows.old + 6 ≤ N }
    ensures { rows.new.items ≡ rows.old.items ++ i ∷ pack_call m.call }
{
    rows.push(i);
    for &b in &wire::calls::pack_call(m.call) {
        rows.push(b);
    }
}

// The entries of ack_frames behind those that are there: slot and call of the members in the mask, `most` rows in all.
fn ack_rows_on<const N: usize>(s: Station, mask: u64, most: usize, rows: &mut ArrayVec<u8, N>)
    requires { array_vec_len rows.old + 372 ≤ N }
    ensures { rows.new.items ≡ ack_rows_on s mask most rows.old.items }
{
    let ms = s.members;
    for i in 0..62 {
        if bits::has(mask, i) & (rows.len() / 6 < most) {
            ack_row(rows, ms[i], i as u8);
        }
    }
}

pub fn ack_rows(s: Station, mask: u64) -> Rows
    ensures { result.items ≡ ack_rows s mask 62 }
{
    let mut rows = Rows::new();
    ack_rows_on(s, mask, 62, &mut rows);
    rows
}

// Who the beacon lists: boats waiting for acknowledgement first, then others, nine in all.
pub fn beacon_rows(s: Station) -> ArrayVec<u8, 744>
    ensures { result.items ≡ beacon_rows s }
{
    let waiting = bits::both(s.round.toack, net::members(s.used));
    let others = bits::minus(s.used, s.round.toack);
    let mut rows = ArrayVec::new();
    ack_rows_on(s, waiting, 9, &mut rows);
    ack_rows_on(s, others, 9, &mut rows);
    rows
}

// The pairs of C_TREE, a leaf and its relay: those in the mask that have a relay or are in `moved`.
pub fn tree_rows(s: Station, mask: u64, moved: u64) -> Rows
    ensures { result.items ≡ tree_rows s mask moved }
{
    let ms = s.members;
    let mut rows = Rows::new();
    for i in 0..62 {
        let via = ms[i].via;
        if bits::has(mask, i) & ((via != wire::ALL) | bits::has(moved, i)) {
            rows.push(i as u8);
            rows.push(via);
        }
    }
    rows
}

// The entries of the received list, three bytes each: the slot, the first message that is missing (mod 256) and which of the eight after
// it are there.
pub fn list_rows(s: Station) -> Rows
    ensures { result.items ≡ list_rows s }
{
    let ms = s.members;
    let mut rows = Rows::new();
    for i in 0..62 {
        let m = ms[i];
        if bits::has(s.used, i) & roster::is_news(m) {
            let w = m.up;
            rows.push(i as u8);
            rows.push((w.next % 256) as u8);
            rows.push(window::bitmap(w));
        }
    }
    rows
}

// Some member has whole messages past one that is missing.
pub fn any_holes(s: Station) -> bool
    ensures { result ≡ any_holes s }
{
    let ms = s.members;
    for i in 0..62 {
        let m = ms[i];
        let w = m.up;
        if bits::has(s.used, i) & window::holes(w) {
            return true;
        }
    }
    false
}

// The least of two levels, where the second counts.
fn least_if(a: u32, counts: bool, b: u32) -> u32
    ensures { result ≡ least_if a counts b }
{
    if counts { a.min(b) } else { a }
}

// The floor where there is none.
fn or_floor(lev: u32) -> u32
    ensures { result ≡ or_floor lev }
{
    if lev < 17 { lev } else { 0 }
}

// The level a burst for a member goes at: its own, or its relay's (p).
pub fn reach_level(g: Settings, used: u64, m: Member, p: Member) -> u32
    ensures { result ≡ reach_by g used m p }
{
    if net::is_member(used, m.via) {
        return net::down_level(g, p);
    }
    net::down_level(g, m)
}

// The level that the weakest member in the mask, or its relay, can hear.
pub fn least_reach(s: Station, mask: u64) -> u32
    ensures { result ≡ least_reach s mask }
{
    let ms = s.members;
    let g = s.settings;
    let mut lev: u32 = 17;
    for i in 0..62 {
        let m = ms[i];
        let v = net::index(m.via);
        let p = ms[v];
        lev = least_if(lev, bits::has(mask, i), reach_level(g, s.used, m, p));
    }
    or_floor(lev)
}

// The level that the weakest member polled directly can hear.
pub fn least_direct(s: Station) -> u32
    ensures { result ≡ least_direct s }
{
    let ms = s.members;
    let g = s.settings;
    let mut lev: u32 = 17;
    for i in 0..62 {
        let m = ms[i];
        let counts = bits::has(s.used, i) & roster::is_direct(m, g.misslimit);
        lev = least_if(lev, counts, net::down_level(g, m));
    }
    or_floor(lev)
}
