// Word back to a boat (direct_burst and down_burst of ncs.rs; request U1), from the directed queue that is lent.
ghost use Rattle.std.specs.Prelude.{◌≡◌, ◌%◌, ◌<◌, ◌≤◌};
ghost use Rattle.out.specs.Outputs.{Writes};
ghost use Rattle.net.specs.Net.{Does};
ghost use Rattle.bursts.specs.Direct.{room_at, payload_at, down_frame, down_frames, down_burst, direct_burst};

use net::{Settings, Station};
use out::Output;
use queue::Queue;
use words::least;

// ---- down_burst

// A frame of n bytes of the slot's stream, from byte k on.
fn put_down(o: &mut Output, queue: &[u8], slot: u8, k: usize, n: usize)
    requires { (n ≤ 255) × (k < 4294967296) }
    ensures { Writes o.old (down_frame queue.now slot k n) o.new }
{
    let p = queue::bytes_from(queue, slot, k, n);
    o.frame(64 + slot % 64, (k % 16777216) as u32, &p, n);
}

// The bytes from `from` on up to `last`, in `room` frames at most of `max` bytes each.
fn put_downs(o: &mut Output, queue: &[u8], slot: u8, room: usize, max: usize, last: u32, from: u32)
    requires { max ≤ 255 }
    ensures { Writes o.old (down_frames room queue.now slot max last from) o.new }
{
    let end = last as usize;
    let mut k = from as usize;
    for _ in 0..room {
        if end <= k {
            return;
        }
        put_down(o, queue, slot, k, least(max, end - k));
        k += max;
    }
}

// (Level 17 is none: it has no room.)
fn room_at(g: Settings, level: usize) -> usize
    ensures { result ≡ room_at g level }
{
    let rs = g.rooms;
    least(usize::from(rs.get(level).copied().unwrap_or(0)), 64)
}

fn payload_at(g: Settings, level: usize) -> usize
    ensures { result ≡ payload_at g level }
{
    let ps = g.payloads;
    least(usize::from(ps.get(level).copied().unwrap_or(0)), 255)
}

fn down_burst(g: Settings, queue: &[u8], slot: u8, q: Queue, level: u32, o: &mut Output)
    ensures { Writes o.old (down_burst g queue.now slot q level) o.new }
{
    o.head(level, 0, 0, level);
    let l = level as usize;
    let first = queue::first(q);
    put_downs(
        o,
        queue,
        slot,
        room_at(g, l),
        payload_at(g, l),
        q.posted,
        first,
    );
}

// ---- direct_burst

// Word to the boat in the slot, which is then sent to in this round.
// (A slot below 62: its member and its queue are read where they stand; values for the slots past them would serve nobody.)
pub fn direct_burst(mut s: Station, slot: u8, queue: &[u8], o: &mut Output) -> Station
    requires { slot < 62 }
    ensures { Does (direct_burst s queue.now slot) result o.old o.new }
{
    let g = s.settings;
    let i = usize::from(slot);
    let q = s.queues[i];
    let m = s.members[i];
    let p = net::member_at(s, m.via);
    let level = super::rows::reach_level(g, s.used, m, p);
    down_burst(g, queue, slot, q, level, o);
    let w = s.wait;
    let v = net::sending(w);
    s.wait = v;
    s.round.traffic = true;
    let k = queue::sent_in(q, s.round.number);
    s.queues[i] = k;
    s
}
