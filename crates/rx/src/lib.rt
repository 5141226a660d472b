// Reception (ncs_rx of ncs.rs): a tiny burst, or the frames one after the other, and then the reply.
#![tactic(auto)]

ghost use Rattle.std.specs.Prelude.{◌≡◌, true, ◌*◌, ◌<◌, ◌≤◌, length, Some};
ghost use Rattle.inbox.specs.Sizes.{cell_size};
ghost use Rattle.words.specs.Words.{parse, shape_of};
ghost use Rattle.rx.specs.Reception.{air_by, RxDoes, rx_of};
ghost use Rattle.rx.specs.Code.Reception.{head_for, many_of, burst_read};

use frames::payload::Payload;
use frames::{Air, control, pieces};
use net::{Station, Wait};
use out::Output;
use words::Head;

pub mod ending;

// A burst of n frames, which the words are, where `ok`; else nothing changes.
pub fn ncs_rx(
    mut s: Station,
    ok: bool,
    words: &[u32],
    n: usize,
    level: f32,
    time: f64,
    lent: &mut [u8],
    o: &mut Output,
    mask: &mut u64,
) -> Station
    requires { ok ≡ true → (shape_of (parse words.now) ≡ Some n) × (cell_size * s.count ≤ length lent.old) }
    ensures { RxDoes (rx_of ok words.now s level time lent.old) result lent.new o.old o.new mask.new }
{
    let h = head_or(words, ok);
    let w = s.wait;
    let g = s.settings;
    let a = air_of(w, s.used, h, level, time);
    let v = ending::busy_wait(w, h, g, time);
    s.wait = v;
    read_burst(s, h, a, words, many_of(h, n), lent, o, mask)
}

// The n frames of the burst that the words are, and then the end. A piece and a report touch one member, in place; the other control
// frames are rarer.
fn read_burst(
    mut s: Station,
    h: Head,
    a: Air,
    words: &[u32],
    n: usize,
    lent: &mut [u8],
    o: &mut Output,
    mask: &mut u64,
) -> Station
    requires { 0 < n → (shape_of (parse words.now) ≡ Some n) × (cell_size * s.count ≤ length lent.old) }
    ensures { RxDoes (burst_read a h n words.now s lent.old) result lent.new o.old o.new mask.new }
{
    let mut x = frames::first_rx();
    // A while: x counts the frames itself, with the word where the next one stands; a for would count them a second time.
    while x.frame < n {
        let Some(f) = frames::frame_at(words, x.word) else {
            x = frames::pass(x);
            continue;
        };
        let payload = Payload {
            words,
            at: x.word,
            len: f.len,
        };
        if f.ty == wire::T_UP {
            let i = net::index(f.slot);
            let m = s.members[i];
            let here = net::is_member(s.used, f.slot);
            let p = pieces::piece_of(m, here, f, &s.owners, s.busy, s.landed, s.count);
            let c = pieces::cell_of(p);
            let d = pieces::take(p, s.cells[c], &payload, lent);
            let cell = d.cell;
            s.cells[c] = cell;
            s.owners[c] = pieces::owner_after(s.owners[c], d, p);
            s.busy = pieces::busy_after(s.busy, d, p, c);
            s.landed = pieces::landed_after(s.landed, d, p, c);
            s.members[i] = pieces::member_after(m, d, p, a);
            let via = pieces::relayer(d, p, a, s.used);
            s.round = pieces::round_after(s.round, d, via);
            s.totals = pieces::totals_after(s.totals, via);
            pieces::landed_events(o, d, p, c, via);
            x = pieces::next_piece(x, f, d);
            continue;
        }
        // The first byte of a control frame decides its meaning; bytes not listed do nothing.
        let first = frames::control_byte(f, &payload);
        match first {
            wire::C_CHECKIN => {
                if 7 <= f.len {
                    s = control::checkin(s, a, &payload, o);
                }
            }
            wire::C_REPORT => {
                if 12 <= f.len {
                    let slot = payload.byte(1);
                    let here = net::is_member(s.used, slot);
                    let i = net::index(slot);
                    let m = s.members[i];
                    let forwarded = control::is_forwarded(m, here, a);
                    if here {
                        s.members[i] = control::report_member(m, forwarded, a, payload.byte(2));
                        control::report_hears(&mut s.hears, slot, &payload);
                        s.queues[i] = control::report_queue(s.queues[i], &payload);
                    }
                    let pending = payload.is_pending();
                    x = control::report_rx(x, forwarded, slot, pending);
                }
            }
            wire::C_OVERHEARD => {
                s = control::overheard(s, f.slot, a, &payload, o);
            }
            wire::C_KIDS => {
                s = control::kids(s, f.slot, a, &payload, o);
            }
            _ => {}
        }
        x = frames::next_frame(x, f);
    }
    *mask = x.unkept;
    // The end: the boat that the burst is from, the source whose traffic it was to forward, and the turn.
    let w = s.wait;
    let g = s.settings;
    let e = ending::ending_of(w, x, h);
    let here = net::is_member(s.used, e.slot);
    let i = net::index(e.slot);
    let m = s.members[i];
    let k = ending::end_member(m, e, here, h, a);
    s.members[i] = k;
    s.recent[i] = ending::end_recent(s.recent[i], e, here, a);
    ending::put_end(o, e, h, x.heard, ending::ack_level(g, k, here));
    let source = e.reply.relayfor;
    let b = net::index(source);
    let c = s.members[b];
    let d = ending::end_source(&s.hears, s.used, c, e, source);
    s.members[b] = d;
    s.wait = ending::end_wait(w, e);
    let t = s.totals;
    s.totals = ending::end_totals(t, e, g.misslimit <= m.missed, g.misslimit <= k.missed);
    s
}

// The head; of a refused burst that of a tiny one that says nothing.
fn head_or(words: &[u32], ok: bool) -> Head
    ensures { result ≡ head_for ok words.now }
{
    if ok {
        if 0 < words.len() {
            return words::head_of(words[0]);
        }
    }
    words::head_of(0x87c0_0000)
}

fn air_of(w: Wait, used: u64, h: Head, level: f32, time: f64) -> Air
    ensures { result ≡ air_by w.turn used h level time }
{
    let aside = ending::is_aside(h);
    let slot = net::polled_slot(w);
    Air {
        level: level,
        time: time,
        aside: aside,
        polled: if aside { None } else { slot },
        start: used,
    }
}

// Of a tiny burst no frame is read.
fn many_of(h: Head, n: usize) -> usize
    ensures { result ≡ many_of h n }
{
    if h.code == wire::TINY { 0 } else { n }
}
