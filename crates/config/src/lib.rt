// The settings of a net as they are given (NetConfig of net.rs), and their spans (document 01, Settings).
#![tactic(auto)]

ghost use Rattle.std.specs.Prelude.{◌≡◌, ◌<◌};
ghost use Rattle.config.specs.Checks.{seconds_ok, durations_ok, data_ok, payloads_ok, room, rooms_from, thresholds_ok, decibels_ok, numbers_ok, settings_ok, settings_of};

use net::Settings;

// Settings before they are checked: the call as five packed bytes, the durations of bursts of data (of n frames, 1 to 64, at a level: at 64 * level + n - 1), and
// the largest payload of each level. `call`, `rooms` and `payloads` of `settings` are not looked at.
#[derive(Clone, Copy)]
pub struct Given {
    pub settings: Settings,
    pub call: [u8; 5],
    pub times: [f64; 1088],
    pub payloads: [u8; 17],
}

// Seconds are 0 to 1,000,000.
fn seconds_ok(g: Settings) -> bool
    ensures { result ≡ seconds_ok g }
{
    level::span_ok(g.turnaround)
        & level::span_ok(g.maxburst)
        & level::span_ok(g.replyslack)
        & level::span_ok(g.detect)
        & level::span_ok(g.beaconevery)
        & level::span_ok(g.quickbeacon)
        & level::span_ok(g.idleroundgap)
        & level::span_ok(g.lead)
        & level::span_ok(g.latency)
}

fn durations_ok(d: [f64; 4]) -> bool
    ensures { result ≡ durations_ok d }
{
    level::span_ok(d[0]) & level::span_ok(d[1]) & level::span_ok(d[2]) & level::span_ok(d[3])
}

fn decibels_ok(g: Settings) -> bool
    ensures { result ≡ decibels_ok g }
{
    thresholds_ok(&g.thresholds) & level::level_ok(g.margin) & level::level_ok(g.relaysnr)
}

fn numbers_ok(g: Settings) -> bool
    ensures { result ≡ numbers_ok g }
{
    (1 <= g.misslimit) & (g.misslimit <= 1000) & (g.beaconlevel <= 16)
}

fn thresholds_ok(t: &[f32; 17]) -> bool
    ensures { result ≡ thresholds_ok t.now }
{
    t.iter().all(|x| level::level_ok(*x))
}

// Each setting is within its span.
pub fn settings_ok(x: Given) -> bool
    ensures { result ≡ settings_ok x }
{
    let g = x.settings;
    let d = g.durations;
    let c = x.call;
    seconds_ok(g)
        & durations_ok(d)
        & decibels_ok(g)
        & numbers_ok(g)
        & (wire::calls::number_from(c) < 114415582592)
        & data_ok(&x.times)
        & payloads_ok(&x.payloads)
}

fn data_ok(d: &[f64; 1088]) -> bool
    ensures { result ≡ data_ok d.now }
{
    d.iter().all(|x| level::span_ok(*x))
}

fn payloads_ok(p: &[u8; 17]) -> bool
    ensures { result ≡ payloads_ok p.now }
{
    p.iter().all(|x| *x != 0)
}

// ---- how many frames a burst of data may have

// One frame more while there are fewer than 64, and the burst with it is not too long.
fn room(d: &[f64; 1088], max: f64, level: usize) -> u8
    requires { level < 17 }
    ensures { result ≡ room d.now max level }
{
    for n in 1..64 {
        let fits = d[64 * level + usize::from(n)] <= max;
        if !fits {
            return n;
        }
    }
    64
}

// At each level.
fn rooms(d: &[f64; 1088], max: f64) -> [u8; 17]
    ensures { result ≡ rooms_from d.now max 17 0 }
{
    let mut r = [0u8; 17];
    for i in 0..17 {
        r[i] = room(d, max, i);
    }
    r
}

// The call is read as any call is, and the rooms come from the durations.
pub fn settings_of(x: Given) -> Settings
    ensures { result ≡ settings_of x }
{
    let mut g = x.settings;
    let c = x.call;
    let call = wire::calls::unpack_call(c);
    let payloads = x.payloads;
    let rooms = rooms(&x.times, g.maxburst);
    g.call = call;
    g.payloads = payloads;
    g.rooms = rooms;
    g
}
