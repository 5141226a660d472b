// The settings in the bytes of `drive`: 182, or 199 with those of the beacon's timing (prime, lead, latency) behind them.
ghost use Rattle.std.specs.Prelude.{◌≡◌};
ghost use Rattle.script.specs.Settings.{has_nan, thresholds_at, durations_at, settings_at, given_at, lent_cells, cells_of};

use super::number::{Pattern, any_nan, u32_at};
use config::Given;
use net::Settings;

// One of the eleven f64, of the nineteen f32, or one of the two f64 behind them is a NaN's pattern.
pub fn has_nan(p: &[u8; 255]) -> bool
    ensures { result ≡ has_nan p.now }
{
    any_nan::<f64>(p, 0, 11) | any_nan::<f32>(p, 88, 19) | f64::nan_at(p, 183) | f64::nan_at(p, 191)
}

fn thresholds(p: &[u8; 255]) -> [f32; 17]
    ensures { result ≡ thresholds_at p.now }
{
    let mut t = [0.0f32; 17];
    for i in 0..17 {
        t[i] = f32::at(p, 88 + 4 * i);
    }
    t
}

fn durations(p: &[u8; 255]) -> [f64; 4]
    ensures { result ≡ durations_at p.now }
{
    [
        f64::at(p, 56),
        f64::at(p, 64),
        f64::at(p, 72),
        f64::at(p, 80),
    ]
}

// The settings in p, but for the call.
fn settings(p: &[u8; 255]) -> Settings
    ensures { result ≡ settings_at p.now }
{
    Settings {
        turnaround: f64::at(p, 0),
        maxburst: f64::at(p, 8),
        replyslack: f64::at(p, 16),
        detect: f64::at(p, 24),
        beaconevery: f64::at(p, 32),
        quickbeacon: f64::at(p, 40),
        idleroundgap: f64::at(p, 48),
        durations: durations(p),
        thresholds: thresholds(p),
        margin: f32::at(p, 156),
        relaysnr: f32::at(p, 160),
        misslimit: u32_at(p, 164),
        beaconlevel: p[168],
        windowslots: p[169],
        call: [32; 7],
        name: [p[175], p[176], p[177], p[178], p[179], p[180]],
        prime: p[182] != 0,
        lead: f64::at(p, 183),
        latency: f64::at(p, 191),
        rooms: [0; 17],
        payloads: [0; 17],
    }
}

// The settings in p, with the durations and payloads of data bursts that the program holds.
pub fn given(p: &[u8; 255], times: &[f64; 1088], payloads: &[u8; 17]) -> Given
    ensures { result ≡ given_at p.now times.now payloads.now }
{
    Given {
        settings: settings(p),
        call: [p[170], p[171], p[172], p[173], p[174]],
        times: *times,
        payloads: *payloads,
    }
}

// How many cells are lent, of the 64 that the program has.
pub fn lent_cells(p: &[u8; 255]) -> usize
    ensures { result ≡ lent_cells p.now }
{
    cells_of(p[181])
}

fn cells_of(n: u8) -> usize
    ensures { result ≡ cells_of n }
{
    usize::from(n).min(64)
}
