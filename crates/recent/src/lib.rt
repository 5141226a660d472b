// The last 32 reception levels of a boat, and the lowest of them (request U13).
#![tactic(auto)]

ghost use Rattle.std.specs.Prelude.{◌≡◌};
ghost use Rattle.recent.specs.Readings.{empty, noted, lower, worst};

use level::Level;

// A ring: the next reading goes to place `at`, and the `count` places before it hold the last ones.
#[repr(C)]
#[derive(Clone, Copy)]
pub struct Recent {
    pub levels: [f32; 32],
    pub count: u8,
    pub at: u8,
}

// No reading.
pub fn empty() -> Recent
    ensures { result ≡ empty }
{
    let levels = [0.0f32; 32];
    Recent {
        levels: levels,
        count: 0,
        at: 0,
    }
}

// One more reading; the oldest of 32 goes.
pub fn noted(r: Recent, snr: f32) -> Recent
    ensures { result ≡ noted r snr }
{
    let mut k = r;
    let i = (r.at % 32) as usize;
    k.levels[i] = snr;
    k.count = r.count.min(31) + 1;
    k.at = (r.at % 32 + 1) % 32;
    k
}

// The lower of two levels, -0 below +0.
fn lower(low: Level, x: f32) -> Level
    ensures { result ≡ lower low x }
{
    match low {
        Level::Unheard => Level::Decibels(x),
        Level::Decibels(y) => {
            if level::total_lt(x, y) {
                return Level::Decibels(x);
            }
            Level::Decibels(y)
        }
    }
}

// The lowest reading; Unheard where there is none.
pub fn worst(r: Recent) -> Level
    ensures { result ≡ worst r }
{
    let levels = r.levels;
    let n = r.count.min(32);
    let mut low = Level::Unheard;
    let mut p = (r.at % 32) as usize;
    for _ in 0..n {
        p = (p + 31) % 32;
        low = lower(low, levels[p]);
    }
    low
}
