// Signal levels and clocks, and the checks of numbers handed in.
#![tactic(auto)]

ghost use Rattle.std.specs.Prelude.{◌≡◌};
ghost use Rattle.level.specs.Levels.{smoothed, level_of, level_for, or_else, is_heard};
ghost use Rattle.level.specs.Order.{negative, total_lt, is_nan, least};
ghost use Rattle.level.specs.Spans.{up_to, within};

// How well a station is heard, in dB. (An enum of its own, and no Option: its cases have the names that the port's rules give them, docs/DECISIONS.md, 28.)
#[derive(Clone, Copy)]
pub enum Level {
    Unheard,
    Decibels(f32),
}

// The level kept after hearing new.
pub fn smooth(old: Level, new: f32) -> f32
    ensures { result ≡ smoothed old new }
{
    match old {
        Level::Decibels(o) => 0.5 * o + 0.5 * new,
        Level::Unheard => new,
    }
}

// The fastest ladder level whose frames get through at snr; the floor, 0, where none does.
pub fn level_of(thresholds: &[f32; 17], margin: f32, snr: f32) -> u32
    ensures { result ≡ level_of thresholds.now margin snr }
{
    for l in (0..17).rev() {
        if snr >= thresholds[l] + margin {
            return l as u32;
        }
    }
    0
}

// The same for a level that may be unheard: then the floor.
pub fn level_for(thresholds: &[f32; 17], margin: f32, x: Level) -> u32
    ensures { result ≡ level_for thresholds.now margin x }
{
    match x {
        Level::Decibels(snr) => level_of(thresholds, margin, snr),
        Level::Unheard => 0,
    }
}

// Option::or: a, or b where a is unheard.
pub fn or_else(a: Level, b: Level) -> Level
    ensures { result ≡ or_else a b }
{
    match a {
        Level::Decibels(x) => Level::Decibels(x),
        Level::Unheard => b,
    }
}

pub fn is_heard(x: Level) -> bool
    ensures { result ≡ is_heard x }
{
    matches!(x, Level::Decibels(_))
}

// The sign, also of a zero; a NaN has none.
fn is_negative(x: f32) -> bool
    ensures { result ≡ negative x }
{
    !x.is_nan() && x.is_sign_negative()
}

// total_cmp: a is less than b, and -0 less than +0. (std's asks that neither is a NaN; here a NaN is less than nothing.)
pub fn total_lt(a: f32, b: f32) -> bool
    ensures { result ≡ total_lt a b }
{
    (a < b) | ((a == b) & (is_negative(a) & !is_negative(b)))
}

// f64::is_nan.
pub fn is_nan(x: f64) -> bool
    ensures { result ≡ is_nan x }
{
    x.is_nan()
}

// f64::min of two times: the lesser, or the one that is no NaN. (std's promises nothing of which of 0 and -0 it gives; here it is a.)
pub fn least(a: f64, b: f64) -> f64
    ensures { result ≡ least a b }
{
    if is_nan(a) | (b < a) { b } else { a }
}

// A clock handed in: 0 to 1,000,000,000 seconds.
pub fn clock_ok(t: f64) -> bool
    ensures { result ≡ up_to 1000000000 t }
{
    (0.0 <= t) & (t <= 1000000000.0)
}

// A setting in seconds: 0 to 1,000,000.
pub fn span_ok(t: f64) -> bool
    ensures { result ≡ up_to 1000000 t }
{
    (0.0 <= t) & (t <= 1000000.0)
}

// A level handed in: -200 to 200 dB.
pub fn level_ok(x: f32) -> bool
    ensures { result ≡ within 200 x }
{
    (-200.0 <= x) & (x <= 200.0)
}
