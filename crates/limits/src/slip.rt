// Document 01, Slips a porter makes here: the two tie rules.
use crate::trial::Trial;
use std::fmt;

// Boats 1 and 2 hear boat 0 equally well.
pub fn ties(trial: &mut Trial) -> fmt::Result {
    let mut hears = [63u8; 3844];
    hears[62] = 40;
    hears[124] = 40;
    let low = roster::relay::relayer_for(&hears, 6, 0, 0, -8.0);
    let high = roster::relay::best_high(&hears, 6, 0, -8.0);
    trial.number("slots 1 and 2 alike: relayer_for takes", u64::from(low))?;
    trial.number("slots 1 and 2 alike: rerouting takes", u64::from(high))
}
