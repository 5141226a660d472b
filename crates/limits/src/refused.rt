// Refusals that no script reaches: 7 with a store below a cell, 4, 7 after the start and for the directed queue, 1 and 2 with a NaN.
use crate::burst;
use crate::trial::Trial;
use std::fmt;

pub fn short(trial: &mut Trial) -> fmt::Result {
    let g = preset::tape_settings();
    let r = station::start(preset::blank(), g, &[0u8; 6399]);
    trial.answer("start over 6,399 bytes", r.answer)?;
    let r = station::start(preset::blank(), g, &[0u8; 6400]);
    trial.answer("start over 6,400 bytes", r.answer)
}

pub fn output(trial: &mut Trial) -> fmt::Result {
    let s = burst::fresh(&trial.store);
    let mut less = [0u32; 8191];
    let queue = [0u8; 126976];
    let r = station::next(s, 0.0, &queue, &mut less);
    trial.answer("next decision, output of 8,191 words", r.answer)?;
    let r = station::next(s, 0.0, &queue, &mut trial.out);
    trial.answer("next decision, output of 8,192 words", r.answer)?;
    let r = station::admit(s, [1, 0, 0, 0, 0], 63, 0.0, &mut less);
    trial.answer("direct admission, output of 8,191 words", r.answer)
}

pub fn store(trial: &mut Trial) -> fmt::Result {
    let mut two = [0u8; 12800];
    let mut less = [0u8; 12799];
    let s = burst::fresh(&two);
    let burst = [burst::HEAD];
    let r = station::receive(s, &burst, 0.0, 1.0, &mut less, &mut trial.out);
    trial.answer("reception, two cells over 12,799 bytes", r.answer)?;
    let r = station::receive(s, &burst, 0.0, 1.0, &mut two, &mut trial.out);
    trial.answer("reception, two cells over 12,800 bytes", r.answer)?;
    let no = refusal::number_in(&station::read(s, &less, 0));
    trial.number(
        "reading, two cells over 12,799 bytes, sent back with",
        u64::from(no),
    )
}

pub fn queue(trial: &mut Trial) -> fmt::Result {
    let s = burst::fresh(&trial.store);
    let mut less = [0u8; 126975];
    let mut queue = [0u8; 126976];
    let r = station::next(s, 0.0, &less, &mut trial.out);
    trial.answer("next decision, queue of 126,975 bytes", r.answer)?;
    let r = station::post(s, 0, b"hold off", &mut less);
    trial.answer("posting to nobody, queue of 126,975 bytes", r.answer)?;
    let r = station::post(s, 0, b"hold off", &mut queue);
    trial.answer("posting to nobody, queue of 126,976 bytes", r.answer)
}

pub fn clock(trial: &mut Trial) -> fmt::Result {
    let s = burst::fresh(&trial.store);
    let queue = [0u8; 126976];
    let r = station::next(s, f64::NAN, &queue, &mut trial.out);
    trial.answer("next decision, clock NaN", r.answer)?;
    let r = station::sent(s, f64::NAN);
    trial.answer("end of a sending, clock NaN", r.answer)?;
    let r = station::admit(s, [1, 0, 0, 0, 0], 63, f64::NAN, &mut trial.out);
    trial.answer("direct admission, clock NaN", r.answer)
}

pub fn level(trial: &mut Trial) -> fmt::Result {
    let s = burst::fresh(&trial.store);
    let burst = [burst::HEAD];
    let r = station::receive(s, &burst, f32::NAN, 1.0, &mut trial.store, &mut trial.out);
    trial.answer("reception, level NaN", r.answer)?;
    let r = station::receive(s, &burst, 200.0, 1.0, &mut trial.store, &mut trial.out);
    trial.answer("reception, level 200", r.answer)
}
