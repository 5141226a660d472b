// The words of a script: what each asks for, and the numbers and settings in the frames behind a command.
#![tactic(auto)]

pub mod action;
pub mod given;
pub mod number;
