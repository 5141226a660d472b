// One message cell: which pieces are kept, how they are joined, when the message has landed, and its bytes as a part of the lent store.
#![tactic(auto)]

pub mod cell;
pub mod keep;
pub mod piece;
pub mod store;
