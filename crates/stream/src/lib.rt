// A boat's numbers that are handed over, and the station's table of message cells: MsgIn of stream.rs.
#![tactic(auto)]

pub mod table;
pub mod window;
