// What a host may ask about a frame, an entry of a trace or a server's present block; each is answered by one number.
#![tactic(auto)]

pub mod frames;
pub mod present;
pub mod traces;
