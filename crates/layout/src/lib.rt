// The records of servers and clients as bytes of a fixed layout, so that hosts in other languages can lend them.
#![tactic(auto)]

pub mod clients;
pub mod fields;
pub mod servers;
