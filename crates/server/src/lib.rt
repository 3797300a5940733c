// A server's code below its stages: the parts of its state, the tests of a frame, what clients ask, construction; and what the stages of a step hand on.
#![tactic(auto)]

use blocks::Params;
use frame::{Header, Party, Place};
use server_rules::{Scope, Slot};

pub mod asking;
pub mod reads;
pub mod setup;
pub mod state;
pub mod tests;

// A frame that reached server me: the parameters, the party that handed it in, and its header.
#[derive(Clone, Copy)]
pub struct Call {
    pub params: Params,
    pub me: u8,
    pub from: Party,
    pub header: Header,
}

// What a stage leaves of a slot, and where the next frame of the step goes.
#[derive(Clone, Copy)]
pub struct Moved {
    pub slot: Slot,
    pub place: Place,
}

// What a step leaves of its scope, and where the next frame would go.
#[derive(Clone, Copy)]
pub struct Taken {
    pub scope: Scope,
    pub place: Place,
}
