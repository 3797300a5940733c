// Entries of a trace (document 02, F-8): each is a frame and its sender.
#![tactic(auto)]

use frame::Party;

pub mod reader;
pub mod writer;

// Where an entry's frame begins: after length (2), version, and the sender's class and number.
pub const FRAME_AT: usize = 5;

// The version of entries.
pub const VERSION: u8 = 1;

// The longest frame that an entry can have.
pub const LONGEST: usize = 65532;

// How a trace closes: whole, or at an entry that is malformed or inside which it ends. With document 02's number.
#[derive(Clone, Copy)]
pub enum Closing {
    Whole = 0,
    Malformed = 22,
    Cut = 23,
}

// An entry at the front of some bytes: who sent its frame, and where it ends.
#[derive(Clone, Copy)]
pub struct Found {
    pub sender: Party,
    pub end: usize,
}

// How many entries a trace has before it closes.
#[derive(Clone, Copy)]
pub struct Survey {
    pub count: usize,
    pub closing: Closing,
}
