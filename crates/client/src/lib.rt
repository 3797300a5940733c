// A client's tests, rows, counts and record, and the entry points that begin a read or a write.
#![tactic(auto)]

use blocks::Params;
use frame::{Header, Party};

pub mod begin;
pub mod counts;
pub mod fresh;
pub mod phases;
pub mod record;
pub mod rows;
pub mod tests;

// A frame that reached client me: the parameters, the party that handed it in, and its header.
#[derive(Clone, Copy)]
pub struct Call {
    pub params: Params,
    pub me: u8,
    pub from: Party,
    pub header: Header,
}
