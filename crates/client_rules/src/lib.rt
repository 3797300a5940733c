// A client: its small record of its open operation, by value. Place j of an array belongs to server j; place 0 stays empty.
#![tactic(auto)]

use frame::{Refusal, Stamp};

// No operation is open; a write awaits stamps, or acks; a read is open.
#[derive(Clone, Copy)]
pub enum Phase {
    Idle = 0,
    Asking = 1,
    Acking = 2,
    Reading = 3,
}

// The stamps kept of one server's values: the first count of four places are taken. Their entries lie in the rows area.
#[derive(Clone, Copy)]
pub struct Row {
    pub count: usize,
    pub stamps: [Stamp; 4],
}

// The numbers of the last write and read begun, and whether a write closed as out of stamps. Of the open operation: which servers' stamps or
// acks were counted, the times received, and the rows. The highest time that each server reported, across operations. Flag and arrays as the record has them.
#[derive(Clone, Copy)]
pub struct Client {
    pub writes: u32,
    pub reads: u32,
    pub closed: bool,
    pub phase: Phase,
    pub heard: [bool; 11],
    pub times: [u64; 11],
    pub rows: [Row; 11],
    pub reports: [u64; 11],
}

// Frames were sent, this many; the write has ended; it closed as out of stamps; the read has ended with this stamp, its value is in the result area,
// and a read-complete went to each server; the read is closed since its blocks disagree, and a read-complete went to each server; or the reason why there
// is no step.
#[derive(Clone, Copy)]
pub enum Answer {
    Sent(usize),
    Written,
    OutOfStamps,
    Value(Stamp),
    Disagreement,
    Refused(Refusal),
}

#[derive(Clone, Copy)]
pub struct Answered {
    pub answer: Answer,
    pub client: Client,
}
