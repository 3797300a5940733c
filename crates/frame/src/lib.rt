// What servers and clients share: parties, stamps and refusals, and frames as they are opened and written.
#![tactic(auto)]

pub mod bounds;
pub mod entries;
pub mod opener;
pub mod parties;
pub mod places;
pub mod refusals;
pub mod send;
pub mod stamps;

// A client 1 to 8 or a server 1 to n, as the host names it.
#[derive(Clone, Copy)]
pub enum Party {
    Client(u8),
    Server(u8),
}

// A stamp is (time, writer, write sequence), compared in that order.
#[derive(Clone, Copy, PartialEq, Eq, PartialOrd, Ord)]
pub struct Stamp {
    pub time: u64,
    pub writer: u8,
    pub sequence: u32,
}

// Why a frame or a call is turned down, with document 01's number.
#[derive(Clone, Copy)]
pub enum Refusal {
    Parties = 1,
    Threshold = 2,
    Length = 3,
    Framing = 4,
    Version = 5,
    Kind = 6,
    Owner = 7,
    Body = 8,
    Content = 9,
    Room = 10,
    Sender = 11,
    Stale = 12,
    Ahead = 13,
    Digest = 14,
    Busy = 15,
    Exhausted = 16,
    Closed = 17,
    Record = 18,
    Unlisted = 19,
}

// What comes before a frame's body, without length and version. The client is the operation's owner.
#[derive(Clone, Copy)]
pub struct Header {
    pub kind: u8,
    pub client: u8,
    pub sequence: u32,
}

// Where the next frame goes in the out area, and how many are there already.
#[derive(Clone, Copy)]
pub struct Place {
    pub at: usize,
    pub count: usize,
}

// A write of a client, and the time that its frames carry.
#[derive(Clone, Copy)]
pub struct WriteTime {
    pub client: u8,
    pub sequence: u32,
    pub time: u64,
}

// What a server sends to all in a broadcast, with the kind of its frame.
#[derive(Clone, Copy)]
pub enum Broadcast {
    Echo = 4,
    Ready = 5,
}

// What a client asks of all servers with no body, with the kind of its frame.
#[derive(Clone, Copy)]
pub enum Ask {
    GetStamp = 1,
    Read = 10,
    ReadComplete = 12,
}
