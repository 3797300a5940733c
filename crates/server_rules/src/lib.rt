// A server: its state by value. Place j of an array belongs to server or client j; place 0 stays empty.
#![tactic(auto)]

ghost use Rattle.std.specs.Prelude.{◌≡◌};
ghost use Rattle.server_rules.specs.State.{fresh_server};

use crate::fresh::{fresh_reader, fresh_slot};
use frame::stamps::zero_stamp;
use frame::{Refusal, Stamp, places};

pub mod fresh;

// What was counted of one write: flags, and the times of the kept echoes, of the kept readies and of the completed group. The entries themselves lie in
// the state area. Flags, since the rules and the record's layout name each; arrays side by side, since `Votes` of the rules speaks of each.
#[derive(Clone, Copy)]
pub struct BlockPart {
    pub sent: bool,
    pub ready: bool,
    pub complete: bool,
    pub time: u64,
    pub echoes: [bool; 11],
    pub readies: [bool; 11],
    pub echoed: [u64; 11],
    pub readied: [u64; 11],
}

// A client's open write; the sequence 4294967296 means none.
#[derive(Clone, Copy)]
pub struct Slot {
    pub sequence: u64,
    pub blocks: BlockPart,
}

// A client's newest read, whether it still listens, and the stamp noted for it.
#[derive(Clone, Copy)]
pub struct Reader {
    pub sequence: u32,
    pub listening: bool,
    pub noted: Stamp,
}

// The stamp, the clients' slots and readers, and the highest time that each server reported.
#[derive(Clone, Copy)]
pub struct Server {
    pub stamp: Stamp,
    pub slots: [Slot; Server::PLACES],
    pub readers: [Reader; Server::PLACES],
    pub reports: [u64; 11],
}

impl Server {
    pub const CLIENTS: usize = places::CLIENTS;

    // Slots and readers are at their client's number; place 0 is nobody's.
    pub const PLACES: usize = places::CLIENTS + 1;

    pub const LAST_TIME: u64 = places::LAST_TIME;

    // A fresh server: stamp 0, client 0 and sequence 0; every client's write 1 is open.
    pub fn fresh() -> Server
        ensures { result ≡ fresh_server }
    {
        let stamp = zero_stamp();
        let slot = fresh_slot(1);
        let reader = fresh_reader();
        let slots = [slot; Server::PLACES];
        let readers = [reader; Server::PLACES];
        Server {
            stamp,
            slots,
            readers,
            reports: [0; 11],
        }
    }
}

// What a frame of one client may change of a server, and then each acceptance of that client's write: the stamp, and that client's slot and reader.
#[derive(Clone, Copy)]
pub struct Scope {
    pub stamp: Stamp,
    pub slot: Slot,
    pub reader: Reader,
}

#[derive(Clone, Copy)]
pub struct Served {
    // how many frames the step sent, or why there is none
    pub reply: Result<usize, Refusal>,
    pub server: Server,
}
