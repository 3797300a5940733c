// The parts of a server's state as they begin.
ghost use Rattle.std.specs.Prelude.{◌≡◌};
ghost use Rattle.server_rules.specs.State.{fresh_blocks, fresh_slot, fresh_reader};

use crate::{BlockPart, Reader, Slot};
use frame::stamps::zero_stamp;

fn fresh_blocks() -> BlockPart
    ensures { result ≡ fresh_blocks }
{
    BlockPart {
        sent: false,
        ready: false,
        complete: false,
        time: 0,
        echoes: [false; 11],
        readies: [false; 11],
        echoed: [0; 11],
        readied: [0; 11],
    }
}

// The write q is open, and nothing of it has come.
pub fn fresh_slot(q: u64) -> Slot
    ensures { result ≡ fresh_slot q }
{
    let blocks = fresh_blocks();
    Slot {
        sequence: q,
        blocks,
    }
}

pub fn fresh_reader() -> Reader
    ensures { result ≡ fresh_reader }
{
    let noted = zero_stamp();
    Reader {
        sequence: 0,
        listening: false,
        noted,
    }
}
