// Does what is due after a counted echo or ready: readies, the completed entry, and the marks of both.
ghost use Rattle.std.specs.Prelude.{◌≡◌, [], ◌≤◌, length};
ghost use Rattle.area.specs.Area.{pick};
ghost use Rattle.frame.specs.Params.{Bounded};
ghost use Rattle.frame.specs.Messages.{entry, offer};
ghost use Rattle.frame.specs.Outbox.{outbox, sent, first_place};
ghost use Rattle.frame.specs.Chunks.{area_bytes, store_if, complete_at, list_bytes};
ghost use Rattle.server_blocks.specs.Stage.{Carried, RoomFor, LentFor, readies_of, Answered};

use crate::Due;
use crate::votes::both;
use frame::entries::put_entry;
use frame::places::{CLIENT_CHUNKS, ECHOES_BACK};
use frame::send::block_all;
use frame::{Broadcast, Place, WriteTime};
use server::state::block_marks;
use server::{Call, Moved};
use server_rules::Slot;

// The first frames of a step: readies of the time and the list with the own block to all servers, if they are due.
fn ready_if(d: Due, k: Call, list: &[u8], block: &[u8], out: &mut [u8], to: &mut [u8]) -> Place
    requires { Bounded k.params × RoomFor k (length out.old) (length to.old) × Carried k.params (length list.now) (length block.now) }
    ensures { outbox out.new to.new result ≡ sent (outbox out.old to.old first_place)
        (pick d.ready (readies_of k (offer d.time (entry list.now block.now))) []) }
{
    let p = Place { at: 0, count: 0 };
    if !d.ready {
        return p;
    }
    let g = k.params;
    let h = k.header;
    let w = WriteTime {
        client: h.client,
        sequence: h.sequence,
        time: d.time,
    };
    block_all(out, to, p, g, Broadcast::Ready, w, list, block)
}

// The list with the own block becomes client c's completed entry, where the test holds.
fn complete_if(test: bool, area: &mut [u8], c: u8, list: &[u8], block: &[u8])
    requires { (1 ≤ c) × (c ≤ 8) × (area_bytes ≤ length area.old) × (length list.now ≤ list_bytes) × (length block.now ≤ 256) }
    ensures { area.new ≡ store_if test area.old (complete_at c) (entry list.now block.now) }
{
    if test {
        let p = CLIENT_CHUNKS * (c as usize) - ECHOES_BACK;
        put_entry(area, p, list, block);
    }
}

// Readies and the completed entry, where due, and the marks of both; block is the own block.
pub fn answer(
    x: Slot,
    k: Call,
    d: Due,
    list: &[u8],
    block: &[u8],
    area: &mut [u8],
    out: &mut [u8],
    to: &mut [u8],
) -> Moved
    requires { LentFor k (length area.old) (length out.old) (length to.old) × Carried k.params (length list.now) (length block.now) }
    ensures { Answered k x d (entry list.now block.now) area.old out.old to.old
        result area.new out.new to.new }
{
    let b = x.blocks;
    let h = k.header;
    let test = both(!b.complete, d.complete);
    let place = ready_if(d, k, list, block, out, to);
    complete_if(test, area, h.client, list, block);
    let slot = block_marks(x, d.ready, d.complete, d.time);
    Moved { slot, place }
}
