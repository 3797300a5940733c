// Frames of a write: kinds 3 to 5.
ghost use Rattle.std.specs.Prelude.{◌≡◌, ℕ, ◌≤◌, ◌<◌, List, length};
ghost use Rattle.area.specs.Area.{pick};
ghost use Rattle.frame.specs.Messages.{entry, offer, send};
ghost use Rattle.frame.specs.Params.{Bounded};
ghost use Rattle.server_rules.specs.State.{with_blocks};
ghost use Rattle.server_blocks.specs.Stage.{Carried, Own, RoomFor, LentFor, vote_stage, vote_counted, votes_from, send_verdict, vote_verdict, BlockHandled};

use crate::voted_block;
use blocks::Params;
use frame::entries::put_entry;
use frame::parties::number_in;
use frame::places::{CLIENT_CHUNKS, ECHOES_BACK, READIES_BACK};
use frame::send::block_all;
use frame::{Broadcast, Place, Refusal, WriteTime};
use group::fitting::fit_test;
use server::state::{block_echo, block_ready, block_sent};
use server::tests::{owner_test, server_test};
use server::{Call, Moved};
use server_rules::Slot;

// Refusals 11 to 14 of the owner's frame.
fn send_test(x: Slot, k: Call, list: &[u8], block: &[u8]) -> Result<(), Refusal>
    requires { Own k.params k.me × Carried k.params (length list.now) (length block.now) }
    ensures { result ≡ send_verdict k x (entry list.now block.now) }
{
    let b = x.blocks;
    let h = k.header;
    let from = k.from;
    owner_test(from, h.client, x, h.sequence, b.sent)?;
    fit_test(list, block, k.me as usize)
}

// The flags of the echoes, or of the readies.
fn flags_of(echo: bool, echoes: [bool; 11], readies: [bool; 11]) -> [bool; 11]
    ensures { result ≡ pick echo echoes readies }
{
    if echo {
        return echoes;
    }
    readies
}

// Refusals 11 to 14 of a server's echo or ready.
fn vote_test(x: Slot, k: Call, list: &[u8], block: &[u8]) -> Result<(), Refusal>
    requires { Bounded k.params × Carried k.params (length list.now) (length block.now) }
    ensures { result ≡ vote_verdict k x (entry list.now block.now) }
{
    let g = k.params;
    let h = k.header;
    let from = k.from;
    let b = x.blocks;
    let echoes = b.echoes;
    let readies = b.readies;
    let on = flags_of(h.kind == 4, echoes, readies);
    server_test(g, from, x, h.sequence, on)?;
    let j = number_in(from) as usize;
    fit_test(list, block, j)
}

// Kind 3: the owner's time, digest list and block, echoed to all.
pub fn on_block_send(
    x: Slot,
    k: Call,
    time: u64,
    list: &[u8],
    block: &[u8],
    out: &mut [u8],
    to: &mut [u8],
) -> Result<Moved, Refusal>
    requires { Own k.params k.me × RoomFor k (length out.old) (length to.old) × Carried k.params (length list.now) (length block.now) }
    ensures { (a : List ℕ) → BlockHandled k x send (offer time (entry list.now block.now)) a out.old to.old
        result a out.new to.new }
{
    send_test(x, k, list, block)?;
    let p = Place { at: 0, count: 0 };
    let h = k.header;
    let w = WriteTime {
        client: h.client,
        sequence: h.sequence,
        time,
    };
    let place = block_all(out, to, p, k.params, Broadcast::Echo, w, list, block);
    let slot = block_sent(x);
    Ok(Moved { slot, place })
}

// Server j's echo or ready, of this time, is counted.
fn count_vote(x: Slot, echo: bool, j: usize, time: u64) -> Slot
    requires { j < 11 }
    ensures { result ≡ with_blocks x (vote_counted echo x.blocks j time) }
{
    if echo {
        return block_echo(x, j, time);
    }
    block_ready(x, j, time)
}

// The chunk after which client c's echoes or readies are kept.
fn votes_from(echo: bool, c: u8) -> usize
    requires { (1 ≤ c) × (c ≤ 8) }
    ensures { (result ≡ votes_from echo c) × (result ≤ 158) }
{
    let i = c as usize;
    if echo {
        return CLIENT_CHUNKS * i - ECHOES_BACK;
    }
    CLIENT_CHUNKS * i - READIES_BACK
}

// Kinds 4 and 5: a server's echo or ready, kept.
pub fn on_block_vote(
    x: Slot,
    k: Call,
    time: u64,
    list: &[u8],
    block: &[u8],
    area: &mut [u8],
    out: &mut [u8],
    to: &mut [u8],
) -> Result<Moved, Refusal>
    requires { LentFor k (length area.old) (length out.old) (length to.old) × Carried k.params (length list.now) (length block.now) }
    ensures { BlockHandled k x (vote_stage k.header.kind) (offer time (entry list.now block.now))
        area.old out.old to.old result area.new out.new to.new }
{
    vote_test(x, k, list, block)?;
    let h = k.header;
    let echo = h.kind == 4;
    let j = number_in(k.from) as usize;
    let first = votes_from(echo, h.client);
    put_entry(area, first + j, list, block);
    let y = count_vote(x, echo, j, time);
    Ok(voted_block(y, k, time, list, area, out, to))
}
