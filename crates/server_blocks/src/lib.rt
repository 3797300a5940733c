// A server's stage for a write: an echo or a ready was counted, and what follows from it before anything is accepted.
#![tactic(auto)]

ghost use Rattle.std.specs.Prelude.{◌≡◌, true, length};
ghost use Rattle.frame.specs.Params.{listed};
ghost use Rattle.server_blocks.specs.Votes.{matters_by, voters_of};
ghost use Rattle.server_blocks.specs.Stage.{LentFor, BlockVoted};

use answering::answer;
use comparing::own_block;
use frame::Place;
use frame::bounds::width;
use group::matching::tally;
use server::{Call, Moved};
use server_rules::Slot;
use votes::{due_for, matters, voters_of};

mod answering;
mod comparing;
pub mod storing;
mod votes;

// For a time and a digest list: the servers whose kept echo or ready has both, and how many they are.
#[derive(Clone, Copy)]
pub struct Voters {
    pub echoes: [bool; 11],
    pub readies: [bool; 11],
    pub echoed: usize,
    pub readied: usize,
}

// The servers whose blocks are compared, and the chunks in which these lie.
#[derive(Clone, Copy)]
pub struct Group {
    pub on: [bool; 11],
    pub at: [usize; 11],
}

// What a counted echo or ready leads to: readies to all servers, the completed entry; and the time of both. Either can be without the other.
#[derive(Clone, Copy)]
pub struct Due {
    pub ready: bool,
    pub complete: bool,
    pub time: u64,
}

// The votes for the time and the list are enough for a comparison, and something depends on it.
fn compare_blocks(
    x: Slot,
    k: Call,
    v: Voters,
    time: u64,
    list: &[u8],
    area: &mut [u8],
    out: &mut [u8],
    to: &mut [u8],
) -> Moved
    requires { LentFor k (length area.old) (length out.old) (length to.old) × (x.sequence ≡ k.header.sequence) ×
        (length list.now ≡ listed k.params) ×
        (v ≡ voters_of k.params area.old k.header.client x.blocks time list.now) ×
        (matters_by k.params x.blocks.ready x.blocks.complete v.echoed v.readied ≡ true) }
    ensures { BlockVoted k x time list.now area.old out.old to.old
        result area.new out.new to.new }
{
    let b = x.blocks;
    let g = k.params;
    let w = width(g);
    let mut block = [0u8; 256];
    let equal = own_block(k, v, area, list, &mut block);
    let d = due_for(g, b.ready, v, equal, time);
    answer(x, k, d, list, &block[..w], area, out, to)
}

// An echo or a ready was counted, and something may depend on it: the kept echoes and readies that have its time and its list decide.
fn voted_group(
    x: Slot,
    k: Call,
    time: u64,
    list: &[u8],
    area: &mut [u8],
    out: &mut [u8],
    to: &mut [u8],
) -> Moved
    requires { LentFor k (length area.old) (length out.old) (length to.old) × (x.sequence ≡ k.header.sequence) ×
        (length list.now ≡ listed k.params) }
    ensures { BlockVoted k x time list.now area.old out.old to.old
        result area.new out.new to.new }
{
    let b = x.blocks;
    let h = k.header;
    let v = voters_of(k.params, b, h.client, time, area, list);
    if matters(k.params, b.ready, b.complete, v.echoed, v.readied) {
        return compare_blocks(x, k, v, time, list, area, out, to);
    }
    let place = Place { at: 0, count: 0 };
    Moved { slot: x, place }
}

// An echo or a ready of a time and a digest list was counted in the slot x of the write that k names, and kept in the state area.
// The counted echoes and readies, whatever they say, are at least those that have both: where nothing depends on their numbers, no list is compared.
pub fn voted_block(
    x: Slot,
    k: Call,
    time: u64,
    list: &[u8],
    area: &mut [u8],
    out: &mut [u8],
    to: &mut [u8],
) -> Moved
    requires { LentFor k (length area.old) (length out.old) (length to.old) × (x.sequence ≡ k.header.sequence) ×
        (length list.now ≡ listed k.params) }
    ensures { BlockVoted k x time list.now area.old out.old to.old
        result area.new out.new to.new }
{
    let b = x.blocks;
    let g = k.params;
    let echoes = b.echoes;
    let readies = b.readies;
    let e = tally(echoes, g.n);
    let r = tally(readies, g.n);
    if matters(g, b.ready, b.complete, e, r) {
        return voted_group(x, k, time, list, area, out, to);
    }
    let place = Place { at: 0, count: 0 };
    Moved { slot: x, place }
}
