// A write: which servers said one time and digest list, and what is due by their numbers.
ghost use Rattle.std.specs.Prelude.{◌≡◌, ◌&&◌, ◌||◌, ◌+◌, ◌≤◌, length};
ghost use Rattle.frame.specs.Params.{Bounded};
ghost use Rattle.frame.specs.Chunks.{chunk_at, chunk_bytes};
ghost use Rattle.group.specs.Entries.{timed, sent_list, flags, places_from};
ghost use Rattle.server_blocks.specs.Votes.{enough_by, matters_by, due_by, full_by, voters_of, due_for};
ghost use Rattle.server_blocks.specs.Group.{Stored};

use crate::{Due, Voters};
use blocks::Params;
use frame::bounds::quota;
use frame::places::{CLIENT_CHUNKS, ECHOES_BACK, READIES_BACK};
use group::matching::{at_time, matching, places, tally};
use server_rules::BlockPart;

// The flagged servers whose time and digest list are these; server j's time is at place j of times, its entry lies in chunk first + j.
fn in_group(
    g: Params,
    on: [bool; 11],
    times: [u64; 11],
    time: u64,
    first: usize,
    area: &[u8],
    list: &[u8],
) -> [bool; 11]
    requires { Bounded g × (first ≤ 1000) × (chunk_at (first + 10) + chunk_bytes ≤ length area.now) }
    ensures { result ≡ flags (sent_list g (timed on times time) (places_from first) area.now list.now) g.n }
{
    let at = places(first);
    let timed = at_time(on, times, time);
    matching(timed, at, area, list, g)
}

// The votes for the time and the list, of client c's kept echoes and readies.
pub fn voters_of(g: Params, b: BlockPart, c: u8, time: u64, area: &[u8], list: &[u8]) -> Voters
    requires { Stored g c (length area.now) }
    ensures { result ≡ voters_of g area.now c b time list.now }
{
    let i = c as usize;
    let on = b.echoes;
    let times = b.echoed;
    let echoes = in_group(
        g,
        on,
        times,
        time,
        CLIENT_CHUNKS * i - ECHOES_BACK,
        area,
        list,
    );
    let on = b.readies;
    let times = b.readied;
    let readies = in_group(
        g,
        on,
        times,
        time,
        CLIENT_CHUNKS * i - READIES_BACK,
        area,
        list,
    );
    let echoed = tally(echoes, g.n);
    let readied = tally(readies, g.n);
    Voters {
        echoes,
        readies,
        echoed,
        readied,
    }
}

pub fn both(a: bool, b: bool) -> bool
    ensures { result ≡ (a && b) }
{
    if a {
        return b;
    }
    false
}

fn either(a: bool, b: bool) -> bool
    ensures { result ≡ (a || b) }
{
    if a {
        return true;
    }
    b
}

// n - t echoes, or q readies.
fn enough(g: Params, e: usize, r: usize) -> bool
    requires { Bounded g × (e ≤ 10) }
    ensures { result ≡ enough_by g e r }
{
    if g.n <= e + g.t {
        return true;
    }
    quota(g) <= r
}

// Whether anything depends on comparing a group of e echoes and r readies.
pub fn matters(g: Params, went: bool, complete: bool, e: usize, r: usize) -> bool
    requires { Bounded g × (e ≤ 10) }
    ensures { result ≡ matters_by g went complete e r }
{
    let some = enough(g, e, r);
    let all = quota(g) + g.t <= r;
    let ready = both(!went, some);
    let done = both(all, !complete);
    either(ready, done)
}

// Whether a ready is due; supported says whether the comparison is equal.
fn block_due(g: Params, went: bool, supported: bool, e: usize, r: usize) -> bool
    requires { Bounded g × (e ≤ 10) }
    ensures { result ≡ due_by g went supported e r }
{
    let some = enough(g, e, r);
    let right = both(some, supported);
    both(!went, right)
}

// Whether the group has q + t readies and the comparison is equal.
fn block_full(g: Params, supported: bool, r: usize) -> bool
    requires { Bounded g }
    ensures { result ≡ full_by g supported r }
{
    let all = quota(g) + g.t <= r;
    both(all, supported)
}

// What is due by the votes for the time; went says whether a ready went out before.
pub fn due_for(g: Params, went: bool, v: Voters, supported: bool, time: u64) -> Due
    requires { Bounded g × (v.echoed ≤ 10) }
    ensures { result ≡ due_for g went v supported time }
{
    let ready = block_due(g, went, supported, v.echoed, v.readied);
    let complete = block_full(g, supported, v.readied);
    Due {
        ready,
        complete,
        time,
    }
}
