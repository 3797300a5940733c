// The step of a frame that was let in, by its kind.
ghost use Rattle.std.specs.Prelude.{ℕ, ◌≤◌, ◌≡◌, List, length};
ghost use Rattle.sha256.specs.Hash.{digest_of};
ghost use Rattle.frame.specs.Params.{width};
ghost use Rattle.frame.specs.Frames.{offer_in};
ghost use Rattle.server_rules.specs.declared.Reader.{Reader};
ghost use Rattle.server_rules.specs.Delivery.{reply_response};
ghost use Rattle.server_blocks.specs.Stage.{vote_stage, BlockHandled};
ghost use Rattle.layout.specs.Servers.{server_size};
ghost use Rattle.server_deliver.specs.Handed.{Handed, HandedOwn, Asks, Stepping, byte_step};
ghost use Rattle.server_deliver.specs.Records.{byte_outcome};

use crate::rounds::settle;
use frame::bounds::width;
use frame::parties::{from_server, number_in};
use frame::places::{BODY_AT, OFFER_AT};
use frame::{Place, Refusal};
use layout::servers::{put_report, put_scope, report_at, scope_at};
use server::asking::{on_get_stamp, on_read, on_read_complete};
use server::{Call, Moved, Taken};
use server_blocks::storing::{on_block_send, on_block_vote};
use server_rules::{Scope, Server, Slot};

// ---- the client's own frame of its write: kind 3

// Kind 3, whose body is a time, a digest list and a block. Nothing can be accepted after it: the slot is stored.
fn step_of_send(
    s: Scope,
    k: Call,
    f: &[u8],
    out: &mut [u8],
    to: &mut [u8],
) -> Result<Taken, Refusal>
    requires { HandedOwn k (length f.now) (length out.old) (length to.old) × (k.header.kind ≡ 3) }
    ensures { (rs : List Reader) (a i : List ℕ) → Stepping s rs k a i f.now out.old to.old
        result a out.new to.new }
{
    let g = k.params;
    let time = area::read8(f, BODY_AT);
    let middle = OFFER_AT + 32 * g.n;
    let end = middle + width(g);
    let m = on_block_send(
        s.slot,
        k,
        time,
        &f[OFFER_AT..middle],
        &f[middle..end],
        out,
        to,
    )?;
    Ok(Taken {
        scope: Scope { slot: m.slot, ..s },
        place: m.place,
    })
}

// ---- servers' frames of a write: kinds 4 and 5

// Such a frame, whose body is a time, a digest list and a block, counted in the slot.
fn count_vote(
    x: Slot,
    k: Call,
    f: &[u8],
    area: &mut [u8],
    out: &mut [u8],
    to: &mut [u8],
) -> Result<Moved, Refusal>
    requires { Handed k (length f.now) (length area.old) (length out.old) (length to.old) × (4 ≤ k.header.kind) × (k.header.kind ≤ 5) }
    ensures { BlockHandled k x (vote_stage k.header.kind) (offer_in k.params f.now)
        area.old out.old to.old result area.new out.new to.new }
{
    let g = k.params;
    let time = area::read8(f, BODY_AT);
    let middle = OFFER_AT + 32 * g.n;
    let end = middle + width(g);
    on_block_vote(
        x,
        k,
        time,
        &f[OFFER_AT..middle],
        &f[middle..end],
        area,
        out,
        to,
    )
}

// ---- frames after which nothing can be accepted

// All kinds but 4, 5 and 13; 2, 9 and 11 do not go to servers.
fn step_of_kind(
    s: Scope,
    k: Call,
    f: &[u8],
    area: &mut [u8],
    initial: &[u8],
    out: &mut [u8],
    to: &mut [u8],
) -> Result<Taken, Refusal>
    requires { Handed k (length f.now) (length area.old) (length out.old) (length to.old) × (width k.params ≤ length initial.now)
        × Asks k }
    ensures { (rs : List Reader) → Stepping s rs k area.old initial.now f.now
        out.old to.old result area.new out.new to.new }
{
    let g = k.params;
    let h = k.header;
    match h.kind {
        1 => on_get_stamp(s, g, k.from, h, out, to),
        10 => on_read(s, g, k.from, h, area, initial, out, to),
        12 => on_read_complete(s, g, k.from, h),
        3 => step_of_send(s, k, f, out, to),
        _ => Err(Refusal::Sender),
    }
}

// The step of such a frame, in its client's scope.
fn step_of_scope(
    k: Call,
    f: &[u8],
    area: &mut [u8],
    initial: &[u8],
    state: &mut [u8],
    out: &mut [u8],
    to: &mut [u8],
) -> Result<usize, Refusal>
    requires { Handed k (length f.now) (length area.old) (length out.old) (length to.old) × (width k.params ≤ length initial.now)
        × (server_size ≤ length state.old) × Asks k }
    ensures { byte_outcome (reply_response result) area.new state.new out.new to.new
        ≡ byte_step digest_of k f.now area.old initial.now state.old out.old to.old }
{
    let h = k.header;
    let c = h.client as usize;
    let s = scope_at(state, c);
    let done = step_of_kind(s, k, f, area, initial, out, to)?;
    put_scope(done.scope, c, state);
    Ok(done.place.count)
}

// ---- frames after which writes may be accepted

// Kinds 4 and 5: the frame is counted in its client's scope, and then what can be accepted is.
fn step_of_vote(
    k: Call,
    f: &[u8],
    area: &mut [u8],
    state: &mut [u8],
    out: &mut [u8],
    to: &mut [u8],
) -> Result<usize, Refusal>
    requires { Handed k (length f.now) (length area.old) (length out.old) (length to.old) × (server_size ≤ length state.old)
        × (4 ≤ k.header.kind) × (k.header.kind ≤ 5) }
    ensures { (i : List ℕ) → byte_outcome (reply_response result) area.new state.new out.new to.new
        ≡ byte_step digest_of k f.now area.old i state.old out.old to.old }
{
    let h = k.header;
    let c = h.client as usize;
    let s = scope_at(state, c);
    let m = count_vote(s.slot, k, f, area, out, to)?;
    let y = Scope { slot: m.slot, ..s };
    put_scope(y, c, state);
    let last = settle(Server::CLIENTS, k.params, state, area, out, to, m.place);
    Ok(last.count)
}

// Kind 13: the report is kept, if it is its server's highest, and then what can be accepted is.
fn step_of_report(
    k: Call,
    f: &[u8],
    area: &mut [u8],
    state: &mut [u8],
    out: &mut [u8],
    to: &mut [u8],
) -> Result<usize, Refusal>
    requires { Handed k (length f.now) (length area.old) (length out.old) (length to.old) × (server_size ≤ length state.old)
        × (k.header.kind ≡ 13) }
    ensures { (i : List ℕ) → byte_outcome (reply_response result) area.new state.new out.new to.new
        ≡ byte_step digest_of k f.now area.old i state.old out.old to.old }
{
    let g = k.params;
    let from = k.from;
    if !from_server(g, from) {
        return Err(Refusal::Sender);
    }
    let j = number_in(from) as usize;
    let time = area::read8(f, BODY_AT);
    if time <= report_at(state, j) {
        return Err(Refusal::Stale);
    }
    put_report(time, j, state);
    let first = Place { at: 0, count: 0 };
    let last = settle(Server::CLIENTS, g, state, area, out, to, first);
    Ok(last.count)
}

// ---- any frame

// The step of a frame that was let in, by its kind.
pub fn step(
    k: Call,
    f: &[u8],
    area: &mut [u8],
    initial: &[u8],
    state: &mut [u8],
    out: &mut [u8],
    to: &mut [u8],
) -> Result<usize, Refusal>
    requires { Handed k (length f.now) (length area.old) (length out.old) (length to.old) × (width k.params ≤ length initial.now)
        × (server_size ≤ length state.old) }
    ensures { byte_outcome (reply_response result) area.new state.new out.new to.new
        ≡ byte_step digest_of k f.now area.old initial.now state.old out.old to.old }
{
    match k.header.kind {
        13 => step_of_report(k, f, area, state, out, to),
        4 | 5 => step_of_vote(k, f, area, state, out, to),
        _ => step_of_scope(k, f, area, initial, state, out, to),
    }
}
