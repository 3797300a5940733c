// Acceptance: the write of a client that is complete. Only here are readers and the stamp seen.
#![tactic(auto)]

ghost use Rattle.std.specs.Prelude.{◌≡◌, ◌+◌, ◌*◌, ◌≤◌, ◌<◌, length, ◌++◌, []};
ghost use Rattle.std.proofs.lemmas.List.Edits.{sets};
ghost use Rattle.area.specs.Area.{pick, part};
ghost use Rattle.frame.specs.Params.{Bounded};
ghost use Rattle.frame.specs.Stamps.{last_time};
ghost use Rattle.frame.specs.Messages.{entry, message, report, to_all, to_clients};
ghost use Rattle.frame.specs.Outbox.{outbox, sent, Room};
ghost use Rattle.frame.specs.Chunks.{entry_at, present_at, store_if, chunk_bytes, chunk_at};
ghost use Rattle.frame.specs.Frames.{value_at};
ghost use Rattle.server_rules.specs.Steps.{accept, tell_from};
ghost use Rattle.server.specs.Stages.{Lent};
ghost use Rattle.server_accept.specs.Telling.{told_to, opens_in, ripe_at, write_in, Freeing};

use blocks::Params;
use frame::bounds::width;
use frame::entries::{block_at, digests_at};
use frame::places::{BLOCK_AT, CHUNK_BYTES, CLIENT_CHUNKS, ECHOES_BACK, LAST_SEQUENCE};
use frame::send::{send_ack, send_report, send_value};
use frame::stamps::is_older;
use frame::{Place, Stamp, WriteTime};
use group::vouching::is_backed;
use server_rules::fresh::fresh_slot;
use server_rules::{Reader, Scope, Server};

// What an acceptance leaves of its client's scope, and where the next frame of the step goes.
#[derive(Clone, Copy)]
pub struct Freed {
    pub scope: Scope,
    pub place: Place,
}

// Sends reader r, client c, a value if it listens and its noted stamp is smaller.
fn tell_one(
    r: Reader,
    c: u8,
    x: Stamp,
    digests: &[u8],
    block: &[u8],
    out: &mut [u8],
    to: &mut [u8],
    p: Place,
) -> Place
    requires { Room p 1 (value_at + (length digests.now + length block.now)) (length out.old) (length to.old) }
    ensures { outbox out.new to.new result
        ≡ sent (outbox out.old to.old p) (told_to r c x (entry digests.now block.now)) }
{
    if !r.listening || !is_older(r.noted, x) {
        return p;
    }
    send_value(out, to, p, c, r.sequence, x, digests, block)
}

// The value goes to each listener whose noted stamp is smaller, by rising client number.
fn tell(
    readers: [Reader; Server::PLACES],
    x: Stamp,
    digests: &[u8],
    block: &[u8],
    out: &mut [u8],
    to: &mut [u8],
    p: Place,
) -> Place
    requires { Room p 8 (value_at + (length digests.now + length block.now)) (length out.old) (length to.old) }
    ensures { outbox out.new to.new result
        ≡ sent (outbox out.old to.old p) (tell_from readers x (entry digests.now block.now) 1 8) }
{
    let mut q = p;
    for c in 1..Server::PLACES {
        q = tell_one(readers[c], c as u8, x, digests, block, out, to, q);
    }
    q
}

// Sends the reports of an acceptance, if the time grows with it.
fn report_if(due: bool, out: &mut [u8], to: &mut [u8], p: Place, g: Params, w: WriteTime) -> Place
    requires { Bounded g × Room p (g.n + 8) 17 (length out.old) (length to.old) }
    ensures { outbox out.new to.new result ≡ sent (outbox out.old to.old p)
        (pick due (to_all g (λ j. message w.client w.sequence (report w.time))
        ++ to_clients (message w.client w.sequence (report w.time))) []) }
{
    if due {
        return send_report(out, to, p, g, w);
    }
    p
}

// The entry of chunk p becomes the present one, if its stamp is newer.
fn replace(newer: bool, area: &mut [u8], g: Params, p: usize)
    requires { Bounded g × (1 ≤ p) × (chunk_at p + chunk_bytes ≤ length area.old) }
    ensures { area.new ≡ store_if newer area.old present_at (entry_at g area.old p) }
{
    if newer {
        let w = width(g);
        let list = CHUNK_BYTES * p;
        let block = list + BLOCK_AT;
        area.copy_within(list..list + 32 * g.n, 0);
        area.copy_within(block..block + w, BLOCK_AT);
    }
}

// The next sequence opens, and the stamp is the larger one.
fn opens_next(s: Scope, newer: bool, x: Stamp) -> Scope
    requires { s.slot.sequence < 4294967296 }
    ensures { result ≡ opens_in s newer x }
{
    Scope {
        stamp: if newer { x } else { s.stamp },
        slot: fresh_slot(s.slot.sequence + 1),
        ..s
    }
}

// Whether a completed write can be accepted: neither its time nor its sequence is past the last, and its time is vouched.
pub fn is_ripe(time: u64, sequence: u64, own: u64, reports: [u64; 11], g: Params) -> bool
    requires { Bounded g }
    ensures { result ≡ ripe_at g own reports time sequence }
{
    time < Server::LAST_TIME
        && sequence <= LAST_SEQUENCE as u64
        && (time <= own || is_backed(reports, g, time))
}

// The write of client c's scope is accepted, with the time and the entry that were completed.
pub fn accept(
    s: Scope,
    readers: [Reader; Server::PLACES],
    g: Params,
    c: u8,
    area: &mut [u8],
    out: &mut [u8],
    to: &mut [u8],
    p: Place,
) -> Freed
    requires { Lent g c (length area.old) p (g.n + 17) (length out.old) (length to.old)
        × (s.slot.blocks.time < last_time) × (s.slot.sequence < 4294967296) }
    ensures { Freeing s readers c (λ w. accept g w area.old (write_in g s c area.old))
        (outbox out.old to.old p) result area.new out.new to.new }
{
    let i = c as usize;
    let from = CLIENT_CHUNKS * i - ECHOES_BACK;
    let slot = s.slot;
    let b = slot.blocks;
    let q = slot.sequence as u32;
    let x = Stamp {
        time: b.time + 1,
        writer: c,
        sequence: q,
    };
    let newer = is_older(s.stamp, x);
    let digests = digests_at(area, from, g);
    let block = block_at(area, from, g);
    let told = tell(readers, x, digests, block, out, to, p);
    let acked = send_ack(out, to, told, c, q);
    let w = WriteTime {
        client: c,
        sequence: q,
        time: x.time,
    };
    let place = report_if(s.stamp.time < x.time, out, to, acked, g, w);
    replace(newer, area, g, from);
    let scope = opens_next(s, newer, x);
    Freed { scope, place }
}
