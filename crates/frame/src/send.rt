// Frames written end to end into the out area, and the class and number of each receiver into the to area.
ghost use Rattle.std.specs.Prelude.{◌≡◌, ◌∷◌, [], ◌++◌, ◌+◌, ◌*◌, ◌≤◌, ◌<◌, length};
ghost use Rattle.std.proofs.lemmas.List.Edits.{sets};
ghost use Rattle.area.specs.Numbers.{bytes8};
ghost use Rattle.frame.specs.Params.{Bounded};
ghost use Rattle.frame.specs.Messages.{entry, offer, message, sending, to_all, to_clients, report, ack, stamp_is, block_is, value_is, send};
ghost use Rattle.frame.specs.Frames.{kind_of, stamp_bytes, header_bytes, frame_of};
ghost use Rattle.frame.specs.Outbox.{outbox, sent, wrote, wrote_to, Room, stage_of, ask_of};

use crate::parties::{party_bytes, party_in};
use crate::places::{BODY_AT, VERSION};
use crate::{Ask, Broadcast, Header, Party, Place, Stamp, WriteTime};
use blocks::Params;

// The bytes before the body, of which size follow.
fn header_bytes(size: usize, h: Header) -> [u8; 9]
    ensures { result ≡ header_bytes size h.kind h.client h.sequence }
{
    [
        (size / 256 % 256) as u8,
        (size % 256) as u8,
        VERSION,
        h.kind,
        h.client,
        (h.sequence / 65536 / 256 % 256) as u8,
        (h.sequence / 65536 % 256) as u8,
        (h.sequence % 65536 / 256 % 256) as u8,
        (h.sequence % 65536 % 256) as u8,
    ]
}

// A time, as a frame's body holds it.
fn time_bytes(time: u64) -> [u8; 8]
    ensures { result ≡ bytes8 time }
{
    let mut b = [0u8; 8];
    area::write8(&mut b, 0, time);
    b
}

// A stamp, as a value's body holds it.
fn stamp_bytes(s: Stamp) -> [u8; 13]
    ensures { result ≡ stamp_bytes s }
{
    let mut b = [0u8; 13];
    area::write8(&mut b, 0, s.time);
    b[8] = s.writer;
    area::write4(&mut b, 9, s.sequence);
    b
}

// The body of a frame to be sent, in three parts: a time or a stamp, a digest list, and a block.
#[derive(Clone, Copy)]
pub struct Body<'a> {
    pub lead: &'a [u8],
    pub digests: &'a [u8],
    pub block: &'a [u8],
}

// Writes a frame from index at on.
fn put_frame(out: &mut [u8], at: usize, h: Header, b: Body)
    requires { at + (9 + (length b.lead.now + (length b.digests.now + length b.block.now))) ≤ length out.old }
    ensures { out.new
        ≡ sets out.old at (frame_of h.kind h.client h.sequence (b.entry.lead.now ++ (b.entry.digests.now ++ b.entry.block.now))) }
{
    let body = at + BODY_AT;
    let list = body + b.lead.len();
    let size = 7 + (b.lead.len() + (b.digests.len() + b.block.len()));
    area::put(out, at, &header_bytes(size, h));
    area::put(out, body, b.lead);
    area::put(out, list, b.digests);
    area::put(out, list + b.digests.len(), b.block);
}

// Sends one frame, after those that are there already.
pub fn deposit(
    out: &mut [u8],
    to: &mut [u8],
    p: Place,
    receiver: Party,
    h: Header,
    b: Body,
) -> Place
    requires { Room p 1 (9 + (length b.lead.now + (length b.digests.now + length b.block.now))) (length out.old) (length to.old) }
    ensures { outbox out.new to.new result
        ≡ wrote (outbox out.old to.old p) receiver
        (frame_of h.kind h.client h.sequence (b.entry.lead.now ++ (b.entry.digests.now ++ b.entry.block.now))) }
{
    let bytes = party_bytes(receiver);
    area::put(to, 2 * p.count, &bytes);
    put_frame(out, p.at, h, b);
    Place {
        at: p.at + (BODY_AT + (b.lead.len() + (b.digests.len() + b.block.len()))),
        count: p.count + 1,
    }
}

// Sends one frame to each of the parties 1 to n of a class: 0 is clients, 1 servers.
pub fn deposit_all(
    out: &mut [u8],
    to: &mut [u8],
    p: Place,
    class: u8,
    n: usize,
    h: Header,
    b: Body,
) -> Place
    requires { (n ≤ 10) × Room p n (9 + (length b.lead.now + (length b.digests.now + length b.block.now))) (length out.old) (length to.old) }
    ensures { outbox out.new to.new result
        ≡ wrote_to class (outbox out.old to.old p)
        (frame_of h.kind h.client h.sequence (b.entry.lead.now ++ (b.entry.digests.now ++ b.entry.block.now))) n }
{
    let mut q = p;
    for j in 0..n {
        q = deposit(out, to, q, party_in(class, j as u8 + 1), h, b);
    }
    q
}

fn block_kind(z: Broadcast) -> u8
    ensures { result ≡ kind_of (block_is (stage_of z) (offer 0 (entry [] []))) }
{
    z as u8
}

fn ask_kind(a: Ask) -> u8
    ensures { result ≡ kind_of (ask_of a) }
{
    a as u8
}

// Sends a client's question with no body to all servers.
pub fn ask_all(
    out: &mut [u8],
    to: &mut [u8],
    p: Place,
    g: Params,
    a: Ask,
    client: u8,
    sequence: u32,
) -> Place
    requires { Bounded g × Room p g.n 9 (length out.old) (length to.old) }
    ensures { outbox out.new to.new result
        ≡ sent (outbox out.old to.old p) (to_all g (λ j. message client sequence (ask_of a))) }
{
    let h = Header {
        kind: ask_kind(a),
        client,
        sequence,
    };
    let b = Body {
        lead: &[],
        digests: &[],
        block: &[],
    };
    deposit_all(out, to, p, 1, g.n, h, b)
}

// Sends a step of a write's broadcast, the same time, digest list and block, to all servers.
pub fn block_all(
    out: &mut [u8],
    to: &mut [u8],
    p: Place,
    g: Params,
    z: Broadcast,
    w: WriteTime,
    digests: &[u8],
    block: &[u8],
) -> Place
    requires { Bounded g × Room p g.n (17 + (length digests.now + length block.now)) (length out.old) (length to.old) }
    ensures { outbox out.new to.new result ≡ sent (outbox out.old to.old p)
        (to_all g (λ j. message w.client w.sequence (block_is (stage_of z) (offer w.time (entry digests.now block.now))))) }
{
    let h = Header {
        kind: block_kind(z),
        client: w.client,
        sequence: w.sequence,
    };
    let t = time_bytes(w.time);
    let b = Body {
        lead: &t,
        digests,
        block,
    };
    deposit_all(out, to, p, 1, g.n, h, b)
}

// Sends server j its block of a write.
pub fn send_block(
    out: &mut [u8],
    to: &mut [u8],
    p: Place,
    j: u8,
    w: WriteTime,
    digests: &[u8],
    block: &[u8],
) -> Place
    requires { Room p 1 (17 + (length digests.now + length block.now)) (length out.old) (length to.old) }
    ensures { outbox out.new to.new result ≡ sent (outbox out.old to.old p)
        (sending (Party.Server j)
        (message w.client w.sequence (block_is send (offer w.time (entry digests.now block.now)))) ∷ []) }
{
    let h = Header {
        kind: 3,
        client: w.client,
        sequence: w.sequence,
    };
    let t = time_bytes(w.time);
    let b = Body {
        lead: &t,
        digests,
        block,
    };
    deposit(out, to, p, Party::Server(j), h, b)
}

// Sends a client the server's present time.
pub fn send_stamp(
    out: &mut [u8],
    to: &mut [u8],
    p: Place,
    client: u8,
    sequence: u32,
    time: u64,
) -> Place
    requires { Room p 1 17 (length out.old) (length to.old) }
    ensures { outbox out.new to.new result
        ≡ sent (outbox out.old to.old p) (sending (Party.Client client) (message client sequence (stamp_is time)) ∷ []) }
{
    let h = Header {
        kind: 2,
        client,
        sequence,
    };
    let t = time_bytes(time);
    let b = Body {
        lead: &t,
        digests: &[],
        block: &[],
    };
    deposit(out, to, p, Party::Client(client), h, b)
}

// Sends a client the acknowledgement of its write.
pub fn send_ack(out: &mut [u8], to: &mut [u8], p: Place, client: u8, sequence: u32) -> Place
    requires { Room p 1 9 (length out.old) (length to.old) }
    ensures { outbox out.new to.new result
        ≡ sent (outbox out.old to.old p) (sending (Party.Client client) (message client sequence ack) ∷ []) }
{
    let h = Header {
        kind: 9,
        client,
        sequence,
    };
    let b = Body {
        lead: &[],
        digests: &[],
        block: &[],
    };
    deposit(out, to, p, Party::Client(client), h, b)
}

// Sends a client a value.
pub fn send_value(
    out: &mut [u8],
    to: &mut [u8],
    p: Place,
    client: u8,
    sequence: u32,
    s: Stamp,
    digests: &[u8],
    block: &[u8],
) -> Place
    requires { Room p 1 (22 + (length digests.now + length block.now)) (length out.old) (length to.old) }
    ensures { outbox out.new to.new result
        ≡ sent (outbox out.old to.old p)
        (sending (Party.Client client) (message client sequence (value_is s (entry digests.now block.now))) ∷ []) }
{
    let h = Header {
        kind: 11,
        client,
        sequence,
    };
    let t = stamp_bytes(s);
    let b = Body {
        lead: &t,
        digests,
        block,
    };
    deposit(out, to, p, Party::Client(client), h, b)
}

// Sends the report of a server's time, after a client's write, to all servers and to clients 1 to 8.
pub fn send_report(out: &mut [u8], to: &mut [u8], p: Place, g: Params, w: WriteTime) -> Place
    requires { Bounded g × Room p (g.n + 8) 17 (length out.old) (length to.old) }
    ensures { outbox out.new to.new result ≡ sent (outbox out.old to.old p)
        (to_all g (λ j. message w.client w.sequence (report w.time)) ++ to_clients (message w.client w.sequence (report w.time))) }
{
    let h = Header {
        kind: 13,
        client: w.client,
        sequence: w.sequence,
    };
    let t = time_bytes(w.time);
    let b = Body {
        lead: &t,
        digests: &[],
        block: &[],
    };
    let q = deposit_all(out, to, p, 1, g.n, h, b);
    deposit_all(out, to, q, 0, 8, h, b)
}
