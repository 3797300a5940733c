// A client, whose record the host keeps as bytes.
ghost use Rattle.std.specs.Prelude.{◌≡◌, ◌≤◌, length};
ghost use Rattle.layout.specs.Fields.{stamp_size};
ghost use Rattle.layout.specs.Clients.{client_size};
ghost use Rattle.client_rules.specs.Answers.{answer_response};
ghost use Rattle.site.specs.Answers.{client_answer};
ghost use Rattle.semduoli.specs.Calls.{params, wrote, fresh_call, began, state_after, read_call, write_call};
ghost use Rattle.semduoli.specs.Handed.{sender_of, stamp_after, client_got, client_call};

use crate::senders::sender_of;
use blocks::Params;
use client::fresh::fresh_client;
use client_rules::{Answer, Client};
use frame::places::CLIENTS;
use layout::clients::{CLIENT_SIZE, client_at, put_client};
use layout::fields::{Field, STAMP_SIZE};
use site::answers::{client_answer, is_refusal, test_answer};
use site::short::{frame_short, read_short, stamp_short, value_short};

// Writes a fresh client's record.
pub fn semduoli_client_fresh(state: &mut [u8]) -> u64
    ensures { wrote result state.new ≡ fresh_call state.old }
{
    if state.len() < CLIENT_SIZE {
        return 10;
    }
    let s = fresh_client();
    put_client(s, state, 0);
    0
}

// ---- the record after a call

// Writes the record, unless the call was turned down.
fn keep(a: Answer, s: Client, state: &mut [u8], n: usize) -> u64
    requires { client_size ≤ length state.old }
    ensures { wrote result state.new ≡ wrote (client_answer n (answer_response a)) (state_after (answer_response a) s state.old) }
{
    if !is_refusal(a) {
        put_client(s, state, 0);
    }
    client_answer(a, n)
}

// ---- an operation begins

// Begins a read.
pub fn semduoli_begin_read(
    n: usize,
    t: usize,
    k: usize,
    size: usize,
    me: usize,
    state: &mut [u8],
    out: &mut [u8],
    to: &mut [u8],
) -> u64
    ensures { began result state.new out.new to.new
        ≡ read_call (params n t k size) me state.old out.old to.old }
{
    if CLIENTS < me {
        return 1;
    }
    let own = me as u8;
    let g = Params { n, t, k, size };
    if state.len() < CLIENT_SIZE {
        let short = read_short(g, own);
        return test_answer(short);
    }
    let s = client_at(state, 0);
    let done = client::begin::begin_read(g, own, s, out, to);
    keep(done.answer, done.client, state, n)
}

// Begins the write of a value of size bytes.
pub fn semduoli_begin_write(
    n: usize,
    t: usize,
    k: usize,
    size: usize,
    me: usize,
    state: &mut [u8],
    value: &[u8],
    out: &mut [u8],
    to: &mut [u8],
) -> u64
    ensures { began result state.new out.new to.new
        ≡ write_call (params n t k size) me value.now state.old out.old to.old }
{
    if CLIENTS < me {
        return 1;
    }
    let own = me as u8;
    let g = Params { n, t, k, size };
    if state.len() < CLIENT_SIZE {
        let short = value_short(g, own, CLIENTS, value.len());
        return test_answer(short);
    }
    let s = client_at(state, 0);
    let done = client::begin::begin_write(g, own, s, value, out, to);
    keep(done.answer, done.client, state, n)
}

// ---- a frame is handed in

// Writes the stamp of a completed read.
fn put_read(a: Answer, stamp: &mut [u8])
    requires { stamp_size ≤ length stamp.old }
    ensures { stamp.new ≡ stamp_after (answer_response a) stamp.old }
{
    if let Answer::Value(x) = a {
        x.put(stamp, 0);
    }
}

// Delivers a frame to client me; where a write is open, its value is lent.
pub fn semduoli_client_deliver(
    n: usize,
    t: usize,
    k: usize,
    size: usize,
    me: usize,
    class: usize,
    sender: usize,
    value: &[u8],
    f: &[u8],
    rows: &mut [u8],
    res: &mut [u8],
    stamp: &mut [u8],
    state: &mut [u8],
    out: &mut [u8],
    to: &mut [u8],
) -> u64
    ensures { client_got result rows.new res.new stamp.new state.new out.new to.new
        ≡ client_call (params n t k size) me (sender_of class sender) value.now f.now rows.old res.old
        stamp.old state.old out.old to.old }
{
    if CLIENTS < me {
        return 1;
    }
    let own = me as u8;
    let g = Params { n, t, k, size };
    if state.len() < CLIENT_SIZE {
        let short = frame_short(g, own, CLIENTS, f);
        return test_answer(short);
    }
    let s = client_at(state, 0);
    if stamp.len() < STAMP_SIZE {
        let short = stamp_short(g, own, s, value.len(), f);
        return test_answer(short);
    }
    let from = sender_of(class, sender);
    let done = site::lend(s, g, own, value, from, f, rows, res, out, to);
    put_read(done.answer, stamp);
    keep(done.answer, done.client, state, n)
}
