// A client's record as bytes.
ghost use Rattle.std.specs.Prelude.{◌≡◌, ◌+◌, ◌≤◌, length};
ghost use Rattle.std.proofs.lemmas.List.Edits.{sets};
ghost use Rattle.client_rules.specs.State.{no_row};
ghost use Rattle.layout.specs.Clients.{client_size, phase_byte, phase_in, kept_bytes, kept_at, head_bytes, client_bytes, client_at};

use crate::fields::{Field, get_all, put_all};
use client_rules::{Client, Phase, Row};

pub const CLIENT_SIZE: usize = 857;

// ---- the phase

fn phase_byte(p: Phase) -> u8
    ensures { result ≡ phase_byte p }
{
    p as u8
}

fn phase_in(x: u8) -> Phase
    ensures { result ≡ phase_in x }
{
    match x {
        1 => Phase::Asking,
        2 => Phase::Acking,
        3 => Phase::Reading,
        _ => Phase::Idle,
    }
}

// ---- rows

impl Field for Row {
    ghost WIDTH = { 60 };

    ghost written = { kept_bytes };

    ghost read = { kept_at };

    ghost blank = { no_row };

    const WIDTH: usize = 60;

    fn put(&self, out: &mut [u8], at: usize) {
        area::write8(out, at, self.count as u64);
        put_all(&self.stamps, out, at + 8);
    }

    fn get(bytes: &[u8], at: usize) -> Row {
        Row {
            count: area::read8(bytes, at) as usize,
            stamps: get_all(bytes, at + 8),
        }
    }
}

// ---- the record

fn put_head(writes: u32, reads: u32, closed: bool, phase: Phase, out: &mut [u8], at: usize)
    requires { at + 10 ≤ length out.old }
    ensures { out.new ≡ sets out.old at (head_bytes writes reads closed phase) }
{
    area::write4(out, at, writes);
    area::write4(out, at + 4, reads);
    closed.put(out, at + 8);
    out[at + 9] = phase_byte(phase);
}

// Writes the record of a client from index at on.
pub fn put_client(s: Client, out: &mut [u8], at: usize)
    requires { at + client_size ≤ length out.old }
    ensures { out.new ≡ sets out.old at (client_bytes s) }
{
    put_head(s.writes, s.reads, s.closed, s.phase, out, at);
    put_all(&s.heard, out, at + 10);
    put_all(&s.times, out, at + 21);
    put_all(&s.rows, out, at + 109);
    put_all(&s.reports, out, at + 769);
}

// The record of a client that the bytes from index at on say.
pub fn client_at(bytes: &[u8], at: usize) -> Client
    requires { at + client_size ≤ length bytes.now }
    ensures { result ≡ client_at bytes.now at }
{
    Client {
        writes: area::read4(bytes, at),
        reads: area::read4(bytes, at + 4),
        closed: bool::get(bytes, at + 8),
        phase: phase_in(bytes[at + 9]),
        heard: get_all(bytes, at + 10),
        times: get_all(bytes, at + 21),
        rows: get_all(bytes, at + 109),
        reports: get_all(bytes, at + 769),
    }
}
