// A server's record as bytes.
ghost use Rattle.std.specs.Prelude.{◌≡◌, ◌+◌, ◌≤◌, length};
ghost use Rattle.std.proofs.lemmas.List.Edits.{sets};
ghost use Rattle.server_rules.specs.Scopes.{scope_of};
ghost use Rattle.server_rules.specs.State.{no_slot, no_reader, slot_of, report_of};
ghost use Rattle.layout.specs.Servers.{server_size, blocks_size, slot_size, reader_size, readers_size, marks_bytes, votes_bytes};
ghost use Rattle.layout.specs.Servers.{blocks_bytes, blocks_at, slot_bytes, slot_at, reader_bytes, reader_at, readers_at};
ghost use Rattle.layout.specs.Servers.{server_bytes, server_in, slot_sets, scope_sets, report_sets};

use crate::fields::{Field, STAMP_SIZE, get_all, put_all};
use frame::Stamp;
use server_rules::{BlockPart, Reader, Scope, Server, Slot};

// ---- sizes and places

pub const SERVER_SIZE: usize = 2216;

const SLOT_SIZE: usize = 217;

const READER_SIZE: usize = 18;

// The slots, the readers and the reports in the record.
const SLOTS_AT: usize = STAMP_SIZE;

pub const READERS_AT: usize = 1966;

const REPORTS_AT: usize = 2128;

// ---- the parts of a slot

fn put_marks(a: bool, b: bool, c: bool, out: &mut [u8], at: usize)
    requires { at + 3 ≤ length out.old }
    ensures { out.new ≡ sets out.old at (marks_bytes a b c) }
{
    a.put(out, at);
    b.put(out, at + 1);
    c.put(out, at + 2);
}

fn put_votes(echoes: &[bool; 11], readies: &[bool; 11], out: &mut [u8], at: usize)
    requires { at + 22 ≤ length out.old }
    ensures { out.new ≡ sets out.old at (votes_bytes echoes.now readies.now) }
{
    put_all(echoes, out, at);
    put_all(readies, out, at + 11);
}

fn put_blocks(b: &BlockPart, out: &mut [u8], at: usize)
    requires { at + blocks_size ≤ length out.old }
    ensures { out.new ≡ sets out.old at (blocks_bytes b.now) }
{
    put_marks(b.sent, b.ready, b.complete, out, at);
    area::write8(out, at + 3, b.time);
    put_votes(&b.echoes, &b.readies, out, at + 11);
    put_all(&b.echoed, out, at + 33);
    put_all(&b.readied, out, at + 121);
}

fn blocks_at(bytes: &[u8], at: usize) -> BlockPart
    requires { at + blocks_size ≤ length bytes.now }
    ensures { result ≡ blocks_at bytes.now at }
{
    BlockPart {
        sent: bool::get(bytes, at),
        ready: bool::get(bytes, at + 1),
        complete: bool::get(bytes, at + 2),
        time: area::read8(bytes, at + 3),
        echoes: get_all(bytes, at + 11),
        readies: get_all(bytes, at + 22),
        echoed: get_all(bytes, at + 33),
        readied: get_all(bytes, at + 121),
    }
}

// ---- slots

impl Field for Slot {
    ghost WIDTH = { slot_size };

    ghost written = { slot_bytes };

    ghost read = { slot_at };

    ghost blank = { no_slot };

    const WIDTH: usize = SLOT_SIZE;

    fn put(&self, out: &mut [u8], at: usize) {
        area::write8(out, at, self.sequence);
        put_blocks(&self.blocks, out, at + 8);
    }

    fn get(bytes: &[u8], at: usize) -> Slot {
        Slot {
            sequence: area::read8(bytes, at),
            blocks: blocks_at(bytes, at + 8),
        }
    }
}

// ---- readers

impl Field for Reader {
    ghost WIDTH = { reader_size };

    ghost written = { reader_bytes };

    ghost read = { reader_at };

    ghost blank = { no_reader };

    const WIDTH: usize = READER_SIZE;

    fn put(&self, out: &mut [u8], at: usize) {
        area::write4(out, at, self.sequence);
        self.listening.put(out, at + 4);
        self.noted.put(out, at + 5);
    }

    fn get(bytes: &[u8], at: usize) -> Reader {
        Reader {
            sequence: area::read4(bytes, at),
            listening: bool::get(bytes, at + 4),
            noted: Stamp::get(bytes, at + 5),
        }
    }
}

pub fn readers_at(bytes: &[u8], at: usize) -> [Reader; Server::PLACES]
    requires { at + readers_size ≤ length bytes.now }
    ensures { result ≡ readers_at bytes.now at }
{
    get_all(bytes, at)
}

// ---- the record

// Writes the record of a server from index at on.
pub fn put_server(s: Server, out: &mut [u8], at: usize)
    requires { at + server_size ≤ length out.old }
    ensures { out.new ≡ sets out.old at (server_bytes s) }
{
    s.stamp.put(out, at);
    put_all(&s.slots, out, at + SLOTS_AT);
    put_all(&s.readers, out, at + READERS_AT);
    put_all(&s.reports, out, at + REPORTS_AT);
}

// ---- one client's scope in the record

// Client c's scope in the record that the bytes from index 0 on say.
pub fn scope_at(bytes: &[u8], c: usize) -> Scope
    requires { (server_size ≤ length bytes.now) × (c ≤ 8) }
    ensures { result ≡ scope_of (server_in bytes.now) c }
{
    Scope {
        stamp: Stamp::get(bytes, 0),
        slot: Slot::get(bytes, SLOTS_AT + c * SLOT_SIZE),
        reader: Reader::get(bytes, READERS_AT + c * READER_SIZE),
    }
}

// Writes the stamp and client c's slot into the record at index 0.
pub fn put_opened(x: Stamp, y: Slot, c: usize, out: &mut [u8])
    requires { (server_size ≤ length out.old) × (c ≤ 8) }
    ensures { out.new ≡ slot_sets out.old c x y }
{
    x.put(out, 0);
    y.put(out, SLOTS_AT + c * SLOT_SIZE);
}

// The same with client c's reader.
pub fn put_scope(x: Scope, c: usize, out: &mut [u8])
    requires { (server_size ≤ length out.old) × (c ≤ 8) }
    ensures { out.new ≡ scope_sets out.old c x.stamp x.slot x.reader }
{
    put_opened(x.stamp, x.slot, c, out);
    x.reader.put(out, READERS_AT + c * READER_SIZE);
}

// ---- what may be accepted

// Whether the open write of client c is complete.
pub fn complete_at(bytes: &[u8], c: usize) -> bool
    requires { (server_size ≤ length bytes.now) × (c ≤ 8) }
    ensures { result ≡ (slot_of (server_in bytes.now) c).blocks.complete }
{
    bool::get(bytes, SLOTS_AT + c * SLOT_SIZE + 10)
}

// The time with which it is.
pub fn time_at(bytes: &[u8], c: usize) -> u64
    requires { (server_size ≤ length bytes.now) × (c ≤ 8) }
    ensures { result ≡ (slot_of (server_in bytes.now) c).blocks.time }
{
    area::read8(bytes, SLOTS_AT + c * SLOT_SIZE + 11)
}

// The sequence of the open write of client c.
pub fn sequence_at(bytes: &[u8], c: usize) -> u64
    requires { (server_size ≤ length bytes.now) × (c ≤ 8) }
    ensures { result ≡ (slot_of (server_in bytes.now) c).sequence }
{
    area::read8(bytes, SLOTS_AT + c * SLOT_SIZE)
}

// The server's own time.
pub fn own_time(bytes: &[u8]) -> u64
    requires { server_size ≤ length bytes.now }
    ensures { result ≡ (server_in bytes.now).stamp.time }
{
    area::read8(bytes, 0)
}

// ---- reports

// The highest report of each server.
pub fn reports_at(bytes: &[u8]) -> [u64; 11]
    requires { server_size ≤ length bytes.now }
    ensures { result ≡ (server_in bytes.now).reports }
{
    get_all(bytes, REPORTS_AT)
}

// That of server j.
pub fn report_at(bytes: &[u8], j: usize) -> u64
    requires { (server_size ≤ length bytes.now) × (j ≤ 10) }
    ensures { result ≡ report_of (server_in bytes.now) j }
{
    area::read8(bytes, REPORTS_AT + j * 8)
}

pub fn put_report(time: u64, j: usize, out: &mut [u8])
    requires { (server_size ≤ length out.old) × (j ≤ 10) }
    ensures { out.new ≡ report_sets out.old j time }
{
    area::write8(out, REPORTS_AT + j * 8, time);
}
