// At a client: refusal 10 for each lent area that is short by one byte, beside the same call with an area that is long enough; and refusal 16, beside the
// last sequences that are left. Prints a line for each call. n = 4, t = 1, k = 2, values of three bytes in blocks of two.
ghost use Rattle.std.specs.Prelude.{◌≤◌};

use blocks::Params;
use client::begin::{begin_read, begin_write};
use client::fresh::fresh_client;
use client_deliver::deliver;
use client_rules::{Answer, Client};
use frame::Party;
use frame::places::{LAST_SEQUENCE, ROWS_BYTES};
use frame::refusals::number_of;
use std::io::Write;
use std::{fmt, io};

// The lengths that the areas must have: rows, result, four largest frames of 152 bytes, and their receivers.
const ROWS: usize = ROWS_BYTES;

const RESULT: usize = 3;

const OUT: usize = 608;

const TO: usize = 8;

// An area that a call is lent.
#[derive(Clone, Copy, Debug, PartialEq, Eq)]
enum Area {
    Rows,
    Outcome,
    Out,
    To,
}

impl Area {
    // The length of this area, one byte less if it is the one that is short.
    fn lent(self, length: usize, short: Option<Area>) -> usize
        ensures { result ≤ length }
    {
        length.saturating_sub(usize::from(short == Some(self)))
    }
}

impl fmt::Display for Area {
    fn fmt<W: fmt::Write>(&self, f: &mut fmt::Formatter<W>) -> fmt::Result {
        f.write_str(match self {
            Area::Rows => "rows",
            Area::Outcome => "result",
            Area::Out => "out",
            Area::To => "to",
        })
    }
}

// Every byte of a lent area before the call.
const LENT: u8 = 0xa5;

const VALUE: [u8; 3] = [1, 2, 3];

// A stamp with time 5 for write 1 of client 1.
const STAMP: [u8; 17] = [0, 15, 1, 2, 1, 0, 0, 0, 1, 0, 0, 0, 0, 0, 0, 0, 5];

const PARAMS: Params = Params {
    n: 4,
    t: 1,
    k: 2,
    size: 3,
};

// The name of a call, the area that is short, and the answer: the refusal's number, or how many frames were sent.
fn print<W: Write>(
    report: &mut W,
    name: &str,
    short: Option<Area>,
    answer: Answer,
) -> io::Result<()> {
    write!(report, "{name}")?;
    if let Some(area) = short {
        write!(report, ", {area} short by one byte")?;
    }
    match answer {
        Answer::Refused(r) => writeln!(report, ": refused {}", number_of(r)),
        Answer::Sent(m) => writeln!(report, ": sent {m}"),
        _ => writeln!(report),
    }
}

// Client 1 begins a read.
fn read<W: Write>(report: &mut W, name: &str, s: Client, short: Option<Area>) -> io::Result<()> {
    let mut out = [LENT; OUT];
    let mut to = [LENT; TO];
    let out = &mut out[..Area::Out.lent(OUT, short)];
    let to = &mut to[..Area::To.lent(TO, short)];
    let r = begin_read(PARAMS, 1, s, out, to);
    print(report, name, short, r.answer)
}

// Client 1 begins a write.
fn write<W: Write>(
    report: &mut W,
    name: &str,
    s: Client,
    short: Option<Area>,
) -> io::Result<Client> {
    let mut out = [LENT; OUT];
    let mut to = [LENT; TO];
    let out = &mut out[..Area::Out.lent(OUT, short)];
    let to = &mut to[..Area::To.lent(TO, short)];
    let r = begin_write(PARAMS, 1, s, &VALUE, out, to);
    print(report, name, short, r.answer)?;
    Ok(r.client)
}

// Client 1, whose write awaits stamps, gets one from server 1.
fn stamp<W: Write>(report: &mut W, s: Client, short: Option<Area>) -> io::Result<()> {
    let mut rows = [LENT; ROWS];
    let mut outcome = [LENT; RESULT];
    let mut out = [LENT; OUT];
    let mut to = [LENT; TO];
    let r = deliver(
        PARAMS,
        1,
        s,
        &VALUE,
        Party::Server(1),
        &STAMP,
        &mut rows[..Area::Rows.lent(ROWS, short)],
        &mut outcome[..Area::Outcome.lent(RESULT, short)],
        &mut out[..Area::Out.lent(OUT, short)],
        &mut to[..Area::To.lent(TO, short)],
    );
    print(report, "stamp", short, r.answer)
}

// Refusal 10.
fn rooms<W: Write>(report: &mut W, s: Client) -> io::Result<()> {
    for short in [Some(Area::Out), Some(Area::To), None] {
        read(report, "read", s, short)?;
    }
    for short in [Area::Out, Area::To] {
        write(report, "write", s, Some(short))?;
    }
    let s = write(report, "write", s, None)?;
    for short in [Area::Rows, Area::Outcome, Area::Out, Area::To] {
        stamp(report, s, Some(short))?;
    }
    stamp(report, s, None)
}

// A client that has begun this many reads and writes.
fn after(s: Client, count: u32) -> Client {
    Client {
        writes: count,
        reads: count,
        ..s
    }
}

// Refusal 16, and the last sequence before it.
fn sequences<W: Write>(report: &mut W, s: Client) -> io::Result<()> {
    let last = after(s, LAST_SEQUENCE);
    read(report, "read after 4294967295", last, None)?;
    write(report, "write after 4294967295", last, None)?;
    let before = after(s, LAST_SEQUENCE - 1);
    read(report, "read 4294967295", before, None)?;
    write(report, "write 4294967295", before, None)?;
    Ok(())
}

pub fn run<W: Write>(report: &mut W) -> io::Result<()> {
    let s = fresh_client();
    rooms(report, s)?;
    sequences(report, s)
}
