// A client begins a read or a write.
ghost use Rattle.std.specs.Prelude.{◌≡◌, length};
ghost use Rattle.frame.specs.Params.{params_test};
ghost use Rattle.frame.specs.Refusals.{and_then, fine};
ghost use Rattle.frame.specs.Stamps.{last_client};
ghost use Rattle.client_rules.specs.Tests.{send_room};
ghost use Rattle.client_rules.specs.Beginning.{begun, idle_test, closed_test, length_test, open_read, open_write, begun_of, read_beginning, write_beginning};
ghost use Rattle.client.specs.Stages.{Opening};

use crate::fresh::fresh_rows;
use crate::tests::{closed_test, idle_test, length_test, send_room};
use blocks::Params;
use client_rules::{Answer, Answered, Client, Phase};
use frame::bounds::params_test;
use frame::places::CLIENTS;
use frame::send::ask_all;
use frame::{Ask, Place, Refusal};

// Refusals 1, 2, 3, 10, 15 and 16 of a read; last is the last number used.
fn read_test(
    g: Params,
    me: usize,
    p: Phase,
    last: u32,
    out: usize,
    to: usize,
) -> Result<(), Refusal>
    ensures { result ≡ and_then (params_test g me last_client) (and_then (send_room g out to) (idle_test p last)) }
{
    params_test(g, me, CLIENTS)?;
    send_room(g, out, to)?;
    idle_test(p, last)
}

// Refusals 15, 16 and 17 of a write.
fn ready_test(p: Phase, last: u32, closed: bool) -> Result<(), Refusal>
    ensures { result ≡ and_then (idle_test p last) (closed_test closed) }
{
    idle_test(p, last)?;
    closed_test(closed)
}

// Refusals 1, 2, 3, 10, 15, 16 and 17 of a write of a value of this length.
fn write_test(
    g: Params,
    me: usize,
    p: Phase,
    last: u32,
    closed: bool,
    size: usize,
    out: usize,
    to: usize,
) -> Result<(), Refusal>
    ensures { result ≡ and_then (params_test g me last_client)
        (and_then (length_test g size) (and_then (send_room g out to) (and_then (idle_test p last) (closed_test closed)))) }
{
    params_test(g, me, CLIENTS)?;
    length_test(g, size)?;
    send_room(g, out, to)?;
    ready_test(p, last, closed)
}

// "Read to all."; the rows are empty.
fn open_read(g: Params, me: u8, s: Client, out: &mut [u8], to: &mut [u8]) -> Answered
    requires { Opening g s.reads (length out.old) (length to.old) }
    ensures { begun result out.new to.new ≡ begun_of g me fine (open_read g me s) out.old to.old }
{
    let reads = s.reads + 1;
    let rows = fresh_rows();
    let start = Place { at: 0, count: 0 };
    let end = ask_all(out, to, start, g, Ask::Read, me, reads);
    let client = Client {
        reads,
        phase: Phase::Reading,
        rows,
        ..s
    };
    Answered {
        answer: Answer::Sent(end.count),
        client,
    }
}

// "Get-stamp to all."
fn open_write(g: Params, me: u8, s: Client, out: &mut [u8], to: &mut [u8]) -> Answered
    requires { Opening g s.writes (length out.old) (length to.old) }
    ensures { begun result out.new to.new ≡ begun_of g me fine (open_write g me s) out.old to.old }
{
    let writes = s.writes + 1;
    let heard = [false; 11];
    let times = [0; 11];
    let start = Place { at: 0, count: 0 };
    let end = ask_all(out, to, start, g, Ask::GetStamp, me, writes);
    let client = Client {
        writes,
        phase: Phase::Asking,
        heard,
        times,
        ..s
    };
    Answered {
        answer: Answer::Sent(end.count),
        client,
    }
}

// Begins a read: the entry point.
pub fn begin_read(g: Params, me: u8, s: Client, out: &mut [u8], to: &mut [u8]) -> Answered
    ensures { begun result out.new to.new ≡ read_beginning g me s out.old to.old }
{
    let p = s.phase;
    let verdict = read_test(g, me as usize, p, s.reads, out.len(), to.len());
    if let Err(r) = verdict {
        return Answered {
            answer: Answer::Refused(r),
            client: s,
        };
    }
    open_read(g, me, s, out, to)
}

// Begins the write of a value: the entry point.
pub fn begin_write(
    g: Params,
    me: u8,
    s: Client,
    value: &[u8],
    out: &mut [u8],
    to: &mut [u8],
) -> Answered
    ensures { begun result out.new to.new ≡ write_beginning g me s value.now out.old to.old }
{
    let p = s.phase;
    let verdict = write_test(
        g,
        me as usize,
        p,
        s.writes,
        s.closed,
        value.len(),
        out.len(),
        to.len(),
    );
    if let Err(r) = verdict {
        return Answered {
            answer: Answer::Refused(r),
            client: s,
        };
    }
    open_write(g, me, s, out, to)
}
