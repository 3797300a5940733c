// A server goes on from a kept record: the entries of a trace are handed to it one after the other.
ghost use Rattle.std.specs.Prelude.{◌≡◌};
ghost use Rattle.sha256.specs.Hash.{digest_of};
ghost use Rattle.entries.specs.Entries.{trace_of};
ghost use Rattle.playback.specs.Playback.{playback_response};
ghost use Rattle.playback.specs.Resume.{areas, resumed, resume_test, resumption, byte_resumption};

use crate::{Summary, ending_of};
use blocks::Params;
use entries::FRAME_AT;
use entries::reader::{read_entry, survey};
use frame::Refusal;
use frame::bounds::params_test;
use layout::servers::SERVER_SIZE;
use server::tests::room_test;
use server_deliver::deliver;

// Refusals 1, 2, 3, and 10 of each area.
fn resume_test(
    g: Params,
    me: usize,
    state: usize,
    area: usize,
    initial: usize,
    out: usize,
    to: usize,
) -> Result<(), Refusal>
    ensures { result ≡ resume_test g me state area initial out to }
{
    params_test(g, me, g.n)?;
    if state < SERVER_SIZE {
        return Err(Refusal::Room);
    }
    room_test(g, area, initial, out, to)
}

// Hands every entry of the trace to the server.
fn resume_all(
    g: Params,
    me: usize,
    trace: &[u8],
    area: &mut [u8],
    initial: &[u8],
    state: &mut [u8],
    out: &mut [u8],
    to: &mut [u8],
)
    ensures { areas area.new state.new out.new to.new
        ≡ resumed digest_of g me initial.now (areas area.old state.old out.old to.old)
        (trace_of trace.now).entries }
{
    let mut at: usize = 0;
    // No `for`: a turn goes on by the length of an entry.
    loop {
        let rest = &trace[at..];
        let Ok(found) = read_entry(rest) else {
            return;
        };
        let _ = deliver(
            g,
            me,
            found.sender,
            &rest[FRAME_AT..found.end],
            area,
            initial,
            state,
            out,
            to,
        );
        at += found.end;
    }
}

// Goes on from the record in state with the entries of a trace.
pub fn resume(
    g: Params,
    me: usize,
    trace: &[u8],
    area: &mut [u8],
    initial: &[u8],
    state: &mut [u8],
    out: &mut [u8],
    to: &mut [u8],
) -> Result<Summary, Refusal>
    ensures { resumption (playback_response result) (areas area.new state.new out.new to.new)
        ≡ byte_resumption digest_of g me initial.now trace.now
        (areas area.old state.old out.old to.old) }
{
    resume_test(
        g,
        me,
        state.len(),
        area.len(),
        initial.len(),
        out.len(),
        to.len(),
    )?;
    let found = survey(trace);
    let entries = found.count;
    resume_all(g, me, trace, area, initial, state, out, to);
    let ending = ending_of(found.closing, entries);
    Ok(Summary {
        entries,
        bytes: 0,
        ending,
    })
}
