// Playing back a site's trace (document 02, F-8): the frames of its entries one after the other, from a fresh server.
#![tactic(auto)]

ghost use Rattle.std.specs.Prelude.{◌≡◌, ◌≤◌, ◌<◌};
ghost use Rattle.frame.specs.Params.{Bounded};
ghost use Rattle.sha256.specs.Hash.{digest_of};
ghost use Rattle.entries.specs.Entries.{closing_number};
ghost use Rattle.playback.specs.Playback.{entry_need, out_test, end_in, ending_of, playback_response};
ghost use Rattle.playback.specs.Records.{bytes_played, byte_playback};

use crate::player::play_all;
use blocks::Params;
use entries::Closing;
use entries::reader::survey;
use frame::Refusal;
use frame::bounds::largest_frame;
use server::setup::construct_test;
use server_deliver::fresh::fresh_test;

pub mod answers;
pub mod player;
pub mod reports;
pub mod resume;

// Where a playback ended: after the last entry, or at one, counted from 1, that is malformed (22) or inside which the trace ends (23).
#[derive(Clone, Copy)]
pub enum Ending {
    Whole,
    Malformed(usize),
    Cut(usize),
}

// How many entries were played, and how many bytes of the out area they took.
#[derive(Clone, Copy)]
pub struct Summary {
    pub entries: usize,
    pub bytes: usize,
    pub ending: Ending,
}

// How many bytes of the out area are asked for an entry.
fn entry_need(g: Params) -> usize
    requires { Bounded g }
    ensures { (result ≡ entry_need g) × (result ≤ 135603) × (1 ≤ result) }
{
    3 + (9 * g.n + 136) * (largest_frame(g) + 2)
}

// Refusal 10, of an out area for count entries.
fn out_test(g: Params, count: usize, out: usize) -> Result<(), Refusal>
    requires { Bounded g }
    ensures { result ≡ out_test g count out }
{
    let need = entry_need(g);
    if out / need < count {
        return Err(Refusal::Room);
    }
    Ok(())
}

// The end of a playback whose trace closes after count entries.
pub fn ending_of(c: Closing, count: usize) -> Ending
    requires { count < 18446744073709551615 }
    ensures { end_in result ≡ ending_of (closing_number c) count }
{
    match c {
        Closing::Whole => Ending::Whole,
        Closing::Malformed => Ending::Malformed(count + 1),
        Closing::Cut => Ending::Cut(count + 1),
    }
}

// Plays a trace back on server me, made afresh from the initial value: writes its record, its area and initial block, and what each entry gave into out.
pub fn play(
    g: Params,
    me: usize,
    value: &[u8],
    trace: &[u8],
    area: &mut [u8],
    initial: &mut [u8],
    state: &mut [u8],
    out: &mut [u8],
) -> Result<Summary, Refusal>
    ensures { bytes_played (playback_response result) area.new initial.new state.new out.new
        ≡ byte_playback digest_of g me value.now trace.now area.old initial.old
        state.old out.old }
{
    fresh_test(g, me, value.len(), state.len())?;
    construct_test(g, me as u8, value, area.len(), initial.len())?;
    let found = survey(trace);
    let entries = found.count;
    out_test(g, entries, out.len())?;
    let bytes = play_all(g, me, value, trace, area, initial, state, out);
    let ending = ending_of(found.closing, entries);
    Ok(Summary {
        entries,
        bytes,
        ending,
    })
}
