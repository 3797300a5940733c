// A trace played back on a server whose record the host keeps as bytes: from a fresh server, or from a kept record.
ghost use Rattle.std.specs.Prelude.{◌≡◌};
ghost use Rattle.semduoli.specs.Calls.{params};
ghost use Rattle.semduoli.specs.ServerCalls.{played_back, playback_call, resumed_to, resume_call};

use blocks::Params;
use playback::answers::playback_answer;
use playback::play;
use playback::resume::resume;

// Plays a trace back on server me, made afresh from the initial value: writes its record, its area and initial block, and what each entry gave into out.
pub fn semduoli_playback(
    n: usize,
    t: usize,
    k: usize,
    size: usize,
    me: usize,
    value: &[u8],
    trace: &[u8],
    area: &mut [u8],
    initial: &mut [u8],
    state: &mut [u8],
    out: &mut [u8],
) -> u64
    ensures { played_back result area.new initial.new state.new out.new
        ≡ playback_call (params n t k size) me value.now trace.now area.old initial.old state.old
        out.old }
{
    let g = Params { n, t, k, size };
    playback_answer(play(g, me, value, trace, area, initial, state, out))
}

// Server me goes on from the record in state: the entries of a trace are handed to it. Each step writes its frames into out over those of the step before.
pub fn semduoli_server_resume(
    n: usize,
    t: usize,
    k: usize,
    size: usize,
    me: usize,
    trace: &[u8],
    area: &mut [u8],
    initial: &[u8],
    state: &mut [u8],
    out: &mut [u8],
    to: &mut [u8],
) -> u64
    ensures { resumed_to result area.new state.new out.new to.new
        ≡ resume_call (params n t k size) me trace.now area.old initial.now state.old
        out.old to.old }
{
    let g = Params { n, t, k, size };
    playback_answer(resume(g, me, trace, area, initial, state, out, to))
}
