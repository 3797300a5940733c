// The entries of a trace delivered one after the other, each with enough room: the record stays in its area, and a step writes its frames into the out area.
ghost use Rattle.std.specs.Prelude.{◌≡◌, ◌≤◌, length};
ghost use Rattle.frame.specs.Refusals.{fine};
ghost use Rattle.entries.specs.Entries.{trace_of};
ghost use Rattle.sha256.specs.Hash.{digest_of};
ghost use Rattle.layout.specs.Servers.{server_size};
ghost use Rattle.playback.specs.Playback.{play_test};
ghost use Rattle.playback.specs.Stages.{done, played_all};

use crate::reports::{REPORT_HEAD, put_report};
use blocks::Params;
use entries::FRAME_AT;
use entries::reader::read_entry;
use server_deliver::deliver;
use server_deliver::fresh::fresh;

// The bytes of the receivers of a step's 226 frames.
pub const TO_ROOM: usize = 452;

// Makes the server, and plays every entry of the trace. The answer is how many bytes of the out area were used.
pub fn play_all(
    g: Params,
    me: usize,
    value: &[u8],
    trace: &[u8],
    area: &mut [u8],
    initial: &mut [u8],
    state: &mut [u8],
    out: &mut [u8],
) -> usize
    requires { (play_test digest_of g me value.now (trace_of trace.now) (length area.old) (length initial.old) (length out.old) ≡ fine)
        × (server_size ≤ length state.old) }
    ensures { done result area.new initial.new state.new out.new
        ≡ played_all digest_of g me value.now (trace_of trace.now) area.old initial.old state.old
        out.old }
{
    let _ = fresh(g, me, value, area, initial, state);
    let mut to = [0u8; TO_ROOM];
    let mut at: usize = 0;
    let mut used: usize = 0;
    // No `for`: a turn goes on by the length of an entry.
    loop {
        let rest = &trace[at..];
        let Ok(found) = read_entry(rest) else {
            return used;
        };
        let from = used + REPORT_HEAD;
        let reply = deliver(
            g,
            me,
            found.sender,
            &rest[FRAME_AT..found.end],
            area,
            initial,
            state,
            &mut out[from..],
            &mut to,
        );
        used = put_report(reply, &to, out, used);
        at += found.end;
    }
}
