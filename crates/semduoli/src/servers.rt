// A server, whose record the host keeps as bytes.
ghost use Rattle.std.specs.Prelude.{◌≡◌};
ghost use Rattle.semduoli.specs.Calls.{params};
ghost use Rattle.semduoli.specs.Handed.{sender_of};
ghost use Rattle.semduoli.specs.ServerCalls.{made, make_call, server_got, server_call};

use crate::senders::sender_of;
use blocks::Params;
use server_deliver::answers::server_answer;
use server_deliver::deliver;
use server_deliver::fresh::fresh;

// Writes a fresh server's record to state, the digest list of the initial value into the area, and server me's block of that value into initial.
pub fn semduoli_server_fresh(
    n: usize,
    t: usize,
    k: usize,
    size: usize,
    me: usize,
    value: &[u8],
    area: &mut [u8],
    initial: &mut [u8],
    state: &mut [u8],
) -> u64
    ensures { made result area.new initial.new state.new
        ≡ make_call (params n t k size) me value.now area.old initial.old state.old }
{
    let g = Params { n, t, k, size };
    server_answer(fresh(g, me, value, area, initial, state))
}

// Delivers a frame to server me.
pub fn semduoli_server_deliver(
    n: usize,
    t: usize,
    k: usize,
    size: usize,
    me: usize,
    class: usize,
    sender: usize,
    f: &[u8],
    area: &mut [u8],
    initial: &[u8],
    state: &mut [u8],
    out: &mut [u8],
    to: &mut [u8],
) -> u64
    ensures { server_got result area.new state.new out.new to.new
        ≡ server_call (params n t k size) me (sender_of class sender) f.now area.old initial.now
        state.old out.old to.old }
{
    let g = Params { n, t, k, size };
    let from = sender_of(class, sender);
    server_answer(deliver(g, me, from, f, area, initial, state, out, to))
}
