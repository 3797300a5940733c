// A server, whose record the host keeps as bytes.
ghost use Rattle.std.specs.Prelude.{◌≡◌};
ghost use Rattle.semduoli.specs.Calls.{params};
ghost use Rattle.semduoli.specs.Handed.{sender_of};
ghost use Rattle.semduoli.specs.ServerCalls.{made, make_call, server_got, server_call};

// Writes a fresh server's record to state, the digest list of the initial value into the area, and server me's block of that value into initial.
#[unsafe(no_mangle)]
pub extern "C" fn semduoli_server_fresh(
    n: usize,
    t: usize,
    k: usize,
    size: usize,
    me: usize,
    value: &[u8],
    area: &mut [u8],
    initial: &mut [u8],
    state: &mut [u8],
) -> u64
    ensures { made result area.new initial.new state.new
        ≡ make_call (params n t k size) me value.now area.old initial.old state.old }
{
    semduoli::servers::semduoli_server_fresh(n, t, k, size, me, value, area, initial, state)
}

// Delivers a frame to server me.
#[unsafe(no_mangle)]
pub extern "C" fn semduoli_server_deliver(
    n: usize,
    t: usize,
    k: usize,
    size: usize,
    me: usize,
    class: usize,
    sender: usize,
    f: &[u8],
    area: &mut [u8],
    initial: &[u8],
    state: &mut [u8],
    out: &mut [u8],
    to: &mut [u8],
) -> u64
    ensures { server_got result area.new state.new out.new to.new
        ≡ server_call (params n t k size) me (sender_of class sender) f.now area.old initial.now
        state.old out.old to.old }
{
    semduoli::servers::semduoli_server_deliver(
        n, t, k, size, me, class, sender, f, area, initial, state, out, to,
    )
}
