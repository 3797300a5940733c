// A client, whose record the host keeps as bytes.
ghost use Rattle.std.specs.Prelude.{◌≡◌};
ghost use Rattle.semduoli.specs.Calls.{params, wrote, fresh_call, began, read_call, write_call};
ghost use Rattle.semduoli.specs.Handed.{sender_of, client_got, client_call};

// Writes a fresh client's record.
#[unsafe(no_mangle)]
pub extern "C" fn semduoli_client_fresh(state: &mut [u8]) -> u64
    ensures { wrote result state.new ≡ fresh_call state.old }
{
    semduoli::clients::semduoli_client_fresh(state)
}

// Begins a read.
#[unsafe(no_mangle)]
pub extern "C" fn semduoli_begin_read(
    n: usize,
    t: usize,
    k: usize,
    size: usize,
    me: usize,
    state: &mut [u8],
    out: &mut [u8],
    to: &mut [u8],
) -> u64
    ensures { began result state.new out.new to.new
        ≡ read_call (params n t k size) me state.old out.old to.old }
{
    semduoli::clients::semduoli_begin_read(n, t, k, size, me, state, out, to)
}

// Begins the write of a value of size bytes.
#[unsafe(no_mangle)]
pub extern "C" fn semduoli_begin_write(
    n: usize,
    t: usize,
    k: usize,
    size: usize,
    me: usize,
    state: &mut [u8],
    value: &[u8],
    out: &mut [u8],
    to: &mut [u8],
) -> u64
    ensures { began result state.new out.new to.new
        ≡ write_call (params n t k size) me value.now state.old out.old to.old }
{
    semduoli::clients::semduoli_begin_write(n, t, k, size, me, state, value, out, to)
}

// Delivers a frame to client me; where a write is open, its value is lent.
#[unsafe(no_mangle)]
pub extern "C" fn semduoli_client_deliver(
    n: usize,
    t: usize,
    k: usize,
    size: usize,
    me: usize,
    class: usize,
    sender: usize,
    value: &[u8],
    f: &[u8],
    rows: &mut [u8],
    res: &mut [u8],
    stamp: &mut [u8],
    state: &mut [u8],
    out: &mut [u8],
    to: &mut [u8],
) -> u64
    ensures { client_got result rows.new res.new stamp.new state.new out.new to.new
        ≡ client_call (params n t k size) me (sender_of class sender) value.now f.now rows.old res.old
        stamp.old state.old out.old to.old }
{
    semduoli::clients::semduoli_client_deliver(
        n, t, k, size, me, class, sender, value, f, rows, res, stamp, state, out, to,
    )
}
