// What a host may ask of a frame, of a trace's entries and of a server's present block.
ghost use Rattle.std.specs.Prelude.{◌≡◌};
ghost use Rattle.host_facts.specs.Outcomes.{wrote};
ghost use Rattle.host_facts.specs.Frames.{header_call, time_call};
ghost use Rattle.host_facts.specs.Traces.{entry_read_call, entry_write_call};
ghost use Rattle.host_facts.specs.Present.{block_call};
ghost use Rattle.semduoli.specs.Calls.{params};

// The kind, client and sequence of a frame that opens.
#[unsafe(no_mangle)]
pub extern "C" fn semduoli_frame_header(n: usize, t: usize, k: usize, size: usize, f: &[u8]) -> u64
    ensures { result ≡ header_call (params n t k size) f.now }
{
    semduoli::facts::semduoli_frame_header(n, t, k, size, f)
}

// Writes the time that a frame carries.
#[unsafe(no_mangle)]
pub extern "C" fn semduoli_frame_time(
    n: usize,
    t: usize,
    k: usize,
    size: usize,
    f: &[u8],
    time: &mut [u8],
) -> u64
    ensures { wrote result time.new ≡ time_call (params n t k size) f.now time.old }
{
    semduoli::facts::semduoli_frame_time(n, t, k, size, f, time)
}

// The sender of the first entry of a trace, and how many bytes the entry takes; or how the trace closes there.
#[unsafe(no_mangle)]
pub extern "C" fn semduoli_entry_read(trace: &[u8]) -> u64
    ensures { result ≡ entry_read_call trace.now }
{
    semduoli::facts::semduoli_entry_read(trace)
}

// Writes an entry of a trace.
#[unsafe(no_mangle)]
pub extern "C" fn semduoli_entry_write(class: usize, sender: usize, f: &[u8], out: &mut [u8]) -> u64
    ensures { wrote result out.new ≡ entry_write_call class sender f.now out.old }
{
    semduoli::facts::semduoli_entry_write(class, sender, f, out)
}

// Copies the present block of a server.
#[unsafe(no_mangle)]
pub extern "C" fn semduoli_server_block<'a>(
    n: usize,
    t: usize,
    k: usize,
    size: usize,
    area: &'a [u8],
    initial: &'a [u8],
    state: &[u8],
    block: &mut [u8],
) -> u64
    ensures { wrote result block.new
        ≡ block_call (params n t k size) area.now initial.now state.now block.old }
{
    semduoli::facts::semduoli_server_block(n, t, k, size, area, initial, state, block)
}
