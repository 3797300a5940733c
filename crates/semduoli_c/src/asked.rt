// What a host may ask of a record that it keeps.
ghost use Rattle.std.specs.Prelude.{◌≡◌};
ghost use Rattle.semduoli.specs.Calls.{wrote};
ghost use Rattle.semduoli.specs.Asked.{header_version, client_open_call, server_stamp_call, server_open_call};

// The version of include/semduoli.h.
#[unsafe(no_mangle)]
pub extern "C" fn semduoli_version() -> u64
    ensures { result ≡ header_version }
{
    semduoli::asked::semduoli_version()
}

// Which operation is open at a client.
#[unsafe(no_mangle)]
pub extern "C" fn semduoli_client_open(state: &[u8]) -> u64
    ensures { result ≡ client_open_call state.now }
{
    semduoli::asked::semduoli_client_open(state)
}

// Writes the stamp that a server holds.
#[unsafe(no_mangle)]
pub extern "C" fn semduoli_server_stamp(state: &[u8], stamp: &mut [u8]) -> u64
    ensures { wrote result stamp.new ≡ server_stamp_call state.now stamp.old }
{
    semduoli::asked::semduoli_server_stamp(state, stamp)
}

// The number of the write that a server works on for a client.
#[unsafe(no_mangle)]
pub extern "C" fn semduoli_server_open(client: usize, state: &[u8]) -> u64
    ensures { result ≡ server_open_call client state.now }
{
    semduoli::asked::semduoli_server_open(client, state)
}
