// What a host may ask of a record that it keeps.
ghost use Rattle.std.specs.Prelude.{◌≡◌};
ghost use Rattle.semduoli.specs.Calls.{wrote};
ghost use Rattle.semduoli.specs.Asked.{header_version, client_open_call, server_stamp_call, server_open_call};

use frame::Stamp;
use frame::places::CLIENTS;
use layout::clients::{CLIENT_SIZE, client_at};
use layout::fields::{Field, STAMP_SIZE};
use layout::servers::{SERVER_SIZE, scope_at};
use site::answers::open_answer;

// The version of include/semduoli.h.
pub fn semduoli_version() -> u64
    ensures { result ≡ header_version }
{
    4
}

// Which operation is open at a client.
pub fn semduoli_client_open(state: &[u8]) -> u64
    ensures { result ≡ client_open_call state.now }
{
    if state.len() < CLIENT_SIZE {
        return 10;
    }
    let s = client_at(state, 0);
    open_answer(s.phase, s.writes, s.reads)
}

// Writes the stamp that a server holds.
pub fn semduoli_server_stamp(state: &[u8], stamp: &mut [u8]) -> u64
    ensures { wrote result stamp.new ≡ server_stamp_call state.now stamp.old }
{
    if state.len() < SERVER_SIZE || stamp.len() < STAMP_SIZE {
        return 10;
    }
    let x = Stamp::get(state, 0);
    x.put(stamp, 0);
    0
}

// The number of the write that a server works on for a client.
pub fn semduoli_server_open(client: usize, state: &[u8]) -> u64
    ensures { result ≡ server_open_call client state.now }
{
    if client < 1 || CLIENTS < client {
        return 7;
    }
    if state.len() < SERVER_SIZE {
        return 10;
    }
    let x = scope_at(state, client);
    65536 * (x.slot.sequence % 281474976710656)
}
