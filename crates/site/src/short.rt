// Calls whose area for the record or for a stamp is short: refusal 10, unless one with a lower number applies.
ghost use Rattle.std.specs.Prelude.{◌≡◌};
ghost use Rattle.site.specs.Short.{read_short, value_short, frame_short, stamp_short};

use blocks::Params;
use client::tests::{length_test, value_test};
use client_rules::Client;
use frame::Refusal;
use frame::bounds::params_test;
use frame::opener::open_frame;
use frame::places::CLIENTS;

// A client begins a read; refusals 1 to 3 come first.
pub fn read_short(g: Params, me: u8) -> Result<(), Refusal>
    ensures { result ≡ read_short g me }
{
    params_test(g, me as usize, CLIENTS)?;
    Err(Refusal::Room)
}

// A value of len bytes is lent to party me, one of parties 1 to most; refusals 1 to 3 come first.
pub fn value_short(g: Params, me: u8, most: usize, len: usize) -> Result<(), Refusal>
    ensures { result ≡ value_short g me most len }
{
    params_test(g, me as usize, most)?;
    length_test(g, len)?;
    Err(Refusal::Room)
}

// The frame f is handed in; refusals 1 to 9 come first.
pub fn frame_short(g: Params, me: u8, most: usize, f: &[u8]) -> Result<(), Refusal>
    ensures { result ≡ frame_short g me most f.now }
{
    params_test(g, me as usize, most)?;
    open_frame(g, f)?;
    Err(Refusal::Room)
}

// The frame f is handed to client s, with a value of len bytes; refusals 1 to 9 come first.
pub fn stamp_short(g: Params, me: u8, s: Client, len: usize, f: &[u8]) -> Result<(), Refusal>
    ensures { result ≡ stamp_short g me s len f.now }
{
    let p = s.phase;
    params_test(g, me as usize, CLIENTS)?;
    value_test(g, p, len)?;
    open_frame(g, f)?;
    Err(Refusal::Room)
}
