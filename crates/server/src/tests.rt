// What turns a frame down: refusals 10 to 13, one function for each of document 01's tests.
ghost use Rattle.std.specs.Prelude.{◌≡◌, false, get_or};
ghost use Rattle.area.specs.Area.{pick};
ghost use Rattle.frame.specs.Refusals.{refused};
ghost use Rattle.frame.specs.Params.{Bounded};
ghost use Rattle.frame.specs.Messages.{number_in, from_server};
ghost use Rattle.server_rules.specs.Tests.{room_test, from_owner, open_test, read_test, done_test};

use blocks::Params;
use frame::bounds::{out_room, to_room, width};
use frame::parties::{from_server, number_in};
use frame::places::AREA_BYTES;
use frame::{Party, Refusal};
use server_rules::{Reader, Slot};

// Refusal 10: whether the lent areas, given by their lengths, are long enough.
pub fn room_test(
    g: Params,
    area: usize,
    initial: usize,
    out: usize,
    to: usize,
) -> Result<(), Refusal>
    requires { Bounded g }
    ensures { result ≡ room_test g area initial out to }
{
    if area < AREA_BYTES {
        return Err(Refusal::Room);
    }
    if initial < width(g) {
        return Err(Refusal::Room);
    }
    if out < out_room(g, 9 * g.n + 136) {
        return Err(Refusal::Room);
    }
    if to < to_room(9 * g.n + 136) {
        return Err(Refusal::Room);
    }
    Ok(())
}

// Whether the sender is client c.
pub fn from_owner(from: Party, c: u8) -> bool
    ensures { result ≡ from_owner from c }
{
    match from {
        Party::Client(d) => d == c,
        Party::Server(_) => false,
    }
}

// Refusals 12 and 13 of a frame of the write q; again says that one like it was counted already.
pub fn open_test(x: Slot, q: u32, again: bool) -> Result<(), Refusal>
    ensures { result ≡ open_test x q again }
{
    let w = q as u64;
    if w < x.sequence {
        return Err(Refusal::Stale);
    }
    if x.sequence < w {
        return Err(Refusal::Ahead);
    }
    if again {
        return Err(Refusal::Stale);
    }
    Ok(())
}

// Refusal 12 of a read.
pub fn read_test(r: Reader, q: u32) -> Result<(), Refusal>
    ensures { result ≡ read_test r q }
{
    if q <= r.sequence {
        return Err(Refusal::Stale);
    }
    Ok(())
}

// Refusal 12 of a read-complete.
pub fn done_test(r: Reader, q: u32) -> Result<(), Refusal>
    ensures { result ≡ done_test r q }
{
    if q < r.sequence {
        return Err(Refusal::Stale);
    }
    if q != r.sequence {
        return Ok(());
    }
    if r.listening {
        return Ok(());
    }
    Err(Refusal::Stale)
}

// Refusals 11 to 13 of a frame of the write q that only its owner c sends.
pub fn owner_test(from: Party, c: u8, x: Slot, q: u32, again: bool) -> Result<(), Refusal>
    ensures { result ≡ pick (from_owner from c) (open_test x q again) (refused 11) }
{
    if !from_owner(from, c) {
        return Err(Refusal::Sender);
    }
    open_test(x, q, again)
}

// Refusals 11 to 13 of a frame of the write q that only servers send; on says from which servers one was counted already.
pub fn server_test(g: Params, from: Party, x: Slot, q: u32, on: [bool; 11]) -> Result<(), Refusal>
    requires { Bounded g }
    ensures { result ≡ pick (from_server g from) (open_test x q (get_or on (number_in from) false)) (refused 11) }
{
    if !from_server(g, from) {
        return Err(Refusal::Sender);
    }
    let j = number_in(from) as usize;
    open_test(x, q, on[j])
}
