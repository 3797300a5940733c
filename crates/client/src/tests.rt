// What turns a call or a frame down: one function for each of document 01's tests.
ghost use Rattle.std.specs.Prelude.{◌≡◌, not, ◌&&◌, eqb};
ghost use Rattle.frame.specs.Params.{Bounded};
ghost use Rattle.client_rules.specs.Tests.{send_room, room_test, value_test, awaited};
ghost use Rattle.client_rules.specs.Beginning.{idle_test, closed_test, length_test};

use crate::phases::{is_idle, is_writing};
use blocks::Params;
use client_rules::Phase;
use frame::Refusal;
use frame::bounds::{out_room, to_room};
use frame::places::{LAST_SEQUENCE, ROWS_BYTES};

// Refusal 10: whether the out and to areas, given by their lengths, are long enough.
pub fn send_room(g: Params, out: usize, to: usize) -> Result<(), Refusal>
    requires { Bounded g }
    ensures { result ≡ send_room g out to }
{
    if out < out_room(g, g.n) {
        return Err(Refusal::Room);
    }
    if to < to_room(g.n) {
        return Err(Refusal::Room);
    }
    Ok(())
}

// Refusal 10: whether all lent areas are long enough.
pub fn room_test(g: Params, area: usize, res: usize, out: usize, to: usize) -> Result<(), Refusal>
    requires { Bounded g }
    ensures { result ≡ room_test g area res out to }
{
    if area < ROWS_BYTES {
        return Err(Refusal::Room);
    }
    if res < g.size {
        return Err(Refusal::Room);
    }
    send_room(g, out, to)
}

// Refusal 3: whether a value of len bytes is L long.
pub fn length_test(g: Params, len: usize) -> Result<(), Refusal>
    ensures { result ≡ length_test g len }
{
    if len != g.size {
        return Err(Refusal::Length);
    }
    Ok(())
}

// Refusal 3: whether the lent value is L long where a write is open.
pub fn value_test(g: Params, p: Phase, len: usize) -> Result<(), Refusal>
    ensures { result ≡ value_test g p len }
{
    if !is_writing(p) {
        return Ok(());
    }
    if len != g.size {
        return Err(Refusal::Length);
    }
    Ok(())
}

// Refusals 15 and 16; last is the last number used.
pub fn idle_test(p: Phase, last: u32) -> Result<(), Refusal>
    ensures { result ≡ idle_test p last }
{
    if !is_idle(p) {
        return Err(Refusal::Busy);
    }
    if LAST_SEQUENCE <= last {
        return Err(Refusal::Exhausted);
    }
    Ok(())
}

// Refusal 17: whether an earlier write closed as out of stamps.
pub fn closed_test(closed: bool) -> Result<(), Refusal>
    ensures { result ≡ closed_test closed }
{
    if closed {
        return Err(Refusal::Closed);
    }
    Ok(())
}

// Refusal 12 of a frame of operation q: last is the open operation's number, fit says that it is in the right phase, again that one was counted already.
pub fn awaited_test(fit: bool, q: u32, last: u32, again: bool) -> Result<(), Refusal>
    ensures { result ≡ awaited (fit && (eqb q last && not again)) }
{
    if !fit {
        return Err(Refusal::Stale);
    }
    if q != last {
        return Err(Refusal::Stale);
    }
    if again {
        return Err(Refusal::Stale);
    }
    Ok(())
}
