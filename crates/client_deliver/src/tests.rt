// What turns an opened frame down: 11, 12 and 14.
ghost use Rattle.std.specs.Prelude.{◌≡◌, ◌+◌, ◌≤◌, false, not, ◌&&◌, length, get_or, eqb, ltb};
ghost use Rattle.area.specs.Area.{pick};
ghost use Rattle.sha256.specs.Hash.{digest_of};
ghost use Rattle.frame.specs.Params.{Bounded, entry_length};
ghost use Rattle.frame.specs.Refusals.{refused};
ghost use Rattle.frame.specs.Messages.{from_server, number_in};
ghost use Rattle.frame.specs.Frames.{entry_in, value_at};
ghost use Rattle.group_rules.specs.Coded.{fit_test};
ghost use Rattle.client_rules.specs.Tests.{awaited, kept_test};

use blocks::Params;
use client::phases::is_reading;
use client::rows::{has_stamp, used_places};
use client::tests::awaited_test;
use client_rules::Client;
use frame::bounds::width;
use frame::parties::{from_server, number_in};
use frame::places::VALUE_AT;
use frame::{Header, Party, Refusal, Stamp};
use group::fitting::fit_test;

// Refusal 11: whether the sender is one of servers 1 to n, and the client that the frame names is this one.
pub fn sender_right(g: Params, from: Party, c: u8, me: u8) -> bool
    ensures { result ≡ (from_server g from && eqb c me) }
{
    from_server(g, from) && c == me
}

// Refusals 11 and 12 of a stamp or an ack: last is the open write's number, fit says that it is in the right phase;
// heard says from which servers one was counted.
pub fn reply_test(
    g: Params,
    me: u8,
    from: Party,
    h: Header,
    fit: bool,
    last: u32,
    heard: [bool; 11],
) -> Result<(), Refusal>
    requires { Bounded g }
    ensures { result ≡ pick (from_server g from && eqb h.client me)
        (awaited (fit && (eqb h.sequence last && not (get_or heard (number_in from) false)))) (refused 11) }
{
    if !sender_right(g, from, h.client, me) {
        return Err(Refusal::Sender);
    }
    let j = number_in(from) as usize;
    awaited_test(fit, h.sequence, last, heard[j])
}

// Refusals 11 and 12 of a report of a time, whatever client it names; server j's highest report is at place j.
pub fn report_test(g: Params, from: Party, time: u64, reports: [u64; 11]) -> Result<(), Refusal>
    requires { Bounded g }
    ensures { result ≡ pick (from_server g from) (awaited (ltb (get_or reports (number_in from) 0) time)) (refused 11) }
{
    if !from_server(g, from) {
        return Err(Refusal::Sender);
    }
    let j = number_in(from) as usize;
    if time <= reports[j] {
        return Err(Refusal::Stale);
    }
    Ok(())
}

// Refusal 14 of a value from server j.
fn entry_fit(g: Params, f: &[u8], j: usize) -> Result<(), Refusal>
    requires { Bounded g × (1 ≤ j) × (j ≤ g.n) × (value_at + entry_length g ≤ length f.now) }
    ensures { result ≡ fit_test digest_of (entry_in g f.now value_at) j }
{
    let middle = VALUE_AT + 32 * g.n;
    let end = middle + width(g);
    fit_test(&f[VALUE_AT..middle], &f[middle..end], j)
}

// Refusals 12 and 14 of a value from server j with stamp x.
fn kept_test(s: Client, g: Params, j: usize, q: u32, x: Stamp, f: &[u8]) -> Result<(), Refusal>
    requires { Bounded g × (1 ≤ j) × (j ≤ g.n) × (value_at + entry_length g ≤ length f.now) }
    ensures { result ≡ kept_test digest_of s j q x (entry_in g f.now value_at) }
{
    let p = s.phase;
    let row = s.rows[j];
    let stamps = row.stamps;
    let again = has_stamp(stamps, used_places(row), x);
    awaited_test(is_reading(p), q, s.reads, again)?;
    entry_fit(g, f, j)
}

// Refusals 11, 12 and 14 of a value with stamp x.
pub fn entry_test(
    s: Client,
    g: Params,
    me: u8,
    from: Party,
    h: Header,
    x: Stamp,
    f: &[u8],
) -> Result<(), Refusal>
    requires { Bounded g × (value_at + entry_length g ≤ length f.now) }
    ensures { result ≡ pick (from_server g from && eqb h.client me)
        (kept_test digest_of s (number_in from) h.sequence x (entry_in g f.now value_at)) (refused 11) }
{
    if !sender_right(g, from, h.client, me) {
        return Err(Refusal::Sender);
    }
    let j = number_in(from) as usize;
    kept_test(s, g, j, h.sequence, x, f)
}
