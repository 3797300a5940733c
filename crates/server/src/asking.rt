// Frames of a client that ask: get-stamp, read and read-complete, kinds 1, 10 and 12.
ghost use Rattle.std.specs.Prelude.{◌≡◌, ℕ, ◌+◌, ◌≤◌, List, ◌∷◌, [], length};
ghost use Rattle.area.specs.Area.{pick};
ghost use Rattle.frame.specs.Refusals.{refused};
ghost use Rattle.frame.specs.declared.Party.TheVariants as P;
ghost use Rattle.frame.specs.Params.{width, largest_frame, server_frames, Bounded};
ghost use Rattle.frame.specs.Messages.{message, sending, stamp_is, get_stamp, ask_read, read_complete};
ghost use Rattle.frame.specs.Chunks.{area_bytes};
ghost use Rattle.frame.specs.Outbox.{first_place, Room};
ghost use Rattle.sha256.specs.Hash.{digest_of};
ghost use Rattle.server_rules.specs.Scopes.{scope_of};
ghost use Rattle.server_rules.specs.Tests.{from_owner, read_test, done_test, message_test};
ghost use Rattle.server_rules.specs.Steps.{send_only, on_read, on_read_complete};
ghost use Rattle.server.specs.Stages.{outcome_in, answered};

use crate::Taken;
use crate::reads::send_present;
use crate::tests::{done_test, from_owner, read_test};
use blocks::Params;
use frame::send::send_stamp;
use frame::{Header, Party, Place, Refusal};
use server_rules::{Reader, Scope, Server};

// Refusals 11 and 12 of a read.
fn ask_test(from: Party, h: Header, r: Reader) -> Result<(), Refusal>
    ensures { result ≡ pick (from_owner from h.client) (read_test r h.sequence) (refused 11) }
{
    if !from_owner(from, h.client) {
        return Err(Refusal::Sender);
    }
    read_test(r, h.sequence)
}

// Refusals 11 and 12 of a read-complete.
fn end_test(from: Party, h: Header, r: Reader) -> Result<(), Refusal>
    ensures { result ≡ pick (from_owner from h.client) (done_test r h.sequence) (refused 11) }
{
    if !from_owner(from, h.client) {
        return Err(Refusal::Sender);
    }
    done_test(r, h.sequence)
}

// Kind 1: answered with the present time, whatever the sequence.
pub fn on_get_stamp(
    s: Scope,
    g: Params,
    from: Party,
    h: Header,
    out: &mut [u8],
    to: &mut [u8],
) -> Result<Taken, Refusal>
    requires { Bounded g × Room first_place (server_frames g) (largest_frame g) (length out.old) (length to.old) }
    ensures { (w : Server) → s ≡ scope_of w h.client → (a : List ℕ)
        → outcome_in w h.client result a out.new to.new
        ≡ answered (message_test digest_of g 0 w from (message h.client h.sequence get_stamp)) w a
        (send_only w a (sending (P.Client h.client) (message h.client h.sequence (stamp_is w.stamp.time)) ∷ []))
        out.old to.old }
{
    if !from_owner(from, h.client) {
        return Err(Refusal::Sender);
    }
    let p = Place { at: 0, count: 0 };
    let place = send_stamp(out, to, p, h.client, h.sequence, s.stamp.time);
    Ok(Taken { scope: s, place })
}

// Kind 10: the reader is noted with the present stamp, and answered the present value.
pub fn on_read<'a>(
    s: Scope,
    g: Params,
    from: Party,
    h: Header,
    area: &'a [u8],
    initial: &'a [u8],
    out: &mut [u8],
    to: &mut [u8],
) -> Result<Taken, Refusal>
    requires { Bounded g × (area_bytes ≤ length area.now) × (width g ≤ length initial.now)
        × Room first_place (server_frames g) (largest_frame g) (length out.old) (length to.old) }
    ensures { (w : Server) → s ≡ scope_of w h.client
        → outcome_in w h.client result area.now out.new to.new
        ≡ answered (message_test digest_of g 0 w from (message h.client h.sequence ask_read)) w area.now
        (on_read digest_of g 0 w area.now initial.now h.client h.sequence) out.old to.old }
{
    ask_test(from, h, s.reader)?;
    let p = Place { at: 0, count: 0 };
    let place = send_present(g, s.stamp, h.client, h.sequence, area, initial, out, to, p);
    let reader = Reader {
        sequence: h.sequence,
        listening: true,
        noted: s.stamp,
    };
    Ok(Taken {
        scope: Scope { reader, ..s },
        place,
    })
}

// Kind 12: that read and older ones are ended; nothing is sent.
pub fn on_read_complete(s: Scope, g: Params, from: Party, h: Header) -> Result<Taken, Refusal>
    ensures { (w : Server) → s ≡ scope_of w h.client → (a out to : List ℕ)
        → outcome_in w h.client result a out to
        ≡ answered (message_test digest_of g 0 w from (message h.client h.sequence read_complete)) w a
        (on_read_complete digest_of g 0 w a h.client h.sequence) out to }
{
    end_test(from, h, s.reader)?;
    let reader = Reader {
        sequence: h.sequence,
        listening: false,
        ..s.reader
    };
    Ok(Taken {
        scope: Scope { reader, ..s },
        place: Place { at: 0, count: 0 },
    })
}
