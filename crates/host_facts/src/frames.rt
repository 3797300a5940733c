// A frame: its kind, client and sequence, and the time that it carries.
ghost use Rattle.std.specs.Prelude.{◌≡◌};
ghost use Rattle.frame.specs.Frames.{opening_response};
ghost use Rattle.host_facts.specs.Frames.{header_answer, header_call, time_call};
ghost use Rattle.host_facts.specs.Kinds.{carries_time};
ghost use Rattle.host_facts.specs.Outcomes.{wrote};

use blocks::Params;
use frame::opener::opened_under;
use frame::places::BODY_AT;
use frame::refusals::number_of;
use frame::{Header, Refusal};

// The bytes of a time.
pub const TIME_BYTES: usize = 8;

// The answer for a frame: the header's fields in the bytes from the second on, or the refusal's number.
fn header_answer(o: Result<Header, Refusal>) -> u64
    ensures { result ≡ header_answer (opening_response o) }
{
    match o {
        Ok(h) => 256 * h.kind as u64 + 65536 * h.client as u64 + 16777216 * h.sequence as u64,
        Err(r) => number_of(r) as u64,
    }
}

// The header of a frame that opens.
pub fn frame_header(g: Params, f: &[u8]) -> u64
    ensures { result ≡ header_call g f.now }
{
    header_answer(opened_under(g, f))
}

// Whether frames of a kind carry a time: 2 to 5, 11 and 13.
fn carries_time(kind: u8) -> bool
    ensures { result ≡ carries_time kind }
{
    if kind == 11 || kind == 13 {
        return true;
    }
    2 <= kind && kind <= 5
}

// Writes the time that a frame carries. 1 in the second byte of the answer if it carries one.
pub fn frame_time(g: Params, f: &[u8], time: &mut [u8]) -> u64
    ensures { wrote result time.new ≡ time_call g f.now time.old }
{
    let opened = opened_under(g, f);
    let Ok(h) = opened else {
        return header_answer(opened);
    };
    if time.len() < TIME_BYTES {
        return 10;
    }
    if !carries_time(h.kind) {
        return 0;
    }
    area::write8(time, 0, area::read8(f, BODY_AT));
    256
}
