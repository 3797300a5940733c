// Opening a frame: refusals 4 to 9 in the order of the numbers, or the frame's header.
ghost use Rattle.std.specs.Prelude.{◌≡◌, ◌+◌, ◌≤◌, ◌<◌, length};
ghost use Rattle.frame.specs.Params.{Bounded};
ghost use Rattle.frame.specs.Frames.{retired, length_of, body_length, framing_test, header_in, header_test};
ghost use Rattle.frame.specs.Frames.{body_test, stamp_in, stamp_test, content_test, opened, opening_response, opened_under};

use crate::bounds::{bounds_test, width};
use crate::places::{
    BODY_AT, CLIENT_AT, KIND_AT, LAST_CLIENT, LENGTH_AT, SEQUENCE_AT, VERSION, VERSION_AT,
    WRITE_AT, WRITER_AT,
};
use crate::stamps::parts_agree;
use crate::{Header, Refusal, Stamp};
use blocks::Params;

// Refusal 4: under 9 bytes, or length field wrong.
pub fn framing_test(f: &[u8]) -> Result<(), Refusal>
    ensures { result ≡ framing_test f.now }
{
    if f.len() < BODY_AT || area::read2(f, LENGTH_AT) as usize + 2 != f.len() {
        return Err(Refusal::Framing);
    }
    Ok(())
}

// The header of a frame of 9 bytes or more.
pub fn header_in(f: &[u8]) -> Header
    requires { 9 ≤ length f.now }
    ensures { result ≡ header_in f.now }
{
    let sequence = area::read4(f, SEQUENCE_AT);
    Header {
        kind: f[KIND_AT],
        client: f[CLIENT_AT],
        sequence,
    }
}

// Kinds 6, 7 and 8.
fn is_retired(kind: u8) -> bool
    ensures { result ≡ retired kind }
{
    (6..=8).contains(&kind)
}

// Refusals 5 to 7: version not 1, kind not 1 to 13 or retired, client not 1 to 8 or sequence 0.
pub fn header_test(version: u8, h: Header) -> Result<(), Refusal>
    ensures { result ≡ header_test version h }
{
    if version != VERSION {
        return Err(Refusal::Version);
    }
    if h.kind < 1 || 13 < h.kind || is_retired(h.kind) {
        return Err(Refusal::Kind);
    }
    if h.client < 1 || LAST_CLIENT < h.client || h.sequence == 0 {
        return Err(Refusal::Owner);
    }
    Ok(())
}

// The length of the body of a kind; entry is the length of a digest list and a block.
fn length_of(kind: u8, entry: usize) -> usize
    requires { entry ≤ 576 }
    ensures { (result ≡ length_of kind entry) × (result ≤ 589) }
{
    match kind {
        0..=1 => 0,
        2 => 8,
        3..=5 => 8 + entry,
        6..=10 => 0,
        11 => 13 + entry,
        12 => 0,
        _ => 8,
    }
}

// The length of the body of a kind.
pub fn body_length(g: Params, kind: u8) -> usize
    requires { Bounded g }
    ensures { (result ≡ body_length g kind) × (result ≤ 589) }
{
    length_of(kind, 32 * g.n + width(g))
}

// Refusal 8: body length wrong for kind.
pub fn body_test(g: Params, kind: u8, len: usize) -> Result<(), Refusal>
    requires { Bounded g }
    ensures { result ≡ body_test g kind len }
{
    if len != BODY_AT + body_length(g, kind) {
        return Err(Refusal::Body);
    }
    Ok(())
}

// The stamp of a value.
pub fn stamp_in(f: &[u8]) -> Stamp
    requires { 22 ≤ length f.now }
    ensures { result ≡ stamp_in f.now }
{
    let time = area::read8(f, BODY_AT);
    let sequence = area::read4(f, WRITE_AT);
    Stamp {
        time,
        writer: f[WRITER_AT],
        sequence,
    }
}

// Refusal 9: stamp parts mixed, or writer above 8.
pub fn stamp_test(s: Stamp) -> Result<(), Refusal>
    ensures { result ≡ stamp_test s }
{
    if !parts_agree(s) || LAST_CLIENT < s.writer {
        return Err(Refusal::Content);
    }
    Ok(())
}

// Refusal 9, of a frame whose body has its kind's length.
pub fn content_test(kind: u8, f: &[u8]) -> Result<(), Refusal>
    requires { kind ≡ 11 → 22 ≤ length f.now }
    ensures { result ≡ content_test kind f.now }
{
    if kind != 11 {
        return Ok(());
    }
    stamp_test(stamp_in(f))
}

// What opening a frame finds, the parameters within their bounds.
pub fn open_frame(g: Params, f: &[u8]) -> Result<Header, Refusal>
    requires { Bounded g }
    ensures { result ≡ opened g f.now }
{
    framing_test(f)?;
    let h = header_in(f);
    header_test(f[VERSION_AT], h)?;
    body_test(g, h.kind, f.len())?;
    content_test(h.kind, f)?;
    Ok(h)
}

// What opening a frame finds, for any parameters: refusals 1 to 9 in the order of the numbers.
pub fn opened_under(g: Params, f: &[u8]) -> Result<Header, Refusal>
    ensures { opening_response result ≡ opened_under g f.now }
{
    bounds_test(g)?;
    open_frame(g, f)
}
