// What is printed of a reply: document 01's number of a refusal, or after 00 what the step gave.
ghost use Rattle.std.specs.Prelude.{◌≤◌, length};

use case_text::report::result_bytes;
use case_text::text::{put_bytes, put_digits};
use frame::Refusal;
use frame::refusals::number_of;
use std::io;
use std::io::Write;

// How many bytes of sent frames are shown at most, and of receivers where the whole areas are shown.
const FRAMES_SHOWN: usize = 3000;

const RECEIVERS_SHOWN: usize = 64;

// How long the text of a result may be.
const TEXT: usize = 8192;

// A refusal, by its number.
fn refused<W: Write>(
    report: &mut W,
    kind: &[u8],
    expected: &[u8],
    refusal: Refusal,
) -> io::Result<()> {
    let mut text = [0u8; 2];
    put_digits(&mut text, 0, number_of(refusal));
    result_bytes(report, kind, expected, &text)
}

// The reply of the constructor: after 00 the first 128 bytes of the state area and the first byte of the initial block's area.
pub fn made<W: Write>(
    report: &mut W,
    expected: &[u8],
    reply: Result<usize, Refusal>,
    area: &[u8],
    initial: &[u8],
) -> io::Result<()> {
    if let Err(refusal) = reply {
        return refused(report, b"fresh ", expected, refusal);
    }
    let mut text = [0u8; TEXT];
    put_digits(&mut text, 0, 0);
    let a = area.len().min(128);
    let i = initial.len().min(1);
    put_bytes(&mut text, 2, &area[..a]);
    let end = put_bytes(&mut text, 2 + 2 * a, &initial[..i]);
    result_bytes(report, b"fresh ", expected, &text[..end])
}

// How many bytes the first count frames in out take: only whole frames, and as many as are shown.
fn sent_bytes(out: &[u8], count: usize) -> usize
    ensures { result ≤ length out.now }
{
    let mut at = 0;
    for _ in 0..count {
        let [high, low, body @ ..] = &out[at..] else {
            break;
        };
        let length = usize::from(u16::from_be_bytes([*high, *low]));
        if body.len() < length || FRAMES_SHOWN < at + 2 + length {
            break;
        }
        at += 2 + length;
    }
    at
}

// The reply to a frame: after 00 how many frames went out, the frames, and their receivers; or, of the areas lent for these, the first bytes.
pub fn replied<W: Write>(
    report: &mut W,
    expected: &[u8],
    reply: Result<usize, Refusal>,
    out: &[u8],
    to: &[u8],
    whole: bool,
) -> io::Result<()> {
    let count = match reply {
        Err(refusal) => return refused(report, b"deliver ", expected, refusal),
        Ok(count) if count <= 32 => count,
        Ok(_) => return Ok(()),
    };
    let (m, k) = if whole {
        (FRAMES_SHOWN, RECEIVERS_SHOWN)
    } else {
        (sent_bytes(out, count), 2 * count)
    };
    let m = m.min(out.len()).min(FRAMES_SHOWN);
    let k = k.min(to.len()).min(RECEIVERS_SHOWN);
    let mut text = [0u8; TEXT];
    put_bytes(&mut text, 0, &[0, count as u8]);
    put_bytes(&mut text, 4, &out[..m]);
    let end = put_bytes(&mut text, 4 + 2 * m, &to[..k]);
    result_bytes(report, b"deliver ", expected, &text[..end])
}
