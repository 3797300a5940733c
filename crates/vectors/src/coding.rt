// The block code: encode and decode, with their answers and every byte of the lent area after the call.
ghost use Rattle.std.specs.Prelude.{◌+◌, ◌*◌, ◌≤◌, length};
ghost use Rattle.std.specs.Counts.{IsPrefixLen};

use blocks::faults::fault_number;
use blocks::{Fault, Params};
use case_text::report::result_bytes;
use case_text::text::{Words, put_bytes};
use std::io;
use std::io::Write;

// How long an area may be.
const MOST: usize = 2560;

// How long the text of an answer may be.
const TEXT: usize = 8192;

// An area to lend, filled with one byte, so that it is seen which bytes a call leaves as they were.
const MARKED: [u8; MOST] = [0xee; MOST];

// N T K L
pub fn params(words: &mut Words) -> Params {
    Params {
        n: words.number(),
        t: words.number(),
        k: words.number(),
        size: words.number(),
    }
}

// ROOM: how long the area to lend is.
fn room(words: &mut Words) -> usize
    ensures { result ≤ 2560 }
{
    words.number().min(MOST)
}

// The number of an answer: the refusal's, or 0 if the call was not turned down.
fn answer_number(answer: Result<(), Fault>) -> u8 {
    match answer {
        Err(f) => (fault_number(f) % 256) as u8,
        Ok(()) => 0,
    }
}

// Writes the answer's number, a space and the area.
fn put_answer(text: &mut [u8], answer: u8, area: &[u8]) -> usize
    requires { 3 + length area.now * 2 ≤ length text.old }
    ensures { IsPrefixLen result text.new }
{
    put_bytes(text, 0, &[answer]);
    text[2] = b' ';
    put_bytes(text, 3, area)
}

// The answer's number, a space and the area.
fn shown<W: Write>(
    out: &mut W,
    kind: &[u8],
    expected: &[u8],
    answer: Result<(), Fault>,
    area: &[u8],
) -> io::Result<()>
    requires { length area.now ≤ 2560 }
{
    let mut text = [0u8; TEXT];
    let end = put_answer(&mut text, answer_number(answer), area);
    result_bytes(out, kind, expected, &text[..end])
}

// encode N T K L ROOM VALUE ANSWER AREA
pub fn encode_case<W: Write>(out: &mut W, mut words: Words) -> io::Result<()> {
    let params = params(&mut words);
    let room = room(&mut words);
    let value = words.bytes::<1024>();
    let mut area = MARKED;
    let area = &mut area[..room];
    let answer = blocks::encode(params, value.as_slice(), area);
    shown(out, b"encode ", words.rest, answer, area)
}

// decode N T K L ROOM NUMBERS BLOCKS ANSWER AREA
pub fn decode_case<W: Write>(out: &mut W, mut words: Words) -> io::Result<()> {
    let params = params(&mut words);
    let room = room(&mut words);
    let numbers = words.bytes::<1024>();
    let blocks = words.bytes::<1024>();
    let mut area = MARKED;
    let area = &mut area[..room];
    let answer = blocks::decode(params, numbers.as_slice(), blocks.as_slice(), area);
    shown(out, b"decode ", words.rest, answer, area)
}
