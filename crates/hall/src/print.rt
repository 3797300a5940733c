// What is printed for an answer.
ghost use Rattle.std.specs.Prelude.{IfErr};
ghost use Rattle.console.specs.Failures.{IsWriting};

use case_text::text::Hex;
use client_rules::Answer;
use console::failure::{Failure, written};
use console::output::put;
use frame::refusals::number_of;
use frame::{Refusal, Stamp};
use std::fmt;
use std::io::Write;

// Bytes, `-` for none.
#[derive(Clone, Copy, Debug)]
struct Bytes<'a>(&'a [u8]);

impl fmt::Display for Bytes<'_> {
    fn fmt<W: fmt::Write>(&self, f: &mut fmt::Formatter<W>) -> fmt::Result {
        if self.0.is_empty() {
            return f.write_str("-");
        }
        Hex(self.0).fmt(f)
    }
}

pub fn put_refused<W: Write>(out: &mut W, r: Refusal) -> Result<(), Failure>
    ensures failed { IfErr result IsWriting }
{
    console::output::put_refused(out, u64::from(number_of(r)))
}

// A read's value and its stamp.
fn put_value<W: Write>(out: &mut W, value: &[u8], stamp: Stamp) -> Result<(), Failure>
    ensures failed { IfErr result IsWriting }
{
    let value = Bytes(value);
    let Stamp {
        time,
        writer,
        sequence,
    } = stamp;
    written(writeln!(out, "value {value} {time} {writer} {sequence}"))
}

// The first frame, and what follows it; all there is, if no whole frame is there.
fn split_frame(frames: &[u8]) -> (&[u8], &[u8]) {
    match frames {
        [high, low, body @ ..] => {
            let length = usize::from(u16::from_be_bytes([*high, *low]));
            frames.split_at(2 + length.min(body.len()))
        }
        _ => (frames, b""),
    }
}

fn put_frame<W: Write>(out: &mut W, class: u8, number: u8, frame: &[u8]) -> Result<(), Failure>
    ensures failed { IfErr result IsWriting }
{
    let class = if class == 0 { 'c' } else { 's' };
    let frame = Bytes(frame);
    written(writeln!(out, "> {class} {number} {frame}"))
}

// Puts `step` and a line for each of the frames sent, with its receiver's class and number.
pub fn put_step<W: Write>(
    out: &mut W,
    frames: &[u8],
    to: &[u8],
    count: usize,
) -> Result<(), Failure>
    ensures failed { IfErr result IsWriting }
{
    put(out, b"step\n")?;
    let mut left = frames;
    for receiver in to.chunks_exact(2).take(count) {
        let (frame, rest) = split_frame(left);
        put_frame(out, receiver[0], receiver[1], frame)?;
        left = rest;
    }
    Ok(())
}

// A client's answer to a call after which n frames are sent where its read ends.
pub fn put_answer<W: Write>(
    out: &mut W,
    answer: Answer,
    n: usize,
    value: &[u8],
    frames: &[u8],
    to: &[u8],
) -> Result<(), Failure>
    ensures failed { IfErr result IsWriting }
{
    match answer {
        Answer::Sent(count) => put_step(out, frames, to, count),
        Answer::Written => {
            put_step(out, frames, to, 0)?;
            put(out, b"written\n")
        }
        Answer::OutOfStamps => {
            put_step(out, frames, to, 0)?;
            put(out, b"out of stamps\n")
        }
        Answer::Value(stamp) => {
            put_step(out, frames, to, n)?;
            put_value(out, value, stamp)
        }
        Answer::Disagreement => {
            put_step(out, frames, to, n)?;
            put(out, b"disagreement\n")
        }
        Answer::Refused(r) => put_refused(out, r),
    }
}
