// Reads a history to its end and prints the answer, or its sheet.
#![tactic(auto)]

pub mod sheet;

ghost use Rattle.std.specs.Prelude.{◌≡◌};
ghost use Rattle.order.specs.Histories.{judgement};
ghost use Rattle.history_text.specs.Lines.{answer_to};

use console::failure::Failure;
use console::input::read_whole;
use console::output::{flush, nothing, put, put_refused};
use frame::Refusal;
use order::judge::{Fault, LinePair, Verdict, refuse};
use std::io::{Read, Write};
use std::rt::Clock;

// The answer to what was read into a buffer of 65536 bytes. A line of a record has at most 60 bytes, so that what fills the buffer has more than 64 lines or
// a malformed one, whatever follows.
#[tactic(auto, using(history_text::proofs::Bounds::long_refused))]
fn judge(history: &[u8]) -> Verdict
    ensures { judgement result ≡ answer_to history.now }
{
    if 65535 < history.len() {
        return refuse(Refusal::Record);
    }
    history_text::text::judge_text(history)
}

// Reads a history to its end and prints the answer. What can't be read to its end is not judged.
pub fn run<R: Print + Clock, S: Read>(rt: &R, source: &mut S) -> Result<(), Failure> {
    let mut history = [0u8; 65536];
    let n = read_whole(rt, source, &mut history)?;
    let verdict = judge(&history[..n]);
    let mut out = nothing(rt);
    print(verdict, &mut out)?;
    flush(&mut out)
}

// Puts an answer: order and the line numbers, or why there is no order.
fn print<W: Write>(verdict: Verdict, out: &mut W) -> Result<(), Failure> {
    match verdict.answer {
        Ok(count) => {
            put(out, b"order")?;
            put_lines(out, verdict.lines, count)?;
            put(out, b"\n")
        }
        Err(fault) => put_fault(out, fault),
    }
}

// Puts no order and an offending pair, or refused and the number.
fn put_fault<W: Write>(out: &mut W, fault: Fault) -> Result<(), Failure> {
    match fault {
        Fault::Offending(LinePair { earlier, later }) => {
            writeln!(out, "no order {earlier} {later}").map_err(Failure::Writing)
        }
        Fault::Refused(number) => put_refused(out, u64::from(number)),
    }
}

// Puts the first count line numbers, each after a space.
fn put_lines<W: Write>(out: &mut W, lines: [u8; 64], count: usize) -> Result<(), Failure> {
    for line in lines.iter().take(count) {
        write!(out, " {line}").map_err(Failure::Writing)?;
    }
    Ok(())
}
