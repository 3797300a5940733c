// Runs the cases on standard input, one a line, and prints each result with `ok` or `differs`. A line is a kind, its arguments and the result that is
// expected, which another implementation computed; numbers are decimal, bytes are hexadecimal, `-` is no bytes. A line that begins with # is printed as it is.
#![tactic(auto)]

use case_text::report::echo;
use case_text::text::Words;
use console::failure::{Failure, report};
use console::input::read_whole;
use console::output::{flush, nothing};
use std::io;
use std::io::Write;
use std::rt::Runtime;

mod coding;
mod digests;
mod frames;
mod products;

// One line, without its newline.
fn case<W: Write>(out: &mut W, line: &[u8]) -> io::Result<()> {
    let mut words = Words::new(line);
    match words.word() {
        b"digest" => digests::digest(out, words),
        b"product" => products::product(out, words),
        b"inverse" => products::inverse(out, words),
        b"encode" => coding::encode_case(out, words),
        b"decode" => coding::decode_case(out, words),
        b"open" => frames::opening(out, words),
        _ => echo(out, line),
    }
}

// All lines of s.
fn cases<W: Write>(out: &mut W, s: &[u8]) -> io::Result<()> {
    for line in s.split_inclusive(|b| *b == b'\n') {
        case(out, line.strip_suffix(b"\n").unwrap_or(line))?;
    }
    Ok(())
}

// Reads at most 65536 bytes, and runs the cases on them.
fn run<R: Runtime>(rt: &R) -> Result<(), Failure> {
    let mut s = [0u8; 65536];
    let n = read_whole(rt, &mut rt.reader(), &mut s)?;
    let mut out = nothing(rt);
    cases(&mut out, &s[..n]).map_err(Failure::Writing)?;
    flush(&mut out)
}

fn main(rt: HostRuntime) {
    report(&rt, run(&rt));
}
