// What no script of the hall program can bring about at a server or a client. Runs the cases on standard input, one a line, on one server after the other,
// and prints each result with `ok` or `differs`; then those of a client. A line is a kind, its arguments and the result that is expected, which another
// implementation computed; numbers are decimal, bytes are hexadecimal. A line of another kind is printed as it is.
#![tactic(auto)]

use case_text::report::echo;
use case_text::text::Words;
use console::failure::Failure;
use console::input::read_whole;
use console::output::{flush, nothing};
use std::io;
use std::io::Write;
use std::rt::Runtime;
use trial::Trial;

mod clients;
mod shown;
mod trial;

// One line, without its newline.
fn case<W: Write>(report: &mut W, line: &[u8], trial: &mut Trial) -> io::Result<()> {
    let mut words = Words::new(line);
    match words.word() {
        b"fresh" => trial.fresh(report, words),
        b"deliver" => trial.deliver(report, words, false),
        b"whole" => trial.deliver(report, words, true),
        b"unready" => {
            echo(report, line)?;
            trial.unready(words);
            Ok(())
        }
        _ => echo(report, line),
    }
}

// All lines of s, and then those of a client.
fn cases<W: Write>(report: &mut W, s: &[u8]) -> io::Result<()> {
    let mut trial = Trial::new();
    for line in s.split_inclusive(|b| *b == b'\n') {
        case(report, line.strip_suffix(b"\n").unwrap_or(line), &mut trial)?;
    }
    clients::run(report)
}

// Reads at most 65536 bytes, and runs the cases on them.
fn run<R: Runtime>(rt: &R) -> Result<(), Failure> {
    let mut s = [0u8; 65536];
    let n = read_whole(rt, &mut rt.reader(), &mut s)?;
    let mut out = nothing(rt);
    cases(&mut out, &s[..n]).map_err(Failure::Writing)?;
    flush(&mut out)
}

fn main(rt: HostRuntime) {
    console::failure::report(&rt, run(&rt));
}
