// Runs all parties of a register on one machine from a script, on standard input or in the file that the argument names, and answers each line at once.
#![tactic(auto)]

ghost use Rattle.std.specs.Prelude.{IfErr};
ghost use Rattle.console.specs.Failures.{IsWriting};

use crate::line::Line;
use crate::parties::Hall;
use console::failure::{Failure, report};
use console::input::open_input;
use console::lines::{Part, read_all};
use console::output::nothing;
use std::io::Write;
use std::rt::Runtime;

mod asks;
mod line;
mod parties;
mod print;

// Takes the next part of the line, and answers the line where it ends.
fn take<W: Write>(
    hall: &mut Hall,
    line: &mut Line,
    part: Part<'_>,
    out: &mut W,
) -> Result<(), Failure>
    ensures failed { IfErr result IsWriting }
{
    line.add(part.text, part.ends);
    if part.ends {
        hall.answer(line, out)?;
        line.clear();
    }
    Ok(())
}

// Opens the script, and runs it.
fn serve<R: Runtime>(rt: &R) -> Result<(), Failure> {
    let Some(mut source) = open_input(rt) else {
        return Ok(());
    };
    let mut out = nothing(rt);
    let mut hall = Hall::new();
    let mut line = Line::new();
    read_all(
        rt,
        &mut source,
        &mut out,
        |part, out| take(&mut hall, &mut line, part, out),
    )
}

fn main(rt: HostRuntime) {
    report(&rt, serve(&rt));
}
