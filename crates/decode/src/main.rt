// Decodes blocks from lines on standard input, or in the file that the argument names, and answers each at once: `decode N T K L ROOM NUMBERS BLOCKS`, numbers
// decimal and bytes hexadecimal, `-` for none. The answer is `value HEX` or `refused N`, N being the refusal's number; `what?` for any other line.
#![tactic(auto)]

use crate::answers::answer;
use crate::line::Line;
use console::failure::{Failure, report};
use console::input::open_input;
use console::lines::{Part, read_all};
use console::output::nothing;
use std::io::Write;
use std::rt::Runtime;

mod answers;
mod line;

// Takes the next part of the line, and answers the line where it ends.
fn take<W: Write>(line: &mut Line, part: Part<'_>, out: &mut W) -> Result<(), Failure> {
    line.add(part.text);
    if part.ends {
        answer(line.ask(), out)?;
        line.clear();
    }
    Ok(())
}

fn serve<R: Runtime>(rt: &R) -> Result<(), Failure> {
    let Some(mut source) = open_input(rt) else {
        return Ok(());
    };
    let mut out = nothing(rt);
    let mut line = Line::new();
    read_all(
        rt,
        &mut source,
        &mut out,
        |part, out| take(&mut line, part, out),
    )
}

fn main(rt: HostRuntime) {
    report(&rt, serve(&rt));
}
