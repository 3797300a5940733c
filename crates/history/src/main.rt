// The history program: reads a history from standard input, or from the file that its argument names, and prints its order, an offending pair, or a
// refusal.
#![tactic(auto)]

use console::failure::{Failure, report};
use console::input::open_input;
use std::rt::Runtime;

fn judge<R: Runtime>(rt: &R) -> Result<(), Failure> {
    let Some(mut source) = open_input(rt) else {
        return Ok(());
    };
    history_run::run(rt, &mut source)
}

fn main(rt: HostRuntime) {
    report(&rt, judge(&rt));
}
