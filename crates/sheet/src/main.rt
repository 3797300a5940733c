// The sheet program: reads a history from standard input, or from the file that its argument names, and prints its season sheet, an offending pair, or a
// refusal.
#![tactic(auto)]

use console::failure::{Failure, report};
use console::input::open_input;
use std::rt::Runtime;

fn lay_out<R: Runtime>(rt: &R) -> Result<(), Failure> {
    let Some(mut source) = open_input(rt) else {
        return Ok(());
    };
    history_run::sheet::run(rt, &mut source)
}

fn main(rt: HostRuntime) {
    report(&rt, lay_out(&rt));
}
