// Runs the history program's code on each file that the arguments name.
#![tactic(auto)]

use console::failure::{Failure, report};
use console::input::{NAME, open_file};
use console::output::{flush, nothing, put};
use std::env::FillError;
use std::rt::{Env, Runtime};

fn main(rt: HostRuntime) {
    for i in 1..usize::MAX {
        let mut name = [0u8; NAME];
        let k = match rt.arg(i, &mut name) {
            Ok(k) => k,
            Err(FillError::TooLong) => 0,
            Err(FillError::NotPresent) => break,
        };
        report(&rt, show(&rt, &name[..k]));
    }
}

// Prints the name of the file and the answer to what it holds.
fn show<R: Runtime>(rt: &R, path: &[u8]) -> Result<(), Failure> {
    let mut out = nothing(rt);
    put(&mut out, path)?;
    put(&mut out, b" ")?;
    flush(&mut out)?;
    let Some(mut file) = open_file(rt, path) else {
        return Ok(());
    };
    history_run::run(rt, &mut file)
}
