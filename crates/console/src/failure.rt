// Why a program stops before its input's end.
ghost use Rattle.std.specs.Prelude.{IfErr};
ghost use Rattle.console.specs.Failures.{IsWriting};

use std::{fmt, io};

#[derive(Debug, Drop)]
pub enum Failure {
    Reading(io::Error),
    Writing(io::Error),
}

impl fmt::Display for Failure {
    fn fmt<W: fmt::Write>(&self, f: &mut fmt::Formatter<W>) -> fmt::Result {
        match self {
            Failure::Reading(error) => write!(f, "the input could not be read: {error}"),
            Failure::Writing(error) => write!(f, "the output could not be written: {error}"),
        }
    }
}

impl std::error::Error for Failure {}

// The outcome of a write to the output.
#[tactic(auto, unfolding(crate::specs::Failures::is_writing))]
pub fn written(outcome: io::Result<()>) -> Result<(), Failure>
    ensures { IfErr result IsWriting }
{
    outcome.map_err(Failure::Writing)
}

// Says on standard error why a program stopped, if it did. Where that can't be written either, nothing can be said.
pub fn report(rt: &impl Eprint, outcome: Result<(), Failure>) {
    if let Err(failure) = outcome {
        let _ = eprintln!(rt; "{failure}");
    }
}
