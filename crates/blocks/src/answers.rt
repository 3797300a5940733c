// The block code's answer to a host, as one number.
ghost use Rattle.std.specs.Prelude.{◌≡◌};
ghost use Rattle.blocks.specs.Calls.{code_response};
ghost use Rattle.blocks.specs.Answers.{code_answer};

use crate::Fault;
use crate::faults::fault_number;

pub fn code_answer(c: Result<(), Fault>) -> u64
    ensures { result ≡ code_answer (code_response c) }
{
    match c {
        Ok(()) => 0,
        Err(f) => fault_number(f),
    }
}
