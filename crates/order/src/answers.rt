// The number that a host is answered for a history.
ghost use Rattle.std.specs.Prelude.{◌≡◌};
ghost use Rattle.order.specs.Histories.{judge_response};
ghost use Rattle.order.specs.Answers.{line_count, history_answer, fault_answer};

use crate::judge::{Fault, LinePair};

// How many line numbers an answer gives.
#[tactic(auto, unfolding(crate::specs::Answers::line_count))]
pub fn line_count(a: Result<usize, Fault>) -> usize
    ensures { result ≡ line_count (judge_response a) }
{
    a.unwrap_or(0)
}

#[tactic(auto, unfolding(crate::specs::Answers::history_answer, crate::specs::Answers::fault_answer))]
pub fn history_answer(a: Result<usize, Fault>) -> u64
    ensures { result ≡ history_answer (judge_response a) }
{
    match a {
        Ok(count) => 65536 * (count as u64 % 256),
        Err(fault) => fault_answer(fault),
    }
}

// The number where there is no order.
#[tactic(auto, unfolding(crate::specs::Answers::fault_answer))]
pub fn fault_answer(fault: Fault) -> u64
    ensures { result ≡ fault_answer fault }
{
    match fault {
        Fault::Offending(LinePair { earlier, later }) => {
            256 + 65536 * (earlier as u64 % 256) + 16777216 * (later as u64 % 256)
        }
        Fault::Refused(number) => u64::from(number),
    }
}
