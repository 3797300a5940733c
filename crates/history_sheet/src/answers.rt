// The answer to a host for a season sheet, as one number.
ghost use Rattle.std.specs.Prelude.{◌≡◌};
ghost use Rattle.history_sheet.specs.Laying.{laid_response};
ghost use Rattle.history_sheet.specs.Answers.{sheet_answer};

use order::answers::fault_answer;
use order::judge::Fault;

#[tactic(auto, unfolding(crate::specs::Answers::sheet_answer, order::specs::Answers::history_answer, order::specs::Answers::fault_answer))]
pub fn sheet_answer(a: Result<usize, Fault>) -> u64
    ensures { result ≡ sheet_answer (laid_response a) }
{
    match a {
        Ok(pages) => 65536 * (pages as u64 % 256),
        Err(fault) => fault_answer(fault),
    }
}
