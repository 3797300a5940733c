// A history as text: its lines read, and the answer to it.
ghost use Rattle.std.specs.Prelude.{◌≡◌};
ghost use Rattle.order.specs.Histories.{judgement};
ghost use Rattle.history_text.specs.Lines.{lines_of, answer_to};
ghost use Rattle.history_text.specs.Readings.{reading_of, answer_by};

use crate::line::read_line;
use frame::Refusal;
use history_row::{History, judge_first};
use order::judge::{Verdict, refuse};

// Reads every line; a malformed one is refused. Of more than 64 operations the first 64 are given, and that there are more.
pub fn read_text(s: &[u8]) -> Result<History, Refusal>
    ensures { result ≡ reading_of (lines_of s.now) }
{
    let mut history = History::empty();
    let mut at: usize = 0;
    // No `for`: a turn goes on by the length of a line.
    while at < s.len() {
        let Some(line) = read_line(s, at) else {
            return Err(Refusal::Record);
        };
        history = history.add(line.operation);
        at += line.used;
    }
    Ok(history)
}

// The answer to what was read; the operations are lent as a slice.
#[tactic(auto, unfolding(crate::specs::Readings::answer_by, history_row::specs::Rows::verdict_of, area::specs::Area::pick))]
pub fn judge_reading(reading: Result<History, Refusal>) -> Verdict
    ensures { judgement result ≡ answer_by reading }
{
    let history = match reading {
        Ok(history) => history,
        Err(why) => return refuse(why),
    };
    let n = history.count;
    if 64 < n {
        return refuse(Refusal::Record);
    }
    let rows = history.rows;
    judge_first(rows, n)
}

// The answer to a history as text.
pub fn judge_text(s: &[u8]) -> Verdict
    ensures { judgement result ≡ answer_to s.now }
{
    judge_reading(read_text(s))
}
