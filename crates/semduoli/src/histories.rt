// Histories as text.
ghost use Rattle.std.specs.Prelude.{◌≡◌};
ghost use Rattle.semduoli.specs.Calls.{wrote, history_call};

use history_text::text::judge_text;
use order::answers::{history_answer, line_count};

// Whether the operations of a history have an order; if so its line numbers go to the front of lines. Refusal 10 if lines has fewer than 64 bytes.
pub fn semduoli_judge(text: &[u8], lines: &mut [u8]) -> u64
    ensures { wrote result lines.new ≡ history_call text.now lines.old }
{
    if lines.len() < 64 {
        return 10;
    }
    let verdict = judge_text(text);
    let count = line_count(verdict.answer);
    area::put(lines, 0, &verdict.lines[..count]);
    history_answer(verdict.answer)
}
