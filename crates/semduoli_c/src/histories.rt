// Histories as text.
ghost use Rattle.std.specs.Prelude.{◌≡◌};
ghost use Rattle.semduoli.specs.Calls.{wrote, history_call};

// Whether the operations of a history have an order; if so its line numbers go to the front of lines. Refusal 10 if lines has fewer than 64 bytes.
#[unsafe(no_mangle)]
pub extern "C" fn semduoli_judge(text: &[u8], lines: &mut [u8]) -> u64
    ensures { wrote result lines.new ≡ history_call text.now lines.old }
{
    semduoli::histories::semduoli_judge(text, lines)
}
