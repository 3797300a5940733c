// The season sheet of a history.
ghost use Rattle.std.specs.Prelude.{◌≡◌};
ghost use Rattle.semduoli.specs.Calls.{wrote};
ghost use Rattle.semduoli.specs.Sheets.{sheet_call};

use history_sheet::answers::sheet_answer;
use history_sheet::lay;

// Lays the sheet of a history at the front of out. Refusal 10 if its pages do not fit.
pub fn semduoli_sheet(text: &[u8], out: &mut [u8]) -> u64
    ensures { wrote result out.new ≡ sheet_call text.now out.old }
{
    sheet_answer(lay(text, out))
}
