// The season sheet of a history.
ghost use Rattle.std.specs.Prelude.{◌≡◌};
ghost use Rattle.semduoli.specs.Calls.{wrote};
ghost use Rattle.semduoli.specs.Sheets.{sheet_call};

// Lays the sheet of a history at the front of out. Refusal 10 if its pages do not fit.
#[unsafe(no_mangle)]
pub extern "C" fn semduoli_sheet(text: &[u8], out: &mut [u8]) -> u64
    ensures { wrote result out.new ≡ sheet_call text.now out.old }
{
    semduoli::sheets::semduoli_sheet(text, out)
}
