// The season sheet (document 02, F-5): a history that has an order, laid out on pages of 72 columns and 60 lines in a lent area.
#![tactic(auto)]

pub mod answers;
pub mod line;
pub mod number;
pub mod page;

ghost use Rattle.std.specs.Prelude.{◌≡◌, ◌≤◌};
ghost use Rattle.history_sheet.specs.Sheet.{pages_of};
ghost use Rattle.history_sheet.specs.Laying.{laid_response, outcome, laid_out, laying};
ghost use Rattle.history_sheet.specs.Stages.{named_all, Named};

use crate::page::{ON_PAGE, PAGE_SIZE, put_pages};
use frame::Refusal;
use frame::refusals::number_of;
use history_text::text::{judge_reading, read_text};
use order::judge::Fault;
use order::operation::Operation;

// How many pages m operations take.
fn page_count(m: usize) -> usize
    requires { m ≤ 64 }
    ensures { (result ≡ pages_of m) × (result ≤ 2) }
{
    if m == 0 { 1 } else { (m + 58) / ON_PAGE }
}

// Lays the sheet of the m operations that the first m entries of lines name, if there is room for it.
fn put_sheet(
    out: &mut [u8],
    rows: [Operation; 64],
    lines: [u8; 64],
    m: usize,
) -> Result<usize, Fault>
    requires { Named rows lines m }
    ensures { outcome (laid_response result) out.new ≡ laid_out (named_all rows lines m) out.old }
{
    let pages = page_count(m);
    if out.len() < pages * PAGE_SIZE {
        return Err(Fault::Refused(number_of(Refusal::Room)));
    }
    put_pages(out, rows, lines, m, pages);
    Ok(pages)
}

// Lays the sheet of a history at the front of out: how many pages it has.
pub fn lay(text: &[u8], out: &mut [u8]) -> Result<usize, Fault>
    ensures { outcome (laid_response result) out.new ≡ laying text.now out.old }
{
    let history = match read_text(text) {
        Ok(history) => history,
        Err(why) => return Err(Fault::Refused(number_of(why))),
    };
    let verdict = judge_reading(Ok(history));
    let rows = history.rows;
    let lines = verdict.lines;
    let m = verdict.answer?;
    put_sheet(out, rows, lines, m)
}
