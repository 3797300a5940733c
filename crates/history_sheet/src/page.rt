// Pages: the lines of operations, lines of spaces, and the page's number.
ghost use Rattle.std.specs.Prelude.{◌≡◌, [], ◌+◌, ◌*◌, ◌≤◌, ◌<◌, length};
ghost use Rattle.std.proofs.lemmas.List.Edits.{sets};
ghost use Rattle.area.specs.Area.{joined};
ghost use Rattle.history_sheet.specs.Sheet.{on_page, page_size, filled, ended, operation_line, place_line, page_of};
ghost use Rattle.history_sheet.specs.Stages.{named, named_all, Named};

use crate::line::{LINE_SIZE, put_blank, put_operation};
use crate::number::put_field;
use order::operation::Operation;

// How many operations a page has.
pub const ON_PAGE: usize = 59;

// How many bytes a page takes: 60 lines.
pub const PAGE_SIZE: usize = 4380;

// Puts the lines of count operations, from index first on.
fn put_operations(
    out: &mut [u8],
    at: usize,
    rows: [Operation; 64],
    lines: [u8; 64],
    first: usize,
    count: usize,
)
    requires { (at + count * 73 ≤ length out.old) × Named rows lines (first + count) }
    ensures { out.new ≡ sets out.old at (joined (λ i. ended (operation_line (i + 1) (named rows lines i))) first count) }
{
    for j in 0..count {
        let i = first + j;
        let place = i + 1;
        let line = lines[i] as usize;
        let a = rows[line - 1];
        put_operation(out, at + j * LINE_SIZE, place as u64, a);
    }
}

// Puts count lines of spaces.
fn put_blanks(out: &mut [u8], at: usize, count: usize)
    requires { at + count * 73 ≤ length out.old }
    ensures { out.new ≡ sets out.old at (joined (λ i. ended (filled [])) 0 count) }
{
    for j in 0..count {
        put_blank(out, at + j * LINE_SIZE);
    }
}

// Page p, counted from 0, of m operations.
fn put_page(out: &mut [u8], at: usize, rows: [Operation; 64], lines: [u8; 64], m: usize, p: usize)
    requires { (at + page_size ≤ length out.old) × Named rows lines m × (p < 9) × (on_page * p ≤ m) }
    ensures { out.new ≡ sets out.old at (page_of (named_all rows lines m) p) }
{
    let first = ON_PAGE * p;
    let count = ON_PAGE.min(m - first);
    put_operations(out, at, rows, lines, first, count);
    put_blanks(out, at + count * LINE_SIZE, ON_PAGE - count);
    put_field(out, at + ON_PAGE * LINE_SIZE, 72, (p + 1) as u64, 10);
}

// The first pages of m operations, from the front of out on.
pub fn put_pages(out: &mut [u8], rows: [Operation; 64], lines: [u8; 64], m: usize, pages: usize)
    requires { (pages * page_size ≤ length out.old) × Named rows lines m × (pages ≤ 2) × (pages * on_page ≤ m + on_page) }
    ensures { out.new ≡ sets out.old 0 (joined (page_of (named_all rows lines m)) 0 pages) }
{
    for p in 0..pages {
        put_page(out, p * PAGE_SIZE, rows, lines, m, p);
    }
}
