// Reads a history to its end and prints its season sheet.
use crate::put_fault;
use console::counts::count_of;
use console::failure::Failure;
use console::input::read_whole;
use console::output::{flush, nothing, put};
use history_sheet::lay;
use history_sheet::page::PAGE_SIZE;
use order::judge::Fault;
use std::io::{Read, Write};
use std::rt::Clock;

// The bytes of a sheet, which has one page or two.
fn size(pages: usize) -> usize {
    if pages == 1 { PAGE_SIZE } else { 2 * PAGE_SIZE }
}

// Reads a history to its end and prints its sheet, an offending pair or a refusal. What fills the buffer is refused, whatever follows: a text of more than
// 3840 bytes has more than 64 lines or a malformed one. What can't be read to its end is not laid out.
pub fn run<R: Print + Clock, S: Read>(rt: &R, source: &mut S) -> Result<(), Failure> {
    let mut history = [0u8; 65536];
    let n = read_whole(rt, source, &mut history)?;
    let mut sheet = [0u8; 65536];
    let laid = lay(&history[..n], &mut sheet);
    let mut out = nothing(rt);
    print(laid, &sheet, &mut out)?;
    flush(&mut out)
}

// Puts a sheet's pages, or why there is none.
fn print<W: Write>(laid: Result<usize, Fault>, sheet: &[u8], out: &mut W) -> Result<(), Failure> {
    match laid {
        Ok(pages) => {
            let used = count_of(size(pages), sheet);
            put(out, &sheet[..used])
        }
        Err(fault) => put_fault(out, fault),
    }
}
