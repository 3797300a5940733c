// The line of one operation.
ghost use Rattle.std.specs.Prelude.{◌≡◌, [], ◌∷◌, ◌+◌, ◌≤◌, ◌<◌, length};
ghost use Rattle.std.proofs.lemmas.List.Edits.{sets};
ghost use Rattle.area.specs.Area.{pick};
ghost use Rattle.history_text.specs.Decimals.{decimal};
ghost use Rattle.history_text.specs.Printed.{kind_of, InWidth};
ghost use Rattle.history_sheet.specs.Sheet.{aligned, operation_line, ended, filled};
ghost use Rattle.history_sheet.specs.Stages.{spaced};

use crate::number::put_field;
use order::operation::Operation;

// How many bytes a line takes, with its newline.
pub const LINE_SIZE: usize = 73;

#[tactic(auto, unfolding(area::specs::Area::pick))]
fn kind(write: bool) -> u8
    ensures { result ≡ pick write 87 82 }
{
    if write { b'W' } else { b'R' }
}

// The kind and a space after it.
fn put_kind(out: &mut [u8], at: usize, write: bool)
    requires { at + 2 ≤ length out.old }
    ensures { out.new ≡ sets out.old at (pick write 87 82 ∷ 32 ∷ []) }
{
    out[at] = kind(write);
    out[at + 1] = 32;
}

// Place, kind, start and end.
fn put_interval(out: &mut [u8], at: usize, place: u64, a: Operation)
    requires { (at + 28 ≤ length out.old) × (place < 1000) × InWidth a }
    ensures { out.new ≡ sets out.old at
        (spaced (aligned 3 (decimal place) ∷ kind_of a ∷ aligned 10 (decimal a.start) ∷ aligned 10 (decimal a.end) ∷ [])) }
{
    put_field(out, at, 3, place, 32);
    put_kind(out, at + 4, a.write);
    put_field(out, at + 6, 10, a.start as u64, 32);
    put_field(out, at + 17, 10, a.end as u64, 32);
}

// Time, writer, sequence and caller.
fn put_stamp(out: &mut [u8], at: usize, a: Operation)
    requires { (at + 36 ≤ length out.old) × InWidth a }
    ensures { out.new ≡ sets out.old at
        (spaced (aligned 20 (decimal a.time) ∷ aligned 1 (decimal a.writer) ∷
        aligned 10 (decimal a.sequence) ∷ aligned 1 (decimal a.caller) ∷ [])) }
{
    put_field(out, at, 20, a.time, 32);
    put_field(out, at + 21, 1, a.writer as u64, 32);
    put_field(out, at + 23, 10, a.sequence as u64, 32);
    put_field(out, at + 34, 1, a.caller as u64, 32);
}

// The line of the operation at a place.
pub fn put_operation(out: &mut [u8], at: usize, place: u64, a: Operation)
    requires { (at + 73 ≤ length out.old) × (place < 1000) × InWidth a }
    ensures { out.new ≡ sets out.old at (ended (operation_line place a)) }
{
    put_interval(out, at, place, a);
    put_stamp(out, at + 28, a);
    area::fill(out, at + 64, 8, 32);
    out[at + 72] = 10;
}

// A line of spaces.
pub fn put_blank(out: &mut [u8], at: usize)
    requires { at + 73 ≤ length out.old }
    ensures { out.new ≡ sets out.old at (ended (filled [])) }
{
    area::fill(out, at, 72, 32);
    out[at + 72] = 10;
}
