// Entries of a trace, read and written.
ghost use Rattle.std.specs.Prelude.{◌≡◌};
ghost use Rattle.entries.specs.Entries.{closing_number, reading_response};
ghost use Rattle.entries.specs.Writing.{writing_response};
ghost use Rattle.host_facts.specs.Outcomes.{wrote};
ghost use Rattle.host_facts.specs.Traces.{found_answer, reading_answer, writing_answer, nobody_answer, entry_read_call, entry_write_call};

use entries::reader::read_entry;
use entries::writer::write_entry;
use entries::{Closing, FRAME_AT, Found, LONGEST};
use frame::Refusal;
use frame::parties::{party_bytes, party_in};
use frame::refusals::number_of;

fn closing_number(c: Closing) -> u64
    ensures { result ≡ closing_number c }
{
    c as u64
}

// An entry that was found: its sender's class and number, and how many bytes it takes.
fn found_answer(x: Found) -> u64
    ensures { result ≡ found_answer x }
{
    let party = party_bytes(x.sender);
    let class = party[0] as u64;
    let number = party[1] as u64;
    let end = x.end as u64 % 4294967296;
    256 + 65536 * class + 16777216 * number + 4294967296 * end
}

fn reading_answer(r: Result<Found, Closing>) -> u64
    ensures { result ≡ reading_answer (reading_response r) }
{
    match r {
        Ok(x) => found_answer(x),
        Err(c) => closing_number(c),
    }
}

// The first entry of what is left of a trace: its sender and how many bytes it takes, or how the trace closes there.
pub fn entry_read(l: &[u8]) -> u64
    ensures { result ≡ entry_read_call l.now }
{
    reading_answer(read_entry(l))
}

fn writing_answer(w: Result<usize, Refusal>) -> u64
    ensures { result ≡ writing_answer (writing_response w) }
{
    match w {
        Ok(m) => 65536 * (m as u64 % 281474976710656),
        Err(r) => number_of(r) as u64,
    }
}

// An entry whose sender is nobody, for a frame of len bytes and an area of room bytes: refusal 11, but 3 or 10 first.
fn nobody_answer(len: usize, room: usize) -> u64
    ensures { result ≡ nobody_answer len room }
{
    if LONGEST < len {
        return 3;
    }
    if room < FRAME_AT + len {
        return 10;
    }
    11
}

// Writes an entry at the front of out, the sender being named by a class and a number.
pub fn entry_write(class: usize, number: usize, f: &[u8], out: &mut [u8]) -> u64
    ensures { wrote result out.new ≡ entry_write_call class number f.now out.old }
{
    if 1 < class || 255 < number {
        return nobody_answer(f.len(), out.len());
    }
    let sender = party_in(class as u8, number as u8);
    writing_answer(write_entry(sender, f, out))
}
