// A line of a history: kind, start, end, time, writer, sequence, caller.
ghost use Rattle.std.specs.Prelude.{◌≡◌, ◌-◌, ◌≤◌, length, drop};
ghost use Rattle.history_text.specs.ReadLines.{kind_at, interval_of, stamp_of, operation_of, WithinInterval, WithinStamp, WithinLine};

use crate::number::read_field;
use order::operation::Operation;

// Start and end and how many bytes they take.
#[derive(Clone, Copy)]
pub struct Interval {
    pub start: u32,
    pub end: u32,
    pub used: usize,
}

// The parts of a stamp and how many bytes they take.
#[derive(Clone, Copy)]
pub struct Stamp {
    pub time: u64,
    pub writer: u8,
    pub sequence: u32,
    pub used: usize,
}

// An operation and how many bytes its line takes.
#[derive(Clone, Copy)]
pub struct Line {
    pub operation: Operation,
    pub used: usize,
}

// Whether a kind is that of a write.
#[tactic(auto, unfolding(crate::specs::ReadLines::kind_at, area::specs::Area::pick))]
fn kind(c: u8) -> Option<bool>
    ensures { result ≡ kind_at c }
{
    match c {
        b'R' => Some(false),
        b'W' => Some(true),
        _ => None,
    }
}

// Start and end, each with a space after it.
fn read_interval(s: &[u8], at: usize) -> Option<Interval>
    requires { at ≤ length s.now }
    ensures { (result ≡ interval_of (drop at s.now)) × WithinInterval (length s.now - at) result }
{
    let f = read_field(s, at, 4294967295, 32)?;
    let g = read_field(s, at + f.used, 4294967295, 32)?;
    Some(Interval {
        start: f.value as u32,
        end: g.value as u32,
        used: f.used + g.used,
    })
}

// Time, writer and sequence, each with a space after it.
fn read_stamp(s: &[u8], at: usize) -> Option<Stamp>
    requires { at ≤ length s.now }
    ensures { (result ≡ stamp_of (drop at s.now)) × WithinStamp (length s.now - at) result }
{
    let f = read_field(s, at, 18446744073709551615, 32)?;
    let g = read_field(s, at + f.used, 8, 32)?;
    let h = read_field(s, at + f.used + g.used, 4294967295, 32)?;
    Some(Stamp {
        time: f.value,
        writer: g.value as u8,
        sequence: h.value as u32,
        used: f.used + g.used + h.used,
    })
}

// The operation whose line starts at index at; its caller has a newline after it.
pub fn read_line(s: &[u8], at: usize) -> Option<Line>
    requires { at ≤ length s.now }
    ensures { (result ≡ operation_of (drop at s.now)) × WithinLine (length s.now - at) result }
{
    if s.len() - at < 2 {
        return None;
    }
    let write = kind(s[at])?;
    if s[at + 1] != 32 {
        return None;
    }
    let i = read_interval(s, at + 2)?;
    let p = read_stamp(s, at + 2 + i.used)?;
    let f = read_field(s, at + 2 + i.used + p.used, 8, 10)?;
    let operation = Operation {
        write,
        start: i.start,
        end: i.end,
        time: p.time,
        writer: p.writer,
        sequence: p.sequence,
        caller: f.value as u8,
    };
    Some(Line {
        operation,
        used: 2 + i.used + p.used + f.used,
    })
}
