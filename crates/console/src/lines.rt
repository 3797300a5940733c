// The lines of an input, part by part, so that a line may be of any length. The answers that wait are written before more is read.
ghost use Rattle.std.specs.Prelude.{◌≡◌, ◌≤◌, ◌<◌, OnOk, IfOk};

use crate::failure::Failure;
use crate::input::read_piece;
use crate::output::flush;
use std::io::{Read, Write};
use std::rt::Clock;

// How many bytes are read at a time.
const ROOM: usize = 65536;

// Where reading stands: between lines, within a line that has begun and not ended, or at the input's end.
#[derive(Clone, Copy, Debug, PartialEq, Eq)]
enum Place {
    Between,
    Within,
    Over,
}

// A part of a line, and whether the line ends with it.
#[derive(Clone, Copy, Debug)]
pub struct Part<'a> {
    pub text: &'a [u8],
    pub ends: bool,
}

// An input whose parts are taken one after the other: the piece that was read last lies in the buffer before index size, and the next part starts at next.
#[derive(Drop)]
pub struct Lines<'a, C, S> {
    clock: &'a C,
    source: &'a mut S,
    buffer: [u8; ROOM],
    next: usize,
    size: usize,
    place: Place,
    ghost order: { next ≤ size },
    ghost room: { size ≤ 65536 },
}

impl<'a, C: Clock, S: Read> Lines<'a, C, S> {
    // Before the first part.
    pub fn new(clock: &'a C, source: &'a mut S) -> Lines<'a, C, S> {
        Lines {
            clock,
            source,
            buffer: [0; ROOM],
            next: 0,
            size: 0,
            place: Place::Between,
        }
    }

    // Reads the next piece, and answers how long it is.
    fn read(&mut self) -> Result<usize, Failure>
        ensures front { OnOk result (self.new.next ≡ 0) }
        ensures piece { IfOk result (λ n. n ≡ self.new.size) }
    {
        self.next = 0;
        self.size = 0;
        self.size = read_piece(self.clock, self.source, &mut self.buffer)?;
        Ok(self.size)
    }

    // Where the input ends, a line that has begun ends too.
    fn last_part(&mut self) -> Option<Part<'static>> {
        let begun = self.place == Place::Within;
        self.place = Place::Over;
        begun.then_some(Part {
            text: b"",
            ends: true,
        })
    }

    // Passes the part that starts at next, up to a newline or to the end of the piece, and answers where it ends and whether its line ends there.
    // Reading goes on behind it.
    fn pass(&mut self) -> (usize, bool)
        requires { self.old.next < self.old.size }
        ensures moves { self.old.next < self.new.next }
        ensures within { (self.old.next ≤ result.0) × (result.0 ≤ self.new.size) }
    {
        let start = self.next;
        let newline = self.buffer[start..self.size]
            .iter()
            .position(|b| *b == b'\n');
        let end = newline.map_or(self.size, |length| start + length);
        let ends = newline.is_some();
        self.next = if ends { end + 1 } else { end };
        self.place = if ends { Place::Between } else { Place::Within };
        (end, ends)
    }

    // The part that starts at next.
    fn part(&mut self) -> Part<'_>
        requires { self.old.next < self.old.size }
    {
        let start = self.next;
        let (end, ends) = self.pass();
        let lines = &*self;
        Part {
            text: &lines.buffer[start..end],
            ends,
        }
    }

    // The next part; none at the input's end. What the program has put is written before more is read.
    pub fn next_part<W: Write>(&mut self, out: &mut W) -> Result<Option<Part<'_>>, Failure> {
        if self.place == Place::Over {
            return Ok(None);
        }
        if self.next == self.size {
            flush(out)?;
            if self.read()? == 0 {
                return Ok(self.last_part());
            }
        }
        Ok(Some(self.part()))
    }
}

// Reads an input to its end, in at most 2^64 - 1 parts, and hands each to take. What take has put is written before more is read, and at the end.
pub fn read_all<C: Clock, S: Read, W: Write, F>(
    clock: &C,
    source: &mut S,
    out: &mut W,
    mut take: F,
) -> Result<(), Failure>
where
    F: FnMut(Part<'_>, &mut W) -> Result<(), Failure>,
    requires { F.IsAlwaysCallable take }
{
    let mut lines = Lines::new(clock, source);
    for _ in 0..u64::MAX {
        let Some(part) = lines.next_part(out)? else {
            break;
        };
        take(part, out)?;
    }
    flush(out)
}
