// Standard output, written in large pieces: what is put waits until there is no room, or until it is flushed.
ghost use Rattle.std.specs.Prelude.{IfErr};
ghost use Rattle.console.specs.Failures.{IsWriting};

use crate::failure::{Failure, written};
use crate::patience::is_put_off;
use arrayvec::ArrayVec;
use std::io;
use std::io::Write;
use std::rt::Clock;

// Standard output itself. A write that can't be made yet is made again; after one that failed nothing more is written.
#[derive(Drop)]
pub struct Patient<'a, R> {
    rt: &'a R,
    failed: Option<io::Error>,
}

impl<R: Print + Clock> Write for Patient<'_, R> {
    fn write(&mut self, buf: &[u8]) -> io::Result<usize> {
        if let Some(error) = self.failed {
            return Err(error);
        }
        let mut outcome = self.rt.write_some(buf);
        for _ in 0..u64::MAX {
            if !is_put_off(self.rt, &outcome) {
                break;
            }
            outcome = self.rt.write_some(buf);
        }
        self.failed = outcome.err();
        outcome
    }

    fn flush(&mut self) -> io::Result<()> {
        Ok(())
    }
}

// How many bytes wait at most.
const ROOM: usize = 65536;

// Standard output, with the bytes that wait. What waits when it is dropped is not written.
#[derive(Drop)]
pub struct Out<'a, R> {
    patient: Patient<'a, R>,
    waiting: ArrayVec<u8, ROOM>,
}

impl<R: Print + Clock> Out<'_, R> {
    // Writes what waits.
    fn send(&mut self) -> io::Result<()> {
        let outcome = self.patient.write_all(self.waiting.as_slice());
        self.waiting.clear();
        outcome
    }
}

impl<R: Print + Clock> Write for Out<'_, R> {
    // What waits is written if the bytes do not fit after it; what doesn't fit at all does not wait.
    fn write(&mut self, buf: &[u8]) -> io::Result<usize> {
        if self.waiting.remaining_capacity() < buf.len() {
            self.send()?;
        }
        if self.waiting.remaining_capacity() < buf.len() {
            return self.patient.write(buf);
        }
        self.waiting.write(buf)
    }

    fn flush(&mut self) -> io::Result<()> {
        self.send()
    }
}

// Standard output, where nothing waits yet.
pub fn nothing<R: Print + Clock>(rt: &R) -> Out<'_, R> {
    Out {
        patient: Patient { rt, failed: None },
        waiting: ArrayVec::new(),
    }
}

// Writes what waits.
pub fn flush<W: Write>(out: &mut W) -> Result<(), Failure>
    ensures failed { IfErr result IsWriting }
{
    written(out.flush())
}

// Adds a text to what waits.
pub fn put<W: Write>(out: &mut W, text: &[u8]) -> Result<(), Failure>
    ensures failed { IfErr result IsWriting }
{
    written(out.write_all(text))
}

// Puts a number's digits.
pub fn put_decimal<W: Write>(out: &mut W, x: u64) -> Result<(), Failure>
    ensures failed { IfErr result IsWriting }
{
    written(write!(out, "{x}"))
}

// Puts the answer to a line that the program does not understand.
pub fn put_what<W: Write>(out: &mut W) -> Result<(), Failure>
    ensures failed { IfErr result IsWriting }
{
    put(out, b"what?\n")
}

// Puts the answer to what is refused, with the refusal's number.
pub fn put_refused<W: Write>(out: &mut W, number: u64) -> Result<(), Failure>
    ensures failed { IfErr result IsWriting }
{
    written(writeln!(out, "refused {number}"))
}
