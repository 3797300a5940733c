// The input of a program: standard input, or the file that its argument names.
ghost use Rattle.std.specs.Prelude.{◌≤◌, length, IfErr};
ghost use Rattle.std.specs.Io.{ReadsAtMost};
ghost use Rattle.console.specs.Failures.{IsReading};

use crate::failure::Failure;
use crate::patience::is_put_off;
use std::env::FillError;
use std::io::Read;
use std::rt::{Clock, Env, Files};
use std::{fs, io};

// How many bytes a file's name may have.
pub const NAME: usize = 4096;

// Standard input, or a file.
#[derive(Drop)]
pub enum Source<S, F> {
    Standard(S),
    Named(F),
}

impl<S: Read, F: Read> Read for Source<S, F> {
    fn read(&mut self, buf: &mut [u8]) -> io::Result<usize> {
        match self {
            Source::Standard(reader) => reader.read(buf),
            Source::Named(file) => file.read(buf),
        }
    }
}

// Opens the file of this name; none, with a message, if it can't be opened. A name that is not text can't be one.
pub fn open_file<R: Files + Eprint>(rt: &R, name: &[u8]) -> Option<R::File> {
    let Ok(path) = str::from_utf8(name) else {
        let error = io::Error::from(io::ErrorKind::InvalidData);
        let _ = eprintln!(rt; "the file's name: {error}");
        return None;
    };
    match fs::open(rt, path) {
        Ok(file) => Some(file),
        Err(error) => {
            let _ = eprintln!(rt; "{path}: {error}");
            None
        }
    }
}

// The input: standard input, or the file that the one argument names; none, with a message, if it can't be opened or there are more arguments.
pub fn open_input<R: Input + Files + Env + Eprint>(rt: &R) -> Option<Source<R::Reader, R::File>> {
    let mut name = [0u8; NAME];
    let first = rt.arg(1, &mut name);
    if let Err(FillError::NotPresent) = first {
        return Some(Source::Standard(rt.reader()));
    }
    let mut more = [0u8; NAME];
    let Err(FillError::NotPresent) = rt.arg(2, &mut more) else {
        let _ = eprintln!(rt; "one file at most can be named");
        return None;
    };
    let Ok(k) = first else {
        let error = io::Error::from(io::ErrorKind::InvalidFilename);
        let _ = eprintln!(rt; "the file's name: {error}");
        return None;
    };
    Some(Source::Named(open_file(rt, &name[..k])?))
}

// Reads the next piece of the input into the front of the buffer, and answers how many bytes it has: none at the input's end.
#[tactic(auto, unfolding(crate::specs::Failures::is_reading))]
pub fn read_piece<C: Clock, S: Read>(
    clock: &C,
    source: &mut S,
    buf: &mut [u8],
) -> Result<usize, Failure>
    ensures count { ReadsAtMost result buf.new }
    ensures failed { IfErr result IsReading }
{
    let mut outcome = source.read(buf);
    for _ in 0..u64::MAX {
        if !is_put_off(clock, &outcome) {
            break;
        }
        outcome = source.read(buf);
    }
    outcome.map_err(Failure::Reading)
}

// Reads the input to its end, or until the buffer is full, and answers how many bytes it has.
pub fn read_whole<C: Clock, S: Read>(
    clock: &C,
    source: &mut S,
    buf: &mut [u8],
) -> Result<usize, Failure>
    ensures count { ReadsAtMost result buf.new }
    ensures failed { IfErr result IsReading }
{
    let mut count = 0;
    for _ in 0..u64::MAX {
        let more = read_piece(clock, source, &mut buf[count..])?;
        if more == 0 {
            break;
        }
        count += more;
    }
    Ok(count)
}
