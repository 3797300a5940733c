// Flags, numbers, stamps and arrays at a place of a lent area.
ghost use Rattle.std.specs.Prelude.{◌≡◌, ℕ, ◌+◌, ◌*◌, ◌≤◌, List, ◌∷◌, [], length, false};
ghost use Rattle.std.proofs.lemmas.List.Edits.{sets};
ghost use Rattle.area.specs.Numbers.{bytes8, be8};
ghost use Rattle.frame.specs.Frames.{stamp_bytes};
ghost use Rattle.frame.specs.Stamps.{zero_stamp};
ghost use Rattle.layout.specs.Fields.{flag_byte, flag_at, stamp_size, stamp_at, row_bytes, row_at};

use frame::Stamp;
use std::array;

pub const STAMP_SIZE: usize = 13;

// A value that a fixed number of bytes says.
pub trait Field {
    // That number, the bytes that are written for a value, the value that the bytes from an index on say, and what is written past an array's end.
    ghost WIDTH: { ℕ };

    ghost written: { Self → List ℕ };

    ghost read: { List ℕ → ℕ → Self };

    ghost blank: { Self };

    const WIDTH: usize;

    // Writes self from index at on.
    fn put(&self, out: &mut [u8], at: usize)
        requires { at + WIDTH ≤ length out.old }
        ensures puts { out.new ≡ sets out.old at (written self.now) }
        ensures wide { length (written self.now) ≡ WIDTH };

    // The value that the bytes from index at on say.
    fn get(bytes: &[u8], at: usize) -> Self
        requires { at + WIDTH ≤ length bytes.now }
        ensures { result ≡ read bytes.now at };
}

// ---- flags

impl Field for bool {
    ghost WIDTH = { 1 };

    ghost written = { λ b. flag_byte b ∷ [] };

    ghost read = { flag_at };

    ghost blank = { false };

    const WIDTH: usize = 1;

    fn put(&self, out: &mut [u8], at: usize) {
        out[at] = u8::from(*self);
    }

    fn get(bytes: &[u8], at: usize) -> bool {
        bytes[at] != 0
    }
}

// ---- numbers

impl Field for u64 {
    ghost WIDTH = { 8 };

    ghost written = { bytes8 };

    ghost read = { be8 };

    ghost blank = { 0 };

    const WIDTH: usize = 8;

    // (There is always room, so the test never holds. With it the compiler writes the eight bytes at once, without it one by one.)
    fn put(&self, out: &mut [u8], at: usize) {
        if out.len() < at + 8 {
            return;
        }
        area::write8(out, at, *self);
    }

    fn get(bytes: &[u8], at: usize) -> u64 {
        area::read8(bytes, at)
    }
}

// ---- stamps

impl Field for Stamp {
    ghost WIDTH = { stamp_size };

    ghost written = { stamp_bytes };

    ghost read = { stamp_at };

    ghost blank = { zero_stamp };

    const WIDTH: usize = STAMP_SIZE;

    fn put(&self, out: &mut [u8], at: usize) {
        area::write8(out, at, self.time);
        out[at + 8] = self.writer;
        area::write4(out, at + 9, self.sequence);
    }

    fn get(bytes: &[u8], at: usize) -> Stamp {
        Stamp {
            time: area::read8(bytes, at),
            writer: bytes[at + 8],
            sequence: area::read4(bytes, at + 9),
        }
    }
}

// ---- arrays

// Writes the elements of xs end to end, from index at on.
pub fn put_all<T: Field, const N: usize>(xs: &[T; N], out: &mut [u8], at: usize)
    requires { at + N * T.WIDTH ≤ length out.old }
    ensures { out.new ≡ sets out.old at (row_bytes T.written N T.blank xs.now) }
{
    for j in 0..N {
        xs[j].put(out, at + j * T::WIDTH);
    }
}

// The array that the bytes from index at on say.
pub fn get_all<T: Field, const N: usize>(bytes: &[u8], at: usize) -> [T; N]
    requires { at + N * T.WIDTH ≤ length bytes.now }
    ensures { result ≡ row_at T.read N T.WIDTH bytes.now at }
{
    array::from_fn(
        |j| -> T
            requires { at + j * T.WIDTH + T.WIDTH ≤ length bytes.now }
            ensures { result ≡ T.read bytes.entry.now (at + j * T.WIDTH) }
        { T::get(bytes, at + j * T::WIDTH) },
    )
}
