// Stamps: compared in the order time, writer, sequence.
ghost use Rattle.std.specs.Prelude.{◌≡◌};
ghost use Rattle.frame.specs.Stamps.{older, same_stamp, zero_stamp, parts_agree};

use crate::Stamp;

// Whether a comes before b.
pub fn is_older(a: Stamp, b: Stamp) -> bool
    ensures { result ≡ older a b }
{
    a < b
}

// Whether a and b are one stamp.
pub fn is_same(a: Stamp, b: Stamp) -> bool
    ensures { result ≡ same_stamp a b }
{
    a == b
}

// The stamp of the initial value.
pub fn zero_stamp() -> Stamp
    ensures { result ≡ zero_stamp }
{
    Stamp {
        time: 0,
        writer: 0,
        sequence: 0,
    }
}

// Whether the three parts are all zero, or none is.
pub fn parts_agree(s: Stamp) -> bool
    ensures { result ≡ parts_agree s.time s.writer s.sequence }
{
    if s.time == 0 {
        s.writer == 0 && s.sequence == 0
    } else {
        s.writer != 0 && s.sequence != 0
    }
}
