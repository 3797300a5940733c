// How many bytes of a slice are used.
ghost use Rattle.std.specs.Prelude.{◌≡◌, length, min};
ghost use Rattle.std.specs.Counts.{IsPrefixLen};

// The size, or the length of the slice if that is smaller.
pub fn count_of(size: usize, bytes: &[u8]) -> usize
    ensures within { IsPrefixLen result bytes.now }
    ensures value { result ≡ min size (length bytes.now) }
{
    size.min(bytes.len())
}
