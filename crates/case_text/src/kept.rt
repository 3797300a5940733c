// The first bytes of something that may have any length.
ghost use Rattle.std.specs.Prelude.{◌≡◌, ◌≤◌, ◌++◌, ◌∷◌, [], take};

// At most N bytes, of which the first `used` are kept; the others say nothing. (`ArrayVec` is not `Copy`, and what holds it is not either.)
#[derive(Clone, Copy)]
pub struct Kept<const N: usize> {
    bytes: [u8; N],
    used: usize,
    ghost fits: { used ≤ N },
}

impl<const N: usize> Kept<N> {
    // No bytes.
    pub fn new() -> Kept<N>
        ensures { take result.used result.bytes ≡ [] }
    {
        Kept {
            bytes: [0; N],
            used: 0,
        }
    }

    // Adds a byte, if it still fits.
    pub fn push(&mut self, b: u8)
        ensures { take self.new.used self.new.bytes ≡ take N (take self.old.used self.old.bytes ++ b ∷ []) }
    {
        if self.used < N {
            self.bytes[self.used] = b;
            self.used += 1;
        }
    }

    // Keeps none.
    pub fn clear(&mut self)
        ensures { take self.new.used self.new.bytes ≡ [] }
    {
        self.used = 0;
    }

    // The bytes that are kept.
    pub fn as_slice(&self) -> &[u8]
        ensures { result.now ≡ take self.now.used self.now.bytes }
    {
        &self.bytes[..self.used]
    }
}
