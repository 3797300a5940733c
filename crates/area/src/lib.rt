// Bytes in lent areas: stored, compared, and read and written as big-endian numbers. All other crates build on these functions.
#![tactic(auto)]

ghost use Rattle.std.specs.Prelude.{◌≡◌, ◌+◌, ◌≤◌, ◌<◌, length, replicate, get_or};
ghost use Rattle.std.proofs.lemmas.List.Edits.{sets};
ghost use Rattle.area.specs.Area.{part, same};
ghost use Rattle.area.specs.Numbers.{be2, be4, be8, bytes2, bytes4, bytes8};

// Copies src into area from index at on.
pub fn put(area: &mut [u8], at: usize, src: &[u8])
    requires { at + length src.now ≤ length area.old }
    ensures { area.new ≡ sets area.old at src.now }
{
    // One by one, so that its edit can turn an operand.
    for j in 0..src.len() {
        area[at + j] = src[j];
    }
}

// Stores the byte b in the n places of area from index at on.
pub fn fill(area: &mut [u8], at: usize, n: usize, b: u8)
    requires { at + n ≤ length area.old }
    ensures { area.new ≡ sets area.old at (replicate n b) }
{
    area[at..at + n].fill(b);
}

// Whether a and b hold the same bytes.
pub fn equal(a: &[u8], b: &[u8]) -> bool
    ensures { result ≡ same a.now b.now }
{
    a == b
}

// Whether area has the bytes of d from index at on.
pub fn equal_at(area: &[u8], at: usize, d: &[u8]) -> bool
    requires { at + length d.now ≤ length area.now }
    ensures { result ≡ same (part area.now at (length d.now)) d.now }
{
    equal(&area[at..at + d.len()], d)
}

// The number in the 2 bytes from index i on.
pub fn read2(s: &[u8], i: usize) -> u16
    requires { i + 2 ≤ length s.now }
    ensures { result ≡ be2 s.now i }
{
    u16::from_be_bytes([s[i], s[i + 1]])
}

// The number in the 4 bytes from index i on.
pub fn read4(s: &[u8], i: usize) -> u32
    requires { i + 4 ≤ length s.now }
    ensures { result ≡ be4 s.now i }
{
    u32::from_be_bytes([s[i], s[i + 1], s[i + 2], s[i + 3]])
}

// The number in the 8 bytes from index i on.
pub fn read8(s: &[u8], i: usize) -> u64
    requires { i + 8 ≤ length s.now }
    ensures { result ≡ be8 s.now i }
{
    u64::from_be_bytes([
        s[i],
        s[i + 1],
        s[i + 2],
        s[i + 3],
        s[i + 4],
        s[i + 5],
        s[i + 6],
        s[i + 7],
    ])
}

// Writes x into the 2 bytes from index at on.
pub fn write2(area: &mut [u8], at: usize, x: u16)
    requires { at + 2 ≤ length area.old }
    ensures { area.new ≡ sets area.old at (bytes2 x) }
{
    put(area, at, &x.to_be_bytes());
}

// Writes x into the 4 bytes from index at on.
pub fn write4(area: &mut [u8], at: usize, x: u32)
    requires { at + 4 ≤ length area.old }
    ensures { area.new ≡ sets area.old at (bytes4 x) }
{
    put(area, at, &x.to_be_bytes());
}

// Writes x into the 8 bytes from index at on.
pub fn write8(area: &mut [u8], at: usize, x: u64)
    requires { at + 8 ≤ length area.old }
    ensures { area.new ≡ sets area.old at (bytes8 x) }
{
    put(area, at, &x.to_be_bytes());
}
