// SHA-256 (FIPS 180-4) of messages of at most 256 bytes.
#![tactic(auto)]

ghost use Rattle.std.specs.Prelude.{◌≡◌, ◌+◌, ◌*◌, ◌<◌, ◌≤◌, length};
ghost use Rattle.std.proofs.lemmas.List.Edits.{sets};
ghost use Rattle.sha256.specs.Words.{ch, maj, big_sigma0, big_sigma1, sigma0, sigma1};
ghost use Rattle.sha256.specs.Constants.{constants, initial_hash};
ghost use Rattle.sha256.specs.Hash.{schedule as scheduleOf, t1, t2, round as roundOf, rounds as roundsOf};
ghost use Rattle.sha256.specs.Hash.{added, compressed, hashed, concatenated, digest_of};
ghost use Rattle.sha256.specs.Steps.{zeros, laid, four, word_from, stored, stored_from, four_words};

// The hash value between blocks, and the working variables within one.
#[derive(Clone, Copy)]
pub struct State {
    pub a: u32,
    pub b: u32,
    pub c: u32,
    pub d: u32,
    pub e: u32,
    pub f: u32,
    pub g: u32,
    pub h: u32,
}

// The constants of section 4.2.2.
static K: [u32; 64] = [
    0x428a2f98, 0x71374491, 0xb5c0fbcf, 0xe9b5dba5, 0x3956c25b, 0x59f111f1, 0x923f82a4, 0xab1c5ed5,
    0xd807aa98, 0x12835b01, 0x243185be, 0x550c7dc3, 0x72be5d74, 0x80deb1fe, 0x9bdc06a7, 0xc19bf174,
    0xe49b69c1, 0xefbe4786, 0x0fc19dc6, 0x240ca1cc, 0x2de92c6f, 0x4a7484aa, 0x5cb0a9dc, 0x76f988da,
    0x983e5152, 0xa831c66d, 0xb00327c8, 0xbf597fc7, 0xc6e00bf3, 0xd5a79147, 0x06ca6351, 0x14292967,
    0x27b70a85, 0x2e1b2138, 0x4d2c6dfc, 0x53380d13, 0x650a7354, 0x766a0abb, 0x81c2c92e, 0x92722c85,
    0xa2bfe8a1, 0xa81a664b, 0xc24b8b70, 0xc76c51a3, 0xd192e819, 0xd6990624, 0xf40e3585, 0x106aa070,
    0x19a4c116, 0x1e376c08, 0x2748774c, 0x34b0bcb5, 0x391c0cb3, 0x4ed8aa4a, 0x5b9cca4f, 0x682e6ff3,
    0x748f82ee, 0x78a5636f, 0x84c87814, 0x8cc70208, 0x90befffa, 0xa4506ceb, 0xbef9a3f7, 0xc67178f2,
];

fn choose(x: u32, y: u32, z: u32) -> u32
    ensures { result ≡ ch x y z }
{
    (x & y) ^ (!x & z)
}

fn majority(x: u32, y: u32, z: u32) -> u32
    ensures { result ≡ maj x y z }
{
    (x & y) ^ (x & z) ^ (y & z)
}

fn big_sigma0(x: u32) -> u32
    ensures { result ≡ big_sigma0 x }
{
    x.rotate_right(2) ^ x.rotate_right(13) ^ x.rotate_right(22)
}

fn big_sigma1(x: u32) -> u32
    ensures { result ≡ big_sigma1 x }
{
    x.rotate_right(6) ^ x.rotate_right(11) ^ x.rotate_right(25)
}

fn small_sigma0(x: u32) -> u32
    ensures { result ≡ sigma0 x }
{
    x.rotate_right(7) ^ x.rotate_right(18) ^ (x >> 3)
}

fn small_sigma1(x: u32) -> u32
    ensures { result ≡ sigma1 x }
{
    x.rotate_right(17) ^ x.rotate_right(19) ^ (x >> 10)
}

// A word of the schedule from those 2, 7, 15 and 16 before it.
fn next_word(x: u32, y: u32, z: u32, u: u32) -> u32
    ensures { result ≡ word_from x y z u }
{
    small_sigma1(x)
        .wrapping_add(y)
        .wrapping_add(small_sigma0(z))
        .wrapping_add(u)
}

// Stores word 16 + t of the schedule.
fn store_word(w: &mut [u32; 64], t: usize)
    requires { t < 48 }
    ensures { w.new ≡ stored w.old t }
{
    w[16 + t] = next_word(w[14 + t], w[9 + t], w[1 + t], w[t]);
}

// Stores the four words from 16 + t on.
fn store_four(w: &mut [u32; 64], t: usize)
    requires { t + 4 ≤ 48 }
    ensures { w.new ≡ stored_from 4 w.old t }
{
    store_word(w, t);
    store_word(w, t + 1);
    store_word(w, t + 2);
    store_word(w, t + 3);
}

// The message schedule of the block that starts at index at.
fn schedule(p: &[u8], at: usize) -> [u32; 64]
    requires { at + 64 ≤ length p.now }
    ensures { result ≡ scheduleOf p.now at }
{
    let mut w = [0u32; 64];
    for j in 0..16 {
        w[j] = area::read4(p, at + j * 4);
    }
    for q in 0..12 {
        store_four(&mut w, q * 4);
    }
    w
}

impl State {
    fn initial() -> State
        ensures { result ≡ initial_hash }
    {
        State {
            a: 0x6a09e667,
            b: 0xbb67ae85,
            c: 0x3c6ef372,
            d: 0xa54ff53a,
            e: 0x510e527f,
            f: 0x9b05688c,
            g: 0x1f83d9ab,
            h: 0x5be0cd19,
        }
    }

    fn first_sum(self, k: u32, w: u32) -> u32
        ensures { result ≡ t1 self k w }
    {
        self.h
            .wrapping_add(big_sigma1(self.e))
            .wrapping_add(choose(self.e, self.f, self.g))
            .wrapping_add(k)
            .wrapping_add(w)
    }

    fn second_sum(self) -> u32
        ensures { result ≡ t2 self }
    {
        big_sigma0(self.a).wrapping_add(majority(self.a, self.b, self.c))
    }

    fn round(self, k: u32, w: u32) -> State
        ensures { result ≡ roundOf self k w }
    {
        let x = self.first_sum(k, w);
        State {
            a: x.wrapping_add(self.second_sum()),
            b: self.a,
            c: self.b,
            d: self.c,
            e: self.d.wrapping_add(x),
            f: self.e,
            g: self.f,
            h: self.g,
        }
    }

    // Four rounds, from round t on.
    fn four_rounds(self, w: &[u32; 64], t: usize) -> State
        requires { t + 4 ≤ 64 }
        ensures { result ≡ four self w.now t }
    {
        let x1 = self.round(K[t], w[t]);
        let x2 = x1.round(K[t + 1], w[t + 1]);
        let x3 = x2.round(K[t + 2], w[t + 2]);
        x3.round(K[t + 3], w[t + 3])
    }

    fn rounds(self, w: &[u32; 64]) -> State
        ensures { result ≡ roundsOf 64 w.now self }
    {
        let mut x = self;
        for j in 0..16 {
            x = x.four_rounds(w, j * 4);
        }
        x
    }

    fn add(self, s: State) -> State
        ensures { result ≡ added self s }
    {
        State {
            a: self.a.wrapping_add(s.a),
            b: self.b.wrapping_add(s.b),
            c: self.c.wrapping_add(s.c),
            d: self.d.wrapping_add(s.d),
            e: self.e.wrapping_add(s.e),
            f: self.f.wrapping_add(s.f),
            g: self.g.wrapping_add(s.g),
            h: self.h.wrapping_add(s.h),
        }
    }

    // The hash value after the block that starts at index at.
    fn compress(self, p: &[u8], at: usize) -> State
        requires { at + 64 ≤ length p.now }
        ensures { result ≡ compressed self p.now at }
    {
        let w = schedule(p, at);
        self.rounds(&w).add(self)
    }

    // The eight words of a hash value, one after the other.
    fn concatenate(self) -> [u8; 32]
        ensures { result ≡ concatenated self }
    {
        let mut d = [0u8; 32];
        put_words(&mut d, 0, self.a, self.b, self.c, self.d);
        put_words(&mut d, 16, self.e, self.f, self.g, self.h);
        d
    }
}

// The hash value after the n blocks of p.
fn hash(p: &[u8], n: usize) -> State
    requires { n * 64 ≤ length p.now }
    ensures { result ≡ hashed n p.now }
{
    let mut s = State::initial();
    for i in 0..n {
        s = s.compress(p, i * 64);
    }
    s
}

// Stores the message and its padding in an area of zeros.
fn pad(message: &[u8], p: &mut [u8; 320])
    requires { (length message.now ≤ 256) × (p.old ≡ zeros) }
    ensures { p.new ≡ laid message.now }
{
    area::put(p, 0, message);
    let n = message.len();
    p[n] = 128;
    area::write8(p, (n + 72) / 64 * 64 - 8, (n * 8) as u64);
}

// Stores four words from index at on.
fn put_words(d: &mut [u8; 32], at: usize, x: u32, y: u32, z: u32, u: u32)
    requires { at + 16 ≤ 32 }
    ensures { d.new ≡ sets d.old at (four_words x y z u) }
{
    area::write4(d, at, x);
    area::write4(d, at + 4, y);
    area::write4(d, at + 8, z);
    area::write4(d, at + 12, u);
}

// The SHA-256 digest of a message of at most 256 bytes.
pub fn digest(message: &[u8]) -> [u8; 32]
    requires { length message.now ≤ 256 }
    ensures { result ≡ digest_of message.now }
{
    let mut p = [0u8; 320];
    pad(message, &mut p);
    let n = (message.len() + 72) / 64;
    let end = n * 64;
    hash(&p[..end], n).concatenate()
}
