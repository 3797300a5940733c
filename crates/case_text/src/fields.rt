// A field of a line, read byte by byte, so that it may be of any length.
ghost use Rattle.std.specs.Prelude.{◌≡◌, ◌≤◌, min, option_map, IfSome};

use crate::kept::Kept;
use crate::text::digit;

// How many bytes of a field are kept: one more than any word has.
const KEPT: usize = 9;

// The bytes that pairs of digits spell: every digit has its pair; the first one of a pair waits, as the upper half of a byte; or some byte was no digit.
#[derive(Clone, Copy, Debug, PartialEq, Eq)]
enum Pairs {
    Whole,
    Half(u8),
    Broken,
}

// The least number whose ten-fold does not fit into 64 bits.
const TENTH: u64 = 1844674407370955162;

// Its first bytes; its value, if it is a decimal number without leading zeros, where the largest u128 stands for a larger one too; 64 bits worked out from
// its digits, which wrap; and what it spells. Where these bits are 0, a further digit counts as one behind a leading zero: behind 0 itself, and behind
// some numbers of 2^64 and above, which the programs have never read.
#[derive(Clone, Copy)]
pub struct Field {
    front: Kept<KEPT>,
    pub number: Option<u128>,
    low: u64,
    pairs: Pairs,
}

impl Field {
    pub fn new() -> Field {
        Field {
            front: Kept::new(),
            number: None,
            low: 0,
            pairs: Pairs::Whole,
        }
    }

    // The number with one more digit.
    fn number_with(&self, d: u8) -> Option<u128> {
        if 9 < d {
            return None;
        }
        if self.word().is_empty() {
            return Some(u128::from(d));
        }
        let n = self.number.filter(|_| self.low != 0)?;
        Some(n.saturating_mul(10).saturating_add(u128::from(d)))
    }

    // Adds a byte, and answers the byte that it spells with the digit before it, if it ends a pair.
    pub fn add(&mut self, b: u8) -> Option<u8> {
        let d = digit(b);
        self.number = d.and_then(|d| self.number_with(d));
        if self.number.is_some() {
            self.low = (self.low % TENTH * 10).wrapping_add(u64::from(d.unwrap_or(0)));
        }
        self.front.push(b);
        let (pairs, byte) = match (self.pairs, d) {
            (Pairs::Whole, Some(high)) => (Pairs::Half(high * 16), None),
            (Pairs::Half(high), Some(low)) => (Pairs::Whole, Some(high | low)),
            _ => (Pairs::Broken, None),
        };
        self.pairs = pairs;
        byte
    }

    // Its first bytes: all of them, if it is a word.
    pub fn word(&self) -> &[u8] {
        self.front.as_slice()
    }

    // Its value as a decimal number, or 1000 if it is larger: more than any number of parties or length of a value may be.
    pub fn capped(&self) -> Option<usize>
        ensures most { IfSome result (λ n. n ≤ 1000) }
        ensures value { result ≡ option_map (λ n. min n 1000) self.now.number }
    {
        self.number.map(|n| n.min(1000) as usize)
    }

    // Whether it spells bytes: two digits each, or `-` for none.
    pub fn is_bytes(&self) -> bool {
        match self.word() {
            b"" => false,
            b"-" => true,
            _ => self.pairs == Pairs::Whole,
        }
    }
}
