// Words, numbers and bytes as text.
ghost use Rattle.std.specs.Prelude.{◌≡◌, ◌==◌, ◌+◌, ◌*◌, ◌<◌, ◌≤◌, length, take, drop, position, IfSome};
ghost use Rattle.std.specs.Counts.{IsPrefixLen};
ghost use Rattle.case_text.specs.Words.{word_length};

use arrayvec::ArrayVec;
use std::{fmt, str};

// What is left of a line. Words are taken from its front, each with the space after it; at the line's end they are empty.
#[derive(Clone, Copy, Debug)]
pub struct Words<'a> {
    pub rest: &'a [u8],
}

// All but the first byte.
fn without_first(s: &[u8]) -> &[u8]
    ensures { result.now ≡ drop 1 s.now }
{
    match s {
        [] => s,
        [_, rest @ ..] => rest,
    }
}

// The index of the first space.
fn first_space(line: &[u8]) -> Option<usize>
    ensures value { result ≡ position (λ b. b == 0x20) line.now }
    ensures within { IfSome result (λ i. i < length line.now) }
{
    line.iter().position(|b| *b == b' ')
}

impl<'a> Words<'a> {
    pub fn new(line: &'a [u8]) -> Words<'a>
        ensures { result.rest.now ≡ line.now }
    {
        Words { rest: line }
    }

    // The next word.
    #[tactic(auto, unfolding(crate::specs::Words::word_length))]
    pub fn word(&mut self) -> &'a [u8]
        ensures word { result.now ≡ take (word_length self.old.rest.now) self.old.rest.now }
        ensures rest { self.new.rest.now ≡ drop (word_length self.old.rest.now + 1) self.old.rest.now }
    {
        let end = first_space(self.rest).unwrap_or(self.rest.len());
        let (word, after) = self.rest.split_at(end);
        self.rest = without_first(after);
        word
    }

    // The next word as a number.
    pub fn number(&mut self) -> usize
        ensures { result < 100000 }
    {
        number(self.word())
    }

    // The bytes that the next word spells.
    pub fn bytes<const N: usize>(&mut self) -> ArrayVec<u8, N> {
        bytes(self.word())
    }
}

// The value of a hexadecimal digit.
pub fn digit(b: u8) -> Option<u8>
    ensures { IfSome result (λ d. d < 16) }
{
    match b {
        b'0'..=b'9' => Some(b - b'0'),
        b'a'..=b'f' => Some(b - b'a' + 10),
        _ => None,
    }
}

// The decimal number that a word spells, modulo 100000; another byte than a digit counts as 16.
pub fn number(word: &[u8]) -> usize
    ensures { result < 100000 }
{
    let mut x: usize = 0;
    for b in word {
        x = (x * 10 + usize::from(digit(*b).unwrap_or(16))) % 100000;
    }
    x
}

// The byte that two digits spell.
fn byte_of(high: u8, low: u8) -> Option<u8> {
    Some(digit(high)? * 16 + digit(low)?)
}

// The bytes that a word's digits spell: as many as fit, up to the first that is no digit.
pub fn bytes<const N: usize>(word: &[u8]) -> ArrayVec<u8, N> {
    let mut bytes = ArrayVec::new();
    for pair in word.chunks_exact(2) {
        let Some(byte) = byte_of(pair[0], pair[1]) else {
            break;
        };
        if bytes.try_push(byte).is_err() {
            break;
        }
    }
    bytes
}

// The hexadecimal digit of a value below 16.
fn letter(x: u8) -> u8
    requires { x < 16 }
{
    if x < 10 { b'0' + x } else { b'a' + (x - 10) }
}

// Writes the two digits of a byte.
pub fn put_digits(text: &mut [u8], at: usize, b: u8)
    requires { at + 2 ≤ length text.old }
{
    text[at] = letter(b / 16);
    text[at + 1] = letter(b % 16);
}

// Writes bytes as digits into text from index at on, and answers where they end.
pub fn put_bytes(text: &mut [u8], at: usize, bytes: &[u8]) -> usize
    requires { at + length bytes.now * 2 ≤ length text.old }
    ensures { IsPrefixLen result text.new }
{
    for (i, b) in bytes.iter().enumerate() {
        put_digits(text, at + i * 2, *b);
    }
    at + bytes.len() * 2
}

// Bytes, printed as two hexadecimal digits each.
#[derive(Clone, Copy, Debug)]
pub struct Hex<'a>(pub &'a [u8]);

// How many bytes are printed at once.
const AT_ONCE: usize = 64;

impl fmt::Display for Hex<'_> {
    fn fmt<W: fmt::Write>(&self, f: &mut fmt::Formatter<W>) -> fmt::Result {
        let mut digits = [0u8; 2 * AT_ONCE];
        for part in self.0.chunks(AT_ONCE) {
            let used = put_bytes(&mut digits, 0, part);
            let Ok(text) = str::from_utf8(&digits[..used]) else {
                return Err(fmt::Error);
            };
            f.write_str(text)?;
        }
        Ok(())
    }
}
