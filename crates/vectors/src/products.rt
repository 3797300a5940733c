// Products and inverses in the byte field.
use case_text::report::result_bytes;
use case_text::text::{Words, put_digits};
use std::io;
use std::io::Write;

// The first byte that the next word spells, or 0.
fn byte(words: &mut Words) -> u8 {
    words.bytes::<1>().first().copied().unwrap_or(0)
}

// product A B PRODUCT
pub fn product<W: Write>(out: &mut W, mut words: Words) -> io::Result<()> {
    let x = byte(&mut words);
    let y = byte(&mut words);
    let product = field::product(x, y);
    let mut text = [0u8; 2];
    put_digits(&mut text, 0, product);
    result_bytes(out, b"product ", words.rest, &text)
}

// inverse A INVERSE
pub fn inverse<W: Write>(out: &mut W, mut words: Words) -> io::Result<()> {
    let x = byte(&mut words);
    let inverse = field::inverse(x);
    let mut text = [0u8; 2];
    put_digits(&mut text, 0, inverse);
    result_bytes(out, b"inverse ", words.rest, &text)
}
