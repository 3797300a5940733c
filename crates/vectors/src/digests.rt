// SHA-256.
use case_text::report::{echo, result_bytes};
use case_text::text::{Words, put_bytes};
use std::io;
use std::io::Write;

// digest MESSAGE DIGEST
pub fn digest<W: Write>(out: &mut W, mut words: Words) -> io::Result<()> {
    let message = words.bytes::<1024>();
    if 256 < message.len() {
        return echo(out, b"digest of a message that is too long");
    }
    let digest = sha256::digest(message.as_slice());
    let mut text = [0u8; 64];
    let end = put_bytes(&mut text, 0, &digest);
    result_bytes(out, b"digest ", words.rest, &text[..end])
}
