// Frames: the refusal's number (document 01) if one does not open, or 00 and then its kind, client and sequence.
use crate::coding::params;
use case_text::report::result_bytes;
use case_text::text::{Words, put_bytes};
use frame::Header;
use frame::refusals::number_of;
use std::io;
use std::io::Write;

fn header_bytes(h: Header) -> [u8; 7] {
    let [a, b, c, d] = h.sequence.to_be_bytes();
    [0, h.kind, h.client, a, b, c, d]
}

// open N T K L FRAME ANSWER
pub fn opening<W: Write>(out: &mut W, mut words: Words) -> io::Result<()> {
    let params = params(&mut words);
    let bytes = words.bytes::<1024>();
    let mut text = [0u8; 14];
    let end = match frame::opener::opened_under(params, bytes.as_slice()) {
        Ok(header) => put_bytes(&mut text, 0, &header_bytes(header)),
        Err(refusal) => put_bytes(&mut text, 0, &[number_of(refusal)]),
    };
    result_bytes(out, b"open ", words.rest, &text[..end])
}
