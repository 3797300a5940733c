// What a whole line of the script asks for, by what is kept of its fields.
use crate::line::{Mark, Word};
use blocks::Params;
use frame::Party;

// The server or client with this number gets a frame from this sender, or begins a read or a write. The line's last field spells the frame or the value.
#[derive(Clone, Copy)]
pub enum Ask {
    ToServer(usize, Party),
    ToClient(usize, Party),
    Read(usize),
    Write(usize),
}

// `hall N T K L INITIAL`: the parameters.
pub fn opening(fields: &[Mark]) -> Option<Params> {
    match fields {
        [word, n, t, k, size, initial] if word.word == Some(Word::Hall) && initial.bytes => {
            Some(Params {
                n: n.number?,
                t: t.number?,
                k: k.number?,
                size: size.number?,
            })
        }
        _ => None,
    }
}

// A number as a byte; 255, which no party has, for a larger one.
pub fn byte_of(j: usize) -> u8 {
    u8::try_from(j).unwrap_or(255)
}

// A sender's class and number.
fn sender(class: Mark, number: Mark) -> Option<Party> {
    let number = byte_of(number.number?);
    match class.word? {
        Word::FromClient => Some(Party::Client(number)),
        Word::FromServer => Some(Party::Server(number)),
        _ => None,
    }
}

// `S J c I HEX`, `S J s I HEX`, `C J s I HEX`, `C J c I HEX`, `C J read` and `C J write HEX`.
pub fn asked(fields: &[Mark]) -> Option<Ask> {
    let [word, j, rest @ ..] = fields else {
        return None;
    };
    let j = j.number?;
    match (word.word?, rest) {
        (Word::Server, [class, i, frame]) if frame.bytes => {
            Some(Ask::ToServer(j, sender(*class, *i)?))
        }
        (Word::Client, [class, i, frame]) if frame.bytes => {
            Some(Ask::ToClient(j, sender(*class, *i)?))
        }
        (Word::Client, [act]) if act.word == Some(Word::Read) => Some(Ask::Read(j)),
        (Word::Client, [act, value]) if act.word == Some(Word::Write) && value.bytes => {
            Some(Ask::Write(j))
        }
        _ => None,
    }
}
