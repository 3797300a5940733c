// A line of the script, read byte by byte: up to six fields with one space between, and the bytes that its last field spells.
ghost use Rattle.std.specs.Prelude.{◌≤◌};

use case_text::fields::Field;
use case_text::kept::Kept;

// One more than the most fields that a line has: a line with that many has too many.
const FIELDS: usize = 7;

// A frame has at most 65537 bytes, by its length field. A field that spells more fills the last place too; no frame and no value is that long.
const BYTES: usize = 65538;

// The words of the script.
#[derive(Clone, Copy, Debug, PartialEq, Eq)]
pub enum Word {
    Hall,
    Server,
    Client,
    FromClient,
    FromServer,
    Read,
    Write,
}

impl Word {
    fn spelt(text: &[u8]) -> Option<Word> {
        match text {
            b"hall" => Some(Word::Hall),
            b"S" => Some(Word::Server),
            b"C" => Some(Word::Client),
            b"c" => Some(Word::FromClient),
            b"s" => Some(Word::FromServer),
            b"read" => Some(Word::Read),
            b"write" => Some(Word::Write),
            _ => None,
        }
    }
}

// What is kept of a field: which word it is; its value as a decimal number, 1000 meaning 1000 or more; whether it spells bytes.
#[derive(Clone, Copy, Debug, Default)]
pub struct Mark {
    pub word: Option<Word>,
    pub number: Option<usize>,
    pub bytes: bool,
}

// What is kept of the fields that have ended, and how many that are; the field being read; and the bytes that the last of them all spells so far.
#[derive(Clone, Copy)]
pub struct Line {
    marks: [Mark; FIELDS],
    ended: usize,
    field: Field,
    bytes: Kept<BYTES>,
    ghost fits: { ended ≤ 7 },
}

impl Line {
    pub fn new() -> Line {
        Line {
            marks: [Mark::default(); FIELDS],
            ended: 0,
            field: Field::new(),
            bytes: Kept::new(),
        }
    }

    // Ends the field that is being read.
    fn end_field(&mut self) {
        let mark = Mark {
            word: Word::spelt(self.field.word()),
            number: self.field.capped(),
            bytes: self.field.is_bytes(),
        };
        if self.ended < FIELDS {
            self.marks[self.ended] = mark;
            self.ended += 1;
        }
        self.field = Field::new();
    }

    // Adds a byte, which is not a newline.
    fn add_byte(&mut self, b: u8) {
        if b == b' ' {
            self.end_field();
            self.bytes.clear();
        } else if let Some(byte) = self.field.add(b) {
            self.bytes.push(byte);
        }
    }

    // Adds a part, with which the line may end.
    pub fn add(&mut self, part: &[u8], ends: bool) {
        for b in part {
            self.add_byte(*b);
        }
        if ends {
            self.end_field();
        }
    }

    // What is kept of its fields, once it has ended.
    pub fn fields(&self) -> &[Mark] {
        &self.marks[..self.ended]
    }

    // What its last field spells.
    pub fn bytes(&self) -> &[u8] {
        self.bytes.as_slice()
    }

    // Begins a new line.
    pub fn clear(&mut self) {
        self.ended = 0;
        self.bytes.clear();
    }
}
