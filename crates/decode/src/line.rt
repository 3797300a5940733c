// A line of the input, read byte by byte, so that it may be of any length: `decode N T K L ROOM NUMBERS BLOCKS`, with one space between fields.
use blocks::Params;
use case_text::fields::Field;
use case_text::kept::Kept;

// How many bytes of NUMBERS and of BLOCKS are kept, as in specs/Kept.antt: one more than any decoding can use, which takes at most ten blocks of 256 bytes. So
// a longer field is refused for its length, as it would be if all of it were kept.
const NUMBERS_KEPT: usize = 11;

const BYTES_KEPT: usize = 2561;

// The places of the last two fields. The word `decode` has place 0; N, T, K, L and ROOM follow it.
const NUMBERS: usize = 6;

const BLOCKS: usize = 7;

// The place of the field being read; the numbers before it, or none once a field has not the form that its place asks for; that field; and what is kept of
// NUMBERS and of BLOCKS.
#[derive(Clone, Copy)]
pub struct Line {
    place: usize,
    values: Option<[usize; NUMBERS]>,
    field: Field,
    numbers: Kept<NUMBERS_KEPT>,
    blocks: Kept<BYTES_KEPT>,
}

// What a whole line asks for: the parameters, how many bytes the value may take, the blocks' numbers and the blocks.
#[derive(Clone, Copy)]
pub struct Ask<'a> {
    pub params: Params,
    pub room: usize,
    pub numbers: &'a [u8],
    pub blocks: &'a [u8],
}

impl Line {
    pub fn new() -> Line {
        Line {
            place: 0,
            values: Some([0; NUMBERS]),
            field: Field::new(),
            numbers: Kept::new(),
            blocks: Kept::new(),
        }
    }

    // The numbers with that of the field being read, which ends; none if a field has not its form.
    fn ended(&self) -> Option<[usize; NUMBERS]> {
        let mut values = self.values?;
        match self.place {
            0 if self.field.word() == b"decode".as_slice() => Some(values),
            NUMBERS | BLOCKS if self.field.is_bytes() => Some(values),
            place @ 1..NUMBERS => {
                values[place] = self.field.capped()?;
                Some(values)
            }
            _ => None,
        }
    }

    // Begins a new line. (`new` writes all that may be kept, which takes longer than an empty line does.)
    pub fn clear(&mut self) {
        self.place = 0;
        self.values = Some([0; NUMBERS]);
        self.field = Field::new();
        self.numbers.clear();
        self.blocks.clear();
    }

    // Adds a byte, which is not a newline; the bytes that NUMBERS and BLOCKS spell are kept while there is room.
    fn add_byte(&mut self, b: u8) {
        if b == b' ' {
            self.values = self.ended();
            self.place = self.place.saturating_add(1);
            self.field = Field::new();
            return;
        }
        let Some(byte) = self.field.add(b) else {
            return;
        };
        match self.place {
            NUMBERS => self.numbers.push(byte),
            BLOCKS => self.blocks.push(byte),
            _ => (),
        }
    }

    // Adds a part.
    pub fn add(&mut self, part: &[u8]) {
        for b in part {
            self.add_byte(*b);
        }
    }

    // What the line asks for, if it ends here and has all its fields, each in its form.
    pub fn ask(&self) -> Option<Ask<'_>> {
        if self.place != BLOCKS {
            return None;
        }
        let [_, n, t, k, size, room] = self.ended()?;
        Some(Ask {
            params: Params { n, t, k, size },
            room,
            numbers: self.numbers.as_slice(),
            blocks: self.blocks.as_slice(),
        })
    }
}
