// A line of the input, read byte by byte: a word, and for two of the words one argument after a space.
use case_text::fields::Field;
use case_text::kept::Kept;

// Its word; how many spaces it has, 2 meaning more than 1; the argument, and the first eight bytes that it spells.
#[derive(Clone, Copy)]
pub struct Line {
    word: Field,
    pub spaces: u64,
    pub argument: Field,
    bytes: Kept<8>,
}

impl Line {
    pub fn new() -> Line {
        Line {
            word: Field::new(),
            spaces: 0,
            argument: Field::new(),
            bytes: Kept::new(),
        }
    }

    // Adds a byte, which is not a newline.
    fn add_byte(&mut self, b: u8) {
        if b == b' ' {
            if self.spaces < 2 {
                self.spaces += 1;
            }
        } else if self.spaces == 0 {
            self.word.add(b);
        } else if let Some(byte) = self.argument.add(b) {
            self.bytes.push(byte);
        }
    }

    // Adds a part.
    pub fn add(&mut self, part: &[u8]) {
        for b in part {
            self.add_byte(*b);
        }
    }

    pub fn word(&self) -> &[u8] {
        self.word.word()
    }

    // What its argument spells, up to eight bytes.
    pub fn bytes(&self) -> &[u8] {
        self.bytes.as_slice()
    }
}
