// What is printed for a case.
use std::fmt::Display;
use std::io;
use std::io::Write;

// The line as it is.
pub fn echo<W: Write>(out: &mut W, line: &[u8]) -> io::Result<()> {
    out.write_all(line)?;
    out.write_all(b"\n")
}

// A writer that compares what is written with what is expected: what of this is still to come, or none once it differs.
#[derive(Drop)]
struct Compared<'a, 'b, W> {
    out: &'a mut W,
    expected: Option<&'b [u8]>,
}

impl<W: Write> Write for Compared<'_, '_, W> {
    fn write(&mut self, buf: &[u8]) -> io::Result<usize> {
        let n = self.out.write(buf)?;
        self.expected = self.expected.and_then(|text| text.strip_prefix(&buf[..n]));
        Ok(n)
    }

    fn flush(&mut self) -> io::Result<()> {
        self.out.flush()
    }
}

// The kind of a case and its result, with `ok` if it is what is expected.
pub fn result<W: Write>(
    out: &mut W,
    kind: &str,
    expected: &[u8],
    outcome: &impl Display,
) -> io::Result<()> {
    write!(out, "{kind} ")?;
    let mut compared = Compared {
        out,
        expected: Some(expected),
    };
    write!(compared, "{outcome}")?;
    let Compared { out, expected } = compared;
    match expected {
        Some(b"") => out.write_all(b" ok\n"),
        _ => out.write_all(b" differs\n"),
    }
}

// The same of a result that is put together before it is written, of any bytes, its kind with the space behind. `vectors` and `party_cases` print theirs so:
// part by part, and each byte by itself, it took some forty times as long on the lines of `vectors`.
pub fn result_bytes<W: Write>(
    out: &mut W,
    kind: &[u8],
    expected: &[u8],
    text: &[u8],
) -> io::Result<()> {
    out.write_all(kind)?;
    out.write_all(text)?;
    if expected == text {
        return out.write_all(b" ok\n");
    }
    out.write_all(b" differs\n")
}
