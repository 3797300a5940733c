// What no clause says: the text that is printed for a case, and that a write that fails is told.
use crate::report::result;
use crate::text::Hex;
use arrayvec::ArrayVec;
use std::io;
use std::io::Write;
use std::test::Fail;

// A result that comes in parts is `ok` only if all of it is what is expected.
#[test]
fn results_are_compared(rt: HostRuntime) -> Result<(), Fail> {
    for (expected, want) in [
        ("00 0aff", "open 00 0aff ok\n"),
        ("00 0afe", "open 00 0aff differs\n"),
        ("00 0af", "open 00 0aff differs\n"),
        ("00 0aff ", "open 00 0aff differs\n"),
        ("", "open 00 0aff differs\n"),
    ] {
        let mut out = ArrayVec::<u8, 32>::new();
        let outcome = format_args!("{} {}", Hex(&[0]), Hex(&[10, 255]));
        result(&mut out, "open", expected.as_bytes(), &outcome)?;
        assert_eq!(rt; out.as_slice(), want.as_bytes(), "for {expected:?}");
    }
    Ok(())
}

// A long result is compared to its last byte. Before it stand 5 bytes, and behind it at most 9.
#[test]
fn results_have_any_length(rt: HostRuntime) -> Result<(), Fail> {
    for (last, want) in [(b'7', " ok\n"), (b'8', " differs\n")] {
        let mut text = [b' '; 9000];
        text[8999] = b'7';
        let mut expected = text;
        expected[8999] = last;
        let mut out = ArrayVec::<u8, 9014>::new();
        result(&mut out, "room", &expected, &format_args!("{:>9000}", 7))?;
        assert!(rt; 9005 <= out.len());
        let (front, rest) = out.as_slice().split_at(5);
        let (middle, end) = rest.split_at(9000);
        assert_eq!(rt; front, b"room ".as_slice());
        assert_eq!(rt; middle, text.as_slice());
        assert_eq!(rt; end, want.as_bytes());
    }
    Ok(())
}

// A writer that takes what it is given, but for one write, which fails.
#[derive(Drop)]
struct FailsOnce {
    writes: usize,
    failing: usize,
}

impl Write for FailsOnce {
    fn write(&mut self, buf: &[u8]) -> io::Result<usize> {
        let now = self.writes;
        self.writes = now.saturating_add(1);
        if now == self.failing {
            return Err(io::ErrorKind::Other.into());
        }
        Ok(buf.len())
    }

    fn flush(&mut self) -> io::Result<()> {
        Ok(())
    }
}

// A write that fails is an error, whichever it is, though the writes after it go well.
#[test]
fn failures_are_told(rt: HostRuntime) {
    let outcome = Hex(&[10, 255]);
    for expected in [b"0aff".as_slice(), b"0afe".as_slice()] {
        let mut whole = FailsOnce {
            writes: 0,
            failing: usize::MAX,
        };
        assert!(rt; result(&mut whole, "open", expected, &outcome).is_ok());
        assert!(rt; 3 <= whole.writes);
        for failing in 0..whole.writes {
            let mut out = FailsOnce { writes: 0, failing };
            assert!(rt;
                result(&mut out, "open", expected, &outcome).is_err(),
                "write {failing}"
            );
        }
    }
}
