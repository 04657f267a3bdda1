ghost use Rattle.std.specs.Prelude.{◌<◌};

use pg_disk::{Failed, Source};
use pg_lines::{LineReader, ReadError};
use std::alloc::{AllocError, Global};
use std::test::Fail;

/// A text that is read in pieces, behind which the device may fail.
#[derive(Drop)]
struct Pieces<'a> {
    text: &'a [u8],
    /// How many bytes a read gives at most.
    most: usize,
    fails: bool,
    faults: u64,
    ghost gives: { 0 < most },
}

impl Source for Pieces<'_> {
    ghost use Rattle.std.specs.Prelude.{Some};

    ghost rest = { λ pieces. Some pieces.text.now };

    ghost faults = { λ pieces. pieces.faults };

    fn read(&mut self, buf: &mut [u8]) -> Result<usize, Failed> {
        if self.fails && self.text.is_empty() {
            self.faults = self.faults.saturating_add(1);
            return Err(Failed);
        }
        let count = self.most.min(buf.len()).min(self.text.len());
        let (piece, rest) = self.text.split_at(count);
        buf[..count].copy_from_slice(piece);
        self.text = rest;
        Ok(count)
    }
}

/// The line that is wanted, and what the call answers.
type Wanted<'a> = (&'a [u8], Result<bool, ReadError>);

// A text, the limit, whether the device fails behind the text, and the lines that are wanted.
type Case = (&'static [u8], u64, bool, &'static [Wanted<'static>]);

const CASES: [Case; 4] = [
    (
        b"ab\n\ncd",
        100,
        false,
        &[
            (b"ab", Ok(true)),
            (b"", Ok(true)),
            (b"cd", Ok(false)),
            (b"", Ok(false)),
        ],
    ),
    (
        b"ab\ncd",
        3,
        false,
        &[(b"ab", Ok(true)), (b"", Err(ReadError::TooLong))],
    ),
    (b"ab\n", 3, false, &[(b"ab", Ok(true)), (b"", Ok(false))]),
    (
        b"ab\ncd",
        100,
        true,
        &[(b"ab", Ok(true)), (b"", Err(ReadError::Failed))],
    ),
];

// Whether the lines of the source are these, up to the limit. After an error the line is open.
fn gives(
    alloc: Global,
    source: &mut Pieces<'_>,
    limit: u64,
    wanted: &[Wanted<'_>],
) -> Result<bool, AllocError> {
    let mut reader = LineReader::new(alloc, limit)?;
    let mut line = Vec::new(alloc);
    for (bytes, answer) in wanted {
        let got = reader.next_line(source, &mut line);
        if got != *answer || got.is_ok() && line.as_slice() != *bytes {
            return Ok(false);
        }
    }
    Ok(true)
}

// The first text of which the lines are others than the table says, with at most so many bytes a read.
fn wrong_text(alloc: Global, most: usize) -> Result<Option<&'static [u8]>, AllocError>
    requires { 0 < most }
{
    for (text, limit, fails, wanted) in CASES {
        let mut source = Pieces {
            text,
            most,
            fails,
            faults: 0,
        };
        if !gives(alloc, &mut source, limit, wanted)? {
            return Ok(Some(text));
        }
    }
    Ok(None)
}

#[test]
fn gives_each_line(rt: HostRuntime) -> Result<(), Fail> {
    assert!(rt;
        wrong_text(rt.alloc(), 1)?.is_none() && wrong_text(rt.alloc(), usize::MAX)?.is_none()
    );
    Ok(())
}

// Whether so much is kept of a line that is too long, and the line behind it is whole.
fn keeps_the_front(alloc: Global) -> Result<bool, AllocError> {
    let mut text = vec![in alloc; b'a'; 1_048_600]?;
    let kept = vec![in alloc; b'a'; 1_048_577]?;
    text.extend_from_slice(b"\nb")?;
    let mut source = Pieces {
        text: &text,
        most: usize::MAX,
        fails: false,
        faults: 0,
    };
    let wanted: &[Wanted<'_>] = &[(&kept, Ok(true)), (b"b", Ok(false))];
    gives(alloc, &mut source, 2_000_000, wanted)
}

#[test]
fn keeps_so_much_of_a_long_line(rt: HostRuntime) -> Result<(), Fail> {
    assert!(rt; keeps_the_front(rt.alloc())?);
    Ok(())
}
