// A source that gives one byte a read.
ghost use Rattle.std.specs.Prelude.{None};

use crate::stage::{run, run_over};
use pg_disk::{Failed, MemSite, Source};
use std::alloc::{AllocError, Global};
use std::test::Fail;

#[derive(Drop)]
struct ByteSource {
    bytes: &'static [u8],
    at: usize,
}

impl Source for ByteSource {
    ghost rest = { λ _. None };

    ghost faults = { λ _. 0 };

    fn read(&mut self, buf: &mut [u8]) -> Result<usize, Failed> {
        let byte = match self.bytes.get(self.at) {
            Some(byte) => *byte,
            None => return Ok(0),
        };
        if buf.is_empty() {
            return Ok(0);
        }
        self.at = self.at.saturating_add(1);
        buf[0] = byte;
        Ok(1)
    }
}

const SCRIPTS: [&[u8]; 4] = [
    b"",
    b"\n\nreceive\n",
    b"address A max 50 page 100 ahead 0 dup 0\nqueue Q on A\nsend A body  a b \xff\nsend A body \ncount Q\n",
    b"address A max 50 page 100 ahead 0 dup 0\nqueue Q on A\nsend A body no line end",
];

/// Whether the run reads the whole script, a byte at a time, and ends with 0.
fn run_bytewise(
    alloc: Global,
    site: &mut MemSite,
    script: &'static [u8],
) -> Result<bool, AllocError> {
    let mut source = ByteSource {
        bytes: script,
        at: 0,
    };
    let status = run_over(alloc, &mut source, site)?;
    Ok(status == 0 && source.at == script.len())
}

/// Whether the script is answered as at once.
fn is_answered_alike(alloc: Global, script: &'static [u8]) -> Result<bool, AllocError> {
    let mut whole = MemSite::new(alloc);
    let status = run(alloc, &mut whole, script)?;
    let mut site = MemSite::new(alloc);
    let ended = run_bytewise(alloc, &mut site, script)?;
    Ok(ended && status == 0 && site.told() == whole.told())
}

fn are_answered_alike(alloc: Global) -> Result<bool, AllocError> {
    for script in SCRIPTS {
        if !is_answered_alike(alloc, script)? {
            return Ok(false);
        }
    }
    Ok(true)
}

#[test]
fn the_pieces_of_the_input_change_nothing(rt: HostRuntime) -> Result<(), Fail> {
    assert!(rt; are_answered_alike(rt.alloc())?);
    Ok(())
}
