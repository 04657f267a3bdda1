// An input as the broker's source.
ghost use Rattle.std.specs.Prelude.{◌≡◌, ◌≤◌, None, IfOk, length};

use pg_disk::{Failed, Source};
use std::alloc::{AllocError, Global};
use std::io::{self, ErrorKind, Read};

/// The most bytes that one read takes.
const MOST_AT_ONCE: usize = 65_536;

/// An input of which nothing is told. Each read asks the input once, unless a signal interrupts it.
pub struct InSource<R> {
    input: R,
    // What an input leaves in the rest of a buffer isn't known, so none is handed the caller's.
    buffer: Vec<u8>,
    faults: u64,
}

impl<R: Drop> Drop for InSource<R> {
    fn drop(self) {
        let InSource {
            input: _input,
            buffer: _buffer,
            faults: _faults,
        } = self;
    }
}

impl<R: Read + Drop> InSource<R> {
    pub fn new(alloc: Global, input: R) -> Result<Self, AllocError> {
        Ok(InSource {
            input,
            buffer: vec![in alloc; 0; MOST_AT_ONCE]?,
            faults: 0,
        })
    }

    /// How many reads failed so far.
    pub fn faults(&self) -> u64
        ensures { result ≡ self.now.faults }
    {
        self.faults
    }
}

// One read that isn't interrupted.
fn read_once<R: Read>(input: &mut R, buf: &mut [u8]) -> io::Result<usize>
    ensures { IfOk result (λ n. n ≤ length buf.old) }
{
    for _ in 0..u64::MAX {
        match input.read(buf) {
            Err(error) if error.kind() == ErrorKind::Interrupted => {}
            outcome => return outcome,
        }
    }
    Err(io::Error::from(ErrorKind::Interrupted))
}

impl<R: Read + Drop> Source for InSource<R> {
    ghost rest = { λ _. None };

    ghost faults = { λ source. source.faults };

    fn read(&mut self, buf: &mut [u8]) -> Result<usize, Failed> {
        let most = buf.len().min(self.buffer.len());
        let taken = &mut self.buffer[..most];
        match read_once(&mut self.input, taken) {
            Ok(count) => {
                buf[..count].copy_from_slice(&taken[..count]);
                Ok(count)
            }
            Err(_) => {
                self.faults = self.faults.saturating_add(1);
                Err(Failed)
            }
        }
    }
}
