// The lines of a source.
ghost use Rattle.std.specs.Prelude.{◌≡◌, ◌<◌, ◌≤◌, ◌+◌, ◌++◌, take, length, vec_len, IfOk, ◌==◌, position};
ghost use Rattle.pg_lines.specs.Lines.{longest_line};

use crate::read_error::ReadError;
use pg_disk::{Failed, Source};
use std::alloc::{AllocError, Global};

/// How many bytes are asked of the source at most, at a time.
const BUFFER_LEN: usize = 65_536;

/// How many bytes of a line are kept: one more than the longest line has.
const MOST_KEPT: usize = 1_048_577;

/// Reads lines of a source through a buffer, up to a limit of bytes.
pub struct LineReader {
    /// What was read and not given yet stands in `from..to`.
    pub(crate) buffer: Vec<u8>,
    pub(crate) from: usize,
    pub(crate) to: usize,
    /// How many bytes may still be read.
    pub(crate) left: u64,
    ghost ordered: { from ≤ to },
    ghost in_buffer: { to ≤ vec_len buffer },
    ghost has_room: { 0 < vec_len buffer },
}

impl Drop for LineReader {
    fn drop(self) {
        let LineReader {
            buffer: _buffer,
            from: _from,
            to: _to,
            left: _left,
        } = self;
    }
}

impl LineReader {
    ghost use Rattle.std.specs.Prelude.{[], IsTrue, OnOk, OnErr, IfErr};
    ghost use Rattle.pg_disk.specs.Counts.{CountsSource};
    ghost use Rattle.pg_disk.specs.Reads.{TakesFrom};
    ghost use Rattle.pg_lines.specs.Reading.{pending_of, left_of, IsAtEnd, TookLine, StoppedReading, CountsReading};
    ghost use Rattle.pg_lines.specs.ReadSteps.{TookPending, Refilled, Refuses};

    /// A reader that has read nothing yet. The limit is on the bytes of the whole source.
    pub fn new(alloc: Global, limit: u64) -> Result<LineReader, AllocError>
        ensures pending { IfOk result (λ reader. pending_of reader ≡ []) }
        ensures left { IfOk result (λ reader. left_of reader ≡ limit) }
    {
        Ok(LineReader {
            buffer: vec![in alloc; 0; BUFFER_LEN]?,
            from: 0,
            to: 0,
            left: limit,
        })
    }

    /// Puts the next line, without its line end, in place of what `line` has, and answers whether a line end stood
    /// behind it. Where none did, that was the end of the source, and the line may be empty. Of a line that is too long
    /// only so many bytes are kept that it still is. All lines that end within the limit are given before the byte past
    /// it is read. After an error what was read of the line is lost, and nothing is said of what a later call answers.
    pub fn next_line<R: Source>(
        &mut self,
        source: &mut R,
        line: &mut Vec<u8>,
    ) -> Result<bool, ReadError>
        ensures line { IfOk result
            (λ ended. TookLine self.old self.new (R.rest source.old) (R.rest source.new) line.new.items ended) }
        ensures stopped { IfErr result
            (λ error. StoppedReading self.old (R.rest source.old) (R.rest source.new) error) }
        ensures goes_on { IfOk result (λ ended. IsTrue ended
            → left_of self.new + length (pending_of self.new) < left_of self.old + length (pending_of self.old)) }
        ensures cause { CountsReading (R.faults source.old) (R.faults source.new) result }
    {
        line.clear();
        loop {
            if self.take_pending(line)? {
                return Ok(true);
            }
            if self.refill(source)? == 0 {
                return Ok(false);
            }
        }
    }

    // Appends what is pending up to the first line end to the line, and answers whether there was one.
    // The line end is taken too.
    fn take_pending(&mut self, line: &mut Vec<u8>) -> Result<bool, AllocError>
        requires { vec_len line.old ≤ longest_line + 1 }
        ensures { IfOk result (λ ended. TookPending self.old self.new line.old.items line.new.items ended) }
    {
        let pending = &self.buffer[self.from..self.to];
        let len = pending.len();
        let count = first_line_end(pending).unwrap_or(len);
        append_kept(line, &pending[..count])?;
        if count == len {
            self.from = self.to;
            return Ok(false);
        }
        self.from += count + 1;
        Ok(true)
    }

    // Reads into the buffer, where nothing is pending, and answers how many bytes are pending now. None are at the end
    // only.
    fn refill<R: Source>(&mut self, source: &mut R) -> Result<usize, ReadError>
        requires { pending_of self.old ≡ [] }
        ensures ok { IfOk result (λ count. Refilled self.old self.new (R.rest source.old) (R.rest source.new) count) }
        ensures err { IfErr result (λ error. Refuses error (left_of self.old) (R.rest source.old) (R.rest source.new)) }
        ensures cause { CountsReading (R.faults source.old) (R.faults source.new) result }
    {
        if self.left == 0 {
            Self::probe(source)?;
            return Ok(0);
        }
        let most = self.left.min(self.buffer.len() as u64) as usize;
        let count = Self::read_front(source, &mut self.buffer, most)?;
        self.from = 0;
        self.to = count;
        self.left -= count as u64;
        Ok(count)
    }

    // Reads up to so many bytes to the buffer's front.
    fn read_front<R: Source>(
        source: &mut R,
        buffer: &mut [u8],
        most: usize,
    ) -> Result<usize, Failed>
        requires some { 0 < most }
        requires within { most ≤ length buffer.old }
        ensures count { IfOk result (λ count. count ≤ most) }
        ensures taken { IfOk result
            (λ count. TakesFrom (R.rest source.old) (R.rest source.new) (take count buffer.new)) }
        ensures end { IfOk result (λ count. count ≡ 0 → IsAtEnd (R.rest source.old) (R.rest source.new)) }
        ensures err { OnErr result (R.rest source.new ≡ R.rest source.old) }
        ensures cause { CountsSource (R.faults source.old) (R.faults source.new) result }
    {
        source.read(&mut buffer[..most])
    }

    // Looks for the byte past the limit, once nothing is left of the limit.
    fn probe<R: Source>(source: &mut R) -> Result<(), ReadError>
        ensures ok { OnOk result (TakesFrom (R.rest source.old) (R.rest source.new) []
            × IsAtEnd (R.rest source.old) (R.rest source.new)) }
        ensures err { IfErr result (λ error. Refuses error 0 (R.rest source.old) (R.rest source.new)) }
        ensures cause { CountsReading (R.faults source.old) (R.faults source.new) result }
    {
        let mut byte = [0];
        match source.read(&mut byte)? {
            0 => Ok(()),
            _ => Err(ReadError::TooLong),
        }
    }
}

// The index of the first line end.
fn first_line_end(bytes: &[u8]) -> Option<usize>
    ensures { result ≡ position (λ byte. byte == 10) bytes.now }
{
    bytes.iter().position(|byte| *byte == b'\n')
}

// Appends the bytes, but keeps no more than are kept of a line.
fn append_kept(line: &mut Vec<u8>, bytes: &[u8]) -> Result<(), AllocError>
    requires { vec_len line.old ≤ longest_line + 1 }
    ensures { IfOk result (λ _. line.new.items ≡ take (longest_line + 1) (line.old.items ++ bytes.now)) }
{
    let room = MOST_KEPT - line.len();
    let count = room.min(bytes.len());
    line.extend_from_slice(&bytes[..count])
}
