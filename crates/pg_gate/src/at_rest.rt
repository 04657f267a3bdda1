// A gated file at rest, which a batch is added to.
ghost use Rattle.std.specs.Prelude.{◌<◌, ◌+◌, ◌^◌};

use crate::Filling;
use crate::small::{SMALL, append_small};
use pg_disk::{Disk, Fault, FileId};
use std::alloc::Global;

/// No gated file grows past this many bytes. One that is longer already is read, and doesn't grow.
pub(crate) const LIMIT: u64 = 1 << 62;

/// A gated file at rest, of which nothing is pending. Each call that writes takes it by value and gives it back at Ok
/// alone: after an Err the file has to be read anew.
#[derive(Debug, PartialEq, Eq, Drop)]
pub struct Rest {
    pub(crate) file: FileId,
    // The offset of the closed gate, in bytes.
    pub(crate) gate: u64,
    ghost in_range: { gate + 1 < 2 ^ 64 },
}

impl Rest {
    ghost use Rattle.std.specs.Prelude.{◌≡◌, ◌⊎◌, ◌<◌, ◌≤◌, ◌+◌, ◌^◌, ◌↔◌, [], ◌∷◌, ◌++◌, length, IfOk, IfErr, IsErrOf};
    ghost use Rattle.pg_disk.specs.Calls.{ChangesFile, Rewrites};
    ghost use Rattle.pg_disk.specs.Counts.{CountsFault};
    ghost use Rattle.pg_disk.specs.Image.{LeavesAt};
    ghost use Rattle.pg_disk.specs.Moments.{Within};
    ghost use Rattle.pg_disk.specs.Sites.{OnFile, Steps};
    ghost use Rattle.pg_gate.specs.Gated.{Fills, IsFailedOrSpent, IsUndamaged, MayGrow, StandsClosed, StandsFor};
    ghost use Rattle.pg_gate.specs.Gated.{file_of, gate_of, counted_length};
    ghost use Rattle.pg_gate.specs.Gated.{file_filled, counted_before, payload_length};

    /// The file's name.
    pub fn file(&self) -> FileId
        ensures { result ≡ file_of self.now }
    {
        self.file
    }

    /// The counted length of the file in bytes: up to the closed gate, and with it.
    pub fn length(&self) -> u64
        ensures { result ≡ counted_length self.now }
    {
        self.gate + 1
    }

    /// Begins the next batch. Nothing is written yet.
    pub fn begin(self) -> Filling
        ensures file { file_filled result ≡ file_of self }
        ensures counted { counted_before result ≡ counted_length self }
        ensures empty { payload_length result ≡ 0 }
        ensures fills { (batches : _) (s : _) → StandsFor self batches s → Fills result batches [] s }
    {
        Filling {
            file: self.file,
            gate: self.gate,
            length: 0,
            started: false,
        }
    }

    /// Adds a batch. It counts from some moment within the call on, and at no moment in part. `Spent` comes before
    /// any call of the disk, where the file would grow past 2^62 bytes. The only other Err is that the disk failed:
    /// then the batch counts or it doesn't.
    pub fn append<D: Disk>(self, disk: &mut D, batch: &[u8]) -> Result<Rest, Fault>
        requires { OnFile D.Disk disk.old (file_of self) (λ s. (batches : _) × StandsFor self batches s) }
        ensures file { IfOk result (λ next. file_of next ≡ file_of self) }
        ensures grown { IfOk result (λ next. counted_length next ≡ counted_length self + length batch.now + 9) }
        ensures appended { IfOk result (λ next. Steps D.Disk disk.old disk.new
            (ChangesFile (file_of self) (λ s t.
            (batches : _) → StandsFor self batches s → StandsClosed next (batches ++ batch.now ∷ []) t))) }
        ensures all_else { Steps D.Disk disk.old disk.new
            (ChangesFile (file_of self) (Rewrites (gate_of self) (counted_length self + length batch.now + 9))) }
        ensures any_moment { Within D.Disk disk.old disk.new (LeavesAt (file_of self) (MayGrow self batch.now)) }

        ensures spent { IsErrOf result Fault.Spent ↔ (2 ^ 62 < counted_length self + length batch.now + 9) }
        ensures untouched { IsErrOf result Fault.Spent → disk.new ≡ disk.old }
        ensures only { IfErr result IsFailedOrSpent }
        ensures cause { CountsFault (D.faults disk.old) (D.faults disk.new) result }
    {
        let end = self.length().saturating_add(9);
        let count = batch.len() as u64;
        if end > LIMIT || count > LIMIT - end {
            return Err(Fault::Spent);
        }
        if batch.len() <= SMALL {
            let mut buffer = [0u8; 4096];
            return Ok(append_small(self, disk, batch, &mut buffer)?);
        }
        let filling = self.begin().add(disk, batch)?;
        filling.seal(disk)
    }

    /// Adds a batch as `append` does, in one write behind the closed gate however long the batch is, which takes memory
    /// for its bytes and 9 more. `Spent` and `Memory` come before any call of the disk.
    pub fn append_at_once<D: Disk>(
        self,
        alloc: Global,
        disk: &mut D,
        batch: &[u8],
    ) -> Result<Rest, Fault>
        requires { OnFile D.Disk disk.old (file_of self) (λ s. (batches : _) × StandsFor self batches s) }
        ensures file { IfOk result (λ next. file_of next ≡ file_of self) }
        ensures grown { IfOk result (λ next. counted_length next ≡ counted_length self + length batch.now + 9) }
        ensures appended { IfOk result (λ next. Steps D.Disk disk.old disk.new
            (ChangesFile (file_of self) (λ s t.
            (batches : _) → StandsFor self batches s → StandsClosed next (batches ++ batch.now ∷ []) t))) }
        ensures all_else { Steps D.Disk disk.old disk.new
            (ChangesFile (file_of self) (Rewrites (gate_of self) (counted_length self + length batch.now + 9))) }
        ensures any_moment { Within D.Disk disk.old disk.new (LeavesAt (file_of self) (MayGrow self batch.now)) }

        ensures spent { IsErrOf result Fault.Spent ↔ (2 ^ 62 < counted_length self + length batch.now + 9) }
        ensures untouched { IsErrOf result Fault.Spent ⊎ IsErrOf result Fault.Memory → disk.new ≡ disk.old }
        ensures only { IfErr result IsUndamaged }
        ensures cause { CountsFault (D.faults disk.old) (D.faults disk.new) result }
    {
        let mut buffer = self.buffer_for(alloc, batch.len())?;
        Ok(append_small(self, disk, batch, &mut buffer)?)
    }

    // Room for a batch of so many bytes, its length and the next gate, where the file has that room too.
    fn buffer_for(&self, alloc: Global, count: usize) -> Result<Vec<u8>, Fault>
        ensures room { IfOk result (λ buffer. length buffer.items ≡ count + 9) }
        ensures in_file { IfOk result (λ _. counted_length self.now + count + 9 ≤ 2 ^ 62) }
        ensures spent { IsErrOf result Fault.Spent ↔ (2 ^ 62 < counted_length self.now + count + 9) }
        ensures only { IfErr result (λ fault. (fault ≡ Fault.Spent) ⊎ (fault ≡ Fault.Memory)) }
    {
        let end = self.length().saturating_add(9);
        if end > LIMIT || count as u64 > LIMIT - end {
            return Err(Fault::Spent);
        }
        Ok(vec![in alloc; 0; count + 9]?)
    }
}
