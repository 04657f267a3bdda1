// A gated file with a batch being written behind its closed gate, piece by piece.
ghost use Rattle.std.specs.Prelude.{◌<◌, ◌+◌, ◌^◌};

use crate::Rest;
use crate::at_rest::LIMIT;
use crate::steps::{open, place, stage};
use pg_disk::{Disk, Fault, FileId};

/// A gated file with a batch being written behind its closed gate. The batch doesn't count until it is sealed.
#[derive(Debug, PartialEq, Eq, Drop)]
pub struct Filling {
    pub(crate) file: FileId,
    // The offset of the closed gate, in bytes.
    pub(crate) gate: u64,
    // How many bytes of the batch are written.
    pub(crate) length: u64,
    // Whether there is a place for the batch's length.
    pub(crate) started: bool,
    ghost gate_in_range: { gate + 1 < 2 ^ 64 },
    ghost length_in_range: { length < 2 ^ 62 },
}

impl Filling {
    ghost use Rattle.std.specs.Prelude.{◌≡◌, ◌<◌, ◌+◌, ◌^◌, ◌↔◌, [], ◌∷◌, ◌++◌, length, IfOk, IfErr, IsErrOf};
    ghost use Rattle.pg_disk.specs.Calls.{ChangesFile, Rewrites};
    ghost use Rattle.pg_disk.specs.Counts.{CountsFault};
    ghost use Rattle.pg_disk.specs.Image.{LeavesAt};
    ghost use Rattle.pg_disk.specs.Moments.{Within};
    ghost use Rattle.pg_disk.specs.Sites.{OnFile, Steps};
    ghost use Rattle.pg_gate.specs.Gated.{Fills, IsFailedOrSpent, Keeps, MaySeal, StandsClosed};
    ghost use Rattle.pg_gate.specs.Gated.{file_of, counted_length};
    ghost use Rattle.pg_gate.specs.Gated.{file_filled, gate_before, counted_before, payload_length};

    /// Writes a further piece of the batch. `Spent` comes before any call of the disk, where the file would grow past
    /// 2^62 bytes. The only other Err is that the disk failed.
    pub fn add<D: Disk>(self, disk: &mut D, bytes: &[u8]) -> Result<Filling, Fault>
        requires { OnFile D.Disk disk.old (file_filled self) (λ s.
            (batches : _) × (piece : _) × Fills self batches piece s) }
        ensures file { IfOk result (λ f. file_filled f ≡ file_filled self) }
        ensures counted { IfOk result (λ f. counted_before f ≡ counted_before self) }
        ensures grown { IfOk result (λ f. payload_length f ≡ payload_length self + length bytes.now) }
        ensures added { IfOk result (λ f. Steps D.Disk disk.old disk.new
            (ChangesFile (file_filled self) (λ s t.
            (batches : _) (piece : _) → Fills self batches piece s → Fills f batches (piece ++ bytes.now) t))) }
        ensures all_else { Steps D.Disk disk.old disk.new
            (ChangesFile (file_filled self)
            (Rewrites (counted_before self) (counted_before self + 8 + payload_length self + length bytes.now))) }
        ensures any_moment { Within D.Disk disk.old disk.new (LeavesAt (file_filled self) (Keeps self)) }

        ensures spent { IsErrOf result Fault.Spent ↔
            (2 ^ 62 < counted_before self + 8 + payload_length self + length bytes.now) }
        ensures untouched { IsErrOf result Fault.Spent → disk.new ≡ disk.old }
        ensures only { IfErr result IsFailedOrSpent }
        ensures cause { CountsFault (D.faults disk.old) (D.faults disk.new) result }
    {
        let end = self.gate.saturating_add(9 + self.length);
        let count = bytes.len() as u64;
        if end > LIMIT || count > LIMIT - end {
            return Err(Fault::Spent);
        }
        let file = self.file;
        let filling = place(self, disk)?;
        disk.write(file, end, bytes)?;
        Ok(Filling {
            file,
            gate: filling.gate,
            length: filling.length + count,
            started: true,
        })
    }

    /// Makes what was added the next batch. It counts from some moment within the call on, and at no moment in part.
    /// `Spent` comes before any call of the disk, where the file would grow past 2^62 bytes. The only other Err is
    /// that the disk failed: then the batch counts or it doesn't.
    pub fn seal<D: Disk>(self, disk: &mut D) -> Result<Rest, Fault>
        requires { OnFile D.Disk disk.old (file_filled self) (λ s.
            (batches : _) × (piece : _) × Fills self batches piece s) }
        ensures file { IfOk result (λ rest. file_of rest ≡ file_filled self) }
        ensures grown { IfOk result (λ rest. counted_length rest ≡ counted_before self + 9 + payload_length self) }
        ensures sealed { IfOk result (λ rest. Steps D.Disk disk.old disk.new
            (ChangesFile (file_filled self) (λ s t.
            (batches : _) (piece : _) → Fills self batches piece s → StandsClosed rest (batches ++ piece ∷ []) t))) }
        ensures all_else { Steps D.Disk disk.old disk.new
            (ChangesFile (file_filled self)
            (Rewrites (gate_before self) (counted_before self + 9 + payload_length self))) }
        ensures any_moment { Within D.Disk disk.old disk.new (LeavesAt (file_filled self) (MaySeal self)) }

        ensures spent { IsErrOf result Fault.Spent ↔ (2 ^ 62 < counted_before self + 9 + payload_length self) }
        ensures untouched { IsErrOf result Fault.Spent → disk.new ≡ disk.old }
        ensures only { IfErr result IsFailedOrSpent }
        ensures cause { CountsFault (D.faults disk.old) (D.faults disk.new) result }
    {
        let end = self.gate.saturating_add(9 + self.length);
        if end >= LIMIT {
            return Err(Fault::Spent);
        }
        stage(&self, disk)?;
        open(self.file, self.gate, disk)?;
        Ok(Rest {
            file: self.file,
            gate: end,
        })
    }
}
