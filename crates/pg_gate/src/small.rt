// A batch that a buffer has room for is written with its length and the next closed gate in one write.
ghost use Rattle.std.specs.Prelude.{◌≡◌, ◌≤◌, ◌+◌, ◌^◌, [], ◌∷◌, ◌++◌, length, take, IfOk, OnOk};
ghost use Rattle.std.specs.Int.{to_be_bytes, w64};
ghost use Rattle.pg_disk.specs.Calls.{ChangesFile, Rewrites};
ghost use Rattle.pg_disk.specs.Counts.{CountsDisk};
ghost use Rattle.pg_disk.specs.Image.{LeavesAt};
ghost use Rattle.pg_disk.specs.Moments.{Within};
ghost use Rattle.pg_disk.specs.Sites.{OnFile, Steps};
ghost use Rattle.pg_gate.specs.Gated.{KeepsAll, MayGrow, StandsClosed, StandsFor, Stages};
ghost use Rattle.pg_gate.specs.Gated.{file_of, gate_of, counted_length};

use crate::Rest;
use crate::steps::open;
use pg_disk::{Disk, Failed};

/// The greatest length of a batch that is written at once without memory, in bytes: with its length and the next gate
/// it fills a buffer of 4096 bytes.
pub(crate) const SMALL: usize = 4087;

// Puts the batch's length, the batch and a closed gate at the buffer's front.
fn fill(buffer: &mut [u8], batch: &[u8])
    requires { length batch.now + 9 ≤ length buffer.old }
    ensures same_length { length buffer.new ≡ length buffer.old }
    ensures front { take (8 + length batch.now + 1) buffer.new ≡
        to_be_bytes w64 (length batch.now) ++ (batch.now ++ 0 ∷ []) }
{
    let end = 8 + batch.len();
    buffer[..8].copy_from_slice(&(batch.len() as u64).to_be_bytes());
    buffer[8..end].copy_from_slice(batch);
    buffer[end] = 0;
}

// Writes the length, the batch and the next closed gate behind the closed gate, and syncs: the batch is whole, and
// doesn't count.
fn stage_small<D: Disk>(
    rest: &Rest,
    disk: &mut D,
    batch: &[u8],
    buffer: &mut [u8],
) -> Result<(), Failed>
    requires stands { OnFile D.Disk disk.old rest.now.file (λ s. (batches : _) × StandsFor rest.now batches s) }
    requires short { length batch.now + 9 ≤ length buffer.old }
    ensures staged { OnOk result (Steps D.Disk disk.old disk.new
        (ChangesFile rest.now.file (λ s t.
        (batches : _) → StandsFor rest.now batches s → Stages rest.now.gate batches batch.now t))) }
    ensures all_else { Steps D.Disk disk.old disk.new
        (ChangesFile rest.now.file (Rewrites (rest.now.gate + 1) (rest.now.gate + 10 + length batch.now))) }
    ensures any_moment { Within D.Disk disk.old disk.new (LeavesAt rest.now.file (KeepsAll rest.now)) }
    ensures cause { CountsDisk (D.faults disk.old) (D.faults disk.new) result }
{
    fill(buffer, batch);
    disk.write(rest.file, rest.gate + 1, &buffer[..8 + batch.len() + 1])?;
    disk.sync(rest.file)
}

// Adds a batch that the buffer has room for to a file that has room for it too.
pub(crate) fn append_small<D: Disk>(
    rest: Rest,
    disk: &mut D,
    batch: &[u8],
    buffer: &mut [u8],
) -> Result<Rest, Failed>
    requires stands { OnFile D.Disk disk.old (file_of rest) (λ s. (batches : _) × StandsFor rest batches s) }
    requires short { length batch.now + 9 ≤ length buffer.old }
    requires room { counted_length rest + length batch.now + 9 ≤ 2 ^ 62 }
    ensures file { IfOk result (λ next. file_of next ≡ file_of rest) }
    ensures grown { IfOk result (λ next. counted_length next ≡ counted_length rest + length batch.now + 9) }
    ensures appended { IfOk result (λ next. Steps D.Disk disk.old disk.new
        (ChangesFile (file_of rest) (λ s t.
        (batches : _) → StandsFor rest batches s → StandsClosed next (batches ++ batch.now ∷ []) t))) }
    ensures all_else { Steps D.Disk disk.old disk.new
        (ChangesFile (file_of rest) (Rewrites (gate_of rest) (counted_length rest + length batch.now + 9))) }
    ensures any_moment { Within D.Disk disk.old disk.new (LeavesAt (file_of rest) (MayGrow rest batch.now)) }
    ensures cause { CountsDisk (D.faults disk.old) (D.faults disk.new) result }
{
    stage_small(&rest, disk, batch, buffer)?;
    open(rest.file, rest.gate, disk)?;
    Ok(Rest {
        file: rest.file,
        gate: rest.gate + 9 + batch.len() as u64,
    })
}
