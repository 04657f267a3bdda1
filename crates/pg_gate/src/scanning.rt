// A gated file is read anew, as after a crash.
ghost use Rattle.std.specs.Prelude.{◌≡◌, ◌≤◌, ◌↔◌, ℕ, [], length, slice_index, IsTrue, IfOk, OnOk, IfErr, OnErr};
ghost use Rattle.pg_disk.specs.Calls.{Reads};
ghost use Rattle.pg_disk.specs.Counts.{CountsDisk, CountsFault};
ghost use Rattle.pg_disk.specs.Image.{IsFileThere, Leaves, LeavesAt, Only};
ghost use Rattle.pg_disk.specs.Moments.{Within, WithinFrom};
ghost use Rattle.pg_disk.specs.Sites.{OnBytes, OnBytesThen, OnFile, OnFiles, OnTaken, Steps};
ghost use Rattle.pg_gate.specs.Gated.{HasBatches, RestsAt, file_of, counted_length};
ghost use Rattle.pg_gate.specs.Spans.{IsCut, IsCutFault, IsNotSpent, IsScanned, IsShortOf, IsThereAtRest};
ghost use Rattle.pg_gate.specs.Spans.{KeepsAsRead, KeepsAtRest, StaysOrMends};
ghost use Rattle.pg_gate.specs.Spans.{Occupy, ReadsAndChanges, ReadsGates, ReadsWithin};

use crate::gate::close;
use crate::spans::{is_open, walk};
use crate::{Rest, Span};
use pg_disk::{Disk, Failed, Fault, FileId};
use std::alloc::Global;

// Whether the first gate is open.
fn begins_open<D: Disk>(disk: &mut D, file: FileId) -> Result<bool, Failed>
    requires { OnFiles D.Disk disk.old (IsFileThere file) }
    ensures first { IfOk result (λ opens. OnBytes D.Disk disk.old file (λ bytes.
        1 ≤ length bytes → (IsTrue opens ↔ (slice_index bytes 0 ≡ 1)))) }
    ensures same { (n : ℕ) × Steps D.Disk disk.old disk.new (Reads n) }
    ensures taken { OnTaken D.Disk disk.old disk.new file (λ bytes. ReadsWithin bytes) }
    ensures any_moment { Within D.Disk disk.old disk.new Leaves }
    ensures cause { CountsDisk (D.faults disk.old) (D.faults disk.new) result }
{
    let mut gate = [0];
    disk.read(file, 0, &mut gate)?;
    Ok(is_open(gate[0]))
}

// Closes the gate of a file of `end` bytes, at most one, that has none or an open one, and leaves any other as it is.
fn mend<D: Disk>(disk: &mut D, file: FileId, end: u64) -> Result<(), Failed>
    requires { OnFile D.Disk disk.old file (IsShortOf end) }
    ensures rests { OnOk result (Steps D.Disk disk.old disk.new (ReadsAndChanges file (λ _ t. RestsAt 0 [] t))) }
    ensures stays { Steps D.Disk disk.old disk.new (ReadsAndChanges file StaysOrMends) }
    ensures taken { OnTaken D.Disk disk.old disk.new file (λ bytes. ReadsWithin bytes) }
    ensures any_moment { Within D.Disk disk.old disk.new (LeavesAt file (λ _. HasBatches [])) }
    ensures cause { CountsDisk (D.faults disk.old) (D.faults disk.new) result }
{
    if end == 1 && !begins_open(disk, file)? {
        return Ok(());
    }
    close(file, disk)
}

// Reads and mends a file of which nothing is pending.
fn scan_synced<D: Disk>(
    alloc: Global,
    disk: &mut D,
    file: FileId,
) -> Result<(Rest, Vec<Span>), Fault>
    requires { OnFile D.Disk disk.old file IsThereAtRest }
    ensures file { IfOk result (λ found. file_of found.0 ≡ file) }
    ensures scanned { IfOk result (λ found. OnBytesThen D.Disk disk.old disk.new file (λ bytes.
        IsScanned bytes found.0 found.1.items)) }
    ensures lie { IfOk result (λ found. Occupy found.1.items (counted_length found.0)) }
    ensures stays { Steps D.Disk disk.old disk.new (ReadsAndChanges file StaysOrMends) }
    ensures taken { IfOk result (λ found. OnTaken D.Disk disk.old disk.new file (λ bytes.
        ReadsGates bytes found.1.items)) }
    ensures taken_err { OnErr result (OnTaken D.Disk disk.old disk.new file (λ bytes.
        ReadsWithin bytes)) }
    ensures any_moment { Within D.Disk disk.old disk.new (LeavesAt file KeepsAsRead) }
    ensures damaged { IfErr result (IsCutFault file (λ at. OnBytes D.Disk disk.old file (λ bytes. IsCut bytes at))) }
    ensures only { IfErr result IsNotSpent }
    ensures cause { CountsFault (D.faults disk.old) (D.faults disk.new) result }
{
    let end = disk.length(file)?;
    if end <= 1 {
        mend(disk, file, end)?;
        return Ok((Rest { file, gate: 0 }, Vec::new(alloc)));
    }
    let (spans, gate) = walk(alloc, disk, file, end)?;
    Ok((Rest { file, gate }, spans))
}

/// Reads a gated file anew: syncs it, mends it, and gives the file at rest with the places of the payloads of its
/// counted batches, in their order. A file of no bytes gets a closed gate, and a file of one byte that is an open gate
/// gets a closed one in its place. Nothing else is written, and no payload is read. `Damaged` with the rule `Cut` and
/// the gate's offset comes where an open gate has no whole batch behind it. The other errors are that the disk failed
/// and that there was no memory.
pub fn scan<D: Disk>(alloc: Global, disk: &mut D, file: FileId) -> Result<(Rest, Vec<Span>), Fault>
    requires { OnFiles D.Disk disk.old (IsFileThere file) }
    ensures file { IfOk result (λ found. file_of found.0 ≡ file) }
    ensures scanned { IfOk result (λ found. OnBytesThen D.Disk disk.old disk.new file (λ bytes.
        IsScanned bytes found.0 found.1.items)) }
    ensures lie { IfOk result (λ found. Occupy found.1.items (counted_length found.0)) }
    ensures stays { Steps D.Disk disk.old disk.new (ReadsAndChanges file StaysOrMends) }
    ensures taken { IfOk result (λ found. OnTaken D.Disk disk.old disk.new file (λ bytes.
        ReadsGates bytes found.1.items)) }
    ensures taken_err { OnErr result (OnTaken D.Disk disk.old disk.new file (λ bytes.
        ReadsWithin bytes)) }
    ensures any_moment { Within D.Disk disk.old disk.new (LeavesAt file KeepsAtRest) }
    ensures once_synced { OnOk result (WithinFrom D.Disk (Only file) disk.old disk.new (LeavesAt file KeepsAsRead)) }

    ensures damaged { IfErr result (IsCutFault file (λ at. OnBytes D.Disk disk.old file (λ bytes. IsCut bytes at))) }
    ensures only { IfErr result IsNotSpent }
    ensures cause { CountsFault (D.faults disk.old) (D.faults disk.new) result }
{
    disk.sync(file)?;
    scan_synced(alloc, disk, file)
}
