// What is written around a batch: the place of its length, the length with the next closed gate, and the open gate.
ghost use Rattle.std.specs.Prelude.{◌≡◌, ◌<◌, ◌+◌, ◌^◌, [], ◌∷◌, ◌++◌, length, true, IfOk, OnOk};
ghost use Rattle.pg_disk.specs.Calls.{ChangesFile, Rewrites};
ghost use Rattle.pg_disk.specs.Counts.{CountsDisk};
ghost use Rattle.pg_disk.specs.Image.{LeavesAt};
ghost use Rattle.pg_disk.specs.Moments.{Within};
ghost use Rattle.pg_disk.specs.Sites.{OnFile, Steps};
ghost use Rattle.pg_gate.specs.Gated.{Fills, Keeps, MayOpen, RestsClosed, Stages};

use crate::Filling;
use pg_disk::{Disk, Failed, FileId};

// Makes the place of the batch's length, where it isn't there.
pub(crate) fn place<D: Disk>(filling: Filling, disk: &mut D) -> Result<Filling, Failed>
    requires { OnFile D.Disk disk.old filling.file (λ s. (batches : _) × (piece : _) × Fills filling batches piece s) }
    ensures same { IfOk result (λ f.
        (f.file ≡ filling.file) × (f.gate ≡ filling.gate) × (f.length ≡ filling.length) × (f.started ≡ true)) }
    ensures placed { IfOk result (λ f. Steps D.Disk disk.old disk.new
        (ChangesFile filling.file (λ s t.
        (batches : _) (piece : _) → Fills filling batches piece s → Fills f batches piece t))) }
    ensures all_else { Steps D.Disk disk.old disk.new
        (ChangesFile filling.file (Rewrites (filling.gate + 1) (filling.gate + 9))) }
    ensures any_moment { Within D.Disk disk.old disk.new (LeavesAt filling.file (Keeps filling)) }
    ensures cause { CountsDisk (D.faults disk.old) (D.faults disk.new) result }
{
    if filling.started {
        return Ok(filling);
    }
    disk.write(filling.file, filling.gate + 1, &[0, 0, 0, 0, 0, 0, 0, 0])?;
    Ok(Filling {
        file: filling.file,
        gate: filling.gate,
        length: filling.length,
        started: true,
    })
}

// Writes the length and the next closed gate, and syncs: the batch is whole, and doesn't count.
pub(crate) fn stage<D: Disk>(filling: &Filling, disk: &mut D) -> Result<(), Failed>
    requires filled { OnFile D.Disk disk.old filling.now.file (λ s.
        (batches : _) × (piece : _) × Fills filling.now batches piece s) }
    requires room { filling.now.gate + 9 + filling.now.length < 2 ^ 62 }
    ensures staged { OnOk result (Steps D.Disk disk.old disk.new
        (ChangesFile filling.now.file (λ s t.
        (batches : _) (piece : _) → Fills filling.now batches piece s → Stages filling.now.gate batches piece t))) }
    ensures all_else { Steps D.Disk disk.old disk.new
        (ChangesFile filling.now.file (Rewrites (filling.now.gate + 1) (filling.now.gate + 10 + filling.now.length))) }
    ensures any_moment { Within D.Disk disk.old disk.new (LeavesAt filling.now.file (Keeps filling.now)) }
    ensures cause { CountsDisk (D.faults disk.old) (D.faults disk.new) result }
{
    let end = filling.gate + 9 + filling.length;
    let size = filling.length.to_be_bytes();
    disk.write(filling.file, filling.gate + 1, &size)?;
    disk.write(filling.file, end, &[0])?;
    disk.sync(filling.file)
}

// Opens the gate before a whole batch, and syncs: now it counts.
pub(crate) fn open<D: Disk>(file: FileId, gate: u64, disk: &mut D) -> Result<(), Failed>
    requires { OnFile D.Disk disk.old file (λ s. (batches : _) × (piece : _) × Stages gate batches piece s) }
    ensures opened { OnOk result (Steps D.Disk disk.old disk.new
        (ChangesFile file (λ s t.
        (batches : _) (piece : _) → Stages gate batches piece s →
        RestsClosed (gate + 9 + length piece) (batches ++ piece ∷ []) t))) }
    ensures all_else { Steps D.Disk disk.old disk.new (ChangesFile file (Rewrites gate (gate + 1))) }
    ensures any_moment { Within D.Disk disk.old disk.new (LeavesAt file (MayOpen gate)) }
    ensures cause { CountsDisk (D.faults disk.old) (D.faults disk.new) result }
{
    disk.write(file, gate, &[1])?;
    disk.sync(file)
}
