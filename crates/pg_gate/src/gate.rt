// A new gated file.
ghost use Rattle.std.specs.Prelude.{◌≡◌, [], IfOk, IfErr, OnOk, OnErr, None};
ghost use Rattle.pg_disk.specs.Calls.{ChangesFile};
ghost use Rattle.pg_disk.specs.Counts.{CountsDisk, CountsFault};
ghost use Rattle.pg_disk.specs.Image.{LeavesAt};
ghost use Rattle.pg_disk.specs.Moments.{Within};
ghost use Rattle.pg_disk.specs.Sites.{OnFile, Steps};
ghost use Rattle.pg_gate.specs.Gated.{Anyhow, HasBatches, HasNone, IsLaid, IsShort, StandsFor, file_of, counted_length};

use crate::Rest;
use pg_disk::{Disk, Failed, Fault, FileId};

// Writes the closed gate of a file of at most one byte, and syncs.
pub(crate) fn close<D: Disk>(file: FileId, disk: &mut D) -> Result<(), Failed>
    requires { OnFile D.Disk disk.old file IsShort }
    ensures closed { OnOk result (Steps D.Disk disk.old disk.new
        (ChangesFile file (λ _ s. IsLaid s))) }
    ensures other_files { OnErr result (Steps D.Disk disk.old disk.new
        (ChangesFile file Anyhow)) }
    ensures any_moment { Within D.Disk disk.old disk.new (LeavesAt file (λ _. HasBatches [])) }
    ensures cause { CountsDisk (D.faults disk.old) (D.faults disk.new) result }
{
    disk.write(file, 0, &[0])?;
    disk.sync(file)
}

/// Makes a gated file without batches. The only Err is that the disk failed: then the file may be there or not, and
/// has no batches.
pub fn lay<D: Disk>(disk: &mut D, file: FileId) -> Result<Rest, Fault>
    requires { OnFile D.Disk disk.old file (λ s. s ≡ None) }
    ensures file { IfOk result (λ rest. file_of rest ≡ file) }
    ensures counted { IfOk result (λ rest. counted_length rest ≡ 1) }
    ensures laid { IfOk result (λ rest. Steps D.Disk disk.old disk.new
        (ChangesFile file (λ _ s. IsLaid s × StandsFor rest [] s))) }
    ensures other_files { OnErr result (Steps D.Disk disk.old disk.new
        (ChangesFile file Anyhow)) }
    ensures any_moment { Within D.Disk disk.old disk.new (LeavesAt file (λ _. HasNone)) }

    ensures only_failed { IfErr result (λ e. e ≡ Fault.Failed) }
    ensures cause { CountsFault (D.faults disk.old) (D.faults disk.new) result }
{
    disk.create(file)?;
    close(file, disk)?;
    Ok(Rest { file, gate: 0 })
}
