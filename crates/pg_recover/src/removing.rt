// The other generations of the journal are removed.
ghost use Rattle.std.specs.Prelude.{◌≡◌, ◌↔◌, None, OnOk, IsTrue};
ghost use Rattle.std.specs.FinMap.{get};
ghost use Rattle.pg_disk.specs.Sites.{OnBoth, OnFiles, Steps};
ghost use Rattle.pg_disk.specs.Counts.{CountsDisk};
ghost use Rattle.pg_disk.specs.Image.{IsFileThere};
ghost use Rattle.pg_disk.specs.Moments.{Within};
ghost use Rattle.pg_recover.specs.Removing.{HasNoOther, IsOther, LeavesOthersGone, ListsOthers};
ghost use Rattle.pg_recover.specs.Removing.{RemovesOther, RemovesOthers};

use pg_disk::{Disk, Failed, FileId, Kind};

// Whether the file is another generation.
fn is_other(keep: FileId, file: FileId) -> bool
    ensures { IsTrue result ↔ IsOther keep file }
{
    file.kind == Kind::Journal && file != keep
}

// Removes the file, where it is another generation.
fn remove_other<D: Disk>(disk: &mut D, file: FileId, keep: FileId) -> Result<(), Failed>
    requires { OnFiles D.Disk disk.old (λ files. IsOther keep file → IsFileThere file files) }
    ensures stays { Steps D.Disk disk.old disk.new (RemovesOther keep file) }
    ensures gone { OnOk result (OnBoth D.Disk disk.old disk.new (λ _ now. IsOther keep file → get now file ≡ None)) }
    ensures any_moment { Within D.Disk disk.old disk.new (LeavesOthersGone keep) }
    ensures cause { CountsDisk (D.faults disk.old) (D.faults disk.new) result }
{
    if is_other(keep, file) {
        disk.remove(file)
    } else {
        Ok(())
    }
}

// Removes the generations of the listing but the one that is kept.
pub(crate) fn remove_others<D: Disk>(
    disk: &mut D,
    files: &[FileId],
    keep: FileId,
) -> Result<(), Failed>
    requires { OnFiles D.Disk disk.old (ListsOthers files.now keep) }
    ensures stays { Steps D.Disk disk.old disk.new (RemovesOthers keep) }
    ensures alone { OnOk result (OnBoth D.Disk disk.old disk.new (λ _ now. HasNoOther keep now)) }
    ensures any_moment { Within D.Disk disk.old disk.new (LeavesOthersGone keep) }
    ensures cause { CountsDisk (D.faults disk.old) (D.faults disk.new) result }
{
    for file in files {
        remove_other(disk, *file, keep)?;
    }
    Ok(())
}
