// Every file is synced.
ghost use Rattle.std.specs.Prelude.{◌≡◌, All, OnOk, IfErr};
ghost use Rattle.std.specs.FinMap.{get};
ghost use Rattle.pg_disk.specs.Sites.{OnBoth, OnFiles, Steps};
ghost use Rattle.pg_disk.specs.Account.{IsQuietAt};
ghost use Rattle.pg_disk.specs.Counts.{CountsDisk};
ghost use Rattle.pg_disk.specs.Image.{IsFileThere, Leaves};
ghost use Rattle.pg_disk.specs.Moments.{Within};
ghost use Rattle.pg_recover.specs.Syncing.{SyncsFiles};

use pg_disk::{Disk, Failed, FileId};

// Syncs the files, of which nothing is pending then.
pub(crate) fn sync_all<D: Disk>(disk: &mut D, files: &[FileId]) -> Result<(), Failed>
    requires { OnFiles D.Disk disk.old (λ there. All (λ file. IsFileThere file there) files.now) }
    ensures quiet { OnOk result (OnBoth D.Disk disk.old disk.new (λ _ now.
        All (λ file. IsQuietAt (get now file)) files.now)) }
    ensures stays { Steps D.Disk disk.old disk.new SyncsFiles }
    ensures any_moment { Within D.Disk disk.old disk.new Leaves }
    ensures cause { CountsDisk (D.faults disk.old) (D.faults disk.new) result }
{
    for file in files {
        disk.sync(*file)?;
    }
    Ok(())
}
