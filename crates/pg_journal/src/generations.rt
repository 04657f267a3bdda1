// The generations of the journal that are there.
ghost use Rattle.std.specs.Prelude.{◌≡◌, All, IfOk, IfErr};
ghost use Rattle.std.specs.List.{filter};
ghost use Rattle.std.specs.List.Sorted.{IsPermutation};
ghost use Rattle.pg_disk.specs.Calls.{Reads};
ghost use Rattle.pg_disk.specs.Counts.{CountsFault};
ghost use Rattle.pg_disk.specs.Image.{Leaves};
ghost use Rattle.pg_disk.specs.Moments.{Within};
ghost use Rattle.pg_disk.specs.Sites.{OnFiles, Steps};
ghost use Rattle.pg_journal.specs.Generations.{is_generation, IsAscending};
ghost use Rattle.pg_journal.specs.Looks.{AreGenerations, IsCutGeneration};

use pg_disk::{Disk, Fault, FileId, Kind};
use std::alloc::{AllocError, Global};

// The generations among the files, ascending by number and then by owner.
fn sorted_generations(mut files: Vec<FileId>) -> Result<Vec<FileId>, AllocError>
    ensures same { IfOk result (λ found. IsPermutation (filter is_generation files.items) found.items) }
    ensures ascending { IfOk result (λ found. IsAscending found.items) }
    ensures kinds { IfOk result (λ found. All (λ file. file.kind ≡ Kind.Journal) found.items) }
{
    files.retain(|file| file.kind == Kind::Journal);
    files.sort_by_key(|file| (file.number, file.owner))?;
    Ok(files)
}

// The generations that are there, ascending by number and then by owner.
pub(crate) fn generations<D: Disk>(alloc: Global, disk: &mut D) -> Result<Vec<FileId>, Fault>
    ensures kinds { IfOk result (λ found. All (λ file. file.kind ≡ Kind.Journal) found.items) }
    ensures listed { IfOk result (λ found. OnFiles D.Disk disk.old (AreGenerations found.items)) }
    ensures same { Steps D.Disk disk.old disk.new (Reads 0) }
    ensures any_moment { Within D.Disk disk.old disk.new Leaves }
    ensures undamaged { IfErr result (IsCutGeneration (D.tells disk.old)) }
    ensures cause { CountsFault (D.faults disk.old) (D.faults disk.new) result }
{
    let files = disk.list(alloc)?;
    Ok(sorted_generations(files)?)
}
