// Opening over whatever files are there.
ghost use Rattle.std.specs.Prelude.{◌≡◌, IfOk, IfErr, OnOk};
ghost use Rattle.pg_disk.specs.Image.{AnyFile, OnceQuiet};
ghost use Rattle.pg_disk.specs.Sites.{OnFiles, Steps};
ghost use Rattle.pg_disk.specs.Views.{as_read};
ghost use Rattle.pg_recover.specs.Damaging.{IsBrokenThere, OnDamage};
ghost use Rattle.pg_disk.specs.Account.{account, IsHonest};
ghost use Rattle.pg_disk.specs.Counts.{CountsFault};
ghost use Rattle.pg_disk.specs.Moments.{Within, WithinFrom};
ghost use Rattle.pg_recover.specs.Recovered.{AreKept, HasNoEpoch, IsIllFormed, IsSpentAt, OpensFiles};
ghost use Rattle.pg_engine.specs.Opened.{LeavesEpoch, OpensAt};

use crate::engine::Engine;
use pg_disk::{Disk, Fault};
use pg_msg::Limits;
use pg_recover::recover;
use std::alloc::Global;

/// Opens a broker in the state that the files denote, in the next epoch. `Damaged` comes where the files aren't well
/// formed,
/// with the place and the rule; `Spent` where the epoch would be `limits.epochs` or more, or the journal has no room
/// for it;
/// `Failed` where the disk failed; `Memory` for want of memory.
pub fn open<D: Disk>(alloc: Global, disk: &mut D, limits: &Limits) -> Result<Engine, Fault>
    ensures opens { IfOk result (λ engine. IsHonest (D.tells disk.old)
        → OpensAt limits.now.ids (D.tells disk.old) (D.tells disk.new) engine) }
    ensures stays { Steps D.Disk disk.old disk.new OpensFiles }
    // A crash at any moment leaves the state from before, or that in the next epoch, where nothing was pending. Where
    // something was, it leaves what one at entry may leave, until all is synced.
    ensures any_moment { Within D.Disk disk.old disk.new (OnceQuiet LeavesEpoch) }
    ensures once_quiet { OnOk result (WithinFrom D.Disk AnyFile disk.old disk.new LeavesEpoch) }
    ensures damaged { IfErr result (IsIllFormed (D.tells disk.old)) }
    // What it names is broken there.
    ensures broken { IfErr result (OnDamage (λ damage.
        OnFiles D.Disk disk.old (λ files. IsBrokenThere (as_read files) damage))) }
    ensures kept { IfErr result (AreKept (D.tells disk.old) (D.tells disk.new)) }
    ensures spent { IfErr result (IsSpentAt limits.now.epochs (D.tells disk.old)) }
    ensures next { OnOk result (IsHonest (D.tells disk.old)
        → HasNoEpoch limits.now.epochs (account (D.tells disk.old)).files → ⊥) }
    ensures cause { CountsFault (D.faults disk.old) (D.faults disk.new) result }
{
    let parts = recover(alloc, disk, limits)?;
    Ok(Engine::new(alloc, parts, limits)?)
}
