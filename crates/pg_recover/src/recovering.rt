// Opening over the files of a directory, and what that gives.
ghost use Rattle.std.specs.Prelude.{◌≡◌, All, length, IfOk, IfErr, OnOk};
ghost use Rattle.std.specs.FinMap.{keys};
ghost use Rattle.pg_disk.specs.Account.{AllQuiet};
ghost use Rattle.pg_disk.specs.Sites.{OnBoth, OnFiles, Steps};
ghost use Rattle.pg_disk.specs.Counts.{CountsFault};
ghost use Rattle.pg_disk.specs.Image.{AnyFile, OnceQuiet};
ghost use Rattle.pg_disk.specs.Meanings.{Decides};
ghost use Rattle.pg_disk.specs.Moments.{Within, WithinFrom};
ghost use Rattle.pg_disk.specs.Views.{as_read};
ghost use Rattle.pg_model.specs.Broker.{next_epoch};
ghost use Rattle.pg_recover.specs.Damaging.{IsBrokenThere, OnDamage};
ghost use Rattle.pg_recover.specs.Denotation.{Denotes, FoldsTo, raised};
ghost use Rattle.pg_recover.specs.Recovered.{AreKept, IsBegun, HasNoEpoch, IsEpoch, IsIllFormed, IsSpentAt};
ghost use Rattle.pg_recover.specs.Recovered.{GivesNext, GivesSame, LeavesOpened, OpensFiles, Owns};
ghost use Rattle.pg_recover.specs.Viewing.{ArePaged};
ghost use Rattle.pg_recover.specs.WellFormed.{AreRoomy, IsGapless, IsNamed, IsThere, WellFormed};

use crate::epochs::{begin_epoch, check_state};
use crate::reading::read_journal;
use crate::syncing::sync_all;
use pg_disk::{Disk, Fault, FileId};
use pg_fold::Durable;
use pg_journal::Journal;
use pg_msg::Limits;
use std::alloc::Global;

/// What an opening gives: the journal at rest, the state in the epoch that was begun, and of each address, in the order
/// of their ids, whether it has a page from its first one on.
#[derive(Drop)]
pub struct Parts {
    pub journal: Journal,
    pub durable: Durable,
    pub paged: Vec<bool>,
}

// Opens over files of which nothing is pending.
fn open_synced<D: Disk>(
    alloc: Global,
    disk: &mut D,
    files: &[FileId],
    limits: &Limits,
) -> Result<Parts, Fault>
    requires listed { OnFiles D.Disk disk.old (λ known. files.now ≡ keys known) }
    requires quiet { OnFiles D.Disk disk.old AllQuiet }
    ensures recovered { IfOk result (λ parts. OnBoth D.Disk disk.old disk.new (λ was now. (d : _)
        × FoldsTo (as_read was) d × (parts.durable ≡ raised d) × Owns parts.journal parts.durable now × AllQuiet now)) }
    ensures begun { IfOk result (λ parts. IsBegun parts.durable) }
    ensures roomy { IfOk result (λ parts. AreRoomy parts.durable) }
    ensures epoch { IfOk result (λ parts. IsEpoch limits.now.epochs parts.durable.epoch) }
    ensures named { IfOk result (λ parts. OnFiles D.Disk disk.old (λ files. (file : _) → IsThere (as_read files) file →
        IsNamed parts.durable.addresses file)) }
    ensures gapless { IfOk result (λ parts. OnFiles D.Disk disk.old (λ files.
        All (IsGapless (as_read files)) parts.durable.addresses)) }
    ensures counted { IfOk result (λ parts. length parts.paged.items ≡ length parts.durable.addresses) }
    ensures paged { IfOk result (λ parts. OnFiles D.Disk disk.old (λ files.
        ArePaged (as_read files) parts.durable.addresses parts.paged.items)) }
    ensures well { OnOk result (OnBoth D.Disk disk.old disk.new (λ was now.
        WellFormed (as_read was) → WellFormed (as_read now))) }
    ensures stays { Steps D.Disk disk.old disk.new OpensFiles }
    ensures kept { IfErr result (AreKept (D.tells disk.old) (D.tells disk.new)) }
    ensures any_moment { Decides D.Disk GivesSame GivesNext disk.old disk.new }
    ensures broken { IfErr result (OnDamage (λ damage.
        OnFiles D.Disk disk.old (λ files. IsBrokenThere (as_read files) damage))) }
    ensures spent { IfErr result (IsSpentAt limits.now.epochs (D.tells disk.old)) }
    ensures next { OnOk result (OnFiles D.Disk disk.old (λ files. HasNoEpoch limits.now.epochs files → ⊥)) }
    ensures cause { CountsFault (D.faults disk.old) (D.faults disk.new) result }
{
    let (journal, durable) = read_journal(alloc, disk)?;
    let paged = check_state(alloc, files, &journal, &durable, limits)?;
    begin_epoch(alloc, disk, files, journal, durable, paged)
}

/// Opens over whatever files are there: syncs every file, reads the journal, removes its other generations, and begins
/// the next epoch, which is one greater. Pages and large files aren't read or changed.
///
/// `Damaged` comes where the files aren't well formed, with the place and the rule: `Cut` with the gate's offset where
/// a generation is cut, `Spelling` or the rule of an entry with the payload's offset, `Name` and `Gap` with 0 where a
/// file can't have its name beside the state, and `Room` with 0 of the journal. `Spent` comes where the epoch would be
/// `limits.epochs` or more, or the journal would grow past 2^62 bytes. Until then the first generation may have been
/// laid or a generation of at most one byte mended, and nothing else was written. The other errors are that the disk
/// failed and that there was no memory; after an Err the files have to be opened anew.
///
/// The journal is read once, in pieces of up to 64 KiB. `docs/FORMATS.md` says what the files have in them.
pub fn recover<D: Disk>(alloc: Global, disk: &mut D, limits: &Limits) -> Result<Parts, Fault>
    ensures recovered { IfOk result (λ parts. OnBoth D.Disk disk.old disk.new (λ was now. (d : _)
        × FoldsTo (as_read was) d × (parts.durable ≡ raised d) × Owns parts.journal parts.durable now × AllQuiet now)) }
    // What the files denoted is denoted in the next epoch.
    ensures denotes { OnOk result (OnBoth D.Disk disk.old disk.new (λ was now. (durable : _) →
        Denotes (as_read was) durable → Denotes (as_read now) (next_epoch durable))) }
    ensures begun { IfOk result (λ parts. IsBegun parts.durable) }
    ensures roomy { IfOk result (λ parts. AreRoomy parts.durable) }
    ensures epoch { IfOk result (λ parts. IsEpoch limits.now.epochs parts.durable.epoch) }
    ensures named { IfOk result (λ parts. OnFiles D.Disk disk.old (λ files. (file : _) → IsThere (as_read files) file →
        IsNamed parts.durable.addresses file)) }
    ensures gapless { IfOk result (λ parts. OnFiles D.Disk disk.old (λ files.
        All (IsGapless (as_read files)) parts.durable.addresses)) }
    ensures counted { IfOk result (λ parts. length parts.paged.items ≡ length parts.durable.addresses) }
    ensures paged { IfOk result (λ parts. OnFiles D.Disk disk.old (λ files.
        ArePaged (as_read files) parts.durable.addresses parts.paged.items)) }
    ensures well { OnOk result (OnBoth D.Disk disk.old disk.new (λ was now.
        WellFormed (as_read was) → WellFormed (as_read now))) }
    ensures stays { Steps D.Disk disk.old disk.new OpensFiles }
    ensures kept { IfErr result (AreKept (D.tells disk.old) (D.tells disk.new)) }
    // A crash at any moment leaves the state from before, or that in the next epoch, where nothing was pending. Where
    // something was, it leaves what one at entry may leave, until all is synced.
    ensures any_moment { Within D.Disk disk.old disk.new (OnceQuiet LeavesOpened) }
    ensures once_quiet { OnOk result (WithinFrom D.Disk AnyFile disk.old disk.new LeavesOpened) }
    ensures damaged { IfErr result (IsIllFormed (D.tells disk.old)) }
    // What damage names is broken there: the rule, at the offset of the file.
    ensures broken { IfErr result (OnDamage (λ damage.
        OnFiles D.Disk disk.old (λ files. IsBrokenThere (as_read files) damage))) }
    // It comes exactly where there is no next epoch, if nothing else comes.
    ensures spent { IfErr result (IsSpentAt limits.now.epochs (D.tells disk.old)) }
    ensures next { OnOk result (OnFiles D.Disk disk.old (λ files. HasNoEpoch limits.now.epochs files → ⊥)) }
    ensures cause { CountsFault (D.faults disk.old) (D.faults disk.new) result }
{
    let files = disk.list(alloc)?;
    sync_all(disk, &files)?;
    open_synced(alloc, disk, &files, limits)
}
