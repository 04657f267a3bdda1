// The next epoch is begun.
ghost use Rattle.std.specs.Prelude.{◌≡◌, ◌<◌, ◌≤◌, ◌+◌, ◌^◌, None, map, IfOk, IfErr, OnOk};
ghost use Rattle.pg_disk.specs.Sites.{OnBoth, OnFiles, Steps};
ghost use Rattle.pg_disk.specs.Account.{AllQuiet};
ghost use Rattle.pg_disk.specs.Counts.{CountsFault};
ghost use Rattle.pg_disk.specs.Moments.{Within};
ghost use Rattle.pg_disk.specs.Views.{as_read};
ghost use Rattle.pg_journal.specs.Stands.{counted};
ghost use Rattle.pg_recover.specs.Denotation.{raised};
ghost use Rattle.pg_fold.specs.Sound.{IsSound};
ghost use Rattle.pg_recover.specs.Listing.{AreListed};
ghost use Rattle.pg_recover.specs.Raising.{IsFailedOrMemory, IsReady, IsUnfit, LeavesRaised};
ghost use Rattle.pg_recover.specs.Recovered.{OpensFiles, Owns};
ghost use Rattle.pg_recover.specs.Said.{KeepsWhole};
ghost use Rattle.pg_recover.specs.Viewing.{is_paged};
ghost use Rattle.pg_recover.specs.WellFormed.{AreRoomy};

use crate::listing::listing_damage;
use crate::paging::paged_addresses;
use crate::recovering::Parts;
use crate::removing::remove_others;
use crate::room::is_roomy;
use pg_disk::{Damage, Disk, Fault, FileId, Rule};
use pg_fold::Durable;
use pg_journal::Journal;
use pg_msg::Limits;
use pg_records::{Entry, encode_batch};
use std::alloc::Global;

// The greatest counted length, in bytes, of a journal that has room for the batch of an epoch.
const FULL: u64 = (1 << 62) - 14;

// Whether the state may stand beside these files, and has a next epoch. Tells of each address whether it has a page.
pub(crate) fn check_state(
    alloc: Global,
    files: &[FileId],
    journal: &Journal,
    durable: &Durable,
    limits: &Limits,
) -> Result<Vec<bool>, Fault>
    requires { IsSound durable.now }
    ensures paged { IfOk result (λ paged. paged.items ≡ map (is_paged files.now) durable.now.addresses) }
    ensures listed { OnOk result (AreListed durable.now.addresses None files.now) }
    ensures roomy { OnOk result (AreRoomy durable.now) }
    ensures next { OnOk result (durable.now.epoch + 1 < limits.now.epochs) }
    ensures fits { OnOk result (durable.now.epoch + 1 < 2 ^ 32) }
    ensures room { OnOk result (counted journal.now + 14 ≤ 2 ^ 62) }
    ensures unfit { IfErr result (IsUnfit files.now journal.now durable.now limits.now.epochs) }
{
    if let Some(damage) = listing_damage(files, durable.addresses.as_slice()) {
        return Err(Fault::Damaged(damage));
    }
    if !is_roomy(alloc, durable)? {
        return Err(Fault::Damaged(Damage {
            file: journal.file(),
            at: 0,
            rule: Rule::Room,
        }));
    }
    if limits.epochs.saturating_sub(1) <= durable.epoch || journal.length() > FULL {
        return Err(Fault::Spent);
    }
    Ok(paged_addresses(alloc, files, durable.addresses.as_slice())?)
}

// Removes the other generations, and adds the batch of the next epoch.
pub(crate) fn begin_epoch<D: Disk>(
    alloc: Global,
    disk: &mut D,
    files: &[FileId],
    journal: Journal,
    mut durable: Durable,
    paged: Vec<bool>,
) -> Result<Parts, Fault>
    requires ready { OnFiles D.Disk disk.old (IsReady journal durable files.now) }
    requires next { durable.epoch + 1 < 2 ^ 32 }
    requires room { counted journal + 14 ≤ 2 ^ 62 }
    ensures raised { IfOk result (λ parts. parts.durable ≡ raised durable) }
    ensures paged { IfOk result (λ parts. parts.paged ≡ paged) }
    ensures owned { IfOk result (λ parts. OnBoth D.Disk disk.old disk.new (λ _ now.
        Owns parts.journal parts.durable now × AllQuiet now)) }
    ensures keeps { OnOk result (OnBoth D.Disk disk.old disk.new (λ was now. KeepsWhole (as_read was) (as_read now))) }
    ensures stays { Steps D.Disk disk.old disk.new OpensFiles }
    ensures any_moment { Within D.Disk disk.old disk.new (LeavesRaised journal durable) }
    ensures only { IfErr result IsFailedOrMemory }
    ensures cause { CountsFault (D.faults disk.old) (D.faults disk.new) result }
{
    let epoch = durable.epoch + 1;
    let batch = encode_batch(alloc, &[Entry::Epoch { epoch }])?;
    remove_others(disk, files, journal.file())?;
    let journal = journal.append(disk, &batch)?;
    durable.epoch = epoch;
    Ok(Parts {
        journal,
        durable,
        paged,
    })
}
