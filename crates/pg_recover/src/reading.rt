// The journal is found and read, in large pieces.
ghost use Rattle.std.specs.Prelude.{◌≡◌, ◌≤◌, ◌+◌, ℕ, length, IfOk, IfErr, OnOk};
ghost use Rattle.pg_disk.specs.Sites.{OnBoth, OnBytes, OnFiles, Steps};
ghost use Rattle.pg_disk.specs.Account.{AllQuiet};
ghost use Rattle.pg_disk.specs.Calls.{Reads};
ghost use Rattle.pg_disk.specs.Counts.{CountsFault};
ghost use Rattle.pg_disk.specs.Image.{IsFileThere, Leaves};
ghost use Rattle.pg_disk.specs.Moments.{Within};
ghost use Rattle.pg_disk.specs.Views.{as_read};
ghost use Rattle.pg_journal.specs.Looks.{ReadsGenerations};
ghost use Rattle.pg_fold.specs.Sound.{IsSound};
ghost use Rattle.pg_recover.specs.Damaging.{IsBrokenThere};
ghost use Rattle.pg_recover.specs.Folding.{FoldsFrom, IsBrokenAmong, IsDamageOnly};
ghost use Rattle.pg_recover.specs.Places.{Covers};
ghost use Rattle.pg_gate.specs.Payloads.{AreInside, IsInside, payload_at, payloads_at};
ghost use Rattle.pg_recover.specs.Recovered.{AreKept, KeepsFiles};
ghost use Rattle.pg_recover.specs.Said.{IsReadFrom, LeavesSaid};

use crate::folding::fold_group;
use crate::grouping::first_group;
use pg_disk::{Disk, Fault, FileId};
use pg_fold::Durable;
use pg_gate::{Span, read_span};
use pg_journal::Journal;
use std::alloc::Global;

// Reads the bytes of a place, and applies the entries of the payloads in it.
fn read_group<D: Disk>(
    alloc: Global,
    disk: &mut D,
    file: FileId,
    cover: Span,
    spans: &[Span],
    durable: Durable,
) -> Result<Durable, Fault>
    requires there { OnFiles D.Disk disk.old (IsFileThere file) }
    requires covers { Covers cover spans.now }
    requires sound { IsSound durable }
    ensures folded { IfOk result (λ after. OnBytes D.Disk disk.old file (λ bytes. IsInside (length bytes) cover →
        FoldsFrom durable (payloads_at bytes spans.now) after)) }
    ensures sound { IfOk result IsSound }
    ensures same { (n : ℕ) × Steps D.Disk disk.old disk.new (Reads n) }
    ensures any_moment { Within D.Disk disk.old disk.new Leaves }
    ensures damaged { IfErr result (IsDamageOnly (λ damage. OnBytes D.Disk disk.old file (λ bytes.
        IsInside (length bytes) cover → IsBrokenAmong (payload_at bytes) file durable spans.now damage))) }
    ensures cause { CountsFault (D.faults disk.old) (D.faults disk.new) result }
{
    let bytes = read_span(alloc, disk, file, cover)?;
    fold_group(alloc, file, bytes.as_slice(), cover, spans, durable)
}

// Applies the entries of the payloads at these places of the file.
fn read_payloads<D: Disk>(
    alloc: Global,
    disk: &mut D,
    file: FileId,
    spans: &[Span],
    mut durable: Durable,
) -> Result<Durable, Fault>
    requires there { OnFiles D.Disk disk.old (IsFileThere file) }
    requires sound { IsSound durable }
    ensures folded { IfOk result (λ after. OnBytes D.Disk disk.old file (λ bytes. AreInside (length bytes) spans.now →
        FoldsFrom durable (payloads_at bytes spans.now) after)) }
    ensures sound { IfOk result IsSound }
    ensures same { (n : ℕ) × Steps D.Disk disk.old disk.new (Reads n) }
    ensures any_moment { Within D.Disk disk.old disk.new Leaves }
    ensures damaged { IfErr result (IsDamageOnly (λ damage. OnBytes D.Disk disk.old file (λ bytes.
        AreInside (length bytes) spans.now → IsBrokenAmong (payload_at bytes) file durable spans.now damage))) }
    ensures cause { CountsFault (D.faults disk.old) (D.faults disk.new) result }
{
    let mut rest = spans;
    'groups: while !rest.is_empty() {
        let (count, cover) = first_group(rest);
        let (group, behind) = rest.split_at(count);
        durable = read_group(alloc, disk, file, cover, group, durable)?;
        rest = behind;
    }
    Ok(durable)
}

// Finds the journal, and gives the state that its entries lead to.
pub(crate) fn read_journal<D: Disk>(
    alloc: Global,
    disk: &mut D,
) -> Result<(Journal, Durable), Fault>
    requires { OnFiles D.Disk disk.old AllQuiet }
    ensures found { IfOk result (λ found. OnBoth D.Disk disk.old disk.new (IsReadFrom found.0 found.1)) }
    ensures sound { IfOk result (λ found. IsSound found.1) }
    ensures stays { Steps D.Disk disk.old disk.new ReadsGenerations }
    ensures keeps { OnOk result (Steps D.Disk disk.old disk.new KeepsFiles) }
    ensures kept { IfErr result (AreKept (D.tells disk.old) (D.tells disk.new)) }
    ensures any_moment { Within D.Disk disk.old disk.new LeavesSaid }
    ensures damaged { IfErr result (IsDamageOnly (λ damage.
        OnFiles D.Disk disk.old (λ files. IsBrokenThere (as_read files) damage))) }
    ensures cause { CountsFault (D.faults disk.old) (D.faults disk.new) result }
{
    let (journal, spans) = Journal::find(alloc, disk)?;
    let durable = read_payloads(alloc, disk, journal.file(), &spans, Durable::fresh(alloc))?;
    Ok((journal, durable))
}
