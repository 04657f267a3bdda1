// The generations are gone through from the last one back, until one has a batch.
ghost use Rattle.std.specs.Prelude.{◌≡◌, ℕ, All, IfOk, IfErr, OnErr, MatchOption};
ghost use Rattle.pg_disk.specs.Calls.{Reads};
ghost use Rattle.pg_disk.specs.Counts.{CountsFault};
ghost use Rattle.pg_disk.specs.Image.{Leaves};
ghost use Rattle.pg_disk.specs.Moments.{Within};
ghost use Rattle.pg_disk.specs.Sites.{OnAccounts, OnBoth, OnFiles, Steps};
ghost use Rattle.pg_gate.specs.Spans.{payload_bytes, spans_of};
ghost use Rattle.pg_journal.specs.Generations.{HasNoGeneration, HasNoneThere, IsGeneration};
ghost use Rattle.pg_disk.specs.Views.{as_read};
ghost use Rattle.pg_journal.specs.Looks.{AreGenerations, IsCutGeneration, IsFound, KeepsAtDamage, LeavesJournal};
ghost use Rattle.pg_journal.specs.Looks.{ReadsGenerations, TakesWithin};

use crate::Journal;
use pg_disk::{Disk, Fault, FileId, Kind};
use pg_gate::{Span, peek, scan};
use std::alloc::Global;

// Scans the generations until one has a batch, and answers that one. Where none has, it is the last one that is there.
pub(crate) fn scan_back<D: Disk>(
    alloc: Global,
    disk: &mut D,
    mut generations: Vec<FileId>,
) -> Result<Option<(Journal, Vec<Span>)>, Fault>
    requires kinds { All (λ file. file.kind ≡ Kind.Journal) generations.items }
    requires listed { OnFiles D.Disk disk.old (AreGenerations generations.items) }
    ensures found { IfOk result (λ o. OnBoth D.Disk disk.old disk.new (λ was now. MatchOption o
        (HasNoneThere (as_read was) × HasNoneThere (as_read now)) (λ found. IsFound found.0 found.1.items was now))) }
    ensures stays { Steps D.Disk disk.old disk.new ReadsGenerations }
    ensures taken { IfOk result (λ o. OnAccounts D.Disk disk.old disk.new (λ was now. MatchOption o
        (TakesWithin 0 was now) (λ found. TakesWithin (payload_bytes found.1.items) was now))) }
    ensures taken_err { OnErr result (OnAccounts D.Disk disk.old disk.new (TakesWithin 0)) }
    ensures any_moment { Within D.Disk disk.old disk.new LeavesJournal }
    ensures damaged { IfErr result (IsCutGeneration (D.tells disk.old)) }
    ensures kept { IfErr result (KeepsAtDamage (D.tells disk.old) (D.tells disk.new)) }
    ensures cause { CountsFault (D.faults disk.old) (D.faults disk.new) result }
{
    let mut last = None;
    'generations: while let Some(file) = generations.pop() {
        let (rest, spans) = scan(alloc, disk, file)?;
        let found = (Journal { rest }, spans);
        if !found.1.is_empty() {
            return Ok(Some(found));
        }
        last = last.or(Some(found));
    }
    Ok(last)
}

// The last generation that has a batch, with the places of its payloads.
pub(crate) fn peek_back<D: Disk>(
    alloc: Global,
    disk: &mut D,
    mut generations: Vec<FileId>,
) -> Result<Option<(FileId, Vec<Span>)>, Fault>
    requires kinds { All (λ file. file.kind ≡ Kind.Journal) generations.items }
    requires listed { OnFiles D.Disk disk.old (AreGenerations generations.items) }
    ensures found { IfOk result (λ o. OnFiles D.Disk disk.old (λ files. MatchOption o (HasNoGeneration (as_read files))
        (λ found. (batches : _) × IsGeneration (as_read files) found.0 batches ×
        (found.1.items ≡ spans_of 0 batches)))) }
    ensures same { (n : ℕ) × Steps D.Disk disk.old disk.new (Reads n) }
    ensures any_moment { Within D.Disk disk.old disk.new Leaves }
    ensures damaged { IfErr result (IsCutGeneration (D.tells disk.old)) }
    ensures cause { CountsFault (D.faults disk.old) (D.faults disk.new) result }
{
    'generations: while let Some(file) = generations.pop() {
        let spans = peek(alloc, disk, file)?;
        if !spans.is_empty() {
            return Ok(Some((file, spans)));
        }
    }
    Ok(None)
}
