// The journal over its generations.
ghost use Rattle.std.specs.Prelude.{◌≡◌, ◌<◌, ◌+◌, ◌^◌, ◌↔◌, ℕ, [], ◌∷◌, ◌++◌, length};
ghost use Rattle.std.specs.Prelude.{IfOk, IfErr, OnErr, IsErrOf, MatchOption};
ghost use Rattle.std.specs.FinMap.{get};
ghost use Rattle.pg_disk.specs.Calls.{ChangesFile, Reads};
ghost use Rattle.pg_disk.specs.Counts.{CountsFault};
ghost use Rattle.pg_disk.specs.Image.{Leaves};
ghost use Rattle.pg_disk.specs.Moments.{Within};
ghost use Rattle.pg_disk.specs.Sites.{OnAccounts, OnBoth, OnFiles, Steps};
ghost use Rattle.pg_gate.specs.Gated.{Anyhow, IsFailedOrSpent};
ghost use Rattle.pg_gate.specs.Spans.{payload_bytes, spans_of};
ghost use Rattle.pg_journal.specs.Generations.{GoesOn, HasNoGeneration, IsGeneration, JournalOf};
ghost use Rattle.pg_disk.specs.Views.{as_read};
ghost use Rattle.pg_journal.specs.Looks.{IsCutGeneration, KeepsAtDamage, LeavesJournal, LeavesOldOrNew};
ghost use Rattle.pg_journal.specs.Looks.{ReadsGenerations, TakesWithin};
ghost use Rattle.pg_journal.specs.Stands.{Stands, StaysOrComesToRest, counted, name_of};

use crate::backwards::{peek_back, scan_back};
use crate::generations::generations;
use pg_bytes::Octets;
use pg_disk::{Disk, Fault, FileId, Kind};
use pg_gate::{Rest, Span, lay};
use std::alloc::Global;

// The first generation.
const FIRST: FileId = FileId {
    kind: Kind::Journal,
    owner: 0,
    number: 1,
};

/// The journal, at rest in the generation with which it goes on. As with a `Rest`, after an Err of a call that takes it
/// by value it has to be found anew.
#[derive(Debug, PartialEq, Eq, Drop)]
pub struct Journal {
    pub(crate) rest: Rest,
}

impl Journal {
    /// Finds the journal, with the places of its payloads in their order: it scans the generations from the last one
    /// back, until one has a batch. Where none has, the last one that is there goes on; where none is there, the first
    /// one is laid. Each generation that is scanned is synced and mended; those before the one with a batch aren't
    /// read. Those of owners other than 0 are read like the others. `Damaged` with the rule `Cut` and the gate's offset
    /// comes where one that is read is cut; the other errors are that the disk failed and that there was no memory.
    pub fn find<D: Disk>(alloc: Global, disk: &mut D) -> Result<(Journal, Vec<Span>), Fault>
        ensures found { IfOk result (λ found. OnBoth D.Disk disk.old disk.new (λ was now. (batches : _) ×
            JournalOf (as_read was) batches × Stands found.0 batches now × (found.1.items ≡ spans_of 0 batches))) }
        ensures goes_on { IfOk result (λ found. OnFiles D.Disk disk.old (λ files.
            GoesOn (as_read files) (name_of found.0))) }
        ensures others { IfOk result (λ found. OnBoth D.Disk disk.old disk.new (λ was now.
            (file : _) → file.kind ≡ Kind.Journal →
            (file ≡ name_of found.0 → ⊥) → StaysOrComesToRest (get was file) (get now file))) }
        ensures stays { Steps D.Disk disk.old disk.new ReadsGenerations }
        ensures taken { IfOk result (λ found. OnAccounts D.Disk disk.old disk.new
            (TakesWithin (payload_bytes found.1.items))) }
        ensures taken_err { OnErr result (OnAccounts D.Disk disk.old disk.new (TakesWithin 0)) }
        ensures any_moment { Within D.Disk disk.old disk.new LeavesJournal }

        ensures damaged { IfErr result (IsCutGeneration (D.tells disk.old)) }
        ensures kept { IfErr result (KeepsAtDamage (D.tells disk.old) (D.tells disk.new)) }
        ensures cause { CountsFault (D.faults disk.old) (D.faults disk.new) result }
    {
        let generations = generations(alloc, disk)?;
        if let Some(found) = scan_back(alloc, disk, generations)? {
            return Ok(found);
        }
        let rest = lay(disk, FIRST)?;
        Ok((Journal { rest }, Vec::new(alloc)))
    }

    /// The file that the journal is in, and the places of its payloads in their order, without changing anything. None
    /// where no generation has a batch. The errors are those of `find`.
    pub fn peek<D: Disk>(alloc: Global, disk: &mut D) -> Result<Option<(FileId, Vec<Span>)>, Fault>
        ensures found { IfOk result (λ o. OnFiles D.Disk disk.old (λ files.
            MatchOption o (HasNoGeneration (as_read files))
            (λ found. (batches : _) × IsGeneration (as_read files) found.0 batches ×
            (found.1.items ≡ spans_of 0 batches)))) }
        ensures same { (n : ℕ) × Steps D.Disk disk.old disk.new (Reads n) }
        ensures any_moment { Within D.Disk disk.old disk.new Leaves }

        ensures damaged { IfErr result (IsCutGeneration (D.tells disk.old)) }
        ensures cause { CountsFault (D.faults disk.old) (D.faults disk.new) result }
    {
        let generations = generations(alloc, disk)?;
        peek_back(alloc, disk, generations)
    }

    /// Adds a batch. It counts from some moment within the call on, and at no moment in part. `Spent` comes before any
    /// call of the disk, where the journal's file would grow past 2^62 bytes. The only other Err is that the disk
    /// failed: then the batch counts or it doesn't. Takes no memory.
    pub fn append<D: Disk>(self, disk: &mut D, batch: &Octets) -> Result<Journal, Fault>
        requires { OnFiles D.Disk disk.old (λ files. (batches : _) × Stands self batches files) }
        ensures file { IfOk result (λ next. name_of next ≡ name_of self) }
        ensures grown { IfOk result (λ next. counted next ≡ counted self + length batch.now + 9) }
        ensures stands { IfOk result (λ next. OnBoth D.Disk disk.old disk.new (λ was now. (batches : _) →
            Stands self batches was → Stands next (batches ++ batch.now ∷ []) now)) }
        ensures other_files { Steps D.Disk disk.old disk.new (ChangesFile (name_of self) Anyhow) }
        ensures any_moment { Within D.Disk disk.old disk.new (LeavesOldOrNew self batch.now) }

        ensures spent { IsErrOf result Fault.Spent ↔ (2 ^ 62 < counted self + length batch.now + 9) }
        ensures untouched { IsErrOf result Fault.Spent → disk.new ≡ disk.old }
        ensures only { IfErr result IsFailedOrSpent }
        ensures cause { CountsFault (D.faults disk.old) (D.faults disk.new) result }
    {
        let rest = self.rest.append(disk, batch.as_slice())?;
        Ok(Journal { rest })
    }

    /// The counted length of the journal's file, in bytes.
    pub fn length(&self) -> u64
        ensures { result ≡ counted self.now }
    {
        self.rest.length()
    }

    /// Which file the journal is in.
    pub fn file(&self) -> FileId
        ensures { result ≡ name_of self.now }
    {
        self.rest.file()
    }
}
