// A page that is there is opened, as after a crash.
ghost use Rattle.std.specs.Prelude.{◌≡◌, ◌<◌, length, IfOk, IfErr, OnOk};
ghost use Rattle.pg_disk.specs.declared.file_id.Kind.TheVariants.{Page as OfPage};
ghost use Rattle.pg_disk.specs.Counts.{CountsFault, FaultCounts};
ghost use Rattle.pg_disk.specs.Image.{IsFileThere, LeavesAt, Only};
ghost use Rattle.pg_disk.specs.Moments.{Within, WithinFrom};
ghost use Rattle.pg_disk.specs.Sites.{OnBytesThen, OnFiles, OnTaken, Steps};
ghost use Rattle.pg_gate.specs.Gated.{counted_length, file_of};
ghost use Rattle.pg_gate.specs.Spans.{KeepsAsRead, KeepsAtRest, Occupy, ReadsAndChanges, ReadsWithin, StaysOrMends};
ghost use Rattle.pg_page.specs.Faults.{BreaksOn, IsPageFault};
ghost use Rattle.pg_page.specs.Pages.{page_file};
ghost use Rattle.pg_page.specs.Writing.{OpensAs, address_of, page_of};

use crate::writer::{PageWriter, page_file};
use pg_disk::{Damage, Disk, Fault, Rule};
use pg_gate::{Rest, Span, scan};
use std::alloc::Global;

impl PageWriter {
    /// Opens a page that is there, to go on behind its frames: syncs it, mends it as a gated file, and counts its
    /// batches by their gates and lengths. No frame is read. `Damaged` comes with the rule `Cut` and the gate's offset
    /// where a batch is cut, and with the rule `Name` and the offset 0 where there are more than 4,294,967,295. The
    /// other errors are that the disk failed and that there was no memory.
    pub fn open<D: Disk>(
        alloc: Global,
        disk: &mut D,
        address: u32,
        page: u64,
    ) -> Result<PageWriter, Fault>
        requires { OnFiles D.Disk disk.old (IsFileThere (page_file address page)) }
        ensures page { IfOk result (λ writer. (address_of writer ≡ address) × (page_of writer ≡ page)) }
        ensures opened { IfOk result (λ writer. OnBytesThen D.Disk disk.old disk.new (page_file address page)
            (OpensAs writer)) }
        ensures stays { Steps D.Disk disk.old disk.new (ReadsAndChanges (page_file address page) StaysOrMends) }
        ensures taken { OnTaken D.Disk disk.old disk.new (page_file address page) ReadsWithin }
        ensures any_moment { Within D.Disk disk.old disk.new (LeavesAt (page_file address page) KeepsAtRest) }
        ensures once_synced { OnOk result (WithinFrom D.Disk (Only (page_file address page)) disk.old disk.new
            (LeavesAt (page_file address page) KeepsAsRead)) }

        ensures damaged { IfErr result (IsPageFault (page_file address page)
            (BreaksOn D.Disk disk.old (page_file address page))) }
        ensures cause { CountsFault (D.faults disk.old) (D.faults disk.new) result }
    {
        let (rest, spans) = scan(alloc, disk, page_file(address, page))?;
        writer_of(rest, &spans)
    }
}

// The writer that goes on behind the batches at these places, unless there are more than a page has positions for.
fn writer_of(rest: Rest, spans: &[Span]) -> Result<PageWriter, Fault>
    requires kind { (file_of rest).kind ≡ OfPage }
    requires lie { Occupy spans.now (counted_length rest) }
    ensures same { IfOk result (λ writer. (writer.rest ≡ rest) × (writer.frames ≡ length spans.now)) }
    ensures damaged { IfErr result (IsPageFault (file_of rest) (λ damage. (damage.rule ≡ Rule.Name) × (damage.at ≡ 0) ×
        (4294967295 < length spans.now))) }
    ensures cause { (counts : FaultCounts) → CountsFault counts counts result }
{
    match u32::try_from(spans.len()) {
        Ok(frames) => Ok(PageWriter { rest, frames }),
        Err(_) => Err(Fault::Damaged(Damage {
            file: rest.file(),
            at: 0,
            rule: Rule::Name,
        })),
    }
}
