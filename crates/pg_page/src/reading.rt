// The frames of a page, one at a time: each call reads the disk anew and keeps nothing.
ghost use Rattle.std.specs.Prelude.{◌≡◌, ◌<◌, ◌≤◌, ◌+◌, ◌^◌, ℕ, List, [], ◌∷◌, ◌++◌, length, IfOk, IfErr, IsSome};
ghost use Rattle.std.specs.Prelude.{OnOk, MatchOption};
ghost use Rattle.pg_disk.specs.Calls.{Reads};
ghost use Rattle.pg_disk.specs.Counts.{CountsFault, FaultCounts};
ghost use Rattle.pg_disk.specs.Image.{IsFileThere, Leaves};
ghost use Rattle.pg_disk.specs.Moments.{Within};
ghost use Rattle.pg_disk.specs.Sites.{OnAccounts, OnBytes, OnFiles, Steps};
ghost use Rattle.pg_gate.specs.Spans.{IsFailedOrDamaged};
ghost use Rattle.pg_page.specs.Faults.{BreaksOn, IsPageFault};
ghost use Rattle.pg_page.specs.Frames.{SpellsFrame, SpellsNone};
ghost use Rattle.pg_page.specs.Pages.{page_file};
ghost use Rattle.pg_page.specs.Places.{IsAt, IsNextPlace, IsPlace, ReadsFew, ReadsFrame, StandsAt, StandsSome};
ghost use Rattle.pg_page.specs.Places.{IsNextTo};

use crate::decoding::decode_frame;
use crate::frame::Frame;
use crate::place::Place;
use crate::places::{first_span, payload_of, span_after};
use crate::writer::page_file;
use pg_acks::Position;
use pg_bytes::Octets;
use pg_disk::{Damage, Disk, Fault, FileId, Rule};
use pg_gate::Span;
use std::alloc::Global;

// The greatest index of a frame: a page has at most 4,294,967,295 of them.
const LAST_INDEX: u32 = u32::MAX - 1;

/// The place of the page's first frame, and None exactly where the page has none. Reads at most 9 bytes, and no frame.
/// `Damaged` with the rule `Cut` and the gate's offset comes where the first batch is cut. The only other Err is that
/// the disk failed.
pub fn first_place<D: Disk>(disk: &mut D, address: u32, page: u64) -> Result<Option<Place>, Fault>
    requires { OnFiles D.Disk disk.old (IsFileThere (page_file address page)) }
    ensures next { IfOk result (λ next. OnBytes D.Disk disk.old (page_file address page) (λ bytes.
        IsNextPlace bytes page [] next)) }
    ensures short { OnOk result (OnBytes D.Disk disk.old (page_file address page) (λ bytes. length bytes < 2 ^ 64)) }
    ensures same { (n : ℕ) × Steps D.Disk disk.old disk.new (Reads n) }
    ensures taken { OnAccounts D.Disk disk.old disk.new (ReadsFew 9) }
    ensures any_moment { Within D.Disk disk.old disk.new Leaves }

    ensures damaged { IfErr result (IsPageFault (page_file address page)
        (BreaksOn D.Disk disk.old (page_file address page))) }
    ensures only { IfErr result IsFailedOrDamaged }
    ensures cause { CountsFault (D.faults disk.old) (D.faults disk.new) result }
{
    let span = first_span(disk, page_file(address, page))?;
    Ok(span.map(|span| Place {
        position: Position { page, index: 0 },
        offset: span.at,
    }))
}

/// The place of the frame behind the one at `after`, and None exactly where that is the page's last one. Reads at most
/// 18 bytes, and no frame. `Damaged` comes with the rule `Cut` and the gate's offset where the next batch is cut, and
/// with the rule `Name` and the offset 0 where it is one more than a page has positions for. The only other Err is
/// that the disk failed.
pub fn next_place<D: Disk>(disk: &mut D, address: u32, after: Place) -> Result<Option<Place>, Fault>
    requires there { OnFiles D.Disk disk.old (IsFileThere (page_file address after.position.page)) }
    requires place { OnBytes D.Disk disk.old (page_file address after.position.page) (IsPlace after) }
    ensures next { IfOk result (λ next. OnBytes D.Disk disk.old (page_file address after.position.page) (λ bytes.
        (before payload : _) → IsAt bytes after before payload →
        IsNextPlace bytes after.position.page (before ++ payload ∷ []) next)) }
    ensures short { OnOk result (OnBytes D.Disk disk.old (page_file address after.position.page) (λ bytes.
        length bytes < 2 ^ 64)) }
    ensures same { (n : ℕ) × Steps D.Disk disk.old disk.new (Reads n) }
    ensures taken { OnAccounts D.Disk disk.old disk.new (ReadsFew 18) }
    ensures any_moment { Within D.Disk disk.old disk.new Leaves }

    ensures damaged { IfErr result (IsPageFault (page_file address after.position.page)
        (BreaksOn D.Disk disk.old (page_file address after.position.page))) }
    ensures only { IfErr result IsFailedOrDamaged }
    ensures cause { CountsFault (D.faults disk.old) (D.faults disk.new) result }
{
    let file = page_file(address, after.position.page);
    let span = span_after(disk, file, after.offset)?;
    place_after(file, after.position, span)
}

// The place of the payload there, with the next position.
fn place_after(file: FileId, after: Position, span: Option<Span>) -> Result<Option<Place>, Fault>
    ensures next { IfOk result (IsNextTo after span) }
    ensures damaged { IfErr result (IsPageFault file (λ damage. (damage.rule ≡ Rule.Name) × (damage.at ≡ 0) ×
        (4294967294 ≤ after.index) × IsSome span)) }
    ensures only { IfErr result IsFailedOrDamaged }
    ensures cause { (counts : FaultCounts) → CountsFault counts counts result }
{
    let Some(span) = span else {
        return Ok(None);
    };
    if after.index >= LAST_INDEX {
        return Err(Fault::Damaged(Damage {
            file,
            at: 0,
            rule: Rule::Name,
        }));
    }
    let position = Position {
        page: after.page,
        index: after.index + 1,
    };
    Ok(Some(Place {
        position,
        offset: span.at,
    }))
}

/// The frame at this place, read anew. At Ok its payload was read, and at most 9 bytes more. `Damaged` with the rule
/// `Spelling` and the payload's offset comes where the payload is no frame. The other errors are that the disk failed
/// and that there was no memory.
pub fn read_frame<D: Disk>(
    alloc: Global,
    disk: &mut D,
    address: u32,
    place: Place,
) -> Result<Frame, Fault>
    requires there { OnFiles D.Disk disk.old (IsFileThere (page_file address place.position.page)) }
    requires place { OnBytes D.Disk disk.old (page_file address place.position.page) (IsPlace place) }
    ensures frame { IfOk result (λ frame. OnBytes D.Disk disk.old (page_file address place.position.page) (λ bytes.
        (before payload : _) → IsAt bytes place before payload → SpellsFrame payload frame)) }
    ensures taken { IfOk result (λ frame. OnAccounts D.Disk disk.old disk.new (ReadsFrame frame)) }
    ensures same { (n : ℕ) × Steps D.Disk disk.old disk.new (Reads n) }
    ensures any_moment { Within D.Disk disk.old disk.new Leaves }

    ensures damaged { IfErr result (IsPageFault (page_file address place.position.page)
        (BreaksOn D.Disk disk.old (page_file address place.position.page))) }
    ensures cause { CountsFault (D.faults disk.old) (D.faults disk.new) result }
{
    let file = page_file(address, place.position.page);
    let payload = payload_of(alloc, disk, file, place.offset)?;
    frame_of(alloc, file, place.offset, &payload)
}

// The frame that the payload at this offset spells.
fn frame_of(alloc: Global, file: FileId, offset: u64, payload: &Octets) -> Result<Frame, Fault>
    ensures frame { IfOk result (SpellsFrame payload.now) }
    ensures damaged { IfErr result (IsPageFault file (λ damage. (damage.rule ≡ Rule.Spelling) ×
        (damage.at ≡ offset) × SpellsNone payload.now)) }
    ensures cause { (counts : FaultCounts) → CountsFault counts counts result }
{
    match decode_frame(alloc, payload.as_slice())? {
        Some(frame) => Ok(frame),
        None => Err(Fault::Damaged(Damage {
            file,
            at: offset,
            rule: Rule::Spelling,
        })),
    }
}
