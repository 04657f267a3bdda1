// Where the frames of a page stand.
ghost use Rattle.std.specs.Prelude.{◌≡◌, ◌<◌, ◌+◌, ◌^◌, ℕ, [], ◌∷◌, ◌++◌, length, IfOk, OnOk, IfErr};
ghost use Rattle.pg_disk.specs.Calls.{Reads};
ghost use Rattle.pg_disk.specs.Counts.{CountsFault, FaultCounts};
ghost use Rattle.pg_disk.specs.Image.{IsFileThere, Leaves};
ghost use Rattle.pg_disk.specs.Moments.{Within};
ghost use Rattle.pg_disk.specs.Sites.{OnAccounts, OnBytes, OnFiles, Steps};
ghost use Rattle.pg_gate.specs.Spans.{IsFailedOrDamaged};
ghost use Rattle.pg_page.specs.Faults.{BreaksOn, IsPageFault};
ghost use Rattle.pg_page.specs.Places.{IsNextSpan, ReadsFew, ReadsPayload, StandsAt, StandsSome};

use crate::decoding::LONGEST_FRAME;
use pg_bytes::Octets;
use pg_disk::{Damage, Disk, Fault, FileId, Rule};
use pg_gate::{Span, read_span, span_behind};
use std::alloc::Global;

// The place of the page's first payload.
pub(crate) fn first_span<D: Disk>(disk: &mut D, file: FileId) -> Result<Option<Span>, Fault>
    requires { OnFiles D.Disk disk.old (IsFileThere file) }
    ensures next { IfOk result (λ next. OnBytes D.Disk disk.old file (λ bytes. IsNextSpan bytes [] next)) }
    ensures short { OnOk result (OnBytes D.Disk disk.old file (λ bytes. length bytes < 2 ^ 64)) }
    ensures same { (n : ℕ) × Steps D.Disk disk.old disk.new (Reads n) }
    ensures taken { OnAccounts D.Disk disk.old disk.new (ReadsFew 9) }
    ensures any_moment { Within D.Disk disk.old disk.new Leaves }
    ensures damaged { IfErr result (IsPageFault file (BreaksOn D.Disk disk.old file)) }
    ensures only { IfErr result IsFailedOrDamaged }
    ensures cause { CountsFault (D.faults disk.old) (D.faults disk.new) result }
{
    let end = disk.length(file)?;
    span_behind(disk, file, 0, end)
}

// The place of the payload that stands at this offset of a page of `end` bytes. On an honest disk it is there.
pub(crate) fn span_at<D: Disk>(
    disk: &mut D,
    file: FileId,
    offset: u64,
    end: u64,
) -> Result<Span, Fault>
    requires there { OnFiles D.Disk disk.old (IsFileThere file) }
    requires size { OnBytes D.Disk disk.old file (λ bytes. end ≡ length bytes) }
    requires stands { OnBytes D.Disk disk.old file (StandsSome offset) }
    ensures span { IfOk result (λ span. OnBytes D.Disk disk.old file (λ bytes. (before payload : _) →
        StandsAt bytes offset before payload → (span.at ≡ offset) × (span.length ≡ length payload))) }
    ensures in_file { IfOk result (λ span. span.at + span.length < end) }
    ensures same { (n : ℕ) × Steps D.Disk disk.old disk.new (Reads n) }
    ensures taken { OnAccounts D.Disk disk.old disk.new (ReadsFew 9) }
    ensures any_moment { Within D.Disk disk.old disk.new Leaves }
    ensures damaged { IfErr result (IsPageFault file (BreaksOn D.Disk disk.old file)) }
    ensures only { IfErr result IsFailedOrDamaged }
    ensures cause { CountsFault (D.faults disk.old) (D.faults disk.new) result }
{
    match span_behind(disk, file, offset.saturating_sub(9), end)? {
        Some(span) => Ok(span),
        None => Err(Fault::Damaged(Damage {
            file,
            at: offset,
            rule: Rule::Cut,
        })),
    }
}

// The place of the payload behind the one that stands at this offset.
pub(crate) fn span_after<D: Disk>(
    disk: &mut D,
    file: FileId,
    offset: u64,
) -> Result<Option<Span>, Fault>
    requires there { OnFiles D.Disk disk.old (IsFileThere file) }
    requires stands { OnBytes D.Disk disk.old file (StandsSome offset) }
    ensures next { IfOk result (λ next. OnBytes D.Disk disk.old file (λ bytes. (before payload : _) →
        StandsAt bytes offset before payload → IsNextSpan bytes (before ++ payload ∷ []) next)) }
    ensures short { OnOk result (OnBytes D.Disk disk.old file (λ bytes. length bytes < 2 ^ 64)) }
    ensures same { (n : ℕ) × Steps D.Disk disk.old disk.new (Reads n) }
    ensures taken { OnAccounts D.Disk disk.old disk.new (ReadsFew 18) }
    ensures any_moment { Within D.Disk disk.old disk.new Leaves }
    ensures damaged { IfErr result (IsPageFault file (BreaksOn D.Disk disk.old file)) }
    ensures only { IfErr result IsFailedOrDamaged }
    ensures cause { CountsFault (D.faults disk.old) (D.faults disk.new) result }
{
    let end = disk.length(file)?;
    let span = span_at(disk, file, offset, end)?;
    span_behind(disk, file, span.at + span.length, end)
}

// The place of the payload that stands at this offset, where it isn't longer than any frame is.
fn frame_span<D: Disk>(disk: &mut D, file: FileId, offset: u64) -> Result<Span, Fault>
    requires there { OnFiles D.Disk disk.old (IsFileThere file) }
    requires stands { OnBytes D.Disk disk.old file (StandsSome offset) }
    ensures span { IfOk result (λ span. OnBytes D.Disk disk.old file (λ bytes. (before payload : _) →
        StandsAt bytes offset before payload → (span.at ≡ offset) × (span.length ≡ length payload))) }
    ensures same { (n : ℕ) × Steps D.Disk disk.old disk.new (Reads n) }
    ensures taken { OnAccounts D.Disk disk.old disk.new (ReadsFew 9) }
    ensures any_moment { Within D.Disk disk.old disk.new Leaves }
    ensures damaged { IfErr result (IsPageFault file (BreaksOn D.Disk disk.old file)) }
    ensures cause { CountsFault (D.faults disk.old) (D.faults disk.new) result }
{
    let end = disk.length(file)?;
    let span = span_at(disk, file, offset, end)?;
    not_too_long(file, span)
}

// The place, unless no frame is as long.
fn not_too_long(file: FileId, span: Span) -> Result<Span, Fault>
    ensures same { IfOk result (λ same. same ≡ span) }
    ensures damaged { IfErr result (IsPageFault file (λ damage. (damage.rule ≡ Rule.Spelling) × (damage.at ≡ span.at) ×
        (106410 < span.length))) }
    ensures cause { (counts : FaultCounts) → CountsFault counts counts result }
{
    if span.length > LONGEST_FRAME {
        return Err(Fault::Damaged(Damage {
            file,
            at: span.at,
            rule: Rule::Spelling,
        }));
    }
    Ok(span)
}

// The payload that stands at this offset.
pub(crate) fn payload_of<D: Disk>(
    alloc: Global,
    disk: &mut D,
    file: FileId,
    offset: u64,
) -> Result<Octets, Fault>
    requires there { OnFiles D.Disk disk.old (IsFileThere file) }
    requires stands { OnBytes D.Disk disk.old file (StandsSome offset) }
    ensures payload { IfOk result (λ octets. OnBytes D.Disk disk.old file (λ bytes. (before payload : _) →
        StandsAt bytes offset before payload → octets ≡ payload)) }
    ensures taken { IfOk result (λ octets. OnAccounts D.Disk disk.old disk.new (ReadsPayload (length octets))) }
    ensures same { (n : ℕ) × Steps D.Disk disk.old disk.new (Reads n) }
    ensures any_moment { Within D.Disk disk.old disk.new Leaves }
    ensures damaged { IfErr result (IsPageFault file (BreaksOn D.Disk disk.old file)) }
    ensures cause { CountsFault (D.faults disk.old) (D.faults disk.new) result }
{
    let span = frame_span(disk, file, offset)?;
    read_span(alloc, disk, file, span)
}
