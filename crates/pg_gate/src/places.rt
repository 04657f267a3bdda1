// The places of the counted payloads, and the bytes of one.
ghost use Rattle.std.specs.Prelude.{◌≡◌, ◌<◌, ◌+◌, ◌-◌, ◌^◌, ℕ, length, slice_get, Some};
ghost use Rattle.std.specs.Prelude.{IfOk, OnOk, IfErr, OnErr, IfSome};
ghost use Rattle.pg_disk.specs.Calls.{Reads};
ghost use Rattle.pg_disk.specs.Counts.{CountsFault};
ghost use Rattle.pg_disk.specs.Image.{IsFileThere, Leaves};
ghost use Rattle.pg_disk.specs.Moments.{Within};
ghost use Rattle.pg_disk.specs.Sites.{OnBytes, OnFiles, OnTaken, Steps};
ghost use Rattle.pg_gate.specs.Gated.{Batches};
ghost use Rattle.pg_gate.specs.Payloads.{IsCutBehind, gate_at, payload_at, span_at};
ghost use Rattle.pg_gate.specs.Spans.{HasSpans, IsCut, IsCutFault, IsFailedOrDamaged, IsNext, IsNotSpent};
ghost use Rattle.pg_gate.specs.Spans.{Occupy, ReadsGateAt, ReadsGates, ReadsWithin};

use crate::Span;
use crate::spans::{next_span, walk};
use pg_bytes::Octets;
use pg_disk::{Damage, Disk, Fault, FileId, Rule};
use std::alloc::Global;

/// The places of the payloads of the counted batches, in their order. Reads the gates and lengths alone. `Damaged`
/// with the rule `Cut` and the gate's offset comes where an open gate has no whole batch behind it. The other errors
/// are that the disk failed and that there was no memory.
pub fn peek<D: Disk>(alloc: Global, disk: &mut D, file: FileId) -> Result<Vec<Span>, Fault>
    requires { OnFiles D.Disk disk.old (IsFileThere file) }
    ensures places { IfOk result (λ spans. OnBytes D.Disk disk.old file (λ bytes. HasSpans bytes spans.items)) }
    ensures lie { IfOk result (λ spans. (counted : ℕ) × (counted < 2 ^ 64) × Occupy spans.items counted) }
    ensures same { (n : ℕ) × Steps D.Disk disk.old disk.new (Reads n) }
    ensures taken { IfOk result (λ spans. OnTaken D.Disk disk.old disk.new file (λ bytes.
        ReadsGates bytes spans.items)) }
    ensures taken_err { OnErr result (OnTaken D.Disk disk.old disk.new file (λ bytes.
        ReadsWithin bytes)) }
    ensures any_moment { Within D.Disk disk.old disk.new Leaves }

    ensures damaged { IfErr result (IsCutFault file (λ at. OnBytes D.Disk disk.old file (λ bytes. IsCut bytes at))) }
    ensures only { IfErr result IsNotSpent }
    ensures cause { CountsFault (D.faults disk.old) (D.faults disk.new) result }
{
    let end = disk.length(file)?;
    if end <= 1 {
        return Ok(Vec::new(alloc));
    }
    let (spans, _) = walk(alloc, disk, file, end)?;
    Ok(spans)
}

/// The place of the payload behind the gate at this offset of a file of `end` bytes, in one read of at most 9 bytes.
/// None comes where this gate isn't open, past the file's end, and in a file of at most one byte. `Damaged` with the
/// rule `Cut` and the gate's offset comes where an open gate has no whole batch behind it. The only other error is
/// that the disk failed.
pub fn span_behind<D: Disk>(
    disk: &mut D,
    file: FileId,
    gate: u64,
    end: u64,
) -> Result<Option<Span>, Fault>
    requires there { OnFiles D.Disk disk.old (IsFileThere file) }
    requires size { OnBytes D.Disk disk.old file (λ bytes. end ≡ length bytes) }
    ensures next { IfOk result (λ next. OnBytes D.Disk disk.old file (λ bytes.
        1 < length bytes → IsNext bytes gate next)) }
    ensures counted { IfOk result (λ next. OnBytes D.Disk disk.old file (λ bytes. (batches : _) (index : ℕ) →
        Batches bytes batches → gate ≡ gate_at batches index → next ≡ span_at batches index)) }
    ensures in_file { IfOk result (λ next. IfSome next (λ span.
        (span.at ≡ gate + 9) × (span.at + span.length < end))) }
    ensures same { (n : ℕ) × Steps D.Disk disk.old disk.new (Reads n) }
    ensures taken { OnTaken D.Disk disk.old disk.new file (λ bytes. ReadsGateAt bytes gate) }
    ensures any_moment { Within D.Disk disk.old disk.new Leaves }

    ensures damaged { IfErr result (IsCutFault file (λ at. (at ≡ gate) ×
        OnBytes D.Disk disk.old file (λ bytes. IsCutBehind bytes gate))) }
    ensures only { IfErr result IsFailedOrDamaged }
    ensures cause { CountsFault (D.faults disk.old) (D.faults disk.new) result }
{
    if end <= 1 || end <= gate {
        return Ok(None);
    }
    let next = next_span(disk, file, gate, end)?;
    Ok(next)
}

/// The bytes of the span, in one read. `Damaged` with the rule `Cut` and the span's offset comes where fewer bytes are
/// there. The other errors are that the disk failed and that there was no memory.
pub fn read_span<D: Disk>(
    alloc: Global,
    disk: &mut D,
    file: FileId,
    span: Span,
) -> Result<Octets, Fault>
    requires { OnFiles D.Disk disk.old (IsFileThere file) }
    ensures size { IfOk result (λ octets. length octets ≡ span.length) }
    ensures bytes { IfOk result (λ octets. OnBytes D.Disk disk.old file (λ bytes. octets ≡ payload_at bytes span)) }
    ensures counted { IfOk result (λ octets. OnBytes D.Disk disk.old file (λ bytes. (batches : _) (index : ℕ) →
        Batches bytes batches → span_at batches index ≡ Some span → slice_get batches index ≡ Some octets)) }
    ensures taken { OnOk result (Steps D.Disk disk.old disk.new (Reads span.length)) }
    ensures same { (n : ℕ) × Steps D.Disk disk.old disk.new (Reads n) }
    ensures any_moment { Within D.Disk disk.old disk.new Leaves }

    ensures damaged { IfErr result (IsCutFault file (λ at. (at ≡ span.at) ×
        OnBytes D.Disk disk.old file (λ bytes. length bytes - span.at < span.length))) }
    ensures only { IfErr result IsNotSpent }
    ensures cause { CountsFault (D.faults disk.old) (D.faults disk.new) result }
{
    let count = span.length as usize;
    let mut bytes = vec![in alloc; 0; count]?;
    if disk.read(file, span.at, &mut bytes)? < count {
        return Err(Fault::Damaged(Damage {
            file,
            at: span.at,
            rule: Rule::Cut,
        }));
    }
    Ok(Octets::from_vec(bytes))
}
