// Where payloads stand, and the walk from gate to gate.
ghost use Rattle.std.specs.Prelude.{◌≡◌, ◌<◌, ◌≤◌, ◌+◌, ◌-◌, ◌^◌, ◌↔◌, ℕ, length, take, drop};
ghost use Rattle.std.specs.Prelude.{IfOk, IfErr, IfSome, IsTrue, OnErr};
ghost use Rattle.std.specs.Int.{to_be_bytes, w64};
ghost use Rattle.pg_disk.specs.Calls.{Reads};
ghost use Rattle.pg_disk.specs.Counts.{CountsFault};
ghost use Rattle.pg_disk.specs.Image.{IsFileThere, Leaves};
ghost use Rattle.pg_disk.specs.Moments.{Within};
ghost use Rattle.pg_disk.specs.Sites.{OnBytes, OnFiles, OnTaken, Steps};
ghost use Rattle.pg_gate.specs.Spans.{IsNext, IsCutAt, IsWalked, IsCut, IsCutFault, IsFailedOrDamaged, IsNotSpent};
ghost use Rattle.pg_gate.specs.Spans.{Occupy, ReadsGates, ReadsGateAt, ReadsWithin};

use pg_bytes::take_u64;
use pg_disk::{Damage, Disk, Fault, FileId, Rule};
use std::alloc::{AllocError, Global};

/// The place of a batch's payload in its file, in bytes.
#[derive(Clone, Copy, Debug, PartialEq, Eq)]
pub struct Span {
    /// The offset of the payload's first byte.
    pub at: u64,
    pub length: u64,
}

// Whether a gate is open.
pub(crate) fn is_open(gate: u8) -> bool
    ensures { IsTrue result ↔ (gate ≡ 1) }
{
    gate == 1
}

// The length in the eight bytes behind a gate. Where fewer are there it is the greatest number, which no file has room
// for.
fn payload_length(head: &[u8]) -> u64
    ensures whole { 9 ≤ length head.now → to_be_bytes w64 result ≡ take 8 (drop 1 head.now) }
    ensures cut { length head.now < 9 → result ≡ 2 ^ 64 - 1 }
{
    take_u64(head, 1).unwrap_or(u64::MAX)
}

// Reads the gate at this offset of a file of `end` bytes, with the length behind it. None is a gate that isn't open.
pub(crate) fn next_span<D: Disk>(
    disk: &mut D,
    file: FileId,
    gate: u64,
    end: u64,
) -> Result<Option<Span>, Fault>
    requires there { OnFiles D.Disk disk.old (IsFileThere file) }
    requires within { gate < end }
    ensures next { IfOk result (λ next. OnBytes D.Disk disk.old file (λ bytes.
        end ≡ length bytes → IsNext bytes gate next)) }
    ensures in_file { IfOk result (λ next. IfSome next (λ span. (span.at ≡ gate + 9) × (span.at + span.length < end))) }
    ensures same { (n : ℕ) × Steps D.Disk disk.old disk.new (Reads n) }
    ensures taken { OnTaken D.Disk disk.old disk.new file (λ bytes. ReadsGateAt bytes gate) }
    ensures any_moment { Within D.Disk disk.old disk.new Leaves }
    ensures damaged { IfErr result (IsCutFault file (λ at. (at ≡ gate) ×
        OnBytes D.Disk disk.old file (λ bytes. end ≡ length bytes → IsCutAt bytes gate))) }
    ensures only { IfErr result IsFailedOrDamaged }
    ensures cause { CountsFault (D.faults disk.old) (D.faults disk.new) result }
{
    let mut buffer = [0; 9];
    let count = disk.read(file, gate, &mut buffer)?;
    if !is_open(buffer[0]) {
        return Ok(None);
    }
    let length = payload_length(&buffer[..count]);
    if length >= (end - gate).saturating_sub(9) {
        return Err(Fault::Damaged(Damage {
            file,
            at: gate,
            rule: Rule::Cut,
        }));
    }
    Ok(Some(Span {
        at: gate + 9,
        length,
    }))
}

// Walks from gate to gate of a file of `end` bytes, and answers the places of the payloads and the offset of the gate
// that ends them. A batch takes 9 bytes at least: so there are at most `end / 9 + 1` reads, whatever the disk answers.
pub(crate) fn walk<D: Disk>(
    alloc: Global,
    disk: &mut D,
    file: FileId,
    end: u64,
) -> Result<(Vec<Span>, u64), Fault>
    requires there { OnFiles D.Disk disk.old (IsFileThere file) }
    requires long { 1 < end }
    ensures walked { IfOk result (λ found. OnBytes D.Disk disk.old file (λ bytes.
        end ≡ length bytes → IsWalked bytes found.1 found.0.items)) }
    ensures in_file { IfOk result (λ found. (found.1 < end) × Occupy found.0.items (found.1 + 1)) }
    ensures same { (n : ℕ) × Steps D.Disk disk.old disk.new (Reads n) }
    ensures taken { IfOk result (λ found. OnTaken D.Disk disk.old disk.new file (λ bytes old new. end ≡ length bytes →
        ReadsGates bytes found.0.items old new)) }
    ensures taken_err { OnErr result (OnTaken D.Disk disk.old disk.new file (λ bytes old new. end ≡ length bytes →
        ReadsWithin bytes old new)) }
    ensures any_moment { Within D.Disk disk.old disk.new Leaves }
    ensures damaged { IfErr result (IsCutFault file (λ at.
        OnBytes D.Disk disk.old file (λ bytes. end ≡ length bytes → IsCut bytes at))) }
    ensures only { IfErr result IsNotSpent }
    ensures cause { CountsFault (D.faults disk.old) (D.faults disk.new) result }
{
    let mut spans = Vec::new(alloc);
    let mut gate = 0;
    let most = end / 9 + 1;
    'gates: for _ in 0..most {
        let Some(span) = next_span(disk, file, gate, end)? else {
            return Ok((spans, gate));
        };
        spans.push(span).map_err(AllocError::from)?;
        gate = span.at + span.length;
    }
    unreachable!()
}
