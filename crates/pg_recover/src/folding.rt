// Payload after payload is decoded, and entry after entry applied.
ghost use Rattle.std.specs.Prelude.{◌≡◌, length, IfOk, IfErr};
ghost use Rattle.pg_records.specs.Entries.{HaveFields};
ghost use Rattle.pg_fold.specs.Fold.{Folds};
ghost use Rattle.pg_fold.specs.Sound.{IsSound};
ghost use Rattle.pg_recover.specs.Folding.{FoldsFrom, FoldsPayload, HaveBroken, IsBroken, IsBrokenAmong};
ghost use Rattle.pg_recover.specs.Folding.{IsBrokenPayload, IsDamage, IsDamageAt};
ghost use Rattle.pg_recover.specs.Places.{Covers, payload_from, payloads_from};

use crate::grouping::payload_in;
use pg_disk::{Damage, Fault, FileId, Rule};
use pg_fold::{Durable, FoldError};
use pg_gate::Span;
use pg_records::{Entry, decode_batch};
use std::alloc::Global;

// Applies the entries in their order.
fn fold_entries(
    alloc: Global,
    entries: Vec<Entry>,
    mut durable: Durable,
) -> Result<Durable, FoldError>
    requires fields { HaveFields entries.items }
    requires sound { IsSound durable }
    ensures folded { IfOk result (Folds durable entries.items) }
    ensures sound { IfOk result IsSound }
    ensures broken { IfErr result (IsBroken (HaveBroken durable entries.items)) }
{
    for entry in entries {
        durable = durable.apply(alloc, entry)?;
    }
    Ok(durable)
}

// Applies the entries that the payload spells.
fn fold_payload(alloc: Global, payload: &[u8], durable: Durable) -> Result<Durable, FoldError>
    requires { IsSound durable }
    ensures folded { IfOk result (FoldsPayload durable payload.now) }
    ensures sound { IfOk result IsSound }
    ensures broken { IfErr result (IsBroken (IsBrokenPayload durable payload.now)) }
{
    match decode_batch(alloc, payload)? {
        Some(entries) => fold_entries(alloc, entries, durable),
        None => Err(FoldError::Broken(Rule::Spelling)),
    }
}

// The same of the payload at this offset of the file.
fn fold_placed(
    alloc: Global,
    file: FileId,
    at: u64,
    payload: &[u8],
    durable: Durable,
) -> Result<Durable, Fault>
    requires { IsSound durable }
    ensures folded { IfOk result (FoldsPayload durable payload.now) }
    ensures sound { IfOk result IsSound }
    ensures damaged { IfErr result (IsDamage (IsDamageAt file at (IsBrokenPayload durable payload.now))) }
{
    match fold_payload(alloc, payload, durable) {
        Ok(after) => Ok(after),
        Err(FoldError::Broken(rule)) => Err(Fault::Damaged(Damage { file, at, rule })),
        Err(FoldError::Memory) => Err(Fault::Memory),
    }
}

// Applies the entries of the payloads at these places, whose bytes were read together.
pub(crate) fn fold_group(
    alloc: Global,
    file: FileId,
    bytes: &[u8],
    cover: Span,
    spans: &[Span],
    mut durable: Durable,
) -> Result<Durable, Fault>
    requires size { length bytes.now ≡ cover.length }
    requires covers { Covers cover spans.now }
    requires sound { IsSound durable }
    ensures folded { IfOk result (FoldsFrom durable (payloads_from cover.at bytes.now spans.now)) }
    ensures sound { IfOk result IsSound }
    ensures damaged { IfErr result (IsDamage (IsBrokenAmong (payload_from cover.at bytes.now) file durable spans.now)) }
{
    for span in spans {
        let payload = payload_in(bytes, cover, *span);
        durable = fold_placed(alloc, file, span.at, payload, durable)?;
    }
    Ok(durable)
}
