// Gated files.
ghost use Rattle.std.specs.Prelude.{◌≡◌, None, OnOk};
ghost use Rattle.std.specs.FinMap.{get};
ghost use Rattle.pg_disk.specs.Account.{account, IsHonest};
ghost use Rattle.pg_disk.specs.Image.{IsFileThere};

use pg_bytes::Octets;
use pg_disk::{CallKind, Damage, Disk, Failed, Fault, FileId, Kind, MemSite, Pick, Rule};
use pg_gate::{Span, lay, peek, read_span, scan, span_behind};
use std::alloc::{AllocError, Global};
use std::test::Fail;

const PAGE: FileId = FileId {
    kind: Kind::Page,
    owner: 3,
    number: 1,
};

const TWO: &[u8] = b"\x01\0\0\0\0\0\0\0\x02hi\x01\0\0\0\0\0\0\0\0\0";

// The bytes of a file, the places of its payloads or the offset of the gate that is cut, and the bytes after a scan.
type Case<'a> = (&'a [u8], Result<&'a [Span], u64>, &'a [u8]);

const CASES: [Case<'static>; 13] = [
    (b"", Ok(&[]), b"\0"),
    (b"\0", Ok(&[]), b"\0"),
    (b"\x01", Ok(&[]), b"\0"),
    (b"\x07", Ok(&[]), b"\x07"),
    (
        b"\0\0\0\0\0\0\0\0\x01x\0",
        Ok(&[]),
        b"\0\0\0\0\0\0\0\0\x01x\0",
    ),
    (
        b"\x07\0\0\0\0\0\0\0\x01x\0",
        Ok(&[]),
        b"\x07\0\0\0\0\0\0\0\x01x\0",
    ),
    (
        b"\x01\0\0\0\0\0\0\0\x01x\x07\x01\0",
        Ok(&[Span { at: 9, length: 1 }]),
        b"\x01\0\0\0\0\0\0\0\x01x\x07\x01\0",
    ),
    (
        TWO,
        Ok(&[Span { at: 9, length: 2 }, Span { at: 20, length: 0 }]),
        TWO,
    ),
    (b"\x01\0", Err(0), b"\x01\0"),
    (b"\x01\0\0\0\0\0\0\0\0", Err(0), b"\x01\0\0\0\0\0\0\0\0"),
    (
        b"\x01\0\0\0\0\0\0\0\x02hi",
        Err(0),
        b"\x01\0\0\0\0\0\0\0\x02hi",
    ),
    (
        b"\x01\xff\xff\xff\xff\xff\xff\xff\xffhi\0",
        Err(0),
        b"\x01\xff\xff\xff\xff\xff\xff\xff\xffhi\0",
    ),
    (
        b"\x01\0\0\0\0\0\0\0\x02hi\x01\0\0",
        Err(11),
        b"\x01\0\0\0\0\0\0\0\x02hi\x01\0\0",
    ),
];

// Makes the file, with these bytes.
fn make<D: Disk>(disk: &mut D, bytes: &[u8]) -> Result<(), Failed>
    requires { IsHonest (D.tells disk.old) → get (account (D.tells disk.old)).files PAGE ≡ None }
    ensures { OnOk result (IsHonest (D.tells disk.new) → IsFileThere PAGE (account (D.tells disk.new)).files) }
{
    disk.create(PAGE)?;
    disk.write(PAGE, 0, bytes)?;
    disk.sync(PAGE)
}

// The damage where the batch at this offset is cut.
fn cut(at: u64) -> Damage {
    Damage {
        file: PAGE,
        at,
        rule: Rule::Cut,
    }
}

// Whether these places were answered, or that the batch at this offset is cut.
fn is_as(got: Result<Vec<Span>, Fault>, want: Result<&[Span], u64>) -> bool {
    match (got, want) {
        (Ok(spans), Ok(want)) => spans.as_slice() == want,
        (Err(Fault::Damaged(damage)), Err(at)) => damage == cut(at),
        _ => false,
    }
}

// Whether a file of these bytes is peeked at and scanned as it is to be.
fn is_read(alloc: Global, case: Case<'_>) -> Result<bool, Failed> {
    let (bytes, want, left) = case;
    let mut site = MemSite::new(alloc);
    make(&mut site, bytes)?;
    let is_peeked = is_as(peek(alloc, &mut site, PAGE), want) && site.bytes(PAGE) == Some(bytes);
    let scanned = scan(alloc, &mut site, PAGE).map(|(_, spans)| spans);
    Ok(is_peeked && is_as(scanned, want) && site.bytes(PAGE) == Some(left))
}

// The first file that is read otherwise.
fn wrong_file(alloc: Global) -> Result<Option<usize>, Failed> {
    for (place, case) in CASES.iter().enumerate() {
        if !is_read(alloc, *case)? {
            return Ok(Some(place));
        }
    }
    Ok(None)
}

#[test]
fn reads_files(rt: HostRuntime) -> Result<(), Fail> {
    assert!(rt; wrong_file(rt.alloc())? == None);
    Ok(())
}

// Whether these bytes were answered, or that the batch at this offset is cut.
fn is_payload(got: Result<Octets, Fault>, want: Result<&[u8], u64>) -> bool {
    match (got, want) {
        (Ok(octets), Ok(want)) => octets.as_slice() == want,
        (Err(Fault::Damaged(damage)), Err(at)) => damage == cut(at),
        _ => false,
    }
}

// Whether one payload is read of a file, and behind it one that is cut.
fn are_payloads_read(alloc: Global) -> Result<bool, Failed> {
    let mut site = MemSite::new(alloc);
    make(&mut site, TWO)?;
    let whole = read_span(alloc, &mut site, PAGE, Span { at: 9, length: 2 });
    let is_whole = is_payload(whole, Ok(b"hi"));
    let cut = read_span(alloc, &mut site, PAGE, Span { at: 20, length: 2 });
    Ok(is_whole && is_payload(cut, Err(20)))
}

#[test]
fn reads_payloads(rt: HostRuntime) -> Result<(), Fail> {
    assert!(rt; are_payloads_read(rt.alloc())?);
    Ok(())
}

// The bytes of a file, the offset of a gate, and the place behind it, or that no whole batch stands there.
type GateCase<'a> = (&'a [u8], u64, Result<Option<Span>, ()>);

const GATES: [GateCase<'static>; 9] = [
    (TWO, 0, Ok(Some(Span { at: 9, length: 2 }))),
    (TWO, 11, Ok(Some(Span { at: 20, length: 0 }))),
    (TWO, 20, Ok(None)),
    (TWO, 21, Ok(None)),
    (b"", 0, Ok(None)),
    (b"\x01", 0, Ok(None)),
    (b"\x07\0\0\0\0\0\0\0\x01x\0", 0, Ok(None)),
    (b"\x01\0\0\0\0\0\0\0\x02hi", 0, Err(())),
    (b"\x01\0\0\0\0\0\0\0\x02hi\x01\0\0", 11, Err(())),
];

// The place behind the gate at this offset.
fn place_behind<D: Disk>(disk: &mut D, gate: u64) -> Result<Option<Span>, Fault>
    requires { IsHonest (D.tells disk.old) → IsFileThere PAGE (account (D.tells disk.old)).files }
{
    let end = disk.length(PAGE)?;
    span_behind(disk, PAGE, gate, end)
}

// What is answered of the gate in a file of these bytes, and how many calls the site had by then.
fn place_in(
    alloc: Global,
    bytes: &[u8],
    gate: u64,
) -> Result<(Result<Option<Span>, Fault>, u64), Failed> {
    let mut site = MemSite::new(alloc);
    make(&mut site, bytes)?;
    let got = place_behind(&mut site, gate);
    Ok((got, site.calls()))
}

// Whether the place behind the gate is answered as it is to be, by one call for the length and at most one that reads.
fn is_placed(alloc: Global, case: GateCase<'_>) -> Result<bool, Failed> {
    let (bytes, gate, want) = case;
    let (got, calls) = place_in(alloc, bytes, gate)?;
    let is_right = match (got, want) {
        (Ok(span), Ok(want)) => span == want,
        (Err(Fault::Damaged(damage)), Err(())) => damage == cut(gate),
        _ => false,
    };
    Ok(is_right && calls <= 5)
}

// The first gate behind which another place is answered.
fn wrong_gate(alloc: Global) -> Result<Option<usize>, Failed> {
    for (place, case) in GATES.iter().enumerate() {
        if !is_placed(alloc, *case)? {
            return Ok(Some(place));
        }
    }
    Ok(None)
}

#[test]
fn answers_the_place_behind_a_gate(rt: HostRuntime) -> Result<(), Fail> {
    assert!(rt; wrong_gate(rt.alloc())? == None);
    Ok(())
}

// Behind a closed gate what looks like a batch of 13 bytes, and in these, at the offset 11, what looks like a batch too.
const LOOKALIKE: &[u8] = b"\0\0\0\0\0\0\0\0\x0dno\x01\0\0\0\0\0\0\0\x01x\0\0";

// Reads the file anew, and adds a batch behind those that it has. Answers how many these are.
fn scan_and_append<D: Disk>(alloc: Global, disk: &mut D, batch: &[u8]) -> Result<usize, Fault>
    requires { IsHonest (D.tells disk.old) → IsFileThere PAGE (account (D.tells disk.old)).files }
{
    let (rest, spans) = scan(alloc, disk, PAGE)?;
    rest.append(disk, batch)?;
    Ok(spans.len())
}

// Whether the site, where it is stopped within the call, leaves no batch, or the batch `hi` alone.
fn leaves_hi_or_none(site: &MemSite, stop: u64, pick: Pick) -> Result<bool, AllocError> {
    if stop == 0 || stop > site.calls() {
        return Ok(false);
    }
    let left = site.crash(stop, pick)?;
    Ok(match left.bytes(PAGE) {
        Some([1, 0, 0, 0, 0, 0, 0, 0, 2, b'h', b'i', next, ..]) => *next != 1,
        Some([1, ..]) => false,
        Some(_) => true,
        None => false,
    })
}

const PICKS: [Pick; 5] = [
    Pick::Old,
    Pick::New,
    Pick::Fill(0),
    Pick::Fill(1),
    Pick::Fill(255),
];

// The first pick of which something else is left within the call.
fn wrong_pick(site: &MemSite, stop: u64) -> Result<Option<Pick>, AllocError> {
    for pick in PICKS {
        if !leaves_hi_or_none(site, stop, pick)? {
            return Ok(Some(pick));
        }
    }
    Ok(None)
}

// The first call, of those behind the three that make the file, within which something else is left.
fn wrong_stop(site: &MemSite) -> Result<Option<u64>, AllocError> {
    for stop in 4..11 {
        if wrong_pick(site, stop)?.is_some() {
            return Ok(Some(stop));
        }
    }
    Ok(None)
}

// Whether what looks like a batch isn't read before a batch is added, nor behind it, nor after a crash within.
fn is_never_read(alloc: Global) -> Result<bool, Fault> {
    let mut site = MemSite::new(alloc);
    make(&mut site, LOOKALIKE)?;
    let count = scan_and_append(alloc, &mut site, b"hi")?;
    let after = b"\x01\0\0\0\0\0\0\0\x02hi\0\0\0\0\0\0\0\0\x01x\0\0";
    let wrong = wrong_stop(&site)?;
    // Three calls make the file, three read it anew, and four add the batch.
    Ok(
        count == 0
            && site.bytes(PAGE) == Some(after.as_slice())
            && site.calls() == 10
            && wrong == None,
    )
}

#[test]
fn what_looks_like_a_batch_is_never_read(rt: HostRuntime) -> Result<(), Fail> {
    assert!(rt; is_never_read(rt.alloc())?);
    Ok(())
}

const BATCHES: u64 = 300;

// The bytes of a gated file with so many batches of the payload.
fn gated(alloc: Global, batches: u64, payload: &[u8]) -> Result<Vec<u8>, AllocError> {
    let mut bytes = Vec::new(alloc);
    for _ in 0..batches {
        bytes.push(1)?;
        bytes.extend_from_slice(&(payload.len() as u64).to_be_bytes())?;
        bytes.extend_from_slice(payload)?;
    }
    bytes.push(0)?;
    Ok(bytes)
}

// How often the call was made, of those behind so many.
fn count_behind(site: &MemSite, made: u64, call: CallKind) -> u64 {
    let mut count: u64 = 0;
    for n in made..site.calls() {
        if site.call(n.saturating_add(1)) == Some(call) {
            count = count.saturating_add(1);
        }
    }
    count
}

// Whether one read for each batch and one more were made behind so many calls, with one call for the length, and so many
// others, which are syncs.
fn reads_gates(site: &MemSite, made: u64, syncs: u64) -> bool {
    let reads = BATCHES.saturating_add(1);
    let others = syncs.saturating_add(1);
    count_behind(site, made, CallKind::Read(PAGE)) == reads
        && count_behind(site, made, CallKind::Length(PAGE)) == 1
        && count_behind(site, made, CallKind::Sync(PAGE)) == syncs
        && site.calls().saturating_sub(made) == reads.saturating_add(others)
}

// Whether a peek, and then a scan, answers each batch and reads the gates and lengths alone.
fn is_no_payload_read(alloc: Global) -> Result<bool, Fault> {
    let mut site = MemSite::new(alloc);
    let bytes = gated(alloc, BATCHES, &[1; 150])?;
    make(&mut site, &bytes)?;
    let made = site.calls();
    let peeked = peek(alloc, &mut site, PAGE)?;
    let is_peeked = peeked.len() as u64 == BATCHES && reads_gates(&site, made, 0);
    let made = site.calls();
    let (_, scanned) = scan(alloc, &mut site, PAGE)?;
    Ok(is_peeked && scanned == peeked && reads_gates(&site, made, 1))
}

#[test]
fn reads_no_payload(rt: HostRuntime) -> Result<(), Fail> {
    assert!(rt; is_no_payload_read(rt.alloc())?);
    Ok(())
}

const WRITE: CallKind = CallKind::Write(PAGE);

const SYNC: CallKind = CallKind::Sync(PAGE);

// The calls that lay a file.
const LAID: &[CallKind] = &[CallKind::Create(PAGE), WRITE, SYNC];

// The calls of an append, by the length of the batch in bytes.
const APPENDS: [(usize, &[CallKind]); 4] = [
    (0, &[WRITE, SYNC, WRITE, SYNC]),
    (1, &[WRITE, SYNC, WRITE, SYNC]),
    (4087, &[WRITE, SYNC, WRITE, SYNC]),
    (4088, &[WRITE, WRITE, WRITE, WRITE, SYNC, WRITE, SYNC]),
];

// Whether these calls were made behind so many, and no others.
fn are_calls(site: &MemSite, made: u64, calls: &[CallKind]) -> bool {
    let mut n = made;
    for call in calls {
        n = n.saturating_add(1);
        if site.call(n) != Some(*call) {
            return false;
        }
    }
    n == site.calls()
}

// Whether a file is laid, and a batch of this length is added to it by these calls.
fn is_added(alloc: Global, length: usize, calls: &[CallKind]) -> Result<bool, Fault> {
    let mut site = MemSite::new(alloc);
    let batch = vec![in alloc; 7; length]?;
    let rest = lay(&mut site, PAGE)?;
    let is_laid = are_calls(&site, 0, LAID);
    let made = site.calls();
    rest.append(&mut site, &batch)?;
    let bytes = gated(alloc, 1, &batch)?;
    Ok(is_laid && are_calls(&site, made, calls) && site.bytes(PAGE) == Some(bytes.as_slice()))
}

// The first length of a batch that is added otherwise.
fn wrong_length(alloc: Global) -> Result<Option<usize>, Fault> {
    for (length, calls) in APPENDS {
        if !is_added(alloc, length, calls)? {
            return Ok(Some(length));
        }
    }
    Ok(None)
}

#[test]
fn a_short_batch_is_written_at_once(rt: HostRuntime) -> Result<(), Fail> {
    assert!(rt; wrong_length(rt.alloc())? == None);
    Ok(())
}
