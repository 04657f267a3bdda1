// A site in memory.
ghost use Rattle.std.specs.Prelude.{◌≡◌, None};
ghost use Rattle.std.specs.FinMap.{get};
ghost use Rattle.pg_disk.specs.Account.{account, IsHonest};

use pg_disk::{CallKind, Disk, Failed, FileId, Kind, MemSite, Site};
use std::alloc::{AllocError, Global};
use std::test::Fail;

const PAGE: FileId = FileId {
    kind: Kind::Page,
    owner: 3,
    number: 1,
};

// What any site answers to a file's life: whether that file alone is listed, its length, and what was read of it.
fn exercise<S: Site>(site: &mut S, alloc: Global) -> Result<(bool, u64, [u8; 8]), Failed>
    requires { IsHonest (S.tells site.old) → get (account (S.tells site.old)).files PAGE ≡ None }
{
    let mut buf = [9; 8];
    site.create(PAGE)?;
    site.write(PAGE, 0, b"batch")?;
    site.sync(PAGE)?;
    site.write(PAGE, 5, b"es")?;
    let _count = site.read(PAGE, 1, &mut buf)?;
    site.emit(b"told")?;
    let length = site.length(PAGE)?;
    let is_listed = site.list(alloc).map_err(|_| Failed)?.as_slice() == [PAGE].as_slice();
    site.remove(PAGE)?;
    Ok((is_listed, length, buf))
}

// Whether the site shows the life that it had.
fn shows_life(site: &MemSite) -> bool {
    site.told() == b"told".as_slice()
        && site.bytes(PAGE) == None
        && site.calls() == 8
        && site.call(1) == Some(CallKind::Create(PAGE))
        && site.call(8) == Some(CallKind::Remove(PAGE))
        && site.call(9) == None
        && site.short() == 0
}

// Whether a file is put as if from outside, and that is no call.
fn is_put(site: &mut MemSite) -> Result<bool, AllocError> {
    site.put(PAGE, b"outside")?;
    Ok(site.bytes(PAGE) == Some(b"outside".as_slice()) && site.calls() == 8)
}

// Whether the life is answered and shown as it is to be.
fn is_answered(alloc: Global) -> Result<bool, Failed> {
    let mut site = MemSite::new(alloc);
    let (is_listed, length, buf) = exercise(&mut site, alloc)?;
    let is_read = length == 7 && buf.as_slice() == b"atches\x09\x09".as_slice();
    let is_shown = shows_life(&site);
    let is_put = is_put(&mut site).map_err(|_| Failed)?;
    Ok(is_listed && is_read && is_shown && is_put)
}

#[test]
fn answers(rt: HostRuntime) -> Result<(), Fail> {
    assert!(rt; is_answered(rt.alloc())?);
    Ok(())
}

// The calls and the emits that are named, and whether the life fails.
type Case<'a> = (&'a [u64], &'a [u64], bool);

const CASES: [Case<'static>; 10] = [
    (&[9, 1], &[], true),
    (&[9, 2], &[], true),
    (&[9, 3], &[], true),
    (&[9, 4], &[], true),
    (&[9, 5], &[], true),
    (&[9, 6], &[], true),
    (&[9, 7], &[], true),
    (&[9, 8], &[], true),
    (&[], &[1], true),
    (&[0, 9], &[2], false),
];

// Whether the life fails where these calls and these emits are named.
fn fails(alloc: Global, calls: &[u64], emits: &[u64]) -> Result<bool, AllocError> {
    let mut site = MemSite::new(alloc);
    site.fail(calls)?;
    site.fail_emit(emits)?;
    Ok(exercise(&mut site, alloc).is_err())
}

// The first case that goes otherwise.
fn wrong_case(alloc: Global) -> Result<Option<usize>, AllocError> {
    for (place, (calls, emits, want)) in CASES.iter().enumerate() {
        if fails(alloc, calls, emits)? != *want {
            return Ok(Some(place));
        }
    }
    Ok(None)
}

#[test]
fn fails_where_named(rt: HostRuntime) -> Result<(), Fail> {
    assert!(rt; wrong_case(rt.alloc())? == None);
    Ok(())
}
