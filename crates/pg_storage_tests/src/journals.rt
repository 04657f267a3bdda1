// The journal.
use pg_bytes::Octets;
use pg_disk::{Damage, Disk, Fault, FileId, Kind, MemSite, Rule};
use pg_gate::Span;
use pg_journal::Journal;
use std::alloc::{AllocError, Global};
use std::test::Fail;

const HI: &[u8] = b"\x01\0\0\0\0\0\0\0\x02hi\0";

const X: &[u8] = b"\x01\0\0\0\0\0\0\0\x01x\x07";

const CUT: &[u8] = b"\x01\0\0\0\0\0\0\0\x01x\x01\0";

const AT_HI: &[Span] = &[Span { at: 9, length: 2 }];

const AT_X: &[Span] = &[Span { at: 9, length: 1 }];

const ONE: FileId = FileId {
    kind: Kind::Journal,
    owner: 0,
    number: 1,
};

const TWO: FileId = FileId {
    kind: Kind::Journal,
    owner: 0,
    number: 2,
};

const OTHER: FileId = FileId {
    kind: Kind::Journal,
    owner: 3,
    number: 2,
};

const PAGE: FileId = FileId {
    kind: Kind::Page,
    owner: 9,
    number: 9,
};

// Files with their bytes.
type Contents<'a> = &'a [(FileId, &'a [u8])];

// The files, what is found in them or where one is cut, and the files after it.
type Case<'a> = (
    Contents<'a>,
    Result<(FileId, &'a [Span]), (FileId, u64)>,
    Contents<'a>,
);

const CASES: [Case<'static>; 11] = [
    // The first generation is laid where none is there, and mended where it is one open gate alone.
    (&[(PAGE, X)], Ok((ONE, &[])), &[(ONE, b"\0"), (PAGE, X)]),
    (&[(ONE, b"\x01")], Ok((ONE, &[])), &[(ONE, b"\0")]),
    // A generation without a batch doesn't count.
    (
        &[(ONE, HI), (TWO, b"\0\0")],
        Ok((ONE, AT_HI)),
        &[(ONE, HI), (TWO, b"\0\0")],
    ),
    (
        &[(ONE, HI), (TWO, b"")],
        Ok((ONE, AT_HI)),
        &[(ONE, HI), (TWO, b"\0")],
    ),
    // One with a batch counts before the lower ones, and they aren't read.
    (
        &[(ONE, HI), (TWO, X)],
        Ok((TWO, AT_X)),
        &[(ONE, HI), (TWO, X)],
    ),
    (
        &[(ONE, CUT), (TWO, X)],
        Ok((TWO, AT_X)),
        &[(ONE, CUT), (TWO, X)],
    ),
    // Of equal numbers the greatest owner counts, if it has a batch.
    (
        &[(TWO, HI), (OTHER, X)],
        Ok((OTHER, AT_X)),
        &[(TWO, HI), (OTHER, X)],
    ),
    (
        &[(TWO, HI), (OTHER, b"\0")],
        Ok((TWO, AT_HI)),
        &[(TWO, HI), (OTHER, b"\0")],
    ),
    // Where none has a batch the last one goes on.
    (
        &[(ONE, b"\0"), (TWO, b"\x01")],
        Ok((TWO, &[])),
        &[(ONE, b"\0"), (TWO, b"\0")],
    ),
    // One that is cut and isn't behind one with a batch.
    (
        &[(ONE, HI), (TWO, CUT)],
        Err((TWO, 10)),
        &[(ONE, HI), (TWO, CUT)],
    ),
    (
        &[(ONE, CUT), (TWO, b"\0")],
        Err((ONE, 10)),
        &[(ONE, CUT), (TWO, b"\0")],
    ),
];

// A site with these files.
fn site_of(alloc: Global, files: Contents<'_>) -> Result<MemSite, AllocError> {
    let mut site = MemSite::new(alloc);
    for (file, bytes) in files {
        site.put(*file, bytes)?;
    }
    Ok(site)
}

// Whether the site has these files with these bytes, and no others.
fn has(alloc: Global, site: &mut MemSite, files: Contents<'_>) -> bool {
    match site.list(alloc) {
        Ok(ids) => ids.len() == files.len()
            && files
                .iter()
                .all(|(file, bytes)| site.bytes(*file) == Some(bytes)),
        Err(_) => false,
    }
}

// Whether this was found, or that a batch is cut there.
fn is_as(
    got: Result<(FileId, Vec<Span>), Fault>,
    want: Result<(FileId, &[Span]), (FileId, u64)>,
) -> bool {
    match (got, want) {
        (Ok((file, spans)), Ok(found)) => file == found.0 && spans.as_slice() == found.1,
        (Err(Fault::Damaged(damage)), Err((file, at))) => {
            damage
                == Damage {
                    file,
                    at,
                    rule: Rule::Cut,
                }
        }
        _ => false,
    }
}

// Whether the journal is found in these files as it is to be.
fn is_found(alloc: Global, case: Case<'_>) -> Result<bool, AllocError> {
    let (files, want, after) = case;
    let mut site = site_of(alloc, files)?;
    let found = Journal::find(alloc, &mut site).map(|(journal, spans)| (journal.file(), spans));
    Ok(is_as(found, want) && has(alloc, &mut site, after))
}

// The first case in which it is found otherwise.
fn wrong_find(alloc: Global) -> Result<Option<usize>, AllocError> {
    for (place, case) in CASES.iter().enumerate() {
        if !is_found(alloc, *case)? {
            return Ok(Some(place));
        }
    }
    Ok(None)
}

#[test]
fn finds_the_journal(rt: HostRuntime) -> Result<(), Fail> {
    assert!(rt; wrong_find(rt.alloc())? == None);
    Ok(())
}

// Whether this was peeked, or that a batch is cut there.
fn peeks_as(
    got: Result<Option<(FileId, Vec<Span>)>, Fault>,
    want: Result<(FileId, &[Span]), (FileId, u64)>,
) -> bool {
    match got {
        Ok(None) => matches!(want, Ok((_, []))),
        Ok(Some(found)) => is_as(Ok(found), want),
        Err(fault) => is_as(Err(fault), want),
    }
}

// Whether a peek at these files answers as it is to, and leaves them.
fn is_peeked(alloc: Global, case: Case<'_>) -> Result<bool, AllocError> {
    let (files, want, _) = case;
    let mut site = site_of(alloc, files)?;
    let found = Journal::peek(alloc, &mut site);
    Ok(peeks_as(found, want) && has(alloc, &mut site, files))
}

// The first case in which it is peeked at otherwise.
fn wrong_peek(alloc: Global) -> Result<Option<usize>, AllocError> {
    for (place, case) in CASES.iter().enumerate() {
        if !is_peeked(alloc, *case)? {
            return Ok(Some(place));
        }
    }
    Ok(None)
}

#[test]
fn peeks_at_the_journal(rt: HostRuntime) -> Result<(), Fail> {
    assert!(rt; wrong_peek(rt.alloc())? == None);
    Ok(())
}

// Whether a batch is added to the journal that was found, and found again.
fn is_found_again(alloc: Global) -> Result<bool, Fault> {
    let mut site = MemSite::new(alloc);
    let batch = Octets::from_slice(alloc, b"hi")?;
    let (journal, _) = Journal::find(alloc, &mut site)?;
    let is_new = journal.length() == 1;
    let journal = journal.append(&mut site, &batch)?;
    let is_longer = journal.length() == 12 && site.bytes(ONE) == Some(HI);
    let (again, spans) = Journal::find(alloc, &mut site)?;
    Ok(is_new && is_longer && again == journal && spans.as_slice() == AT_HI)
}

#[test]
fn appends_to_what_it_found(rt: HostRuntime) -> Result<(), Fail> {
    assert!(rt; is_found_again(rt.alloc())?);
    Ok(())
}
