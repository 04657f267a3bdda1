// What an opening makes of the files that are there.
use pg_disk::{Damage, Disk, Fault, FileId, Kind, MemSite, Rule};
use pg_msg::Limits;
use pg_recover::recover;
use std::alloc::{AllocError, Global};
use std::test::Fail;

const FIRST: &[u8] = b"\x01\0\0\0\0\0\0\0\x05\x01\0\0\0\x01\0";

const CLOSED_BY_7: &[u8] = b"\x01\0\0\0\0\0\0\0\x05\x01\0\0\0\x01\x07";

const SECOND: &[u8] = b"\x01\0\0\0\0\0\0\0\x05\x01\0\0\0\x01\x01\0\0\0\0\0\0\0\x05\x01\0\0\0\x02\0";

const TWICE: &[u8] = b"\x01\0\0\0\0\0\0\0\x05\x01\0\0\0\x01\x01\0\0\0\0\0\0\0\x05\x01\0\0\0\x01\0";

const NO_LIST: &[u8] = b"\x01\0\0\0\0\0\0\0\x01\xff\0";

const CUT: &[u8] = b"\x01\0\0\0\0\0\0\0\x05\x01\0\0\0\x01\x01\0";

/// The first generation of the journal.
pub const ONE: FileId = FileId {
    kind: Kind::Journal,
    owner: 0,
    number: 1,
};

const TWO: FileId = FileId {
    kind: Kind::Journal,
    owner: 0,
    number: 2,
};

const OTHER: FileId = FileId {
    kind: Kind::Journal,
    owner: 3,
    number: 2,
};

const LARGE: FileId = FileId {
    kind: Kind::Large,
    owner: 1,
    number: 1,
};

const PAGE: FileId = FileId {
    kind: Kind::Page,
    owner: 1,
    number: 1,
};

// Files with their bytes.
type Contents<'a> = &'a [(FileId, &'a [u8])];

// The files, what they become or the fault, and the limit on epochs.
type Case<'a> = (Contents<'a>, u32, Result<Contents<'a>, Fault>);

const CASES: [Case<'static>; 16] = [
    // The journal is laid where none is there, mended, or goes on behind its closed gate.
    (&[], 9, Ok(&[(ONE, FIRST)])),
    (&[(ONE, b"\x01")], 9, Ok(&[(ONE, FIRST)])),
    (&[(ONE, FIRST)], 9, Ok(&[(ONE, SECOND)])),
    (&[(ONE, CLOSED_BY_7)], 9, Ok(&[(ONE, SECOND)])),
    // The other generations are gone.
    (&[(ONE, FIRST), (TWO, b"\0\0")], 9, Ok(&[(ONE, SECOND)])),
    (&[(ONE, CUT), (TWO, FIRST)], 9, Ok(&[(TWO, SECOND)])),
    // A large message stays.
    (
        &[(ONE, FIRST), (LARGE, b"x")],
        9,
        Ok(&[(ONE, SECOND), (LARGE, b"x")]),
    ),
    // Damage, by the rules in their order.
    (
        &[(ONE, CUT)],
        9,
        Err(Fault::Damaged(Damage {
            file: ONE,
            at: 14,
            rule: Rule::Cut,
        })),
    ),
    (
        &[(ONE, NO_LIST)],
        9,
        Err(Fault::Damaged(Damage {
            file: ONE,
            at: 9,
            rule: Rule::Spelling,
        })),
    ),
    (
        &[(ONE, TWICE)],
        9,
        Err(Fault::Damaged(Damage {
            file: ONE,
            at: 23,
            rule: Rule::Repeat,
        })),
    ),
    (
        &[(TWO, FIRST), (OTHER, FIRST)],
        9,
        Err(Fault::Damaged(Damage {
            file: OTHER,
            at: 0,
            rule: Rule::Name,
        })),
    ),
    (
        &[(TWO, FIRST), (OTHER, b"")],
        9,
        Err(Fault::Damaged(Damage {
            file: OTHER,
            at: 0,
            rule: Rule::Name,
        })),
    ),
    (
        &[(ONE, FIRST), (PAGE, b"")],
        9,
        Err(Fault::Damaged(Damage {
            file: PAGE,
            at: 0,
            rule: Rule::Name,
        })),
    ),
    // The next epoch would be the limit or more.
    (&[(ONE, FIRST)], 2, Err(Fault::Spent)),
    (&[(ONE, FIRST)], 0, Err(Fault::Spent)),
    (&[(ONE, FIRST)], 3, Ok(&[(ONE, SECOND)])),
];

// A site with these files.
fn site_of(alloc: Global, files: Contents<'_>) -> Result<MemSite, AllocError> {
    let mut site = MemSite::new(alloc);
    for (file, bytes) in files {
        site.put(*file, bytes)?;
    }
    Ok(site)
}

// Whether the site has these files with these bytes, and no others.
fn has(alloc: Global, site: &mut MemSite, files: Contents<'_>) -> bool {
    match site.list(alloc) {
        Ok(ids) => ids.len() == files.len()
            && files
                .iter()
                .all(|(file, bytes)| site.bytes(*file) == Some(bytes)),
        Err(_) => false,
    }
}

/// How many messages there are behind an opening below this limit on epochs.
pub fn open(alloc: Global, site: &mut MemSite, epochs: u32) -> Result<usize, Fault> {
    let limits = Limits {
        ids: 9,
        epochs,
        input: 9,
    };
    let parts = recover(alloc, site, &limits)?;
    Ok(parts.durable.journaled.len())
}

// Whether an opening came to this.
fn comes_to(
    alloc: Global,
    site: &mut MemSite,
    got: Result<usize, Fault>,
    want: Result<Contents<'_>, Fault>,
) -> bool {
    match (got, want) {
        (Ok(_), Ok(after)) => has(alloc, site, after),
        (Err(fault), Err(wanted)) => fault == wanted,
        _ => false,
    }
}

// Whether an opening of the files comes to this, and changes nothing where there was damage, but for an empty file that is mended.
fn opens_to(
    alloc: Global,
    files: Contents<'_>,
    epochs: u32,
    want: Result<Contents<'_>, Fault>,
) -> Result<bool, AllocError> {
    let mut site = site_of(alloc, files)?;
    let got = open(alloc, &mut site, epochs);
    let may_change = want.is_ok() || files.iter().any(|(_, bytes)| bytes.is_empty());
    Ok(comes_to(alloc, &mut site, got, want) && (may_change || has(alloc, &mut site, files)))
}

// The number of the first case, from 1, that comes to something else.
fn wrong_case(alloc: Global) -> Result<Option<u32>, AllocError> {
    let mut number = 0u32;
    for (files, epochs, want) in CASES {
        number = number.saturating_add(1);
        if !opens_to(alloc, files, epochs, want)? {
            return Ok(Some(number));
        }
    }
    Ok(None)
}

#[test]
fn opens(rt: HostRuntime) -> Result<(), Fail> {
    assert!(rt; wrong_case(rt.alloc())?.is_none());
    Ok(())
}
