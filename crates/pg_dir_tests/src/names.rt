use pg_dir::{file_id, file_name};
use pg_disk::{FileId, Kind};
use std::alloc::{AllocError, Global};
use std::test::Fail;

// A name, and the kind, the owner and the number of its file.
const NAMES: [(&str, Kind, u32, u64); 5] = [
    ("j-1", Kind::Journal, 0, 1),
    ("j-4611686018427387904", Kind::Journal, 0, 1 << 62),
    ("p-1-10.page", Kind::Page, 1, 10),
    (
        "p-4294967295-4611686018427387904.page",
        Kind::Page,
        u32::MAX,
        1 << 62,
    ),
    ("l-20-3.msg", Kind::Large, 20, 3),
];

const OTHER_NAMES: [&str; 27] = [
    "",
    "-",
    "j",
    "j-",
    "j-0",
    "j-01",
    "j-+1",
    "j- 1",
    "j-1 ",
    "j-1-1",
    "J-1",
    "j-1.page",
    "j-4611686018427387905",
    "j-18446744073709551617",
    "jj-1",
    "p-0-1.page",
    "p-01-1.page",
    "p-1-01.page",
    "p-1-0.page",
    "p-4294967296-1.page",
    "p-1-1.PAGE",
    "p-1-1.msg",
    "p-1-1",
    "p-1.page",
    "l-1-1.page",
    "l-1-1-1.msg",
    "notes.txt",
];

// The first name that isn't read as its file or written for it.
fn wrong_name(alloc: Global) -> Result<Option<&'static str>, AllocError> {
    for (name, kind, owner, number) in NAMES {
        let file = FileId {
            kind,
            owner,
            number,
        };
        let written = file_name(alloc, file)?;
        if file_id(name) != Some(file) || written.as_str() != name {
            return Ok(Some(name));
        }
    }
    Ok(None)
}

// The first name that is read as a file, and is none.
fn wrong_other_name() -> Option<&'static str> {
    OTHER_NAMES.into_iter().find(|name| file_id(name).is_some())
}

#[test]
fn names_are_read_as_written(rt: HostRuntime) -> Result<(), Fail> {
    assert!(rt; wrong_name(rt.alloc())? == None && wrong_other_name() == None);
    Ok(())
}
