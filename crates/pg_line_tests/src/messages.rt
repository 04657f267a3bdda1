use crate::cases::{Case, Plain, Wanted, is_read, wrong_line};
use std::alloc::{AllocError, Global};
use std::test::Fail;

// A line has at most so many bytes.
const LONGEST_LINE: usize = 1_048_576;

const BODIES: [Case; 19] = [
    (b"send A body aaaaa", Wanted::Body("A", b"aaaaa")),
    (b"send A body ", Wanted::Body("A", b"")),
    (
        b"send A body   two words ",
        Wanted::Body("A", b"  two words "),
    ),
    (
        b"send A body \x00\xff\xc3\x28\x0d",
        Wanted::Body("A", b"\x00\xff\xc3\x28\x0d"),
    ),
    (b"send A body body ", Wanted::Body("A", b"body ")),
    (b"send A hex 78", Wanted::Body("A", b"x")),
    (b"send A hex 6F6f00Ff", Wanted::Body("A", b"oo\x00\xff")),
    (b"send A hex -", Wanted::Body("A", b"")),
    (b"send A hex ", Wanted::Nothing),
    (b"send A hex 7", Wanted::Nothing),
    (b"send A hex 7g", Wanted::Nothing),
    (b"send A hex 78 ", Wanted::Nothing),
    (b"send A hex --", Wanted::Nothing),
    (b"send A hex 0x78", Wanted::Nothing),
    (b"send A body", Wanted::Nothing),
    (b"send A  body a", Wanted::Nothing),
    (b"send 1 body a", Wanted::Nothing),
    (b"send A Body a", Wanted::Nothing),
    (b"send A", Wanted::Nothing),
];

const PARTS: [Case; 32] = [
    (b"send A tx T body x", Wanted::Sent(Some("T"), None)),
    (b"send A id 0a body x", Wanted::Sent(None, Some(b"\x0a"))),
    (
        b"send A tx T id 0Aff hex 78",
        Wanted::Sent(Some("T"), Some(b"\x0a\xff")),
    ),
    (
        b"send A id 00000000000000000000000000000000000000000000000000000000000000000000000000000000000000000000000000000000000000000000000000000000 body x",
        Wanted::Sent(None, Some(&[0; 64])),
    ),
    (
        b"send A id 0000000000000000000000000000000000000000000000000000000000000000000000000000000000000000000000000000000000000000000000000000000000 body x",
        Wanted::Nothing,
    ),
    (b"send A id 0a tx T body x", Wanted::Nothing),
    (b"send A prop k 1 id 0a body x", Wanted::Nothing),
    (b"send A tx T tx U body x", Wanted::Nothing),
    (b"send A id 0a id 0b body x", Wanted::Nothing),
    (b"send A id - body x", Wanted::Nothing),
    (b"send A id 0 body x", Wanted::Nothing),
    (b"send A id  body x", Wanted::Nothing),
    (b"send A tx  body x", Wanted::Nothing),
    (b"send A tx 9 body x", Wanted::Nothing),
    (b"send A tx T", Wanted::Nothing),
    (b"large A L", Wanted::Large(None, &[])),
    (
        b"large A L id 0a prop k 1 prop j 'x'",
        Wanted::Large(
            Some(b"\x0a"),
            &[("k", Plain::Whole(1)), ("j", Plain::Text("x"))],
        ),
    ),
    (
        b"large A L prop k FALSE",
        Wanted::Large(None, &[("k", Plain::Truth(false))]),
    ),
    (b"large A L ", Wanted::Nothing),
    (b"large A L body x", Wanted::Nothing),
    (b"large A", Wanted::Nothing),
    (b"large A L prop k 1 id 0a", Wanted::Nothing),
    (b"large A L tx T", Wanted::Nothing),
    (b"part L 616263", Wanted::Part(b"abc")),
    (b"part L 6A6a", Wanted::Part(b"jj")),
    (b"part L -", Wanted::Part(b"")),
    (b"part L ", Wanted::Nothing),
    (b"part L", Wanted::Nothing),
    (b"part L 6", Wanted::Nothing),
    (b"part L 61 62", Wanted::Nothing),
    (b"part L 61 ", Wanted::Nothing),
    (b"part  L 61", Wanted::Nothing),
];

const PROPERTIES: [Case; 25] = [
    (
        b"send A prop k -1 hex -",
        Wanted::Properties(&[("k", Plain::Whole(-1))]),
    ),
    (
        b"send A prop k 0 body ",
        Wanted::Properties(&[("k", Plain::Whole(0))]),
    ),
    (
        b"send A prop k 9223372036854775807 hex -",
        Wanted::Properties(&[("k", Plain::Whole(i64::MAX))]),
    ),
    (
        b"send A prop k -9223372036854775808 hex -",
        Wanted::Properties(&[("k", Plain::Whole(i64::MIN))]),
    ),
    (
        b"send A prop $k_9 TRUE prop K FALSE prop k 'a b' hex -",
        Wanted::Properties(&[
            ("$k_9", Plain::Truth(true)),
            ("K", Plain::Truth(false)),
            ("k", Plain::Text("a b")),
        ]),
    ),
    (
        b"send A prop k 'it''s' hex -",
        Wanted::Properties(&[("k", Plain::Text("it's"))]),
    ),
    (
        b"send A prop k '' prop j '''' hex -",
        Wanted::Properties(&[("k", Plain::Text("")), ("j", Plain::Text("'"))]),
    ),
    (
        b"send A prop k ' hex - prop j' hex -",
        Wanted::Properties(&[("k", Plain::Text(" hex - prop j"))]),
    ),
    (
        b"send A prop k '\xc3\xa9' hex -",
        Wanted::Properties(&[("k", Plain::Text("\u{e9}"))]),
    ),
    (
        b"send A prop andy 1 prop body 2 hex -",
        Wanted::Properties(&[("andy", Plain::Whole(1)), ("body", Plain::Whole(2))]),
    ),
    (
        b"send A prop abcdefghijklmnopqrstuvwxyzABCDEFGHIJKLMNOPQRSTUVWXYZ_$0123456789 1 hex -",
        Wanted::Properties(&[(
            "abcdefghijklmnopqrstuvwxyzABCDEFGHIJKLMNOPQRSTUVWXYZ_$0123456789",
            Plain::Whole(1),
        )]),
    ),
    (
        b"send A prop abcdefghijklmnopqrstuvwxyzABCDEFGHIJKLMNOPQRSTUVWXYZ_$01234567890 1 hex -",
        Wanted::Nothing,
    ),
    (b"send A prop k 9223372036854775808 hex -", Wanted::Nothing),
    (b"send A prop k -9223372036854775809 hex -", Wanted::Nothing),
    (b"send A prop k '\xc3' hex -", Wanted::Nothing),
    (b"send A prop k 1 prop k 2 hex -", Wanted::Nothing),
    (b"send A prop k 1 prop j 2 prop k 1 hex -", Wanted::Nothing),
    (b"send A prop k 'a hex -", Wanted::Nothing),
    (b"send A prop k 'a'b hex -", Wanted::Nothing),
    (b"send A prop k 'a'' hex -", Wanted::Nothing),
    (b"send A prop k 1hex -", Wanted::Nothing),
    (b"send A prop  k 1 hex -", Wanted::Nothing),
    (b"send A prop k  1 hex -", Wanted::Nothing),
    (b"send A prop k hex -", Wanted::Nothing),
    (b"send A prop k 1  hex -", Wanted::Nothing),
];

// What is no value, and what names no property.
const REFUSED: [&str; 17] = [
    "k -0", "k 01", "k -01", "k +1", "k 1.0", "k -", "k true", "k True", "k NULL", "and 1",
    "Not 1", "ESCAPE 1", "tRuE 1", "9k 1", "a.b 1", "a-b 1", "k a",
];

// The front, so many of the bytes, and the back.
fn with_bytes(
    alloc: Global,
    front: &[u8],
    byte: u8,
    count: usize,
    back: &[u8],
) -> Result<Vec<u8>, AllocError> {
    let mut line = Vec::from_slice(alloc, front)?;
    line.append(&mut vec![in alloc; byte; count]?)?;
    line.extend_from_slice(back)?;
    Ok(line)
}

// Whether the line is none, with a message that has this property.
fn refuses(alloc: Global, property: &str) -> Result<bool, AllocError> {
    let line = format!(in alloc; "send A prop {property} hex -")?;
    is_read(alloc, line.as_bytes(), Wanted::Nothing)
}

fn refuses_each(alloc: Global) -> Result<bool, AllocError> {
    for property in REFUSED {
        if !refuses(alloc, property)? {
            return Ok(false);
        }
    }
    Ok(true)
}

// A line of the longest length is read, and one that is a byte longer isn't.
fn keeps_the_limit(alloc: Global) -> Result<bool, AllocError> {
    let count = LONGEST_LINE - 12;
    let most = with_bytes(alloc, b"send A body ", 0xff, count, b"")?;
    let more = with_bytes(alloc, b"send A body ", 0xff, count + 1, b"")?;
    let body = most.get(12..).unwrap_or(&[]);
    Ok(is_read(alloc, &most, Wanted::Body("A", body))? && is_read(alloc, &more, Wanted::Nothing)?)
}

// A text of 65,535 bytes is read, and one of 65,536 bytes isn't.
fn keeps_texts(alloc: Global) -> Result<bool, AllocError> {
    let most = with_bytes(alloc, b"send A prop k '", b'a', 65_535, b"' hex -")?;
    let more = with_bytes(alloc, b"send A prop k '", b'a', 65_536, b"' hex -")?;
    let text = str::from_utf8(most.get(15..65_550).unwrap_or(&[])).unwrap_or("");
    Ok(
        is_read(
            alloc,
            &most,
            Wanted::Properties(&[("k", Plain::Text(text))]),
        )? && is_read(alloc, &more, Wanted::Nothing)?,
    )
}

// A filter of 4,096 bytes is read, and one of 4,097 bytes isn't.
fn keeps_filters(alloc: Global) -> Result<bool, AllocError> {
    let most = with_bytes(alloc, b"queue Q on A where ", b'a', 4_096, b"")?;
    let more = with_bytes(alloc, b"queue Q on A where ", b'a', 4_097, b"")?;
    let filter = str::from_utf8(most.get(19..).unwrap_or(&[])).unwrap_or("");
    Ok(
        is_read(alloc, &most, Wanted::Queue("Q", "A", Some(filter)))?
            && is_read(alloc, &more, Wanted::Nothing)?,
    )
}

// A line with so many properties.
fn with_properties(alloc: Global, count: u32) -> Result<Vec<u8>, AllocError> {
    let mut line = Vec::from_slice(alloc, b"send A")?;
    for number in 0..count {
        let property = format!(in alloc; " prop k{number} 1")?;
        line.extend_from_slice(property.as_bytes())?;
    }
    line.extend_from_slice(b" hex -")?;
    Ok(line)
}

// 100 properties are read, and 101 aren't.
fn keeps_properties(alloc: Global) -> Result<bool, AllocError> {
    let most = with_properties(alloc, 100)?;
    let more = with_properties(alloc, 101)?;
    Ok(!is_read(alloc, &most, Wanted::Nothing)? && is_read(alloc, &more, Wanted::Nothing)?)
}

#[test]
fn reads_messages(rt: HostRuntime) -> Result<(), Fail> {
    assert!(rt;
        wrong_line(rt.alloc(), &BODIES)?.is_none() && wrong_line(rt.alloc(), &PARTS)?.is_none()
    );
    Ok(())
}

#[test]
fn reads_properties(rt: HostRuntime) -> Result<(), Fail> {
    assert!(rt; wrong_line(rt.alloc(), &PROPERTIES)?.is_none() && refuses_each(rt.alloc())?);
    Ok(())
}

#[test]
fn keeps_each_limit(rt: HostRuntime) -> Result<(), Fail> {
    let alloc = rt.alloc();
    let lines = keeps_the_limit(alloc)? && keeps_properties(alloc)?;
    assert!(rt; lines && keeps_texts(alloc)? && keeps_filters(alloc)?);
    Ok(())
}
