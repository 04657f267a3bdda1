// What an opening makes of the payloads of the journal, and of pages beside it.
use crate::openings::{ONE, open};
use pg_bytes::{Octets, Text, put_bytes, put_u8, put_u16, put_u32, put_u64};
use pg_disk::{Damage, Fault, FileId, Kind, MemSite, Rule};
use pg_records::{Entry, encode_batch};
use std::alloc::{AllocError, Global};
use std::test::Fail;

// The queue that a message is for, and how many bytes it has.
type Messages = &'static [(u32, u32)];

// The owner and the number of a page.
type Page = (u32, u64);

// The payload that makes an address with this much memory, and a queue on it.
fn made(alloc: Global, max: u64) -> Result<Octets, AllocError> {
    let address = Entry::Address {
        address: 1,
        name: Text::from_str(alloc, "A")?,
        max,
        page: 1,
        ahead: 0,
        dup: 0,
    };
    let queue = Entry::Queue {
        queue: 1,
        address: 1,
        name: Text::from_str(alloc, "Q")?,
        filter: Text::from_str(alloc, "")?,
    };
    encode_batch(alloc, &[Entry::Epoch { epoch: 1 }, address, queue])
}

// The payload of a second queue on the address, with this filter.
fn filtered(alloc: Global, filter: &str) -> Result<Octets, AllocError> {
    let length = u16::try_from(filter.len()).unwrap_or(0);
    let mut out = Octets::new(alloc);
    put_bytes(&mut out, b"\x03\0\0\0\x02\0\0\0\x01\x01R")?;
    put_u16(&mut out, length)?;
    put_bytes(&mut out, filter.as_bytes())?;
    Ok(out)
}

// The payload of a message with so many bytes for the queue.
fn added(alloc: Global, number: u32, queue: u32, size: u32) -> Result<Octets, AllocError> {
    let mut out = Octets::new(alloc);
    put_bytes(&mut out, &[5, 0, 0, 0, 1, 0, 1])?;
    put_u32(&mut out, queue)?;
    put_u32(&mut out, 1)?;
    put_u32(&mut out, number)?;
    put_bytes(&mut out, &[1, 0, 0])?;
    put_u32(&mut out, size)?;
    put_bytes(&mut out, &vec![in alloc; 7; size as usize]?)?;
    Ok(out)
}

// Adds a batch behind its gate.
fn put_batch(bytes: &mut Octets, batch: &Octets) -> Result<(), AllocError> {
    put_u8(bytes, 1)?;
    put_u64(bytes, batch.len() as u64)?;
    put_bytes(bytes, batch.as_slice())
}

// A journal that makes an address with this much memory, and a queue on it, and adds these messages.
fn journal_of(alloc: Global, max: u64, messages: Messages) -> Result<Octets, AllocError> {
    let mut bytes = Octets::new(alloc);
    put_batch(&mut bytes, &made(alloc, max)?)?;
    let mut number = 0u32;
    for (queue, size) in messages {
        number = number.saturating_add(1);
        put_batch(&mut bytes, &added(alloc, number, *queue, *size)?)?;
    }
    put_u8(&mut bytes, 0)?;
    Ok(bytes)
}

// A page of an address.
fn page((owner, number): Page) -> FileId {
    FileId {
        kind: Kind::Page,
        owner,
        number,
    }
}

// The fault of an opening over this journal and these pages, or how many messages there are.
fn opened(
    alloc: Global,
    max: u64,
    messages: Messages,
    pages: &[Page],
) -> Result<Result<usize, Fault>, AllocError> {
    let mut site = MemSite::new(alloc);
    site.put(ONE, journal_of(alloc, max, messages)?.as_slice())?;
    for place in pages {
        site.put(page(*place), b"\0")?;
    }
    Ok(open(alloc, &mut site, 9))
}

fn damage(file: FileId, at: u64, rule: Rule) -> Result<usize, Fault> {
    Err(Fault::Damaged(Damage { file, at, rule }))
}

// Whether a message for a queue that isn't live is damage, at the place of its payload.
fn needs_the_queue(alloc: Global) -> Result<bool, AllocError> {
    let behind = (made(alloc, 1_000_000)?.len() as u64).saturating_add(18);
    Ok(opened(alloc, 1_000_000, &[(2, 3)], &[])? == damage(ONE, behind, Rule::Name))
}

// Filters in the journal, and whether an opening takes them.
const FILTERS: [(&str, bool); 6] = [
    ("", true),
    ("n < 5", true),
    ("a IN ('x','y') OR b IS NULL", true),
    ("n <", false),
    ("a = 1 = 2", false),
    (" ", false),
];

// What an opening comes to over a journal that makes a queue with this filter behind another one.
fn opened_with(alloc: Global, filter: &str) -> Result<Result<usize, Fault>, AllocError> {
    let mut bytes = Octets::new(alloc);
    put_batch(&mut bytes, &made(alloc, 50)?)?;
    put_batch(&mut bytes, &filtered(alloc, filter)?)?;
    put_u8(&mut bytes, 0)?;
    let mut site = MemSite::new(alloc);
    site.put(ONE, bytes.as_slice())?;
    Ok(open(alloc, &mut site, 9))
}

// The first filter at which an opening comes to something else: it is taken, or the damage is Name, where the second
// payload begins.
fn wrong_filter(alloc: Global) -> Result<Option<&'static str>, AllocError> {
    let behind = (made(alloc, 50)?.len() as u64).saturating_add(18);
    for (filter, is_taken) in FILTERS {
        let wanted = if is_taken {
            Ok(0)
        } else {
            damage(ONE, behind, Rule::Name)
        };
        if opened_with(alloc, filter)? != wanted {
            return Ok(Some(filter));
        }
    }
    Ok(None)
}

#[test]
fn reads_filters(rt: HostRuntime) -> Result<(), Fail> {
    assert!(rt; wrong_filter(rt.alloc())?.is_none());
    Ok(())
}

// The memory of the address, the messages, and how many there are then, or None where they have no room.
const MESSAGES: [(u64, Messages, Option<usize>); 3] = [
    // More than is read at once.
    (
        1_000_000,
        &[(1, 60_000), (1, 3), (1, 100_000), (1, 60_000)],
        Some(4),
    ),
    // Messages of 60,015 bytes: one has room, and two haven't.
    (0, &[(1, 60_000)], Some(1)),
    (0, &[(1, 60_000), (1, 60_000)], None),
];

// How many messages the first row has at which an opening comes to something else.
fn wrong_messages(alloc: Global) -> Result<Option<usize>, AllocError> {
    for (max, messages, want) in MESSAGES {
        let wanted = match want {
            Some(count) => Ok(count),
            None => damage(ONE, 0, Rule::Room),
        };
        if opened(alloc, max, messages, &[])? != wanted {
            return Ok(Some(messages.len()));
        }
    }
    Ok(None)
}

#[test]
fn reads_messages(rt: HostRuntime) -> Result<(), Fail> {
    let alloc = rt.alloc();
    assert!(rt; needs_the_queue(alloc)? && wrong_messages(alloc)?.is_none());
    Ok(())
}

// Pages, and the one at which there is damage, with its rule.
const PAGES: [(&[Page], Option<(Page, Rule)>); 5] = [
    (&[(1, 1), (1, 2)], None),
    (&[(1, 1), (1, 3), (1, 5)], Some(((1, 3), Rule::Gap))),
    (&[(1, 2)], Some(((1, 2), Rule::Gap))),
    (&[(1, 1), (2, 1)], Some(((2, 1), Rule::Name))),
    (
        &[(1, 1), (1, (1 << 62) + 1)],
        Some(((1, (1 << 62) + 1), Rule::Name)),
    ),
];

// How many pages the first row has at which an opening comes to something else.
fn wrong_pages(alloc: Global) -> Result<Option<usize>, AllocError> {
    for (pages, want) in PAGES {
        let wanted = match want {
            Some((place, rule)) => damage(page(place), 0, rule),
            None => Ok(0),
        };
        if opened(alloc, 0, &[], pages)? != wanted {
            return Ok(Some(pages.len()));
        }
    }
    Ok(None)
}

#[test]
fn tests_pages(rt: HostRuntime) -> Result<(), Fail> {
    assert!(rt; wrong_pages(rt.alloc())?.is_none());
    Ok(())
}
