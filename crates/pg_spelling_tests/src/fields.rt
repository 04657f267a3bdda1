ghost use Rattle.std.specs.Prelude.{◌≡◌, length, IfOk};

use pg_bytes::{Octets, Text};
use pg_msg::fields::{
    Unread, put_message_id, put_name, put_pages, put_queue_ids, read_message_id, read_name,
    read_pages, read_queue_ids,
};
use pg_msg::{MessageId, Pages, QueueIds};
use std::alloc::{AllocError, Global};
use std::test::Fail;

// A name, two queues, an address with its last page, and the id of a message.
const FIELDS: &[u8] =
    b"\x01Q\0\x02\0\0\0\x01\xff\xff\xff\xff\0\x01\0\0\0\x02\0\0\0\0\0\0\0\x03\0\0\0\x04\0\0\0\x05";

const ID: MessageId = MessageId {
    epoch: 4,
    number: 5,
};

fn queues(alloc: Global) -> Result<QueueIds, AllocError>
    ensures { IfOk result (λ queues. length queues ≡ 2) }
{
    let mut queues = QueueIds::new(alloc);
    queues.push(1)?;
    queues.push(u32::MAX)?;
    Ok(queues)
}

fn pages(alloc: Global) -> Result<Pages, AllocError>
    ensures { IfOk result (λ pages. length pages ≡ 1) }
{
    let mut pages = Pages::new(alloc);
    pages.push(2, 3)?;
    Ok(pages)
}

fn written(alloc: Global) -> Result<Octets, AllocError> {
    let mut out = Octets::new(alloc);
    put_name(&mut out, &Text::from_str(alloc, "Q")?)?;
    put_queue_ids(&mut out, &queues(alloc)?)?;
    put_pages(&mut out, &pages(alloc)?)?;
    put_message_id(&mut out, ID)?;
    Ok(out)
}

// Whether each field is read from its place, with the bytes behind it.
fn name_is_read(alloc: Global) -> Result<bool, AllocError> {
    let name = Text::from_str(alloc, "Q")?;
    Ok(read_name(alloc, FIELDS) == Ok((name, &FIELDS[2..])))
}

fn queues_are_read(alloc: Global) -> Result<bool, AllocError> {
    let queues = queues(alloc)?;
    Ok(read_queue_ids(alloc, &FIELDS[2..]) == Ok((queues, &FIELDS[12..])))
}

fn pages_are_read(alloc: Global) -> Result<bool, AllocError> {
    let pages = pages(alloc)?;
    Ok(read_pages(alloc, &FIELDS[12..]) == Ok((pages, &FIELDS[26..])))
}

fn id_is_read() -> bool {
    read_message_id(&FIELDS[26..]) == Ok((ID, &FIELDS[34..]))
}

#[test]
fn puts_fields(rt: HostRuntime) -> Result<(), Fail> {
    assert!(rt; written(rt.alloc())?.as_slice() == FIELDS);
    Ok(())
}

#[test]
fn reads_fields(rt: HostRuntime) -> Result<(), Fail> {
    let alloc = rt.alloc();
    assert!(rt;
        name_is_read(alloc)? && queues_are_read(alloc)? && pages_are_read(alloc)? && id_is_read()
    );
    Ok(())
}

// So many queues, of the ids from 0 on, behind their count.
fn queues_to(alloc: Global, count: u16) -> Result<Vec<u8>, AllocError> {
    let mut bytes = Vec::from_slice(alloc, &count.to_be_bytes())?;
    for i in 0..count {
        bytes.extend_from_slice(&u32::from(i).to_be_bytes())?;
    }
    Ok(bytes)
}

#[derive(Clone, Copy)]
enum Field {
    Name,
    Queues,
    Pages,
}

const REFUSED: [(Field, &[u8]); 16] = [
    (Field::Name, b""),
    (Field::Name, b"\0"),
    (Field::Name, b"\x02Q"),
    (Field::Name, b"\x01."),
    (Field::Name, b"\x02-Q"),
    (Field::Name, b"\x02Q/"),
    (Field::Name, b"\x02Q\xff"),
    (Field::Name, b"\x029Q"),
    (Field::Queues, b"\0"),
    (Field::Queues, b"\0\0"),
    (Field::Queues, b"\0\x01\0\0\0"),
    (Field::Queues, b"\0\x02\0\0\0\x01\0\0\0\x01"),
    (Field::Queues, b"\0\x02\0\0\0\x02\0\0\0\x01"),
    (Field::Pages, b"\0\0"),
    (Field::Pages, b"\0\x01\0\0\0\x02\0\0\0\0\0\0\0"),
    (
        Field::Pages,
        b"\0\x02\0\0\0\x02\0\0\0\0\0\0\0\x01\0\0\0\x02\0\0\0\0\0\0\0\x01",
    ),
];

fn why_refused(alloc: Global, field: Field, bytes: &[u8]) -> Option<Unread> {
    match field {
        Field::Name => read_name(alloc, bytes).err(),
        Field::Queues => read_queue_ids(alloc, bytes).err(),
        Field::Pages => read_pages(alloc, bytes).err(),
    }
}

// The first row that isn't refused for what it has.
fn wrong_field(alloc: Global) -> Option<&'static [u8]> {
    for (field, bytes) in REFUSED {
        if why_refused(alloc, field, bytes) != Some(Unread::Malformed) {
            return Some(bytes);
        }
    }
    None
}

// The page 0 is read as any other.
fn reads_page_zero(alloc: Global) -> bool {
    why_refused(alloc, Field::Pages, b"\0\x01\0\0\0\x02\0\0\0\0\0\0\0\0").is_none()
}

// At most 1,000 queues.
fn keeps_the_limit(alloc: Global) -> Result<bool, AllocError> {
    let most = queues_to(alloc, 1000)?;
    let more = queues_to(alloc, 1001)?;
    Ok(
        why_refused(alloc, Field::Queues, &most).is_none()
            && why_refused(alloc, Field::Queues, &more) == Some(Unread::Malformed),
    )
}

#[test]
fn refuses_what_is_no_field(rt: HostRuntime) -> Result<(), Fail> {
    let alloc = rt.alloc();
    assert!(rt; wrong_field(alloc).is_none() && reads_page_zero(alloc) && keeps_the_limit(alloc)?);
    Ok(())
}
