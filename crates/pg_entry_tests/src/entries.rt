use pg_bytes::{Octets, Text, put_bytes, put_u8, put_u16, put_u32};
use pg_msg::{Body, Message, MessageId, Pages, Properties, QueueIds};
use pg_records::{Entry, decode_batch, encode_batch};
use std::alloc::{AllocError, Global};
use std::test::Fail;

// An entry of each code, as the table of entries spells it.
const SPELLED: [&[u8]; 15] = [
    // epoch 7
    b"\x01\0\0\0\x07",
    // address 1, `A`, max 50, page 100, ahead 64, dup 2
    b"\x02\0\0\0\x01\x01A\0\0\0\0\0\0\0\x32\0\0\0\0\0\0\0\x64\0\0\0\0\0\0\0\x40\0\0\0\x02",
    // queue 1, address 1, `Q`, `n < 5`
    b"\x03\0\0\0\x01\0\0\0\x01\x01Q\0\x05n < 5",
    // queue 1
    b"\x04\0\0\0\x01",
    // address 1, two queues, 1 and 2, the plain message 1-1 with no duplicate id, no property and the body `x`
    b"\x05\0\0\0\x01\0\x02\0\0\0\x01\0\0\0\x02\0\0\0\x01\0\0\0\x01\x01\0\0\0\0\0\x01x",
    // queue 1, message 1-2
    b"\x06\0\0\0\x01\0\0\0\x01\0\0\0\x02",
    // queue 1, page 3, index 4
    b"\x07\0\0\0\x01\0\0\0\0\0\0\0\x03\0\0\0\x04",
    // queue 1, page 3
    b"\x08\0\0\0\x01\0\0\0\0\0\0\0\x03",
    // transaction 1-2, two addresses, 1 with the last page 5 and 2 with the last page 6
    b"\x09\0\0\0\x01\0\0\0\x02\0\x02\0\0\0\x01\0\0\0\0\0\0\0\x05\0\0\0\x02\0\0\0\0\0\0\0\x06",
    // address 1, two bytes
    b"\x0a\0\0\0\x01\x02\xff\0",
    // message 1-2, length 9, one queue, 1
    b"\x0b\0\0\0\x01\0\0\0\x02\0\0\0\0\0\0\0\x09\0\x01\0\0\0\x01",
    // queue 1, message 1-2
    b"\x0c\0\0\0\x01\0\0\0\x01\0\0\0\x02",
    // address 1, page 2
    b"\x0d\0\0\0\x01\0\0\0\0\0\0\0\x02",
    // queue 2
    b"\x0e\0\0\0\x02",
    // queue 1, page 3, from 4 to 4
    b"\x0f\0\0\0\x01\0\0\0\0\0\0\0\x03\0\0\0\x04\0\0\0\x04",
];

const FIRST: MessageId = MessageId {
    epoch: 1,
    number: 1,
};

const SECOND: MessageId = MessageId {
    epoch: 1,
    number: 2,
};

fn ids(alloc: Global, numbers: &[u32]) -> Result<QueueIds, AllocError> {
    Ok(QueueIds::from_vec(Vec::from_slice(alloc, numbers)?))
}

// The entries of addresses and queues among those that `SPELLED` has.
fn made(alloc: Global, code: u8) -> Result<Option<Entry>, AllocError> {
    let entry = match code {
        1 => Entry::Epoch { epoch: 7 },
        2 => Entry::Address {
            address: 1,
            name: Text::from_str(alloc, "A")?,
            max: 50,
            page: 100,
            ahead: 64,
            dup: 2,
        },
        3 => Entry::Queue {
            queue: 1,
            address: 1,
            name: Text::from_str(alloc, "Q")?,
            filter: Text::from_str(alloc, "n < 5")?,
        },
        4 => Entry::DropQueue { queue: 1 },
        10 => Entry::Dup {
            address: 1,
            id: Octets::from_slice(alloc, b"\xff\0")?,
        },
        13 => Entry::FirstPage {
            address: 1,
            page: 2,
        },
        14 => Entry::NextQueue { queue: 2 },
        _ => return Ok(None),
    };
    Ok(Some(entry))
}

// The entries of messages among those that `SPELLED` has.
fn sent(alloc: Global, code: u8) -> Result<Option<Entry>, AllocError> {
    let entry = match code {
        5 => Entry::Add {
            address: 1,
            queues: ids(alloc, &[1, 2])?,
            message: Message {
                id: FIRST,
                dup: None,
                properties: Properties::new(alloc),
                body: Body::Plain(Octets::from_slice(alloc, b"x")?),
            },
        },
        9 => {
            let mut last = Pages::new(alloc);
            last.push(1, 5)?;
            last.push(2, 6)?;
            Entry::PageTx { tx: SECOND, last }
        }
        11 => Entry::LargeAdd {
            message: SECOND,
            length: 9,
            queues: ids(alloc, &[1])?,
        },
        _ => return Ok(None),
    };
    Ok(Some(entry))
}

// The acknowledgements among those that `SPELLED` has.
fn acknowledged(code: u8) -> Option<Entry> {
    match code {
        6 => Some(Entry::Ack {
            queue: 1,
            message: SECOND,
        }),
        7 => Some(Entry::AckAt {
            queue: 1,
            page: 3,
            index: 4,
        }),
        8 => Some(Entry::PageDone { queue: 1, page: 3 }),
        12 => Some(Entry::LargeAck {
            queue: 1,
            message: SECOND,
        }),
        15 => Some(Entry::AckRun {
            queue: 1,
            page: 3,
            from: 4,
            to: 4,
        }),
        _ => None,
    }
}

fn entry_of(alloc: Global, code: u8) -> Result<Option<Entry>, AllocError> {
    if let Some(entry) = made(alloc, code)? {
        return Ok(Some(entry));
    }
    if let Some(entry) = sent(alloc, code)? {
        return Ok(Some(entry));
    }
    Ok(acknowledged(code))
}

// The bytes that the entries which were read are spelled with, or None where none were read.
fn respelled(alloc: Global, bytes: &[u8]) -> Result<Option<Octets>, AllocError> {
    let Some(entries) = decode_batch(alloc, bytes)? else {
        return Ok(None);
    };
    Ok(Some(encode_batch(alloc, &entries)?))
}

// Whether the bytes are read as the entries that spell them, or as none.
fn is_sound(alloc: Global, bytes: &[u8]) -> Result<bool, AllocError> {
    match respelled(alloc, bytes)? {
        Some(spelled) => Ok(spelled.as_slice() == bytes),
        None => Ok(true),
    }
}

fn is_refused(alloc: Global, bytes: &[u8]) -> Result<bool, AllocError> {
    Ok(decode_batch(alloc, bytes)?.is_none())
}

// Whether the bytes are read as the entries that spell them.
fn is_spelled(alloc: Global, bytes: &[u8]) -> Result<bool, AllocError> {
    match respelled(alloc, bytes)? {
        Some(spelled) => Ok(spelled.as_slice() == bytes),
        None => Ok(false),
    }
}

fn is_only(entry: &Entry, entries: &[Entry]) -> bool {
    match entries {
        [only] => *only == *entry,
        _ => false,
    }
}

// Whether the bytes are read as the one entry of their code.
fn is_read(alloc: Global, bytes: &[u8]) -> Result<bool, AllocError> {
    let code = bytes.first().copied().unwrap_or(0);
    let Some(entry) = entry_of(alloc, code)? else {
        return Ok(false);
    };
    match decode_batch(alloc, bytes)? {
        Some(entries) => Ok(is_only(&entry, &entries)),
        None => Ok(false),
    }
}

// The page 0, which is spelled wherever a page may stand.
const PAGE_ZERO: [&[u8]; 6] = [
    b"\x07\0\0\0\x01\0\0\0\0\0\0\0\0\0\0\0\x04",
    b"\x08\0\0\0\x01\0\0\0\0\0\0\0\0",
    b"\x09\0\0\0\x01\0\0\0\x02\0\x01\0\0\0\x01\0\0\0\0\0\0\0\0",
    // beside the page 5 of another address
    b"\x09\0\0\0\x01\0\0\0\x02\0\x02\0\0\0\x01\0\0\0\0\0\0\0\0\0\0\0\x02\0\0\0\0\0\0\0\x05",
    b"\x0d\0\0\0\x01\0\0\0\0\0\0\0\0",
    b"\x0f\0\0\0\x01\0\0\0\0\0\0\0\0\0\0\0\x04\0\0\0\x04",
];

// The first of them that isn't read as what it spells.
fn unread_page(alloc: Global) -> Result<Option<&'static [u8]>, AllocError> {
    for bytes in PAGE_ZERO {
        if !is_spelled(alloc, bytes)? {
            return Ok(Some(bytes));
        }
    }
    Ok(None)
}

// The first entry that isn't read as the one of its code.
fn unread_entry(alloc: Global) -> Result<Option<&'static [u8]>, AllocError> {
    for bytes in SPELLED {
        if !is_read(alloc, bytes)? || !is_spelled(alloc, bytes)? {
            return Ok(Some(bytes));
        }
    }
    Ok(None)
}

#[test]
fn spells_and_reads_each_entry(rt: HostRuntime) -> Result<(), Fail> {
    let alloc = rt.alloc();
    assert!(rt; unread_entry(alloc)?.is_none() && unread_page(alloc)?.is_none());
    Ok(())
}

// The front, the byte and what is behind, one behind the other.
fn joined(alloc: Global, front: &[u8], byte: u8, behind: &[u8]) -> Result<Vec<u8>, AllocError> {
    let mut bytes = Vec::from_slice(alloc, front)?;
    bytes.push(byte)?;
    bytes.extend_from_slice(behind)?;
    Ok(bytes)
}

// The bytes without the first of those behind the front.
fn without(alloc: Global, front: &[u8], behind: &[u8]) -> Result<Vec<u8>, AllocError> {
    let mut left = Vec::from_slice(alloc, front)?;
    left.extend_from_slice(behind.get(1..).unwrap_or(behind))?;
    Ok(left)
}

// Whether the bytes with a 0 behind the front are refused. An Add entry may be another one with such a 0, since its fields
// then begin elsewhere.
fn is_refused_with_zero(alloc: Global, front: &[u8], behind: &[u8]) -> Result<bool, AllocError> {
    let longer = joined(alloc, front, 0, behind)?;
    Ok(is_refused(alloc, &longer)? || front.first() == Some(&5) && is_sound(alloc, &longer)?)
}

// The first place up to which the bytes are still an entry, or without which they are one, or with a 0 before which.
fn first_read(alloc: Global, bytes: &[u8]) -> Result<Option<usize>, AllocError> {
    for at in 0..bytes.len() {
        let (front, behind) = bytes.split_at(at);
        let refused = is_refused(alloc, front)?
            && is_refused(alloc, &without(alloc, front, behind)?)?
            && is_refused_with_zero(alloc, front, behind)?;
        if !refused {
            return Ok(Some(at));
        }
    }
    Ok(None)
}

// The first entry that is still read with a byte more or less.
fn read_entry(alloc: Global) -> Result<Option<&'static [u8]>, AllocError> {
    for bytes in SPELLED {
        let longer = joined(alloc, bytes, 0, &[])?;
        if first_read(alloc, bytes)?.is_some() || !is_refused(alloc, &longer)? {
            return Ok(Some(bytes));
        }
    }
    Ok(None)
}

#[test]
fn refuses_what_is_short_or_long(rt: HostRuntime) -> Result<(), Fail> {
    assert!(rt; read_entry(rt.alloc())?.is_none());
    Ok(())
}

// What spells no list of entries.
const REFUSED: [&[u8]; 31] = [
    b"",
    // no such code
    b"\0\0\0\0\x07",
    b"\x10\0\0\0\x07",
    b"\xff\0\0\0\x07",
    // bytes behind the last entry
    b"\x01\0\0\0\x07\x01\0\0\0",
    // names
    b"\x03\0\0\0\x01\0\0\0\x01\0\0\0",
    b"\x03\0\0\0\x01\0\0\0\x01\x019\0\0",
    b"\x03\0\0\0\x01\0\0\0\x01\x02Q \0\0",
    b"\x03\0\0\0\x01\0\0\0\x01\x02Q\0\0\0",
    b"\x03\0\0\0\x01\0\0\0\x01\x02\xc3\xa9\0\0",
    // filters: no UTF-8, cut within a character, longer than what is left
    b"\x03\0\0\0\x01\0\0\0\x01\x01Q\0\x01\xff",
    b"\x03\0\0\0\x01\0\0\0\x01\x01Q\0\x01\xc3",
    b"\x03\0\0\0\x01\0\0\0\x01\x01Q\0\x02x",
    // lists of queues: none, twice the same, not ascending
    b"\x05\0\0\0\x01\0\0\0\0\0\x01\0\0\0\x01\x01\0\0\0\0\0\x01x",
    b"\x05\0\0\0\x01\0\x02\0\0\0\x01\0\0\0\x01\0\0\0\x01\0\0\0\x01\x01\0\0\0\0\0\x01x",
    b"\x05\0\0\0\x01\0\x02\0\0\0\x02\0\0\0\x01\0\0\0\x01\0\0\0\x01\x01\0\0\0\0\0\x01x",
    b"\x0b\0\0\0\x01\0\0\0\x02\0\0\0\0\0\0\0\x09\0\0",
    // messages: epoch 0, number 0, kind 3
    b"\x05\0\0\0\x01\0\x01\0\0\0\x01\0\0\0\0\0\0\0\x01\x01\0\0\0\0\0\x01x",
    b"\x05\0\0\0\x01\0\x01\0\0\0\x01\0\0\0\x01\0\0\0\0\x01\0\0\0\0\0\x01x",
    b"\x05\0\0\0\x01\0\x01\0\0\0\x01\0\0\0\x01\0\0\0\x01\x03\0\0\0\0\0\x01x",
    // ids of messages: epoch 0, number 0
    b"\x06\0\0\0\x01\0\0\0\0\0\0\0\x02",
    b"\x06\0\0\0\x01\0\0\0\x01\0\0\0\0",
    b"\x09\0\0\0\0\0\0\0\x02\0\x01\0\0\0\x01\0\0\0\0\0\0\0\x05",
    b"\x0b\0\0\0\x01\0\0\0\0\0\0\0\0\0\0\0\x09\0\x01\0\0\0\x01",
    b"\x0c\0\0\0\x01\0\0\0\0\0\0\0\x02",
    // lists of pages: none, twice the same address, not ascending
    b"\x09\0\0\0\x01\0\0\0\x02\0\0",
    b"\x09\0\0\0\x01\0\0\0\x02\0\x02\0\0\0\x01\0\0\0\0\0\0\0\x05\0\0\0\x01\0\0\0\0\0\0\0\x06",
    b"\x09\0\0\0\x01\0\0\0\x02\0\x02\0\0\0\x02\0\0\0\0\0\0\0\x05\0\0\0\x01\0\0\0\0\0\0\0\x06",
    // a duplicate id of no bytes
    b"\x0a\0\0\0\x01\0",
    // the first place above the last
    b"\x0f\0\0\0\x01\0\0\0\0\0\0\0\x03\0\0\0\x05\0\0\0\x04",
    // a whole entry behind one that is none
    b"\x04\0\0\0\x01\0\x04\0\0\0\x01",
];

// A Queue entry with a name of so many bytes.
fn named(alloc: Global, count: u8) -> Result<Octets, AllocError> {
    let mut out = Octets::from_slice(alloc, b"\x03\0\0\0\x01\0\0\0\x01")?;
    put_u8(&mut out, count)?;
    put_bytes(&mut out, &vec![in alloc; b'Q'; usize::from(count)]?)?;
    put_u16(&mut out, 0)?;
    Ok(out)
}

// A Dup entry with an id of so many bytes.
fn seen(alloc: Global, count: u8) -> Result<Octets, AllocError> {
    let mut out = Octets::from_slice(alloc, b"\x0a\0\0\0\x01")?;
    put_u8(&mut out, count)?;
    put_bytes(&mut out, &vec![in alloc; 0; usize::from(count)]?)?;
    Ok(out)
}

// A LargeAdd entry that names so many queues.
fn given(alloc: Global, count: u16) -> Result<Octets, AllocError> {
    let mut out = Octets::from_slice(alloc, b"\x0b\0\0\0\x01\0\0\0\x02\0\0\0\0\0\0\0\x09")?;
    put_u16(&mut out, count)?;
    for queue in 0..count {
        put_u32(&mut out, u32::from(queue))?;
    }
    Ok(out)
}

// How many bytes a name or a duplicate id has, and whether that is refused.
const LENGTHS: [(u8, bool); 4] = [(1, false), (64, false), (65, true), (255, true)];

// How many queues are named, and whether that is refused.
const COUNTS: [(u16, bool); 4] = [(1, false), (1_000, false), (1_001, true), (65_535, true)];

fn read_row(alloc: Global) -> Result<Option<&'static [u8]>, AllocError> {
    for bytes in REFUSED {
        if !is_refused(alloc, bytes)? {
            return Ok(Some(bytes));
        }
    }
    Ok(None)
}

fn wrong_length(alloc: Global) -> Result<Option<u8>, AllocError> {
    for (count, refused) in LENGTHS {
        if is_refused(alloc, named(alloc, count)?.as_slice())? != refused
            || is_refused(alloc, seen(alloc, count)?.as_slice())? != refused
        {
            return Ok(Some(count));
        }
    }
    Ok(None)
}

fn wrong_count(alloc: Global) -> Result<Option<u16>, AllocError> {
    for (count, refused) in COUNTS {
        if is_refused(alloc, given(alloc, count)?.as_slice())? != refused {
            return Ok(Some(count));
        }
    }
    Ok(None)
}

#[test]
fn refuses_what_is_out_of_range(rt: HostRuntime) -> Result<(), Fail> {
    let alloc = rt.alloc();
    assert!(rt;
        read_row(alloc)?.is_none()
            && wrong_length(alloc)?.is_none()
            && wrong_count(alloc)?.is_none()
    );
    Ok(())
}

// A batch of an Epoch, a Queue, an Add, a PageDone and an AckRun entry.
const BATCH: &[u8] =
    b"\x01\0\0\0\x07\x03\0\0\0\x01\0\0\0\x01\x01Q\0\x05n < 5\x05\0\0\0\x01\0\x02\0\0\0\x01\0\0\0\x02\0\0\0\x01\0\0\0\x01\x01\0\0\0\0\0\x01x\x08\0\0\0\x01\0\0\0\0\0\0\0\x03\x0f\0\0\0\x01\0\0\0\0\0\0\0\x03\0\0\0\x04\0\0\0\x04";

// The first value which the bytes with it between front and behind aren't sound with.
fn unsound_value(alloc: Global, front: &[u8], behind: &[u8]) -> Result<Option<u8>, AllocError> {
    for value in 0..=255 {
        if !is_sound(alloc, &joined(alloc, front, value, behind)?)? {
            return Ok(Some(value));
        }
    }
    Ok(None)
}

// The first place at which a value is that the batch isn't sound with.
fn unsound_place(alloc: Global) -> Result<Option<usize>, AllocError> {
    for at in 0..BATCH.len() {
        let (front, behind) = BATCH.split_at(at);
        let behind = behind.get(1..).unwrap_or(behind);
        if unsound_value(alloc, front, behind)?.is_some() {
            return Ok(Some(at));
        }
    }
    Ok(None)
}

#[test]
fn reads_nothing_but_what_is_spelled(rt: HostRuntime) -> Result<(), Fail> {
    assert!(rt; is_spelled(rt.alloc(), BATCH)? && unsound_place(rt.alloc())?.is_none());
    Ok(())
}
