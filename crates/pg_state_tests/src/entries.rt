// Entries, and the state that some of them give.
use pg_bytes::{Octets, Text};
use pg_disk::Rule;
use pg_fold::{Durable, FoldError};
use pg_msg::{Body, Message, MessageId, Pages, Properties, QueueIds};
use pg_records::Entry;
use std::alloc::{AllocError, Global};

/// The settings of an address: max, page, ahead, dup.
pub type Settings = (u64, u64, u64, u32);

pub const USUAL: Settings = (50, 100, 64, 2);

pub const FIRST: MessageId = MessageId {
    epoch: 1,
    number: 1,
};

pub const SECOND: MessageId = MessageId {
    epoch: 2,
    number: 1,
};

pub fn address(
    alloc: Global,
    address: u32,
    name: &str,
    settings: Settings,
) -> Result<Entry, AllocError> {
    let (max, page, ahead, dup) = settings;
    Ok(Entry::Address {
        address,
        name: Text::from_str(alloc, name)?,
        max,
        page,
        ahead,
        dup,
    })
}

pub fn queue(
    alloc: Global,
    queue: u32,
    address: u32,
    name: &str,
    filter: &str,
) -> Result<Entry, AllocError> {
    let name = Text::from_str(alloc, name)?;
    let filter = Text::from_str(alloc, filter)?;
    Ok(Entry::Queue {
        queue,
        address,
        name,
        filter,
    })
}

fn message(alloc: Global, id: MessageId) -> Result<Message, AllocError> {
    let body = Octets::from_slice(alloc, b"x")?;
    Ok(Message {
        id,
        dup: None,
        properties: Properties::new(alloc),
        body: Body::Plain(body),
    })
}

pub fn add(
    alloc: Global,
    address: u32,
    queues: &[u32],
    id: MessageId,
) -> Result<Entry, AllocError> {
    let queues = QueueIds::from_vec(Vec::from_slice(alloc, queues)?);
    let message = message(alloc, id)?;
    Ok(Entry::Add {
        address,
        queues,
        message,
    })
}

// The entries that make two addresses and four queues, the last of which is dropped, and two messages.
fn entry_at(alloc: Global, place: u32) -> Result<Entry, AllocError> {
    match place {
        0 => Ok(Entry::Epoch { epoch: 2 }),
        1 => address(alloc, 1, "A", USUAL),
        2 => address(alloc, 2, "B", USUAL),
        3 => queue(alloc, 1, 1, "Q", ""),
        4 => queue(alloc, 2, 1, "R", ""),
        5 => queue(alloc, 3, 2, "S", ""),
        6 => queue(alloc, 4, 1, "T", ""),
        7 => Ok(Entry::DropQueue { queue: 4 }),
        8 => add(alloc, 1, &[1, 2], FIRST),
        _ => add(alloc, 1, &[2], SECOND),
    }
}

/// The state that they give.
pub fn made(alloc: Global) -> Result<Durable, FoldError> {
    let mut durable = Durable::fresh(alloc);
    for place in 0..10 {
        durable = applied(alloc, durable, entry_at(alloc, place)?)?;
    }
    Ok(durable)
}

/// The state behind the entry.
pub fn applied(alloc: Global, durable: Durable, entry: Entry) -> Result<Durable, FoldError> {
    durable.apply(alloc, entry)
}

/// The rule that the entry breaks there, or None where it is applied.
pub fn broken(alloc: Global, durable: Durable, entry: Entry) -> Result<Option<Rule>, AllocError> {
    match applied(alloc, durable, entry) {
        Ok(_) => Ok(None),
        Err(FoldError::Broken(rule)) => Ok(Some(rule)),
        Err(FoldError::Memory) => Err(AllocError),
    }
}

/// The rule that the entry breaks in the state that the entries above give.
pub fn broken_there(alloc: Global, entry: Entry) -> Result<Option<Rule>, FoldError> {
    let durable = made(alloc)?;
    Ok(broken(alloc, durable, entry)?)
}

/// An entry that names the page: an AckAt, a PageDone, a FirstPage or an AckRun entry.
pub fn paged(code: u8, page: u64) -> Entry {
    match code {
        7 => Entry::AckAt {
            queue: 1,
            page,
            index: 0,
        },
        8 => Entry::PageDone { queue: 1, page },
        13 => Entry::FirstPage { address: 1, page },
        _ => Entry::AckRun {
            queue: 1,
            page,
            from: 0,
            to: 0,
        },
    }
}

/// A PageTx entry of one address.
pub fn page_tx(alloc: Global, address: u32, page: u64) -> Result<Entry, AllocError> {
    let mut last = Pages::new(alloc);
    last.push(address, page)?;
    Ok(Entry::PageTx { tx: FIRST, last })
}

/// An entry with one number: an Epoch, a DropQueue or a NextQueue entry, or one that isn't built.
pub fn numbered(code: u8, number: u32) -> Entry {
    match code {
        1 => Entry::Epoch { epoch: number },
        4 => Entry::DropQueue { queue: number },
        14 => Entry::NextQueue { queue: number },
        7 => Entry::AckAt {
            queue: number,
            page: 1,
            index: 0,
        },
        8 => Entry::PageDone {
            queue: number,
            page: 1,
        },
        12 => Entry::LargeAck {
            queue: number,
            message: FIRST,
        },
        13 => Entry::FirstPage {
            address: number,
            page: 2,
        },
        _ => Entry::AckRun {
            queue: number,
            page: 1,
            from: 0,
            to: 0,
        },
    }
}
