// What lines are to be read as, and whether they are.

use pg_bytes::{Octets, Text};
use pg_msg::{Command, MessageId, Properties, Property, Value};
use pg_text::parse_line;
use std::alloc::{AllocError, Global};

// The value of a property.
#[derive(Clone, Copy)]
pub enum Plain<'a> {
    Text(&'a str),
    Whole(i64),
    Truth(bool),
}

// Properties, each with its name.
pub type Plains<'a> = &'a [(&'a str, Plain<'a>)];

// The epoch and the number of a message.
pub type Id = (u32, u32);

// What a line is to be read as.
#[derive(Clone, Copy)]
pub enum Wanted<'a> {
    /// Its name, and max, page, ahead and dup.
    Address(&'a str, u64, u64, u64, u32),
    /// Its name, that of the address, and the filter.
    Queue(&'a str, &'a str, Option<&'a str>),
    /// The address and the body, with nothing else.
    Body(&'a str, &'a [u8]),
    /// The transaction and the duplicate id of a message to A with the body `x`.
    Sent(Option<&'a str>, Option<&'a [u8]>),
    /// The properties of a message to A without a body.
    Properties(Plains<'a>),
    Consumer(&'a str, &'a str),
    /// The consumer C, a message and a transaction.
    Ack(Id, Option<&'a str>),
    /// The consumer C and a message.
    Cancel(Id),
    /// The duplicate id and the properties of a large message L to A.
    Large(Option<&'a [u8]>, Plains<'a>),
    /// The bytes of a part of L.
    Part(&'a [u8]),
    /// The consumer C, the message 1-1, the offset and the length.
    PartOf(u64, u64),
    Checkpoint,
    /// A command of the name N.
    One(Word),
    Nothing,
}

// The commands of one name.
#[derive(Clone, Copy)]
pub enum Word {
    Drop,
    Begin,
    Commit,
    Rollback,
    Receive,
    Close,
    End,
    Cleanup,
    Ahead,
    Stat,
    Count,
}

pub type Case = (&'static [u8], Wanted<'static>);

fn text(alloc: Global, text: &str) -> Result<Text, AllocError> {
    Text::from_str(alloc, text)
}

fn maybe_text(alloc: Global, given: Option<&str>) -> Result<Option<Text>, AllocError> {
    match given {
        Some(given) => Ok(Some(text(alloc, given)?)),
        None => Ok(None),
    }
}

fn maybe_octets(alloc: Global, given: Option<&[u8]>) -> Result<Option<Octets>, AllocError> {
    match given {
        Some(given) => Ok(Some(Octets::from_slice(alloc, given)?)),
        None => Ok(None),
    }
}

fn value(alloc: Global, plain: Plain<'_>) -> Result<Value, AllocError> {
    match plain {
        Plain::Text(given) => Ok(Value::Text(text(alloc, given)?)),
        Plain::Whole(number) => Ok(Value::Whole(number)),
        Plain::Truth(truth) => Ok(Value::Truth(truth)),
    }
}

pub fn properties(alloc: Global, plains: Plains<'_>) -> Result<Properties, AllocError> {
    let mut properties = Properties::new(alloc);
    for (name, plain) in plains {
        let name = text(alloc, name)?;
        let value = value(alloc, *plain)?;
        properties.push(Property { name, value })?;
    }
    Ok(properties)
}

fn message(id: Id) -> MessageId {
    MessageId {
        epoch: id.0,
        number: id.1,
    }
}

// A message to A.
fn send(
    alloc: Global,
    tx: Option<&str>,
    id: Option<&[u8]>,
    plains: Plains<'_>,
    body: &[u8],
) -> Result<Command, AllocError> {
    Ok(Command::Send {
        address: text(alloc, "A")?,
        tx: maybe_text(alloc, tx)?,
        id: maybe_octets(alloc, id)?,
        properties: properties(alloc, plains)?,
        body: Octets::from_slice(alloc, body)?,
    })
}

fn one(alloc: Global, word: Word) -> Result<Command, AllocError> {
    let name = text(alloc, "N")?;
    Ok(match word {
        Word::Drop => Command::DropQueue { name },
        Word::Begin => Command::Begin { tx: name },
        Word::Commit => Command::Commit { tx: name },
        Word::Rollback => Command::Rollback { tx: name },
        Word::Receive => Command::Receive { consumer: name },
        Word::Close => Command::Close { consumer: name },
        Word::End => Command::End { name },
        Word::Cleanup => Command::Cleanup { address: name },
        Word::Ahead => Command::Ahead { queue: name },
        Word::Stat => Command::Stat { address: name },
        Word::Count => Command::Count { queue: name },
    })
}

// What makes addresses and queues, and what sends messages.
fn made(alloc: Global, wanted: Wanted<'_>) -> Result<Option<Command>, AllocError> {
    Ok(Some(match wanted {
        Wanted::Address(name, max, page, ahead, dup) => Command::Address {
            name: text(alloc, name)?,
            max,
            page,
            ahead,
            dup,
        },
        Wanted::Queue(name, address, filter) => Command::Queue {
            name: text(alloc, name)?,
            address: text(alloc, address)?,
            filter: maybe_text(alloc, filter)?,
        },
        Wanted::Body(address, body) => Command::Send {
            address: text(alloc, address)?,
            tx: None,
            id: None,
            properties: Properties::new(alloc),
            body: Octets::from_slice(alloc, body)?,
        },
        Wanted::Sent(tx, id) => send(alloc, tx, id, &[], b"x")?,
        Wanted::Properties(plains) => send(alloc, None, None, plains, b"")?,
        Wanted::One(word) => one(alloc, word)?,
        Wanted::Checkpoint => Command::Checkpoint,
        _ => return Ok(None),
    }))
}

// The other commands.
fn others(alloc: Global, wanted: Wanted<'_>) -> Result<Option<Command>, AllocError> {
    Ok(Some(match wanted {
        Wanted::Consumer(name, queue) => Command::Consumer {
            name: text(alloc, name)?,
            queue: text(alloc, queue)?,
        },
        Wanted::Ack(id, tx) => Command::Ack {
            consumer: text(alloc, "C")?,
            message: message(id),
            tx: maybe_text(alloc, tx)?,
        },
        Wanted::Cancel(id) => Command::Cancel {
            consumer: text(alloc, "C")?,
            message: message(id),
        },
        Wanted::Large(id, plains) => Command::Large {
            address: text(alloc, "A")?,
            name: text(alloc, "L")?,
            id: maybe_octets(alloc, id)?,
            properties: properties(alloc, plains)?,
        },
        Wanted::Part(bytes) => Command::Part {
            name: text(alloc, "L")?,
            bytes: Octets::from_slice(alloc, bytes)?,
        },
        Wanted::PartOf(from, length) => Command::PartOf {
            consumer: text(alloc, "C")?,
            message: message((1, 1)),
            from,
            length,
        },
        _ => return Ok(None),
    }))
}

// Whether the line is read as what is wanted, or is unreadable where nothing is.
pub fn is_read(alloc: Global, line: &[u8], wanted: Wanted<'_>) -> Result<bool, AllocError> {
    let read = parse_line(alloc, line)?;
    let made = made(alloc, wanted)?;
    let others = others(alloc, wanted)?;
    if matches!(wanted, Wanted::Nothing) {
        return Ok(read.is_none());
    }
    Ok(read.is_some() && (read == made || read == others))
}

// The first line of the table that is read otherwise.
pub fn wrong_line(alloc: Global, cases: &[Case]) -> Result<Option<&'static [u8]>, AllocError> {
    for (line, wanted) in cases {
        if !is_read(alloc, line, *wanted)? {
            return Ok(Some(line));
        }
    }
    Ok(None)
}
