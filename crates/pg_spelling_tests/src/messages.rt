use pg_bytes::{Octets, Text};
use pg_msg::{Body, Message, MessageId, Properties, Property, Value, decode, encode, weight};
use std::alloc::{AllocError, Global};
use std::test::Fail;

// Bytes, and how many of them spell a message, if any do.
type Case = (&'static [u8], Option<usize>);

const CASES: [Case; 33] = [
    // A plain message with the body x.
    (b"\0\0\0\x01\0\0\0\x01\x01\0\0\0\0\0\x01x", Some(16)),
    // No body, and bytes behind.
    (b"\0\0\0\x01\0\0\0\x01\x01\0\0\0\0\0\0\0x", Some(15)),
    // A large message.
    (b"\0\0\0\x01\0\0\0\x01\x02\0\0\0\0\0\0\0\0\0\x07", Some(19)),
    // The greatest epoch, number and length.
    (
        b"\xff\xff\xff\xff\xff\xff\xff\xff\x02\0\0\xff\xff\xff\xff\xff\xff\xff\xff",
        Some(19),
    ),
    // An epoch of 0.
    (b"\0\0\0\0\0\0\0\x01\x01\0\0\0\0\0\0", None),
    // A number of 0.
    (b"\0\0\0\x01\0\0\0\0\x01\0\0\0\0\0\0", None),
    // Kinds that there are not.
    (b"\0\0\0\x01\0\0\0\x01\0\0\0\0\0\0\0", None),
    (b"\0\0\0\x01\0\0\0\x01\x03\0\0\0\0\0\0", None),
    // Duplicate ids.
    (b"\0\0\0\x01\0\0\0\x01\x01\x01\0\0\0\0\0\0", Some(16)),
    (
        b"\0\0\0\x01\0\0\0\x01\x01@abcdefghijklmnopqrstuvwxyzABCDEFGHIJKLMNOPQRSTUVWXYZ_$0123456789\0\0\0\0\0",
        Some(79),
    ),
    (
        b"\0\0\0\x01\0\0\0\x01\x01AabcdefghijklmnopqrstuvwxyzABCDEFGHIJKLMNOPQRSTUVWXYZ_$0123456789x\0\0\0\0\0",
        None,
    ),
    // Texts.
    (
        b"\0\0\0\x01\0\0\0\x01\x01\0\x01\x01n\x01\0\0\0\0\0\0",
        Some(20),
    ),
    (
        b"\0\0\0\x01\0\0\0\x01\x01\0\x01\x01n\x01\0\x02\xc3\xa9\0\0\0\0",
        Some(22),
    ),
    (
        b"\0\0\0\x01\0\0\0\x01\x01\0\x01\x01n\x01\0\x01\xc3\0\0\0\0",
        None,
    ),
    // Whole numbers.
    (
        b"\0\0\0\x01\0\0\0\x01\x01\0\x02\x01n\x02\xff\xff\xff\xff\xff\xff\xff\xff\x01N\x02\x80\0\0\0\0\0\0\0\0\0\0\0",
        Some(37),
    ),
    // Truths.
    (
        b"\0\0\0\x01\0\0\0\x01\x01\0\x02\x01n\x03\0\x01m\x03\x01\0\0\0\0",
        Some(23),
    ),
    (b"\0\0\0\x01\0\0\0\x01\x01\0\x01\x01n\x03\x02\0\0\0\0", None),
    // Kinds of values that there are not.
    (b"\0\0\0\x01\0\0\0\x01\x01\0\x01\x01n\0\0\0\0\0\0", None),
    (b"\0\0\0\x01\0\0\0\x01\x01\0\x01\x01n\x04\0\0\0\0\0", None),
    // Names.
    (
        b"\0\0\0\x01\0\0\0\x01\x01\0\x01@abcdefghijklmnopqrstuvwxyzABCDEFGHIJKLMNOPQRSTUVWXYZ_$0123456789\x03\0\0\0\0\0",
        Some(82),
    ),
    (
        b"\0\0\0\x01\0\0\0\x01\x01\0\x01AabcdefghijklmnopqrstuvwxyzABCDEFGHIJKLMNOPQRSTUVWXYZ_$0123456789x\x03\0\0\0\0\0",
        None,
    ),
    (b"\0\0\0\x01\0\0\0\x01\x01\0\x01\0\x03\0\0\0\0\0", None),
    (
        b"\0\0\0\x01\0\0\0\x01\x01\0\x02\x03$_9\x03\0\x04ands\x03\0\0\0\0\0",
        Some(28),
    ),
    (b"\0\0\0\x01\0\0\0\x01\x01\0\x01\x029n\x03\0\0\0\0\0", None),
    (b"\0\0\0\x01\0\0\0\x01\x01\0\x01\x03n.n\x03\0\0\0\0\0", None),
    (
        b"\0\0\0\x01\0\0\0\x01\x01\0\x01\x02\xc3\xa9\x03\0\0\0\0\0",
        None,
    ),
    // Reserved words.
    (b"\0\0\0\x01\0\0\0\x01\x01\0\x01\x03and\x03\0\0\0\0\0", None),
    (b"\0\0\0\x01\0\0\0\x01\x01\0\x01\x02OR\x03\0\0\0\0\0", None),
    (
        b"\0\0\0\x01\0\0\0\x01\x01\0\x01\x07bEtWeEn\x03\0\0\0\0\0",
        None,
    ),
    (
        b"\0\0\0\x01\0\0\0\x01\x01\0\x01\x05FALSE\x03\0\0\0\0\0",
        None,
    ),
    // A name that is repeated.
    (
        b"\0\0\0\x01\0\0\0\x01\x01\0\x03\x01n\x03\0\x01m\x03\0\x01n\x02\0\0\0\0\0\0\0\x01\0\0\0\0",
        None,
    ),
    // A body that passes the end.
    (b"\0\0\0\x01\0\0\0\x01\x01\0\0\0\0\0\x02x", None),
    (b"\0\0\0\x01\0\0\0\x01\x01\0\0\xff\xff\xff\xffx", None),
];

// Whether a message of so many bytes is read, or none where none is wanted. It is spelled, weighed and copied as it stands
// there, and no shorter front is a message.
fn is_read(alloc: Global, bytes: &[u8], wanted: Option<usize>) -> Result<bool, AllocError> {
    let Some((message, length)) = decode(alloc, bytes)? else {
        return Ok(wanted.is_none());
    };
    let again = encode(alloc, &message)?;
    Ok(
        wanted == Some(length)
            && again.as_slice() == &bytes[..length]
            && weight(&message) == length as u64
            && message.copy(alloc)? == message
            && !begins_with_message(alloc, &bytes[..length])?,
    )
}

fn begins_with_message(alloc: Global, bytes: &[u8]) -> Result<bool, AllocError> {
    for length in 0..bytes.len() {
        if decode(alloc, &bytes[..length])?.is_some() {
            return Ok(true);
        }
    }
    Ok(false)
}

// The first case that is read otherwise than the table says.
fn wrong_case(alloc: Global) -> Result<Option<&'static [u8]>, AllocError> {
    for (bytes, length) in CASES {
        if !is_read(alloc, bytes, length)? {
            return Ok(Some(bytes));
        }
    }
    Ok(None)
}

#[test]
fn decodes_what_is_spelled(rt: HostRuntime) -> Result<(), Fail> {
    assert!(rt; wrong_case(rt.alloc())?.is_none());
    Ok(())
}

// The plain message 1-1 with so many properties AA, AB .., all false, and no body.
fn with_properties(alloc: Global, count: u8) -> Result<Vec<u8>, AllocError> {
    let mut bytes = Vec::from_slice(alloc, b"\0\0\0\x01\0\0\0\x01\x01\0")?;
    bytes.push(count)?;
    for i in 0..count {
        bytes.extend_from_slice(&[2, b'A' + i / 26, b'A' + i % 26, 3, 0])?;
    }
    bytes.extend_from_slice(&[0; 4])?;
    Ok(bytes)
}

// The plain message 1-1 with so long a body.
fn with_body(alloc: Global, length: u32) -> Result<Vec<u8>, AllocError> {
    let mut bytes = Vec::from_slice(alloc, b"\0\0\0\x01\0\0\0\x01\x01\0\0")?;
    bytes.extend_from_slice(&length.to_be_bytes())?;
    bytes.append(&mut vec![in alloc; 7; length as usize]?)?;
    Ok(bytes)
}

fn decoded_length(alloc: Global, bytes: &[u8]) -> Result<Option<usize>, AllocError> {
    match decode(alloc, bytes)? {
        Some((_, length)) => Ok(Some(length)),
        None => Ok(None),
    }
}

// At most 100 properties, and at most 102,399 bytes.
fn keeps_the_limits(alloc: Global) -> Result<bool, AllocError> {
    Ok(
        is_read(alloc, &with_properties(alloc, 100)?, Some(515))?
            && is_read(alloc, &with_properties(alloc, 101)?, None)?
            && decoded_length(alloc, &with_body(alloc, 102_384)?)? == Some(102_399)
            && decoded_length(alloc, &with_body(alloc, 102_385)?)?.is_none(),
    )
}

#[test]
fn decodes_up_to_the_limits(rt: HostRuntime) -> Result<(), Fail> {
    assert!(rt; keeps_the_limits(rt.alloc())?);
    Ok(())
}

const ID: MessageId = MessageId {
    epoch: 1,
    number: 0x0102_0304,
};

fn property(alloc: Global, name: &str, value: Value) -> Result<Property, AllocError> {
    Ok(Property {
        name: Text::from_str(alloc, name)?,
        value,
    })
}

// A property of each kind of values.
fn each_kind(alloc: Global) -> Result<Properties, AllocError> {
    let mut properties = Properties::new(alloc);
    let text = Value::Text(Text::from_str(alloc, "\u{e9}")?);
    properties.push(property(alloc, "b", text)?)?;
    properties.push(property(alloc, "a", Value::Whole(-1))?)?;
    properties.push(property(alloc, "c", Value::Whole(i64::MIN))?)?;
    properties.push(property(alloc, "d", Value::Truth(true))?)?;
    Ok(properties)
}

fn plain(alloc: Global) -> Result<Message, AllocError> {
    Ok(Message {
        id: ID,
        dup: Some(Octets::from_slice(alloc, b"\0\xff")?),
        properties: each_kind(alloc)?,
        body: Body::Plain(Octets::from_slice(alloc, b"x")?),
    })
}

fn large(alloc: Global) -> Message {
    Message {
        id: ID,
        dup: None,
        properties: Properties::new(alloc),
        body: Body::Large(0x0102),
    }
}

// The plain message, and two bytes behind it.
const PLAIN: &[u8] =
    b"\0\0\0\x01\x01\x02\x03\x04\x01\x02\0\xff\x04\x01b\x01\0\x02\xc3\xa9\x01a\x02\xff\xff\xff\xff\xff\xff\xff\xff\x01c\x02\x80\0\0\0\0\0\0\0\x01d\x03\x01\0\0\0\x01xyz";

const LARGE: &[u8] = b"\0\0\0\x01\x01\x02\x03\x04\x02\0\0\0\0\0\0\0\0\x01\x02";

// Whether the front of so many bytes is read as this message.
fn reads_as(
    alloc: Global,
    bytes: &[u8],
    message: &Message,
    length: usize,
) -> Result<bool, AllocError> {
    match decode(alloc, bytes)? {
        Some((read, read_length)) => Ok(read == *message && read_length == length),
        None => Ok(false),
    }
}

#[test]
fn decodes_values(rt: HostRuntime) -> Result<(), Fail> {
    let alloc = rt.alloc();
    assert!(rt;
        reads_as(alloc, PLAIN, &plain(alloc)?, 51)? && reads_as(alloc, LARGE, &large(alloc), 19)?
    );
    Ok(())
}
