// How frames are spelled.

use pg_bytes::Octets;
use pg_msg::{Body, Message, MessageId, Properties, QueueIds};
use pg_page::{Frame, decode_frame, encode_frame};
use std::alloc::{AllocError, Global};
use std::test::Fail;

// The frame for queue 1 of the plain message 1-1 with no duplicate id, no property and the body `x`.
pub const X: &[u8] = b"\x01\0\0\0\0\0\0\0\0\0\x01\0\0\0\x01\0\0\0\x01\0\0\0\x01\x01\0\0\0\0\0\x01x";

// Frames as they are spelled. `made` has them as values.
const SPELLED: [&[u8]; 4] = [
    X,
    // the same in the transaction 2-3
    b"\x01\0\0\0\x02\0\0\0\x03\0\x01\0\0\0\x01\0\0\0\x01\0\0\0\x01\x01\0\0\0\0\0\x01x",
    // for the queues 1, 2 and 258
    b"\x01\0\0\0\0\0\0\0\0\0\x03\0\0\0\x01\0\0\0\x02\0\0\x01\x02\0\0\0\x01\0\0\0\x01\x01\0\0\0\0\0\x01x",
    // of a large message with a body of 9 bytes
    b"\x01\0\0\0\0\0\0\0\0\0\x01\0\0\0\x01\0\0\0\x01\0\0\0\x01\x02\0\0\0\0\0\0\0\0\0\x09",
];

const TX: MessageId = MessageId {
    epoch: 2,
    number: 3,
};

const FIRST: MessageId = MessageId {
    epoch: 1,
    number: 1,
};

// The frame for these queues of a message 1-1 with this body alone.
fn frame(
    alloc: Global,
    tx: Option<MessageId>,
    queues: &[u32],
    body: Body,
) -> Result<Frame, AllocError> {
    let message = Message {
        id: FIRST,
        dup: None,
        properties: Properties::new(alloc),
        body,
    };
    Ok(Frame {
        tx,
        queues: QueueIds::from_vec(Vec::from_slice(alloc, queues)?),
        message,
    })
}

// The frame that stands at this place of `SPELLED`.
fn made(alloc: Global, place: usize) -> Result<Frame, AllocError> {
    let x = Body::Plain(Octets::from_slice(alloc, b"x")?);
    match place {
        0 => frame(alloc, None, &[1], x),
        1 => frame(alloc, Some(TX), &[1], x),
        2 => frame(alloc, None, &[1, 2, 258], x),
        _ => frame(alloc, None, &[1], Body::Large(9)),
    }
}

// Whether the bytes are read as this frame, which is spelled by them.
fn is_spelled(alloc: Global, bytes: &[u8], frame: &Frame) -> Result<bool, AllocError> {
    let Some(read) = decode_frame(alloc, bytes)? else {
        return Ok(false);
    };
    let spelled = encode_frame(alloc, &read)?;
    Ok(read == *frame && spelled.as_slice() == bytes)
}

// The first frame that is read or spelled otherwise.
fn wrong_spelling(alloc: Global) -> Result<Option<usize>, AllocError> {
    for (place, bytes) in SPELLED.iter().enumerate() {
        if !is_spelled(alloc, *bytes, &made(alloc, place)?)? {
            return Ok(Some(place));
        }
    }
    Ok(None)
}

#[test]
fn frames_have_their_spelling(rt: HostRuntime) -> Result<(), Fail> {
    assert!(rt; wrong_spelling(rt.alloc())? == None);
    Ok(())
}

// Bytes that spell no frame: X with one field that is wrong by one, or the like.
const UNSPELLED: [&[u8]; 18] = [
    b"",
    // the format 0, and 2
    b"\0\0\0\0\0\0\0\0\0\0\x01\0\0\0\x01\0\0\0\x01\0\0\0\x01\x01\0\0\0\0\0\x01x",
    b"\x02\0\0\0\0\0\0\0\0\0\x01\0\0\0\x01\0\0\0\x01\0\0\0\x01\x01\0\0\0\0\0\x01x",
    // half a transaction
    b"\x01\0\0\0\0\0\0\0\x01\0\x01\0\0\0\x01\0\0\0\x01\0\0\0\x01\x01\0\0\0\0\0\x01x",
    b"\x01\0\0\0\x01\0\0\0\0\0\x01\0\0\0\x01\0\0\0\x01\0\0\0\x01\x01\0\0\0\0\0\x01x",
    // no queue, and one fewer or more than the count says
    b"\x01\0\0\0\0\0\0\0\0\0\0\0\0\0\x01\0\0\0\x01\x01\0\0\0\0\0\x01x",
    b"\x01\0\0\0\0\0\0\0\0\0\x02\0\0\0\x01\0\0\0\x01\0\0\0\x01\x01\0\0\0\0\0\x01x",
    b"\x01\0\0\0\0\0\0\0\0\0\x01\0\0\0\x01\0\0\0\x02\0\0\0\x01\0\0\0\x01\x01\0\0\0\0\0\x01x",
    // queues that don't ascend
    b"\x01\0\0\0\0\0\0\0\0\0\x02\0\0\0\x02\0\0\0\x01\0\0\0\x01\0\0\0\x01\x01\0\0\0\0\0\x01x",
    b"\x01\0\0\0\0\0\0\0\0\0\x02\0\0\0\x01\0\0\0\x01\0\0\0\x01\0\0\0\x01\x01\0\0\0\0\0\x01x",
    // the message 0-1, and 1-0
    b"\x01\0\0\0\0\0\0\0\0\0\x01\0\0\0\x01\0\0\0\0\0\0\0\x01\x01\0\0\0\0\0\x01x",
    b"\x01\0\0\0\0\0\0\0\0\0\x01\0\0\0\x01\0\0\0\x01\0\0\0\0\x01\0\0\0\0\0\x01x",
    // a message of the kind 0, and 3
    b"\x01\0\0\0\0\0\0\0\0\0\x01\0\0\0\x01\0\0\0\x01\0\0\0\x01\0\0\0\0\0\0\x01x",
    b"\x01\0\0\0\0\0\0\0\0\0\x01\0\0\0\x01\0\0\0\x01\0\0\0\x01\x03\0\0\0\0\0\x01x",
    // a body of no byte, and of two
    b"\x01\0\0\0\0\0\0\0\0\0\x01\0\0\0\x01\0\0\0\x01\0\0\0\x01\x01\0\0\0\0\0\0x",
    b"\x01\0\0\0\0\0\0\0\0\0\x01\0\0\0\x01\0\0\0\x01\0\0\0\x01\x01\0\0\0\0\0\x02x",
    // a byte behind the message, and a second frame
    b"\x01\0\0\0\0\0\0\0\0\0\x01\0\0\0\x01\0\0\0\x01\0\0\0\x01\x01\0\0\0\0\0\x01x\0",
    b"\x01\0\0\0\0\0\0\0\0\0\x01\0\0\0\x01\0\0\0\x01\0\0\0\x01\x01\0\0\0\0\0\x01x\
      \x01\0\0\0\0\0\0\0\0\0\x01\0\0\0\x01\0\0\0\x01\0\0\0\x02\x01\0\0\0\0\0\x01x",
];

// The first of these that is read as a frame.
fn wrongly_read(alloc: Global) -> Result<Option<usize>, AllocError> {
    for (place, bytes) in UNSPELLED.iter().enumerate() {
        if decode_frame(alloc, *bytes)?.is_some() {
            return Ok(Some(place));
        }
    }
    Ok(None)
}

#[test]
fn what_spells_no_frame_is_none(rt: HostRuntime) -> Result<(), Fail> {
    assert!(rt; wrongly_read(rt.alloc())? == None);
    Ok(())
}

// The first length at which a frame that is cut is read.
fn wrong_cut(alloc: Global) -> Result<Option<usize>, AllocError> {
    for length in 0..31 {
        let part = X.get(..length).unwrap_or(X);
        if decode_frame(alloc, part)?.is_some() {
            return Ok(Some(length));
        }
    }
    Ok(None)
}

#[test]
fn a_frame_that_is_cut_is_none(rt: HostRuntime) -> Result<(), Fail> {
    assert!(rt; wrong_cut(rt.alloc())? == None);
    Ok(())
}

// X for the queues from 1 to `count`.
fn for_queues(alloc: Global, count: u16) -> Result<Vec<u8>, AllocError> {
    let mut bytes = Vec::from_slice(alloc, b"\x01\0\0\0\0\0\0\0\0")?;
    bytes.extend_from_slice(&count.to_be_bytes())?;
    for queue in 0..count {
        let id = u32::from(queue).saturating_add(1);
        bytes.extend_from_slice(&id.to_be_bytes())?;
    }
    bytes.extend_from_slice(b"\0\0\0\x01\0\0\0\x01\x01\0\0\0\0\0\x01x")?;
    Ok(bytes)
}

// Whether a frame has at most 1,000 queues.
fn are_at_most_1000(alloc: Global) -> Result<bool, AllocError> {
    let most = decode_frame(alloc, &for_queues(alloc, 1000)?)?;
    let more = decode_frame(alloc, &for_queues(alloc, 1001)?)?;
    Ok(most.is_some() && more.is_none())
}

#[test]
fn a_frame_has_at_most_1000_queues(rt: HostRuntime) -> Result<(), Fail> {
    assert!(rt; are_at_most_1000(rt.alloc())?);
    Ok(())
}
