// Messages and their ids.
ghost use Rattle.std.specs.Prelude.{◌≡◌, ◌≢◌, ◌++◌, length, IfSome, OnOk, IfOk};
ghost use Rattle.pg_msg.specs.Messages.{HasFields, IsBody, IsDuplicateId, body_bytes, dup_bytes, id_bytes, kind_of, message_bytes};
ghost use Rattle.pg_msg.specs.Reading.{Gives, body_of, dup_at, id_at, message_at, part_at, plain_at};

use crate::fields::Unread;
use crate::fields::numbers::{read_bytes, read_positive_u32, read_u8, read_u32};
use crate::fields::values::{put_properties, read_properties};
use crate::limits::{LONGEST_DUPLICATE_ID, WEIGHT_LIMIT};
use crate::message::{Body, Message, MessageId};
use pg_bytes::{Octets, put_bytes, put_u8, put_u32, put_u64};
use std::alloc::{AllocError, Global};

// The kinds of messages.
const PLAIN: u8 = 1;

const LARGE: u8 = 2;

/// The id of a message: its epoch and its number, each in 4 bytes and at least 1.
#[tactic(auto, unfolding(crate::specs::Reading::id_at))]
pub fn read_message_id(bytes: &[u8]) -> Result<(MessageId, &[u8]), Unread>
    ensures { Gives (λ read. (read.0, read.1.now)) result (id_at bytes.now) }
{
    let (epoch, rest) = read_positive_u32(bytes)?;
    let (number, rest) = read_positive_u32(rest)?;
    Ok((MessageId { epoch, number }, rest))
}

/// A message. `docs/FORMATS.md` gives its fields.
#[tactic(auto, unfolding(crate::specs::Reading::message_at))]
pub fn read_message(alloc: Global, bytes: &[u8]) -> Result<(Message, &[u8]), Unread>
    ensures { Gives (λ read. (read.0, read.1.now)) result (message_at bytes.now) }
{
    let (id, rest) = read_message_id(bytes)?;
    let (kind, rest) = read_u8(rest)?;
    let (dup, rest) = read_dup(alloc, rest)?;
    let (properties, rest) = read_properties(alloc, rest)?;
    let (part, rest) = read_part(kind, rest)?;
    // Tested before the body is copied.
    if bytes.len() >= rest.len() + WEIGHT_LIMIT as usize {
        return Err(Unread::Malformed);
    }
    let body = body_of(alloc, kind, part)?;
    let message = Message {
        id,
        dup,
        properties,
        body,
    };
    Ok((message, rest))
}

/// Appends the epoch and the number.
pub fn put_message_id(out: &mut Octets, id: MessageId) -> Result<(), AllocError>
    ensures { OnOk result (out.new ≡ out.old ++ id_bytes id) }
{
    put_u32(out, id.epoch)?;
    put_u32(out, id.number)
}

/// Appends the message.
pub fn put_message(out: &mut Octets, message: &Message) -> Result<(), AllocError>
    requires { HasFields message.now }
    ensures { OnOk result (out.new ≡ out.old ++ message_bytes message.now) }
{
    let properties = message.properties.as_slice();
    put_message_id(out, message.id)?;
    put_u8(out, kind_of(&message.body))?;
    put_dup(out, &message.dup)?;
    put_u8(out, properties.len() as u8)?;
    put_properties(out, properties)?;
    put_body(out, &message.body)
}

// A duplicate id, behind its length in one byte, or None behind a length of 0.
#[tactic(auto, unfolding(crate::specs::Reading::dup_at))]
fn read_dup(alloc: Global, bytes: &[u8]) -> Result<(Option<Octets>, &[u8]), Unread>
    ensures { Gives (λ read. (read.0, read.1.now)) result (dup_at bytes.now) }
{
    let (count, rest) = read_u8(bytes)?;
    if LONGEST_DUPLICATE_ID < usize::from(count) {
        return Err(Unread::Malformed);
    }
    let (id, rest) = read_bytes(rest, count as usize)?;
    if count == 0 {
        return Ok((None, rest));
    }
    Ok((Some(Octets::from_slice(alloc, id)?), rest))
}

// The bytes that tell a body of this kind.
fn read_part(kind: u8, bytes: &[u8]) -> Result<(&[u8], &[u8]), Unread>
    ensures { Gives (λ read. (read.0.now, read.1.now)) result (part_at kind bytes.now) }
{
    match kind {
        PLAIN => read_plain(bytes),
        LARGE => read_bytes(bytes, 8),
        _ => Err(Unread::Malformed),
    }
}

#[tactic(auto, unfolding(crate::specs::Reading::plain_at))]
fn read_plain(bytes: &[u8]) -> Result<(&[u8], &[u8]), Unread>
    ensures { Gives (λ read. (read.0.now, read.1.now)) result (plain_at bytes.now) }
{
    let (count, rest) = read_u32(bytes)?;
    read_bytes(rest, count as usize)
}

// The body of this kind that the bytes tell.
fn body_of(alloc: Global, kind: u8, part: &[u8]) -> Result<Body, AllocError>
    requires { kind ≢ 1 → length part.now ≡ 8 }
    ensures { IfOk result (λ body. body ≡ body_of kind part.now) }
{
    if kind == PLAIN {
        return Ok(Body::Plain(Octets::from_slice(alloc, part)?));
    }
    let size = u64::from_be_bytes([
        part[0], part[1], part[2], part[3], part[4], part[5], part[6], part[7],
    ]);
    Ok(Body::Large(size))
}

fn kind_of(body: &Body) -> u8
    ensures { result ≡ kind_of body.now }
{
    match body {
        Body::Plain(_) => PLAIN,
        Body::Large(_) => LARGE,
    }
}

fn put_dup(out: &mut Octets, dup: &Option<Octets>) -> Result<(), AllocError>
    requires { IfSome dup.now IsDuplicateId }
    ensures { OnOk result (out.new ≡ out.old ++ dup_bytes dup.now) }
{
    match dup {
        None => put_u8(out, 0),
        Some(id) => {
            put_u8(out, id.len() as u8)?;
            put_bytes(out, id.as_slice())
        }
    }
}

fn put_body(out: &mut Octets, body: &Body) -> Result<(), AllocError>
    requires { IsBody body.now }
    ensures { OnOk result (out.new ≡ out.old ++ body_bytes body.now) }
{
    match body {
        Body::Plain(bytes) => {
            put_u32(out, bytes.len() as u32)?;
            put_bytes(out, bytes.as_slice())
        }
        Body::Large(size) => put_u64(out, *size),
    }
}
