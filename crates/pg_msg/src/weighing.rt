// The weight of a message.
ghost use Rattle.std.specs.Prelude.{◌≡◌, ◌+◌, ◌*◌, ◌<◌, ◌≤◌, ◌^◌, length, All, IfSome};
ghost use Rattle.pg_msg.specs.Messages.{HasFields, IsBody, IsDuplicateId, IsProperty, IsValue, body_bytes, dup_bytes, property_bytes, properties_bytes, value_bytes, weight_of};

use crate::limits::{LONGEST_DUPLICATE_ID, MOST_PROPERTIES};
use crate::message::{Body, Message};
use crate::properties::{Property, Value};
use pg_bytes::Octets;

// The id, the kind and the count of the properties.
const HEAD: u64 = 10;

/// How many bytes the message takes, with its header. Takes no memory.
pub fn weight(message: &Message) -> u64
    requires { HasFields message.now }
    ensures { result ≡ weight_of message.now }
{
    HEAD + dup_weight(&message.dup)
        + properties_weight(message.properties.as_slice())
        + body_weight(&message.body)
}

fn dup_weight(dup: &Option<Octets>) -> u64
    requires { IfSome dup.now IsDuplicateId }
    ensures sum { result ≡ length (dup_bytes dup.now) }
    ensures most { result ≤ LONGEST_DUPLICATE_ID + 1 }
{
    match dup {
        None => 1,
        Some(id) => 1 + id.len() as u64,
    }
}

fn properties_weight(properties: &[Property]) -> u64
    requires few { length properties.now ≤ MOST_PROPERTIES }
    requires each { All IsProperty properties.now }
    ensures sum { result ≡ length (properties_bytes properties.now) }
    ensures most { result ≤ 65603 * MOST_PROPERTIES }
{
    let mut sum = 0;
    for property in properties {
        sum += property_weight(property);
    }
    sum
}

// Its name with the name's length, and its value with the value's kind.
fn property_weight(property: &Property) -> u64
    requires { IsProperty property.now }
    ensures sum { result ≡ length (property_bytes property.now) }
    ensures most { result ≤ 65603 }
{
    1 + property.name.as_str().len() as u64 + value_weight(&property.value)
}

fn value_weight(value: &Value) -> u64
    requires { IsValue value.now }
    ensures sum { result ≡ length (value_bytes value.now) }
    ensures most { result ≤ 65538 }
{
    match value {
        Value::Text(text) => 3 + text.as_str().len() as u64,
        Value::Whole(_) => 9,
        Value::Truth(_) => 2,
    }
}

fn body_weight(body: &Body) -> u64
    requires { IsBody body.now }
    ensures sum { result ≡ length (body_bytes body.now) }
    ensures most { result < 2 ^ 32 + 4 }
{
    match body {
        Body::Plain(bytes) => 4 + bytes.len() as u64,
        Body::Large(_) => 8,
    }
}
