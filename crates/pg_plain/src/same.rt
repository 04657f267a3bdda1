// Whether what outlives a run is equal.
ghost use Rattle.std.specs.Prelude.{◌≡◌, ◌↔◌, IsTrue};

use crate::rows::{AddressRow, QueueRow};
use pg_bytes::Octets;
use pg_msg::{Body, Message, Property, Value};

pub(crate) fn same_addresses(a: &[AddressRow], b: &[AddressRow]) -> bool
    ensures { IsTrue result ↔ (a.now ≡ b.now) }
{
    if a.len() != b.len() {
        return false;
    }
    for (place, one) in a.iter().enumerate() {
        if !same_address(one, &b[place]) {
            return false;
        }
    }
    true
}

fn same_address(a: &AddressRow, b: &AddressRow) -> bool
    ensures { IsTrue result ↔ (a.now ≡ b.now) }
{
    a.name == b.name && a.max == b.max && a.page == b.page && a.ahead == b.ahead && a.dup == b.dup
}

pub(crate) fn same_queues(a: &[QueueRow], b: &[QueueRow]) -> bool
    ensures { IsTrue result ↔ (a.now ≡ b.now) }
{
    if a.len() != b.len() {
        return false;
    }
    for (place, one) in a.iter().enumerate() {
        if !same_queue(one, &b[place]) {
            return false;
        }
    }
    true
}

fn same_queue(a: &QueueRow, b: &QueueRow) -> bool
    ensures { IsTrue result ↔ (a.now ≡ b.now) }
{
    a.id == b.id
        && a.name == b.name
        && a.address == b.address
        && a.filter.same(&b.filter)
        && same_messages(a.messages.as_slice(), b.messages.as_slice())
}

fn same_messages(a: &[Message], b: &[Message]) -> bool
    ensures { IsTrue result ↔ (a.now ≡ b.now) }
{
    if a.len() != b.len() {
        return false;
    }
    for (place, one) in a.iter().enumerate() {
        if !same_message(one, &b[place]) {
            return false;
        }
    }
    true
}

fn same_message(a: &Message, b: &Message) -> bool
    ensures { IsTrue result ↔ (a.now ≡ b.now) }
{
    a.id.epoch == b.id.epoch
        && a.id.number == b.id.number
        && same_dup(&a.dup, &b.dup)
        && same_properties(a.properties.as_slice(), b.properties.as_slice())
        && same_body(&a.body, &b.body)
}

fn same_dup(a: &Option<Octets>, b: &Option<Octets>) -> bool
    ensures { IsTrue result ↔ (a.now ≡ b.now) }
{
    match (a, b) {
        (None, None) => true,
        (Some(one), Some(other)) => one == other,
        (None, Some(_)) | (Some(_), None) => false,
    }
}

fn same_properties(a: &[Property], b: &[Property]) -> bool
    ensures { IsTrue result ↔ (a.now ≡ b.now) }
{
    if a.len() != b.len() {
        return false;
    }
    for (place, one) in a.iter().enumerate() {
        if !same_property(one, &b[place]) {
            return false;
        }
    }
    true
}

fn same_property(a: &Property, b: &Property) -> bool
    ensures { IsTrue result ↔ (a.now ≡ b.now) }
{
    a.name == b.name && same_value(&a.value, &b.value)
}

fn same_value(a: &Value, b: &Value) -> bool
    ensures { IsTrue result ↔ (a.now ≡ b.now) }
{
    match (a, b) {
        (Value::Text(one), Value::Text(other)) => one == other,
        (Value::Whole(one), Value::Whole(other)) => *one == *other,
        (Value::Truth(one), Value::Truth(other)) => *one == *other,
        _ => false,
    }
}

fn same_body(a: &Body, b: &Body) -> bool
    ensures { IsTrue result ↔ (a.now ≡ b.now) }
{
    match (a, b) {
        (Body::Plain(one), Body::Plain(other)) => one == other,
        (Body::Large(one), Body::Large(other)) => *one == *other,
        (Body::Plain(_), Body::Large(_)) | (Body::Large(_), Body::Plain(_)) => false,
    }
}
