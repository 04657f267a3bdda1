// Properties and their values.
ghost use Rattle.std.specs.Prelude.{◌≡◌, ◌≤◌, ◌++◌, length, map, All, OnOk};
ghost use Rattle.std.specs.Int.{w16, to_be_bytes};
ghost use Rattle.std.specs.List.{list_any};
ghost use Rattle.std.specs.Str.{bytes_eq};
ghost use Rattle.pg_msg.specs.Messages.{IsProperty, IsValue, value_bytes, property_bytes, properties_bytes};
ghost use Rattle.pg_msg.specs.Reading.{Gives, counted_at, are_distinct, text_at, whole_at, truth_at, value_at, property_at, properties_at};

use crate::fields::Unread;
use crate::fields::names::{put_name, read_property_name, text_of};
use crate::fields::numbers::{read_bytes, read_u8, read_u16, read_u64};
use crate::limits::MOST_PROPERTIES;
use crate::properties::{Properties, Property, Value};
use pg_bytes::{Octets, Text, put_bytes, put_u8, put_u16, put_u64};
use std::alloc::{AllocError, Global};

// The kinds of values.
const TEXT: u8 = 1;

const WHOLE: u8 = 2;

const TRUTH: u8 = 3;

// Properties of different names, behind their count in one byte.
#[tactic(auto, unfolding(crate::specs::Reading::properties_at))]
pub(super) fn read_properties(alloc: Global, bytes: &[u8]) -> Result<(Properties, &[u8]), Unread>
    ensures { Gives (λ read. (read.0, read.1.now)) result (properties_at bytes.now) }
{
    let (count, rest) = read_u8(bytes)?;
    if MOST_PROPERTIES < usize::from(count) {
        return Err(Unread::Malformed);
    }
    let (properties, rest) = read_each(alloc, count, rest)?;
    if !names_differ(properties.as_slice()) {
        return Err(Unread::Malformed);
    }
    Ok((properties, rest))
}

fn read_each(alloc: Global, count: u8, bytes: &[u8]) -> Result<(Properties, &[u8]), Unread>
    ensures { Gives (λ read. (read.0, read.1.now)) result (counted_at property_at count bytes.now) }
{
    let mut properties = Properties::new(alloc);
    let mut rest = bytes;
    for _ in 0..count {
        let (property, behind) = read_property(alloc, rest)?;
        properties.push(property)?;
        rest = behind;
    }
    Ok((properties, rest))
}

#[tactic(auto, unfolding(crate::specs::Reading::property_at))]
fn read_property(alloc: Global, bytes: &[u8]) -> Result<(Property, &[u8]), Unread>
    ensures { Gives (λ read. (read.0, read.1.now)) result (property_at bytes.now) }
{
    let (name, rest) = read_property_name(alloc, bytes)?;
    let (value, rest) = read_value(alloc, rest)?;
    Ok((Property { name, value }, rest))
}

/// Whether no two properties have one name. Each is compared with those behind it: there are at most 100.
pub fn names_differ(properties: &[Property]) -> bool
    ensures { result ≡ are_distinct (map (λ property. property.name) properties.now) }
{
    let mut rest = properties;
    while let Some((first, behind)) = rest.split_first() {
        if has_name(behind, &first.name) {
            return false;
        }
        rest = behind;
    }
    true
}

fn has_name(properties: &[Property], name: &Text) -> bool
    ensures { result ≡ list_any (λ property. bytes_eq name.now property.name) properties.now }
{
    properties.iter().any(|other| *name == other.name)
}

// A value, behind its kind in one byte.
#[tactic(auto, unfolding(crate::specs::Reading::value_at))]
fn read_value(alloc: Global, bytes: &[u8]) -> Result<(Value, &[u8]), Unread>
    ensures { Gives (λ read. (read.0, read.1.now)) result (value_at bytes.now) }
{
    let (kind, rest) = read_u8(bytes)?;
    match kind {
        TEXT => read_text(alloc, rest),
        WHOLE => read_whole(rest),
        TRUTH => read_truth(rest),
        _ => Err(Unread::Malformed),
    }
}

#[tactic(auto, unfolding(crate::specs::Reading::text_at))]
fn read_text(alloc: Global, bytes: &[u8]) -> Result<(Value, &[u8]), Unread>
    ensures { Gives (λ read. (read.0, read.1.now)) result (text_at bytes.now) }
{
    let (count, rest) = read_u16(bytes)?;
    let (text, rest) = read_bytes(rest, count as usize)?;
    let text = text_of(alloc, text)?;
    Ok((Value::Text(text), rest))
}

#[tactic(auto, unfolding(crate::specs::Reading::whole_at))]
fn read_whole(bytes: &[u8]) -> Result<(Value, &[u8]), Unread>
    ensures { Gives (λ read. (read.0, read.1.now)) result (whole_at bytes.now) }
{
    let (number, rest) = read_u64(bytes)?;
    Ok((Value::Whole(number.cast_signed()), rest))
}

#[tactic(auto, unfolding(crate::specs::Reading::truth_at))]
fn read_truth(bytes: &[u8]) -> Result<(Value, &[u8]), Unread>
    ensures { Gives (λ read. (read.0, read.1.now)) result (truth_at bytes.now) }
{
    let (truth, rest) = read_u8(bytes)?;
    match truth {
        0 => Ok((Value::Truth(false), rest)),
        1 => Ok((Value::Truth(true), rest)),
        _ => Err(Unread::Malformed),
    }
}

// Appends the properties, without their count.
pub(super) fn put_properties(out: &mut Octets, properties: &[Property]) -> Result<(), AllocError>
    requires { All IsProperty properties.now }
    ensures { OnOk result (out.new ≡ out.old ++ properties_bytes properties.now) }
{
    for property in properties {
        put_property(out, property)?;
    }
    Ok(())
}

fn put_property(out: &mut Octets, property: &Property) -> Result<(), AllocError>
    requires { IsProperty property.now }
    ensures { OnOk result (out.new ≡ out.old ++ property_bytes property.now) }
{
    put_name(out, &property.name)?;
    put_value(out, &property.value)
}

fn put_value(out: &mut Octets, value: &Value) -> Result<(), AllocError>
    requires { IsValue value.now }
    ensures { OnOk result (out.new ≡ out.old ++ value_bytes value.now) }
{
    match value {
        Value::Text(text) => {
            put_u8(out, TEXT)?;
            put_text(out, text)
        }
        Value::Whole(number) => {
            put_u8(out, WHOLE)?;
            put_u64(out, number.cast_unsigned())
        }
        Value::Truth(truth) => {
            put_u8(out, TRUTH)?;
            put_u8(out, u8::from(*truth))
        }
    }
}

fn put_text(out: &mut Octets, text: &Text) -> Result<(), AllocError>
    requires { length text.now ≤ 65535 }
    ensures { OnOk result (out.new ≡ out.old ++ (to_be_bytes w16 (length text.now) ++ text.now)) }
{
    let bytes = text.as_str().as_bytes();
    put_u16(out, bytes.len() as u16)?;
    put_bytes(out, bytes)
}
