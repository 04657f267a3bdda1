// Names, and the names of properties.
ghost use Rattle.std.specs.Prelude.{◌≡◌, ◌<◌, ◌≤◌, ◌^◌, ◌++◌, ◌∷◌, ◌↔◌, length, slice_index, IsTrue, OnOk};
ghost use Rattle.std.specs.List.{list_any};
ghost use Rattle.std.specs.Str.{is_utf8, str_eq_ignore_ascii_case};
ghost use Rattle.pg_msg.specs.Names.{IsBetween, IsName, IsNameStart, IsNameByte, IsPropertyName, IsPropertyNameStart, IsPropertyNameByte, IsReserved};
ghost use Rattle.pg_msg.specs.Reading.{Gives, guarded, is_name, is_property_name, name_at, property_name_at};

use crate::fields::Unread;
use crate::fields::numbers::{read_bytes, read_u8};
use crate::limits::LONGEST_NAME;
use pg_bytes::{Octets, Text, put_bytes, put_u8};
use std::alloc::{AllocError, Global};

// What filters are made of, and no property is named.
const RESERVED: [&str; 11] = [
    "and", "or", "not", "between", "in", "like", "escape", "is", "null", "true", "false",
];

/// A name as an address or a queue has it, behind its length in one byte.
#[tactic(auto, unfolding(crate::specs::Reading::name_at))]
pub fn read_name(alloc: Global, bytes: &[u8]) -> Result<(Text, &[u8]), Unread>
    ensures { Gives (λ read. (read.0, read.1.now)) result (name_at bytes.now) }
{
    let (count, rest) = read_u8(bytes)?;
    let (name, rest) = read_bytes(rest, count as usize)?;
    let name = name_of(alloc, name)?;
    Ok((name, rest))
}

// The name of a property, behind its length in one byte.
#[tactic(auto, unfolding(crate::specs::Reading::property_name_at))]
pub(super) fn read_property_name(alloc: Global, bytes: &[u8]) -> Result<(Text, &[u8]), Unread>
    ensures { Gives (λ read. (read.0, read.1.now)) result (property_name_at bytes.now) }
{
    let (count, rest) = read_u8(bytes)?;
    let (name, rest) = read_bytes(rest, count as usize)?;
    let name = property_name_of(alloc, name)?;
    Ok((name, rest))
}

/// Appends the length of the name in one byte, and the name.
pub fn put_name(out: &mut Octets, name: &Text) -> Result<(), AllocError>
    requires { length name.now < 2 ^ 8 }
    ensures { OnOk result (out.new ≡ out.old ++ length name.now ∷ name.now) }
{
    let bytes = name.as_str().as_bytes();
    put_u8(out, bytes.len() as u8)?;
    put_bytes(out, bytes)
}

/// A copy of the bytes as a text. Malformed where they aren't UTF-8.
pub fn text_of(alloc: Global, bytes: &[u8]) -> Result<Text, Unread>
    ensures { Gives (λ text. text) result (guarded (is_utf8 bytes.now) bytes.now) }
{
    match str::from_utf8(bytes) {
        Ok(text) => Ok(Text::from_str(alloc, text)?),
        Err(_) => Err(Unread::Malformed),
    }
}

/// A copy of the bytes as a name. Malformed where they spell none.
pub fn name_of(alloc: Global, name: &[u8]) -> Result<Text, Unread>
    ensures { Gives (λ name. name) result (guarded (is_name name.now) name.now) }
{
    if !is_name(name) {
        return Err(Unread::Malformed);
    }
    text_of(alloc, name)
}

/// A copy of the bytes as the name of a property. Malformed where they spell none.
pub fn property_name_of(alloc: Global, name: &[u8]) -> Result<Text, Unread>
    ensures { Gives (λ name. name) result (guarded (is_property_name name.now) name.now) }
{
    if !is_property_name(name) {
        return Err(Unread::Malformed);
    }
    text_of(alloc, name)
}

fn is_name(name: &[u8]) -> bool
    ensures { IsTrue result ↔ IsName name.now }
{
    match name.first() {
        Some(first) => name.len() <= LONGEST_NAME
            && is_name_start(*first)
            && name.iter().all(|byte| is_name_byte(*byte)),
        None => false,
    }
}

fn is_name_start(byte: u8) -> bool
    ensures { IsTrue result ↔ IsNameStart byte }
{
    byte.is_ascii_alphabetic() || byte == b'_'
}

fn is_name_byte(byte: u8) -> bool
    ensures { IsTrue result ↔ IsNameByte byte }
{
    is_name_start(byte) || byte.is_ascii_digit() || byte == b'.' || byte == b'-'
}

fn is_property_name(name: &[u8]) -> bool
    ensures { IsTrue result ↔ IsPropertyName name.now }
{
    begins_property_name(name)
        && name.iter().all(|byte| is_property_name_byte(*byte))
        && !is_reserved(name)
}

// It has a length and a first byte that the name of a property may have.
fn begins_property_name(name: &[u8]) -> bool
    ensures { IsTrue result ↔ (IsBetween 1 LONGEST_NAME (length name.now)
        × IsPropertyNameStart (slice_index name.now 0)) }
{
    match name.first() {
        Some(first) => name.len() <= LONGEST_NAME && is_property_name_start(*first),
        None => false,
    }
}

fn is_property_name_start(byte: u8) -> bool
    ensures { IsTrue result ↔ IsPropertyNameStart byte }
{
    is_name_start(byte) || byte == b'$'
}

fn is_property_name_byte(byte: u8) -> bool
    ensures { IsTrue result ↔ IsPropertyNameByte byte }
{
    is_property_name_start(byte) || byte.is_ascii_digit()
}

// One of the reserved words, in any case of its letters.
fn is_reserved(name: &[u8]) -> bool
    ensures { IsTrue result ↔ IsReserved name.now }
{
    is_one_of(name, &RESERVED)
}

fn is_one_of(name: &[u8], words: &[&str]) -> bool
    ensures { result ≡ list_any (λ word. str_eq_ignore_ascii_case name.now word.now) words.now }
{
    words.iter().any(|word| is_word(name, word))
}

fn is_word(name: &[u8], word: &str) -> bool
    ensures { result ≡ str_eq_ignore_ascii_case name.now word.now }
{
    name.eq_ignore_ascii_case(word.as_bytes())
}
