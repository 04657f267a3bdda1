// Properties and their values. Each is taken from the front of the line, and given with what is behind it.
ghost use Rattle.std.specs.Prelude.{◌≡◌, ◌^◌, ◌-◌, negsuc, false};
ghost use Rattle.std.specs.Str.{is_utf8};
ghost use Rattle.std.specs.Option.{option_map};
ghost use Rattle.pg_msg.specs.Reading.{Gives, guarded, is_between};
ghost use Rattle.pg_text.specs.Reading.{behind_byte, each_at, properties_at, property_at, property_name_at, quoted_from, text_at, value_at, whole_at, whole_of, word_value};

use crate::words::{after, expect, is, number, split_at_first};
use pg_bytes::{Octets, Text, put_u8};
use pg_msg::fields::{Unread, names_differ, property_name_of};
use pg_msg::{MOST_PROPERTIES, Properties, Property, Value};
use std::alloc::Global;

// A text has at most so many bytes.
const LONGEST_TEXT: usize = 65_535;

// The size of the least whole number.
const LEAST_SIZE: u64 = 1 << 63;

// Properties, each behind its keyword, whose names differ.
#[tactic(auto, unfolding(crate::specs::Reading::properties_at))]
pub fn properties(alloc: Global, line: &[u8]) -> Result<(Properties, &[u8]), Unread>
    ensures { Gives (λ read. (read.0, read.1.now)) result (properties_at line.now) }
{
    let (properties, rest) = each(alloc, line)?;
    if !names_differ(properties.as_slice()) {
        return Err(Unread::Malformed);
    }
    Ok((properties, rest))
}

fn each(alloc: Global, line: &[u8]) -> Result<(Properties, &[u8]), Unread>
    ensures { Gives (λ read. (read.0, read.1.now)) result (each_at MOST_PROPERTIES line.now) }
{
    let mut properties = Properties::new(alloc);
    let mut rest = line;
    while let Some(behind) = after(rest, b" prop ") {
        if properties.as_slice().len() >= MOST_PROPERTIES {
            return Err(Unread::Malformed);
        }
        let (property, behind) = property(alloc, behind)?;
        properties.push(property)?;
        rest = behind;
    }
    Ok((properties, rest))
}

#[tactic(auto, unfolding(crate::specs::Reading::property_at))]
fn property(alloc: Global, line: &[u8]) -> Result<(Property, &[u8]), Unread>
    ensures { Gives (λ read. (read.0, read.1.now)) result (property_at line.now) }
{
    let (name, rest) = property_name(alloc, line)?;
    let rest = expect(rest, b" ")?;
    let (value, rest) = value(alloc, rest)?;
    Ok((Property { name, value }, rest))
}

#[tactic(auto, unfolding(crate::specs::Reading::property_name_at))]
fn property_name(alloc: Global, line: &[u8]) -> Result<(Text, &[u8]), Unread>
    ensures { Gives (λ read. (read.0, read.1.now)) result (property_name_at line.now) }
{
    let (word, rest) = split_at_first(line, b' ');
    let name = property_name_of(alloc, word)?;
    Ok((name, rest))
}

#[tactic(auto, unfolding(crate::specs::Reading::value_at))]
fn value(alloc: Global, line: &[u8]) -> Result<(Value, &[u8]), Unread>
    ensures { Gives (λ read. (read.0, read.1.now)) result (value_at line.now) }
{
    if let Some(rest) = after(line, b"'") {
        return text(alloc, rest);
    }
    let (word, rest) = split_at_first(line, b' ');
    let value = word_value(word)?;
    Ok((value, rest))
}

#[tactic(auto, unfolding(crate::specs::Reading::word_value))]
fn word_value(word: &[u8]) -> Result<Value, Unread>
    ensures { Gives (λ value. value) result (word_value word.now) }
{
    if is(word, "TRUE") {
        return Ok(Value::Truth(true));
    }
    if is(word, "FALSE") {
        return Ok(Value::Truth(false));
    }
    whole_value(word)
}

#[tactic(auto, unfolding(crate::specs::Reading::whole_at))]
fn whole_value(word: &[u8]) -> Result<Value, Unread>
    ensures { Gives (λ value. value) result (whole_at word.now) }
{
    let number = whole(word)?;
    Ok(Value::Whole(number))
}

#[tactic(auto, unfolding(crate::specs::Reading::whole_of))]
fn whole(word: &[u8]) -> Result<i64, Unread>
    ensures { Gives (λ number. number) result (whole_of word.now) }
{
    if let Some(digits) = after(word, b"-") {
        let size = number(digits)?;
        return negative(size);
    }
    let number = number(word)?;
    if number >= LEAST_SIZE {
        return Err(Unread::Malformed);
    }
    Ok(number as i64)
}

// The number of that size below zero.
fn negative(size: u64) -> Result<i64, Unread>
    ensures { Gives (λ number. number) result (guarded (is_between 1 (2 ^ 63) size) (negsuc (size - 1))) }
{
    if size == 0 || size > LEAST_SIZE {
        return Err(Unread::Malformed);
    }
    Ok(-1 - (size - 1) as i64)
}

// A text up to the quote that ends it.
#[tactic(auto, unfolding(crate::specs::Reading::text_at))]
fn text(alloc: Global, line: &[u8]) -> Result<(Value, &[u8]), Unread>
    ensures { Gives (λ read. (read.0, read.1.now)) result (text_at line.now) }
{
    let (bytes, rest) = quoted(alloc, line)?;
    if bytes.len() > LONGEST_TEXT {
        return Err(Unread::Malformed);
    }
    let text = text_from(bytes)?;
    Ok((Value::Text(text), rest))
}

// The bytes as a text, with no copy.
fn text_from(bytes: Octets) -> Result<Text, Unread>
    ensures { Gives (λ text. text) result (guarded (is_utf8 bytes) bytes) }
{
    let Ok(text) = String::from_utf8(bytes.into_vec()) else {
        return Err(Unread::Malformed);
    };
    let text = Text::from_string(text);
    // Named, so that the proof knows that it is UTF-8.
    let _text = text.as_str();
    Ok(text)
}

// The bytes up to the quote that ends them. Two quotes stand for one.
fn quoted(alloc: Global, line: &[u8]) -> Result<(Octets, &[u8]), Unread>
    ensures { Gives (λ read. (read.0, read.1.now)) result (quoted_from false line.now) }
{
    let mut text = Octets::new(alloc);
    let mut rest = line;
    while let Some((first, behind)) = rest.split_first() {
        let Some(more) = behind_byte(*first, behind) else {
            return Ok((text, behind));
        };
        put_u8(&mut text, *first)?;
        rest = more;
    }
    Err(Unread::Malformed)
}

// What is behind a byte of the text, and none where the byte is the quote that ends it.
fn behind_byte(first: u8, line: &[u8]) -> Option<&[u8]>
    ensures { option_map (λ rest. rest.now) result ≡ behind_byte first line.now }
{
    if first == b'\'' {
        return after(line, b"'");
    }
    Some(line)
}
