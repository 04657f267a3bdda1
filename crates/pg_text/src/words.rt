// The words that lines are made of. Each is taken from the front, and given with what is behind it. Malformed where
// the line begins with no such word.
ghost use Rattle.std.specs.Prelude.{◌≡◌, ◌≢◌, ◌<◌, ◌^◌, ◌↔◌, ◌==◌, ℕ, length, not, position, IfOk, IfSome, IsTrue, MatchOption};
ghost use Rattle.std.specs.Fmt.{decimal};
ghost use Rattle.std.specs.Str.{bytes_eq};
ghost use Rattle.std.specs.Option.{option_map};
ghost use Rattle.pg_msg.specs.Names.{IsBetween};
ghost use Rattle.pg_msg.specs.Reading.{Gives, guarded};
ghost use Rattle.pg_text.specs.Reading.{BeginsAsNumber, before, onward, behind, is_empty, number_of, name_at, name_behind, last_name_behind, number_behind, id_part_of, message_id_at, hex_of, unread_of};

use hex::FromHexError;
use pg_bytes::{Octets, Text};
use pg_msg::MessageId;
use pg_msg::fields::{Unread, name_of};
use std::alloc::Global;

// The bytes up to the first such byte or the end, and those from there on.
pub fn split_at_first(line: &[u8], mark: u8) -> (&[u8], &[u8])
    ensures front { result.0.now ≡ before mark line.now }
    ensures back { result.1.now ≡ onward mark line.now }
{
    let end = place_of(line, mark).unwrap_or(line.len());
    line.split_at(end)
}

fn place_of(line: &[u8], mark: u8) -> Option<usize>
    ensures place { result ≡ position (λ byte. byte == mark) line.now }
    ensures within { IfSome result (λ place. place < length line.now) }
{
    line.iter().position(|byte| *byte == mark)
}

// What is behind the keyword, if it is there.
pub fn after<'a>(line: &'a [u8], keyword: &[u8]) -> Option<&'a [u8]>
    ensures { option_map (λ rest. rest.now) result ≡ behind keyword.now line.now }
{
    line.strip_prefix(keyword)
}

// What is behind the keyword.
pub fn expect<'a>(line: &'a [u8], keyword: &[u8]) -> Result<&'a [u8], Unread>
    ensures { Gives (λ rest. rest.now) result (behind keyword.now line.now) }
{
    match after(line, keyword) {
        Some(rest) => Ok(rest),
        None => Err(Unread::Malformed),
    }
}

// Whether nothing is left.
pub fn is_end(line: &[u8]) -> bool
    ensures { result ≡ is_empty line.now }
{
    line.is_empty()
}

pub fn is(word: &[u8], name: &str) -> bool
    ensures { result ≡ bytes_eq word.now name.now }
{
    word == name.as_bytes()
}

#[tactic(auto, unfolding(crate::specs::Reading::name_at))]
pub fn name(alloc: Global, line: &[u8]) -> Result<(Text, &[u8]), Unread>
    ensures { Gives (λ read. (read.0, read.1.now)) result (name_at line.now) }
{
    let (word, rest) = split_at_first(line, b' ');
    let name = name_of(alloc, word)?;
    Ok((name, rest))
}

// The keyword, and a name.
#[tactic(auto, unfolding(crate::specs::Reading::name_behind))]
pub fn name_behind<'a>(
    alloc: Global,
    line: &'a [u8],
    keyword: &[u8],
) -> Result<(Text, &'a [u8]), Unread>
    ensures { Gives (λ read. (read.0, read.1.now)) result (name_behind keyword.now line.now) }
{
    let rest = expect(line, keyword)?;
    name(alloc, rest)
}

// The keyword, and a name at the end.
#[tactic(auto, unfolding(crate::specs::Reading::last_name_behind))]
pub fn last_name_behind(alloc: Global, line: &[u8], keyword: &[u8]) -> Result<Text, Unread>
    ensures { Gives (λ name. name) result (last_name_behind keyword.now line.now) }
{
    let (name, rest) = name_behind(alloc, line, keyword)?;
    if !is_end(rest) {
        return Err(Unread::Malformed);
    }
    Ok(name)
}

// The keyword, and a number from `least` to `most`.
#[tactic(auto, unfolding(crate::specs::Reading::number_behind))]
pub fn number_behind<'a>(
    line: &'a [u8],
    keyword: &[u8],
    least: u64,
    most: u64,
) -> Result<(u64, &'a [u8]), Unread>
    ensures read { Gives (λ read. (read.0, read.1.now)) result (number_behind keyword.now least most line.now) }
    ensures within { IfOk result (λ read. IsBetween least most read.0) }
{
    let rest = expect(line, keyword)?;
    let (word, rest) = split_at_first(rest, b' ');
    let number = number(word)?;
    if number < least || most < number {
        return Err(Unread::Malformed);
    }
    Ok((number, rest))
}

// A space, and the id of a message.
#[tactic(auto, unfolding(crate::specs::Reading::message_id_at))]
pub fn message_id(line: &[u8]) -> Result<(MessageId, &[u8]), Unread>
    ensures { Gives (λ read. (read.0, read.1.now)) result (message_id_at line.now) }
{
    let rest = expect(line, b" ")?;
    let (word, rest) = split_at_first(rest, b' ');
    let (epoch, behind) = split_at_first(word, b'-');
    let epoch = id_part(epoch)?;
    let number = id_part(expect(behind, b"-")?)?;
    Ok((MessageId { epoch, number }, rest))
}

#[tactic(auto, unfolding(crate::specs::Reading::id_part_of))]
fn id_part(digits: &[u8]) -> Result<u32, Unread>
    ensures { Gives (λ part. part) result (id_part_of digits.now) }
{
    let number = number(digits)?;
    if number == 0 || number > u64::from(u32::MAX) {
        return Err(Unread::Malformed);
    }
    Ok(number as u32)
}

// The bytes that the digits spell.
pub fn hex_of(alloc: Global, digits: &[u8]) -> Result<Octets, Unread>
    ensures { Gives (λ bytes. bytes) result (hex_of digits.now) }
{
    if is(digits, "-") {
        return Ok(Octets::new(alloc));
    }
    match hex::decode(alloc, digits) {
        Ok(bytes) => some_bytes(bytes),
        Err(error) => Err(unread(error)),
    }
}

fn unread(error: FromHexError) -> Unread
    ensures { result ≡ unread_of error }
{
    match error {
        FromHexError::OutOfMemory => Unread::Memory,
        FromHexError::InvalidHexCharacter { .. }
        | FromHexError::OddLength
        | FromHexError::InvalidStringLength => Unread::Malformed,
    }
}

fn some_bytes(bytes: Vec<u8>) -> Result<Octets, Unread>
    ensures { Gives (λ bytes. bytes) result (guarded (not (is_empty bytes.items)) bytes.items) }
{
    if bytes.is_empty() {
        return Err(Unread::Malformed);
    }
    Ok(Octets::from_vec(bytes))
}

// The number that the digits write.
pub fn number(digits: &[u8]) -> Result<u64, Unread>
    ensures { Gives (λ number. number) result (number_of digits.now) }
{
    match decimal_value(digits) {
        Some(number) => Ok(number),
        None => Err(Unread::Malformed),
    }
}

// The number that the digits write, with no sign and no zero in front of another digit.
fn decimal_value(digits: &[u8]) -> Option<u64>
    ensures { MatchOption result
        ((number : ℕ) → number < 2 ^ 64 → digits.now ≢ decimal number)
        (λ number. (number < 2 ^ 64) × (digits.now ≡ decimal number)) }
{
    if !begins_as_number(digits) {
        return None;
    }
    str::from_utf8(digits).ok()?.parse().ok()
}

fn begins_as_number(digits: &[u8]) -> bool
    ensures { IsTrue result ↔ BeginsAsNumber digits.now }
{
    match digits.first() {
        Some(b'+') => false,
        Some(b'0') => digits.len() == 1,
        _ => true,
    }
}
