// The token that stands first.
ghost use Rattle.std.specs.Prelude.{◌≡◌, true, ◌≤◌, ◌<◌, length, take, drop, slice_index};
ghost use Rattle.std.specs.List.{prefix_len};
ghost use Rattle.std.specs.Char.{is_ascii_digit};
ghost use Rattle.pg_lex.specs.Characters.{is_blank, continues_identifier, begins_identifier, NotNext};
ghost use Rattle.pg_lex.specs.Reading.{Reads, ReadsFirst, IsOther};
ghost use Rattle.pg_lex.specs.Tokens.{IsTokenOf};

use crate::quotes::quoted_len;
use crate::reserved_word::ReservedWord;
use crate::symbol::Symbol;
use crate::token::TokenKind;
use crate::wholes::number_of;

// The kind of the token at the front, and how many bytes it has.
pub(crate) fn first_token(rest: &[u8]) -> (TokenKind, usize)
    requires some { 0 < length rest.now }
    requires no_blank { NotNext is_blank rest.now }
    ensures within { result.1 ≤ length rest.now }
    ensures token { IsTokenOf result.0 (take result.1 rest.now) (drop result.1 rest.now) }
{
    match read(rest) {
        Some((kind, length)) => (kind, length),
        None => (TokenKind::Bad, rest.len()),
    }
}

// The same, where a token can be read.
fn read(rest: &[u8]) -> Option<(TokenKind, usize)>
    requires { 0 < length rest.now }
    ensures { ReadsFirst rest.now result }
{
    let first = rest[0];
    if begins_identifier(first) {
        Some(read_identifier(rest))
    } else if first.is_ascii_digit() {
        read_whole(rest)
    } else if first == b'\'' {
        read_text(rest)
    } else {
        read_symbol(rest)
    }
}

fn begins_identifier(byte: u8) -> bool
    ensures { result ≡ begins_identifier byte }
{
    byte.is_ascii_alphabetic() || byte == b'_' || byte == b'$'
}

fn continues_identifier(byte: u8) -> bool
    ensures { result ≡ continues_identifier byte }
{
    begins_identifier(byte) || byte.is_ascii_digit()
}

// How many characters at the front can stand in an identifier.
fn identifier_len(rest: &[u8]) -> usize
    ensures { result ≡ prefix_len continues_identifier rest.now }
{
    rest.iter()
        .take_while(|byte| continues_identifier(**byte))
        .count()
}

// How many digits stand at the front.
fn digits_len(rest: &[u8]) -> usize
    ensures { result ≡ prefix_len is_ascii_digit rest.now }
{
    rest.iter().take_while(|byte| byte.is_ascii_digit()).count()
}

// A name or a reserved word.
fn read_identifier(rest: &[u8]) -> (TokenKind, usize)
    requires some { 0 < length rest.now }
    requires begins { begins_identifier (slice_index rest.now 0) ≡ true }
    ensures { Reads rest.now result.0 result.1 }
{
    let length = identifier_len(rest);
    match ReservedWord::from_bytes(&rest[..length]) {
        Some(_) => (TokenKind::Reserved, length),
        None => (TokenKind::Name, length),
    }
}

fn read_whole(rest: &[u8]) -> Option<(TokenKind, usize)>
    requires some { 0 < length rest.now }
    requires digit { is_ascii_digit (slice_index rest.now 0) ≡ true }
    ensures { ReadsFirst rest.now result }
{
    let length = digits_len(rest);
    match number_of(&rest[..length]) {
        Some(_) => Some((TokenKind::Whole, length)),
        None => None,
    }
}

fn read_text(rest: &[u8]) -> Option<(TokenKind, usize)>
    requires some { 0 < length rest.now }
    requires quote { slice_index rest.now 0 ≡ 39 }
    ensures { ReadsFirst rest.now result }
{
    match quoted_len(rest) {
        Some(length) => Some((TokenKind::Text, length)),
        None => None,
    }
}

// The longer symbol first.
fn read_symbol(rest: &[u8]) -> Option<(TokenKind, usize)>
    requires some { 0 < length rest.now }
    requires other { IsOther (slice_index rest.now 0) }
    ensures { ReadsFirst rest.now result }
{
    if rest.len() >= 2 && Symbol::from_bytes(&rest[..2]).is_some() {
        return Some((TokenKind::Symbol, 2));
    }
    match Symbol::from_bytes(&rest[..1]) {
        Some(_) => Some((TokenKind::Symbol, 1)),
        None => None,
    }
}
