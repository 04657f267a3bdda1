// Texts in quotes.
ghost use Rattle.std.specs.Prelude.{MatchOption, IfOk, ◌≡◌, ◌≤◌, ◌<◌, length, take, drop, slice_index, string_bytes};
ghost use Rattle.pg_lex.specs.Characters.{is_quote, NotNext};
ghost use Rattle.pg_lex.specs.Spelling.{IsQuoted, quoted};
ghost use Rattle.pg_lex.specs.Reading.{NoText};

use std::alloc::{AllocError, Global};

/// The text that stands between the quotes, with one quote for each two. Fails only where there is no memory for it.
pub fn unquoted(alloc: Global, spelling: &str) -> Result<String, AllocError>
    requires { IsQuoted spelling.now }
    ensures { IfOk result (λ text. spelling.now ≡ quoted (string_bytes text)) }
{
    let mut text = String::new(alloc);
    let mut rest = &spelling[1..spelling.len() - 1];
    while let Some((front, behind)) = rest.split_once('\'') {
        text.push_str(front)?;
        text.push('\'')?;
        rest = &behind[1..];
    }
    text.push_str(rest)?;
    Ok(text)
}

// How many bytes the text in quotes has that stands at the front, with its quotes. None where it has no end.
pub(crate) fn quoted_len(rest: &[u8]) -> Option<usize>
    requires some { 0 < length rest.now }
    requires quote { slice_index rest.now 0 ≡ 39 }
    ensures { MatchOption result
        (NoText rest.now)
        (λ n. (n ≤ length rest.now) × IsQuoted (take n rest.now) × NotNext is_quote (drop n rest.now)) }
{
    let mut at = 1;
    while at < rest.len() {
        if rest[at] != b'\'' {
            at += 1;
        } else if at + 1 < rest.len() && rest[at + 1] == b'\'' {
            at += 2;
        } else {
            return Some(at + 1);
        }
    }
    None
}
