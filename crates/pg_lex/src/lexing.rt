// Reading a filter into tokens.
ghost use Rattle.std.specs.Prelude.{IfOk, ◌≡◌, ◌≤◌, List, ℕ, length, drop};
ghost use Rattle.std.specs.List.{All, prefix_len};
ghost use Rattle.pg_lex.specs.Characters.{is_blank, NotNext};
ghost use Rattle.pg_lex.specs.Tokens.{AreTokensOf, AreBlanks, IsTokenIn};
ghost use Rattle.pg_lex.specs.Spelling.{SpellsWord, sign_of, quoted};
ghost use Rattle.pg_lex.specs.declared.reserved_word.ReservedWord.{ReservedWord as WordOf};
ghost use Rattle.pg_lex.specs.declared.symbol.Symbol.{Symbol as SymbolOf};
ghost use Rattle.pg_lex.specs.declared.token.Token.{Token as TokenOf};

use crate::first_token::first_token;
use crate::token::Token;
use std::alloc::{AllocError, Global};

/// The tokens of a filter are one list, and a spelling is that of at most one word, one symbol, one text. This law has no
/// code.
pub fn one_reading()
    ensures tokens { (filter : List ℕ) (xs ys : List TokenOf) → AreTokensOf filter xs → AreTokensOf filter ys → xs ≡ ys }
    ensures word { (spelling : List ℕ) (v w : WordOf) → SpellsWord v spelling → SpellsWord w spelling → v ≡ w }
    ensures symbol { (s t : SymbolOf) → sign_of s ≡ sign_of t → s ≡ t }
    ensures text { (t u : List ℕ) → quoted t ≡ quoted u → t ≡ u }
{}

/// The tokens of the filter, in their order. Fails only where there is no memory for them.
pub fn tokens(alloc: Global, filter: &str) -> Result<Vec<Token>, AllocError>
    ensures all { IfOk result (λ tokens. AreTokensOf filter.now tokens.items) }
    ensures each { IfOk result (λ tokens. All (IsTokenIn filter.now) tokens.items) }
{
    let bytes = filter.as_bytes();
    let mut tokens = Vec::new(alloc);
    let mut from = after_blanks(bytes, 0);
    while from < bytes.len() {
        let (kind, length) = first_token(&bytes[from..]);
        let to = from + length;
        tokens.push(Token { kind, from, to })?;
        from = after_blanks(bytes, to);
    }
    Ok(tokens)
}

// The first place from this one on where no blank stands.
fn after_blanks(bytes: &[u8], place: usize) -> usize
    requires { place ≤ length bytes.now }
    ensures within { result ≤ length bytes.now }
    ensures blanks { AreBlanks bytes.now place result }
    ensures next { NotNext is_blank (drop result bytes.now) }
{
    place + blanks(&bytes[place..])
}

// How many blanks stand at the front.
fn blanks(bytes: &[u8]) -> usize
    ensures { result ≡ prefix_len is_blank bytes.now }
{
    bytes
        .iter()
        .take_while(|byte| **byte == b' ' || **byte == b'\t')
        .count()
}
