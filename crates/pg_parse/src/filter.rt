// From the text of a filter to its tree.
ghost use Rattle.std.specs.Prelude.{◌≡◌, ℕ, [], List, Option, IfOk, IfErr};
ghost use Rattle.pg_parse.specs.declared.tree.Tree.{Tree as TreeOf};
ghost use Rattle.pg_parse.specs.Grammar.{ReadsWords};
ghost use Rattle.pg_parse.specs.Parsing.{IsReadAs, IsRefusedWith};
ghost use Rattle.pg_parse.specs.Filters.{Reads, IsBadAt, IsCause, IsTreeOrMemory, offset_of};
ghost use Rattle.pg_parse.specs.FilterTexts.{ReadsAs, IsFilterOrMemory};

use crate::parser::or_phrase;
use crate::refusal::{FilterError, Refusal};
use crate::tree::Tree;
use crate::word::Word;
use crate::wording::words_of;
use pg_lex::{Token, tokens};
use std::alloc::Global;

/// How many levels NOT, signs and parentheses may open within one another.
const LEVELS: u32 = 100;

/// The tree of the filter. BadFilter comes exactly where the text is no filter, with the offset in bytes of the first
/// token that can't stand where it does, or with the text's length where only more of it could make a filter. Takes time
/// in proportion to the text, whatever its length.
pub fn parse(alloc: Global, filter: &str) -> Result<Tree, FilterError>
    // What is read as a tree is a filter with this tree.
    ensures tree { IfOk result (λ tree. Reads filter.now tree) }
    // A filter is read, unless memory runs out.
    ensures only { (tree : TreeOf) → Reads filter.now tree → IsTreeOrMemory tree result }
    // What is refused is no filter from this offset on.
    ensures refused { IfErr result (λ e. IsCause filter.now e) }
{
    let tokens = tokens(alloc, filter)?;
    let words = words_of(alloc, filter, tokens.as_slice())?;
    match parse_words(alloc, words.as_slice()) {
        Ok(tree) => Ok(tree),
        Err(Refusal::Memory) => Err(FilterError::Memory),
        Err(Refusal::Left(left)) => Err(FilterError::BadFilter {
            at: offset(filter, tokens.as_slice(), words.len() - left),
        }),
    }
}

/// The filter that a queue keeps as this text: none where the text is empty. BadFilter comes exactly where the text is
/// neither empty nor a filter, with the offset that `parse` tells.
pub fn filter_of(alloc: Global, text: &str) -> Result<Option<Tree>, FilterError>
    // What is read is the filter of this text.
    ensures filter { IfOk result (λ filter. ReadsAs text.now filter) }
    // A text of a filter, or of none, is read, unless memory runs out.
    ensures only { (filter : Option TreeOf) → ReadsAs text.now filter → IsFilterOrMemory filter result }
    // What is refused is no filter from this offset on.
    ensures refused { IfErr result (λ e. IsCause text.now e) }
{
    if text.is_empty() {
        return Ok(None);
    }
    Ok(Some(parse(alloc, text)?))
}

/// A text is kept for one filter at most, and an empty one for none. This law has no code.
pub fn filter_texts()
    ensures one { (text : List ℕ) (a b : Option TreeOf) → ReadsAs text a → ReadsAs text b → a ≡ b }
    ensures never { (tree : TreeOf) → Reads [] tree → ⊥ }
{}

/// A text has at most one tree, or else one offset at which it is refused. This law has no code.
pub fn one_reading()
    ensures tree { (filter : List ℕ) (a b : TreeOf) → Reads filter a → Reads filter b → a ≡ b }
    ensures offset { (filter : List ℕ) (m n : ℕ) → IsBadAt filter m → IsBadAt filter n → m ≡ n }
    ensures either { (filter : List ℕ) (tree : TreeOf) (at : ℕ) → Reads filter tree → IsBadAt filter at → ⊥ }
{}

// Where the token of this place begins, or the text's length where there is none.
fn offset(filter: &str, tokens: &[Token], place: usize) -> usize
    ensures { result ≡ offset_of filter.now tokens.now place }
{
    match tokens.get(place) {
        Some(token) => token.from,
        None => filter.len(),
    }
}

// The tree of the words.
fn parse_words(alloc: Global, words: &[Word]) -> Result<Tree, Refusal>
    ensures tree { IfOk result (λ tree. ReadsWords words.now tree) }
    ensures only { (tree : TreeOf) → ReadsWords words.now tree → IsReadAs tree result }
    ensures refused { IfErr result (λ e. IsRefusedWith words.now e) }
{
    let (tree, rest) = or_phrase(alloc, words, LEVELS)?;
    if rest.is_empty() {
        Ok(tree)
    } else {
        Err(Refusal::Left(rest.len()))
    }
}
