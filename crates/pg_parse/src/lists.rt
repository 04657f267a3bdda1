// The parts of a test that hold no phrases: the list behind IN, the pattern behind LIKE, what is behind IS, single words.
ghost use Rattle.std.specs.Prelude.{◌≡◌, ◌∷◌};
ghost use Rattle.pg_parse.specs.Parsing.{Answers, atoms, atom_tree, text_parts, items, lists, listed, escapes, patterns, pattern_value, nulls};
ghost use Rattle.pg_parse.specs.Grammar.{escape_of};

use crate::next::{behind, character_next, text_next};
use crate::refusal::Refusal;
use crate::texts::Texts;
use crate::tree::Tree;
use crate::word::{Mark, Word};
use pg_bytes::Text;
use std::alloc::Global;

// A name, a whole, a text or a truth.
pub fn atom(words: &[Word]) -> Result<(Tree, &[Word]), Refusal>
    ensures { Answers atoms atom_tree words.now (λ x. x.0) (λ x. x.1.now) result }
{
    let Some((first, rest)) = words.split_first() else {
        return Err(Refusal::Left(words.len()));
    };
    match first {
        Word::Name(name) => Ok((Tree::Name(name.copy()?), rest)),
        Word::Whole(whole) => Ok((Tree::Whole(*whole), rest)),
        Word::Text(text) => Ok((Tree::Text(text.copy()?), rest)),
        Word::Truth(truth) => Ok((Tree::Truth(*truth), rest)),
        _ => Err(Refusal::Left(words.len())),
    }
}

// A text.
pub fn text_part(words: &[Word]) -> Result<(Text, &[Word]), Refusal>
    ensures { Answers text_parts (λ t. t) words.now (λ x. x.0) (λ x. x.1.now) result }
{
    let Some((text, rest)) = text_next(words) else {
        return Err(Refusal::Left(words.len()));
    };
    Ok((text.copy()?, rest))
}

// text { "," text }
pub fn text_items(alloc: Global, words: &[Word]) -> Result<(Texts, &[Word]), Refusal>
    ensures { Answers items listed words.now (λ x. x.0) (λ x. x.1.now) result }
{
    let (first, mut rest) = text_part(words)?;
    let mut texts = Texts::new(alloc);
    texts.push(first)?;
    while let Some(inner) = behind(rest, Mark::Comma) {
        let (text, left) = text_part(inner)?;
        texts.push(text)?;
        rest = left;
    }
    Ok((texts, rest))
}

// "(" text { "," text } ")"
pub fn list(alloc: Global, words: &[Word]) -> Result<(Texts, &[Word]), Refusal>
    ensures { Answers lists listed words.now (λ x. x.0) (λ x. x.1.now) result }
{
    let Some(inner) = behind(words, Mark::Open) else {
        return Err(Refusal::Left(words.len()));
    };
    let (texts, rest) = text_items(alloc, inner)?;
    let Some(left) = behind(rest, Mark::Close) else {
        return Err(Refusal::Left(rest.len()));
    };
    Ok((texts, left))
}

// [ ESCAPE text ]
pub fn escape(words: &[Word]) -> Result<(Option<char>, &[Word]), Refusal>
    ensures { Answers escapes escape_of words.now (λ x. x.0) (λ x. x.1.now) result }
{
    let Some(inner) = behind(words, Mark::Escape) else {
        return Ok((None, words));
    };
    let Some((c, rest)) = character_next(inner) else {
        return Err(Refusal::Left(inner.len()));
    };
    Ok((Some(c), rest))
}

// text [ ESCAPE text ]
pub fn pattern(words: &[Word]) -> Result<((Text, Option<char>), &[Word]), Refusal>
    ensures { Answers patterns pattern_value words.now (λ x. x.0) (λ x. x.1.now) result }
{
    let (text, rest) = text_part(words)?;
    let (escape, left) = escape(rest)?;
    Ok(((text, escape), left))
}

// [NOT] NULL, and whether NOT stands there
pub fn nullness(words: &[Word]) -> Result<(bool, &[Word]), Refusal>
    ensures { Answers nulls (λ negated. negated) words.now (λ x. x.0) (λ x. x.1.now) result }
{
    if let Some(inner) = behind(words, Mark::Not) {
        let Some(rest) = behind(inner, Mark::Null) else {
            return Err(Refusal::Left(inner.len()));
        };
        return Ok((true, rest));
    }
    let Some(rest) = behind(words, Mark::Null) else {
        return Err(Refusal::Left(words.len()));
    };
    Ok((false, rest))
}
