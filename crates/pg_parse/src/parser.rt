// One function for each rule of the grammar. Each takes the words from its place on and the levels that are left, and
// answers the tree with the words behind the phrase.
ghost use Rattle.std.specs.Prelude.{◌≡◌, ◌∷◌, IfOk, IfErr};
ghost use Rattle.std.specs.Option.{option_copied};
ghost use Rattle.pg_parse.specs.Grammar.{OrRule, AndRule, NotRule, TestRule, SumRule, TermRule, UnaryRule, PrimRule, tree_of};
ghost use Rattle.pg_parse.specs.Parsing.{Answers, phrases, ranges, range_value, forms, form_tree, tails, tail_tree};

use crate::lists::atom;
use crate::named::{begins_form, named_form, null_tail};
use crate::next::{behind, comparison_next, lone_name, sign_next};
use crate::refusal::Refusal;
use crate::tree::Tree;
use crate::trees::{added, inverted, sides, signed};
use crate::word::{Mark, Word};
use pg_bytes::Text;
use sqlite_items::Boxed;
use std::alloc::Global;

// and { OR and }
#[cycle(parser)]
pub fn or_phrase(alloc: Global, words: &[Word], levels: u32) -> Result<(Tree, &[Word]), Refusal>
    ensures { Answers (phrases OrRule levels) (λ p. tree_of p) words.now (λ x. x.0) (λ x. x.1.now) result }
{
    let (mut tree, mut rest) = and_phrase(alloc, words, levels)?;
    while let Some(inner) = behind(rest, Mark::Or) {
        let (next, left) = and_phrase(alloc, inner, levels)?;
        let (first, second) = sides(alloc, tree, next)?;
        tree = Tree::Or(first, second);
        rest = left;
    }
    Ok((tree, rest))
}

// not { AND not }
#[cycle(parser)]
fn and_phrase(alloc: Global, words: &[Word], levels: u32) -> Result<(Tree, &[Word]), Refusal>
    ensures { Answers (phrases AndRule levels) (λ p. tree_of p) words.now (λ x. x.0) (λ x. x.1.now) result }
{
    let (mut tree, mut rest) = not_phrase(alloc, words, levels)?;
    while let Some(inner) = behind(rest, Mark::And) {
        let (next, left) = not_phrase(alloc, inner, levels)?;
        let (first, second) = sides(alloc, tree, next)?;
        tree = Tree::And(first, second);
        rest = left;
    }
    Ok((tree, rest))
}

// NOT not | test
#[cycle(parser)]
fn not_phrase(alloc: Global, words: &[Word], levels: u32) -> Result<(Tree, &[Word]), Refusal>
    ensures { Answers (phrases NotRule levels) (λ p. tree_of p) words.now (λ x. x.0) (λ x. x.1.now) result }
{
    let Some(inner) = behind(words, Mark::Not) else {
        return test_phrase(alloc, words, levels);
    };
    if levels == 0 {
        return Err(Refusal::Left(words.len()));
    }
    let (tree, rest) = not_phrase(alloc, inner, levels - 1)?;
    Ok((inverted(alloc, tree)?, rest))
}

// A sum, and what stands behind it in a test.
#[cycle(parser)]
fn test_phrase(alloc: Global, words: &[Word], levels: u32) -> Result<(Tree, &[Word]), Refusal>
    ensures { Answers (phrases TestRule levels) (λ p. tree_of p) words.now (λ x. x.0) (λ x. x.1.now) result }
{
    let (head, rest) = sum_phrase(alloc, words, levels)?;
    let name = lone_name(words, rest);
    tail(alloc, head, name, rest, levels)
}

// What stands in a test behind its first sum, whose tree and name, if it is one, are given: its tree with that sum.
#[cycle(parser)]
fn tail<'a>(
    alloc: Global,
    head: Tree,
    name: Option<&Text>,
    words: &'a [Word],
    levels: u32,
) -> Result<(Tree, &'a [Word]), Refusal>
    ensures { Answers (tails (option_copied name.entry) levels) (tail_tree (option_copied name.entry) head) words.now
        (λ x. x.0) (λ x. x.1.now) result }
{
    if let Some(inner) = behind(words, Mark::Not) {
        let (tree, rest) = form(alloc, head, name, inner, levels)?;
        return Ok((inverted(alloc, tree)?, rest));
    }
    if let Some((op, inner)) = comparison_next(words) {
        let (right, rest) = sum_phrase(alloc, inner, levels)?;
        let (first, second) = sides(alloc, head, right)?;
        return Ok((Tree::Compare(op, first, second), rest));
    }
    if begins_form(name, words) {
        return form(alloc, head, name, words, levels);
    }
    null_tail(alloc, head, name, words)
}

// BETWEEN, or behind a name IN or LIKE
#[cycle(parser)]
fn form<'a>(
    alloc: Global,
    head: Tree,
    name: Option<&Text>,
    words: &'a [Word],
    levels: u32,
) -> Result<(Tree, &'a [Word]), Refusal>
    ensures { Answers (forms (option_copied name.entry) levels) (form_tree (option_copied name.entry) head) words.now
        (λ x. x.0) (λ x. x.1.now) result }
{
    if let Some(inner) = behind(words, Mark::Between) {
        let ((low, high), rest) = range(alloc, inner, levels)?;
        let (first, second) = sides(alloc, low, high)?;
        return Ok((Tree::Between(Boxed::new(alloc, head)?, first, second), rest));
    }
    named_form(alloc, name, words)
}

// sum AND sum
#[cycle(parser)]
fn range(alloc: Global, words: &[Word], levels: u32) -> Result<((Tree, Tree), &[Word]), Refusal>
    ensures { Answers (ranges levels) range_value words.now (λ x. x.0) (λ x. x.1.now) result }
{
    let (low, rest) = sum_phrase(alloc, words, levels)?;
    let Some(inner) = behind(rest, Mark::And) else {
        return Err(Refusal::Left(rest.len()));
    };
    let (high, left) = sum_phrase(alloc, inner, levels)?;
    Ok(((low, high), left))
}

// term { ("+" | "-") term }
#[cycle(parser)]
fn sum_phrase(alloc: Global, words: &[Word], levels: u32) -> Result<(Tree, &[Word]), Refusal>
    ensures { Answers (phrases SumRule levels) (λ p. tree_of p) words.now (λ x. x.0) (λ x. x.1.now) result }
{
    let (mut tree, mut rest) = term_phrase(alloc, words, levels)?;
    while let Some((sign, inner)) = sign_next(rest) {
        let (next, left) = term_phrase(alloc, inner, levels)?;
        tree = added(alloc, sign, tree, next)?;
        rest = left;
    }
    Ok((tree, rest))
}

// unary { "*" unary }
#[cycle(parser)]
fn term_phrase(alloc: Global, words: &[Word], levels: u32) -> Result<(Tree, &[Word]), Refusal>
    ensures { Answers (phrases TermRule levels) (λ p. tree_of p) words.now (λ x. x.0) (λ x. x.1.now) result }
{
    let (mut tree, mut rest) = unary_phrase(alloc, words, levels)?;
    while let Some(inner) = behind(rest, Mark::Star) {
        let (next, left) = unary_phrase(alloc, inner, levels)?;
        let (first, second) = sides(alloc, tree, next)?;
        tree = Tree::Times(first, second);
        rest = left;
    }
    Ok((tree, rest))
}

// ("+" | "-") unary | prim
#[cycle(parser)]
fn unary_phrase(alloc: Global, words: &[Word], levels: u32) -> Result<(Tree, &[Word]), Refusal>
    ensures { Answers (phrases UnaryRule levels) (λ p. tree_of p) words.now (λ x. x.0) (λ x. x.1.now) result }
{
    let Some((sign, inner)) = sign_next(words) else {
        return prim_phrase(alloc, words, levels);
    };
    if levels == 0 {
        return Err(Refusal::Left(words.len()));
    }
    let (tree, rest) = unary_phrase(alloc, inner, levels - 1)?;
    Ok((signed(alloc, sign, tree)?, rest))
}

// "(" or ")", or one word
#[cycle(parser)]
fn prim_phrase(alloc: Global, words: &[Word], levels: u32) -> Result<(Tree, &[Word]), Refusal>
    ensures { Answers (phrases PrimRule levels) (λ p. tree_of p) words.now (λ x. x.0) (λ x. x.1.now) result }
{
    let Some(inner) = behind(words, Mark::Open) else {
        return atom(words);
    };
    if levels == 0 {
        return Err(Refusal::Left(words.len()));
    }
    let (tree, rest) = or_phrase(alloc, inner, levels - 1)?;
    match behind(rest, Mark::Close) {
        Some(left) => Ok((tree, left)),
        None => Err(Refusal::Left(rest.len())),
    }
}
