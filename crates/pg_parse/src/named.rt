// What stands in a test behind a name alone.
ghost use Rattle.std.specs.Prelude.{◌≡◌, ◌∷◌, ◌↔◌, ℕ, IsTrue, IfOk};
ghost use Rattle.std.specs.Option.{option_copied};
ghost use Rattle.pg_parse.specs.declared.tree.Tree.{Tree};
ghost use Rattle.pg_parse.specs.Grammar.{negated_if};
ghost use Rattle.pg_parse.specs.Parsing.{Answers, BeginsForm, NoMark, NoComparison, forms, form_tree, tails, tail_tree};

use crate::lists::{list, nullness, pattern};
use crate::next::behind;
use crate::refusal::Refusal;
use crate::tree::Tree;
use crate::trees::inverted;
use crate::word::{Mark, Word};
use pg_bytes::Text;
use std::alloc::{AllocError, Global};

// Whether BETWEEN, or behind a name IN or LIKE, comes next.
pub fn begins_form(name: Option<&Text>, words: &[Word]) -> bool
    ensures { IsTrue result ↔ BeginsForm (option_copied name.entry) words.now }
{
    match words.first() {
        Some(Word::Mark(Mark::Between)) => true,
        Some(Word::Mark(Mark::In)) => name.is_some(),
        Some(Word::Mark(Mark::Like)) => name.is_some(),
        _ => false,
    }
}

// IN or LIKE behind a name
pub fn named_form<'a>(
    alloc: Global,
    name: Option<&Text>,
    words: &'a [Word],
) -> Result<(Tree, &'a [Word]), Refusal>
    requires { NoMark Mark.Between words.now }
    ensures { (levels : ℕ) (head : Tree) → Answers (forms (option_copied name.entry) levels)
        (form_tree (option_copied name.entry) head) words.now (λ x. x.0) (λ x. x.1.now) result }
{
    let Some(name) = name else {
        return Err(Refusal::Left(words.len()));
    };
    if let Some(inner) = behind(words, Mark::In) {
        let (texts, rest) = list(alloc, inner)?;
        return Ok((Tree::In(name.copy()?, texts), rest));
    }
    if let Some(inner) = behind(words, Mark::Like) {
        let ((pattern, escape), rest) = pattern(inner)?;
        return Ok((Tree::Like(name.copy()?, pattern, escape), rest));
    }
    Err(Refusal::Left(words.len()))
}

fn inverted_if(alloc: Global, negated: bool, tree: Tree) -> Result<Tree, AllocError>
    ensures { IfOk result (λ inverted. inverted ≡ negated_if negated tree) }
{
    if negated {
        inverted(alloc, tree)
    } else {
        Ok(tree)
    }
}

// IS behind a name, or nothing
pub fn null_tail<'a>(
    alloc: Global,
    head: Tree,
    name: Option<&Text>,
    words: &'a [Word],
) -> Result<(Tree, &'a [Word]), Refusal>
    requires not { NoMark Mark.Not words.now }
    requires comparison { NoComparison words.now }
    requires form { BeginsForm (option_copied name) words.now → ⊥ }
    ensures { (levels : ℕ) → Answers (tails (option_copied name.entry) levels)
        (tail_tree (option_copied name.entry) head) words.now (λ x. x.0) (λ x. x.1.now) result }
{
    let Some(name) = name else {
        return Ok((head, words));
    };
    let Some(inner) = behind(words, Mark::Is) else {
        return Ok((head, words));
    };
    let (negated, rest) = nullness(inner)?;
    Ok((
        inverted_if(alloc, negated, Tree::IsNull(name.copy()?))?,
        rest,
    ))
}
