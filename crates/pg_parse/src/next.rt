// What comes next among the words.
ghost use Rattle.std.specs.Prelude.{◌≡◌, ◌≢◌, ◌∷◌, ◌++◌, List, Some, length, slice_get};
ghost use Rattle.std.specs.Str.{chars};
ghost use Rattle.pg_parse.specs.declared.word.Word.{Word};
ghost use Rattle.std.specs.Option.{MatchOption, option_copied};
ghost use Rattle.pg_parse.specs.Grammar.{mark};
ghost use Rattle.pg_parse.specs.Parsing.{NoMark, NoComparison, NoSign, NoText, NoCharacter, HasCharacter, NotNamed, sign_mark};

use crate::op::Op;
use crate::word::{Mark, Sign, Word};
use pg_bytes::Text;

// What is behind the mark, if it comes next.
pub fn behind(words: &[Word], wanted: Mark) -> Option<&[Word]>
    ensures { MatchOption result (NoMark wanted words.now) (λ rest. words.now ≡ mark wanted ∷ rest.now) }
{
    match words.split_first()? {
        (Word::Mark(next), rest) => if *next == wanted { Some(rest) } else { None },
        _ => None,
    }
}

// The comparison that comes next, if one does, and what is behind it.
pub fn comparison_next(words: &[Word]) -> Option<(Op, &[Word])>
    ensures { MatchOption result (NoComparison words.now) (λ found. words.now ≡ Word.Compared found.0 ∷ found.1.now) }
{
    match words.split_first()? {
        (Word::Compared(op), rest) => Some((*op, rest)),
        _ => None,
    }
}

// The sign that comes next, if one does, and what is behind it.
pub fn sign_next(words: &[Word]) -> Option<(Sign, &[Word])>
    ensures { MatchOption result (NoSign words.now) (λ found. words.now ≡ mark (sign_mark found.0) ∷ found.1.now) }
{
    match words.split_first()? {
        (Word::Mark(Mark::Plus), rest) => Some((Sign::Plus, rest)),
        (Word::Mark(Mark::Minus), rest) => Some((Sign::Minus, rest)),
        _ => None,
    }
}

// The text that comes next, if one does, and what is behind it.
pub fn text_next(words: &[Word]) -> Option<(&Text, &[Word])>
    ensures { MatchOption result (NoText words.now) (λ found. words.now ≡ Word.Text found.0.now ∷ found.1.now) }
{
    match words.split_first()? {
        (Word::Text(text), rest) => Some((text, rest)),
        _ => None,
    }
}

// The one character of the text, if it has exactly one.
pub fn single(text: &Text) -> Option<char>
    ensures { MatchOption result
        (length (chars text.now) ≢ 1)
        (λ c. (length (chars text.now) ≡ 1) × (slice_get (chars text.now) 0 ≡ Some c)) }
{
    let mut chars = text.as_str().chars();
    let first = chars.next()?;
    match chars.next() {
        Some(_) => None,
        None => Some(first),
    }
}

// The character of a text of exactly one that comes next, if one does, and what is behind it.
pub fn character_next(words: &[Word]) -> Option<(char, &[Word])>
    ensures { MatchOption result (NoCharacter words.now) (λ found. HasCharacter words.now found.0 found.1.now) }
{
    let (text, rest) = text_next(words)?;
    let c = single(text)?;
    Some((c, rest))
}

// The name that the words are before the rest, which stands at their end, if they are no more.
pub fn lone_name<'a>(words: &'a [Word], rest: &[Word]) -> Option<&'a Text>
    requires { (front : List Word) × (words.now ≡ front ++ rest.now) }
    ensures { MatchOption (option_copied result)
        (NotNamed words.now rest.now)
        (λ name. words.now ≡ Word.Name name ∷ rest.now) }
{
    match words.split_first()? {
        (Word::Name(name), behind) => if behind.len() == rest.len() {
            Some(name)
        } else {
            None
        },
        _ => None,
    }
}
