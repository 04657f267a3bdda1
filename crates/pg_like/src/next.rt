// What comes first in a text, and in a pattern.
ghost use Rattle.std.specs.Prelude.{◌≡◌, ◌∷◌, []};
ghost use Rattle.std.specs.Option.{MatchOption};
ghost use Rattle.std.specs.Str.{chars};
ghost use Rattle.pg_like.specs.Pattern.{piece_of, pieces_of};
ghost use Rattle.pg_like.specs.Reaching.{Takes, TakesNone};

use crate::piece::Piece;

// The first character, and what is behind it.
pub fn first_char(text: &str) -> Option<(char, &str)>
    ensures { MatchOption result (chars text.now ≡ []) (λ first. chars text.now ≡ first.0 ∷ chars first.1.now) }
{
    let mut characters = text.chars();
    let first = characters.next()?;
    Some((first, characters.as_str()))
}

// What the character stands for behind no escape.
fn plain_piece(c: char) -> Piece
    ensures { result ≡ piece_of c }
{
    match c {
        '%' => Piece::Any,
        '_' => Piece::One,
        _ => Piece::Just(c),
    }
}

// The first piece, and the pattern behind it.
pub fn first_piece(pattern: &str, escape: Option<char>) -> Option<(Piece, &str)>
    ensures { MatchOption result
        (pieces_of escape (chars pattern.now) ≡ [])
        (λ first. pieces_of escape (chars pattern.now) ≡ first.0 ∷ pieces_of escape (chars first.1.now)) }
{
    let (c, behind) = first_char(pattern)?;
    if escape != Some(c) {
        return Some((plain_piece(c), behind));
    }
    match first_char(behind) {
        Some((next, rest)) => Some((Piece::Just(next), rest)),
        None => Some((Piece::Just(c), behind)),
    }
}

// What is behind the one character that the piece stands for, if it is the first.
pub fn behind_one(piece: Piece, text: &str) -> Option<&str>
    ensures { MatchOption result
        (TakesNone piece (chars text.now))
        (λ rest. Takes piece (chars text.now) (chars rest.now)) }
{
    let (c, rest) = first_char(text)?;
    match piece {
        Piece::Any => None,
        Piece::One => Some(rest),
        Piece::Just(wanted) => if c == wanted { Some(rest) } else { None },
    }
}
