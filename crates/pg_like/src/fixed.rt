// A pattern up to its next `%`, where each piece stands for one character.
ghost use Rattle.std.specs.Str.{chars};
ghost use Rattle.pg_like.specs.Pattern.{pieces_of};
ghost use Rattle.pg_like.specs.Reaching.{Reaches};

use crate::next::{behind_one, first_char, first_piece};
use crate::piece::Piece;

/// How far a text goes with a pattern.
pub enum Reached<'a> {
    /// No `%` comes, and the text is like the pattern.
    All,
    /// As far as the next `%`: the text from there on, and the pattern behind the `%`.
    Any(&'a str, &'a str),
    /// The text is not like the pattern.
    Nowhere,
}

// How far the text goes with the pattern.
pub fn followed<'a>(text: &'a str, pattern: &'a str, escape: Option<char>) -> Reached<'a>
    ensures { Reaches escape (pieces_of escape (chars pattern.now)) (chars text.now) result }
{
    let mut text = text;
    let mut pattern = pattern;
    while let Some((piece, behind)) = first_piece(pattern, escape) {
        if let Piece::Any = piece {
            return Reached::Any(text, behind);
        }
        let Some(rest) = behind_one(piece, text) else {
            return Reached::Nowhere;
        };
        text = rest;
        pattern = behind;
    }
    match first_char(text) {
        Some(_) => Reached::Nowhere,
        None => Reached::All,
    }
}
