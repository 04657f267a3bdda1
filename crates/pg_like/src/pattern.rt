// Whether a text is like a pattern.
ghost use Rattle.std.specs.Prelude.{◌≡◌, ◌↔◌, IsTrue};
ghost use Rattle.std.specs.List.{list_any};
ghost use Rattle.std.specs.Str.{chars};
ghost use Rattle.pg_like.specs.Pattern.{IsLike, ends, is_like, pieces_of};

use crate::fixed::{Reached, followed};
use crate::next::first_char;

/// Whether the text is like the pattern, in which `%` stands for any number of characters, `_` for one, and another for
/// itself. The escape makes the character behind it stand for itself. Takes no memory, and time in proportion to the
/// product of the two lengths at most.
pub fn like(text: &str, pattern: &str, escape: Option<char>) -> bool
    // True exactly where the text is like the pieces of the pattern.
    ensures exact { IsTrue result ↔ IsLike (pieces_of escape (chars pattern.now)) (chars text.now) }
    // The same by the test, for definitions that compute.
    ensures value { result ≡ is_like (pieces_of escape (chars pattern.now)) (chars text.now) }
{
    match followed(text, pattern, escape) {
        Reached::All => true,
        Reached::Any(rest, behind) => some_end(rest, behind, escape),
        Reached::Nowhere => false,
    }
}

// Whether some end of the text is like the pattern. Where the text goes with it as far as a further `%`, a later place is
// of no more use: it would leave less of the text to what is behind.
fn some_end(text: &str, pattern: &str, escape: Option<char>) -> bool
    ensures { result ≡ list_any (λ end. is_like (pieces_of escape (chars pattern.now)) end) (ends (chars text.now)) }
{
    let mut text = text;
    let mut pattern = pattern;
    loop {
        match followed(text, pattern, escape) {
            Reached::All => return true,
            Reached::Any(rest, behind) => {
                text = rest;
                pattern = behind;
            }
            Reached::Nowhere => {
                let Some((_, rest)) = first_char(text) else {
                    return false;
                };
                text = rest;
            }
        }
    }
}
