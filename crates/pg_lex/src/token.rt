// The tokens.
ghost use Rattle.std.specs.Prelude.{◌≡◌};
ghost use Rattle.pg_lex.specs.Tokens.{IsTokenIn, spelling_of};

/// What a token is.
#[derive(Clone, Copy, Debug, PartialEq, Eq)]
pub enum TokenKind {
    /// A reserved word.
    Reserved,
    /// A name of a property.
    Name,
    /// A whole number.
    Whole,
    /// A text in quotes.
    Text,
    /// An operator, a parenthesis or a comma.
    Symbol,
    /// The rest of the filter, where no token can be read.
    Bad,
}

/// A token, as the place where it stands in its filter, in bytes.
#[derive(Clone, Copy, Debug, PartialEq, Eq)]
pub struct Token {
    pub kind: TokenKind,
    pub from: usize,
    pub to: usize,
}

impl Token {
    /// The part of the filter that the token is.
    pub fn spelling(self, filter: &str) -> &str
        requires { IsTokenIn filter.now self }
        ensures { result.now ≡ spelling_of filter.now self }
    {
        &filter[self.from..self.to]
    }
}
