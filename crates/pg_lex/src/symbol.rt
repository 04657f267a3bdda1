// The symbols.
ghost use Rattle.std.specs.Prelude.{◌≡◌};
ghost use Rattle.pg_lex.specs.Spelling.{Finds, sign_of};

/// A token of one character or two that is neither a word nor a value.
#[derive(Clone, Copy, Debug, PartialEq, Eq)]
pub enum Symbol {
    Equal,
    Unequal,
    Less,
    LessEqual,
    Greater,
    GreaterEqual,
    Plus,
    Minus,
    Star,
    Open,
    Close,
    Comma,
}

impl Symbol {
    /// The symbol that is spelled so.
    pub fn from_spelling(spelling: &str) -> Option<Symbol>
        ensures { Finds (λ symbol. spelling.now ≡ sign_of symbol) result }
    {
        Symbol::from_bytes(spelling.as_bytes())
    }

    // The symbol that has these bytes.
    pub(crate) fn from_bytes(bytes: &[u8]) -> Option<Symbol>
        ensures { Finds (λ symbol. bytes.now ≡ sign_of symbol) result }
    {
        match bytes {
            b"=" => Some(Symbol::Equal),
            b"<>" => Some(Symbol::Unequal),
            b"<" => Some(Symbol::Less),
            b"<=" => Some(Symbol::LessEqual),
            b">" => Some(Symbol::Greater),
            b">=" => Some(Symbol::GreaterEqual),
            b"+" => Some(Symbol::Plus),
            b"-" => Some(Symbol::Minus),
            b"*" => Some(Symbol::Star),
            b"(" => Some(Symbol::Open),
            b")" => Some(Symbol::Close),
            b"," => Some(Symbol::Comma),
            _ => None,
        }
    }
}
