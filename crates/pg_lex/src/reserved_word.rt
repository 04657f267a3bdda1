// The reserved words.
ghost use Rattle.std.specs.Prelude.{IsTrue, ◌≡◌, ◌↔◌};
ghost use Rattle.pg_lex.specs.Spelling.{Finds, SpellsWord, capitals};

/// A word that can't be a name.
#[derive(Clone, Copy, Debug, PartialEq, Eq)]
pub enum ReservedWord {
    And,
    Or,
    Not,
    Between,
    In,
    Like,
    Escape,
    Is,
    Null,
    True,
    False,
}

const WORDS: [ReservedWord; 11] = [
    ReservedWord::And,
    ReservedWord::Or,
    ReservedWord::Not,
    ReservedWord::Between,
    ReservedWord::In,
    ReservedWord::Like,
    ReservedWord::Escape,
    ReservedWord::Is,
    ReservedWord::Null,
    ReservedWord::True,
    ReservedWord::False,
];

impl ReservedWord {
    /// The word that is spelled so, in any case of letters.
    pub fn from_spelling(spelling: &str) -> Option<ReservedWord>
        ensures { Finds (λ word. SpellsWord word spelling.now) result }
    {
        ReservedWord::from_bytes(spelling.as_bytes())
    }

    // The word that has these bytes, in any case of letters.
    pub(crate) fn from_bytes(bytes: &[u8]) -> Option<ReservedWord>
        ensures { Finds (λ word. SpellsWord word bytes.now) result }
    {
        for word in WORDS.iter() {
            if word.is_spelled(bytes) {
                return Some(*word);
            }
        }
        None
    }

    fn is_spelled(self, bytes: &[u8]) -> bool
        ensures { IsTrue result ↔ SpellsWord self bytes.now }
    {
        bytes.eq_ignore_ascii_case(self.capitals())
    }

    // The word in capital letters.
    fn capitals(self) -> &'static [u8]
        ensures { result.now ≡ capitals self }
    {
        match self {
            ReservedWord::And => b"AND",
            ReservedWord::Or => b"OR",
            ReservedWord::Not => b"NOT",
            ReservedWord::Between => b"BETWEEN",
            ReservedWord::In => b"IN",
            ReservedWord::Like => b"LIKE",
            ReservedWord::Escape => b"ESCAPE",
            ReservedWord::Is => b"IS",
            ReservedWord::Null => b"NULL",
            ReservedWord::True => b"TRUE",
            ReservedWord::False => b"FALSE",
        }
    }
}
