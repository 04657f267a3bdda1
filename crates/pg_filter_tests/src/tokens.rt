use TokenKind::{Bad, Name, Reserved, Text, Whole};
use pg_lex::{ReservedWord, Symbol, TokenKind, tokens, unquoted, whole_of};
use std::alloc::{AllocError, Global};
use std::test::Fail;

// Filters with the kind, the start and the end of each of their tokens, in bytes.
const FILTERS: [(&str, &[(TokenKind, usize, usize)]); 31] = [
    ("", &[]),
    (" \t ", &[]),
    ("a", &[(Name, 0, 1)]),
    // blanks
    ("\ta  b\t", &[(Name, 1, 2), (Name, 4, 5)]),
    ("a\nb", &[(Name, 0, 1), (Bad, 1, 3)]),
    ("a\r", &[(Name, 0, 1), (Bad, 1, 2)]),
    // names and reserved words
    ("$a_1 _ $", &[(Name, 0, 4), (Name, 5, 6), (Name, 7, 8)]),
    ("a.b", &[(Name, 0, 1), (Bad, 1, 3)]),
    (
        "NOT nOt Note not_ no",
        &[
            (Reserved, 0, 3),
            (Reserved, 4, 7),
            (Name, 8, 12),
            (Name, 13, 17),
            (Name, 18, 20),
        ],
    ),
    (
        "ORa order or1 xor or",
        &[
            (Name, 0, 3),
            (Name, 4, 9),
            (Name, 10, 13),
            (Name, 14, 17),
            (Reserved, 18, 20),
        ],
    ),
    // wholes
    ("1a007", &[(Whole, 0, 1), (Name, 1, 5)]),
    ("007", &[(Whole, 0, 3)]),
    ("9223372036854775807", &[(Whole, 0, 19)]),
    ("9223372036854775808", &[(Bad, 0, 19)]),
    ("00009223372036854775807", &[(Whole, 0, 23)]),
    ("00009223372036854775808", &[(Bad, 0, 23)]),
    (
        "1 99999999999999999999999999 a",
        &[(Whole, 0, 1), (Bad, 2, 30)],
    ),
    // texts
    ("''", &[(Text, 0, 2)]),
    ("'it''s' ''''", &[(Text, 0, 7), (Text, 8, 12)]),
    ("'x'y'z'", &[(Text, 0, 3), (Name, 3, 4), (Text, 4, 7)]),
    (
        "a = 'x",
        &[(Name, 0, 1), (TokenKind::Symbol, 2, 3), (Bad, 4, 6)],
    ),
    ("'", &[(Bad, 0, 1)]),
    ("'''", &[(Bad, 0, 3)]),
    ("'it'' ", &[(Bad, 0, 6)]),
    ("'é' é", &[(Text, 0, 4), (Bad, 5, 7)]),
    ("'\n<>1'", &[(Text, 0, 6)]),
    // symbols
    (
        "<><=<>=>>=",
        &[
            (TokenKind::Symbol, 0, 2),
            (TokenKind::Symbol, 2, 4),
            (TokenKind::Symbol, 4, 6),
            (TokenKind::Symbol, 6, 7),
            (TokenKind::Symbol, 7, 8),
            (TokenKind::Symbol, 8, 10),
        ],
    ),
    (
        "< >=<",
        &[
            (TokenKind::Symbol, 0, 1),
            (TokenKind::Symbol, 2, 4),
            (TokenKind::Symbol, 4, 5),
        ],
    ),
    (
        "(,+-*)",
        &[
            (TokenKind::Symbol, 0, 1),
            (TokenKind::Symbol, 1, 2),
            (TokenKind::Symbol, 2, 3),
            (TokenKind::Symbol, 3, 4),
            (TokenKind::Symbol, 4, 5),
            (TokenKind::Symbol, 5, 6),
        ],
    ),
    ("a!=b", &[(Name, 0, 1), (Bad, 1, 4)]),
    (
        "-9223372036854775808 a",
        &[(TokenKind::Symbol, 0, 1), (Bad, 1, 22)],
    ),
];

fn is_read(
    alloc: Global,
    filter: &str,
    wanted: &[(TokenKind, usize, usize)],
) -> Result<bool, AllocError> {
    let found = tokens(alloc, filter)?;
    Ok(
        found.len() == wanted.len()
            && found.iter().zip(wanted).all(|(token, (kind, from, to))| {
                token.kind == *kind && token.from == *from && token.to == *to
            }),
    )
}

// The first filter that isn't read as its tokens.
fn wrong_filter(alloc: Global) -> Result<Option<&'static str>, AllocError> {
    for (filter, wanted) in FILTERS {
        if !is_read(alloc, filter, wanted)? {
            return Ok(Some(filter));
        }
    }
    Ok(None)
}

#[test]
fn reads_tokens(rt: HostRuntime) -> Result<(), Fail> {
    assert!(rt; wrong_filter(rt.alloc())?.is_none());
    Ok(())
}

// Words with what is reserved of them.
const WORDS: [(&str, Option<ReservedWord>); 17] = [
    ("AND", Some(ReservedWord::And)),
    ("or", Some(ReservedWord::Or)),
    ("nOt", Some(ReservedWord::Not)),
    ("BetweeN", Some(ReservedWord::Between)),
    ("iN", Some(ReservedWord::In)),
    ("lIKE", Some(ReservedWord::Like)),
    ("escape", Some(ReservedWord::Escape)),
    ("Is", Some(ReservedWord::Is)),
    ("NULL", Some(ReservedWord::Null)),
    ("True", Some(ReservedWord::True)),
    ("fALSe", Some(ReservedWord::False)),
    ("", None),
    ("a", None),
    ("an", None),
    ("ands", None),
    ("nott", None),
    ("ſs", None),
];

// Symbols as they are spelled, and what is none.
const SYMBOLS: [(&str, Option<Symbol>); 18] = [
    ("=", Some(Symbol::Equal)),
    ("<>", Some(Symbol::Unequal)),
    ("<", Some(Symbol::Less)),
    ("<=", Some(Symbol::LessEqual)),
    (">", Some(Symbol::Greater)),
    (">=", Some(Symbol::GreaterEqual)),
    ("+", Some(Symbol::Plus)),
    ("-", Some(Symbol::Minus)),
    ("*", Some(Symbol::Star)),
    ("(", Some(Symbol::Open)),
    (")", Some(Symbol::Close)),
    (",", Some(Symbol::Comma)),
    ("", None),
    ("==", None),
    ("=<", None),
    ("!", None),
    ("<>=", None),
    ("/", None),
];

// Digits with what they are worth, and what is no whole.
const WHOLES: [(&str, Option<i64>); 11] = [
    ("0", Some(0)),
    ("007", Some(7)),
    ("1234567890", Some(1_234_567_890)),
    ("9223372036854775807", Some(9_223_372_036_854_775_807)),
    ("9223372036854775808", None),
    ("18446744073709551617", None),
    ("340282366920938463463374607431768211457", None),
    ("", None),
    ("1a", None),
    ("-1", None),
    ("٣", None),
];

// Whether each of the tables holds.
fn spells_words() -> bool {
    WORDS.iter().all(|(spelling, wanted)| ReservedWord::from_spelling(spelling) == *wanted)
}

fn spells_symbols() -> bool {
    SYMBOLS.iter().all(|(spelling, wanted)| Symbol::from_spelling(spelling) == *wanted)
}

fn spells_wholes() -> bool {
    WHOLES
        .iter()
        .all(|(spelling, wanted)| whole_of(spelling) == *wanted)
}

#[test]
fn tells_words_symbols_and_wholes(rt: HostRuntime) -> Result<(), Fail> {
    assert!(rt; spells_words() && spells_symbols() && spells_wholes());
    Ok(())
}

// Filters with the texts that stand in them.
const TEXTS: [(&str, &[&str]); 6] = [
    ("a", &[]),
    ("''", &[""]),
    ("''''", &["'"]),
    ("a IN ('it''s', 'x')", &["it's", "x"]),
    ("a LIKE 'r\\_%' ESCAPE '\\'", &["r\\_%", "\\"]),
    ("'é''''é' + 'no end", &["é''é"]),
];

// The texts of the filter, in their order.
fn texts_of(alloc: Global, filter: &str) -> Result<Vec<String>, AllocError> {
    let found = tokens(alloc, filter)?;
    let mut texts = Vec::new(alloc);
    for token in &found {
        if let Text = token.kind {
            texts.push(unquoted(alloc, token.spelling(filter))?)?;
        }
    }
    Ok(texts)
}

fn has_texts(alloc: Global, filter: &str, wanted: &[&str]) -> Result<bool, AllocError> {
    let texts = texts_of(alloc, filter)?;
    Ok(
        texts.len() == wanted.len()
            && texts
                .iter()
                .zip(wanted)
                .all(|(text, wanted)| text.as_str() == *wanted),
    )
}

// The first filter whose texts are others.
fn wrong_text(alloc: Global) -> Result<Option<&'static str>, AllocError> {
    for (filter, wanted) in TEXTS {
        if !has_texts(alloc, filter, wanted)? {
            return Ok(Some(filter));
        }
    }
    Ok(None)
}

#[test]
fn reads_texts(rt: HostRuntime) -> Result<(), Fail> {
    assert!(rt; wrong_text(rt.alloc())?.is_none());
    Ok(())
}

// Parts of filters that are repeated so often, with how many tokens that is.
const REPEATED: [(&str, usize); 7] = [
    ("a*", 1_000_000),
    (" \t", 0),
    ("ab", 1),
    ("77", 1),
    ("''", 1),
    ("'' ", 500_000),
    ("é'", 1),
];

// The first part with another count. Of time that grows with the square of a filter's length a test has too little.
fn wrong_count(alloc: Global) -> Result<Option<&'static str>, AllocError> {
    for (part, count) in REPEATED {
        let filter = part.repeat(alloc, 500_000)?;
        if tokens(alloc, filter.as_str())?.len() != count {
            return Ok(Some(part));
        }
    }
    Ok(None)
}

#[test]
fn reads_long_filters(rt: HostRuntime) -> Result<(), Fail> {
    assert!(rt; wrong_count(rt.alloc())?.is_none());
    Ok(())
}
