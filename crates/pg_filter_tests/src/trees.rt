// Filters with their trees, or with the offsets at which they are refused.
use pg_bytes::Text;
use pg_parse::{FilterError, Op, Texts, Tree, parse};
use sqlite_items::Boxed;
use std::alloc::{AllocError, Global};
use std::test::Fail;

// Filters with their trees: an operator before its parts in brackets, a whole before `;`, a text in quotes that aren't
// doubled within.
const FILTERS: [(&str, &str); 70] = [
    ("a", "a"),
    ("$a_1", "$a_1"),
    ("NOTa", "NOTa"),
    ("007", "7;"),
    ("9223372036854775807", "9223372036854775807;"),
    ("'it''s'", "'it's'"),
    ("''", "''"),
    ("TRUE", "true"),
    ("fAlSe", "false"),
    // parentheses leave nothing
    ("(a)", "a"),
    ("((a) = 1) AND b", "and[=[a 1;] b]"),
    ("(a) = 1", "=[a 1;]"),
    ("(a = 1) + 2 = 3", "=[+[=[a 1;] 2;] 3;]"),
    ("(a OR b) AND c", "and[or[a b] c]"),
    ("a - (b - c)", "-[a -[b c]]"),
    // ranks and grouping
    ("a OR b AND c", "or[a and[b c]]"),
    ("a AND b OR c", "or[and[a b] c]"),
    ("a OR b OR c", "or[or[a b] c]"),
    ("a AND b AND c", "and[and[a b] c]"),
    ("NOT NOT a", "not[not[a]]"),
    ("NOT a = 1", "not[=[a 1;]]"),
    ("NOT a AND b", "and[not[a] b]"),
    ("a AND NOT b OR c", "or[and[a not[b]] c]"),
    ("a - b - c", "-[-[a b] c]"),
    ("a - b + c", "+[-[a b] c]"),
    ("a + b * c", "+[a *[b c]]"),
    ("a * b + c", "+[*[a b] c]"),
    ("a * b * c", "*[*[a b] c]"),
    ("a + 1 < b * 2", "<[+[a 1;] *[b 2;]]"),
    // signs
    ("a - -1", "-[a neg[1;]]"),
    ("a=-1", "=[a neg[1;]]"),
    ("- + a", "neg[pos[a]]"),
    ("-a * b", "*[neg[a] b]"),
    ("a * -b", "*[a neg[b]]"),
    // comparisons
    ("a = 1", "=[a 1;]"),
    ("a <> 1", "<>[a 1;]"),
    ("a<1", "<[a 1;]"),
    ("a<=1", "<=[a 1;]"),
    ("a>1", ">[a 1;]"),
    ("a >= 1", ">=[a 1;]"),
    ("'x' = a", "=['x' a]"),
    ("a = 'é'", "=[a 'é']"),
    ("a = TRUE OR b", "or[=[a true] b]"),
    // IN
    ("a IN ('x')", "in[a 'x']"),
    ("a IN('x','y' , 'x')", "in[a 'x' 'y' 'x']"),
    ("a IN ('')", "in[a '']"),
    ("a NOT IN ('x')", "not[in[a 'x']]"),
    ("NOT a NOT IN ('x')", "not[not[in[a 'x']]]"),
    // LIKE
    ("a LIKE 'x%'", "like[a 'x%']"),
    ("a NOT LIKE 'x'", "not[like[a 'x']]"),
    ("a LIKE 'r\\_%' ESCAPE '\\'", "like[a 'r\\_%' \\]"),
    ("a LIKE 'x' ESCAPE ''''", "like[a 'x' ']"),
    ("a LIKE 'x' ESCAPE 'é'", "like[a 'x' é]"),
    (
        "a NOT LIKE 'x' ESCAPE 'y' AND b",
        "and[not[like[a 'x' y]] b]",
    ),
    // IS
    ("a IS NULL", "null[a]"),
    ("a IS NOT NULL", "not[null[a]]"),
    ("NOT a IS NULL", "not[null[a]]"),
    // BETWEEN
    ("a BETWEEN 1 AND 2", "between[a 1; 2;]"),
    ("1 NOT BETWEEN a AND b", "not[between[1; a b]]"),
    ("a BETWEEN 1 AND 2 AND b", "and[between[a 1; 2;] b]"),
    ("a BETWEEN (1 AND 2) AND 3", "between[a and[1; 2;] 3;]"),
    (
        "a + 1 BETWEEN b - 1 AND c * 2",
        "between[+[a 1;] -[b 1;] *[c 2;]]",
    ),
    ("(a) BETWEEN 'x' AND 'y'", "between[a 'x' 'y']"),
    // reserved words in every case, and blanks
    ("a aNd b", "and[a b]"),
    ("a\tor\tb", "or[a b]"),
    ("nOt a", "not[a]"),
    ("a between 1 and 2", "between[a 1; 2;]"),
    ("a iN('x')", "in[a 'x']"),
    ("a lIkE 'x' EsCaPe 'y'", "like[a 'x' y]"),
    (" a iS nOt NuLl\t", "not[null[a]]"),
];

// Filters that are none, with the offset in bytes.
const REFUSED: [(&str, usize); 62] = [
    ("", 0),
    ("  \t", 3),
    (" a AND ", 7),
    ("NOT", 3),
    ("a >", 3),
    ("(a", 2),
    ("()", 1),
    ("(a))", 3),
    ("a b", 2),
    ("a , b", 2),
    ("and", 0),
    ("a AND OR b", 6),
    ("a + * b", 4),
    ("a = b = c", 6),
    ("a = 1 = 2", 6),
    ("a = NOT b", 4),
    // what can't be read
    ("a.b", 1),
    ("a\nb", 1),
    ("a!=b", 1),
    ("a = 'x", 4),
    ("a = 'it'' ", 4),
    ("a = 'é' é", 9),
    ("é", 0),
    ("9223372036854775808", 0),
    ("-9223372036854775808", 1),
    ("a b.c", 2),
    // tokens side by side
    ("1a", 1),
    ("a = 'x'y", 7),
    ("a==b", 2),
    ("a=<b", 2),
    ("a< >b", 3),
    // IN
    ("'x' IN ('x')", 4),
    ("(a) IN ('x')", 4),
    ("a + b IN ('x')", 6),
    ("TRUE IN ('x')", 5),
    ("1 NOT IN ('x')", 6),
    ("a IN 'x'", 5),
    ("a IN ()", 6),
    ("a IN (x)", 6),
    ("a IN ('x',)", 10),
    ("a IN ('x' 'y')", 10),
    ("a IN ('x'", 9),
    ("a IN ('x') = TRUE", 11),
    // LIKE
    ("-a LIKE 'x'", 3),
    ("a LIKE b", 7),
    ("a LIKE 'x' ESCAPE", 17),
    ("a LIKE 'x' ESCAPE ''", 18),
    ("a LIKE 'x' ESCAPE 'ab'", 18),
    ("a LIKE 'x' ESCAPE 'y' ESCAPE 'z'", 22),
    // IS
    ("a IS", 4),
    ("a IS TRUE", 5),
    ("a IS NOT", 8),
    ("1 IS NULL", 2),
    // BETWEEN
    ("a NOT", 5),
    ("a NOT b", 6),
    ("a BETWEEN 1", 11),
    ("a BETWEEN 1 AND", 15),
    ("a BETWEEN 1 OR 3", 12),
    ("a BETWEEN b = c AND d", 12),
    ("a BETWEEN 1 AND 2 = TRUE", 18),
    ("a = 1 BETWEEN 1 AND 2", 6),
    ("a NOT = 1", 6),
];

fn strip_text<'a>(text: &Text, rest: &'a str) -> Option<&'a str> {
    rest.strip_prefix('\'')?
        .strip_prefix(text.as_str())?
        .strip_prefix('\'')
}

fn strip_texts<'a>(texts: &Texts, rest: &'a str) -> Option<&'a str> {
    let mut rest = rest;
    for text in texts.as_slice() {
        rest = strip_text(text, rest.strip_prefix(' ')?)?;
    }
    Some(rest)
}

fn strip_whole(whole: i64, rest: &str) -> Option<&str> {
    let (digits, behind) = rest.split_once(';')?;
    if digits.parse::<i64>().ok()? == whole {
        Some(behind)
    } else {
        None
    }
}

fn strip_truth(truth: bool, rest: &str) -> Option<&str> {
    rest.strip_prefix(if truth { "true" } else { "false" })
}

fn strip_escape(escape: Option<char>, rest: &str) -> Option<&str> {
    match escape {
        Some(character) => rest.strip_prefix(' ')?.strip_prefix(character),
        None => Some(rest),
    }
}

fn sign_of(op: Op) -> &'static str {
    match op {
        Op::Equal => "=[",
        Op::Unequal => "<>[",
        Op::Less => "<[",
        Op::LessEqual => "<=[",
        Op::Greater => ">[",
        Op::GreaterEqual => ">=[",
    }
}

fn strip_name<'a>(name: &Text, rest: &'a str) -> Option<&'a str> {
    rest.strip_prefix(name.as_str())
}

fn strip_in<'a>(name: &Text, texts: &Texts, rest: &'a str) -> Option<&'a str> {
    strip_texts(texts, strip_name(name, rest.strip_prefix("in[")?)?)?.strip_prefix(']')
}

fn strip_like<'a>(
    name: &Text,
    pattern: &Text,
    escape: Option<char>,
    rest: &'a str,
) -> Option<&'a str> {
    let behind = strip_name(name, rest.strip_prefix("like[")?)?.strip_prefix(' ')?;
    strip_escape(escape, strip_text(pattern, behind)?)?.strip_prefix(']')
}

// What is behind the tree in the notation, if it stands at the front.
#[cycle(strip)]
fn strip<'a>(tree: &Tree, rest: &'a str) -> Option<&'a str> {
    match tree {
        Tree::Or(left, right) => strip_right(right, strip_left("or[", left, rest)?),
        Tree::And(left, right) => strip_right(right, strip_left("and[", left, rest)?),
        Tree::Not(inner) => strip_right(inner, rest.strip_prefix("not[")?),
        Tree::In(name, texts) => strip_in(name, texts, rest),
        Tree::Like(name, pattern, escape) => strip_like(name, pattern, *escape, rest),
        Tree::IsNull(name) => strip_name(name, rest.strip_prefix("null[")?)?.strip_prefix(']'),
        Tree::Between(inner, left, right) => {
            let behind = strip_left("between[", inner, rest)?;
            strip_right(right, strip_left("", left, behind)?)
        }
        Tree::Compare(op, left, right) => strip_right(right, strip_left(sign_of(*op), left, rest)?),
        Tree::Plus(left, right) => strip_right(right, strip_left("+[", left, rest)?),
        Tree::Minus(left, right) => strip_right(right, strip_left("-[", left, rest)?),
        Tree::Times(left, right) => strip_right(right, strip_left("*[", left, rest)?),
        Tree::Positive(inner) => strip_right(inner, rest.strip_prefix("pos[")?),
        Tree::Negative(inner) => strip_right(inner, rest.strip_prefix("neg[")?),
        Tree::Name(name) => strip_name(name, rest),
        Tree::Whole(whole) => strip_whole(*whole, rest),
        Tree::Text(text) => strip_text(text, rest),
        Tree::Truth(truth) => strip_truth(*truth, rest),
    }
}

// Of two parts the first, with what stands before it.
#[cycle(strip)]
fn strip_left<'a>(head: &str, left: &Boxed<Tree>, rest: &'a str) -> Option<&'a str> {
    strip(left.get(), rest.strip_prefix(head)?)?.strip_prefix(' ')
}

// The last part.
#[cycle(strip)]
fn strip_right<'a>(right: &Boxed<Tree>, rest: &'a str) -> Option<&'a str> {
    strip(right.get(), rest)?.strip_prefix(']')
}

// Whether the filter is read as the tree, and a copy of it is the same tree.
fn is_read(alloc: Global, filter: &str, wanted: &str) -> Result<bool, AllocError> {
    match parse(alloc, filter) {
        Ok(tree) => {
            let copy = tree.copy(alloc)?;
            Ok(strip(&tree, wanted) == Some("") && strip(&copy, wanted) == Some(""))
        }
        Err(_) => Ok(false),
    }
}

// Whether the filter is refused at the offset.
fn is_refused(alloc: Global, filter: &str, wanted: usize) -> bool {
    match parse(alloc, filter) {
        Err(FilterError::BadFilter { at }) => at == wanted,
        _ => false,
    }
}

// The first filter that is read as another tree.
fn wrong_tree(alloc: Global) -> Result<Option<&'static str>, AllocError> {
    for (filter, wanted) in FILTERS.iter() {
        if !is_read(alloc, filter, wanted)? {
            return Ok(Some(*filter));
        }
    }
    Ok(None)
}

// The first filter that isn't refused at its offset.
fn wrong_offset(alloc: Global) -> Option<&'static str> {
    for (filter, wanted) in REFUSED.iter() {
        if !is_refused(alloc, filter, *wanted) {
            return Some(*filter);
        }
    }
    None
}

#[test]
fn reads_trees(rt: HostRuntime) -> Result<(), Fail> {
    assert!(rt; wrong_tree(rt.alloc())?.is_none());
    Ok(())
}

#[test]
fn refuses_at_offsets(rt: HostRuntime) -> Result<(), Fail> {
    assert!(rt; wrong_offset(rt.alloc()).is_none());
    Ok(())
}

// The parts in a row: the first, the repeated one so often, the last.
fn row(
    alloc: Global,
    first: &str,
    repeated: &str,
    times: usize,
    last: &str,
) -> Result<String, AllocError> {
    let mut text = String::new(alloc);
    text.push_str(first)?;
    for _ in 0..times {
        text.push_str(repeated)?;
    }
    text.push_str(last)?;
    Ok(text)
}

// What opens a level, how it is closed, and where that of level 101 stands.
const LEVELS: [(&str, &str, usize); 5] = [
    ("NOT ", "", 400),
    ("(", ")", 100),
    ("-", "", 100),
    ("+", "", 100),
    ("not\t", "", 400),
];

// Whether 100 levels are a filter, and 101 are refused where the last begins.
fn opens(alloc: Global, opening: &str, closing: &str, last: usize) -> Result<bool, AllocError> {
    let closed = row(alloc, "a", closing, 100, "")?;
    let fitting = row(alloc, "", opening, 100, closed.as_str())?;
    let deep = row(alloc, "", opening, 101, closed.as_str())?;
    Ok(parse(alloc, fitting.as_str()).is_ok() && is_refused(alloc, deep.as_str(), last))
}

fn wrong_level(alloc: Global) -> Result<Option<&'static str>, AllocError> {
    for (opening, closing, last) in LEVELS.iter() {
        if !opens(alloc, opening, closing, *last)? {
            return Ok(Some(*opening));
        }
    }
    Ok(None)
}

// Levels of several kinds in one another, side by side, and the list of IN, which opens none.
fn mixes_levels(alloc: Global) -> Result<bool, AllocError> {
    let sign = row(alloc, "", "(", 100, "-a")?;
    let listed = row(alloc, "", "NOT ", 100, "a IN ('x')")?;
    let side_by_side = row(alloc, "NOT a", " AND NOT a", 200, "")?;
    Ok(
        is_refused(alloc, sign.as_str(), 100)
            && parse(alloc, listed.as_str()).is_ok()
            && parse(alloc, side_by_side.as_str()).is_ok(),
    )
}

#[test]
fn opens_a_hundred_levels(rt: HostRuntime) -> Result<(), Fail> {
    assert!(rt; wrong_level(rt.alloc())?.is_none() && mixes_levels(rt.alloc())?);
    Ok(())
}

// How many operators follow one another to the left, as far as 5,000.
fn operators(tree: &Tree) -> usize {
    let mut tree = tree;
    for count in 0..5000 {
        tree = match tree {
            Tree::Or(left, _) => left.get(),
            Tree::Times(left, _) => left.get(),
            _ => return count,
        };
    }
    5000
}

// Whether the filter is a chain of so many operators, also when it is copied.
fn is_chain(alloc: Global, filter: &str, wanted: usize) -> Result<bool, AllocError> {
    match parse(alloc, filter) {
        Ok(tree) => {
            let copy = tree.copy(alloc)?;
            Ok(operators(&tree) == wanted && operators(&copy) == wanted)
        }
        Err(_) => Ok(false),
    }
}

// 4,096 bytes of OR and of `*`, and 2,048 operators.
fn chains(alloc: Global) -> Result<bool, AllocError> {
    let ors = row(alloc, "a", " OR a", 819, "")?;
    let open = row(alloc, "", "a*", 2048, "")?;
    let times = row(alloc, "a", "*a", 2048, "")?;
    Ok(
        is_chain(alloc, ors.as_str(), 819)?
            && is_refused(alloc, open.as_str(), 4096)
            && is_chain(alloc, times.as_str(), 2048)?,
    )
}

#[test]
fn reads_long_chains(rt: HostRuntime) -> Result<(), Fail> {
    assert!(rt; chains(rt.alloc())?);
    Ok(())
}
