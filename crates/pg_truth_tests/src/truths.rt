// Filters and their truth for the message: Y for yes, N for no, U for unknown.
use crate::messages::message;
use pg_eval::{Tri, eval, matches};
use pg_msg::Property;
use pg_parse::parse;
use std::alloc::{AllocError, Global};
use std::test::Fail;

const OPERATORS: [&str; 6] = ["=", "<>", "<", "<=", ">", ">="];

// Two sides, and the truth of their comparison by each operator in turn.
const COMPARISONS: [(&str, &str, &str); 27] = [
    // wholes
    ("n", "n", "YNNYNY"),
    ("n", "m", "NYYYNN"),
    ("m", "n", "NYNNYY"),
    ("minus", "n", "NYYYNN"),
    ("least", "most", "NYYYNN"),
    ("minus", "least", "NYNNYY"),
    // texts and truths
    ("t", "'x'", "YNNNNN"),
    ("t", "u", "NYNNNN"),
    ("u", "t", "NYNNNN"),
    ("accent", "'e'", "NYNNNN"),
    ("b", "TRUE", "YNNNNN"),
    ("c", "FALSE", "YNNNNN"),
    ("b", "c", "NYNNNN"),
    ("c", "b", "NYNNNN"),
    // unlike kinds
    ("t", "n", "NNNNNN"),
    ("n", "t", "NNNNNN"),
    ("n", "'1'", "NNNNNN"),
    ("t", "b", "NNNNNN"),
    ("b", "'TRUE'", "NNNNNN"),
    ("n", "b", "NNNNNN"),
    ("b", "n", "NNNNNN"),
    // unknown sides
    ("z", "n", "UUUUUU"),
    ("z", "t", "UUUUUU"),
    ("b", "z", "UUUUUU"),
    ("n", "z", "UUUUUU"),
    ("t", "z", "UUUUUU"),
    ("z", "z", "UUUUUU"),
];

// A truth of each kind, and of what counts as unknown.
const OPERANDS: [&str; 5] = ["b", "c", "z", "t", "n"];

// A left side, and the truth with each of the operands as the right one.
const ANDS: [(&str, &str); 5] = [
    ("b AND ", "YNUUU"),
    ("c AND ", "NNNNN"),
    ("z AND ", "UNUUU"),
    ("t AND ", "UNUUU"),
    ("n AND ", "UNUUU"),
];

const ORS: [(&str, &str); 5] = [
    ("b OR ", "YYYYY"),
    ("c OR ", "YNUUU"),
    ("z OR ", "YUUUU"),
    ("t OR ", "YUUUU"),
    ("n OR ", "YUUUU"),
];

const ALONE: [(&str, &str); 3] = [("", "YNUUU"), ("NOT ", "NYUUU"), ("NOT NOT ", "YNUUU")];

const FILTERS: [(&str, &str); 109] = [
    ("1", "U"),
    ("'x'", "U"),
    ("TRUE", "Y"),
    ("FALSE", "N"),
    // names: the case matters, and the first of a name counts
    ("N = 1", "U"),
    ("T IS NULL", "Y"),
    ("t = 'x'", "Y"),
    ("t = 9", "N"),
    // three values
    ("NOT color = 'red'", "N"),
    ("NOT z = 'red'", "U"),
    ("z = 'red' OR NOT z = 'red'", "U"),
    ("NOT t = 1", "Y"),
    ("NOT t <> 1", "Y"),
    ("b OR z AND c", "Y"),
    ("c OR NOT z AND b", "U"),
    ("t IN ('x','y') OR n IS NULL", "Y"),
    ("n IN ('x','y') OR b IS NULL", "N"),
    ("z IN ('x','y') OR z IS NULL", "Y"),
    // comparisons are truths
    ("(n = 1) = TRUE", "Y"),
    ("(n = 1) = (m = 2)", "Y"),
    ("(n = 2) <> TRUE", "Y"),
    ("(z = 1) = TRUE", "U"),
    ("(n = 1) < TRUE", "N"),
    ("(n = 1) + 1 = 2", "U"),
    ("(b AND n) = TRUE", "U"),
    ("(b OR n) = TRUE", "Y"),
    // sums
    ("n + m = 3", "Y"),
    ("n - m = -1", "Y"),
    ("n - m - m = -3", "Y"),
    ("m * m + n = 5", "Y"),
    ("minus * m = -2", "Y"),
    ("+minus = -1", "Y"),
    ("-minus = 1", "Y"),
    ("- -m = 2", "Y"),
    ("n + m", "U"),
    // outside 64 bits
    ("most + 1 > 0", "U"),
    ("most + 0 > 0", "Y"),
    ("1 + most > 0", "U"),
    ("most - minus > 0", "U"),
    ("least - 1 < 0", "U"),
    ("least - 0 < 0", "Y"),
    ("least + minus < 0", "U"),
    ("minus - most = least", "Y"),
    ("least + most = -1", "Y"),
    ("most * 2 > 0", "U"),
    ("most * minus < 0", "Y"),
    ("least * minus > 0", "U"),
    ("least * 1 < 0", "Y"),
    ("-least > 0", "U"),
    ("-most < 0", "Y"),
    ("+least < 0", "Y"),
    ("most + 1 - 1 = most", "U"),
    ("most - 1 + 1 = most", "Y"),
    ("-9223372036854775807 - 1 = least", "Y"),
    ("most + 1 > 0 OR b", "Y"),
    // sums of what isn't a whole
    ("t + 1 = 2", "U"),
    ("1 + t = 2", "U"),
    ("t + t = t", "U"),
    ("b - b = 0", "U"),
    ("z * 0 = 0", "U"),
    ("0 * b = 0", "U"),
    ("-t = 1", "U"),
    ("+t = t", "U"),
    ("-b = 1", "U"),
    ("+b = TRUE", "U"),
    ("-z = 1", "U"),
    // IN
    ("t IN ('x','y')", "Y"),
    ("t IN ('y','x')", "Y"),
    ("t IN ('X')", "N"),
    ("empty IN ('')", "Y"),
    ("accent IN ('e','é')", "Y"),
    ("n IN ('1')", "N"),
    ("b IN ('TRUE')", "N"),
    ("z IN ('x')", "U"),
    ("t NOT IN ('x')", "N"),
    ("n NOT IN ('1')", "Y"),
    ("z NOT IN ('x')", "U"),
    // LIKE
    ("color LIKE 'r%'", "Y"),
    ("color LIKE 'b%'", "N"),
    ("accent LIKE '_'", "Y"),
    ("empty LIKE ''", "Y"),
    ("color LIKE 'r\\_%' ESCAPE '\\'", "N"),
    ("part LIKE 'r\\_%' ESCAPE '\\'", "Y"),
    ("n LIKE '1'", "N"),
    ("b LIKE '%'", "N"),
    ("z LIKE '%'", "U"),
    ("color NOT LIKE 'r%'", "N"),
    ("n NOT LIKE '1'", "Y"),
    ("z NOT LIKE '%'", "U"),
    // IS NULL
    ("z IS NULL", "Y"),
    ("c IS NULL", "N"),
    ("z IS NOT NULL", "N"),
    ("empty IS NOT NULL", "Y"),
    // BETWEEN
    ("n BETWEEN 1 AND 3", "Y"),
    ("3 BETWEEN 1 AND 3", "Y"),
    ("zero BETWEEN 1 AND 3", "N"),
    ("4 BETWEEN 1 AND 3", "N"),
    ("m BETWEEN 3 AND 1", "N"),
    ("z BETWEEN 1 AND 3", "U"),
    ("n BETWEEN z AND 3", "U"),
    ("n BETWEEN 1 AND z", "U"),
    ("n BETWEEN z AND 0", "N"),
    ("n BETWEEN 2 AND z", "N"),
    ("t BETWEEN 'a' AND 'z'", "N"),
    ("b BETWEEN FALSE AND TRUE", "N"),
    ("n BETWEEN 'a' AND 3", "N"),
    ("n NOT BETWEEN 2 AND 3", "Y"),
    ("z NOT BETWEEN 1 AND 3", "U"),
    ("n NOT BETWEEN z AND 0", "Y"),
];

fn letter(truth: Tri) -> &'static str {
    match truth {
        Tri::Yes => "Y",
        Tri::No => "N",
        Tri::Unknown => "U",
    }
}

// Whether the filter has this truth, and matches the message only if it is a yes, as no filter does anyhow.
pub fn is_true_so(
    alloc: Global,
    filter: &str,
    wanted: &str,
    properties: &[Property],
) -> Result<bool, AllocError> {
    match parse(alloc, filter) {
        Ok(tree) => Ok(
            letter(eval(&tree, properties)) == wanted
                && matches(Some(&tree), properties) == (wanted == "Y")
                && matches(None, properties),
        ),
        Err(_) => Ok(false),
    }
}

// The parts as one filter.
fn joined(alloc: Global, left: &str, middle: &str, right: &str) -> Result<String, AllocError> {
    let mut filter = String::from_str(alloc, left)?;
    filter.push_str(middle)?;
    filter.push_str(right)?;
    Ok(filter)
}

// Whether the two sides compare by each of the operators as the letters say, of which there is one for each.
fn compare_so(
    alloc: Global,
    row: &(&str, &str, &str),
    properties: &[Property],
) -> Result<bool, AllocError> {
    let (left, right, letters) = *row;
    let mut rest = letters;
    for operator in OPERATORS.iter() {
        let Some((wanted, behind)) = rest.split_at_checked(1) else {
            return Ok(false);
        };
        let filter = joined(alloc, left, operator, right)?;
        if !is_true_so(alloc, filter.as_str(), wanted, properties)? {
            return Ok(false);
        }
        rest = behind;
    }
    Ok(rest.is_empty())
}

// Whether the left side makes of each of the operands what the letters say.
fn takes_operands(
    alloc: Global,
    row: &(&str, &str),
    properties: &[Property],
) -> Result<bool, AllocError> {
    let (left, letters) = *row;
    let mut rest = letters;
    for right in OPERANDS.iter() {
        let Some((wanted, behind)) = rest.split_at_checked(1) else {
            return Ok(false);
        };
        let filter = joined(alloc, left, "", right)?;
        if !is_true_so(alloc, filter.as_str(), wanted, properties)? {
            return Ok(false);
        }
        rest = behind;
    }
    Ok(rest.is_empty())
}

// The sides of the first comparison with a wrong truth.
fn wrong_comparison(alloc: Global) -> Result<Option<(&'static str, &'static str)>, AllocError> {
    let properties = message(alloc)?;
    for row in COMPARISONS.iter() {
        if !compare_so(alloc, row, properties.as_slice())? {
            return Ok(Some((row.0, row.1)));
        }
    }
    Ok(None)
}

// The first left side of the rows that makes a wrong truth of an operand.
fn wrong_side(
    alloc: Global,
    rows: &[(&'static str, &'static str)],
) -> Result<Option<&'static str>, AllocError> {
    let properties = message(alloc)?;
    for row in rows.iter() {
        if !takes_operands(alloc, row, properties.as_slice())? {
            return Ok(Some(row.0));
        }
    }
    Ok(None)
}

// The first filter with a wrong truth.
fn wrong_filter(alloc: Global) -> Result<Option<&'static str>, AllocError> {
    let properties = message(alloc)?;
    for (filter, wanted) in FILTERS.iter() {
        if !is_true_so(alloc, filter, wanted, properties.as_slice())? {
            return Ok(Some(*filter));
        }
    }
    Ok(None)
}

#[test]
fn compares(rt: HostRuntime) -> Result<(), Fail> {
    assert!(rt; wrong_comparison(rt.alloc())?.is_none());
    Ok(())
}

#[test]
fn joins_truths(rt: HostRuntime) -> Result<(), Fail> {
    let alloc = rt.alloc();
    assert!(rt;
        wrong_side(alloc, &ANDS)?.is_none()
            && wrong_side(alloc, &ORS)?.is_none()
            && wrong_side(alloc, &ALONE)?.is_none()
    );
    Ok(())
}

#[test]
fn judges_filters(rt: HostRuntime) -> Result<(), Fail> {
    assert!(rt; wrong_filter(rt.alloc())?.is_none());
    Ok(())
}
