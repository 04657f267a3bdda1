// Texts and patterns.
use pg_like::like;
use std::alloc::{AllocError, Global};
use std::test::Fail;

// A text, a pattern, the escape or nothing, and whether the text is like the pattern.
const ROWS: [(&str, &str, &str, bool); 86] = [
    ("", "", "", true),
    ("a", "", "", false),
    ("", "a", "", false),
    ("red", "red", "", true),
    ("red", "Red", "", false),
    ("red", "re", "", false),
    ("re", "red", "", false),
    // one character
    ("", "_", "", false),
    ("r", "_", "", true),
    ("re", "_", "", false),
    ("red", "r_d", "", true),
    ("rd", "r_d", "", false),
    ("reed", "r_d", "", false),
    ("red", "___", "", true),
    ("red", "____", "", false),
    ("%", "_", "", true),
    ("_", "_", "", true),
    ("a\nb", "a_b", "", true),
    ("é", "_", "", true),
    ("é", "__", "", false),
    ("日本", "__", "", true),
    ("𝄞", "_", "", true),
    ("aéb", "a_b", "", true),
    ("é", "é", "", true),
    ("é", "è", "", false),
    // any number of them
    ("", "%", "", true),
    ("", "%%", "", true),
    ("red", "%", "", true),
    ("red", "%%%", "", true),
    ("red", "r%", "", true),
    ("red", "red%", "", true),
    ("red", "%red", "", true),
    ("red", "%d", "", true),
    ("red", "%e%", "", true),
    ("red", "r%d", "", true),
    ("rd", "r%d", "", true),
    ("red", "%x%", "", false),
    ("red", "e%", "", false),
    ("red", "%e", "", false),
    ("red", "%redd", "", false),
    ("", "%a", "", false),
    ("100%", "100%", "", true),
    ("éa", "%a", "", true),
    ("aé", "a%", "", true),
    ("日本", "%本", "", true),
    // both
    ("", "%_", "", false),
    ("a", "%_", "", true),
    ("a", "_%", "", true),
    ("a", "_%_", "", false),
    ("ab", "_%_", "", true),
    ("ab", "%_%_", "", true),
    ("a", "%_%_", "", false),
    ("abcabd", "%ab_", "", true),
    ("abcabd", "%a_c", "", false),
    // an earlier place isn't the right one
    ("aab", "%ab", "", true),
    ("aaab", "a%ab", "", true),
    ("ababa", "%ab", "", false),
    ("abcabd", "%abd%", "", true),
    ("mississippi", "%iss%ip%", "", true),
    ("mississippi", "m%issip%i", "", true),
    ("mississippi", "%iss%iss%iss%", "", false),
    ("aba", "%ab%ba%", "", false),
    ("abba", "%ab%ba%", "", true),
    // an escape
    ("r_1", "r\\_%", "\\", true),
    ("r_", "r\\_%", "\\", true),
    ("red", "r\\_%", "\\", false),
    ("r%1", "r\\%1", "\\", true),
    ("rx1", "r\\%1", "\\", false),
    ("\\", "\\\\", "\\", true),
    ("\\\\", "\\\\", "\\", false),
    ("\\\\", "\\\\", "", true),
    ("ab", "a\\b", "\\", true),
    ("a\\b", "a\\b", "\\", false),
    ("a%", "aé%", "é", true),
    ("ab", "aé%", "é", false),
    ("red", "rxed", "x", true),
    // an escape at the end of the pattern
    ("a\\", "a\\", "\\", true),
    ("a", "a\\", "\\", false),
    ("a\\b", "a\\", "\\", false),
    ("\\\\", "\\\\\\", "\\", true),
    // an escape that is a sign of patterns
    ("%", "%%", "%", true),
    ("x", "%%", "%", false),
    ("a%", "a%", "%", true),
    ("ab", "a%", "%", false),
    ("_", "__", "_", true),
    ("x", "_x", "_", true),
];

// The first text and pattern that are judged wrongly.
fn wrong_row() -> Option<(&'static str, &'static str)> {
    for (text, pattern, escape, wanted) in ROWS.iter() {
        if like(text, pattern, escape.chars().next()) != *wanted {
            return Some((*text, *pattern));
        }
    }
    None
}

#[test]
fn judges_texts(rt: HostRuntime) {
    assert!(rt; wrong_row().is_none());
}

// The part so often, and what stands at the end.
pub fn row(alloc: Global, part: &str, times: usize, last: &str) -> Result<String, AllocError> {
    let mut text = String::new(alloc);
    for _ in 0..times {
        text.push_str(part)?;
    }
    text.push_str(last)?;
    Ok(text)
}

// Patterns of many parts over long texts: each takes far longer than a test may if it is tried in every way.
fn long_texts(alloc: Global) -> Result<bool, AllocError> {
    let text = row(alloc, "a", 20_000, "b")?;
    let found = row(alloc, "%a", 40, "%b")?;
    let missing = row(alloc, "%a", 40, "%c")?;
    let single = row(alloc, "%_a", 40, "_b%")?;
    Ok(
        like(text.as_str(), found.as_str(), None)
            && !like(text.as_str(), missing.as_str(), None)
            && like(text.as_str(), single.as_str(), None),
    )
}

#[test]
fn judges_long_texts(rt: HostRuntime) -> Result<(), Fail> {
    assert!(rt; long_texts(rt.alloc())?);
    Ok(())
}
