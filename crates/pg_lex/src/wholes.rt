// Whole numbers.
ghost use Rattle.std.specs.Prelude.{MatchOption, ◌≡◌, pos};
ghost use Rattle.pg_lex.specs.Spelling.{IsWhole, value_of};

/// How great a whole may be.
const GREATEST: u128 = 9_223_372_036_854_775_807;

/// The number that the digits spell. None where other characters stand there, or where the number is above 2^63 - 1.
pub fn whole_of(spelling: &str) -> Option<i64>
    ensures { MatchOption result
        (IsWhole spelling.now → ⊥)
        (λ whole. IsWhole spelling.now × (whole ≡ pos (value_of spelling.now))) }
{
    let number = number_of(spelling.as_bytes())?;
    Some(number as i64)
}

// The number that the digits spell.
pub(crate) fn number_of(digits: &[u8]) -> Option<u64>
    ensures { MatchOption result
        (IsWhole digits.now → ⊥)
        (λ number. IsWhole digits.now × (number ≡ value_of digits.now)) }
{
    let mut number = 0u64;
    for digit in digits {
        if !digit.is_ascii_digit() {
            return None;
        }
        let next = 10 * u128::from(number) + u128::from(digit - b'0');
        if next > GREATEST {
            return None;
        }
        number = next as u64;
    }
    if digits.is_empty() {
        None
    } else {
        Some(number)
    }
}
