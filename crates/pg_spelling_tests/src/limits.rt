// The limits, as `docs/RULES.md` and `docs/FORMATS.md` give them.
use pg_msg::{
    FILE_LIMIT, GREATEST_AHEAD, GREATEST_DUP, GREATEST_MAX, GREATEST_PAGE, LONGEST_DUPLICATE_ID,
    LONGEST_FILTER, LONGEST_NAME, LONGEST_PIECE, MOST_ADDRESSES, MOST_PROPERTIES, MOST_QUEUES,
    QUEUE_ID_LIMIT, WEIGHT_LIMIT,
};
use std::test::Fail;

// Each constant, and the number that the documents have.
const COUNTS: [(usize, usize); 6] = [
    (MOST_ADDRESSES, 1_000),
    (MOST_QUEUES, 1_000),
    (MOST_PROPERTIES, 100),
    (LONGEST_NAME, 64),
    (LONGEST_DUPLICATE_ID, 64),
    (LONGEST_FILTER, 4_096),
];

const NUMBERS: [(u64, u64); 8] = [
    (QUEUE_ID_LIMIT as u64, 4_294_967_295),
    (WEIGHT_LIMIT, 102_400),
    (GREATEST_MAX, 1_000_000_000_000),
    (GREATEST_PAGE, 1_000_000_000),
    (GREATEST_AHEAD, 1_000_000_000),
    (GREATEST_DUP as u64, 65_535),
    (LONGEST_PIECE, 65_536),
    (FILE_LIMIT, 4_611_686_018_427_387_904),
];

// The first number of the documents that the constant beside it isn't.
fn wrong_limit() -> Option<u64> {
    for (limit, number) in COUNTS {
        if limit != number {
            return Some(number as u64);
        }
    }
    for (limit, number) in NUMBERS {
        if limit != number {
            return Some(number);
        }
    }
    None
}

#[test]
fn limits_are_those_of_the_rules(rt: HostRuntime) -> Result<(), Fail> {
    assert!(rt; wrong_limit().is_none());
    Ok(())
}
