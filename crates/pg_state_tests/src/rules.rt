// The rule that each entry breaks.
use crate::entries::{
    Settings, USUAL, add, address, broken_there, numbered, page_tx, paged, queue,
};
use pg_disk::Rule;
use pg_fold::FoldError;
use pg_msg::MessageId;
use pg_records::Entry;
use std::alloc::{AllocError, Global};
use std::test::Fail;

const ADDRESSES: [(u32, &str, Settings, Option<Rule>); 14] = [
    (3, "C", (0, 1, 0, 0), None),
    (
        3,
        "C",
        (1_000_000_000_000, 1_000_000_000, 1_000_000_000, 65_535),
        None,
    ),
    // named as a queue
    (3, "Q", USUAL, None),
    (0, "C", USUAL, Some(Rule::Repeat)),
    (2, "C", USUAL, Some(Rule::Repeat)),
    (4, "C", USUAL, Some(Rule::Repeat)),
    (3, "A", USUAL, Some(Rule::Repeat)),
    (3, "B", USUAL, Some(Rule::Repeat)),
    (3, "C", (1_000_000_000_001, 100, 64, 2), Some(Rule::Name)),
    (3, "C", (50, 0, 64, 2), Some(Rule::Name)),
    (3, "C", (50, 1_000_000_001, 64, 2), Some(Rule::Name)),
    (3, "C", (50, 100, 1_000_000_001, 2), Some(Rule::Name)),
    (3, "C", (50, 100, 64, 65_536), Some(Rule::Name)),
    // both parts fail
    (3, "A", (50, 0, 64, 2), Some(Rule::Repeat)),
];

const QUEUES: [(u32, u32, &str, &str, Option<Rule>); 15] = [
    (5, 1, "U", "", None),
    // named as the queue that was dropped, and as an address
    (5, 2, "T", "", None),
    (5, 1, "A", "", None),
    (4, 1, "U", "", Some(Rule::Repeat)),
    (6, 1, "U", "", Some(Rule::Repeat)),
    (5, 1, "Q", "", Some(Rule::Repeat)),
    (5, 1, "S", "", Some(Rule::Repeat)),
    (5, 0, "U", "", Some(Rule::Name)),
    (5, 3, "U", "", Some(Rule::Name)),
    // with a filter
    (5, 1, "U", "n < 5", None),
    (5, 3, "U", "n < 5", Some(Rule::Name)),
    // with a text that is no filter
    (5, 1, "U", "n <", Some(Rule::Name)),
    (5, 1, "U", " ", Some(Rule::Name)),
    (5, 1, "U", "a = 1 = 2", Some(Rule::Name)),
    // both parts fail
    (5, 3, "Q", "n <", Some(Rule::Repeat)),
];

// How many bytes a name has that is a filter, and the rule that the queue with it breaks.
const LENGTHS: [(usize, Option<Rule>); 2] = [(4_096, None), (4_097, Some(Rule::Name))];

const MESSAGES: [(u32, &[u32], u32, u32, Option<Rule>); 12] = [
    (1, &[1, 2], 1, 2, None),
    (1, &[1], 2, 2, None),
    (2, &[3], 2, 9, None),
    (0, &[1], 2, 2, Some(Rule::Name)),
    (3, &[1], 2, 2, Some(Rule::Name)),
    (1, &[1, 3], 2, 2, Some(Rule::Name)),
    (1, &[1, 4], 2, 2, Some(Rule::Name)),
    (2, &[1], 2, 2, Some(Rule::Name)),
    (1, &[1], 3, 1, Some(Rule::Name)),
    (1, &[1], 1, 1, Some(Rule::Repeat)),
    (2, &[3], 2, 1, Some(Rule::Repeat)),
    // both parts fail
    (1, &[4], 1, 1, Some(Rule::Name)),
];

const ACKNOWLEDGEMENTS: [(u32, u32, u32, Option<Rule>); 7] = [
    (1, 1, 1, None),
    (2, 1, 1, None),
    (2, 2, 1, None),
    (1, 2, 1, Some(Rule::Name)),
    (3, 1, 1, Some(Rule::Name)),
    (1, 1, 2, Some(Rule::Name)),
    (1, 2, 2, Some(Rule::Name)),
];

const NUMBERS: [(u8, u32, Option<Rule>); 19] = [
    (1, 3, None),
    (1, 9, None),
    (1, 2, Some(Rule::Repeat)),
    (1, 1, Some(Rule::Repeat)),
    (4, 1, None),
    (4, 3, None),
    (4, 0, Some(Rule::Name)),
    (4, 4, Some(Rule::Name)),
    (4, 5, Some(Rule::Name)),
    (14, 5, None),
    (14, 9, None),
    (14, 4_294_967_295, None),
    (14, 4, Some(Rule::Repeat)),
    (14, 1, Some(Rule::Repeat)),
    (7, 1, Some(Rule::Name)),
    (8, 1, Some(Rule::Name)),
    (12, 1, Some(Rule::Name)),
    (13, 1, Some(Rule::Name)),
    (15, 1, Some(Rule::Name)),
];

// The codes of the entries that name one page. No address has the page 0.
const PAGED: [u8; 4] = [7, 8, 13, 15];

// The first row of each table at which another rule is broken than the table says.
fn wrong_address(alloc: Global) -> Result<Option<u32>, FoldError> {
    for (id, name, settings, rule) in ADDRESSES {
        if broken_there(alloc, address(alloc, id, name, settings)?)? != rule {
            return Ok(Some(id));
        }
    }
    Ok(None)
}

fn wrong_queue(alloc: Global) -> Result<Option<u32>, FoldError> {
    for (id, at, name, filter, rule) in QUEUES {
        if broken_there(alloc, queue(alloc, id, at, name, filter)?)? != rule {
            return Ok(Some(id));
        }
    }
    Ok(None)
}

// A filter that is a name of so many bytes.
fn name_of(alloc: Global, length: usize) -> Result<String, AllocError> {
    let mut name = String::new(alloc);
    for _ in 0..length {
        name.push_str("a")?;
    }
    Ok(name)
}

fn wrong_length(alloc: Global) -> Result<Option<usize>, FoldError> {
    for (length, rule) in LENGTHS {
        let filter = name_of(alloc, length)?;
        if broken_there(alloc, queue(alloc, 5, 1, "U", filter.as_str())?)? != rule {
            return Ok(Some(length));
        }
    }
    Ok(None)
}

fn wrong_message(alloc: Global) -> Result<Option<u32>, FoldError> {
    for (at, queues, epoch, number, rule) in MESSAGES {
        let id = MessageId { epoch, number };
        if broken_there(alloc, add(alloc, at, queues, id)?)? != rule {
            return Ok(Some(number));
        }
    }
    Ok(None)
}

fn wrong_acknowledgement(alloc: Global) -> Result<Option<u32>, FoldError> {
    for (queue, epoch, number, rule) in ACKNOWLEDGEMENTS {
        let message = MessageId { epoch, number };
        if broken_there(alloc, Entry::Ack { queue, message })? != rule {
            return Ok(Some(queue));
        }
    }
    Ok(None)
}

fn wrong_number(alloc: Global) -> Result<Option<u32>, FoldError> {
    for (code, number, rule) in NUMBERS {
        if broken_there(alloc, numbered(code, number))? != rule {
            return Ok(Some(number));
        }
    }
    Ok(None)
}

fn wrong_page(alloc: Global) -> Result<Option<u8>, FoldError> {
    for code in PAGED {
        if broken_there(alloc, paged(code, 0))? != Some(Rule::Name) {
            return Ok(Some(code));
        }
    }
    if broken_there(alloc, page_tx(alloc, 1, 0)?)? != Some(Rule::Name) {
        return Ok(Some(9));
    }
    Ok(None)
}

#[test]
fn tells_the_rule_that_an_address_breaks(rt: HostRuntime) -> Result<(), Fail> {
    assert!(rt; wrong_address(rt.alloc())?.is_none());
    Ok(())
}

#[test]
fn tells_the_rule_that_a_queue_breaks(rt: HostRuntime) -> Result<(), Fail> {
    let alloc = rt.alloc();
    assert!(rt; wrong_queue(alloc)?.is_none() && wrong_length(alloc)?.is_none());
    Ok(())
}

#[test]
fn tells_the_rule_that_a_message_breaks(rt: HostRuntime) -> Result<(), Fail> {
    assert!(rt; wrong_message(rt.alloc())?.is_none());
    Ok(())
}

#[test]
fn tells_the_rule_that_an_acknowledgement_breaks(rt: HostRuntime) -> Result<(), Fail> {
    assert!(rt; wrong_acknowledgement(rt.alloc())?.is_none());
    Ok(())
}

#[test]
fn tells_the_rule_that_a_number_breaks(rt: HostRuntime) -> Result<(), Fail> {
    let alloc = rt.alloc();
    assert!(rt; wrong_number(alloc)?.is_none() && wrong_page(alloc)?.is_none());
    Ok(())
}
