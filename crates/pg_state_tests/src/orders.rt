// Acknowledgements and drops in every order.
use crate::entries::{USUAL, add, address, applied, broken, queue};
use crate::rows::holds;
use pg_disk::Rule;
use pg_fold::{Durable, FoldError};
use pg_msg::MessageId;
use pg_records::Entry;
use std::alloc::{AllocError, Global};
use std::test::Fail;

// The numbers of three messages of one epoch: in the order of their ids, in the reverse order, and in neither. The
// queues 1 and 2 hold the first message, the queue 1 the second, the queue 2 the third.
const NUMBERS: [[u32; 3]; 3] = [[1, 2, 3], [9, 5, 2], [7, 4_294_967_295, 1]];

// Orders of four acknowledgements: the first message by the queue 1 (a) and by the queue 2 (b), the second (c) and the
// third (d) by the queue that holds it.
const ORDERS: [&str; 24] = [
    "abcd", "abdc", "acbd", "acdb", "adbc", "adcb", "bacd", "badc", "bcad", "bcda", "bdac", "bdca",
    "cabd", "cadb", "cbad", "cbda", "cdab", "cdba", "dabc", "dacb", "dbac", "dbca", "dcab", "dcba",
];

// The holders of the three messages behind some of these acknowledgements. A message without holders is gone.
const LEFT: [(&str, [&'static [u32]; 3]); 16] = [
    ("", [&[1, 2], &[1], &[2]]),
    ("a", [&[2], &[1], &[2]]),
    ("b", [&[1], &[1], &[2]]),
    ("ab", [&[], &[1], &[2]]),
    ("c", [&[1, 2], &[], &[2]]),
    ("ac", [&[2], &[], &[2]]),
    ("bc", [&[1], &[], &[2]]),
    ("abc", [&[], &[], &[2]]),
    ("d", [&[1, 2], &[1], &[]]),
    ("ad", [&[2], &[1], &[]]),
    ("bd", [&[1], &[1], &[]]),
    ("abd", [&[], &[1], &[]]),
    ("cd", [&[1, 2], &[], &[]]),
    ("acd", [&[2], &[], &[]]),
    ("bcd", [&[1], &[], &[]]),
    ("abcd", [&[], &[], &[]]),
];

// The holders behind a drop of the queue 1 or 2 and one acknowledgement by the other queue, whichever comes first.
const DROPPED: [(u32, char, [&'static [u32]; 3]); 4] = [
    (1, 'b', [&[], &[], &[2]]),
    (1, 'd', [&[2], &[], &[]]),
    (2, 'a', [&[], &[1], &[]]),
    (2, 'c', [&[1], &[], &[]]),
];

fn id(number: u32) -> MessageId {
    MessageId { epoch: 2, number }
}

// The state with the three messages.
fn begun(alloc: Global, numbers: [u32; 3]) -> Result<Durable, FoldError> {
    let [first, second, third] = numbers;
    let mut durable = applied(alloc, Durable::fresh(alloc), Entry::Epoch { epoch: 2 })?;
    durable = applied(alloc, durable, address(alloc, 1, "A", USUAL)?)?;
    durable = applied(alloc, durable, queue(alloc, 1, 1, "Q", "")?)?;
    durable = applied(alloc, durable, queue(alloc, 2, 1, "R", "")?)?;
    durable = applied(alloc, durable, add(alloc, 1, &[1, 2], id(first))?)?;
    durable = applied(alloc, durable, add(alloc, 1, &[1], id(second))?)?;
    applied(alloc, durable, add(alloc, 1, &[2], id(third))?)
}

// The acknowledgement of that letter.
fn ack(letter: char, numbers: [u32; 3]) -> Entry {
    let [first, second, third] = numbers;
    let (queue, number) = match letter {
        'a' => (1, first),
        'b' => (2, first),
        'c' => (1, second),
        _ => (2, third),
    };
    Entry::Ack {
        queue,
        message: id(number),
    }
}

// Whether the messages that have holders are held by these, in this order, and no others are.
fn is_left(
    alloc: Global,
    durable: &Durable,
    numbers: [u32; 3],
    holders: [&[u32]; 3],
) -> Result<bool, AllocError> {
    let mut messages = Vec::new(alloc);
    for at in 0..3 {
        if !holders[at].is_empty() {
            messages.push((id(numbers[at]), holders[at]))?;
        }
    }
    holds(alloc, durable, &messages)
}

// Whether both have the same letters.
fn are_same(letters: &str, others: &str) -> bool {
    letters.len() == others.len() && letters.chars().all(|letter| others.contains(letter))
}

// Whether behind the front of the order, of so many letters, that is left which the table has, and none of these
// acknowledgements can come again.
fn leaves(alloc: Global, numbers: [u32; 3], front: &str) -> Result<bool, FoldError> {
    let mut durable = begun(alloc, numbers)?;
    for letter in front.chars() {
        durable = applied(alloc, durable, ack(letter, numbers))?;
    }
    for (letters, holders) in LEFT {
        if are_same(letters, front) && !is_left(alloc, &durable, numbers, holders)? {
            return Ok(false);
        }
    }
    match front.chars().last() {
        Some(last) => Ok(broken(alloc, durable, ack(last, numbers))? == Some(Rule::Name)),
        None => Ok(true),
    }
}

// The first order, and how much of it, behind which something else is left.
fn first_wrong(
    alloc: Global,
    numbers: [u32; 3],
) -> Result<Option<(&'static str, usize)>, FoldError> {
    for order in ORDERS {
        for (count, _) in order.char_indices() {
            if !leaves(alloc, numbers, &order[..count])? {
                return Ok(Some((order, count)));
            }
        }
        if !leaves(alloc, numbers, order)? {
            return Ok(Some((order, 4)));
        }
    }
    Ok(None)
}

// Whether each order leaves that, whatever the order of the ids.
fn leaves_in_every_order(alloc: Global) -> Result<bool, FoldError> {
    for numbers in NUMBERS {
        if first_wrong(alloc, numbers)?.is_some() {
            return Ok(false);
        }
    }
    Ok(true)
}

// Whether a drop before and behind an acknowledgement leaves the same, that of the table.
fn drops_around(alloc: Global, numbers: [u32; 3]) -> Result<bool, FoldError> {
    for (queue, letter, holders) in DROPPED {
        let dropped = applied(alloc, begun(alloc, numbers)?, Entry::DropQueue { queue })?;
        let before = applied(alloc, dropped, ack(letter, numbers))?;
        let acknowledged = applied(alloc, begun(alloc, numbers)?, ack(letter, numbers))?;
        let behind = applied(alloc, acknowledged, Entry::DropQueue { queue })?;
        if !is_left(alloc, &before, numbers, holders)?
            || !is_left(alloc, &behind, numbers, holders)?
        {
            return Ok(false);
        }
    }
    Ok(true)
}

// Whether that is so whatever the order of the ids.
fn drops_in_either_order(alloc: Global) -> Result<bool, FoldError> {
    for numbers in NUMBERS {
        if !drops_around(alloc, numbers)? {
            return Ok(false);
        }
    }
    Ok(true)
}

#[test]
fn acknowledges_in_every_order(rt: HostRuntime) -> Result<(), Fail> {
    assert!(rt; leaves_in_every_order(rt.alloc())?);
    Ok(())
}

#[test]
fn drops_before_and_behind_an_acknowledgement(rt: HostRuntime) -> Result<(), Fail> {
    assert!(rt; drops_in_either_order(rt.alloc())?);
    Ok(())
}
