// The rows behind entries.
use crate::entries::{
    FIRST, SECOND, Settings, USUAL, add, address, applied, broken, made, numbered, queue,
};
use pg_disk::Rule;
use pg_fold::{Durable, FoldError, JournaledRow};
use pg_msg::MessageId;
use pg_records::Entry;
use std::alloc::{AllocError, Global};
use std::test::Fail;

// The addresses as the rows have them: id, name, first page, and the settings.
fn has_address(durable: &Durable, at: usize, id: u32, name: &str, settings: Settings) -> bool {
    durable.addresses.as_slice().get(at).is_some_and(|row| {
        row.id == id
            && row.name.as_str() == name
            && row.first == 1
            && (row.max, row.page, row.ahead, row.dup) == settings
    })
}

fn has_queue(durable: &Durable, at: usize, id: u32, address: u32, name: &str) -> bool {
    durable.queues.as_slice().get(at).is_some_and(|row| {
        row.id == id
            && row.address == address
            && row.name.as_str() == name
            && row.filter.as_str().is_empty()
    })
}

fn is_row(row: &JournaledRow, id: MessageId, holders: &[u32]) -> bool {
    row.address == 1 && row.message.id == id && row.holders.as_slice() == holders
}

/// Whether the messages are these in this order, each of the first address and held by its queues.
pub fn holds(
    alloc: Global,
    durable: &Durable,
    messages: &[(MessageId, &[u32])],
) -> Result<bool, AllocError> {
    let rows = durable.journaled.to_vec(alloc)?;
    if rows.len() != messages.len() {
        return Ok(false);
    }
    for at in 0..rows.len() {
        let (id, holders) = messages[at];
        if !is_row(rows[at], id, holders) {
            return Ok(false);
        }
    }
    Ok(true)
}

// How many rows there are of each kind, the epoch, and the next queue.
fn counts(durable: &Durable) -> (usize, usize, usize, u32, u32) {
    (
        durable.addresses.as_slice().len(),
        durable.queues.as_slice().len(),
        durable.journaled.len(),
        durable.epoch,
        durable.next,
    )
}

fn is_made(alloc: Global, durable: &Durable) -> Result<bool, AllocError> {
    Ok(
        counts(durable) == (2, 3, 2, 2, 5)
            && has_address(durable, 0, 1, "A", USUAL)
            && has_address(durable, 1, 2, "B", USUAL)
            && has_queue(durable, 0, 1, 1, "Q")
            && has_queue(durable, 1, 2, 1, "R")
            && has_queue(durable, 2, 3, 2, "S")
            && holds(alloc, durable, &[(FIRST, &[1, 2]), (SECOND, &[2])])?,
    )
}

// Whether the fresh state has nothing, and the entries give their rows.
fn makes(alloc: Global) -> Result<bool, FoldError> {
    Ok(counts(&Durable::fresh(alloc)) == (0, 0, 0, 0, 1) && is_made(alloc, &made(alloc)?)?)
}

// Whether a drop takes the queue out, and from the holders of its messages, and the message that it held alone.
fn drops(alloc: Global) -> Result<bool, FoldError> {
    let durable = applied(alloc, made(alloc)?, Entry::DropQueue { queue: 2 })?;
    Ok(
        counts(&durable) == (2, 2, 1, 2, 5)
            && has_queue(&durable, 0, 1, 1, "Q")
            && has_queue(&durable, 1, 3, 2, "S")
            && holds(alloc, &durable, &[(FIRST, &[1])])?,
    )
}

// The state behind the acknowledgements of the first message by the first of its queues, and by both.
fn acknowledged(alloc: Global, count: u32) -> Result<Durable, FoldError> {
    let message = FIRST;
    let mut durable = made(alloc)?;
    for queue in 1..count.saturating_add(1) {
        durable = applied(alloc, durable, Entry::Ack { queue, message })?;
    }
    Ok(durable)
}

// Whether a message stays until its last acknowledgement.
fn acknowledges_once(alloc: Global) -> Result<bool, FoldError> {
    let once = acknowledged(alloc, 1)?;
    Ok(holds(alloc, &once, &[(FIRST, &[2]), (SECOND, &[2])])?)
}

// Whether a message goes with its last acknowledgement.
fn acknowledges_twice(alloc: Global) -> Result<bool, FoldError> {
    let twice = acknowledged(alloc, 2)?;
    Ok(counts(&twice) == (2, 3, 1, 2, 5) && holds(alloc, &twice, &[(SECOND, &[2])])?)
}

// Whether it may come again behind the others.
fn adds_again(alloc: Global) -> Result<bool, FoldError> {
    let again = applied(alloc, acknowledged(alloc, 2)?, add(alloc, 1, &[1], FIRST)?)?;
    Ok(holds(alloc, &again, &[(SECOND, &[2]), (FIRST, &[1])])?)
}

// The state in a later epoch, with the last queue that can be.
fn last(alloc: Global) -> Result<Durable, FoldError> {
    let later = applied(alloc, made(alloc)?, Entry::Epoch { epoch: 7 })?;
    let skipped = applied(alloc, later, numbered(14, 4_294_967_294))?;
    applied(alloc, skipped, queue(alloc, 4_294_967_294, 2, "U", "")?)
}

// Whether a later epoch and a later queue are kept.
fn counts_up(alloc: Global) -> Result<bool, FoldError> {
    let last = last(alloc)?;
    Ok(has_queue(&last, 3, 4_294_967_294, 2, "U") && counts(&last) == (2, 4, 2, 7, 4_294_967_295))
}

// Whether a queue keeps the text of its filter, as it is spelled.
fn keeps_a_filter(alloc: Global) -> Result<bool, FoldError> {
    let filtered = applied(alloc, made(alloc)?, queue(alloc, 5, 2, "U", " n  <5")?)?;
    let row = filtered.queues.as_slice().get(3);
    Ok(
        row.is_some_and(|row| row.filter.as_str() == " n  <5")
            && counts(&filtered) == (2, 4, 2, 2, 6),
    )
}

// Whether the last queue has no next one.
fn ends(alloc: Global) -> Result<bool, FoldError> {
    let rule = broken(
        alloc,
        last(alloc)?,
        queue(alloc, 4_294_967_295, 2, "V", "")?,
    )?;
    Ok(rule == Some(Rule::Repeat))
}

#[test]
fn makes_the_rows(rt: HostRuntime) -> Result<(), Fail> {
    assert!(rt; makes(rt.alloc())?);
    Ok(())
}

#[test]
fn keeps_the_text_of_a_filter(rt: HostRuntime) -> Result<(), Fail> {
    assert!(rt; keeps_a_filter(rt.alloc())?);
    Ok(())
}

#[test]
fn drops_a_queue(rt: HostRuntime) -> Result<(), Fail> {
    assert!(rt; drops(rt.alloc())?);
    Ok(())
}

#[test]
fn acknowledges_a_message(rt: HostRuntime) -> Result<(), Fail> {
    let alloc = rt.alloc();
    assert!(rt; acknowledges_once(alloc)? && acknowledges_twice(alloc)? && adds_again(alloc)?);
    Ok(())
}

#[test]
fn counts_up_to_the_last_queue(rt: HostRuntime) -> Result<(), Fail> {
    let alloc = rt.alloc();
    assert!(rt; counts_up(alloc)? && ends(alloc)?);
    Ok(())
}

// A state with so many addresses.
fn with_addresses(alloc: Global, count: u32) -> Result<Durable, FoldError> {
    let mut durable = Durable::fresh(alloc);
    for number in 0..count {
        let name = format!(in alloc; "A{number}")?;
        let entry = address(alloc, number.saturating_add(1), name.as_str(), USUAL)?;
        durable = applied(alloc, durable, entry)?;
    }
    Ok(durable)
}

// The state with so many queues on its first address.
fn with_queues(alloc: Global, durable: Durable, count: u32) -> Result<Durable, FoldError> {
    let mut durable = durable;
    for number in 0..count {
        let name = format!(in alloc; "Q{number}")?;
        let entry = queue(alloc, number.saturating_add(1), 1, name.as_str(), "")?;
        durable = applied(alloc, durable, entry)?;
    }
    Ok(durable)
}

// The rule that the 1,001st address breaks.
fn address_too_many(alloc: Global) -> Result<Option<Rule>, FoldError> {
    let full = with_addresses(alloc, 1_000)?;
    Ok(broken(alloc, full, address(alloc, 1_001, "A1000", USUAL)?)?)
}

// The rule that the 1,001st queue of an address breaks, where another address has one.
fn queue_too_many(alloc: Global) -> Result<Option<Rule>, FoldError> {
    let full = with_queues(alloc, with_addresses(alloc, 2)?, 1_000)?;
    let elsewhere = applied(alloc, full, queue(alloc, 1_001, 2, "Q1000", "")?)?;
    Ok(broken(alloc, elsewhere, queue(alloc, 1_002, 1, "Q1001", "")?)?)
}

#[test]
fn has_room_for_so_many_addresses(rt: HostRuntime) -> Result<(), Fail> {
    assert!(rt; address_too_many(rt.alloc())? == Some(Rule::Repeat));
    Ok(())
}

#[test]
fn has_room_for_so_many_queues(rt: HostRuntime) -> Result<(), Fail> {
    assert!(rt; queue_too_many(rt.alloc())? == Some(Rule::Name));
    Ok(())
}
