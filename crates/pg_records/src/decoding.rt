// The entries that bytes spell.
ghost use Rattle.std.specs.Prelude.{◌≡◌, ℕ, List, length, IfOk, MatchOption, IsSomeAnd};
ghost use Rattle.pg_msg.specs.Reading.{Gives};
ghost use Rattle.pg_records.specs.declared.entry.Entry.{Entry};
ghost use Rattle.pg_records.specs.Entries.{SpellsBatch};
ghost use Rattle.pg_records.specs.Reading.{filter_at, duplicate_id_at, epoch_at, address_at, queue_at, drop_queue_at, add_at, ack_at, place_at, page_done_at, page_tx_at, dup_at, large_add_at, large_ack_at, first_page_at, next_queue_at, ack_run_at, fields_at, entry_at, entries_at, batch_at};

use crate::entry::Entry;
use pg_bytes::{Octets, Text};
use pg_msg::LONGEST_DUPLICATE_ID;
use pg_msg::fields::{
    Unread, read_bytes, read_message, read_message_id, read_name, read_pages, read_queue_ids,
    read_u8, read_u16, read_u32, read_u64, text_of,
};
use std::alloc::{AllocError, Global};

/// The entries that the bytes spell, all of the bytes. None exactly where they spell no list of at least one entry.
pub fn decode_batch(alloc: Global, bytes: &[u8]) -> Result<Option<Vec<Entry>>, AllocError>
    // What is read is spelled by the bytes.
    ensures found { IfOk result (λ found. MatchOption found
        ((entries : List Entry) → ¬ SpellsBatch bytes.now entries)
        (λ entries. SpellsBatch bytes.now entries.items)) }
    // What is spelled by the bytes is read.
    ensures only { (entries : List Entry) → SpellsBatch bytes.now entries
        → IfOk result (λ found. IsSomeAnd found (λ read. read.items ≡ entries)) }
{
    match read_batch(alloc, bytes) {
        Ok(entries) => Ok(Some(entries)),
        Err(Unread::Malformed) => Ok(None),
        Err(Unread::Memory) => Err(AllocError),
    }
}

/// A list of entries has one spelling, and bytes spell at most one list. This law has no code.
pub fn one_reading()
    ensures spelling { (entries : List Entry) (a b : List ℕ) → SpellsBatch a entries → SpellsBatch b entries → a ≡ b }
    ensures reading { (bytes : List ℕ) (a b : List Entry) → SpellsBatch bytes a → SpellsBatch bytes b → a ≡ b }
{}

// At least one entry, and nothing behind the last.
#[tactic(auto, unfolding(crate::specs::Reading::batch_at))]
fn read_batch(alloc: Global, bytes: &[u8]) -> Result<Vec<Entry>, Unread>
    ensures { Gives (λ read. read.items) result (batch_at bytes.now) }
{
    let entries = read_entries(alloc, bytes)?;
    if entries.is_empty() {
        return Err(Unread::Malformed);
    }
    Ok(entries)
}

// Entries until no bytes are left.
fn read_entries(alloc: Global, bytes: &[u8]) -> Result<Vec<Entry>, Unread>
    ensures { Gives (λ read. read.items) result (entries_at (length bytes.now) bytes.now) }
{
    let mut entries = Vec::new(alloc);
    let mut rest = bytes;
    while !rest.is_empty() {
        let (entry, behind) = read_entry(alloc, rest)?;
        if entries.push(entry).is_err() {
            return Err(Unread::Memory);
        }
        rest = behind;
    }
    Ok(entries)
}

// An entry: its code, and the fields of such an entry.
#[tactic(auto, unfolding(crate::specs::Reading::entry_at))]
fn read_entry(alloc: Global, bytes: &[u8]) -> Result<(Entry, &[u8]), Unread>
    ensures { Gives (λ read. (read.0, read.1.now)) result (entry_at bytes.now) }
{
    let (code, rest) = read_u8(bytes)?;
    read_fields(alloc, code, rest)
}

// The fields behind the code of an entry.
#[tactic(auto, unfolding(crate::specs::Reading::fields_at))]
fn read_fields(alloc: Global, code: u8, bytes: &[u8]) -> Result<(Entry, &[u8]), Unread>
    ensures { Gives (λ read. (read.0, read.1.now)) result (fields_at code bytes.now) }
{
    match code {
        1 => read_epoch(bytes),
        2 => read_address(alloc, bytes),
        3 => read_queue(alloc, bytes),
        4 => read_drop_queue(bytes),
        5 => read_add(alloc, bytes),
        6 => read_ack(bytes),
        7 => read_ack_at(bytes),
        8 => read_page_done(bytes),
        9 => read_page_tx(alloc, bytes),
        10 => read_dup(alloc, bytes),
        11 => read_large_add(alloc, bytes),
        12 => read_large_ack(bytes),
        13 => read_first_page(bytes),
        14 => read_next_queue(bytes),
        15 => read_ack_run(bytes),
        _ => Err(Unread::Malformed),
    }
}

#[tactic(auto, unfolding(crate::specs::Reading::epoch_at))]
fn read_epoch(bytes: &[u8]) -> Result<(Entry, &[u8]), Unread>
    ensures { Gives (λ read. (read.0, read.1.now)) result (epoch_at bytes.now) }
{
    let (epoch, rest) = read_u32(bytes)?;
    Ok((Entry::Epoch { epoch }, rest))
}

#[tactic(auto, unfolding(crate::specs::Reading::address_at))]
fn read_address(alloc: Global, bytes: &[u8]) -> Result<(Entry, &[u8]), Unread>
    ensures { Gives (λ read. (read.0, read.1.now)) result (address_at bytes.now) }
{
    let (address, rest) = read_u32(bytes)?;
    let (name, rest) = read_name(alloc, rest)?;
    let (max, rest) = read_u64(rest)?;
    let (page, rest) = read_u64(rest)?;
    let (ahead, rest) = read_u64(rest)?;
    let (dup, rest) = read_u32(rest)?;
    let entry = Entry::Address {
        address,
        name,
        max,
        page,
        ahead,
        dup,
    };
    Ok((entry, rest))
}

#[tactic(auto, unfolding(crate::specs::Reading::queue_at))]
fn read_queue(alloc: Global, bytes: &[u8]) -> Result<(Entry, &[u8]), Unread>
    ensures { Gives (λ read. (read.0, read.1.now)) result (queue_at bytes.now) }
{
    let (queue, rest) = read_u32(bytes)?;
    let (address, rest) = read_u32(rest)?;
    let (name, rest) = read_name(alloc, rest)?;
    let (filter, rest) = read_filter(alloc, rest)?;
    let entry = Entry::Queue {
        queue,
        address,
        name,
        filter,
    };
    Ok((entry, rest))
}

// A filter behind its length in 2 bytes. Whether it can be read as a filter isn't asked here.
#[tactic(auto, unfolding(crate::specs::Reading::filter_at))]
fn read_filter(alloc: Global, bytes: &[u8]) -> Result<(Text, &[u8]), Unread>
    ensures { Gives (λ read. (read.0, read.1.now)) result (filter_at bytes.now) }
{
    let (count, rest) = read_u16(bytes)?;
    let (filter, rest) = read_bytes(rest, usize::from(count))?;
    let filter = text_of(alloc, filter)?;
    Ok((filter, rest))
}

#[tactic(auto, unfolding(crate::specs::Reading::drop_queue_at))]
fn read_drop_queue(bytes: &[u8]) -> Result<(Entry, &[u8]), Unread>
    ensures { Gives (λ read. (read.0, read.1.now)) result (drop_queue_at bytes.now) }
{
    let (queue, rest) = read_u32(bytes)?;
    Ok((Entry::DropQueue { queue }, rest))
}

#[tactic(auto, unfolding(crate::specs::Reading::add_at))]
fn read_add(alloc: Global, bytes: &[u8]) -> Result<(Entry, &[u8]), Unread>
    ensures { Gives (λ read. (read.0, read.1.now)) result (add_at bytes.now) }
{
    let (address, rest) = read_u32(bytes)?;
    let (queues, rest) = read_queue_ids(alloc, rest)?;
    let (message, rest) = read_message(alloc, rest)?;
    let entry = Entry::Add {
        address,
        queues,
        message,
    };
    Ok((entry, rest))
}

#[tactic(auto, unfolding(crate::specs::Reading::ack_at))]
fn read_ack(bytes: &[u8]) -> Result<(Entry, &[u8]), Unread>
    ensures { Gives (λ read. (read.0, read.1.now)) result (ack_at bytes.now) }
{
    let (queue, rest) = read_u32(bytes)?;
    let (message, rest) = read_message_id(rest)?;
    Ok((Entry::Ack { queue, message }, rest))
}

#[tactic(auto, unfolding(crate::specs::Reading::place_at))]
fn read_ack_at(bytes: &[u8]) -> Result<(Entry, &[u8]), Unread>
    ensures { Gives (λ read. (read.0, read.1.now)) result (place_at bytes.now) }
{
    let (queue, rest) = read_u32(bytes)?;
    let (page, rest) = read_u64(rest)?;
    let (index, rest) = read_u32(rest)?;
    Ok((Entry::AckAt { queue, page, index }, rest))
}

#[tactic(auto, unfolding(crate::specs::Reading::page_done_at))]
fn read_page_done(bytes: &[u8]) -> Result<(Entry, &[u8]), Unread>
    ensures { Gives (λ read. (read.0, read.1.now)) result (page_done_at bytes.now) }
{
    let (queue, rest) = read_u32(bytes)?;
    let (page, rest) = read_u64(rest)?;
    Ok((Entry::PageDone { queue, page }, rest))
}

#[tactic(auto, unfolding(crate::specs::Reading::page_tx_at))]
fn read_page_tx(alloc: Global, bytes: &[u8]) -> Result<(Entry, &[u8]), Unread>
    ensures { Gives (λ read. (read.0, read.1.now)) result (page_tx_at bytes.now) }
{
    let (tx, rest) = read_message_id(bytes)?;
    let (last, rest) = read_pages(alloc, rest)?;
    Ok((Entry::PageTx { tx, last }, rest))
}

#[tactic(auto, unfolding(crate::specs::Reading::dup_at))]
fn read_dup(alloc: Global, bytes: &[u8]) -> Result<(Entry, &[u8]), Unread>
    ensures { Gives (λ read. (read.0, read.1.now)) result (dup_at bytes.now) }
{
    let (address, rest) = read_u32(bytes)?;
    let (id, rest) = read_duplicate_id(alloc, rest)?;
    Ok((Entry::Dup { address, id }, rest))
}

// A duplicate id behind its length in one byte.
#[tactic(auto, unfolding(crate::specs::Reading::duplicate_id_at))]
fn read_duplicate_id(alloc: Global, bytes: &[u8]) -> Result<(Octets, &[u8]), Unread>
    ensures { Gives (λ read. (read.0, read.1.now)) result (duplicate_id_at bytes.now) }
{
    let (count, rest) = read_u8(bytes)?;
    let (id, rest) = read_bytes(rest, usize::from(count))?;
    if count == 0 || LONGEST_DUPLICATE_ID < usize::from(count) {
        return Err(Unread::Malformed);
    }
    Ok((Octets::from_slice(alloc, id)?, rest))
}

#[tactic(auto, unfolding(crate::specs::Reading::large_add_at))]
fn read_large_add(alloc: Global, bytes: &[u8]) -> Result<(Entry, &[u8]), Unread>
    ensures { Gives (λ read. (read.0, read.1.now)) result (large_add_at bytes.now) }
{
    let (message, rest) = read_message_id(bytes)?;
    let (length, rest) = read_u64(rest)?;
    let (queues, rest) = read_queue_ids(alloc, rest)?;
    let entry = Entry::LargeAdd {
        message,
        length,
        queues,
    };
    Ok((entry, rest))
}

#[tactic(auto, unfolding(crate::specs::Reading::large_ack_at))]
fn read_large_ack(bytes: &[u8]) -> Result<(Entry, &[u8]), Unread>
    ensures { Gives (λ read. (read.0, read.1.now)) result (large_ack_at bytes.now) }
{
    let (queue, rest) = read_u32(bytes)?;
    let (message, rest) = read_message_id(rest)?;
    Ok((Entry::LargeAck { queue, message }, rest))
}

#[tactic(auto, unfolding(crate::specs::Reading::first_page_at))]
fn read_first_page(bytes: &[u8]) -> Result<(Entry, &[u8]), Unread>
    ensures { Gives (λ read. (read.0, read.1.now)) result (first_page_at bytes.now) }
{
    let (address, rest) = read_u32(bytes)?;
    let (page, rest) = read_u64(rest)?;
    Ok((Entry::FirstPage { address, page }, rest))
}

#[tactic(auto, unfolding(crate::specs::Reading::next_queue_at))]
fn read_next_queue(bytes: &[u8]) -> Result<(Entry, &[u8]), Unread>
    ensures { Gives (λ read. (read.0, read.1.now)) result (next_queue_at bytes.now) }
{
    let (queue, rest) = read_u32(bytes)?;
    Ok((Entry::NextQueue { queue }, rest))
}

#[tactic(auto, unfolding(crate::specs::Reading::ack_run_at))]
fn read_ack_run(bytes: &[u8]) -> Result<(Entry, &[u8]), Unread>
    ensures { Gives (λ read. (read.0, read.1.now)) result (ack_run_at bytes.now) }
{
    let (queue, rest) = read_u32(bytes)?;
    let (page, rest) = read_u64(rest)?;
    let (from, rest) = read_u32(rest)?;
    let (to, rest) = read_u32(rest)?;
    if from > to {
        return Err(Unread::Malformed);
    }
    let entry = Entry::AckRun {
        queue,
        page,
        from,
        to,
    };
    Ok((entry, rest))
}
