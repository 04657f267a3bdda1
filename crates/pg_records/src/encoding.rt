// Entries as bytes.
ghost use Rattle.std.specs.Prelude.{◌≡◌, ◌<◌, ◌≤◌, ◌^◌, ◌∷◌, ◌++◌, length, IfOk, OnOk};
ghost use Rattle.std.specs.Int.{to_be_bytes, w32, w64};
ghost use Rattle.pg_msg.specs.Lists.{queues_bytes, pages_bytes};
ghost use Rattle.pg_msg.specs.Messages.{HasFields as MessageHasFields, id_bytes, message_bytes};
ghost use Rattle.pg_records.specs.Entries.{short_bytes, filter_bytes, entry_bytes, batch_bytes, HasFields, HaveFields};
ghost use Rattle.pg_records.specs.Heads.{head_bytes, behind_head};

use crate::entry::Entry;
use pg_bytes::{Octets, Text, put_bytes, put_u8, put_u16, put_u32, put_u64};
use pg_msg::fields::{put_message, put_message_id, put_name, put_pages, put_queue_ids};
use pg_msg::{Message, MessageId, QueueIds};
use std::alloc::{AllocError, Global};

/// The payload of a batch with these entries. `docs/FORMATS.md` gives the bytes of each. No entries are no bytes, which
/// is the payload of no batch.
pub fn encode_batch(alloc: Global, entries: &[Entry]) -> Result<Octets, AllocError>
    requires { HaveFields entries.now }
    ensures { IfOk result (λ bytes. bytes ≡ batch_bytes entries.now) }
{
    let mut out = Octets::new(alloc);
    for entry in entries {
        put_entry(&mut out, entry)?;
    }
    Ok(out)
}

// Appends the code of the entry and its fields.
fn put_entry(out: &mut Octets, entry: &Entry) -> Result<(), AllocError>
    requires { HasFields entry.now }
    ensures { OnOk result (out.new ≡ out.old ++ entry_bytes entry.now) }
{
    put_head(out, entry)?;
    put_behind_head(out, entry)
}

// Appends the code and the first field.
fn put_head(out: &mut Octets, entry: &Entry) -> Result<(), AllocError>
    ensures { OnOk result (out.new ≡ out.old ++ head_bytes entry.now) }
{
    match entry {
        Entry::Epoch { epoch } => put_number(out, 1, *epoch),
        Entry::Address { address, .. } => put_number(out, 2, *address),
        Entry::Queue { queue, .. } => put_number(out, 3, *queue),
        Entry::DropQueue { queue } => put_number(out, 4, *queue),
        Entry::Add { address, .. } => put_number(out, 5, *address),
        Entry::Ack { queue, .. } => put_number(out, 6, *queue),
        Entry::AckAt { queue, .. } => put_number(out, 7, *queue),
        Entry::PageDone { queue, .. } => put_number(out, 8, *queue),
        Entry::PageTx { tx, .. } => put_id(out, 9, *tx),
        Entry::Dup { address, .. } => put_number(out, 10, *address),
        Entry::LargeAdd { message, .. } => put_id(out, 11, *message),
        Entry::LargeAck { queue, .. } => put_number(out, 12, *queue),
        Entry::FirstPage { address, .. } => put_number(out, 13, *address),
        Entry::NextQueue { queue } => put_number(out, 14, *queue),
        Entry::AckRun { queue, .. } => put_number(out, 15, *queue),
    }
}

// Appends the other fields.
fn put_behind_head(out: &mut Octets, entry: &Entry) -> Result<(), AllocError>
    requires { HasFields entry.now }
    ensures { OnOk result (out.new ≡ out.old ++ behind_head entry.now) }
{
    match entry {
        Entry::Epoch { .. } | Entry::DropQueue { .. } | Entry::NextQueue { .. } => Ok(()),
        Entry::Address {
            name,
            max,
            page,
            ahead,
            dup,
            ..
        } => put_address(out, name, *max, *page, *ahead, *dup),
        Entry::Queue {
            address,
            name,
            filter,
            ..
        } => put_queue(out, *address, name, filter),
        Entry::Add {
            queues,
            message,
            ..
        } => put_add(out, queues, message),
        Entry::Ack { message, .. } => put_message_id(out, *message),
        Entry::AckAt { page, index, .. } => put_place(out, *page, *index),
        Entry::PageDone { page, .. } => put_u64(out, *page),
        Entry::PageTx { last, .. } => put_pages(out, last),
        Entry::Dup { id, .. } => put_dup(out, id),
        Entry::LargeAdd { length, queues, .. } => put_large_add(out, *length, queues),
        Entry::LargeAck { message, .. } => put_message_id(out, *message),
        Entry::FirstPage { page, .. } => put_u64(out, *page),
        Entry::AckRun { page, from, to, .. } => put_run(out, *page, *from, *to),
    }
}

// Appends the code and the number.
fn put_number(out: &mut Octets, code: u8, number: u32) -> Result<(), AllocError>
    ensures { OnOk result (out.new ≡ out.old ++ code ∷ to_be_bytes w32 number) }
{
    put_u8(out, code)?;
    put_u32(out, number)
}

// Appends the code and the id.
fn put_id(out: &mut Octets, code: u8, id: MessageId) -> Result<(), AllocError>
    ensures { OnOk result (out.new ≡ out.old ++ code ∷ id_bytes id) }
{
    put_u8(out, code)?;
    put_message_id(out, id)
}

// Appends the name and the settings of an address.
fn put_address(
    out: &mut Octets,
    name: &Text,
    max: u64,
    page: u64,
    ahead: u64,
    dup: u32,
) -> Result<(), AllocError>
    requires { length name.now < 2 ^ 8 }
    ensures { OnOk result (out.new ≡ out.old ++ (short_bytes name.now ++ (to_be_bytes w64 max
        ++ (to_be_bytes w64 page ++ (to_be_bytes w64 ahead ++ to_be_bytes w32 dup))))) }
{
    put_name(out, name)?;
    put_settings(out, max, page, ahead, dup)
}

// Appends the settings of an address.
fn put_settings(
    out: &mut Octets,
    max: u64,
    page: u64,
    ahead: u64,
    dup: u32,
) -> Result<(), AllocError>
    ensures { OnOk result (out.new ≡ out.old ++ (to_be_bytes w64 max ++ (to_be_bytes w64 page
        ++ (to_be_bytes w64 ahead ++ to_be_bytes w32 dup)))) }
{
    put_u64(out, max)?;
    put_u64(out, page)?;
    put_u64(out, ahead)?;
    put_u32(out, dup)
}

// Appends the id of its address, the name and the filter of a queue.
fn put_queue(out: &mut Octets, address: u32, name: &Text, filter: &Text) -> Result<(), AllocError>
    requires name_fits { length name.now < 2 ^ 8 }
    requires filter_fits { length filter.now < 2 ^ 16 }
    ensures { OnOk result (out.new ≡ out.old ++
        (to_be_bytes w32 address ++ (short_bytes name.now ++ filter_bytes filter.now))) }
{
    put_u32(out, address)?;
    put_name(out, name)?;
    put_filter(out, filter)
}

// Appends the length of the filter in 2 bytes, and the filter.
fn put_filter(out: &mut Octets, filter: &Text) -> Result<(), AllocError>
    requires { length filter.now < 2 ^ 16 }
    ensures { OnOk result (out.new ≡ out.old ++ filter_bytes filter.now) }
{
    let text = filter.as_str().as_bytes();
    put_u16(out, text.len() as u16)?;
    put_bytes(out, text)
}

// Appends the queues that a message goes to, and the message.
fn put_add(out: &mut Octets, queues: &QueueIds, message: &Message) -> Result<(), AllocError>
    requires queues_fit { length queues.now < 2 ^ 16 }
    requires message_fits { MessageHasFields message.now }
    ensures { OnOk result (out.new ≡ out.old ++ (queues_bytes queues.now ++ message_bytes message.now)) }
{
    put_queue_ids(out, queues)?;
    put_message(out, message)
}

// Appends the page and the place in it.
fn put_place(out: &mut Octets, page: u64, index: u32) -> Result<(), AllocError>
    ensures { OnOk result (out.new ≡ out.old ++ (to_be_bytes w64 page ++ to_be_bytes w32 index)) }
{
    put_u64(out, page)?;
    put_u32(out, index)
}

// Appends the page, the first place and the last.
fn put_run(out: &mut Octets, page: u64, from: u32, to: u32) -> Result<(), AllocError>
    ensures { OnOk result (out.new ≡ out.old ++
        (to_be_bytes w64 page ++ (to_be_bytes w32 from ++ to_be_bytes w32 to))) }
{
    put_u64(out, page)?;
    put_u32(out, from)?;
    put_u32(out, to)
}

// Appends the length of the duplicate id in one byte, and the id.
fn put_dup(out: &mut Octets, id: &Octets) -> Result<(), AllocError>
    requires { length id.now < 2 ^ 8 }
    ensures { OnOk result (out.new ≡ out.old ++ short_bytes id.now) }
{
    put_u8(out, id.len() as u8)?;
    put_bytes(out, id.as_slice())
}

// Appends the length of a large message, and the queues that it goes to.
fn put_large_add(out: &mut Octets, size: u64, queues: &QueueIds) -> Result<(), AllocError>
    requires { length queues.now < 2 ^ 16 }
    ensures { OnOk result (out.new ≡ out.old ++ (to_be_bytes w64 size ++ queues_bytes queues.now)) }
{
    put_u64(out, size)?;
    put_queue_ids(out, queues)
}
