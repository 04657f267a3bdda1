// What is found in the list of queues, and what changes in it.
ghost use Rattle.std.specs.Prelude.{◌≡◌, ◌∷◌, [], length, IfOk, OnOk};
ghost use Rattle.std.specs.List.{position};
ghost use Rattle.std.specs.Option.{option_and_then, option_map};
ghost use Rattle.std.specs.Str.{bytes_eq};
ghost use Rattle.pg_model.specs.Broker.{address_named, queue_named, queue_with};
ghost use Rattle.pg_model.specs.Changes.{acknowledged, given, given_to, relieved, without_message, without_queue};
ghost use Rattle.pg_model.specs.Routing.{GoesTo, queues_of, with_taker};
ghost use Rattle.pg_plain.specs.Kept.{available_in};

use crate::consumers::available;
use crate::rows::{AddressRow, ConsumerRow, QueueRow};
use pg_bytes::Text;
use pg_msg::{Message, MessageId, Property};
use std::alloc::{AllocError, Global};

// The id of the address of that name.
pub(crate) fn address_id(addresses: &[AddressRow], name: &Text) -> Option<usize>
    ensures { result ≡ address_named addresses.now name.now }
{
    match place_of(addresses, name) {
        Some(place) => Some(place + 1),
        None => None,
    }
}

// The place of the address of that name.
fn place_of(addresses: &[AddressRow], name: &Text) -> Option<usize>
    ensures { result ≡ position (λ a. bytes_eq name.now a.name) addresses.now }
{
    addresses.iter().position(|a| *name == a.name)
}

// The queue of that name.
fn named<'a>(queues: &'a [QueueRow], name: &Text) -> Option<&'a QueueRow>
    ensures { option_map (λ q. q.now) result ≡ queue_named queues.now name.now }
{
    queues.iter().find(|q| *name == q.name)
}

// The id of the queue of that name.
pub(crate) fn id_named(queues: &[QueueRow], name: &Text) -> Option<u32>
    ensures { result ≡ option_map (λ q. q.id) (queue_named queues.now name.now) }
{
    match named(queues, name) {
        Some(queue) => Some(queue.id),
        None => None,
    }
}

// How many messages the queue of that name holds.
pub(crate) fn count_named(queues: &[QueueRow], name: &Text) -> Option<usize>
    ensures { result ≡ option_map (λ q. length q.messages) (queue_named queues.now name.now) }
{
    match named(queues, name) {
        Some(queue) => Some(queue.messages.len()),
        None => None,
    }
}

// The first message of the queue with that id that no consumer of it has in flight.
pub(crate) fn available_at<'a>(
    queues: &'a [QueueRow],
    consumers: &[ConsumerRow],
    id: u32,
) -> Option<&'a Message>
    ensures { option_map (λ m. m.now) result
        ≡ option_and_then (available_in consumers.now) (queue_with queues.now id) }
{
    match with_id(queues, id) {
        Some(queue) => available(queue.messages.as_slice(), consumers, queue.id),
        None => None,
    }
}

// The queue with that id.
fn with_id(queues: &[QueueRow], id: u32) -> Option<&QueueRow>
    ensures { option_map (λ q. q.now) result ≡ queue_with queues.now id }
{
    queues.iter().find(|q| q.id == id)
}

// How many queues the address has.
pub(crate) fn count_at(queues: &[QueueRow], address: usize) -> usize
    ensures { result ≡ length (queues_of address queues.now) }
{
    queues.iter().filter(|q| q.address == address).count()
}

// The ids of the queues of the address that a message with these properties goes to, in their order.
pub(crate) fn takers(
    alloc: Global,
    queues: &[QueueRow],
    address: usize,
    properties: &[Property],
) -> Result<Vec<u32>, AllocError>
    ensures { IfOk result (λ ids. GoesTo properties.now (queues_of address queues.now) ids.items) }
{
    let mut ids = Vec::new(alloc);
    for queue in queues {
        if is_taker(queue, address, properties) {
            ids.push(queue.id)?;
        }
    }
    Ok(ids)
}

// Whether the queue is one of the address that a message with these properties goes to.
fn is_taker(queue: &QueueRow, address: usize, properties: &[Property]) -> bool
    ensures { GoesTo properties.now (queues_of address (queue.now ∷ [])) (with_taker result queue.now.id []) }
{
    queue.address == address && queue.filter.takes(properties)
}

// Takes the queue with that id out.
pub(crate) fn take_out(queues: &mut Vec<QueueRow>, id: u32)
    ensures { queues.new.items ≡ without_queue id queues.old.items }
{
    queues.retain(|q| q.id != id);
}

// Each of the queues with these numbers gets the message.
pub(crate) fn give(
    alloc: Global,
    queues: &mut Vec<QueueRow>,
    numbers: &[u32],
    message: &Message,
) -> Result<(), AllocError>
    ensures { OnOk result (queues.new.items ≡ given numbers.now message.now queues.old.items) }
{
    give_in(alloc, queues, numbers, message)
}

fn give_in(
    alloc: Global,
    queues: &mut [QueueRow],
    numbers: &[u32],
    message: &Message,
) -> Result<(), AllocError>
    ensures { OnOk result (queues.new ≡ given numbers.now message.now queues.old) }
{
    for queue in queues.iter_mut() {
        give_to(alloc, queue, numbers, message)?;
    }
    Ok(())
}

fn give_to(
    alloc: Global,
    queue: &mut QueueRow,
    numbers: &[u32],
    message: &Message,
) -> Result<(), AllocError>
    ensures { OnOk result (queue.new ≡ given_to numbers.now message.now queue.old) }
{
    if numbers.contains(&queue.id) {
        queue.messages.push(message.copy(alloc)?)?;
    }
    Ok(())
}

// The queue with that number holds the message no more.
pub(crate) fn relieve(queues: &mut Vec<QueueRow>, number: u32, id: MessageId)
    ensures { queues.new.items ≡ acknowledged number id queues.old.items }
{
    relieve_in(queues, number, id);
}

fn relieve_in(queues: &mut [QueueRow], number: u32, id: MessageId)
    ensures { queues.new ≡ acknowledged number id queues.old }
{
    for queue in queues.iter_mut() {
        relieve_one(queue, number, id);
    }
}

fn relieve_one(queue: &mut QueueRow, number: u32, id: MessageId)
    ensures { queue.new ≡ relieved number id queue.old }
{
    if queue.id == number {
        take_message(&mut queue.messages, id);
    }
}

fn take_message(messages: &mut Vec<Message>, id: MessageId)
    ensures { messages.new.items ≡ without_message id messages.old.items }
{
    messages.retain(|m| m.id != id);
}
