// What is found in the list of consumers, and what changes in it.
ghost use Rattle.std.specs.Prelude.{◌≡◌, ◌≤◌, ◌↔◌, ◌++◌, ◌∷◌, ◌==◌, length, take, drop, find, not, Some, IsTrue, OnOk};
ghost use Rattle.std.specs.List.{Contains, list_any, position};
ghost use Rattle.std.specs.Option.{option_map};
ghost use Rattle.pg_model.specs.Broker.{Consumer, consumer_named, same_id};
ghost use Rattle.pg_model.specs.Changes.{is_before, with_flights, with_id, without_consumer, without_id};
ghost use Rattle.pg_model.specs.Steps.{is_in_flight};
ghost use Rattle.pg_plain.specs.Kept.{with_flight};

use crate::rows::ConsumerRow;
use pg_bytes::Text;
use pg_msg::{Message, MessageId};
use std::alloc::AllocError;

// The consumer of that name.
fn named<'a>(consumers: &'a [ConsumerRow], name: &Text) -> Option<&'a ConsumerRow>
    ensures { option_map (λ c. c.now) result ≡ consumer_named consumers.now name.now }
{
    consumers.iter().find(|c| *name == c.name)
}

// The id of the queue of the consumer of that name.
pub(crate) fn queue_of(consumers: &[ConsumerRow], name: &Text) -> Option<u32>
    ensures { result ≡ option_map (λ c. c.queue) (consumer_named consumers.now name.now) }
{
    match named(consumers, name) {
        Some(consumer) => Some(consumer.queue),
        None => None,
    }
}

// Whether the consumer of that name has the message in flight.
pub(crate) fn has_flight(consumers: &[ConsumerRow], name: &Text, id: MessageId) -> bool
    ensures { IsTrue result
        ↔ ((c : Consumer) × (consumer_named consumers.now name.now ≡ Some c) × Contains c.in_flight id) }
{
    match named(consumers, name) {
        Some(consumer) => has_id(consumer.in_flight.as_slice(), id),
        None => false,
    }
}

// Whether a consumer is open on the queue with that id.
pub(crate) fn has_on(consumers: &[ConsumerRow], queue: u32) -> bool
    ensures { result ≡ list_any (λ c. c.queue == queue) consumers.now }
{
    consumers.iter().any(|c| c.queue == queue)
}

// Whether a consumer of the queue has the message in flight.
pub(crate) fn is_taken(consumers: &[ConsumerRow], queue: u32, id: MessageId) -> bool
    ensures { result ≡ is_in_flight consumers.now queue id }
{
    consumers
        .iter()
        .any(|c| c.queue == queue && has_id(c.in_flight.as_slice(), id))
}

// Whether the id is one of these.
fn has_id(ids: &[MessageId], id: MessageId) -> bool
    ensures value { result ≡ list_any (λ other. same_id other id) ids.now }
    ensures there { IsTrue result ↔ Contains ids.now id }
{
    ids.iter().any(|other| *other == id)
}

// The first of the messages that no consumer of the queue has in flight.
pub(crate) fn available<'a>(
    messages: &'a [Message],
    consumers: &[ConsumerRow],
    queue: u32,
) -> Option<&'a Message>
    ensures { option_map (λ m. m.now) result
        ≡ find (λ m. not (is_in_flight consumers.now queue m.id)) messages.now }
{
    messages.iter().find(|m| !is_taken(consumers, queue, m.id))
}

// The message is in flight for the consumer of that name.
pub(crate) fn take_up(
    consumers: &mut Vec<ConsumerRow>,
    name: &Text,
    id: MessageId,
) -> Result<(), AllocError>
    ensures { OnOk result (consumers.new.items ≡ with_flights name.now (with_id id) consumers.old.items) }
{
    take_up_in(consumers, name, id)
}

fn take_up_in(consumers: &mut [ConsumerRow], name: &Text, id: MessageId) -> Result<(), AllocError>
    ensures { OnOk result (consumers.new ≡ with_flights name.now (with_id id) consumers.old) }
{
    for consumer in consumers.iter_mut() {
        take_up_at(consumer, name, id)?;
    }
    Ok(())
}

fn take_up_at(consumer: &mut ConsumerRow, name: &Text, id: MessageId) -> Result<(), AllocError>
    ensures { OnOk result (consumer.new ≡ with_flight name.now (with_id id) consumer.old) }
{
    if *name == consumer.name {
        put_in(&mut consumer.in_flight, id)?;
    }
    Ok(())
}

// Puts the id in at its place.
fn put_in(ids: &mut Vec<MessageId>, id: MessageId) -> Result<(), AllocError>
    ensures { OnOk result (ids.new.items ≡ with_id id ids.old.items) }
{
    let place = place_of(ids.as_slice(), id);
    ids.insert(place, id)?;
    Ok(())
}

// How many of the ids, from the first on, stand before it.
fn place_of(ids: &[MessageId], id: MessageId) -> usize
    ensures place { with_id id ids.now ≡ take result ids.now ++ (id ∷ drop result ids.now) }
    ensures within { result ≤ length ids.now }
{
    match first_behind(ids, id) {
        Some(place) => place,
        None => ids.len(),
    }
}

// The place of the first of the ids that doesn't stand before it.
fn first_behind(ids: &[MessageId], id: MessageId) -> Option<usize>
    ensures { result ≡ position (λ other. not (is_before other id)) ids.now }
{
    ids.iter().position(|other| !stands_before(*other, id))
}

fn stands_before(a: MessageId, b: MessageId) -> bool
    ensures { result ≡ is_before a b }
{
    a.epoch < b.epoch || a.epoch == b.epoch && a.number < b.number
}

// The message is in flight for the consumer of that name no more.
pub(crate) fn let_go(consumers: &mut Vec<ConsumerRow>, name: &Text, id: MessageId)
    ensures { consumers.new.items ≡ with_flights name.now (without_id id) consumers.old.items }
{
    let_go_in(consumers, name, id);
}

fn let_go_in(consumers: &mut [ConsumerRow], name: &Text, id: MessageId)
    ensures { consumers.new ≡ with_flights name.now (without_id id) consumers.old }
{
    for consumer in consumers.iter_mut() {
        let_go_at(consumer, name, id);
    }
}

fn let_go_at(consumer: &mut ConsumerRow, name: &Text, id: MessageId)
    ensures { consumer.new ≡ with_flight name.now (without_id id) consumer.old }
{
    if *name == consumer.name {
        take_out(&mut consumer.in_flight, id);
    }
}

fn take_out(ids: &mut Vec<MessageId>, id: MessageId)
    ensures { ids.new.items ≡ without_id id ids.old.items }
{
    ids.retain(|other| *other != id);
}

// Takes the consumer of that name out.
pub(crate) fn close(consumers: &mut Vec<ConsumerRow>, name: &Text)
    ensures { consumers.new.items ≡ without_consumer name.now consumers.old.items }
{
    consumers.retain(|c| *name != c.name);
}
