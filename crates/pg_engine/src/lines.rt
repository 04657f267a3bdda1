// The lines of messages of the live queues, and the rows of the messages that stand in them.
ghost use Rattle.std.specs.Prelude.{◌≡◌, ◌==◌, [], true, false, not, All, AllPairs, Some, IfOk, find, map, length, min, option_map, if◌then◌else◌};
ghost use Rattle.std.specs.List.{list_any};
ghost use Rattle.pg_dispatch.specs.Dispatch.{line_of};
ghost use Rattle.pg_msg.specs.Messages.{HasFields, weight_of};
ghost use Rattle.pg_fold.specs.Rows.{AreAscending, has_holder, has_message, is_held, released, same_id};
ghost use Rattle.pg_recover.specs.Denotation.{queue_of};
ghost use Rattle.pg_engine.specs.Kept.{IsRelief, line_from};

use pg_dispatch::Dispatcher;
use pg_fold::{JournaledRow, JournaledRows, QueueRow};
use pg_msg::{Message, MessageId, weight};
use std::alloc::{AllocError, Global};

// The lines of these queues with what they hold, and no consumer.
pub(crate) fn dispatched(
    alloc: Global,
    queues: &[QueueRow],
    rows: &JournaledRows,
) -> Result<Dispatcher, AllocError>
    requires ascending { AreAscending queues.now }
    requires apart { AllPairs (λ row other. same_id row.message.id other.message.id ≡ false) rows.now }
    ensures { IfOk result
        (λ done. done ≡ record { lines = map line_from (map (queue_of rows.now) queues.now); consumers = [] }) }
{
    let mut dispatcher = Dispatcher::new(alloc);
    for queue in queues {
        dispatcher.add_queue(alloc, queue.id)?;
    }
    let rows = rows.to_vec(alloc)?;
    add_held(dispatcher, queues, &rows)
}

// Puts the messages into the lines of these queues, which are empty.
fn add_held(
    mut dispatcher: Dispatcher,
    queues: &[QueueRow],
    rows: &[&JournaledRow],
) -> Result<Dispatcher, AllocError>
    requires empty { dispatcher ≡ record { lines = map line_from (map (queue_of []) queues.now); consumers = [] } }
    requires apart { AllPairs (λ row other. same_id row.message.id other.message.id ≡ false) (map (λ row. row.now) rows.now) }
    ensures { IfOk result
        (λ done. done ≡ record {
          lines = map line_from (map (queue_of (map (λ row. row.now) rows.now)) queues.now);
          consumers = [];
        }) }
{
    for place in 0..rows.len() {
        let row = rows[place];
        dispatcher.add(row.holders.as_slice(), row.message.id)?;
    }
    Ok(dispatcher)
}

// A copy of the message with that id.
pub(crate) fn held_message(
    alloc: Global,
    rows: &JournaledRows,
    id: MessageId,
) -> Result<Message, AllocError>
    requires { has_message rows.now id ≡ true }
    ensures { IfOk result
        (λ m. Some m ≡ option_map (λ row. row.message) (find (λ row. same_id row.message.id id) rows.now)) }
{
    rows.get(id).unwrap().message.copy(alloc)
}

// The address of the message, and how many bytes fewer it holds once the queue holds the message no more.
pub(crate) fn relief(rows: &JournaledRows, queue: u32, id: MessageId) -> (u32, u64)
    requires held { has_holder rows.now id queue ≡ true }
    requires fields { All (λ row. HasFields row.message) rows.now }
    ensures { IsRelief rows.now queue id result.0 result.1 }
{
    let row = rows.get(id).unwrap();
    (row.address, bytes_without(row, queue))
}

// The bytes of the message where no other queue holds it.
fn bytes_without(row: &JournaledRow, queue: u32) -> u64
    requires { HasFields row.now.message }
    ensures { result ≡ (if is_held (released queue row.now) then 0 else weight_of row.now.message) }
{
    if is_held_beside(row, queue) {
        0
    } else {
        weight(&row.message)
    }
}

// Whether another queue holds the message.
fn is_held_beside(row: &JournaledRow, queue: u32) -> bool
    ensures { result ≡ list_any (λ holder. not (holder == queue)) row.now.holders }
{
    row.holders.as_slice().iter().any(|holder| *holder != queue)
}

// How many messages the live queue holds. What is counted stops at 2^64 - 1, and no queue holds more than all do.
pub(crate) fn count_in(dispatcher: &Dispatcher, rows: &JournaledRows, queue: u32) -> Option<u64>
    ensures { result ≡ option_map (λ line. min (length line.ids) (length rows.now)) (line_of queue dispatcher.now.lines) }
{
    let count = dispatcher.count(queue)?;
    Some(count.min(rows.len() as u64))
}
