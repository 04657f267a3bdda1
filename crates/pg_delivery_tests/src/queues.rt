use pg_msg::MessageId;
use pg_queue::{Queue, Queues, Taken};
use std::alloc::{AllocError, Global};
use std::test::Fail;

// The message of that number, in the first epoch.
pub fn message(number: u32) -> MessageId {
    MessageId { epoch: 1, number }
}

// Adds the message where it has no entry. Whether it had none.
pub fn adds(queue: &mut Queue, id: MessageId) -> Result<bool, AllocError> {
    if queue.has(id) {
        return Ok(false);
    }
    queue.add(id)?;
    Ok(queue.has(id) && !queue.is_taken(id))
}

// Makes the entry available again where it is taken. Whether it was, and isn't any more.
pub fn puts_back(queue: &mut Queue, id: MessageId) -> Result<bool, AllocError> {
    if !queue.is_taken(id) {
        return Ok(false);
    }
    queue.put_back(id)?;
    Ok(queue.has(id) && !queue.is_taken(id))
}

// Takes the entry out where it is taken. Whether it was, and is there no more.
pub fn removes(queue: &mut Queue, id: MessageId) -> bool {
    if !queue.is_taken(id) {
        return false;
    }
    queue.remove(id);
    !queue.has(id)
}

// Whether the queue gives this message next, which is taken from then on.
pub fn gives(queue: &mut Queue, id: MessageId) -> bool {
    queue.receive() == Some(Taken::Journaled(id)) && queue.is_taken(id)
}

// Whether the queue gives these messages, and then none.
fn gives_all(queue: &mut Queue, numbers: &[u32]) -> bool {
    for number in numbers {
        if !gives(queue, message(*number)) {
            return false;
        }
    }
    queue.receive().is_none()
}

// A queue with the messages 1 to `count`.
fn filled(alloc: Global, count: u32) -> Result<Queue, AllocError> {
    let mut queue = Queue::new(alloc, 7);
    for number in 1..count.saturating_add(1) {
        adds(&mut queue, message(number))?;
    }
    Ok(queue)
}

// A queue with the messages 1 to `count`, each of them taken.
fn taken(alloc: Global, count: u32) -> Result<Queue, AllocError> {
    let mut queue = filled(alloc, count)?;
    for _ in 0..count {
        queue.receive();
    }
    Ok(queue)
}

fn is_empty_at_first(alloc: Global) -> bool {
    let mut queue = Queue::new(alloc, 7);
    queue.id() == 7 && queue.count() == 0 && queue.receive().is_none() && !queue.has(message(1))
}

// Whether entries come in their order, and count until they are taken out.
fn gives_in_order(alloc: Global) -> Result<bool, AllocError> {
    let mut queue = filled(alloc, 3)?;
    Ok(queue.count() == 3 && gives_all(&mut queue, &[1, 2, 3]) && queue.count() == 3)
}

// Every order in which three entries in the middle can be put back.
const ORDERS: [[u32; 3]; 6] = [
    [2, 3, 4],
    [2, 4, 3],
    [3, 2, 4],
    [3, 4, 2],
    [4, 2, 3],
    [4, 3, 2],
];

// Puts these back, out of five that are taken. Whether they come again in the order of the entries.
fn comes_again(alloc: Global, order: &[u32; 3]) -> Result<bool, AllocError> {
    let mut queue = taken(alloc, 5)?;
    for number in order.as_slice() {
        if !puts_back(&mut queue, message(*number))? {
            return Ok(false);
        }
    }
    Ok(queue.count() == 5 && gives_all(&mut queue, &[2, 3, 4]))
}

// The first of the orders after which they don't.
fn first_wrong_order(alloc: Global) -> Result<Option<usize>, AllocError> {
    for (place, order) in ORDERS.as_slice().iter().enumerate() {
        if !comes_again(alloc, order)? {
            return Ok(Some(place));
        }
    }
    Ok(None)
}

// Whether one in the middle goes alone, and what is put back then stands before what is new.
fn removes_one(alloc: Global) -> Result<bool, AllocError> {
    let mut queue = taken(alloc, 3)?;
    Ok(
        removes(&mut queue, message(2))
            && queue.count() == 2
            && adds(&mut queue, message(4))?
            && puts_back(&mut queue, message(3))?
            && puts_back(&mut queue, message(1))?
            && queue.count() == 3
            && gives_all(&mut queue, &[1, 3, 4]),
    )
}

// Whether a message that was taken out may come again, behind the others.
fn adds_again(alloc: Global) -> Result<bool, AllocError> {
    let mut queue = filled(alloc, 2)?;
    Ok(
        gives(&mut queue, message(1))
            && removes(&mut queue, message(1))
            && adds(&mut queue, message(1))?
            && gives_all(&mut queue, &[2, 1]),
    )
}

// The ends of epochs and numbers, in no order of theirs.
const ENDS: [(u32, u32); 5] = [
    (4_294_967_295, 4_294_967_295),
    (1, 4_294_967_295),
    (4_294_967_295, 1),
    (1, 1),
    (2, 1),
];

// Whether the messages at the ends of ids come in the order in which they were added.
fn keeps_the_ends(alloc: Global) -> Result<bool, AllocError> {
    let mut queue = Queue::new(alloc, 4_294_967_294);
    for (epoch, number) in ENDS {
        adds(&mut queue, MessageId { epoch, number })?;
    }
    for (epoch, number) in ENDS {
        if !gives(&mut queue, MessageId { epoch, number }) {
            return Ok(false);
        }
    }
    Ok(queue.receive().is_none() && queue.count() == 5)
}

// Two queues without entries, with the ids 3 and 5.
fn pair(alloc: Global) -> Result<Queues, AllocError> {
    let mut queues = Queues::new(alloc);
    queues.add_queue(alloc, 3)?;
    queues.add_queue(alloc, 5)?;
    Ok(queues)
}

// Adds the message to that queue where it has no entry in it. Whether it had none, and has one now, which isn't taken.
fn joins(queues: &mut Queues, id: u32, message: MessageId) -> Result<bool, AllocError> {
    if queues.has(id, message) {
        return Ok(false);
    }
    queues.add(id, message)?;
    Ok(queues.has(id, message) && !queues.is_taken(id, message))
}

// Whether the queue with that id gives this message next, which is taken from it then.
fn gives_from(queues: &mut Queues, id: u32, message: MessageId) -> bool {
    queues.receive(id) == Some(Taken::Journaled(message)) && queues.is_taken(id, message)
}

// Makes the entry available again where it is taken. Whether it was, and isn't any more.
fn returns_to(queues: &mut Queues, id: u32, message: MessageId) -> Result<bool, AllocError> {
    if !queues.is_taken(id, message) {
        return Ok(false);
    }
    queues.put_back(id, message)?;
    Ok(queues.has(id, message) && !queues.is_taken(id, message))
}

// Takes the entry out of the queue with that id where it is taken. Whether it was, and is there no more.
fn leaves(queues: &mut Queues, id: u32, message: MessageId) -> bool {
    if !queues.is_taken(id, message) {
        return false;
    }
    queues.remove(id, message);
    !queues.has(id, message)
}

// Whether one message in two queues is given, put back and taken out in each for itself.
fn keeps_queues_apart(alloc: Global) -> Result<bool, AllocError> {
    let mut queues = pair(alloc)?;
    Ok(
        joins(&mut queues, 3, message(1))?
            && joins(&mut queues, 5, message(1))?
            && gives_from(&mut queues, 5, message(1))
            && !queues.is_taken(3, message(1))
            && returns_to(&mut queues, 5, message(1))?
            && gives_from(&mut queues, 5, message(1))
            && leaves(&mut queues, 5, message(1))
            && queues.count(5) == Some(0)
            && queues.count(3) == Some(1),
    )
}

// Whether a queue that isn't there takes nothing and gives nothing, and one that is dropped is there no more.
fn drops_one(alloc: Global) -> Result<bool, AllocError> {
    let mut queues = pair(alloc)?;
    let nowhere = joins(&mut queues, 4, message(1))?;
    let there = joins(&mut queues, 3, message(1))?;
    queues.drop_queue(3);
    Ok(
        there
            && !nowhere
            && queues.count(4).is_none()
            && queues.receive(4).is_none()
            && queues.count(3).is_none()
            && queues.receive(3).is_none()
            && queues.count(5) == Some(0),
    )
}

#[test]
fn is_empty_until_something_is_added(rt: HostRuntime) -> Result<(), Fail> {
    assert!(rt; is_empty_at_first(rt.alloc()));
    Ok(())
}

#[test]
fn gives_entries_in_their_order(rt: HostRuntime) -> Result<(), Fail> {
    assert!(rt; gives_in_order(rt.alloc())?);
    Ok(())
}

#[test]
fn puts_back_at_their_places(rt: HostRuntime) -> Result<(), Fail> {
    assert!(rt; first_wrong_order(rt.alloc())?.is_none());
    Ok(())
}

#[test]
fn takes_one_out(rt: HostRuntime) -> Result<(), Fail> {
    assert!(rt; removes_one(rt.alloc())? && adds_again(rt.alloc())?);
    Ok(())
}

#[test]
fn keeps_the_order_at_the_ends_of_ids(rt: HostRuntime) -> Result<(), Fail> {
    assert!(rt; keeps_the_ends(rt.alloc())?);
    Ok(())
}

#[test]
fn keeps_the_queues_apart(rt: HostRuntime) -> Result<(), Fail> {
    assert!(rt; keeps_queues_apart(rt.alloc())?);
    Ok(())
}

#[test]
fn drops_one_queue_alone(rt: HostRuntime) -> Result<(), Fail> {
    assert!(rt; drops_one(rt.alloc())?);
    Ok(())
}
