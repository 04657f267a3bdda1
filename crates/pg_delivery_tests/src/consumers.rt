use crate::flights::journaled;
use pg_bytes::Text;
use pg_flight::{Consumers, Delivery};
use std::alloc::{AllocError, Global};
use std::test::Fail;

// Opens the consumer where none of its name is open. Whether none was.
fn opens(
    consumers: &mut Consumers,
    alloc: Global,
    consumer: &str,
    queue: u32,
) -> Result<bool, AllocError> {
    let name = Text::from_str(alloc, consumer)?;
    if consumers.queue_of(&name).is_some() {
        return Ok(false);
    }
    consumers.open(alloc, name, queue)?;
    Ok(true)
}

// Delivers a message of its queue to the consumer where it is open. Whether it is.
fn gives(
    consumers: &mut Consumers,
    alloc: Global,
    consumer: &str,
    number: u32,
) -> Result<bool, AllocError> {
    let name = Text::from_str(alloc, consumer)?;
    let Some(queue) = consumers.queue_of(&name) else {
        return Ok(false);
    };
    consumers.deliver(alloc, &name, journaled(queue, 1, number))?;
    Ok(true)
}

fn queue_of(
    consumers: &Consumers,
    alloc: Global,
    consumer: &str,
) -> Result<Option<u32>, AllocError> {
    let name = Text::from_str(alloc, consumer)?;
    Ok(consumers.queue_of(&name))
}

// Whether the delivery is found and taken, and then is there no more.
fn takes(
    consumers: &mut Consumers,
    alloc: Global,
    consumer: &str,
    delivery: Delivery,
) -> Result<bool, AllocError> {
    let name = Text::from_str(alloc, consumer)?;
    Ok(
        consumers.get(&name, delivery.id) == Some(delivery)
            && consumers.take(&name, delivery.id) == Some(delivery)
            && consumers.take(&name, delivery.id).is_none(),
    )
}

// Whether closing the consumer gives these deliveries, and then it is open no more.
fn closes(
    consumers: &mut Consumers,
    alloc: Global,
    consumer: &str,
    expected: &[Delivery],
) -> Result<bool, AllocError> {
    let name = Text::from_str(alloc, consumer)?;
    let first = consumers.close(alloc, &name)?;
    let second = consumers.close(alloc, &name)?;
    Ok(first.as_slice() == expected && second.is_empty() && consumers.queue_of(&name).is_none())
}

// Two consumers of the first queue and one of the second, to which messages are given by turns.
fn interleaved(alloc: Global) -> Result<Consumers, AllocError> {
    let mut consumers = Consumers::new(alloc);
    opens(&mut consumers, alloc, "C", 1)?;
    opens(&mut consumers, alloc, "CC", 2)?;
    opens(&mut consumers, alloc, "", 1)?;
    gives(&mut consumers, alloc, "C", 3)?;
    gives(&mut consumers, alloc, "CC", 1)?;
    gives(&mut consumers, alloc, "C", 1)?;
    gives(&mut consumers, alloc, "", 2)?;
    Ok(consumers)
}

// A consumer, a message, and the queue from which it has the message, or 0 where it hasn't.
const HELD: [(&str, u32, u32); 7] = [
    ("C", 1, 1),
    ("C", 2, 0),
    ("C", 3, 1),
    ("CC", 1, 2),
    ("CC", 3, 0),
    ("", 2, 1),
    ("D", 1, 0),
];

// The first of these that isn't so.
fn first_wrong(alloc: Global) -> Result<Option<usize>, AllocError> {
    let mut consumers = interleaved(alloc)?;
    for (place, (consumer, number, queue)) in HELD.into_iter().enumerate() {
        if takes(&mut consumers, alloc, consumer, journaled(queue, 1, number))? != (queue != 0) {
            return Ok(Some(place));
        }
    }
    Ok(None)
}

// Whether one that is closed leaves the others as they are, and one opened in its place has nothing of it.
fn closes_alone(alloc: Global) -> Result<bool, AllocError> {
    let mut consumers = interleaved(alloc)?;
    let own = [journaled(1, 1, 1), journaled(1, 1, 3)];
    Ok(
        closes(&mut consumers, alloc, "C", own.as_slice())?
            && queue_of(&consumers, alloc, "CC")? == Some(2)
            && queue_of(&consumers, alloc, "")? == Some(1)
            && opens(&mut consumers, alloc, "C", 2)?
            && !opens(&mut consumers, alloc, "C", 3)?
            && queue_of(&consumers, alloc, "C")? == Some(2)
            && closes(&mut consumers, alloc, "C", &[])?
            && closes(&mut consumers, alloc, "CC", &[journaled(2, 1, 1)])?,
    )
}

// Whether a queue is consumed from the first consumer's opening to the last one's end.
fn consumes(alloc: Global) -> Result<bool, AllocError> {
    let mut consumers = interleaved(alloc)?;
    Ok(
        closes(&mut consumers, alloc, "CC", &[journaled(2, 1, 1)])?
            && !consumers.is_consumed(2)
            && closes(&mut consumers, alloc, "", &[journaled(1, 1, 2)])?
            && consumers.is_consumed(1)
            && closes(
                &mut consumers,
                alloc,
                "C",
                &[journaled(1, 1, 1), journaled(1, 1, 3)],
            )?
            && !consumers.is_consumed(1),
    )
}

#[test]
fn takes_what_each_consumer_has(rt: HostRuntime) -> Result<(), Fail> {
    assert!(rt; first_wrong(rt.alloc())?.is_none());
    Ok(())
}

#[test]
fn closes_one_consumer_alone(rt: HostRuntime) -> Result<(), Fail> {
    assert!(rt; closes_alone(rt.alloc())? && consumes(rt.alloc())?);
    Ok(())
}
