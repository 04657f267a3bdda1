use pg_acks::Position;
use pg_bytes::Text;
use pg_flight::{Delivery, Flights};
use pg_msg::MessageId;
use pg_page::Place;
use std::alloc::{AllocError, Global};
use std::test::Fail;

// A delivery of a message that the journal holds.
pub fn journaled(queue: u32, epoch: u32, number: u32) -> Delivery {
    Delivery {
        queue,
        id: MessageId { epoch, number },
        place: None,
    }
}

fn delivered(
    flights: &mut Flights,
    alloc: Global,
    consumer: &str,
    delivery: Delivery,
) -> Result<(), AllocError> {
    let name = Text::from_str(alloc, consumer)?;
    flights.deliver(alloc, &name, delivery)
}

fn found(
    flights: &Flights,
    alloc: Global,
    consumer: &str,
    id: MessageId,
) -> Result<Option<Delivery>, AllocError> {
    let name = Text::from_str(alloc, consumer)?;
    Ok(flights.get(&name, id))
}

fn taken(
    flights: &mut Flights,
    alloc: Global,
    consumer: &str,
    id: MessageId,
) -> Result<Option<Delivery>, AllocError> {
    let name = Text::from_str(alloc, consumer)?;
    Ok(flights.take(&name, id))
}

// Whether closing the consumer gives these deliveries, and nothing at the second time.
fn closes(
    flights: &mut Flights,
    alloc: Global,
    consumer: &str,
    expected: &[Delivery],
) -> Result<bool, AllocError> {
    let name = Text::from_str(alloc, consumer)?;
    let first = flights.close(alloc, &name)?;
    let second = flights.close(alloc, &name)?;
    Ok(first.as_slice() == expected && second.is_empty())
}

// Two consumers are given messages by turns, of two queues that both hold the message 1-1.
fn interleaved(alloc: Global) -> Result<Flights, AllocError> {
    let mut flights = Flights::new(alloc);
    delivered(&mut flights, alloc, "C", journaled(1, 1, 3))?;
    delivered(&mut flights, alloc, "CC", journaled(2, 1, 1))?;
    delivered(&mut flights, alloc, "C", journaled(1, 1, 1))?;
    delivered(&mut flights, alloc, "CC", journaled(2, 1, 2))?;
    Ok(flights)
}

fn has_nothing_at_first(alloc: Global) -> Result<bool, AllocError> {
    let mut flights = Flights::new(alloc);
    let id = journaled(1, 1, 1).id;
    Ok(
        found(&flights, alloc, "C", id)?.is_none()
            && taken(&mut flights, alloc, "C", id)?.is_none()
            && closes(&mut flights, alloc, "C", &[])?,
    )
}

// A consumer, a message, and the queue from which it has the message, or 0 where it hasn't.
const HELD: [(&str, u32, u32); 7] = [
    ("C", 1, 1),
    ("C", 2, 0),
    ("C", 3, 1),
    ("CC", 1, 2),
    ("CC", 2, 2),
    ("CC", 3, 0),
    ("", 1, 0),
];

// The first of these that isn't found so.
fn first_wrong(alloc: Global) -> Result<Option<usize>, AllocError> {
    let flights = interleaved(alloc)?;
    for (place, (consumer, number, queue)) in HELD.into_iter().enumerate() {
        let delivery = journaled(queue, 1, number);
        let expected = if queue == 0 { None } else { Some(delivery) };
        if found(&flights, alloc, consumer, delivery.id)? != expected {
            return Ok(Some(place));
        }
    }
    Ok(None)
}

// Whether a delivery is taken once, and those of the other consumer stay.
fn takes_once(alloc: Global) -> Result<bool, AllocError> {
    let mut flights = interleaved(alloc)?;
    let first = journaled(1, 1, 1);
    Ok(
        taken(&mut flights, alloc, "C", first.id)? == Some(first)
            && taken(&mut flights, alloc, "C", first.id)?.is_none()
            && closes(&mut flights, alloc, "C", &[journaled(1, 1, 3)])?
            && closes(
                &mut flights,
                alloc,
                "CC",
                &[journaled(2, 1, 1), journaled(2, 1, 2)],
            )?,
    )
}

// Whether the same message takes the place of the one before, and the last one taken leaves nothing.
fn gives_way(alloc: Global) -> Result<bool, AllocError> {
    let mut flights = Flights::new(alloc);
    let id = journaled(1, 1, 1).id;
    let paged = Delivery {
        queue: 9,
        id,
        place: Some(Place {
            position: Position { page: 4, index: 2 },
            offset: 41,
        }),
    };
    delivered(&mut flights, alloc, "", journaled(1, 1, 1))?;
    delivered(&mut flights, alloc, "", paged)?;
    Ok(
        found(&flights, alloc, "", id)? == Some(paged)
            && taken(&mut flights, alloc, "", id)? == Some(paged)
            && closes(&mut flights, alloc, "", &[])?,
    )
}

// Messages in no order.
const GIVEN: [(u32, u32); 5] = [
    (2, 1),
    (4_294_967_295, 4_294_967_295),
    (1, 4_294_967_295),
    (1, 1),
    (4_294_967_295, 1),
];

// Whether a consumer that is closed gives them back by the epoch and then by the number.
fn closes_in_order(alloc: Global) -> Result<bool, AllocError> {
    let back = [
        journaled(5, 1, 1),
        journaled(5, 1, 4_294_967_295),
        journaled(5, 2, 1),
        journaled(5, 4_294_967_295, 1),
        journaled(5, 4_294_967_295, 4_294_967_295),
    ];
    let mut flights = Flights::new(alloc);
    for (epoch, number) in GIVEN {
        delivered(&mut flights, alloc, "C", journaled(5, epoch, number))?;
    }
    closes(&mut flights, alloc, "C", back.as_slice())
}

#[test]
fn nothing_is_in_flight_at_first(rt: HostRuntime) -> Result<(), Fail> {
    assert!(rt; has_nothing_at_first(rt.alloc())?);
    Ok(())
}

#[test]
fn finds_what_each_consumer_has(rt: HostRuntime) -> Result<(), Fail> {
    assert!(rt; first_wrong(rt.alloc())?.is_none());
    Ok(())
}

#[test]
fn takes_a_delivery_once(rt: HostRuntime) -> Result<(), Fail> {
    assert!(rt; takes_once(rt.alloc())? && gives_way(rt.alloc())?);
    Ok(())
}

#[test]
fn closes_in_the_order_of_ids(rt: HostRuntime) -> Result<(), Fail> {
    assert!(rt; closes_in_order(rt.alloc())?);
    Ok(())
}
