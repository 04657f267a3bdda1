// Scripts: each line with its reply.

use pg_bytes::Octets;
use pg_msg::QUEUE_ID_LIMIT;
use pg_plain::{Broker, Plain};
use pg_text::{parse_line, render};
use std::alloc::{AllocError, Global};
use std::test::Fail;

// A line, so many bytes `x` behind it, and its reply.
type Row = (&'static str, usize, &'static str);

// Two messages of one queue, which are received, canceled and acknowledged, and come again when the consumer is closed.
const DELIVERIES: [Row; 18] = [
    ("address A max 1000 page 100 ahead 0 dup 0", 0, "ok\n"),
    ("queue Q on A", 0, "ok\n"),
    ("send A prop k -1 body x", 0, "sent 1-1\n"),
    ("send A hex -", 0, "sent 1-2\n"),
    ("consumer C on Q", 0, "ok\n"),
    ("receive C", 0, "msg 1-1 prop k -1 hex 78\n"),
    ("receive C", 0, "msg 1-2 hex -\n"),
    ("receive C", 0, "empty\n"),
    ("cancel C 1-1", 0, "ok\n"),
    ("receive C", 0, "msg 1-1 prop k -1 hex 78\n"),
    ("ack C 1-2", 0, "ok\n"),
    ("ack C 1-2", 0, "no delivery\n"),
    ("count Q", 0, "count 1\n"),
    ("close C", 0, "ok\n"),
    ("count Q", 0, "count 1\n"),
    ("consumer C on Q", 0, "ok\n"),
    ("receive C", 0, "msg 1-1 prop k -1 hex 78\n"),
    ("receive C", 0, "empty\n"),
];

// Each refusal, and of two that hold the first. `max` is 0: nothing is ever paged here.
const REFUSALS: [Row; 34] = [
    ("drop Q", 0, "no queue\n"),
    ("queue Q on A", 0, "no address\n"),
    ("count Q", 0, "no queue\n"),
    ("consumer C on Q", 0, "no queue\n"),
    ("receive C", 0, "no consumer\n"),
    ("ack C 1-1", 0, "no consumer\n"),
    ("cancel C 1-1", 0, "no consumer\n"),
    ("close C", 0, "no consumer\n"),
    ("send A body ", 102_400, "no address\n"),
    ("address A max 0 page 100 ahead 0 dup 0", 0, "ok\n"),
    ("address A max 1 page 100 ahead 0 dup 0", 0, "no name\n"),
    ("send A body x", 0, "unrouted\n"),
    ("send A body ", 102_385, "no size\n"),
    ("queue Q on A", 0, "ok\n"),
    ("queue Q on B", 0, "no name\n"),
    ("send A body ", 102_385, "no size\n"),
    ("consumer C on Q", 0, "ok\n"),
    ("consumer C on R", 0, "no name\n"),
    ("drop Q", 0, "no consumer-open\n"),
    ("receive C", 0, "empty\n"),
    ("send A body x", 0, "sent 1-1\n"),
    ("ack C 1-1", 0, "no delivery\n"),
    ("cancel C 1-1", 0, "no delivery\n"),
    ("receive C", 0, "msg 1-1 hex 78\n"),
    ("ack C 2-1", 0, "no delivery\n"),
    ("queue R on A where k =", 0, "no filter 3\n"),
    ("send A tx T body x", 0, "no line\n"),
    ("send A id 0a body x", 0, "no line\n"),
    ("ack C 1-1 tx T", 0, "no line\n"),
    ("checkpoint", 0, "no line\n"),
    ("close C", 0, "ok\n"),
    ("ack C 1-1", 0, "no consumer\n"),
    ("drop Q", 0, "ok\n"),
    ("drop Q", 0, "no queue\n"),
];

// Queues of two addresses, and two consumers of one queue.
const SEVERAL: [Row; 28] = [
    ("address A max 1000 page 100 ahead 0 dup 0", 0, "ok\n"),
    ("address B max 1000 page 100 ahead 0 dup 0", 0, "ok\n"),
    ("queue Q on A", 0, "ok\n"),
    ("queue R on A", 0, "ok\n"),
    ("queue S on B", 0, "ok\n"),
    ("send A body a", 0, "sent 1-1\n"),
    ("send B body b", 0, "sent 1-2\n"),
    ("send A body c", 0, "sent 1-3\n"),
    ("consumer C on Q", 0, "ok\n"),
    ("consumer D on Q", 0, "ok\n"),
    ("consumer E on R", 0, "ok\n"),
    ("receive D", 0, "msg 1-1 hex 61\n"),
    ("receive C", 0, "msg 1-3 hex 63\n"),
    ("receive E", 0, "msg 1-1 hex 61\n"),
    ("ack C 1-1", 0, "no delivery\n"),
    ("ack D 1-1", 0, "ok\n"),
    ("count Q", 0, "count 1\n"),
    ("count R", 0, "count 2\n"),
    ("count S", 0, "count 1\n"),
    ("close C", 0, "ok\n"),
    ("receive D", 0, "msg 1-3 hex 63\n"),
    ("receive E", 0, "msg 1-3 hex 63\n"),
    ("drop Q", 0, "no consumer-open\n"),
    ("close D", 0, "ok\n"),
    ("drop Q", 0, "ok\n"),
    ("count R", 0, "count 2\n"),
    ("queue Q on A", 0, "ok\n"),
    ("count Q", 0, "count 0\n"),
];

// Filters that have a reading and some that have none. That is the last refusal.
const FILTERS: [Row; 14] = [
    ("address A max 1000 page 100 ahead 0 dup 0", 0, "ok\n"),
    ("queue Q on A where a IN ('x','y') OR b IS NULL", 0, "ok\n"),
    ("send A prop a 'y' prop b 1 body m", 0, "sent 1-1\n"),
    ("send A prop a 1 prop b TRUE body m", 0, "unrouted\n"),
    ("send A body m", 0, "sent 1-2\n"),
    ("queue P on A where a = 1 = 2", 0, "no filter 6\n"),
    ("queue P on A where a BETWEEN 1 OR 3", 0, "no filter 12\n"),
    ("queue P on A where a = 'x", 0, "no filter 4\n"),
    ("queue P on A where a >", 0, "no filter 3\n"),
    ("queue P on A where ", 0, "no filter 0\n"),
    ("queue Q on A where a >", 0, "no name\n"),
    ("queue P on B where a >", 0, "no address\n"),
    ("queue P on A where a", 4_095, "ok\n"),
    ("count Q", 0, "count 2\n"),
];

// A filter that is unknown isn't true, not under NOT either. Sums stay within 64 bits. The escape makes `_` itself.
const MATCHES: [Row; 14] = [
    ("address A max 1000 page 100 ahead 0 dup 0", 0, "ok\n"),
    ("queue Q on A where NOT color = 'red'", 0, "ok\n"),
    ("send A body x", 0, "unrouted\n"),
    ("address B max 1000 page 100 ahead 0 dup 0", 0, "ok\n"),
    ("queue R on B where a BETWEEN 1 AND 3", 0, "ok\n"),
    ("send B prop a 3 body x", 0, "sent 1-1\n"),
    ("address C max 1000 page 100 ahead 0 dup 0", 0, "ok\n"),
    ("queue S on C where a + 1 > 0", 0, "ok\n"),
    ("send C prop a 9223372036854775807 body x", 0, "unrouted\n"),
    ("address D max 1000 page 100 ahead 0 dup 0", 0, "ok\n"),
    (
        "queue T on D where color LIKE 'r\\_%' ESCAPE '\\'",
        0,
        "ok\n",
    ),
    ("send D prop color 'r_1' body x", 0, "sent 1-2\n"),
    ("send D prop color 'red' body x", 0, "unrouted\n"),
    ("count T", 0, "count 1\n"),
];

// A queue without a filter gets each message of its address. A name that is taken again has the new filter alone.
const FILTERED: [Row; 15] = [
    ("address A max 1000 page 100 ahead 0 dup 0", 0, "ok\n"),
    ("queue Q on A where k = 1", 0, "ok\n"),
    ("queue P on A", 0, "ok\n"),
    ("send A prop k 1 body x", 0, "sent 1-1\n"),
    ("send A prop k 2 body x", 0, "sent 1-2\n"),
    ("send A body x", 0, "sent 1-3\n"),
    ("count P", 0, "count 3\n"),
    ("count Q", 0, "count 1\n"),
    ("drop Q", 0, "ok\n"),
    ("queue Q on A where k = 2", 0, "ok\n"),
    ("send A prop k 1 body x", 0, "sent 1-4\n"),
    ("count Q", 0, "count 0\n"),
    ("send A prop k 2 body x", 0, "sent 1-5\n"),
    ("count Q", 0, "count 1\n"),
    ("count P", 0, "count 5\n"),
];

// What is answered behind an opening to the broker with one queue, whose filter is `k = 1`.
const REOPENED: [Row; 4] = [
    ("queue Q on A", 0, "no name\n"),
    ("send A prop k 2 body x", 0, "unrouted\n"),
    ("send A prop k 1 body x", 0, "sent 2-1\n"),
    ("count Q", 0, "count 1\n"),
];

// Where an epoch has two numbers, a third message has none. One that goes nowhere needs none.
const NUMBERLESS: [Row; 10] = [
    ("address A max 1000 page 100 ahead 0 dup 0", 0, "ok\n"),
    ("address B max 1000 page 100 ahead 0 dup 0", 0, "ok\n"),
    ("queue Q on A", 0, "ok\n"),
    ("send A body ", 102_384, "sent 1-1\n"),
    ("send A body x", 0, "sent 1-2\n"),
    ("send A body x", 0, "no ids\n"),
    ("send B body x", 0, "unrouted\n"),
    ("queue R on B where k = 1", 0, "ok\n"),
    ("send B body x", 0, "unrouted\n"),
    ("send B prop k 1 body x", 0, "no ids\n"),
];

// The line with so many bytes behind it.
fn long_line(alloc: Global, text: &str, more: usize) -> Result<Octets, AllocError> {
    let mut bytes = Vec::from_slice(alloc, text.as_bytes())?;
    for _ in 0..more {
        bytes.push(b'x')?;
    }
    Ok(Octets::from_vec(bytes))
}

// The broker behind the line, and None where the reply is another one.
fn told(
    alloc: Global,
    plain: Plain,
    line: &[u8],
    expected: &str,
) -> Result<Option<Plain>, AllocError> {
    let Some(command) = parse_line(alloc, line)? else {
        return Ok(None);
    };
    if plain.next_queue() >= QUEUE_ID_LIMIT {
        return Ok(None);
    }
    let (plain, reply) = plain.step(alloc, command)?;
    let right = render(alloc, &reply)?.as_slice() == expected.as_bytes();
    Ok(if right { Some(plain) } else { None })
}

// The broker behind the row's line, and None where the reply is another one than the row's.
fn stepped(alloc: Global, plain: Plain, row: Row) -> Result<Option<Plain>, AllocError> {
    let (text, more, expected) = row;
    let line = long_line(alloc, text, more)?;
    told(alloc, plain, line.as_slice(), expected)
}

// The broker with as many addresses as there may be, and None where one isn't made.
fn with_addresses(alloc: Global, mut plain: Plain) -> Result<Option<Plain>, AllocError> {
    for number in 0..1_000u32 {
        let line = format!(in alloc; "address A{number} max 0 page 1 ahead 0 dup 0")?;
        match told(alloc, plain, line.as_bytes(), "ok\n")? {
            Some(next) => plain = next,
            None => return Ok(None),
        }
    }
    Ok(Some(plain))
}

// The broker with as many queues on one address as it may have, each with a filter, and None where one isn't made.
fn with_queues(alloc: Global, mut plain: Plain) -> Result<Option<Plain>, AllocError> {
    for number in 0..1_000u32 {
        let line = format!(in alloc; "queue Q{number} on A7 where k = {number}")?;
        match told(alloc, plain, line.as_bytes(), "ok\n")? {
            Some(next) => plain = next,
            None => return Ok(None),
        }
    }
    Ok(Some(plain))
}

// What is answered where there is no room for one more, and where there is. Of the many filters one matches, or none.
const FULL: [Row; 10] = [
    ("address A7 max 0 page 1 ahead 0 dup 0", 0, "no name\n"),
    ("address B max 0 page 1 ahead 0 dup 0", 0, "no room\n"),
    ("queue R on A7", 0, "no room\n"),
    ("queue Q0 on A7", 0, "no name\n"),
    ("queue R on A7 where k =", 0, "no room\n"),
    ("queue R on A8", 0, "ok\n"),
    ("send A7 prop k 7 body x", 0, "sent 1-1\n"),
    ("count Q7", 0, "count 1\n"),
    ("count Q8", 0, "count 0\n"),
    ("send A7 prop k 1000 body x", 0, "unrouted\n"),
];

// Whether these are the answers.
fn is_full(alloc: Global) -> Result<bool, AllocError> {
    let Some(plain) = with_addresses(alloc, Plain::new(alloc))? else {
        return Ok(false);
    };
    let Some(mut plain) = with_queues(alloc, plain)? else {
        return Ok(false);
    };
    for row in FULL {
        match stepped(alloc, plain, row)? {
            Some(next) => plain = next,
            None => return Ok(false),
        }
    }
    Ok(true)
}

// The place of the first row whose reply is another one.
fn first_wrong(alloc: Global, ids: u32, rows: &[Row]) -> Result<Option<usize>, AllocError> {
    let mut plain = Plain::with_ids(alloc, ids);
    for (place, row) in rows.iter().enumerate() {
        match stepped(alloc, plain, *row)? {
            Some(next) => plain = next,
            None => return Ok(Some(place)),
        }
    }
    Ok(None)
}

// The broker behind the first so many rows, each of which is right.
fn after(alloc: Global, rows: &[Row], count: usize) -> Result<Option<Plain>, AllocError> {
    let mut plain = Plain::new(alloc);
    for row in rows.iter().take(count) {
        match stepped(alloc, plain, *row)? {
            Some(next) => plain = next,
            None => return Ok(None),
        }
    }
    Ok(Some(plain))
}

// Counts of rows of the script of several queues, and whether their durable parts are equal.
const EQUALS: [(usize, usize, bool); 7] = [
    (0, 0, true),
    (0, 1, false),
    (4, 5, false),
    (7, 8, false),
    // Consumers and what is in flight don't matter, an acknowledgement does.
    (8, 15, true),
    (15, 16, false),
    (26, 27, false),
];

// The place of the first of these that isn't so.
fn first_unequal(alloc: Global) -> Result<Option<usize>, AllocError> {
    for (place, (one, other, equal)) in EQUALS.into_iter().enumerate() {
        let one = after(alloc, SEVERAL.as_slice(), one)?;
        let other = after(alloc, SEVERAL.as_slice(), other)?;
        let (Some(one), Some(other)) = (one, other) else {
            return Ok(Some(place));
        };
        if one.same(&other) != equal {
            return Ok(Some(place));
        }
    }
    Ok(None)
}

// Lines that make a queue, and whether the durable parts behind them are equal: filters are, where their texts are.
const MADE: [(&str, &str, bool); 4] = [
    ("queue Q on A", "queue Q on A", true),
    ("queue Q on A where k = 1", "queue Q on A where k = 1", true),
    ("queue Q on A", "queue Q on A where k = 1", false),
    ("queue Q on A where k = 1", "queue Q on A where k=1", false),
];

// The broker with an address and the queue of that line.
fn with_one(alloc: Global, line: &'static str) -> Result<Option<Plain>, AllocError> {
    let rows = [FILTERED[0], (line, 0, "ok\n")];
    after(alloc, rows.as_slice(), 2)
}

// The place of the first pair of these that isn't so.
fn first_other_filter(alloc: Global) -> Result<Option<usize>, AllocError> {
    for (place, (one, other, equal)) in MADE.into_iter().enumerate() {
        let (Some(one), Some(other)) = (with_one(alloc, one)?, with_one(alloc, other)?) else {
            return Ok(Some(place));
        };
        if one.same(&other) != equal {
            return Ok(Some(place));
        }
    }
    Ok(None)
}

// Whether the filter of a queue is there behind an opening.
fn keeps_filters(alloc: Global) -> Result<bool, AllocError> {
    let Some(plain) = after(alloc, FILTERED.as_slice(), 2)? else {
        return Ok(false);
    };
    if plain.epoch() == u32::MAX {
        return Ok(false);
    }
    let mut plain = plain.reopened();
    for row in REOPENED {
        match stepped(alloc, plain, row)? {
            Some(next) => plain = next,
            None => return Ok(false),
        }
    }
    Ok(true)
}

#[test]
fn delivers_and_takes_back(rt: HostRuntime) -> Result<(), Fail> {
    assert!(rt; first_wrong(rt.alloc(), 1_000, DELIVERIES.as_slice())?.is_none());
    Ok(())
}

#[test]
fn refuses_in_order(rt: HostRuntime) -> Result<(), Fail> {
    assert!(rt; first_wrong(rt.alloc(), 1_000, REFUSALS.as_slice())?.is_none());
    Ok(())
}

#[test]
fn reads_filters(rt: HostRuntime) -> Result<(), Fail> {
    assert!(rt; first_wrong(rt.alloc(), 1_000, FILTERS.as_slice())?.is_none());
    Ok(())
}

#[test]
fn matches_by_filters(rt: HostRuntime) -> Result<(), Fail> {
    assert!(rt; first_wrong(rt.alloc(), 1_000, MATCHES.as_slice())?.is_none());
    Ok(())
}

#[test]
fn routes_by_filters(rt: HostRuntime) -> Result<(), Fail> {
    assert!(rt; first_wrong(rt.alloc(), 1_000, FILTERED.as_slice())?.is_none());
    Ok(())
}

#[test]
fn keeps_filters_at_opening(rt: HostRuntime) -> Result<(), Fail> {
    assert!(rt; keeps_filters(rt.alloc())?);
    Ok(())
}

#[test]
fn tells_filters_apart(rt: HostRuntime) -> Result<(), Fail> {
    assert!(rt; first_other_filter(rt.alloc())?.is_none());
    Ok(())
}

#[test]
fn keeps_queues_apart(rt: HostRuntime) -> Result<(), Fail> {
    assert!(rt; first_wrong(rt.alloc(), 1_000, SEVERAL.as_slice())?.is_none());
    Ok(())
}

#[test]
fn has_no_number_left(rt: HostRuntime) -> Result<(), Fail> {
    assert!(rt; first_wrong(rt.alloc(), 2, NUMBERLESS.as_slice())?.is_none());
    Ok(())
}

#[test]
fn tells_equal_parts(rt: HostRuntime) -> Result<(), Fail> {
    assert!(rt; first_unequal(rt.alloc())?.is_none());
    Ok(())
}

#[test]
fn has_no_room_left(rt: HostRuntime) -> Result<(), Fail> {
    assert!(rt; is_full(rt.alloc())?);
    Ok(())
}
