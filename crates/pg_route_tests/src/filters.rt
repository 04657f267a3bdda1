// Queues with filters and without, and which of them a message goes to.
use crate::many::name;
use crate::names::adds_queue;
use pg_bytes::Text;
use pg_msg::{Properties, Property, Value};
use pg_parse::{FilterError, filter_of};
use pg_routes::Routes;
use std::alloc::{AllocError, Global};
use std::test::Fail;

// The value of a property.
#[derive(Drop)]
enum Given {
    Text(&'static str),
    Whole(i64),
}

// One turn. Filters are texts, and an empty one stands for none.
enum Turn {
    Queue(u32, u32, &'static str, &'static str),
    Drop(u32),
    // An address, the properties of a message to it, and the ids of the queues that it goes to.
    Send(u32, &'static [(&'static str, Given)], &'static [u32]),
}

const NOTHING: &[(&str, Given)] = &[];

const RED: &[(&str, Given)] = &[("color", Given::Text("red")), ("n", Given::Whole(3))];

const BLUE: &[(&str, Given)] = &[("color", Given::Text("blue"))];
// Its number is the greatest, so one more is unknown.
const GREAT: &[(&str, Given)] = &[
    ("color", Given::Text("r_1")),
    ("n", Given::Whole(i64::MAX)),
    ("size", Given::Whole(1)),
];
// Its color is no text.
const SEVEN: &[(&str, Given)] = &[("color", Given::Whole(7))];
// The first property of a name counts.
const TWICE: &[(&str, Given)] = &[
    ("color", Given::Text("red")),
    ("color", Given::Text("blue")),
];

const TURNS: [Turn; 33] = [
    Turn::Queue(1, 1, "all", ""),
    Turn::Queue(2, 1, "red", "color = 'red'"),
    Turn::Queue(3, 1, "not_red", "NOT color = 'red'"),
    Turn::Queue(4, 1, "few", "n BETWEEN 1 AND 3"),
    Turn::Queue(5, 1, "some", "color IN ('red', 'blue') OR size IS NULL"),
    Turn::Queue(6, 1, "more", "n + 1 > 0"),
    Turn::Queue(7, 1, "like", "color LIKE 'r\\_%' ESCAPE '\\'"),
    // At another address: no filter, one that is always true, and one that has a whole where a truth is wanted.
    Turn::Queue(8, 2, "other", ""),
    Turn::Queue(9, 2, "true", "TRUE"),
    Turn::Queue(10, 2, "whole", "n"),
    Turn::Send(1, NOTHING, &[1, 5]),
    Turn::Send(1, RED, &[1, 2, 4, 5, 6]),
    Turn::Send(1, BLUE, &[1, 3, 5]),
    Turn::Send(1, GREAT, &[1, 3, 7]),
    Turn::Send(1, SEVEN, &[1, 3, 5]),
    Turn::Send(1, TWICE, &[1, 2, 5]),
    Turn::Send(2, NOTHING, &[8, 9]),
    Turn::Send(2, RED, &[8, 9]),
    // No queue has that address.
    Turn::Send(3, RED, &[]),
    // A filter goes with its queue, and the name may be taken with another.
    Turn::Drop(2),
    Turn::Send(1, RED, &[1, 4, 5, 6]),
    Turn::Queue(11, 1, "red", "color = 'blue'"),
    Turn::Send(1, RED, &[1, 4, 5, 6]),
    Turn::Send(1, BLUE, &[1, 3, 5, 11]),
    // What had no filter has one, and what had one has none.
    Turn::Drop(1),
    Turn::Queue(12, 1, "all", "FALSE"),
    Turn::Send(1, NOTHING, &[5]),
    Turn::Drop(3),
    Turn::Queue(13, 1, "not_red", ""),
    Turn::Send(1, RED, &[4, 5, 6, 13]),
    // Ids needn't come in their order.
    Turn::Queue(2, 2, "late", "color = 'red'"),
    Turn::Send(2, RED, &[2, 8, 9]),
    Turn::Send(1, GREAT, &[7, 13]),
];

fn value(alloc: Global, given: &Given) -> Result<Value, AllocError> {
    match given {
        Given::Text(text) => Ok(Value::Text(Text::from_str(alloc, text)?)),
        Given::Whole(number) => Ok(Value::Whole(*number)),
    }
}

fn properties(alloc: Global, given: &[(&'static str, Given)]) -> Result<Properties, AllocError> {
    let mut properties = Properties::new(alloc);
    for property in given {
        let name = Text::from_str(alloc, property.0)?;
        let value = value(alloc, &property.1)?;
        properties.push(Property { name, value })?;
    }
    Ok(properties)
}

// Takes the turn. Whether what was to be added could be, and the message goes to the queues that are told.
fn takes(routes: &mut Routes, alloc: Global, turn: &Turn) -> Result<bool, FilterError> {
    match turn {
        Turn::Queue(id, address, name, filter) => {
            let filter = filter_of(alloc, filter)?;
            Ok(adds_queue(routes, alloc, *id, *address, name, filter)?)
        }
        Turn::Drop(id) => {
            routes.drop_queue(*id);
            Ok(!routes.has_queue(*id))
        }
        Turn::Send(address, given, wanted) => {
            let properties = properties(alloc, given)?;
            let ids = routes.route(alloc, *address, properties.as_slice())?;
            Ok(ids.as_slice() == *wanted)
        }
    }
}

// The place of the first turn that goes otherwise.
fn first_wrong_turn(alloc: Global) -> Result<Option<usize>, FilterError> {
    let mut routes = Routes::new(alloc);
    for (place, turn) in TURNS.as_slice().iter().enumerate() {
        if !takes(&mut routes, alloc, turn)? {
            return Ok(Some(place));
        }
    }
    Ok(None)
}

// How many queues stand at one address, each of which takes the messages whose n is its id.
const COUNT: u32 = 1_000;

// Routes with these queues.
fn filtered(alloc: Global) -> Result<Option<Routes>, FilterError> {
    let mut routes = Routes::new(alloc);
    for id in 1..COUNT + 1 {
        let filter = filter_of(alloc, format!(in alloc; "n = {id}")?.as_str())?;
        if !adds_queue(&mut routes, alloc, id, 1, name(alloc, id)?.as_str(), filter)? {
            return Ok(None);
        }
    }
    Ok(Some(routes))
}

// Whether messages go to the queue whose id is their n, and those with another n go nowhere.
fn each_goes_to_one(alloc: Global) -> Result<bool, FilterError> {
    let Some(routes) = filtered(alloc)? else {
        return Ok(false);
    };
    for number in [1u32, 2, 500, 999, 1_000] {
        let message = properties(alloc, &[("n", Given::Whole(number as i64))])?;
        if routes.route(alloc, 1, message.as_slice())?.as_slice() != [number].as_slice() {
            return Ok(false);
        }
    }
    let nowhere = properties(alloc, &[("n", Given::Whole(1_001))])?;
    Ok(routes.route(alloc, 1, nowhere.as_slice())?.is_empty())
}

#[test]
fn goes_to_one_of_many(rt: HostRuntime) -> Result<(), Fail> {
    assert!(rt; matches!(each_goes_to_one(rt.alloc()), Ok(true)));
    Ok(())
}

#[test]
fn goes_to_the_queues_that_match(rt: HostRuntime) -> Result<(), Fail> {
    assert!(rt; matches!(first_wrong_turn(rt.alloc()), Ok(None)));
    Ok(())
}
