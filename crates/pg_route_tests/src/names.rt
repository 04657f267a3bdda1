use pg_bytes::Text;
use pg_parse::Tree;
use pg_routes::Routes;
use std::alloc::{AllocError, Global};
use std::test::Fail;

// Adds the address where neither its id nor its name is there. Whether it was added.
pub fn adds_address(
    routes: &mut Routes,
    alloc: Global,
    id: u32,
    name: &str,
) -> Result<bool, AllocError> {
    let name = Text::from_str(alloc, name)?;
    if routes.has_address(id) || routes.address_id(name.as_str()).is_some() {
        return Ok(false);
    }
    routes.add_address(alloc, id, name)?;
    Ok(true)
}

// Adds the queue where neither its id nor its name is there. Whether it was added.
pub fn adds_queue(
    routes: &mut Routes,
    alloc: Global,
    id: u32,
    address: u32,
    name: &str,
    filter: Option<Tree>,
) -> Result<bool, AllocError> {
    let name = Text::from_str(alloc, name)?;
    if routes.has_queue(id) || routes.queue_id(name.as_str()).is_some() {
        return Ok(false);
    }
    routes.add_queue(alloc, id, address, name, filter)?;
    Ok(true)
}

// One turn, and what is looked up behind it.
enum Turn {
    Address(u32, &'static str),
    Queue(u32, u32, &'static str),
    Drop(u32),
}

struct Step {
    turn: Turn,
    // A name of an address, and the id that it must lead to; 0 stands for none.
    address: (&'static str, u32),
    // A name of a queue, and the id that it must lead to; 0 stands for none.
    queue: (&'static str, u32),
    // An address, and the ids of its queues.
    at: (u32, &'static [u32]),
}

const STEPS: [Step; 14] = [
    Step {
        turn: Turn::Address(1, "A"),
        address: ("A", 1),
        queue: ("A", 0),
        at: (1, &[]),
    },
    Step {
        turn: Turn::Address(2, "B"),
        address: ("B", 2),
        queue: ("P", 0),
        at: (2, &[]),
    },
    Step {
        turn: Turn::Queue(1, 1, "P"),
        address: ("P", 0),
        queue: ("P", 1),
        at: (1, &[1]),
    },
    Step {
        turn: Turn::Queue(2, 2, "Q"),
        address: ("A", 1),
        queue: ("Q", 2),
        at: (2, &[2]),
    },
    // A queue may have the name of an address.
    Step {
        turn: Turn::Queue(3, 1, "A"),
        address: ("A", 1),
        queue: ("A", 3),
        at: (1, &[1, 3]),
    },
    Step {
        turn: Turn::Queue(4, 1, "R"),
        address: ("R", 0),
        queue: ("R", 4),
        at: (1, &[1, 3, 4]),
    },
    // A name is told from its beginnings and from what it begins.
    Step {
        turn: Turn::Queue(5, 2, "QQ"),
        address: ("QQ", 0),
        queue: ("Q", 2),
        at: (2, &[2, 5]),
    },
    Step {
        turn: Turn::Drop(3),
        address: ("A", 1),
        queue: ("A", 0),
        at: (1, &[1, 4]),
    },
    // The queues of another address stay, and so do the other names.
    Step {
        turn: Turn::Drop(1),
        address: ("A", 1),
        queue: ("QQ", 5),
        at: (2, &[2, 5]),
    },
    Step {
        turn: Turn::Queue(6, 2, "P"),
        address: ("B", 2),
        queue: ("P", 6),
        at: (2, &[2, 5, 6]),
    },
    // No queue has that id any more.
    Step {
        turn: Turn::Drop(3),
        address: ("B", 2),
        queue: ("R", 4),
        at: (1, &[4]),
    },
    Step {
        turn: Turn::Drop(4),
        address: ("A", 1),
        queue: ("R", 0),
        at: (1, &[]),
    },
    // Ids needn't come in their order.
    Step {
        turn: Turn::Queue(3, 2, "S"),
        address: ("S", 0),
        queue: ("S", 3),
        at: (2, &[2, 3, 5, 6]),
    },
    Step {
        turn: Turn::Address(4_294_967_295, "C"),
        address: ("C", 4_294_967_295),
        queue: ("S", 3),
        at: (4_294_967_295, &[]),
    },
];

// Takes the turn. Whether what was to be added could be.
fn takes(routes: &mut Routes, alloc: Global, turn: &Turn) -> Result<bool, AllocError> {
    match turn {
        Turn::Address(id, name) => adds_address(routes, alloc, *id, name),
        Turn::Queue(id, address, name) => adds_queue(routes, alloc, *id, *address, name, None),
        Turn::Drop(id) => {
            routes.drop_queue(*id);
            Ok(!routes.has_queue(*id))
        }
    }
}

fn is_as_said(routes: &Routes, step: &Step) -> bool {
    routes.address_id(step.address.0).unwrap_or(0) == step.address.1
        && routes.queue_id(step.queue.0).unwrap_or(0) == step.queue.1
        && routes.queues_at(step.at.0) == step.at.1
}

// The place of the first step behind which something else is found.
fn first_wrong_step(alloc: Global) -> Result<Option<usize>, AllocError> {
    let mut routes = Routes::new(alloc);
    for (place, step) in STEPS.as_slice().iter().enumerate() {
        if !takes(&mut routes, alloc, &step.turn)? || !is_as_said(&routes, step) {
            return Ok(Some(place));
        }
    }
    Ok(None)
}

fn is_empty_at_first(alloc: Global) -> bool {
    let routes = Routes::new(alloc);
    routes.address_id("").is_none()
        && routes.queue_id("A").is_none()
        && routes.queues_at(1).is_empty()
        && !routes.has_address(1)
        && !routes.has_queue(1)
}

#[test]
fn finds_nothing_in_empty_routes(rt: HostRuntime) -> Result<(), Fail> {
    assert!(rt; is_empty_at_first(rt.alloc()));
    Ok(())
}

#[test]
fn finds_what_is_there_behind_each_step(rt: HostRuntime) -> Result<(), Fail> {
    assert!(rt; first_wrong_step(rt.alloc())?.is_none());
    Ok(())
}
