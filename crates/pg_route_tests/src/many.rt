use crate::names::{adds_address, adds_queue};
use pg_routes::Routes;
use std::alloc::{AllocError, Global};
use std::test::Fail;

// How many queues there are. They stand at ten addresses in turn.
const COUNT: u32 = 1_000;

// The name of the queue of that number, which no other has: its digits.
pub fn name(alloc: Global, number: u32) -> Result<String, AllocError> {
    let mut name = String::new(alloc);
    let mut rest = number;
    for _ in 0..4 {
        name.push(char::from(b'0' + (rest % 10) as u8))?;
        rest /= 10;
    }
    Ok(name)
}

// The place of the turn in an order that goes all over the places and comes to each of them once: 619 has no divisor
// with `COUNT` in common.
fn scattered(turn: u32) -> u32 {
    ((turn as u64).wrapping_mul(619) % (COUNT as u64)) as u32
}

// Routes with ten addresses, and the queues 1 to `COUNT`, each at the address of its last digit (10 for 0).
fn filled(alloc: Global) -> Result<Option<Routes>, AllocError> {
    let mut routes = Routes::new(alloc);
    for id in 1..11 {
        if !adds_address(&mut routes, alloc, id, name(alloc, id)?.as_str())? {
            return Ok(None);
        }
    }
    for id in 1..COUNT + 1 {
        let name = name(alloc, id)?;
        if !adds_queue(
            &mut routes,
            alloc,
            id,
            (id + 9) % 10 + 1,
            name.as_str(),
            None,
        )? {
            return Ok(None);
        }
    }
    Ok(Some(routes))
}

// Whether the ids are `COUNT / 10` numbers in steps of ten from the first on.
fn are_every_tenth(ids: &[u32], first: u32) -> bool {
    for (place, id) in ids.iter().enumerate() {
        if *id as u64 != (first as u64).saturating_add((place as u64).saturating_mul(10)) {
            return false;
        }
    }
    ids.len() == 100
}

// Drops the queue of that number, and adds one of the same name with an id that is by `COUNT` greater. Whether the
// name leads to the one, then to none, then to the other.
fn renews(routes: &mut Routes, alloc: Global, id: u32) -> Result<bool, AllocError> {
    let name = name(alloc, id)?;
    if routes.queue_id(name.as_str()) != Some(id) {
        return Ok(false);
    }
    routes.drop_queue(id);
    let next = id.saturating_add(COUNT);
    Ok(
        routes.queue_id(name.as_str()).is_none()
            && adds_queue(routes, alloc, next, 1, name.as_str(), None)?
            && routes.queue_id(name.as_str()) == Some(next),
    )
}

// Whether all are found, dropped in the scattered order, and added again at the first address.
fn goes_all_over(alloc: Global) -> Result<bool, AllocError> {
    let Some(mut routes) = filled(alloc)? else {
        return Ok(false);
    };
    for address in 1..11 {
        if !are_every_tenth(routes.queues_at(address), address) {
            return Ok(false);
        }
    }
    for turn in 0..COUNT {
        if !renews(&mut routes, alloc, scattered(turn).saturating_add(1))? {
            return Ok(false);
        }
    }
    Ok(routes.queues_at(2).is_empty() && routes.queues_at(1).len() == COUNT as usize)
}

#[test]
fn renews_many_queues(rt: HostRuntime) -> Result<(), Fail> {
    assert!(rt; goes_all_over(rt.alloc())?);
    Ok(())
}
