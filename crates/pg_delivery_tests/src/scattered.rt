use crate::queues::{adds, gives, message, puts_back, removes};
use pg_queue::Queue;
use std::alloc::{AllocError, Global};
use std::test::Fail;

// How many entries there are.
const COUNT: u32 = 2_000;

// The place of the turn in an order that goes all over the places and comes to each of them once: 7,919 has no divisor with
// `COUNT` in common.
fn scattered(turn: u32) -> u32 {
    ((turn as u64).wrapping_mul(7_919) % (COUNT as u64)) as u32
}

// Whether so many are added and come in their order.
fn come_in_order(queue: &mut Queue) -> bool {
    for number in 0..COUNT {
        if !gives(queue, message(number)) {
            return false;
        }
    }
    queue.receive().is_none()
}

fn are_put_back(queue: &mut Queue) -> Result<bool, AllocError> {
    for turn in 0..COUNT {
        if !puts_back(queue, message(scattered(turn)))? {
            return Ok(false);
        }
    }
    Ok(true)
}

fn are_removed(queue: &mut Queue) -> bool {
    for turn in 0..COUNT {
        if !removes(queue, message(scattered(turn))) {
            return false;
        }
    }
    queue.count() == 0
}

// Whether all of so many are added, taken, put back in the scattered order, taken again and taken out in that order.
fn goes_all_over(alloc: Global) -> Result<bool, AllocError> {
    let mut queue = Queue::new(alloc, 1);
    for number in 0..COUNT {
        adds(&mut queue, message(number))?;
    }
    Ok(
        queue.count() == COUNT as u64
            && come_in_order(&mut queue)
            && are_put_back(&mut queue)?
            && come_in_order(&mut queue)
            && are_removed(&mut queue),
    )
}

#[test]
fn keeps_the_order_of_many(rt: HostRuntime) -> Result<(), Fail> {
    assert!(rt; goes_all_over(rt.alloc())?);
    Ok(())
}
