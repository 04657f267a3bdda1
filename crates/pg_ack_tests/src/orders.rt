use pg_acks::{AckRow, Acks, Position};
use std::alloc::{AllocError, Global};
use std::test::Fail;

// How many positions of a page are acknowledged.
const COUNT: u32 = 1_000;

// The queue and the page where they are.
const QUEUE: u32 = 3;

const PAGE: u64 = 5;

fn at(index: u32) -> Position {
    Position { page: PAGE, index }
}

// In which order the positions are acknowledged.
enum Order {
    Forward,
    Backward,
    Scattered,
}

// The index of the turn. The scattered ones go all over the page and come to each index once: 619 has no divisor with
// `COUNT` in common.
fn index(order: &Order, turn: u32) -> u32 {
    match order {
        Order::Forward => turn,
        Order::Backward => COUNT.saturating_sub(1).saturating_sub(turn),
        Order::Scattered => ((turn as u64).wrapping_mul(619) % (COUNT as u64)) as u32,
    }
}

// Whether these are the rows.
fn are_rows(acks: &Acks, alloc: Global, rows: &[AckRow]) -> Result<bool, AllocError> {
    Ok(acks.rows(alloc)?.as_slice() == rows)
}

// The one row of all indexes up to that one.
fn up_to(index: u32) -> AckRow {
    AckRow {
        queue: QUEUE,
        page: PAGE,
        from: 0,
        to: index,
    }
}

// Whether each is new when it comes, is there from then on, and all of them are one run in the end.
fn becomes_one_run(alloc: Global, order: &Order) -> Result<bool, AllocError> {
    let mut acks = Acks::new(alloc);
    for turn in 0..COUNT {
        let position = at(index(order, turn));
        if acks.contains(QUEUE, position) {
            return Ok(false);
        }
        acks.add(QUEUE, position)?;
        if !acks.contains(QUEUE, position) || acks.contains(QUEUE + 1, position) {
            return Ok(false);
        }
    }
    are_rows(&acks, alloc, &[up_to(COUNT - 1)])
}

const ORDERS: [Order; 3] = [Order::Forward, Order::Backward, Order::Scattered];

// The first of the orders in which they don't.
fn first_wrong_order(alloc: Global) -> Result<Option<usize>, AllocError> {
    for (place, order) in ORDERS.as_slice().iter().enumerate() {
        if !becomes_one_run(alloc, order)? {
            return Ok(Some(place));
        }
    }
    Ok(None)
}

fn row(from: u32, to: u32) -> AckRow {
    AckRow {
        queue: QUEUE,
        page: PAGE,
        from,
        to,
    }
}

// What is acknowledged at each step of one page, at its ends and twice too, and the runs behind it.
const STEPS: [(u32, &'static [(u32, u32)]); 10] = [
    (5, &[(5, 5)]),
    (7, &[(5, 5), (7, 7)]),
    (5, &[(5, 5), (7, 7)]),
    (6, &[(5, 7)]),
    (4, &[(4, 7)]),
    (8, &[(4, 8)]),
    (0, &[(0, 0), (4, 8)]),
    (
        4_294_967_295,
        &[(0, 0), (4, 8), (4_294_967_295, 4_294_967_295)],
    ),
    (
        4_294_967_294,
        &[(0, 0), (4, 8), (4_294_967_294, 4_294_967_295)],
    ),
    (1, &[(0, 1), (4, 8), (4_294_967_294, 4_294_967_295)]),
];

fn are_runs(acks: &Acks, alloc: Global, runs: &[(u32, u32)]) -> Result<bool, AllocError> {
    let mut rows = Vec::new(alloc);
    for (from, to) in runs {
        rows.push(row(*from, *to))?;
    }
    are_rows(acks, alloc, rows.as_slice())
}

// The first step behind which the runs are others.
fn first_wrong_step(alloc: Global) -> Result<Option<usize>, AllocError> {
    let mut acks = Acks::new(alloc);
    for (place, step) in STEPS.as_slice().iter().enumerate() {
        acks.add(QUEUE, at(step.0))?;
        if !are_runs(&acks, alloc, step.1)? {
            return Ok(Some(place));
        }
    }
    Ok(None)
}

#[test]
fn joins_all_to_one_run(rt: HostRuntime) -> Result<(), Fail> {
    assert!(rt; first_wrong_order(rt.alloc())?.is_none());
    Ok(())
}

#[test]
fn keeps_the_longest_runs(rt: HostRuntime) -> Result<(), Fail> {
    assert!(rt; first_wrong_step(rt.alloc())?.is_none());
    Ok(())
}
