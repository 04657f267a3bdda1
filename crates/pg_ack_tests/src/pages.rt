use pg_acks::{AckRow, Acks, Position};
use std::alloc::{AllocError, Global};
use std::test::Fail;

fn at(page: u64, index: u32) -> Position {
    Position { page, index }
}

fn row(queue: u32, page: u64, from: u32, to: u32) -> AckRow {
    AckRow {
        queue,
        page,
        from,
        to,
    }
}

// Positions of several queues and pages, in no order of theirs.
fn filled(alloc: Global) -> Result<Acks, AllocError> {
    let mut acks = Acks::new(alloc);
    for (queue, page, index) in [
        (2, 1, 0),
        (1, 2, 3),
        (1, 1, 4),
        (1, 2, 1),
        (4_294_967_295, 18_446_744_073_709_551_615, 0),
        (2, 1, 1),
        (1, 2, 2),
        (1, 1, 6),
    ] {
        acks.add(queue, at(page, index))?;
    }
    Ok(acks)
}

// Whether the runs stand by queue, page and index, and nothing is whole.
fn tells_in_order(alloc: Global) -> Result<bool, AllocError> {
    let acks = filled(alloc)?;
    Ok(
        acks.rows(alloc)?.as_slice()
            == [
                row(1, 1, 4, 4),
                row(1, 1, 6, 6),
                row(1, 2, 1, 3),
                row(2, 1, 0, 1),
                row(4_294_967_295, 18_446_744_073_709_551_615, 0, 0),
            ]
            .as_slice()
            && acks.pages(alloc)?.is_empty(),
    )
}

// What is asked behind a whole page: a queue, a page, an index, and whether it is acknowledged.
const ASKED: [(u32, u64, u32, bool); 8] = [
    (1, 2, 0, true),
    (1, 2, 2, true),
    (1, 2, 4_294_967_295, true),
    (1, 1, 4, true),
    (1, 1, 5, false),
    (2, 2, 2, false),
    (1, 3, 0, false),
    (2, 1, 1, true),
];

// The first that is answered otherwise, when page 2 of queue 1 is whole.
fn first_wrong_answer(alloc: Global) -> Result<Option<usize>, AllocError> {
    let mut acks = filled(alloc)?;
    acks.add_page(1, 2)?;
    for (place, (queue, page, index, is)) in ASKED.as_slice().iter().enumerate() {
        if acks.contains(*queue, at(*page, *index)) != *is {
            return Ok(Some(place));
        }
    }
    Ok(None)
}

// Whether a whole page is told once, in the order of pages, and its runs no more.
fn tells_whole_pages(alloc: Global) -> Result<bool, AllocError> {
    let mut acks = filled(alloc)?;
    for (queue, page) in [(2, 9), (1, 2), (1, 1), (1, 2)] {
        acks.add_page(queue, page)?;
    }
    Ok(
        acks.rows(alloc)?.as_slice()
            == [
                row(2, 1, 0, 1),
                row(4_294_967_295, 18_446_744_073_709_551_615, 0, 0),
            ]
            .as_slice()
            && acks.pages(alloc)?.as_slice() == [(1, 1), (1, 2), (2, 9)].as_slice(),
    )
}

fn is_empty_at_first(alloc: Global) -> Result<bool, AllocError> {
    let acks = Acks::new(alloc);
    Ok(!acks.contains(1, at(1, 0)) && acks.rows(alloc)?.is_empty() && acks.pages(alloc)?.is_empty())
}

#[test]
fn is_empty_until_something_is_acknowledged(rt: HostRuntime) -> Result<(), Fail> {
    assert!(rt; is_empty_at_first(rt.alloc())?);
    Ok(())
}

#[test]
fn tells_runs_in_their_order(rt: HostRuntime) -> Result<(), Fail> {
    assert!(rt; tells_in_order(rt.alloc())?);
    Ok(())
}

#[test]
fn knows_whole_pages(rt: HostRuntime) -> Result<(), Fail> {
    assert!(rt; first_wrong_answer(rt.alloc())?.is_none());
    Ok(())
}

#[test]
fn tells_whole_pages_once(rt: HostRuntime) -> Result<(), Fail> {
    assert!(rt; tells_whole_pages(rt.alloc())?);
    Ok(())
}

// What is asked behind the whole page 2 of queue 1: a queue, a page, two indexes, and whether some position from the one
// to the other is acknowledged.
const BETWEEN: [(u32, u64, u32, u32, bool); 14] = [
    (1, 2, 0, 0, true),
    (1, 2, 9, 4_294_967_295, true),
    (1, 2, 1, 0, false),
    (1, 1, 0, 3, false),
    (1, 1, 0, 4, true),
    (1, 1, 4, 9, true),
    (1, 1, 5, 5, false),
    (1, 1, 5, 6, true),
    (1, 1, 7, 4_294_967_295, false),
    (1, 1, 4, 3, false),
    (1, 3, 0, 4_294_967_295, false),
    (2, 2, 0, 9, false),
    (2, 1, 1, 4_294_967_295, true),
    (4_294_967_295, 18_446_744_073_709_551_615, 0, 0, true),
];

// The first that is answered otherwise.
fn first_wrong_between(alloc: Global) -> Result<Option<usize>, AllocError> {
    let mut acks = filled(alloc)?;
    acks.add_page(1, 2)?;
    for (place, (queue, page, from, to, is)) in BETWEEN.as_slice().iter().enumerate() {
        if acks.has_any(*queue, *page, *from, *to) != *is {
            return Ok(Some(place));
        }
    }
    Ok(None)
}

// Runs that are acknowledged one after the other at queue 1: a page and two indexes. On each page there is another case:
// between two that it joins, behind a gap, right behind one, right before one, at the first index, at the last one, up
// to the last one, and one without a position.
const ADDED: [(u64, u32, u32); 15] = [
    (1, 2, 5),
    (1, 8, 9),
    (1, 6, 7),
    (2, 4, 5),
    (2, 7, 9),
    (3, 3, 4),
    (3, 5, 6),
    (4, 5, 6),
    (4, 3, 4),
    (5, 1, 3),
    (5, 0, 0),
    (6, 4_294_967_290, 4_294_967_294),
    (6, 4_294_967_295, 4_294_967_295),
    (7, 0, 4_294_967_295),
    (8, 3, 2),
];

// The place of the first of them of which some position is acknowledged already.
fn add_runs(acks: &mut Acks) -> Result<Option<usize>, AllocError> {
    for (place, (page, from, to)) in ADDED.as_slice().iter().enumerate() {
        if acks.has_any(1, *page, *from, *to) {
            return Ok(Some(place));
        }
        acks.add_run(1, *page, *from, *to)?;
    }
    Ok(None)
}

// Whether each run joins those that it touches, and no other.
fn joins_runs(alloc: Global) -> Result<bool, AllocError> {
    let mut acks = Acks::new(alloc);
    let taken = add_runs(&mut acks)?;
    Ok(
        taken.is_none()
            && acks.rows(alloc)?.as_slice()
                == [
                    row(1, 1, 2, 9),
                    row(1, 2, 4, 5),
                    row(1, 2, 7, 9),
                    row(1, 3, 3, 6),
                    row(1, 4, 3, 6),
                    row(1, 5, 0, 3),
                    row(1, 6, 4_294_967_290, 4_294_967_295),
                    row(1, 7, 0, 4_294_967_295),
                ]
                .as_slice()
            && acks.pages(alloc)?.is_empty(),
    )
}

// Whether a queue that is dropped has nothing, while the others keep all.
fn drops_one_queue(alloc: Global) -> Result<bool, AllocError> {
    let mut acks = filled(alloc)?;
    acks.add_page(1, 9)?;
    acks.add_page(2, 9)?;
    acks.drop_queue(1);
    acks.drop_queue(3);
    Ok(
        acks.rows(alloc)?.as_slice()
            == [
                row(2, 1, 0, 1),
                row(4_294_967_295, 18_446_744_073_709_551_615, 0, 0),
            ]
            .as_slice()
            && acks.pages(alloc)?.as_slice() == [(2, 9)].as_slice()
            && acks.has_page(2, 9)
            && !acks.has_page(1, 9)
            && !acks.contains(1, at(2, 3)),
    )
}

#[test]
fn knows_whether_some_position_is_acknowledged(rt: HostRuntime) -> Result<(), Fail> {
    assert!(rt; first_wrong_between(rt.alloc())?.is_none());
    Ok(())
}

#[test]
fn joins_runs_that_touch(rt: HostRuntime) -> Result<(), Fail> {
    assert!(rt; joins_runs(rt.alloc())?);
    Ok(())
}

#[test]
fn drops_a_queue_alone(rt: HostRuntime) -> Result<(), Fail> {
    assert!(rt; drops_one_queue(rt.alloc())?);
    Ok(())
}
