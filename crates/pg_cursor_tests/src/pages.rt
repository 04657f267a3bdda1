// Which places a new cursor gives from a page on, and where a page that is cut stops it.

use crate::drains::{counted_from, given_from, in_turn};
use pg_acks::{Acks, Position};
use pg_disk::{Damage, Fault, FileId, Kind, Rule};
use pg_page::Place;
use std::alloc::{AllocError, Global};
use std::test::Fail;

// Frames for the queue 1 of the messages 1-1, 1-2 and 1-3, of which the second is of the transaction 1-2.
const WITH_VOID: &[u8] = b"\x01\0\0\0\0\0\0\0\x1f\
      \x01\0\0\0\0\0\0\0\0\0\x01\0\0\0\x01\0\0\0\x01\0\0\0\x01\x01\0\0\0\0\0\x01x\
      \x01\0\0\0\0\0\0\0\x1f\
      \x01\0\0\0\x01\0\0\0\x02\0\x01\0\0\0\x01\0\0\0\x01\0\0\0\x02\x01\0\0\0\0\0\x01x\
      \x01\0\0\0\0\0\0\0\x1f\
      \x01\0\0\0\0\0\0\0\0\0\x01\0\0\0\x01\0\0\0\x01\0\0\0\x03\x01\0\0\0\0\0\x01x\0";

// The position of a frame.
pub(crate) type At = (u64, u32);

// Where a cursor begins: how many pages are gone, and how many there are behind those and before its first one.
type Start = (u32, u32);

// The page and the offset at which a batch is cut, or nothing.
type Cut = Option<(u64, u64)>;

// The place of a frame among those of 31 bytes.
pub(crate) fn place_at(at: At) -> Place {
    Place {
        position: Position {
            page: at.0,
            index: at.1,
        },
        offset: 9 + u64::from(at.1) * 40,
    }
}

// Whether these are the places at the positions.
pub(crate) fn are_at(places: &[Place], positions: &[At]) -> bool {
    if places.len() != positions.len() {
        return false;
    }
    for (place, at) in places.iter().zip(positions) {
        if *place != place_at(*at) {
            return false;
        }
    }
    true
}

// Whether a call ended so.
fn is_end<T: Drop>(outcome: Result<T, Fault>, cut: Cut) -> bool {
    match (outcome, cut) {
        (Ok(_), None) => true,
        (Err(Fault::Damaged(damage)), Some((page, at))) => {
            damage
                == Damage {
                    file: FileId {
                        kind: Kind::Page,
                        owner: 3,
                        number: page,
                    },
                    at,
                    rule: Rule::Cut,
                }
        }
        _ => false,
    }
}

// Whether a new cursor of the queue gives the places at these positions and then ends so, and counts them, or ends so.
fn is_given(
    alloc: Global,
    queue: u32,
    start: Start,
    pages: &[&[u8]],
    positions: &[At],
    cut: Cut,
) -> Result<bool, AllocError> {
    let acks = Acks::new(alloc);
    let before = u64::from(start.0);
    let first = before + u64::from(start.1) + 1;
    let mut places = Vec::new(alloc);
    let gives = given_from(alloc, &acks, queue, before, first, pages, &mut places);
    let count = counted_from(alloc, &acks, queue, before, first, pages);
    let counts = match count {
        Ok(count) => count == positions.len() as u64,
        Err(_) => true,
    };
    Ok(counts && is_end(gives, cut) && is_end(count, cut) && are_at(&places, positions))
}

// What a page has.
#[derive(Clone, Copy)]
enum Content {
    // No frame.
    Nothing,
    // Frames for the queues 1, 2 and 1.
    Three,
    // Frames for the queue 1, of which the second is void.
    WithVoid,
}

// The bytes of a page.
fn bytes_of(alloc: Global, content: Content) -> Result<Vec<u8>, AllocError> {
    match content {
        Content::Nothing => Vec::from_slice(alloc, b"\0"),
        Content::Three => in_turn(alloc, 3),
        Content::WithVoid => Vec::from_slice(alloc, WITH_VOID),
    }
}

// Whether a new cursor of the queue gives the places at these positions over two pages that aren't gone.
fn is_given_over(
    alloc: Global,
    queue: u32,
    start: Start,
    contents: (Content, Content),
    positions: &[At],
) -> Result<bool, AllocError> {
    let first = bytes_of(alloc, contents.0)?;
    let second = bytes_of(alloc, contents.1)?;
    let pages: [&[u8]; 2] = [first.as_slice(), second.as_slice()];
    is_given(alloc, queue, start, &pages, positions, None)
}

// The first case in which a cursor that begins at a page gives others than those from there on: the pages before it are
// there or gone, it is the last one or behind that, and a frame of a void transaction is among others.
fn wrong_start(alloc: Global) -> Result<Option<usize>, AllocError> {
    let twice = (Content::Three, Content::Three);
    let empty = (Content::Three, Content::Nothing);
    let void = (Content::WithVoid, Content::Three);
    let cases: [(u32, Start, (Content, Content), &[At]); 8] = [
        (1, (0, 0), twice, &[(1, 0), (1, 2), (2, 0), (2, 2)]),
        (1, (0, 1), twice, &[(2, 0), (2, 2)]),
        (1, (6, 0), twice, &[(7, 0), (7, 2), (8, 0), (8, 2)]),
        (2, (6, 1), twice, &[(8, 1)]),
        (1, (6, 2), twice, &[]),
        (1, (0, 0), empty, &[(1, 0), (1, 2)]),
        (1, (0, 1), empty, &[]),
        (1, (0, 0), void, &[(1, 0), (1, 2), (2, 0), (2, 2)]),
    ];
    for (number, case) in cases.iter().enumerate() {
        if !is_given_over(alloc, case.0, case.1, case.2, case.3)? {
            return Ok(Some(number));
        }
    }
    Ok(None)
}

#[test]
fn a_cursor_gives_the_places_from_its_first_page_on(rt: HostRuntime) -> Result<(), Fail> {
    assert!(rt; wrong_start(rt.alloc())? == None);
    Ok(())
}

// The first so many bytes.
pub(crate) fn shortened(bytes: &[u8], length: usize) -> &[u8] {
    bytes.get(..length).unwrap_or(bytes)
}

// The first case in which a cursor isn't stopped by the second of three pages with three frames, which has only so many
// bytes, where it comes to the batch that is cut: within the payload, before its last gate, within the length, behind
// the open gate. A page of at most one byte has no batch, and neither stops it a page before the one at which it begins.
fn wrong_stop(alloc: Global) -> Result<Option<usize>, AllocError> {
    let three = in_turn(alloc, 3)?;
    let cases: [(u32, u32, usize, &[At], Cut); 13] = [
        (
            1,
            0,
            121,
            &[(1, 0), (1, 2), (2, 0), (2, 2), (3, 0), (3, 2)],
            None,
        ),
        (1, 0, 120, &[(1, 0), (1, 2), (2, 0)], Some((2, 80))),
        (1, 0, 100, &[(1, 0), (1, 2), (2, 0)], Some((2, 80))),
        (1, 0, 85, &[(1, 0), (1, 2), (2, 0)], Some((2, 80))),
        (1, 0, 81, &[(1, 0), (1, 2), (2, 0)], Some((2, 80))),
        (2, 0, 100, &[(1, 1), (2, 1)], Some((2, 80))),
        (1, 0, 80, &[(1, 0), (1, 2), (2, 0)], Some((2, 40))),
        (2, 0, 80, &[(1, 1)], Some((2, 40))),
        (1, 0, 40, &[(1, 0), (1, 2)], Some((2, 0))),
        (1, 0, 2, &[(1, 0), (1, 2)], Some((2, 0))),
        (1, 0, 1, &[(1, 0), (1, 2), (3, 0), (3, 2)], None),
        (1, 1, 100, &[(2, 0)], Some((2, 80))),
        (1, 2, 100, &[(3, 0), (3, 2)], None),
    ];
    for (number, case) in cases.iter().enumerate() {
        let cut = shortened(&three, case.2);
        let pages: [&[u8]; 3] = [three.as_slice(), cut, three.as_slice()];
        if !is_given(alloc, case.0, (0, case.1), &pages, case.3, case.4)? {
            return Ok(Some(number));
        }
    }
    Ok(None)
}

#[test]
fn a_cut_page_stops_a_cursor_that_comes_to_it(rt: HostRuntime) -> Result<(), Fail> {
    assert!(rt; wrong_stop(rt.alloc())? == None);
    Ok(())
}
