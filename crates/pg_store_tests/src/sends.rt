// Which page a frame goes to, and what is left where a call is stopped.
ghost use Rattle.std.specs.Prelude.{◌≡◌, IfOk};
ghost use Rattle.pg_disk.specs.Sites.{OnFiles};
ghost use Rattle.pg_store.specs.Pages.{HasNoneFrom, states_of};
ghost use Rattle.pg_store.specs.Stores.{IsPaging, address_of_paging};

use pg_acks::Position;
use pg_bytes::Octets;
use pg_disk::{Disk, Fault, FileId, Kind, MemSite, Pick};
use pg_page::Place;
use pg_store::{PagingStore, Store};
use std::alloc::{AllocError, Global};
use std::test::Fail;

// The page of the address 3 with this number.
pub(crate) fn file(number: u64) -> FileId {
    FileId {
        kind: Kind::Page,
        owner: 3,
        number,
    }
}

// A frame of so many bytes, the page size, and the page, the index and the offset of the place that it goes to.
pub(crate) type Send = (usize, u64, (u64, u32, u64));

// Adds a frame of so many bytes.
pub(crate) fn send<D: Disk>(
    alloc: Global,
    disk: &mut D,
    store: PagingStore,
    size: usize,
    limit: u64,
) -> Result<(PagingStore, Place), Fault>
    requires { OnFiles D.Disk disk.old (λ files. IsPaging store (states_of files (address_of_paging store))) }
    ensures { IfOk result (λ done. OnFiles D.Disk disk.new (λ files.
        IsPaging done.0 (states_of files (address_of_paging done.0)))) }
{
    let payload = Octets::from_slice(alloc, &vec![in alloc; 5; size]?)?;
    let (next, place) = store.page(alloc, disk, &payload, limit.min(1_000_000_000))?;
    Ok((next, place))
}

// Whether it is this place.
pub(crate) fn is_at(place: Place, want: (u64, u32, u64)) -> bool {
    let position = Position {
        page: want.0,
        index: want.1,
    };
    place
        == Place {
            position,
            offset: want.2,
        }
}

// The first frame that goes to another place, and whether the last page is another one than the last frame's.
fn wrong_send<D: Disk>(
    alloc: Global,
    disk: &mut D,
    store: PagingStore,
    sends: &[Send],
) -> Result<Option<usize>, Fault>
    requires { OnFiles D.Disk disk.old (λ files. IsPaging store (states_of files (address_of_paging store))) }
{
    let mut store = store;
    let mut number: usize = 0;
    'sends: for one in sends {
        let (next, place) = send(alloc, disk, store, one.0, one.1)?;
        store = next;
        if !is_at(place, one.2) || store.last() != one.2.0 || store.first() != 1 {
            return Ok(Some(number));
        }
        number = number.saturating_add(1);
    }
    Ok(None)
}

// The same of an address without pages, whose first one is 1.
fn wrong_start<D: Disk>(alloc: Global, disk: &mut D, sends: &[Send]) -> Result<Option<usize>, Fault>
    requires { OnFiles D.Disk disk.old (λ files. HasNoneFrom 1 (states_of files 3)) }
{
    match Store::open(alloc, disk, 3, 1, None)? {
        Store::Normal(normal) => {
            let store = normal.start(disk)?;
            wrong_send(alloc, disk, store, sends)
        }
        Store::Paging(_) => Ok(Some(usize::MAX)),
    }
}

// Whether the pages from 1 on have so many bytes, and there is none behind them.
fn have_lengths(site: &MemSite, lengths: &[usize]) -> bool {
    let mut number: u64 = 1;
    for length in lengths {
        match site.bytes(file(number)) {
            Some(bytes) if bytes.len() == *length => {}
            _ => return false,
        }
        number = number.saturating_add(1);
    }
    site.bytes(file(number)).is_none()
}

// Whether these frames go to these places, and the pages have so many bytes then.
fn are_sent(alloc: Global, sends: &[Send], lengths: &[usize]) -> Result<bool, Fault> {
    let mut site = MemSite::new(alloc);
    let wrong = wrong_start(alloc, &mut site, sends)?;
    Ok(wrong.is_none() && have_lengths(&site, lengths))
}

// Three messages with bodies of five bytes, each of which has a frame of 35.
const THREE: &[Send] = &[
    (35, 100, (1, 0, 9)),
    (35, 100, (1, 1, 53)),
    (35, 100, (2, 0, 9)),
];

// The first case in which a frame goes to another place: no frame, three of 35 bytes, one that is longer than the page
// size and one behind it, a page size that changes from call to call, and frames that end at the page size or one byte
// behind it.
fn wrong_case(alloc: Global) -> Result<Option<usize>, Fault> {
    let long: [Send; 2] = [(200, 100, (1, 0, 9)), (35, 100, (2, 0, 9))];
    let changed: [Send; 6] = [
        (35, 100, (1, 0, 9)),
        (35, 50, (2, 0, 9)),
        (35, 100, (2, 1, 53)),
        (35, 132, (3, 0, 9)),
        (35, 133, (3, 1, 53)),
        (35, 133, (3, 2, 97)),
    ];
    let ends: [Send; 3] = [
        (35, 100, (1, 0, 9)),
        (46, 100, (1, 1, 53)),
        (1, 100, (2, 0, 9)),
    ];
    let passes: [Send; 2] = [(35, 100, (1, 0, 9)), (47, 100, (2, 0, 9))];
    let cases: [(&[Send], &[usize]); 6] = [
        (&[], &[1]),
        (THREE, &[89, 45]),
        (&long, &[210, 45]),
        (&changed, &[45, 89, 133]),
        (&ends, &[100, 11]),
        (&passes, &[45, 57]),
    ];
    for (number, case) in cases.iter().enumerate() {
        if !are_sent(alloc, case.0, case.1)? {
            return Ok(Some(number));
        }
    }
    Ok(None)
}

#[test]
fn a_frame_goes_to_the_last_page_or_to_a_new_one(rt: HostRuntime) -> Result<(), Fail> {
    assert!(rt; wrong_case(rt.alloc())? == None);
    Ok(())
}

pub(crate) const PICKS: [Pick; 5] = [
    Pick::Old,
    Pick::New,
    Pick::Fill(0),
    Pick::Fill(1),
    Pick::Fill(255),
];

// How many of the three frames are left, by the call within which the site is stopped and by the pick. Three calls make
// a page, and four add a frame, of which the third opens its gate: page 1 is made and takes two frames by the first
// eleven, page 2 is made and takes one by the other seven.
const LEFT: [[usize; 5]; 18] = [
    [0, 0, 0, 0, 0],
    [0, 0, 0, 0, 0],
    [0, 0, 0, 0, 0],
    [0, 0, 0, 0, 0],
    [0, 0, 0, 0, 0],
    [0, 1, 0, 1, 0],
    [0, 1, 0, 1, 0],
    [1, 1, 1, 1, 1],
    [1, 1, 1, 1, 1],
    [1, 2, 1, 2, 1],
    [1, 2, 1, 2, 1],
    [2, 2, 2, 2, 2],
    [2, 2, 2, 2, 2],
    [2, 2, 2, 2, 2],
    [2, 2, 2, 2, 2],
    [2, 2, 2, 2, 2],
    [2, 3, 2, 3, 2],
    [2, 3, 2, 3, 2],
];

// Whether a frame of 35 bytes stands behind an open gate here.
fn is_open(bytes: &[u8], gate: usize) -> bool {
    bytes.get(gate) == Some(&1) && bytes.len() > gate.saturating_add(44)
}

// How many frames of 35 bytes a page has, of at most two.
fn frames_in(bytes: Option<&[u8]>) -> usize {
    match bytes {
        Some(bytes) if is_open(bytes, 0) && is_open(bytes, 44) => 2,
        Some(bytes) if is_open(bytes, 0) => 1,
        _ => 0,
    }
}

// The first pick of which other frames are left within the call.
fn wrong_pick(site: &MemSite, stop: u64, counts: [usize; 5]) -> Result<Option<Pick>, AllocError> {
    if stop == 0 || stop > site.calls() {
        return Ok(Some(Pick::Old));
    }
    for (pick, count) in PICKS.iter().zip(&counts) {
        let left = site.crash(stop, *pick)?;
        let first = frames_in(left.bytes(file(1)));
        if first.saturating_add(frames_in(left.bytes(file(2)))) != *count {
            return Ok(Some(*pick));
        }
    }
    Ok(None)
}

// The first call within which other frames are left, or 0 where the frames aren't added by so many calls.
fn wrong_stop(alloc: Global) -> Result<Option<u64>, Fault> {
    let mut site = MemSite::new(alloc);
    if wrong_start(alloc, &mut site, THREE)?.is_some() || site.calls() != 18 {
        return Ok(Some(0));
    }
    let mut stop: u64 = 0;
    for counts in LEFT {
        stop = stop.saturating_add(1);
        if wrong_pick(&site, stop, counts)?.is_some() {
            return Ok(Some(stop));
        }
    }
    Ok(None)
}

#[test]
fn a_stop_leaves_the_frames_or_one_more(rt: HostRuntime) -> Result<(), Fail> {
    assert!(rt; wrong_stop(rt.alloc())? == None);
    Ok(())
}

// The greatest number of a page.
const LAST: u64 = 4_611_686_018_427_387_904;

// Whether paging starts at the greatest number, and the frame that would go to a page behind it finds no space.
fn is_spent<D: Disk>(alloc: Global, disk: &mut D) -> Result<bool, Fault>
    requires { OnFiles D.Disk disk.old (λ files. HasNoneFrom 4611686018427387904 (states_of files 3)) }
{
    match Store::open(alloc, disk, 3, LAST, None)? {
        Store::Normal(normal) => {
            let store = normal.start(disk)?;
            let (store, place) = send(alloc, disk, store, 200, 100)?;
            match send(alloc, disk, store, 35, 100) {
                Err(Fault::Spent) => Ok(is_at(place, (LAST, 0, 9))),
                _ => Ok(false),
            }
        }
        Store::Paging(_) => Ok(false),
    }
}

// The same, by seven calls of the disk: the frame without space makes none.
fn is_spent_without_a_call(alloc: Global) -> Result<bool, Fault> {
    let mut site = MemSite::new(alloc);
    Ok(is_spent(alloc, &mut site)? && site.calls() == 7)
}

#[test]
fn no_page_is_numbered_above_the_greatest(rt: HostRuntime) -> Result<(), Fail> {
    assert!(rt; is_spent_without_a_call(rt.alloc())?);
    Ok(())
}
