// A queue is drained over many pages.
ghost use Rattle.std.specs.Prelude.{◌≤◌, ◌<◌, ℕ, Some, IfOk, IfSome};
ghost use Rattle.pg_disk.specs.Account.{IsHonest};
ghost use Rattle.pg_disk.specs.Image.{IsFileThere};
ghost use Rattle.pg_disk.specs.MemSite.{account_of};
ghost use Rattle.pg_disk.specs.Sites.{OnFiles};
ghost use Rattle.pg_page.specs.Pages.{page_file};
ghost use Rattle.pg_cursor.specs.Places.{HasPlace, page_of};
ghost use Rattle.pg_cursor.specs.Walking.{AreThere, OnPages, TailStands};

use pg_acks::{Acks, Position};
use pg_cursor::Subscription;
use pg_disk::{Disk, Fault, FileId, Kind, MemSite};
use pg_page::Place;
use pg_pagetx::PageTxs;
use rand_core::Rng;
use rand_pcg::Pcg32;
use std::alloc::{AllocError, Global};
use std::test::Fail;

// The bytes of a page with so many frames of 31 bytes, for the queues 1 and 2 in turn, numbered from 1.
pub(crate) fn in_turn(alloc: Global, count: u32) -> Result<Vec<u8>, AllocError> {
    let mut bytes = Vec::new(alloc);
    for index in 0..count {
        bytes.extend_from_slice(b"\x01\0\0\0\0\0\0\0\x1f\x01\0\0\0\0\0\0\0\0\0\x01\0\0\0")?;
        bytes.push(if index % 2 == 0 { 1 } else { 2 })?;
        bytes.extend_from_slice(b"\0\0\0\x01")?;
        bytes.extend_from_slice(&index.saturating_add(1).to_be_bytes())?;
        bytes.extend_from_slice(b"\x01\0\0\0\0\0\x01x")?;
    }
    bytes.push(0)?;
    Ok(bytes)
}

// Gives the address 3 pages with these bytes, behind page `before`, and answers the last one.
pub(crate) fn put_pages(site: &mut MemSite, before: u64, pages: &[&[u8]]) -> Result<u64, AllocError>
    ensures there { IfOk result (λ last. (page : ℕ) → before < page → page ≤ last →
        IsFileThere (page_file 3 page) (account_of site.new).files) }
    ensures honest { IsHonest (Some (account_of site.old)) → IfOk result (λ _. IsHonest (Some (account_of site.new))) }
{
    let mut last = before;
    'pages: for bytes in pages {
        last = last.saturating_add(1);
        let file = FileId {
            kind: Kind::Page,
            owner: 3,
            number: last,
        };
        site.put(file, *bytes)?;
    }
    Ok(last)
}

// Takes the next place.
fn give<D: Disk>(
    alloc: Global,
    disk: &mut D,
    cursor: Subscription,
    acks: &Acks,
    last: u64,
) -> Result<(Subscription, Option<Place>), Fault>
    requires there { OnFiles D.Disk disk.old (AreThere cursor.address (page_of cursor.tail) last) }
    requires stands { OnPages D.Disk disk.old cursor.address (TailStands cursor.tail) }
    ensures there { IfOk result (λ done. OnFiles D.Disk disk.new (AreThere done.0.address (page_of done.0.tail) last)) }
    ensures stands { IfOk result (λ done. OnPages D.Disk disk.new done.0.address (TailStands done.0.tail)) }
    ensures taken { IfOk result (λ done. IfSome done.1 (HasPlace done.0.taken)) }
{
    let txs = PageTxs::new(alloc);
    cursor.next_ready(alloc, disk, acks, &txs, last)
}

// Takes the next place, puts it back and takes it again. None, too, where another one is given then.
fn give_again<D: Disk>(
    alloc: Global,
    disk: &mut D,
    cursor: Subscription,
    acks: &Acks,
    last: u64,
) -> Result<(Subscription, Option<Place>), Fault>
    requires there { OnFiles D.Disk disk.old (AreThere cursor.address (page_of cursor.tail) last) }
    requires stands { OnPages D.Disk disk.old cursor.address (TailStands cursor.tail) }
    ensures there { IfOk result (λ done. OnFiles D.Disk disk.new (AreThere done.0.address (page_of done.0.tail) last)) }
    ensures stands { IfOk result (λ done. OnPages D.Disk disk.new done.0.address (TailStands done.0.tail)) }
{
    let (mut next, given) = give(alloc, disk, cursor, acks, last)?;
    let Some(place) = given else {
        return Ok((next, None));
    };
    next.put_back(place)?;
    let (next, again) = give(alloc, disk, next, acks, last)?;
    Ok((next, again.filter(|same| *same == place)))
}

// Takes places until there is none, or 20,000 of them. Each is put back once.
pub(crate) fn take_all<D: Disk>(
    alloc: Global,
    disk: &mut D,
    cursor: Subscription,
    acks: &Acks,
    last: u64,
    places: &mut Vec<Place>,
) -> Result<bool, Fault>
    requires there { OnFiles D.Disk disk.old (AreThere cursor.address (page_of cursor.tail) last) }
    requires stands { OnPages D.Disk disk.old cursor.address (TailStands cursor.tail) }
{
    let mut cursor = cursor;
    'places: for _ in 0..20_000 {
        let (next, given) = give_again(alloc, disk, cursor, acks, last)?;
        let Some(place) = given else {
            return Ok(true);
        };
        places.push(place).map_err(AllocError::from)?;
        cursor = next;
    }
    Ok(false)
}

// How many places a new cursor of the queue counts from page 1 on.
fn counted(alloc: Global, acks: &Acks, queue: u32, pages: &[&[u8]]) -> Result<u64, Fault> {
    counted_from(alloc, acks, queue, 0, 1, pages)
}

// How many places it counts from page `first` on, where the pages stand behind page `before`.
pub(crate) fn counted_from(
    alloc: Global,
    acks: &Acks,
    queue: u32,
    before: u64,
    first: u64,
    pages: &[&[u8]],
) -> Result<u64, Fault>
    requires { before < first }
{
    let mut site = MemSite::new(alloc);
    let last = put_pages(&mut site, before, pages)?;
    let cursor = Subscription::new(alloc, queue, 3, first);
    let txs = PageTxs::new(alloc);
    cursor.count(alloc, &mut site, acks, &txs, last)
}

// Which places a new cursor of the queue gives from page 1 on, up to an error.
fn given(
    alloc: Global,
    acks: &Acks,
    queue: u32,
    pages: &[&[u8]],
    places: &mut Vec<Place>,
) -> Result<bool, Fault> {
    given_from(alloc, acks, queue, 0, 1, pages, places)
}

// Which places it gives from page `first` on, where the pages stand behind page `before`.
pub(crate) fn given_from(
    alloc: Global,
    acks: &Acks,
    queue: u32,
    before: u64,
    first: u64,
    pages: &[&[u8]],
    places: &mut Vec<Place>,
) -> Result<bool, Fault>
    requires { before < first }
{
    let mut site = MemSite::new(alloc);
    let last = put_pages(&mut site, before, pages)?;
    let cursor = Subscription::new(alloc, queue, 3, first);
    take_all(alloc, &mut site, cursor, acks, last, places)
}

// Whether the place is that of a frame for the queue.
fn is_of(queue: u32, place: &Place) -> bool {
    let index = place.position.index;
    index % 2 == queue.saturating_sub(1) && place.offset == 9 + u64::from(index) * 40
}

// Whether these are places of the queue that aren't acknowledged, each behind the one before, and so many.
fn are_open(acks: &Acks, queue: u32, places: &[Place], count: usize) -> bool {
    let mut before = (0, 0);
    for place in places {
        let position = (place.position.page, place.position.index.saturating_add(1));
        if !is_of(queue, place) || acks.contains(queue, place.position) || position <= before {
            return false;
        }
        before = position;
    }
    places.len() == count
}

// Whether so many places are left for the queue: they are counted, and a new cursor gives them.
fn are_left(
    alloc: Global,
    acks: &Acks,
    queue: u32,
    pages: &[&[u8]],
    count: usize,
) -> Result<bool, Fault> {
    let mut places = Vec::new(alloc);
    let all = given(alloc, acks, queue, pages, &mut places)?;
    let number = counted(alloc, acks, queue, pages)?;
    Ok(all && number == count as u64 && are_open(acks, queue, places.as_slice(), count))
}

// In which order places are acknowledged.
#[derive(Clone, Copy)]
enum Order {
    Ascending,
    Descending,
    // Shuffled by a generator with this seed.
    Random(u64),
}

// Puts the places in that order.
fn arrange(places: &mut [Place], order: Order) {
    match order {
        Order::Ascending => {}
        Order::Descending => places.reverse(),
        Order::Random(seed) => shuffle(places, &mut Pcg32::new(seed, 17)),
    }
}

fn shuffle(places: &mut [Place], rng: &mut Pcg32) {
    let count = places.len();
    for place in 0..count {
        let other = rng.next_u32() as usize % count;
        places.swap(place, other);
    }
}

// Acknowledges the places at the queue.
fn acknowledge(acks: &mut Acks, queue: u32, places: &[Place]) -> Result<(), AllocError> {
    for place in places {
        acks.add(queue, place.position)?;
    }
    Ok(())
}

// Whether a queue is drained in two halves that are acknowledged in this order, beside another queue.
fn is_drained(alloc: Global, pages: &[&[u8]], count: usize, order: Order) -> Result<bool, Fault> {
    let mut acks = Acks::new(alloc);
    let mut places = Vec::new(alloc);
    if !given(alloc, &acks, 1, pages, &mut places)? || !are_open(&acks, 1, &places, count) {
        return Ok(false);
    }
    arrange(&mut places, order);
    let (first, second) = places.split_at(places.len() / 2);
    acknowledge(&mut acks, 1, first)?;
    let half = are_left(alloc, &acks, 1, pages, second.len())?;
    acknowledge(&mut acks, 1, second)?;
    Ok(half && are_left(alloc, &acks, 1, pages, 0)? && are_left(alloc, &acks, 2, pages, count)?)
}

// The first case of so many pages with so many frames each, and an empty one behind them, in which a queue isn't drained.
fn wrong_drain(alloc: Global) -> Result<Option<usize>, Fault> {
    let cases: [(u32, u32, Order); 6] = [
        (1, 2, Order::Ascending),
        (3, 4, Order::Descending),
        (7, 10, Order::Random(1)),
        (30, 34, Order::Descending),
        (30, 34, Order::Random(2)),
        (300, 34, Order::Random(3)),
    ];
    for (number, case) in cases.iter().enumerate() {
        let bytes = in_turn(alloc, case.1)?;
        let mut pages: Vec<&[u8]> = Vec::new(alloc);
        for _ in 0..case.0 {
            pages.push(bytes.as_slice()).map_err(AllocError::from)?;
        }
        pages.push(b"\0").map_err(AllocError::from)?;
        let count = case.0 as usize * (case.1 as usize / 2);
        if !is_drained(alloc, pages.as_slice(), count, case.2)? {
            return Ok(Some(number));
        }
    }
    Ok(None)
}

#[test]
fn a_queue_is_drained_over_many_pages(rt: HostRuntime) -> Result<(), Fail> {
    assert!(rt; wrong_drain(rt.alloc())? == None);
    Ok(())
}
