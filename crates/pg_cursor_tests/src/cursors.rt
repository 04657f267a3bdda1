// Which places a cursor gives, one after the other.
ghost use Rattle.std.specs.Prelude.{◌≡◌, ℕ, None, OnOk, IfOk, IfSome};
ghost use Rattle.std.specs.FinMap.{get};
ghost use Rattle.pg_disk.specs.Image.{IsFileThere};
ghost use Rattle.pg_disk.specs.Sites.{OnFiles};
ghost use Rattle.pg_page.specs.Pages.{page_file};
ghost use Rattle.pg_cursor.specs.Places.{HasPlace, page_of};
ghost use Rattle.pg_cursor.specs.Walking.{AreThere, OnPages, TailStands};

use pg_acks::{Acks, Position};
use pg_cursor::Subscription;
use pg_disk::{Disk, Failed, Fault, FileId, Kind, MemSite};
use pg_page::Place;
use pg_pagetx::PageTxs;
use std::alloc::{AllocError, Global};
use std::test::Fail;

// The page with three frames.
const FULL: FileId = FileId {
    kind: Kind::Page,
    owner: 3,
    number: 7,
};

// The page behind it.
const EMPTY: FileId = FileId {
    kind: Kind::Page,
    owner: 3,
    number: 8,
};

// Frames for the queues 1, 2 and 1 of the messages 1-1, 1-2 and 1-3: 31 bytes each, so that each batch has 40.
const PAGE: &[u8] = b"\x01\0\0\0\0\0\0\0\x1f\
      \x01\0\0\0\0\0\0\0\0\0\x01\0\0\0\x01\0\0\0\x01\0\0\0\x01\x01\0\0\0\0\0\x01x\
      \x01\0\0\0\0\0\0\0\x1f\
      \x01\0\0\0\0\0\0\0\0\0\x01\0\0\0\x02\0\0\0\x01\0\0\0\x02\x01\0\0\0\0\0\x01x\
      \x01\0\0\0\0\0\0\0\x1f\
      \x01\0\0\0\0\0\0\0\0\0\x01\0\0\0\x01\0\0\0\x01\0\0\0\x03\x01\0\0\0\0\0\x01x\0";

// Makes page 7 of the address 3 with these frames, and behind it the empty page 8.
fn make<D: Disk>(disk: &mut D) -> Result<(), Failed>
    requires { OnFiles D.Disk disk.old (λ files. (page : ℕ) → get files (page_file 3 page) ≡ None) }
    ensures full { OnOk result (OnFiles D.Disk disk.new (IsFileThere (page_file 3 7))) }
    ensures empty { OnOk result (OnFiles D.Disk disk.new (IsFileThere (page_file 3 8))) }
{
    disk.create(EMPTY)?;
    disk.create(FULL)?;
    disk.write(FULL, 0, PAGE)?;
    disk.sync(FULL)?;
    Ok(())
}

// The places of the three frames.
const FIRST: Option<Place> = Some(Place {
    position: Position { page: 7, index: 0 },
    offset: 9,
});

const SECOND: Option<Place> = Some(Place {
    position: Position { page: 7, index: 1 },
    offset: 49,
});

const THIRD: Option<Place> = Some(Place {
    position: Position { page: 7, index: 2 },
    offset: 89,
});

// What becomes of a place that is given.
#[derive(Clone, Copy)]
enum Then {
    Kept,
    PutBack,
    Acknowledged,
}

// What is given, and what becomes of it.
type Step = (Option<Place>, Then);

// Does that with a taken place of the queue, if there is one.
fn settle(
    cursor: &mut Subscription,
    acks: &mut Acks,
    queue: u32,
    place: Option<Place>,
    then: Then,
) -> Result<(), AllocError>
    requires { IfSome place (HasPlace cursor.old.taken) }
    ensures address { cursor.new.address ≡ cursor.old.address }
    ensures tail { cursor.new.tail ≡ cursor.old.tail }
{
    let Some(place) = place else {
        return Ok(());
    };
    match then {
        Then::Kept => Ok(()),
        Then::PutBack => cursor.put_back(place),
        Then::Acknowledged => {
            acks.add(queue, place.position)?;
            cursor.remove(place);
            Ok(())
        }
    }
}

// Makes one step. None: another place is given.
fn make_step<D: Disk>(
    alloc: Global,
    disk: &mut D,
    cursor: Subscription,
    acks: &mut Acks,
    queue: u32,
    step: Step,
) -> Result<Option<Subscription>, Fault>
    requires there { OnFiles D.Disk disk.old (AreThere cursor.address (page_of cursor.tail) 8) }
    requires stands { OnPages D.Disk disk.old cursor.address (TailStands cursor.tail) }
    ensures there { IfOk result (λ done. IfSome done (λ next.
        OnFiles D.Disk disk.new (AreThere next.address (page_of next.tail) 8))) }
    ensures stands { IfOk result (λ done. IfSome done (λ next.
        OnPages D.Disk disk.new next.address (TailStands next.tail))) }
{
    let txs = PageTxs::new(alloc);
    let (mut next, given) = cursor.next_ready(alloc, disk, acks, &txs, 8)?;
    if given != step.0 {
        return Ok(None);
    }
    settle(&mut next, acks, queue, given, step.1)?;
    Ok(Some(next))
}

// The first step at which the cursor gives another place.
fn wrong_step<D: Disk>(
    alloc: Global,
    disk: &mut D,
    cursor: Subscription,
    acks: &mut Acks,
    queue: u32,
    steps: &[Step],
) -> Result<Option<usize>, Fault>
    requires there { OnFiles D.Disk disk.old (AreThere cursor.address (page_of cursor.tail) 8) }
    requires stands { OnPages D.Disk disk.old cursor.address (TailStands cursor.tail) }
{
    let mut cursor = cursor;
    let mut number: usize = 0;
    'steps: for step in steps {
        let Some(next) = make_step(alloc, disk, cursor, acks, queue, *step)? else {
            return Ok(Some(number));
        };
        cursor = next;
        number = number.saturating_add(1);
    }
    Ok(None)
}

// Whether a new cursor of the queue gives so.
fn is_given(alloc: Global, acks: &mut Acks, queue: u32, steps: &[Step]) -> Result<bool, Fault> {
    let mut site = MemSite::new(alloc);
    make(&mut site)?;
    let cursor = Subscription::new(alloc, queue, 3, 7);
    let wrong = wrong_step(alloc, &mut site, cursor, acks, queue, steps)?;
    Ok(wrong.is_none())
}

// The same, and then of another new one, with what is acknowledged by then.
fn are_given(alloc: Global, queue: u32, steps: &[Step], again: &[Step]) -> Result<bool, Fault> {
    let mut acks = Acks::new(alloc);
    let first = is_given(alloc, &mut acks, queue, steps)?;
    Ok(first && is_given(alloc, &mut acks, queue, again)?)
}

// The first case in which a cursor gives otherwise: places that are kept, one that is put back before a later one,
// the last and the first one acknowledged, and queues with one frame and with none.
fn wrong_case(alloc: Global) -> Result<Option<usize>, Fault> {
    let all: [Step; 3] = [(FIRST, Then::Kept), (THIRD, Then::Kept), (None, Then::Kept)];
    let back: [Step; 5] = [
        (FIRST, Then::PutBack),
        (FIRST, Then::Kept),
        (THIRD, Then::PutBack),
        (THIRD, Then::Acknowledged),
        (None, Then::Kept),
    ];
    let one: [Step; 2] = [(FIRST, Then::Kept), (None, Then::Kept)];
    let later: [Step; 2] = [(THIRD, Then::Kept), (None, Then::Kept)];
    let other: [Step; 2] = [(SECOND, Then::Acknowledged), (None, Then::Kept)];
    let none: [Step; 1] = [(None, Then::Kept)];
    let cases: [(u32, &[Step], &[Step]); 5] = [
        (1, &all, &all),
        (1, &back, &one),
        (1, &[(FIRST, Then::Acknowledged)], &later),
        (2, &other, &none),
        (3, &none, &none),
    ];
    for (number, case) in cases.iter().enumerate() {
        if !are_given(alloc, case.0, case.1, case.2)? {
            return Ok(Some(number));
        }
    }
    Ok(None)
}

#[test]
fn a_cursor_gives_the_places_of_its_queue(rt: HostRuntime) -> Result<(), Fail> {
    assert!(rt; wrong_case(rt.alloc())? == None);
    Ok(())
}
