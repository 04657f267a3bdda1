// From frame to frame over the pages of an address.
ghost use Rattle.std.specs.Prelude.{◌≡◌, ◌≤◌, ◌<◌, ◌+◌, ◌^◌, ◌⊎◌, ◌↔◌, true, ℕ, Some, None, IsTrue, IfOk, IfErr, IfSome, IfNone};
ghost use Rattle.pg_disk.specs.Calls.{Reads};
ghost use Rattle.pg_disk.specs.Counts.{CountsFault};
ghost use Rattle.pg_disk.specs.Image.{IsFileThere, Leaves};
ghost use Rattle.pg_disk.specs.Moments.{Within};
ghost use Rattle.pg_disk.specs.Sites.{OnFiles, Steps};
ghost use Rattle.pg_disk.specs.Sites.{OnAccounts};
ghost use Rattle.pg_page.specs.Faults.{BreaksOn, IsPageFault};
ghost use Rattle.pg_page.specs.Places.{ReadsFew};
ghost use Rattle.pg_cursor.specs.Ways.{OnReads, ReadsAlong, ReadsAt, StepReads};
ghost use Rattle.pg_page.specs.Pages.{page_file};
ghost use Rattle.pg_cursor.specs.Entries.{FrameCounts, IsLive, StandsOn, names};
ghost use Rattle.pg_cursor.specs.Places.{IsNoEarlier, page_of};
ghost use Rattle.pg_cursor.specs.Walking.{AreThere, IsAtEnd, IsDamageIn, IsNext, IsOnward, IsStep, OnPages, StepsOn};
ghost use Rattle.pg_cursor.specs.Walking.{TailStands, Walks};
ghost use Rattle.pg_cursor.specs.declared.tail.Tail.TheVariants.{Begin, Behind};
ghost use Rattle.pg_cursor.specs.declared.walking.Step.TheVariants.{Passes, Stays};

use crate::tail::Tail;
use pg_acks::Acks;
use pg_disk::{Disk, Fault};
use pg_page::{Frame, Place, first_place, next_place, read_frame};
use pg_pagetx::{PageTxs, Standing};
use std::alloc::Global;

// What one step of a walk comes to.
pub(crate) enum Step {
    // All is passed.
    Stays,
    // The tail moves on, and nothing is found.
    Passes(Tail),
    // The place is found, and the tail moves on behind it.
    Finds(Place),
}

// The page that the tail stands on.
pub(crate) fn page_of(tail: Tail) -> u64
    ensures { result ≡ page_of tail }
{
    match tail {
        Tail::Begin(page) => page,
        Tail::Behind(place) => place.position.page,
    }
}

// The place of the page's first frame, or none where it has none.
fn first_on_page<D: Disk>(disk: &mut D, address: u32, page: u64) -> Result<Option<Place>, Fault>
    requires { OnFiles D.Disk disk.old (IsFileThere (page_file address page)) }
    ensures next { IfOk result (λ next. OnPages D.Disk disk.old address (IsNext (Begin page) next)) }
    ensures taken { OnAccounts D.Disk disk.old disk.new (ReadsFew 18) }
    ensures same { (n : ℕ) × Steps D.Disk disk.old disk.new (Reads n) }
    ensures any_moment { Within D.Disk disk.old disk.new Leaves }
    ensures damaged { IfErr result (IsPageFault (page_file address page)
        (BreaksOn D.Disk disk.old (page_file address page))) }
    ensures cause { CountsFault (D.faults disk.old) (D.faults disk.new) result }
{
    first_place(disk, address, page)
}

// The place of the frame behind the tail on its page, or none where the tail has passed all of them.
fn next_on_page<D: Disk>(disk: &mut D, address: u32, tail: Tail) -> Result<Option<Place>, Fault>
    requires there { OnFiles D.Disk disk.old (IsFileThere (page_file address (page_of tail))) }
    requires stands { OnPages D.Disk disk.old address (TailStands tail) }
    ensures next { IfOk result (λ next. OnPages D.Disk disk.old address (IsNext tail next)) }
    ensures taken { OnAccounts D.Disk disk.old disk.new (ReadsFew 18) }
    ensures same { (n : ℕ) × Steps D.Disk disk.old disk.new (Reads n) }
    ensures any_moment { Within D.Disk disk.old disk.new Leaves }
    ensures damaged { IfErr result (IsPageFault (page_file address (page_of tail))
        (BreaksOn D.Disk disk.old (page_file address (page_of tail)))) }
    ensures cause { CountsFault (D.faults disk.old) (D.faults disk.new) result }
{
    match tail {
        Tail::Begin(page) => first_on_page(disk, address, page),
        Tail::Behind(after) => next_place(disk, address, after),
    }
}

// The place, unless it isn't behind the tail on its page. On an honest disk it always is.
fn if_onward(tail: Tail, next: Option<Place>) -> Option<Place>
    ensures onward { IfSome result (IsOnward tail) }
    ensures few { IfSome result (λ place. place.position.index < 2 ^ 32) }
    ensures given { IfSome result (λ place. next ≡ Some place) }
    ensures same { IfSome next (λ place. IsOnward tail place → result ≡ Some place) }
{
    let place = next?;
    let onward = match tail {
        Tail::Begin(page) => place.position.page == page,
        Tail::Behind(after) => {
            place.position.page == after.position.page
                && place.position.index > after.position.index
        }
    };
    if onward { Some(place) } else { None }
}

// Whether the frame belongs to no transaction, or to one that is committed.
fn counts(txs: &PageTxs, frame: &Frame) -> bool
    ensures { IsTrue result ↔ FrameCounts txs.now frame.now.tx }
{
    match frame.tx {
        None => true,
        Some(tx) => txs.standing(tx) == Standing::Counts,
    }
}

// Whether the frame names the queue.
fn is_named(queue: u32, frame: &Frame) -> bool
    ensures { result ≡ names queue frame.now }
{
    frame.queues.as_slice().contains(&queue)
}

// Whether the frame names the queue and counts.
fn is_entry(queue: u32, txs: &PageTxs, frame: &Frame) -> bool
    ensures { IsTrue result ↔ ((names queue frame.now ≡ true) × FrameCounts txs.now frame.now.tx) }
{
    is_named(queue, frame) && counts(txs, frame)
}

// Whether the frame at the place names the queue, counts and isn't acknowledged. One that is acknowledged isn't read.
fn is_live<D: Disk>(
    alloc: Global,
    disk: &mut D,
    queue: u32,
    address: u32,
    acks: &Acks,
    txs: &PageTxs,
    place: Place,
) -> Result<bool, Fault>
    requires there { OnFiles D.Disk disk.old (IsFileThere (page_file address place.position.page)) }
    requires stands { OnPages D.Disk disk.old address (λ pages. StandsOn pages place) }
    ensures live { IfOk result (λ live. OnPages D.Disk disk.old address (λ pages.
        IsTrue live ↔ IsLive queue acks.now txs.now pages place)) }
    ensures taken { IfOk result (λ _. OnReads D.Disk disk.old disk.new address (ReadsAt place)) }
    ensures same { (n : ℕ) × Steps D.Disk disk.old disk.new (Reads n) }
    ensures any_moment { Within D.Disk disk.old disk.new Leaves }
    ensures damaged { IfErr result (IsPageFault (page_file address place.position.page)
        (BreaksOn D.Disk disk.old (page_file address place.position.page))) }
    ensures cause { CountsFault (D.faults disk.old) (D.faults disk.new) result }
{
    if acks.contains(queue, place.position) {
        return Ok(false);
    }
    let frame = read_frame(alloc, disk, address, place)?;
    Ok(is_entry(queue, txs, &frame))
}

// One step of a walk from the tail.
pub(crate) fn one_step<D: Disk>(
    alloc: Global,
    disk: &mut D,
    queue: u32,
    address: u32,
    acks: &Acks,
    txs: &PageTxs,
    tail: Tail,
    last: u64,
) -> Result<Step, Fault>
    requires there { OnFiles D.Disk disk.old (AreThere address (page_of tail) last) }
    requires stands { OnPages D.Disk disk.old address (TailStands tail) }
    ensures walks { IfOk result (λ step. OnPages D.Disk disk.old address (IsStep queue acks.now txs.now last tail step)) }
    ensures onward { IfOk result (StepsOn last tail) }
    ensures taken { IfOk result (λ step. OnReads D.Disk disk.old disk.new address (StepReads tail step)) }
    ensures same { (n : ℕ) × Steps D.Disk disk.old disk.new (Reads n) }
    ensures any_moment { Within D.Disk disk.old disk.new Leaves }
    ensures damaged { IfErr result (IsDamageIn D.Disk disk.old address (page_of tail) last) }
    ensures cause { CountsFault (D.faults disk.old) (D.faults disk.new) result }
{
    let page = page_of(tail);
    if page > last {
        return Ok(Step::Stays);
    }
    let next = next_on_page(disk, address, tail)?;
    match if_onward(tail, next) {
        None => Ok(turn(page, last)),
        Some(place) => {
            if is_live(alloc, disk, queue, address, acks, txs, place)? {
                Ok(Step::Finds(place))
            } else {
                Ok(Step::Passes(Tail::Behind(place)))
            }
        }
    }
}

// At the end of a page: to the beginning of the next one, or nowhere on the last one, which may still grow.
fn turn(page: u64, last: u64) -> Step
    requires { page ≤ last }
    ensures { ((page < last) × (result ≡ Passes (Begin (page + 1)))) ⊎ ((page ≡ last) × (result ≡ Stays)) }
{
    if page < last {
        Step::Passes(Tail::Begin(page + 1))
    } else {
        Step::Stays
    }
}

// Walks from the tail to the first place that names the queue, counts and isn't acknowledged, or to the end.
pub(crate) fn walk<D: Disk>(
    alloc: Global,
    disk: &mut D,
    queue: u32,
    address: u32,
    acks: &Acks,
    txs: &PageTxs,
    from: Tail,
    last: u64,
) -> Result<(Tail, Option<Place>), Fault>
    requires there { OnFiles D.Disk disk.old (AreThere address (page_of from) last) }
    requires stands { OnPages D.Disk disk.old address (TailStands from) }
    ensures walked { IfOk result (λ walked. OnPages D.Disk disk.old address
        (Walks queue acks.now txs.now from walked.0 walked.1)) }
    ensures end { IfOk result (λ walked. IfNone walked.1 (OnPages D.Disk disk.old address
        (IsAtEnd queue acks.now txs.now last walked.0))) }
    ensures later { IfOk result (λ walked. IsNoEarlier from walked.0) }
    ensures taken { IfOk result (λ walked. OnReads D.Disk disk.old disk.new address (ReadsAlong 18 from walked.0)) }
    ensures same { (n : ℕ) × Steps D.Disk disk.old disk.new (Reads n) }
    ensures any_moment { Within D.Disk disk.old disk.new Leaves }
    ensures damaged { IfErr result (IsDamageIn D.Disk disk.old address (page_of from) last) }
    ensures cause { CountsFault (D.faults disk.old) (D.faults disk.new) result }
{
    let mut tail = from;
    'frames: loop {
        match one_step(alloc, disk, queue, address, acks, txs, tail, last)? {
            Step::Stays => return Ok((tail, None)),
            Step::Passes(next) => tail = next,
            Step::Finds(place) => return Ok((Tail::Behind(place), Some(place))),
        }
    }
}
