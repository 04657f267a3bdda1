// Two cursors of one address, each of its own queue.
ghost use Rattle.std.specs.Prelude.{IfOk};
ghost use Rattle.pg_disk.specs.Sites.{OnFiles};
ghost use Rattle.pg_cursor.specs.Places.{page_of};
ghost use Rattle.pg_cursor.specs.Walking.{AreThere, OnPages, TailStands};

use crate::drains::{in_turn, put_pages};
use crate::pages::{At, place_at};
use pg_acks::Acks;
use pg_cursor::Subscription;
use pg_disk::{Disk, Fault, MemSite};
use pg_page::Place;
use pg_pagetx::PageTxs;
use std::alloc::Global;
use std::test::Fail;

// Whose turn it is.
#[derive(Clone, Copy)]
enum Turn {
    First,
    Second,
}

// Whose turn it is, and the position that is given then.
type Step = (Turn, Option<At>);

// Takes the next place of the first cursor.
fn give_first<D: Disk>(
    alloc: Global,
    disk: &mut D,
    first: Subscription,
    second: Subscription,
    last: u64,
) -> Result<(Subscription, Subscription, Option<Place>), Fault>
    requires first_there { OnFiles D.Disk disk.old (AreThere first.address (page_of first.tail) last) }
    requires first_stands { OnPages D.Disk disk.old first.address (TailStands first.tail) }
    requires second_there { OnFiles D.Disk disk.old (AreThere second.address (page_of second.tail) last) }
    requires second_stands { OnPages D.Disk disk.old second.address (TailStands second.tail) }
    ensures first_there { IfOk result (λ done.
        OnFiles D.Disk disk.new (AreThere done.0.address (page_of done.0.tail) last)) }
    ensures first_stands { IfOk result (λ done. OnPages D.Disk disk.new done.0.address (TailStands done.0.tail)) }
    ensures second_there { IfOk result (λ done.
        OnFiles D.Disk disk.new (AreThere done.1.address (page_of done.1.tail) last)) }
    ensures second_stands { IfOk result (λ done. OnPages D.Disk disk.new done.1.address (TailStands done.1.tail)) }
{
    let acks = Acks::new(alloc);
    let txs = PageTxs::new(alloc);
    let (first, place) = first.next_ready(alloc, disk, &acks, &txs, last)?;
    Ok((first, second, place))
}

// Takes the next place of the cursor whose turn it is.
fn give_in_turn<D: Disk>(
    alloc: Global,
    disk: &mut D,
    first: Subscription,
    second: Subscription,
    turn: Turn,
    last: u64,
) -> Result<(Subscription, Subscription, Option<Place>), Fault>
    requires first_there { OnFiles D.Disk disk.old (AreThere first.address (page_of first.tail) last) }
    requires first_stands { OnPages D.Disk disk.old first.address (TailStands first.tail) }
    requires second_there { OnFiles D.Disk disk.old (AreThere second.address (page_of second.tail) last) }
    requires second_stands { OnPages D.Disk disk.old second.address (TailStands second.tail) }
    ensures first_there { IfOk result (λ done.
        OnFiles D.Disk disk.new (AreThere done.0.address (page_of done.0.tail) last)) }
    ensures first_stands { IfOk result (λ done. OnPages D.Disk disk.new done.0.address (TailStands done.0.tail)) }
    ensures second_there { IfOk result (λ done.
        OnFiles D.Disk disk.new (AreThere done.1.address (page_of done.1.tail) last)) }
    ensures second_stands { IfOk result (λ done. OnPages D.Disk disk.new done.1.address (TailStands done.1.tail)) }
{
    match turn {
        Turn::First => give_first(alloc, disk, first, second, last),
        Turn::Second => {
            let (second, first, place) = give_first(alloc, disk, second, first, last)?;
            Ok((first, second, place))
        }
    }
}

// Whether the two cursors give so.
fn are_given<D: Disk>(
    alloc: Global,
    disk: &mut D,
    first: Subscription,
    second: Subscription,
    steps: &[Step],
    last: u64,
) -> Result<bool, Fault>
    requires first_there { OnFiles D.Disk disk.old (AreThere first.address (page_of first.tail) last) }
    requires first_stands { OnPages D.Disk disk.old first.address (TailStands first.tail) }
    requires second_there { OnFiles D.Disk disk.old (AreThere second.address (page_of second.tail) last) }
    requires second_stands { OnPages D.Disk disk.old second.address (TailStands second.tail) }
{
    let mut first = first;
    let mut second = second;
    'steps: for step in steps {
        let (first_next, second_next, place) = give_in_turn(
            alloc, disk, first, second, step.0, last,
        )?;
        if place != step.1.map(place_at) {
            return Ok(false);
        }
        first = first_next;
        second = second_next;
    }
    Ok(true)
}

// Whether new cursors of the queues 1 and 2 give so over two pages of three frames.
fn is_case(alloc: Global, steps: &[Step]) -> Result<bool, Fault> {
    let mut site = MemSite::new(alloc);
    let three = in_turn(alloc, 3)?;
    let last = put_pages(&mut site, 0, &[three.as_slice(), three.as_slice()])?;
    let first = Subscription::new(alloc, 1, 3, 1);
    let second = Subscription::new(alloc, 2, 3, 1);
    are_given(alloc, &mut site, first, second, steps, last)
}

// The first case in which a cursor isn't unaffected by the other: either one goes to the end before the other one begins,
// or they take turns, or one of them is asked more often.
fn wrong_case(alloc: Global) -> Result<Option<usize>, Fault> {
    let one_first: [Step; 8] = [
        (Turn::First, Some((1, 0))),
        (Turn::First, Some((1, 2))),
        (Turn::First, Some((2, 0))),
        (Turn::First, Some((2, 2))),
        (Turn::First, None),
        (Turn::Second, Some((1, 1))),
        (Turn::Second, Some((2, 1))),
        (Turn::Second, None),
    ];
    let two_first: [Step; 8] = [
        (Turn::Second, Some((1, 1))),
        (Turn::Second, Some((2, 1))),
        (Turn::Second, None),
        (Turn::First, Some((1, 0))),
        (Turn::First, Some((1, 2))),
        (Turn::First, Some((2, 0))),
        (Turn::First, Some((2, 2))),
        (Turn::First, None),
    ];
    let in_turns: [Step; 8] = [
        (Turn::First, Some((1, 0))),
        (Turn::Second, Some((1, 1))),
        (Turn::First, Some((1, 2))),
        (Turn::Second, Some((2, 1))),
        (Turn::First, Some((2, 0))),
        (Turn::Second, None),
        (Turn::First, Some((2, 2))),
        (Turn::First, None),
    ];
    let cases: [&[Step]; 3] = [&one_first, &two_first, &in_turns];
    for (number, steps) in cases.iter().enumerate() {
        if !is_case(alloc, steps)? {
            return Ok(Some(number));
        }
    }
    Ok(None)
}

#[test]
fn two_cursors_of_an_address_are_apart(rt: HostRuntime) -> Result<(), Fail> {
    assert!(rt; wrong_case(rt.alloc())? == None);
    Ok(())
}
