// A page that is cut once a cursor has passed it.
ghost use Rattle.std.specs.Prelude.{◌<◌, ◌≤◌, ℕ, Some, IfOk, IfSome};
ghost use Rattle.pg_disk.specs.Account.{IsHonest};
ghost use Rattle.pg_disk.specs.Image.{IsFileThere};
ghost use Rattle.pg_disk.specs.MemSite.{account_of};
ghost use Rattle.pg_disk.specs.Views.{as_read};
ghost use Rattle.pg_page.specs.Pages.{page_file, pages_of};
ghost use Rattle.pg_cursor.specs.Places.{page_of};
ghost use Rattle.pg_cursor.specs.Walking.{AreThere, TailStands};

use crate::drains::{in_turn, put_pages, take_all};
use crate::pages::{At, are_at, shortened};
use pg_acks::Acks;
use pg_cursor::Subscription;
use pg_disk::{Fault, FileId, Kind, MemSite};
use pg_page::Place;
use pg_pagetx::PageTxs;
use std::alloc::{AllocError, Global};
use std::test::Fail;

// Page 1 of the address 3.
const FIRST: FileId = FileId {
    kind: Kind::Page,
    owner: 3,
    number: 1,
};

// A new cursor of the queue that has given its first place, and the place. None where that isn't behind page 1.
fn begin_behind(
    alloc: Global,
    site: &mut MemSite,
    queue: u32,
    last: u64,
) -> Result<Option<(Subscription, Place)>, Fault>
    requires honest { IsHonest (Some (account_of site.old)) }
    requires pages { (page : ℕ) → 0 < page → page ≤ last → IsFileThere (page_file 3 page) (account_of site.old).files }
    ensures there { IfOk result (λ done. IfSome done (λ begun.
        AreThere begun.0.address (page_of begun.0.tail) last (account_of site.new).files)) }
    ensures stands { IfOk result (λ done. IfSome done (λ begun.
        TailStands begun.0.tail (pages_of (as_read (account_of site.new).files) begun.0.address))) }
    ensures behind { IfOk result (λ done. IfSome done (λ begun. 1 < page_of begun.0.tail)) }
{
    let cursor = Subscription::new(alloc, queue, 3, 1);
    let acks = Acks::new(alloc);
    let txs = PageTxs::new(alloc);
    let (next, given) = cursor.next_ready(alloc, site, &acks, &txs, last)?;
    let Some(place) = given else {
        return Ok(None);
    };
    if place.position.page <= 1 {
        return Ok(None);
    }
    Ok(Some((next, place)))
}

// Which places of queue 2 are given where page 1, which has none, is cut to so many bytes after the first one. None
// where the cursor doesn't come to the end.
fn given_over(alloc: Global, length: usize) -> Result<Option<Vec<Place>>, Fault> {
    let mut site = MemSite::new(alloc);
    let one = in_turn(alloc, 1)?;
    let three = in_turn(alloc, 3)?;
    let pages: [&[u8]; 3] = [one.as_slice(), three.as_slice(), three.as_slice()];
    let last = put_pages(&mut site, 0, &pages)?;
    let mut places = Vec::new(alloc);
    let Some((cursor, place)) = begin_behind(alloc, &mut site, 2, last)? else {
        return Ok(None);
    };
    places.push(place).map_err(AllocError::from)?;
    site.put(FIRST, shortened(&one, length))?;
    let acks = Acks::new(alloc);
    let all = take_all(alloc, &mut site, cursor, &acks, last, &mut places)?;
    Ok(if all { Some(places) } else { None })
}

// The first length of a passed page with which the cursor doesn't go on: whole, within the payload, within the length.
fn wrong_length(alloc: Global) -> Result<Option<usize>, Fault> {
    let positions: [At; 2] = [(2, 1), (3, 1)];
    for length in [41, 20, 5] {
        let Some(places) = given_over(alloc, length)? else {
            return Ok(Some(length));
        };
        if !are_at(&places, &positions) {
            return Ok(Some(length));
        }
    }
    Ok(None)
}

#[test]
fn a_cursor_goes_on_where_a_page_that_it_passed_is_cut(rt: HostRuntime) -> Result<(), Fail> {
    assert!(rt; wrong_length(rt.alloc())? == None);
    Ok(())
}
