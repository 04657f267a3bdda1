// Two addresses: the first one pages, and the second one has no page.
ghost use Rattle.std.specs.Prelude.{◌≡◌, ◌≤◌, ℕ, length, Some, IfOk, OnOk};
ghost use Rattle.pg_disk.specs.Image.{IsFileThere};
ghost use Rattle.pg_disk.specs.Sites.{OnFiles};
ghost use Rattle.pg_page.specs.Pages.{page_file};
ghost use Rattle.pg_store.specs.Every.{AreReady};
ghost use Rattle.pg_store.specs.Pages.{HasNoneFrom, IsLast, states_of};

use crate::sends::is_at;
use pg_bytes::Octets;
use pg_disk::{Disk, Failed, Fault, FileId, Kind, MemSite};
use pg_page::Place;
use pg_store::Stores;
use std::alloc::Global;
use std::test::Fail;

fn file(owner: u32, number: u64) -> FileId {
    FileId {
        kind: Kind::Page,
        owner,
        number,
    }
}

// Makes page 1 of the address 1, with one payload of two bytes.
fn make_first<D: Disk>(disk: &mut D) -> Result<(), Failed>
    requires { OnFiles D.Disk disk.old (λ files. HasNoneFrom 1 (states_of files 1) × HasNoneFrom 4 (states_of files 2)) }
    ensures there { OnOk result (OnFiles D.Disk disk.new (IsFileThere (page_file 1 1))) }
    ensures behind { OnOk result (OnFiles D.Disk disk.new (λ files.
        HasNoneFrom 2 (states_of files 1) × HasNoneFrom 4 (states_of files 2))) }
{
    let page = FileId {
        kind: Kind::Page,
        owner: 1,
        number: 1,
    };
    disk.create(page)?;
    disk.write(page, 0, b"\x01\0\0\0\0\0\0\0\x02\x05\x05\0")?;
    disk.sync(page)?;
    Ok(())
}

// Opens the address 1 with its page 1, and adds the address 2, whose first page is 4.
fn open_two<D: Disk>(alloc: Global, disk: &mut D) -> Result<Stores, Fault>
    requires { OnFiles D.Disk disk.old (λ files. IsLast 1 (Some 1) (states_of files 1) × HasNoneFrom 4 (states_of files 2)) }
    ensures count { IfOk result (λ stores. length stores ≡ 2) }
    ensures ready { IfOk result (λ stores. OnFiles D.Disk disk.new (AreReady stores)) }
{
    let mut stores = Stores::new(alloc);
    stores.open_next(alloc, disk, 1, 1, Some(1))?;
    stores.add(2, 4)?;
    Ok(stores)
}

// An address, a frame of so many bytes, the page size, and the page, the index and the offset of its place.
type Send = (bool, usize, u64, (u64, u32, u64));

// Adds a frame of so many bytes at the second address, or at the first.
fn send<D: Disk>(
    alloc: Global,
    disk: &mut D,
    stores: Stores,
    one: Send,
) -> Result<(Stores, Place), Fault>
    requires count { length stores ≡ 2 }
    requires ready { OnFiles D.Disk disk.old (AreReady stores) }
    ensures count { IfOk result (λ done. length done.0 ≡ 2) }
    ensures ready { IfOk result (λ done. OnFiles D.Disk disk.new (AreReady done.0)) }
{
    let payload = Octets::from_slice(alloc, &vec![in alloc; 5; one.1]?)?;
    let address = if one.0 { 2 } else { 1 };
    let (next, place) = stores.page(alloc, disk, address, &payload, one.2.min(1_000_000_000))?;
    Ok((next, place))
}

// Whether these are the last pages of the two addresses, whose first ones are 1 and 4.
fn have_lasts(stores: &Stores, first: Option<u64>, second: Option<u64>) -> bool
    requires { length stores.now ≡ 2 }
{
    stores.len() == 2
        && stores.first(1) == 1
        && stores.first(2) == 4
        && stores.last(1) == first
        && stores.last(2) == second
}

// The first frame that goes to another place, or at which an address has another last page: that of the frame's address
// is the frame's page, and the other one's stays.
fn wrong_send<D: Disk>(alloc: Global, disk: &mut D, sends: &[Send]) -> Result<Option<usize>, Fault>
    requires { OnFiles D.Disk disk.old (λ files. IsLast 1 (Some 1) (states_of files 1) × HasNoneFrom 4 (states_of files 2)) }
{
    let mut stores = open_two(alloc, disk)?;
    let mut lasts: (Option<u64>, Option<u64>) = (Some(1), None);
    let mut number: usize = 0;
    'sends: for one in sends {
        if !have_lasts(&stores, lasts.0, lasts.1) {
            return Ok(Some(number));
        }
        let (next, place) = send(alloc, disk, stores, *one)?;
        stores = next;
        if one.0 {
            lasts.1 = Some(one.3.0);
        } else {
            lasts.0 = Some(one.3.0);
        }
        if !is_at(place, one.3) || !have_lasts(&stores, lasts.0, lasts.1) {
            return Ok(Some(number));
        }
        number = number.saturating_add(1);
    }
    Ok(None)
}

// Whether these frames go to their places, and the pages 1 and 2 of the address 1 and 4 and 5 of the address 2 have so
// many bytes then, or aren't there.
fn are_sent(alloc: Global, sends: &[Send], lengths: [Option<usize>; 4]) -> Result<bool, Fault> {
    let mut site = MemSite::new(alloc);
    make_first(&mut site)?;
    let wrong = wrong_send(alloc, &mut site, sends)?;
    let pages = [file(1, 1), file(1, 2), file(2, 4), file(2, 5)];
    for (page, length) in pages.iter().zip(&lengths) {
        if site.bytes(*page).map(|bytes| bytes.len()) != *length {
            return Ok(false);
        }
    }
    Ok(wrong.is_none() && site.bytes(file(2, 1)).is_none())
}

// The first case in which a frame goes to another place. The page that is there has 12 bytes: a frame of 35 ends at 56 of
// the page size 100, the next one at 100, and one of 1 byte goes to a new page.
fn wrong_case(alloc: Global) -> Result<Option<usize>, Fault> {
    let mixed: [Send; 6] = [
        (true, 35, 100, (4, 0, 9)),
        (false, 35, 100, (1, 1, 20)),
        (false, 35, 100, (1, 2, 64)),
        (true, 46, 100, (4, 1, 53)),
        (false, 1, 100, (2, 0, 9)),
        (true, 1, 100, (5, 0, 9)),
    ];
    let first: [Send; 1] = [(false, 79, 100, (1, 1, 20))];
    let second: [Send; 2] = [(true, 200, 100, (4, 0, 9)), (true, 35, 100, (5, 0, 9))];
    let cases: [(&[Send], [Option<usize>; 4]); 4] = [
        (&[], [Some(12), None, None, None]),
        (&mixed, [Some(100), Some(11), Some(100), Some(11)]),
        (&first, [Some(100), None, None, None]),
        (&second, [Some(12), None, Some(210), Some(45)]),
    ];
    for (number, case) in cases.iter().enumerate() {
        if !are_sent(alloc, case.0, case.1)? {
            return Ok(Some(number));
        }
    }
    Ok(None)
}

#[test]
fn a_frame_of_one_address_leaves_the_other(rt: HostRuntime) -> Result<(), Fail> {
    assert!(rt; wrong_case(rt.alloc())? == None);
    Ok(())
}

// Whether the frame finds no space at an address whose first page is numbered above 2^62.
fn is_spent<D: Disk>(alloc: Global, disk: &mut D) -> Result<bool, Fault>
    requires { OnFiles D.Disk disk.old (λ files. HasNoneFrom 4611686018427387905 (states_of files 1)) }
{
    let mut stores = Stores::new(alloc);
    stores.add(1, 4_611_686_018_427_387_905)?;
    let payload = Octets::from_slice(alloc, b"\x05")?;
    match stores.page(alloc, disk, 1, &payload, 100) {
        Err(Fault::Spent) => Ok(true),
        _ => Ok(false),
    }
}

// The same, without a call of the disk.
fn is_spent_without_a_call(alloc: Global) -> Result<bool, Fault> {
    let mut site = MemSite::new(alloc);
    Ok(is_spent(alloc, &mut site)? && site.calls() == 0)
}

#[test]
fn no_first_page_is_numbered_above_the_greatest(rt: HostRuntime) -> Result<(), Fail> {
    assert!(rt; is_spent_without_a_call(rt.alloc())?);
    Ok(())
}
