// Stores are opened over pages that are there.
ghost use Rattle.std.specs.Prelude.{◌+◌, Some, OnOk};
ghost use Rattle.pg_disk.specs.Image.{IsFileThere};
ghost use Rattle.pg_disk.specs.Sites.{OnFiles};
ghost use Rattle.pg_page.specs.Pages.{page_file};
ghost use Rattle.pg_store.specs.Pages.{HasNoneFrom, IsLast, states_of};

use crate::sends::{PICKS, Send, file, is_at, send};
use pg_disk::{Damage, Disk, Failed, Fault, FileId, Kind, MemSite, Pick, Rule};
use pg_store::Store;
use std::alloc::{AllocError, Global};
use std::test::Fail;

const FILE: FileId = FileId {
    kind: Kind::Page,
    owner: 3,
    number: 7,
};

// Makes the page of the address 3 with this number and these bytes.
fn make<D: Disk>(disk: &mut D, number: u64, bytes: &[u8]) -> Result<(), Failed>
    requires { OnFiles D.Disk disk.old (λ files. HasNoneFrom number (states_of files 3)) }
    ensures there { OnOk result (OnFiles D.Disk disk.new (IsFileThere (page_file 3 number))) }
    ensures behind { OnOk result (OnFiles D.Disk disk.new (λ files. HasNoneFrom (number + 1) (states_of files 3))) }
{
    let page = FileId {
        kind: Kind::Page,
        owner: 3,
        number,
    };
    disk.create(page)?;
    disk.write(page, 0, bytes)?;
    disk.sync(page)?;
    Ok(())
}

// Opens the address 3, whose last page is 7, and adds the frame. Whether it goes to its place.
fn open_and_send<D: Disk>(alloc: Global, disk: &mut D, one: Send) -> Result<bool, Fault>
    requires { OnFiles D.Disk disk.old (λ files. IsLast 1 (Some 7) (states_of files 3)) }
{
    match Store::open(alloc, disk, 3, 1, Some(7))? {
        Store::Paging(store) => {
            let opened = store.first() == 1 && store.last() == 7;
            let (_, place) = send(alloc, disk, store, one.0, one.1)?;
            Ok(opened && is_at(place, one.2))
        }
        Store::Normal(_) => Ok(false),
    }
}

// Whether the frame goes to its place where the last page has these bytes, and the page has those then.
fn is_opened(alloc: Global, bytes: &[u8], one: Send, after: &[u8]) -> Result<bool, Fault> {
    let mut site = MemSite::new(alloc);
    make(&mut site, 7, bytes)?;
    let is_right = open_and_send(alloc, &mut site, one)?;
    Ok(is_right && site.bytes(FILE) == Some(after))
}

// A page of one payload of two bytes, each 5, behind an open gate, and then a closed gate.
const ONE: &[u8] = b"\x01\0\0\0\0\0\0\0\x02\x05\x05\0";

// A page of two such payloads.
const TWO: &[u8] = b"\x01\0\0\0\0\0\0\0\x02\x05\x05\x01\0\0\0\0\0\0\0\x02\x05\x05\0";

// The first page over which a store is opened otherwise, where the pages 1 to 6 aren't there: of no byte, of one closed
// gate, of one payload with a byte behind its closed gate. The last frame is longer than the page size, and goes to the
// empty page all the same.
fn wrong_opening(alloc: Global) -> Result<Option<usize>, Fault> {
    let behind: &[u8] = b"\x01\0\0\0\0\0\0\0\x02\x05\x05\0\x01";
    let cases: [(&[u8], Send, &[u8]); 4] = [
        (b"", (2, 100, (7, 0, 9)), ONE),
        (b"\0", (2, 100, (7, 0, 9)), ONE),
        (behind, (2, 100, (7, 1, 20)), TWO),
        (b"\0", (2, 1, (7, 0, 9)), ONE),
    ];
    for (number, case) in cases.iter().enumerate() {
        if !is_opened(alloc, case.0, case.1, case.2)? {
            return Ok(Some(number));
        }
    }
    Ok(None)
}

#[test]
fn a_store_goes_on_behind_the_last_page(rt: HostRuntime) -> Result<(), Fail> {
    assert!(rt; wrong_opening(rt.alloc())? == None);
    Ok(())
}

// Whether opening tells that the last page is cut at its second gate.
fn is_told_cut<D: Disk>(alloc: Global, disk: &mut D) -> bool
    requires { OnFiles D.Disk disk.old (λ files. IsLast 1 (Some 7) (states_of files 3)) }
{
    let want = Damage {
        file: FILE,
        at: 11,
        rule: Rule::Cut,
    };
    match Store::open(alloc, disk, 3, 1, Some(7)) {
        Err(Fault::Damaged(damage)) => damage == want,
        _ => false,
    }
}

// The same of a page that ends within its second payload.
fn is_cut_told(alloc: Global) -> Result<bool, Fault> {
    let mut site = MemSite::new(alloc);
    make(&mut site, 7, TWO.get(..21).unwrap_or(b""))?;
    Ok(is_told_cut(alloc, &mut site))
}

#[test]
fn a_last_page_that_is_cut_is_told(rt: HostRuntime) -> Result<(), Fail> {
    assert!(rt; is_cut_told(rt.alloc())?);
    Ok(())
}

// Opens the address 3, whose last page is 7. Whether it pages.
fn pages<D: Disk>(alloc: Global, disk: &mut D) -> Result<bool, Fault>
    requires { OnFiles D.Disk disk.old (λ files. IsLast 1 (Some 7) (states_of files 3)) }
{
    match Store::open(alloc, disk, 3, 1, Some(7))? {
        Store::Paging(_) => Ok(true),
        Store::Normal(_) => Ok(false),
    }
}

// Whether the page has the payloads of these bytes, or none where there are no bytes: then it has one byte at most.
fn has_payloads(left: Option<&[u8]>, kept: &[u8]) -> bool {
    match left {
        Some(bytes) if kept.is_empty() => bytes.len() <= 1,
        Some(bytes) => bytes.starts_with(kept),
        None => false,
    }
}

// The first pick of which other payloads or other files are left within the call.
fn wrong_pick(site: &MemSite, stop: u64, kept: &[u8]) -> Result<Option<Pick>, AllocError> {
    if stop == 0 || stop > site.calls() {
        return Ok(Some(Pick::Old));
    }
    for pick in PICKS {
        let left = site.crash(stop, pick)?;
        let is_kept = has_payloads(left.bytes(file(7)), kept);
        if !is_kept || left.bytes(file(6)) != Some(ONE) || left.bytes(file(8)).is_some() {
            return Ok(Some(pick));
        }
    }
    Ok(None)
}

// The first call of an opening within which a stop leaves other payloads or files, where the pages are 6, of one payload,
// and 7, of these bytes. It is 0 where the address doesn't page or the opening makes no call.
fn wrong_stop(alloc: Global, bytes: &[u8], kept: &[u8]) -> Result<Option<u64>, Fault> {
    let mut site = MemSite::new(alloc);
    make(&mut site, 6, ONE)?;
    make(&mut site, 7, bytes)?;
    let made = site.calls();
    if !pages(alloc, &mut site)? || site.calls() <= made {
        return Ok(Some(0));
    }
    for before in made..site.calls() {
        let stop = before.saturating_add(1);
        if wrong_pick(&site, stop, kept)?.is_some() {
            return Ok(Some(stop));
        }
    }
    Ok(None)
}

// The first last page over which a stop within an opening leaves other payloads: of no byte, of one closed gate, of one
// open gate, of one payload, of one with a byte behind its closed gate, and of two.
fn wrong_page(alloc: Global) -> Result<Option<usize>, Fault> {
    let behind: &[u8] = b"\x01\0\0\0\0\0\0\0\x02\x05\x05\0\x01";
    let cases: [(&[u8], &[u8]); 6] = [
        (b"", b""),
        (b"\0", b""),
        (b"\x01", b""),
        (ONE, ONE),
        (behind, behind),
        (TWO, TWO),
    ];
    for (number, case) in cases.iter().enumerate() {
        if wrong_stop(alloc, case.0, case.1)?.is_some() {
            return Ok(Some(number));
        }
    }
    Ok(None)
}

#[test]
fn a_stop_within_an_opening_leaves_the_frames(rt: HostRuntime) -> Result<(), Fail> {
    assert!(rt; wrong_page(rt.alloc())? == None);
    Ok(())
}
