// What a crash leaves of a site in memory.
ghost use Rattle.std.specs.Prelude.{◌≡◌, ◌<◌, ◌≤◌, None, length};
ghost use Rattle.std.specs.FinMap.{get};
ghost use Rattle.pg_disk.specs.Account.{account, IsHonest};
ghost use Rattle.pg_disk.specs.MemSite.{calls_of};

use pg_disk::{Disk, Failed, FileId, Kind, MemSite, Pick, Site};
use std::alloc::{AllocError, Global};
use std::test::Fail;

const PAGE: FileId = FileId {
    kind: Kind::Page,
    owner: 3,
    number: 1,
};

// A file that is made, written, synced, written over and past its end, synced and removed, with something told between.
fn rewrite<S: Site>(site: &mut S) -> Result<(), Failed>
    requires { IsHonest (S.tells site.old) → get (account (S.tells site.old)).files PAGE ≡ None }
{
    site.create(PAGE)?;
    site.write(PAGE, 0, b"abcd")?;
    site.emit(b"x")?;
    site.sync(PAGE)?;
    site.emit(b"yz")?;
    site.write(PAGE, 1, b"X")?;
    site.write(PAGE, 3, b"YZ")?;
    site.sync(PAGE)?;
    site.remove(PAGE)?;
    site.emit(b"late")
}

// What is left, of old bytes, new ones, and one byte.
type Left = [Option<&'static str>; 3];

// For each call: what is told before it, and what is left where it is stopped.
const LEFT: [(&str, Left); 7] = [
    ("", [None, Some(""), Some("")]),
    ("", [Some(""), Some("abcd"), Some("####")]),
    ("x", [Some(""), Some("abcd"), Some("####")]),
    ("xyz", [Some("abcd"), Some("aXcd"), Some("a#cd")]),
    ("xyz", [Some("abcd"), Some("aXcYZ"), Some("a#c##")]),
    ("xyz", [Some("abcd"), Some("aXcYZ"), Some("a#c##")]),
    ("xyz", [Some("aXcYZ"), None, None]),
];

const PICKS: [Pick; 3] = [Pick::Old, Pick::New, Pick::Fill(b'#')];

// Whether a site that was left has told this, holds this, and had no call made.
fn is_left(left: &MemSite, told: &str, want: Option<&str>) -> bool {
    left.calls() == 0
        && left.short() == 0
        && left.told() == told.as_bytes()
        && left.bytes(PAGE) == want.map(|text| text.as_bytes())
}

// Whether this is told, and these are left, where the site stops within the call.
fn leaves(site: &MemSite, stop: u64, told: &str, wants: &Left) -> Result<bool, AllocError>
    requires from_one { 0 < stop }
    requires made { stop ≤ length (calls_of site.now) }
{
    for (pick, want) in PICKS.iter().zip(wants) {
        if !is_left(&site.crash(stop, *pick)?, told, *want) {
            return Ok(false);
        }
    }
    Ok(true)
}

// The first call within which something else is left.
fn wrong_stop(site: &MemSite) -> Result<Option<u64>, AllocError> {
    for (place, (told, wants)) in LEFT.iter().enumerate() {
        let stop = place as u64 + 1;
        if stop > site.calls() || !leaves(site, stop, told, wants)? {
            return Ok(Some(stop));
        }
    }
    Ok(None)
}

// Whether the file's life makes its calls, and leaves what it is to leave within each.
fn is_kept(alloc: Global) -> Result<bool, Failed> {
    let mut site = MemSite::new(alloc);
    rewrite(&mut site)?;
    let wrong = wrong_stop(&site).map_err(|_| Failed)?;
    Ok(site.calls() == 7 && wrong == None)
}

#[test]
fn crashes(rt: HostRuntime) -> Result<(), Fail> {
    assert!(rt; is_kept(rt.alloc())?);
    Ok(())
}

// A create, a write and a removal that is named to fail: its number, what is told before it, what is left where it is
// stopped, and what where the listing behind it is.
const FAILED: [(u64, &str, Left, Left); 3] = [
    (1, "", [None, Some(""), Some("")], [None, None, None]),
    (
        5,
        "xyz",
        [Some("abcd"), Some("aXcYZ"), Some("a#c##")],
        [Some("abcd"), Some("aXcd"), Some("a#c##")],
    ),
    (
        7,
        "xyz",
        [Some("aXcYZ"), None, None],
        [Some("aXcYZ"), Some("aXcYZ"), Some("aXcYZ")],
    ),
];

// The files that are made and written where the call of this number fails, and a listing behind it.
fn failed_and_listed(alloc: Global, call: u64) -> Result<MemSite, AllocError> {
    let mut site = MemSite::new(alloc);
    site.fail(&[call])?;
    let _ = rewrite(&mut site);
    let _ = site.list(alloc);
    Ok(site)
}

// Whether these are left within the last call but one, which failed, and within the last.
fn leaves_last_two(
    site: &MemSite,
    told: &str,
    failed: &Left,
    listed: &Left,
) -> Result<bool, AllocError> {
    let last = site.calls();
    if last < 2 {
        return Ok(false);
    }
    Ok(leaves(site, last - 1, told, failed)? && leaves(site, last, told, listed)?)
}

// The first call that fails, and of which something else is left.
fn wrong_failure(alloc: Global) -> Result<Option<u64>, AllocError> {
    for (call, told, failed, listed) in FAILED.iter() {
        let site = failed_and_listed(alloc, *call)?;
        let is_last = site.calls() == call.saturating_add(1);
        if !is_last || !leaves_last_two(&site, told, failed, listed)? {
            return Ok(Some(*call));
        }
    }
    Ok(None)
}

#[test]
fn crashes_where_a_call_failed(rt: HostRuntime) -> Result<(), Fail> {
    assert!(rt; wrong_failure(rt.alloc())? == None);
    Ok(())
}
