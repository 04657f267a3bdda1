// Openings that a crash stops while a generation is removed, mended or laid.
use crate::openings::{Contents, ONCE, PICKS, SECOND, crash_at, site_of};
use pg_disk::{CallKind, FileId, Kind, MemSite, Pick};
use pg_scenarios::stage::{JOURNAL, run};
use std::alloc::{AllocError, Global};
use std::test::Fail;

/// The third generation of the journal.
const THIRD: FileId = FileId {
    kind: Kind::Journal,
    owner: 0,
    number: 3,
};

/// The journal of a broker in the epoch 1 with the address A, its queue Q and the message `1-1`.
const ONE_MESSAGE: &[u8] =
    b"\x01\0\0\0\0\0\0\0\x05\x01\0\0\0\x01\x01\0\0\0\0\0\0\0\x23\x02\0\0\0\x01\x01A\0\0\0\0\0\0\0\x32\0\0\0\0\0\0\0\x64\0\0\0\0\0\0\0\0\0\0\0\0\x01\0\0\0\0\0\0\0\x0d\x03\0\0\0\x01\0\0\0\x01\x01Q\0\0\x01\0\0\0\0\0\0\0\x1f\x05\0\0\0\x01\0\x01\0\0\0\x01\0\0\0\x01\0\0\0\x01\x01\0\0\0\0\0\x05aaaaa\0";

/// What a run over that is told, in the epoch 2 and in the epoch 3, and over a broker that was never opened.
const SCRIPT: &[u8] =
    b"count Q\naddress A max 50 page 100 ahead 0 dup 0\nqueue Q on A\nsend A body z\ncount Q\n";

const HELD: [&[u8]; 2] = [
    b"count 1\nno name\nno name\nsent 2-1\ncount 2\n",
    b"count 1\nno name\nno name\nsent 3-1\ncount 2\n",
];

const EMPTY: [&[u8]; 2] = [
    b"no queue\nok\nok\nsent 1-1\ncount 1\n",
    b"no queue\nok\nok\nsent 2-1\ncount 1\n",
];

/// The files, a call that an opening over them makes, and what a run over what is left of the opening may tell: the epoch of
/// the opening was begun or it wasn't, and nothing else changed.
type Case = (Contents, CallKind, [&'static [u8]; 2]);

const CASES: [Case; 9] = [
    // An older generation is removed.
    (
        &[(JOURNAL, ONCE), (SECOND, ONE_MESSAGE)],
        CallKind::Remove(JOURNAL),
        HELD,
    ),
    (
        &[(JOURNAL, ONCE), (SECOND, ONCE), (THIRD, ONE_MESSAGE)],
        CallKind::Remove(SECOND),
        HELD,
    ),
    // One that was laid behind the journal in part is mended, and removed.
    (
        &[(JOURNAL, ONE_MESSAGE), (SECOND, b"")],
        CallKind::Write(SECOND),
        HELD,
    ),
    (
        &[(JOURNAL, ONE_MESSAGE), (SECOND, b"\x01")],
        CallKind::Write(SECOND),
        HELD,
    ),
    (
        &[(JOURNAL, ONCE), (SECOND, ONE_MESSAGE), (THIRD, b"\x01")],
        CallKind::Remove(THIRD),
        HELD,
    ),
    // The only one is mended.
    (&[(JOURNAL, b"")], CallKind::Write(JOURNAL), EMPTY),
    (&[(JOURNAL, b"\x01")], CallKind::Write(JOURNAL), EMPTY),
    // None has a batch, and the last one goes on.
    (
        &[(JOURNAL, b"\x01"), (SECOND, b"")],
        CallKind::Remove(JOURNAL),
        EMPTY,
    ),
    // The first one is laid.
    (&[], CallKind::Create(JOURNAL), EMPTY),
];

/// Whether the site was asked for the call.
fn was_called(site: &MemSite, kind: CallKind) -> bool {
    for number in 1..site.calls().saturating_add(1) {
        if site.call(number) == Some(kind) {
            return true;
        }
    }
    false
}

/// Whether a run over what is left of the opening tells one of the two.
fn is_kept(
    alloc: Global,
    opened: &MemSite,
    stop: u64,
    pick: Pick,
    replies: [&[u8]; 2],
) -> Result<bool, AllocError> {
    let Some(mut left) = crash_at(opened, stop, pick)? else {
        return Ok(false);
    };
    let nothing = left.told().is_empty();
    let status = run(alloc, &mut left, SCRIPT)?;
    let either = left.told() == replies[0] || left.told() == replies[1];
    Ok(nothing && status == 0 && left.short() == 0 && either)
}

/// The first pick with which the opening may not be stopped within the call.
fn wrong_pick(
    alloc: Global,
    opened: &MemSite,
    stop: u64,
    replies: [&[u8]; 2],
) -> Result<Option<Pick>, AllocError> {
    for pick in PICKS {
        if !is_kept(alloc, opened, stop, pick, replies)? {
            return Ok(Some(pick));
        }
    }
    Ok(None)
}

/// Whether an opening over the files makes the call, and may be stopped within each of its calls.
fn may_be_stopped(alloc: Global, case: Case) -> Result<bool, AllocError> {
    let (files, kind, replies) = case;
    let mut opened = site_of(alloc, files)?;
    let status = run(alloc, &mut opened, b"")?;
    for stop in 1..opened.calls().saturating_add(1) {
        if wrong_pick(alloc, &opened, stop, replies)?.is_some() {
            return Ok(false);
        }
    }
    Ok(status == 0 && was_called(&opened, kind))
}

/// The number of the first case in which the opening goes otherwise.
fn wrong_case(alloc: Global) -> Result<Option<u64>, AllocError> {
    let mut number = 0u64;
    for case in CASES {
        number = number.saturating_add(1);
        if !may_be_stopped(alloc, case)? {
            return Ok(Some(number));
        }
    }
    Ok(None)
}

#[test]
fn an_opening_may_be_stopped_whatever_generations_are_there(rt: HostRuntime) -> Result<(), Fail> {
    assert!(rt; wrong_case(rt.alloc())?.is_none());
    Ok(())
}
