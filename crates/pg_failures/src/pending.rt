// Runs over a site of which something is pending, since a call of the run before them failed.
use pg_disk::{MemSite, Pick};
use pg_scenarios::stage::run;
use std::alloc::{AllocError, Global};
use std::test::Fail;

/// The first run: nine calls of the opening, and four for each batch, which are a write and a sync of the batch, and a write
/// and a sync of the gate before it.
const SCRIPT: &[u8] = b"address A max 50 page 100 ahead 0 dup 0\nqueue Q on A\nsend A body x\n";

/// The run behind it, and what it tells where nothing was made, where A was, where Q was too, and where the message was sent.
const BEHIND: &[u8] = b"queue Q on A\naddress A max 50 page 100 ahead 0 dup 0\ncount Q\n";

const NOTHING: &[u8] = b"no address\nok\nno queue\n";

const ADDRESS: &[u8] = b"ok\nno name\ncount 0\n";

const QUEUE: &[u8] = b"no name\nno name\ncount 0\n";

const MESSAGE: &[u8] = b"no name\nno name\ncount 1\n";

/// The calls of which one fails, from the first to the last, what is told until then, and what the run behind it tells. The
/// line counts from the write of its gate on: where only the sync behind that fails, the gate reads as it was written.
type Case = (u64, u64, &'static [u8], &'static [u8]);

const CASES: [Case; 6] = [
    (1, 12, b"", NOTHING),
    (13, 13, b"", ADDRESS),
    (14, 16, b"ok\n", ADDRESS),
    (17, 17, b"ok\n", QUEUE),
    (18, 20, b"ok\nok\n", QUEUE),
    (21, 21, b"ok\nok\n", MESSAGE),
];

/// The site behind a run in which the call fails, or None where it doesn't end with 3 there, when this was told.
fn failed_at(alloc: Global, number: u64, told: &[u8]) -> Result<Option<MemSite>, AllocError> {
    let mut site = MemSite::new(alloc);
    site.fail(&[number])?;
    let status = run(alloc, &mut site, SCRIPT)?;
    let ended = status == 3 && site.calls() == number && site.told() == told;
    Ok(if ended { Some(site) } else { None })
}

/// Whether a run over the same site, behind one in which the call failed, tells these replies.
fn goes_on(alloc: Global, number: u64, told: &[u8], replies: &[u8]) -> Result<bool, AllocError> {
    let Some(mut site) = failed_at(alloc, number, told)? else {
        return Ok(false);
    };
    let status = run(alloc, &mut site, BEHIND)?;
    Ok(status == 0 && site.short() == 0 && site.told().get(told.len()..) == Some(replies))
}

/// The first call of the case behind which a run goes otherwise.
fn wrong_call(alloc: Global, case: Case) -> Result<Option<u64>, AllocError> {
    let (first, last, told, replies) = case;
    for number in first..last.saturating_add(1) {
        if !goes_on(alloc, number, told, replies)? {
            return Ok(Some(number));
        }
    }
    Ok(None)
}

/// The first call behind whose failing a run goes otherwise.
fn wrong_run(alloc: Global) -> Result<Option<u64>, AllocError> {
    for case in CASES {
        if let Some(number) = wrong_call(alloc, case)? {
            return Ok(Some(number));
        }
    }
    Ok(None)
}

#[test]
fn a_run_over_what_is_pending_goes_on_from_what_is_read(rt: HostRuntime) -> Result<(), Fail> {
    assert!(rt; wrong_run(rt.alloc())?.is_none());
    Ok(())
}

const PICKS: [Pick; 5] = [
    Pick::Old,
    Pick::New,
    Pick::Fill(0),
    Pick::Fill(1),
    Pick::Fill(255),
];

/// A call that fails, what is told until then, and what a run may tell that goes on behind: the state before the line that was
/// interrupted, or the one after it.
type Interrupted = (u64, &'static [u8], [&'static [u8]; 2]);

const INTERRUPTED: [Interrupted; 4] = [
    (12, b"", [NOTHING, ADDRESS]),
    (13, b"", [NOTHING, ADDRESS]),
    (16, b"ok\n", [ADDRESS, QUEUE]),
    (21, b"ok\nok\n", [QUEUE, MESSAGE]),
];

/// Whether a run over what is left of the opening tells one of the two.
fn is_either(
    alloc: Global,
    opened: &MemSite,
    stop: u64,
    pick: Pick,
    replies: [&[u8]; 2],
) -> Result<bool, AllocError> {
    if stop == 0 || stop > opened.calls() {
        return Ok(false);
    }
    let mut left = opened.crash(stop, pick)?;
    let told = left.told().len();
    let status = run(alloc, &mut left, BEHIND)?;
    let behind = left.told().get(told..).unwrap_or(&[]);
    Ok(status == 0 && (behind == replies[0] || behind == replies[1]))
}

/// Whether an opening over what is pending may be stopped within the call.
fn may_be_stopped(
    alloc: Global,
    opened: &MemSite,
    stop: u64,
    replies: [&[u8]; 2],
) -> Result<bool, AllocError> {
    for pick in PICKS {
        if !is_either(alloc, opened, stop, pick, replies)? {
            return Ok(false);
        }
    }
    Ok(true)
}

/// Whether an opening behind a run in which the call failed may be stopped within each of its own.
fn is_opened(alloc: Global, case: Interrupted) -> Result<bool, AllocError> {
    let (number, told, replies) = case;
    let Some(mut site) = failed_at(alloc, number, told)? else {
        return Ok(false);
    };
    let status = run(alloc, &mut site, b"")?;
    for stop in number.saturating_add(1)..site.calls().saturating_add(1) {
        if !may_be_stopped(alloc, &site, stop, replies)? {
            return Ok(false);
        }
    }
    // Two listings, a sync and reads of the file, and a batch of two writes and two syncs.
    Ok(status == 0 && site.calls() > number.saturating_add(8))
}

/// The call of the first case in which it may not.
fn wrong_opening(alloc: Global) -> Result<Option<u64>, AllocError> {
    for case in INTERRUPTED {
        if !is_opened(alloc, case)? {
            return Ok(Some(case.0));
        }
    }
    Ok(None)
}

#[test]
fn an_opening_over_what_is_pending_may_be_stopped_at_each_call(
    rt: HostRuntime,
) -> Result<(), Fail> {
    assert!(rt; wrong_opening(rt.alloc())?.is_none());
    Ok(())
}
