// Runs that end since no queue id is left.
use pg_disk::MemSite;
use pg_scenarios::stage::{JOURNAL, journal_length, run};
use std::alloc::{AllocError, Global};
use std::test::Fail;

/// The journal of a broker in the epoch 1 with the address A, whose next queue would have the id 4,294,967,295. The second
/// batch has the two entries.
const NONE_LEFT: &[u8] =
    b"\x01\0\0\0\0\0\0\0\x05\x01\0\0\0\x01\x01\0\0\0\0\0\0\0\x28\x02\0\0\0\x01\x01A\0\0\0\0\0\0\0\x32\0\0\0\0\0\0\0\x64\0\0\0\0\0\0\0\0\0\0\0\0\x0e\xff\xff\xff\xff\0";

/// The lines of a run up to the one that wants an id, all of them, the replies that are told, and how long the journal is
/// then. It has 64 bytes at first, gets 14 for each epoch and 44 for an address. A queue that is refused wants no id.
type Case = (&'static [u8], &'static [u8], &'static [u8], usize);

const RUNS: [Case; 3] = [
    (
        b"count Q\nqueue Q on C\naddress B max 1 page 1 ahead 0 dup 0\n",
        b"count Q\nqueue Q on C\naddress B max 1 page 1 ahead 0 dup 0\nqueue Q on A\ncount Q\n",
        b"no queue\nno address\nok\n",
        122,
    ),
    (
        b"",
        b"queue Q on A\naddress C max 1 page 1 ahead 0 dup 0\n",
        b"",
        136,
    ),
    (
        b"send B body x\ncount Q\n",
        b"send B body x\ncount Q\nqueue Q on B",
        b"unrouted\nno queue\n",
        150,
    ),
];

/// Whether a run of the script ends with the status, when this was told, and leaves a journal of that length.
fn ends(
    alloc: Global,
    site: &mut MemSite,
    script: &[u8],
    wanted: u8,
    replies: &[u8],
    length: usize,
) -> Result<bool, AllocError> {
    let told = site.told().len();
    let status = run(alloc, site, script)?;
    let answered = site.told().get(told..) == Some(replies);
    Ok(status == wanted && site.short() == 0 && answered && journal_length(site) == length)
}

/// A site with the journal of the other one alone.
fn copy_of(alloc: Global, site: &MemSite) -> Result<MemSite, AllocError> {
    let mut copy = MemSite::new(alloc);
    copy.put(JOURNAL, site.bytes(JOURNAL).unwrap_or(&[]))?;
    Ok(copy)
}

/// Whether a run of all the lines ends at the one that wants an id, and does to the disk what a run of the lines before does.
fn ends_there(alloc: Global, site: &mut MemSite, case: Case) -> Result<bool, AllocError> {
    let (before, all, replies, length) = case;
    let mut short = copy_of(alloc, site)?;
    let calls = site.calls();
    let served = ends(alloc, &mut short, before, 0, replies, length)?;
    let stopped = ends(alloc, site, all, 8, replies, length)?;
    let same = site.bytes(JOURNAL) == short.bytes(JOURNAL);
    Ok(served && stopped && same && site.calls().saturating_sub(calls) == short.calls())
}

/// Whether each run over the same files ends so, one after the other.
fn end_there(alloc: Global) -> Result<bool, AllocError> {
    let mut site = MemSite::new(alloc);
    site.put(JOURNAL, NONE_LEFT)?;
    for case in RUNS {
        if !ends_there(alloc, &mut site, case)? {
            return Ok(false);
        }
    }
    Ok(true)
}

#[test]
fn a_queue_for_which_no_id_is_left_ends_the_run(rt: HostRuntime) -> Result<(), Fail> {
    assert!(rt; end_there(rt.alloc())?);
    Ok(())
}
