use crate::stage::{JOURNAL, journal_length, run};
use pg_disk::{CallKind, MemSite};
use std::alloc::{AllocError, Global};
use std::test::Fail;

/// A line, its reply, how many syncs of the journal it takes, and by how many bytes the journal grows: by 44 for an address,
/// by 22 for a queue and for an acknowledgement, and by 40 for a message of five bytes at one queue.
const LINES: [(&[u8], &[u8], u64, usize); 16] = [
    (b"address A max 50 page 100 ahead 0 dup 0\n", b"ok\n", 2, 44),
    (b"queue Q on A\n", b"ok\n", 2, 22),
    (b"send A body aaaaa\n", b"sent 1-1\n", 2, 40),
    (b"send A body aaaaa\n", b"sent 1-2\n", 2, 40),
    (b"send A body aaaaa\n", b"sent 1-3\n", 2, 40),
    (b"send A body aaaaa\n", b"no line\n", 0, 0),
    (b"count Q\n", b"count 3\n", 0, 0),
    (b"receive C\n", b"no consumer\n", 0, 0),
    (b"consumer C on Q\n", b"ok\n", 0, 0),
    (b"receive C\n", b"msg 1-1 hex 6161616161\n", 0, 0),
    (b"cancel C 1-1\n", b"ok\n", 0, 0),
    (b"receive C\n", b"msg 1-1 hex 6161616161\n", 0, 0),
    (b"ack C 1-1\n", b"ok\n", 2, 22),
    (b"ack C 1-1\n", b"no delivery\n", 0, 0),
    (b"close C\n", b"ok\n", 0, 0),
    (b"count Q\n", b"count 2\n", 0, 0),
];

/// How many calls of the site synced the journal.
fn syncs(site: &MemSite) -> u64 {
    let mut count = 0u64;
    for number in 1..site.calls().saturating_add(1) {
        if site.call(number) == Some(CallKind::Sync(JOURNAL)) {
            count = count.saturating_add(1);
        }
    }
    count
}

/// Whether a run of the script tells these replies, syncs the journal so often, and leaves so many bytes of it.
fn does(
    alloc: Global,
    script: &[u8],
    replies: &[u8],
    synced: u64,
    length: usize,
) -> Result<bool, AllocError> {
    let mut site = MemSite::new(alloc);
    let status = run(alloc, &mut site, script)?;
    let told = site.told() == replies && syncs(&site) == synced;
    Ok(told && status == 0 && journal_length(&site) == length && site.short() == 0)
}

/// How long the journal is at the end, or None where a run up to one of the lines does something else.
fn length_at_end(alloc: Global) -> Result<Option<usize>, AllocError> {
    // The opening syncs the first gate, and the batch of the epoch with the gate before it.
    let mut synced = 3u64;
    let mut length = 15usize;
    let mut script = Vec::new(alloc);
    let mut replies = Vec::new(alloc);
    for (line, reply, more, grown) in LINES {
        script.extend_from_slice(line)?;
        replies.extend_from_slice(reply)?;
        synced = synced.saturating_add(more);
        length = length.saturating_add(grown);
        if !does(alloc, script.as_slice(), replies.as_slice(), synced, length)? {
            return Ok(None);
        }
    }
    Ok(Some(length))
}

#[test]
fn each_line_that_the_journal_gets_is_two_syncs(rt: HostRuntime) -> Result<(), Fail> {
    assert!(rt; length_at_end(rt.alloc())? == Some(223));
    Ok(())
}
