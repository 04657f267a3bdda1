use pg_disk::{CallKind, FileId, Kind, MemSite, Pick};
use pg_run::{LIMITS, Limits};
use pg_scenarios::stage::{EXAMPLE, JOURNAL, answers, journal_length, run, run_within};
use std::alloc::{AllocError, Global};
use std::test::Fail;

/// The second generation of the journal.
pub(crate) const SECOND: FileId = FileId {
    kind: Kind::Journal,
    owner: 0,
    number: 2,
};

/// A journal file of an owner that no journal has.
const OTHER: FileId = FileId {
    kind: Kind::Journal,
    owner: 3,
    number: 1,
};

/// A page of an address that isn't there.
const PAGE: FileId = FileId {
    kind: Kind::Page,
    owner: 1,
    number: 1,
};

/// The journal of a broker that was opened once, and of one that was opened twice.
pub(crate) const ONCE: &[u8] = b"\x01\0\0\0\0\0\0\0\x05\x01\0\0\0\x01\0";

const TWICE: &[u8] = b"\x01\0\0\0\0\0\0\0\x05\x01\0\0\0\x01\x01\0\0\0\0\0\0\0\x05\x01\0\0\0\x02\0";

/// The same, with another byte as the last gate.
const ONCE_AND_7: &[u8] = b"\x01\0\0\0\0\0\0\0\x05\x01\0\0\0\x01\x07";

/// The first epoch two times.
const SAME_EPOCH: &[u8] =
    b"\x01\0\0\0\0\0\0\0\x05\x01\0\0\0\x01\x01\0\0\0\0\0\0\0\x05\x01\0\0\0\x01\0";

/// A message for address 1 and queue 1, where no address is.
const NO_QUEUE: &[u8] =
    b"\x01\0\0\0\0\0\0\0\x05\x01\0\0\0\x01\x01\0\0\0\0\0\0\0\x1a\x05\0\0\0\x01\0\x01\0\0\0\x01\0\0\0\x01\0\0\0\x01\x01\0\0\0\0\0\0\0";

/// A batch that spells no entry, and one that isn't there.
const NO_ENTRY: &[u8] = b"\x01\0\0\0\0\0\0\0\x01\xff\0";

const CUT: &[u8] = b"\x01\0\0\0\0\0\0\0\x05\x01\0";

/// Files with their bytes.
pub(crate) type Contents = &'static [(FileId, &'static [u8])];

/// A folder that was opened once.
const OPENED_ONCE: Contents = &[(JOURNAL, ONCE)];

pub(crate) fn site_of(alloc: Global, files: Contents) -> Result<MemSite, AllocError> {
    let mut site = MemSite::new(alloc);
    for (file, bytes) in files {
        site.put(*file, *bytes)?;
    }
    Ok(site)
}

/// The example's folder, as it is left where the run is stopped within the call.
fn stopped(alloc: Global, stop: u64, pick: Pick) -> Result<Option<MemSite>, AllocError> {
    let mut site = MemSite::new(alloc);
    run(alloc, &mut site, EXAMPLE)?;
    crash_at(&site, stop, pick)
}

pub(crate) fn crash_at(
    site: &MemSite,
    stop: u64,
    pick: Pick,
) -> Result<Option<MemSite>, AllocError> {
    if stop == 0 || stop > site.calls() {
        return Ok(None);
    }
    Ok(Some(site.crash(stop, pick)?))
}

/// Runs over one folder, one after the other, and their replies. After the first the address has no room for a further
/// message.
const RUNS: [(&[u8], &[u8]); 3] = [
    (
        EXAMPLE,
        b"ok\nok\nsent 1-1\nsent 1-2\nsent 1-3\nno line\ncount 3\nno consumer\n",
    ),
    (
        b"queue R on A\ncount Q\ncount R\nsend A body x\naddress A max 1 page 1 ahead 0 dup 0\n",
        b"ok\ncount 3\ncount 0\nno line\nno name\n",
    ),
    (
        b"address B max 9 page 1 ahead 0 dup 0\nqueue S on B\nsend B body y\ncount S\ncount R\nqueue R on B\n",
        b"ok\nok\nsent 3-1\ncount 1\ncount 0\nno name\n",
    ),
];

/// Whether each run goes on where the one before it ended.
fn goes_on(alloc: Global) -> Result<bool, AllocError> {
    let mut site = MemSite::new(alloc);
    for (script, replies) in RUNS {
        if !answers(alloc, &mut site, script, replies)? {
            return Ok(false);
        }
    }
    Ok(true)
}

#[test]
fn a_second_run_goes_on_where_the_first_ended(rt: HostRuntime) -> Result<(), Fail> {
    assert!(rt; goes_on(rt.alloc())?);
    Ok(())
}

/// The journal of a broker with the address A, whose `max` is 50, in epoch 1.
const ADDRESSED: &[u8] =
    b"\x01\0\0\0\0\0\0\0\x05\x01\0\0\0\x01\x01\0\0\0\0\0\0\0\x23\x02\0\0\0\x01\x01A\0\0\0\0\0\0\0\x32\0\0\0\0\0\0\0\x64\0\0\0\0\0\0\0\0\0\0\0\0\0";

/// What is there beside the journal, and the replies to a script that sends one message. An address with a page takes
/// none, since that would be paged; where it has no queue the message goes nowhere.
const PAGED: [(Contents, &[u8]); 2] = [
    (
        &[(JOURNAL, ADDRESSED)],
        b"unrouted\nok\nsent 2-1\ncount 1\n",
    ),
    (
        &[(JOURNAL, ADDRESSED), (PAGE, b"\0")],
        b"unrouted\nok\nno line\ncount 0\n",
    ),
];

/// The replies to the first case that goes otherwise.
fn wrong_page(alloc: Global) -> Result<Option<&'static [u8]>, AllocError> {
    for (files, replies) in PAGED {
        let mut site = site_of(alloc, files)?;
        let script = b"send A body x\nqueue Q on A\nsend A body x\ncount Q\n";
        if !answers(alloc, &mut site, script, replies)? {
            return Ok(Some(replies));
        }
    }
    Ok(None)
}

#[test]
fn an_address_with_a_page_takes_no_message(rt: HostRuntime) -> Result<(), Fail> {
    assert!(rt; wrong_page(rt.alloc())?.is_none());
    Ok(())
}

/// How the gate of the last message is left by a run that is stopped within its write, and the messages that count then.
const GATES: [(Pick, &[u8]); 3] = [
    (Pick::Old, b"count 2\n"),
    (Pick::Fill(7), b"count 2\n"),
    (Pick::Fill(1), b"count 3\n"),
];

/// Whether a run over what was left so counts the messages so.
fn counts(alloc: Global, pick: Pick, reply: &[u8]) -> Result<bool, AllocError> {
    let Some(mut left) = stopped(alloc, 28, pick)? else {
        return Ok(false);
    };
    let told = left.told() == b"ok\nok\nsent 1-1\nsent 1-2\n".as_slice();
    Ok(told && answers(alloc, &mut left, b"count Q\n", reply)?)
}

/// The first gate with which others count.
fn wrong_gate(alloc: Global) -> Result<Option<Pick>, AllocError> {
    for (pick, reply) in GATES {
        if !counts(alloc, pick, reply)? {
            return Ok(Some(pick));
        }
    }
    Ok(None)
}

#[test]
fn a_run_over_what_a_crash_left_has_the_messages_that_count(rt: HostRuntime) -> Result<(), Fail> {
    assert!(rt; wrong_gate(rt.alloc())?.is_none());
    Ok(())
}

/// What is there, the status, and what is left.
const CASES: [(Contents, u8, Contents); 13] = [
    (&[(JOURNAL, b"")], 0, &[(JOURNAL, ONCE)]),
    (&[(JOURNAL, b"\x01")], 0, &[(JOURNAL, ONCE)]),
    (&[(JOURNAL, b"\x07")], 0, &[(JOURNAL, ONCE)]),
    (&[(JOURNAL, ONCE_AND_7)], 0, &[(JOURNAL, TWICE)]),
    // The last generation that has a batch goes on, and the others go.
    (&[(JOURNAL, ONCE), (SECOND, b"\0")], 0, &[(JOURNAL, TWICE)]),
    (&[(JOURNAL, TWICE), (SECOND, ONCE)], 0, &[(SECOND, TWICE)]),
    (&[(SECOND, b"\0")], 0, &[(SECOND, ONCE)]),
    // Damage, and nothing is changed.
    (
        &[(JOURNAL, ONCE), (OTHER, ONCE)],
        2,
        &[(JOURNAL, ONCE), (OTHER, ONCE)],
    ),
    (&[(JOURNAL, SAME_EPOCH)], 2, &[(JOURNAL, SAME_EPOCH)]),
    (&[(JOURNAL, NO_QUEUE)], 2, &[(JOURNAL, NO_QUEUE)]),
    (&[(JOURNAL, NO_ENTRY)], 2, &[(JOURNAL, NO_ENTRY)]),
    (&[(JOURNAL, CUT)], 2, &[(JOURNAL, CUT)]),
    (
        &[(JOURNAL, ONCE), (PAGE, b"\0")],
        2,
        &[(JOURNAL, ONCE), (PAGE, b"\0")],
    ),
];

/// Whether the site holds these of the files, and no others.
fn holds(site: &MemSite, files: Contents) -> bool {
    for file in [JOURNAL, SECOND, OTHER, PAGE] {
        let wanted = files
            .iter()
            .find(|entry| entry.0 == file)
            .map(|entry| entry.1);
        if site.bytes(file) != wanted {
            return false;
        }
    }
    true
}

/// Whether a run over the files ends with this status, tells nothing, and leaves these files.
fn opens(alloc: Global, files: Contents, wanted: u8, after: Contents) -> Result<bool, AllocError> {
    let mut site = site_of(alloc, files)?;
    let status = run(alloc, &mut site, b"")?;
    Ok(status == wanted && site.told().is_empty() && holds(&site, after))
}

/// The number of the first case that goes otherwise.
fn wrong_case(alloc: Global) -> Result<Option<u64>, AllocError> {
    let mut number = 0u64;
    for (files, status, after) in CASES {
        number = number.saturating_add(1);
        if !opens(alloc, files, status, after)? {
            return Ok(Some(number));
        }
    }
    Ok(None)
}

#[test]
fn files_are_opened_or_refused(rt: HostRuntime) -> Result<(), Fail> {
    assert!(rt; wrong_case(rt.alloc())?.is_none());
    Ok(())
}

/// Limits of so few epochs that a second one isn't left, and that a third one isn't.
const ONE_EPOCH: Limits = Limits {
    ids: LIMITS.ids,
    epochs: 2,
    input: LIMITS.input,
};

const TWO_EPOCHS: Limits = Limits {
    ids: LIMITS.ids,
    epochs: 3,
    input: LIMITS.input,
};

/// Whether a run within the limits over a folder that was opened once ends with this status, and leaves this journal.
fn opens_within(
    alloc: Global,
    limits: &Limits,
    wanted: u8,
    journal: &[u8],
) -> Result<bool, AllocError> {
    let mut site = site_of(alloc, OPENED_ONCE)?;
    let status = run_within(alloc, limits, &mut site, b"")?;
    Ok(status == wanted && site.bytes(JOURNAL) == Some(journal))
}

#[test]
fn an_epoch_that_isnt_left_ends_the_run(rt: HostRuntime) -> Result<(), Fail> {
    assert!(rt;
        opens_within(rt.alloc(), &ONE_EPOCH, 8, ONCE)?
            && opens_within(rt.alloc(), &TWO_EPOCHS, 0, TWICE)?
    );
    Ok(())
}

/// The number of the site's third write among its calls, or 0.
fn third_write(site: &MemSite) -> u64 {
    let mut writes = 0u64;
    for number in 1..site.calls().saturating_add(1) {
        if let Some(CallKind::Write(_)) = site.call(number) {
            writes = writes.saturating_add(1);
            if writes == 3 {
                return number;
            }
        }
    }
    0
}

/// The number of the third write of an opening, or 0 where the run doesn't end with 0.
fn third_write_of_an_opening(alloc: Global) -> Result<u64, AllocError> {
    let mut site = MemSite::new(alloc);
    let status = run(alloc, &mut site, b"")?;
    Ok(if status == 0 { third_write(&site) } else { 0 })
}

/// Whether a run in which the call of that number fails ends before it tells anything.
fn ends_early(alloc: Global, number: u64) -> Result<bool, AllocError> {
    let mut site = MemSite::new(alloc);
    site.fail(&[number])?;
    let status = run(alloc, &mut site, EXAMPLE)?;
    Ok(status == 3 && site.told().is_empty())
}

#[test]
fn a_third_write_that_fails_ends_the_run(rt: HostRuntime) -> Result<(), Fail> {
    let number = third_write_of_an_opening(rt.alloc())?;
    assert!(rt; ends_early(rt.alloc(), number)?);
    Ok(())
}

pub(crate) const PICKS: [Pick; 5] = [
    Pick::Old,
    Pick::New,
    Pick::Fill(0),
    Pick::Fill(1),
    Pick::Fill(255),
];

/// Whether a run over what is left of an opening that is stopped within the call goes on from the same messages: the epoch of
/// the opening was begun or it wasn't, and nothing else changed.
fn is_unchanged(
    alloc: Global,
    opened: &MemSite,
    stop: u64,
    pick: Pick,
) -> Result<bool, AllocError> {
    let Some(mut left) = crash_at(opened, stop, pick)? else {
        return Ok(false);
    };
    let told = left.told().len();
    let status = run(alloc, &mut left, b"count Q\nsend A body z\n")?;
    let replies = left.told().get(told..).unwrap_or(&[]);
    let second = replies == b"count 2\nsent 2-1\n".as_slice();
    let third = replies == b"count 2\nsent 3-1\n".as_slice();
    Ok(status == 0 && (second || third))
}

/// How often the opening may be stopped within the call.
fn stops_at(alloc: Global, opened: &MemSite, stop: u64) -> Result<usize, AllocError> {
    let mut stops = 0usize;
    for pick in PICKS {
        if is_unchanged(alloc, opened, stop, pick)? {
            stops = stops.saturating_add(1);
        }
    }
    Ok(stops)
}

/// A folder that a crash left, and an opening over it, which ends with 0.
fn opened_again(alloc: Global) -> Result<Option<MemSite>, AllocError> {
    let Some(mut opened) = stopped(alloc, 28, Pick::Old)? else {
        return Ok(None);
    };
    let status = run(alloc, &mut opened, b"")?;
    Ok(if status == 0 { Some(opened) } else { None })
}

/// How often the opening may be stopped, or 0 where it may not at one of its calls.
fn stops(alloc: Global, opened: &MemSite) -> Result<usize, AllocError> {
    let mut all = 0usize;
    for stop in 1..opened.calls().saturating_add(1) {
        let stops = stops_at(alloc, opened, stop)?;
        if stops != PICKS.len() {
            return Ok(0);
        }
        all = all.saturating_add(stops);
    }
    Ok(all)
}

/// Whether an opening may be stopped at each call.
fn may_be_stopped(alloc: Global) -> Result<bool, AllocError> {
    match opened_again(alloc)? {
        // Two listings, a sync of the file and one of its scan, the reads, and a batch of two writes and two syncs.
        Some(opened) => Ok(stops(alloc, &opened)? > 60),
        None => Ok(false),
    }
}

#[test]
fn an_opening_may_be_stopped_at_each_call(rt: HostRuntime) -> Result<(), Fail> {
    assert!(rt; may_be_stopped(rt.alloc())?);
    Ok(())
}

/// Whether ten openings begin an epoch each, and a message of a further one has the next.
fn begins_epochs(alloc: Global) -> Result<bool, AllocError> {
    let mut site = MemSite::new(alloc);
    for _ in 0..10 {
        if !answers(alloc, &mut site, b"", b"")? {
            return Ok(false);
        }
    }
    // A batch of an epoch has 14 bytes with its gate.
    let length = journal_length(&site);
    let script = b"address A max 50 page 100 ahead 0 dup 0\nqueue Q on A\nsend A body x\n";
    Ok(length == 141 && answers(alloc, &mut site, script, b"ok\nok\nsent 11-1\n")?)
}

#[test]
fn each_opening_begins_an_epoch(rt: HostRuntime) -> Result<(), Fail> {
    assert!(rt; begins_epochs(rt.alloc())?);
    Ok(())
}

/// A script that sends 200 messages of 1000 bytes.
fn long_script(alloc: Global) -> Result<Vec<u8>, AllocError> {
    let mut script = Vec::new(alloc);
    script.extend_from_slice(b"address A max 1000000 page 1 ahead 0 dup 0\nqueue Q on A\n")?;
    for _ in 0..200 {
        script.extend_from_slice(b"send A body ")?;
        for _ in 0..100 {
            script.extend_from_slice(b"0123456789")?;
        }
        script.push(b'\n')?;
    }
    Ok(script)
}

/// The folder that a run of it leaves, or None where the run doesn't end with 0.
fn long_run(alloc: Global) -> Result<Option<MemSite>, AllocError> {
    let script = long_script(alloc)?;
    let mut site = MemSite::new(alloc);
    let status = run(alloc, &mut site, script.as_slice())?;
    Ok(if status == 0 { Some(site) } else { None })
}

/// A folder with the journal of that run alone.
fn long_journal(alloc: Global) -> Result<Option<MemSite>, AllocError> {
    let Some(first) = long_run(alloc)? else {
        return Ok(None);
    };
    let mut site = MemSite::new(alloc);
    site.put(JOURNAL, first.bytes(JOURNAL).unwrap_or(&[]))?;
    Ok(Some(site))
}

/// How many calls of the site read the journal.
fn journal_reads(site: &MemSite) -> u64 {
    let mut reads = 0u64;
    for number in 1..site.calls().saturating_add(1) {
        if site.call(number) == Some(CallKind::Read(JOURNAL)) {
            reads = reads.saturating_add(1);
        }
    }
    reads
}

/// Whether an opening over that journal reads it in pieces of up to 64 KiB.
fn is_read_in_large_pieces(alloc: Global) -> Result<bool, AllocError> {
    let Some(mut site) = long_journal(alloc)? else {
        return Ok(false);
    };
    // The batches of the epoch, the address, the queue and 200 messages, and the gates of these.
    let length = journal_length(&site);
    let answered = answers(alloc, &mut site, b"count Q\n", b"count 200\n")?;
    // One read for each gate, the closed one too, and four for the pieces.
    Ok(length == 207_081 && answered && journal_reads(&site) == 208)
}

#[test]
fn the_journal_is_read_in_large_pieces(rt: HostRuntime) -> Result<(), Fail> {
    assert!(rt; is_read_in_large_pieces(rt.alloc())?);
    Ok(())
}
