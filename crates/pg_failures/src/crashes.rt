use pg_disk::{CallKind, MemSite, Pick};
use pg_scenarios::stage::{EXAMPLE, JOURNAL, run};
use std::alloc::{AllocError, Global};
use std::test::Fail;

/// What stands at the front of the bytes, read by the rule of gated files: how many batches, and where the last ends.
fn counted(bytes: &[u8]) -> (usize, usize) {
    let mut count = 0usize;
    let mut at = 0usize;
    for _ in 0..8 {
        let behind = bytes.get(at..).unwrap_or(&[]);
        match behind {
            [1, 0, 0, 0, 0, 0, 0, 0, length, ..] => {
                let end = at.saturating_add(9).saturating_add(*length as usize);
                if end < bytes.len() {
                    count = count.saturating_add(1);
                    at = end;
                }
            }
            _ => (),
        }
    }
    (count, at)
}

/// How many of the replies say that a command was accepted and is on the disk.
fn accepted(told: &[u8]) -> usize {
    let mut count = 0usize;
    for line in told.split(|byte| *byte == b'\n') {
        if line == b"ok".as_slice() || line.starts_with(b"sent ") {
            count = count.saturating_add(1);
        }
    }
    count
}

/// Whether the call changes the disk or syncs it.
fn changes(call: Option<CallKind>) -> bool {
    match call {
        Some(CallKind::Write(_) | CallKind::Sync(_) | CallKind::Create(_) | CallKind::Remove(_)) =>
            { true }
        _ => false,
    }
}

/// Where the run is stopped within the call: how many replies of accepted commands were told, and how many batches are
/// left, which must be those of the whole run. None where there is no such call, or where other batches are left.
fn left(
    site: &MemSite,
    whole: &[u8],
    stop: u64,
    pick: Pick,
) -> Result<Option<(usize, usize)>, AllocError> {
    if stop == 0 || stop > site.calls() {
        return Ok(None);
    }
    let left = site.crash(stop, pick)?;
    let journal = left.bytes(JOURNAL).unwrap_or(&[]);
    let (count, end) = counted(journal);
    if journal.get(..end) != whole.get(..end) {
        return Ok(None);
    }
    Ok(Some((accepted(left.told()), count)))
}

/// A whole run of the example, or None where it isn't one of 29 calls that leaves six batches, or doesn't end with 0. These
/// are the epoch, the address, the queue, and three messages; behind them is the closed gate alone.
fn whole_run(alloc: Global) -> Result<Option<MemSite>, AllocError> {
    let mut site = MemSite::new(alloc);
    let status = run(alloc, &mut site, EXAMPLE)?;
    let journal = site.bytes(JOURNAL).unwrap_or(&[]);
    if status != 0 || site.calls() != 29 || counted(journal) != (6, 200) {
        return Ok(None);
    }
    Ok(Some(site))
}

const PICKS: [Pick; 5] = [
    Pick::Old,
    Pick::New,
    Pick::Fill(0),
    Pick::Fill(1),
    Pick::Fill(255),
];

/// Whether each command whose reply was told is left where the run is stopped within the call, and at most one more.
fn keeps(site: &MemSite, whole: &[u8], stop: u64, pick: Pick) -> Result<bool, AllocError> {
    let Some((told, count)) = left(site, whole, stop, pick)? else {
        return Ok(false);
    };
    // The epoch comes before the first command.
    let commands = count.saturating_sub(1);
    Ok(told <= commands && commands <= told.saturating_add(1))
}

/// The first way of stopping within the call that leaves something else.
fn wrong_pick(site: &MemSite, whole: &[u8], stop: u64) -> Result<Option<Pick>, AllocError> {
    for pick in PICKS {
        if !keeps(site, whole, stop, pick)? {
            return Ok(Some(pick));
        }
    }
    Ok(None)
}

/// The first call within which the run may not be stopped.
fn wrong_stop(site: &MemSite) -> Result<Option<u64>, AllocError> {
    let whole = site.bytes(JOURNAL).unwrap_or(&[]);
    for stop in 1..30u64 {
        if changes(site.call(stop)) && wrong_pick(site, whole, stop)?.is_some() {
            return Ok(Some(stop));
        }
    }
    Ok(None)
}

/// Whether a whole run may be stopped within each of its calls.
fn may_be_stopped(alloc: Global) -> Result<bool, AllocError> {
    match whole_run(alloc)? {
        Some(site) => Ok(wrong_stop(&site)?.is_none()),
        None => Ok(false),
    }
}

#[test]
fn a_crash_leaves_every_command_whose_reply_was_told(rt: HostRuntime) -> Result<(), Fail> {
    assert!(rt; may_be_stopped(rt.alloc())?);
    Ok(())
}

/// How the gate of the last message is left, which is the third, and how many batches count then.
const GATES: [(Pick, usize); 3] = [(Pick::Old, 5), (Pick::Fill(7), 5), (Pick::Fill(1), 6)];

/// The first way of leaving that gate with which other batches count. It is opened by the last write, before the last sync.
fn wrong_gate(site: &MemSite) -> Result<Option<Pick>, AllocError> {
    let whole = site.bytes(JOURNAL).unwrap_or(&[]);
    for (pick, batches) in GATES {
        if left(site, whole, 28, pick)? != Some((4, batches)) {
            return Ok(Some(pick));
        }
    }
    Ok(None)
}

/// Whether the gate is open only where it reads 1.
fn is_open_at_1_alone(alloc: Global) -> Result<bool, AllocError> {
    match whole_run(alloc)? {
        Some(site) => {
            let gate = site.call(28) == Some(CallKind::Write(JOURNAL));
            Ok(gate && wrong_gate(&site)?.is_none())
        }
        None => Ok(false),
    }
}

#[test]
fn a_gate_that_is_half_written_is_open_only_where_it_reads_1(rt: HostRuntime) -> Result<(), Fail> {
    assert!(rt; is_open_at_1_alone(rt.alloc())?);
    Ok(())
}
