// Runs that are stopped within an acknowledgement.
use pg_disk::{CallKind, MemSite, Pick};
use pg_scenarios::stage::{JOURNAL, run};
use std::alloc::{AllocError, Global};
use std::test::Fail;

/// A message of two queues, which one of them holds no more. The opening makes nine calls, and each batch four: a write and a sync
/// of the batch, and a write and a sync of the gate before it. The acknowledgement is the last of five batches.
const SCRIPT: &[u8] =
    b"address A max 50 page 100 ahead 0 dup 0\nqueue Q on A\nqueue R on A\nsend A body x\nconsumer C on Q\nreceive C\nack C 1-1\n";

const CALLS: u64 = 29;

/// The call that writes the gate before the acknowledgement.
const GATE: u64 = 28;

/// What is told before the acknowledgement.
const TOLD: &[u8] = b"ok\nok\nok\nsent 1-1\nok\nmsg 1-1 hex 78\n";

/// The run behind it, and what it tells where the message comes again, and where it was acknowledged.
const BEHIND: &[u8] = b"consumer C on Q\nreceive C\ncount Q\ncount R\n";

const AGAIN: &[u8] = b"ok\nmsg 1-1 hex 78\ncount 1\ncount 1\n";

const GONE: &[u8] = b"ok\nempty\ncount 0\ncount 1\n";

/// A call within which the run is stopped, how what is pending is left, and what the run behind it tells. Within the first call
/// nothing of the acknowledgement is there, or some of its batch is. It counts where its gate reads 1.
const STOPS: [(u64, Pick, &[u8]); 14] = [
    (26, Pick::Old, AGAIN),
    (26, Pick::New, AGAIN),
    (26, Pick::Fill(1), AGAIN),
    (27, Pick::Old, AGAIN),
    (27, Pick::New, AGAIN),
    (27, Pick::Fill(1), AGAIN),
    (GATE, Pick::Old, AGAIN),
    (GATE, Pick::Fill(0), AGAIN),
    (GATE, Pick::Fill(255), AGAIN),
    (GATE, Pick::Fill(1), GONE),
    (GATE, Pick::New, GONE),
    (CALLS, Pick::Old, AGAIN),
    (CALLS, Pick::Fill(1), GONE),
    (CALLS, Pick::New, GONE),
];

/// A whole run, or None where it doesn't end with 0 in so many calls, with the write of that gate before the last.
fn whole_run(alloc: Global) -> Result<Option<MemSite>, AllocError> {
    let mut site = MemSite::new(alloc);
    let status = run(alloc, &mut site, SCRIPT)?;
    let gate = site.call(GATE) == Some(CallKind::Write(JOURNAL));
    Ok(if status == 0 && gate && site.calls() == CALLS {
        Some(site)
    } else {
        None
    })
}

/// Whether a run over what is left where the run is stopped within the call tells these replies.
fn leaves(
    alloc: Global,
    whole: &MemSite,
    stop: u64,
    pick: Pick,
    replies: &[u8],
) -> Result<bool, AllocError> {
    if stop == 0 || stop > whole.calls() {
        return Ok(false);
    }
    let mut left = whole.crash(stop, pick)?;
    let told = left.told() == TOLD;
    let status = run(alloc, &mut left, BEHIND)?;
    Ok(told && status == 0 && left.short() == 0 && left.told().get(TOLD.len()..) == Some(replies))
}

/// The first call within which a stop leaves something else, or 0 where the whole run goes otherwise.
fn wrong_stop(alloc: Global) -> Result<Option<u64>, AllocError> {
    let Some(whole) = whole_run(alloc)? else {
        return Ok(Some(0));
    };
    for (stop, pick, replies) in STOPS {
        if !leaves(alloc, &whole, stop, pick, replies)? {
            return Ok(Some(stop));
        }
    }
    Ok(None)
}

#[test]
fn a_message_comes_again_unless_its_acknowledgement_counts(rt: HostRuntime) -> Result<(), Fail> {
    assert!(rt; wrong_stop(rt.alloc())?.is_none());
    Ok(())
}
