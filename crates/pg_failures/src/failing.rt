use pg_disk::{MemSite, MemSource};
use pg_scenarios::stage::{run, run_over};
use std::alloc::{AllocError, Global};
use std::test::Fail;

const SCRIPT: &[u8] =
    b"address A max 50 page 100 ahead 0 dup 0\nqueue Q on A\nqueue Q on A\nsend A body x\ncount Q\nconsumer C on Q\nreceive C\nack C 1-1\n";

const REPLIES: &[u8] = b"ok\nok\nno name\nsent 1-1\ncount 1\nok\nmsg 1-1 hex 78\nok\n";

/// Two listings, a create, and a write and a sync for the first gate; two writes and two syncs for each batch.
const CALLS: u64 = 25;

/// Whether a whole run tells the replies in so many calls.
fn runs_through(alloc: Global) -> Result<bool, AllocError> {
    let mut site = MemSite::new(alloc);
    let status = run(alloc, &mut site, SCRIPT)?;
    Ok(status == 0 && site.told() == REPLIES && site.calls() == CALLS)
}

/// Whether the run ends where the call of this number fails.
fn call_ends(alloc: Global, number: u64) -> Result<bool, AllocError> {
    let mut site = MemSite::new(alloc);
    site.fail(&[number])?;
    let status = run(alloc, &mut site, SCRIPT)?;
    let told = REPLIES.starts_with(site.told());
    Ok(told && status == 3 && site.calls() == number && site.short() == 0)
}

/// The first call of the disk whose failing doesn't end the run there.
fn wrong_call(alloc: Global) -> Result<Option<u64>, AllocError> {
    for number in 1..CALLS + 1 {
        if !call_ends(alloc, number)? {
            return Ok(Some(number));
        }
    }
    Ok(None)
}

#[test]
fn each_failing_call_of_the_disk_ends_the_run(rt: HostRuntime) -> Result<(), Fail> {
    assert!(rt; runs_through(rt.alloc())? && wrong_call(rt.alloc())?.is_none());
    Ok(())
}

/// The number of an emit, and what is told where it fails.
const EMITS: [(u64, &[u8]); 8] = [
    (1, b""),
    (2, b"ok\n"),
    (3, b"ok\nok\n"),
    (4, b"ok\nok\nno name\n"),
    (5, b"ok\nok\nno name\nsent 1-1\n"),
    (6, b"ok\nok\nno name\nsent 1-1\ncount 1\n"),
    (7, b"ok\nok\nno name\nsent 1-1\ncount 1\nok\n"),
    (
        8,
        b"ok\nok\nno name\nsent 1-1\ncount 1\nok\nmsg 1-1 hex 78\n",
    ),
];

/// Whether the run ends where the emit of this number fails, when this was told.
fn emit_ends(alloc: Global, number: u64, told: &[u8]) -> Result<bool, AllocError> {
    let mut site = MemSite::new(alloc);
    site.fail_emit(&[number])?;
    let status = run(alloc, &mut site, SCRIPT)?;
    Ok(status == 4 && site.told() == told)
}

/// The first emit whose failing doesn't end the run there.
fn wrong_emit(alloc: Global) -> Result<Option<u64>, AllocError> {
    for (number, told) in EMITS {
        if !emit_ends(alloc, number, told)? {
            return Ok(Some(number));
        }
    }
    Ok(None)
}

#[test]
fn each_failing_emit_ends_the_run(rt: HostRuntime) -> Result<(), Fail> {
    assert!(rt; wrong_emit(rt.alloc())?.is_none());
    Ok(())
}

/// Whether the run ends where the read of this number fails, when this was told.
fn read_ends(alloc: Global, number: u64, told: &[u8]) -> Result<bool, AllocError> {
    let mut site = MemSite::new(alloc);
    let mut source = MemSource::new(alloc, SCRIPT)?;
    source.fail(&[number])?;
    let status = run_over(alloc, &mut source, &mut site)?;
    Ok(status == 5 && site.told() == told)
}

#[test]
fn a_failing_read_ends_the_run(rt: HostRuntime) -> Result<(), Fail> {
    assert!(rt; read_ends(rt.alloc(), 1, b"")? && read_ends(rt.alloc(), 2, REPLIES)?);
    Ok(())
}
