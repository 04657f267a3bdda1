use crate::stage::{answers, answers_first};
use pg_disk::MemSite;
use std::alloc::{AllocError, Global};
use std::test::Fail;

/// What a script is about, the script, and the replies to it.
const SCRIPTS: [(&str, &[u8], &[u8]); 9] = [
    (
        "one of two texts, or nothing",
        b"address A max 1000 page 100 ahead 0 dup 0\nqueue Q on A where a IN ('x','y') OR b IS NULL\nsend A prop a 'y' prop b 1 body m\nsend A prop a 1 prop b TRUE body m\nsend A body m\nqueue P on A where a = 1 = 2\n",
        b"ok\nok\nsent 1-1\nunrouted\nsent 1-2\nno filter 6\n",
    ),
    (
        "what is unknown isn't true",
        b"address A max 1000 page 100 ahead 0 dup 0\nqueue Q on A where NOT color = 'red'\nsend A body x\nsend A prop color 'red' body x\nsend A prop color 'blue' body x\n",
        b"ok\nok\nunrouted\nunrouted\nsent 1-1\n",
    ),
    (
        "a range",
        b"address A max 1000 page 100 ahead 0 dup 0\nqueue Q on A where a BETWEEN 1 AND 3\nsend A prop a 3 body x\nsend A prop a 4 body x\n",
        b"ok\nok\nsent 1-1\nunrouted\n",
    ),
    (
        "a sum outside 64 bits",
        b"address A max 1000 page 100 ahead 0 dup 0\nqueue Q on A where a + 1 > 0\nsend A prop a 9223372036854775807 body x\nsend A prop a 9223372036854775806 body x\n",
        b"ok\nok\nunrouted\nsent 1-1\n",
    ),
    (
        "a pattern with an escape",
        b"address A max 1000 page 100 ahead 0 dup 0\nqueue Q on A where color LIKE 'r\\_%' ESCAPE '\\'\nsend A prop color 'r_1' body x\nsend A prop color 'red' body x\n",
        b"ok\nok\nsent 1-1\nunrouted\n",
    ),
    (
        "filters without a reading",
        b"address A max 1000 page 100 ahead 0 dup 0\nqueue Q on A where a BETWEEN 1 OR 3\nqueue Q on A where a = 'x\nqueue Q on A where a >\nqueue Q on A where \ncount Q\nqueue Q on A where a\n",
        b"ok\nno filter 12\nno filter 4\nno filter 3\nno filter 0\nno queue\nok\n",
    ),
    (
        "what else refuses a queue comes first",
        b"address A max 1000 page 100 ahead 0 dup 0\nqueue Q on A\nqueue Q on A where =\nqueue R on B where =\nqueue R on A where =\nqueue R on A where\n",
        b"ok\nok\nno name\nno address\nno filter 0\nno line\n",
    ),
    (
        "a queue without a filter beside one with one",
        b"address A max 1000 page 100 ahead 0 dup 0\nqueue Q on A\nqueue R on A where k = 1\nsend A prop k 1 body x\nsend A prop k 2 body x\nsend A body x\ncount Q\ncount R\n",
        b"ok\nok\nok\nsent 1-1\nsent 1-2\nsent 1-3\ncount 3\ncount 1\n",
    ),
    (
        "what goes nowhere needs no room",
        b"address A max 16 page 100 ahead 0 dup 0\nqueue Q on A where k = 1\nsend A prop k 1 body x\nsend A prop k 2 body x\nsend A prop k 1 body x\n",
        b"ok\nok\nsent 1-1\nunrouted\nno line\n",
    ),
];

/// The first script that isn't answered so.
fn wrong_script(alloc: Global) -> Result<Option<&'static str>, AllocError> {
    for (name, script, replies) in SCRIPTS {
        if !answers_first(alloc, script, replies)? {
            return Ok(Some(name));
        }
    }
    Ok(None)
}

#[test]
fn messages_go_where_filters_are_true(rt: HostRuntime) -> Result<(), Fail> {
    assert!(rt; wrong_script(rt.alloc())?.is_none());
    Ok(())
}

/// One run after the other over one folder: a filter outlives a run, and a name that is taken again has its new filter.
const RUNS: [(&[u8], &[u8]); 3] = [
    (
        b"address A max 1000 page 100 ahead 0 dup 0\nqueue Q on A where k = 1\nqueue R on A\nsend A prop k 1 body x\nsend A prop k 2 body y\ncount Q\ncount R\n",
        b"ok\nok\nok\nsent 1-1\nsent 1-2\ncount 1\ncount 2\n",
    ),
    (
        b"send A prop k 2 body z\ncount Q\nsend A prop k 1 body z\ncount Q\ndrop R\nsend A prop k 2 body z\ndrop Q\nqueue Q on A where k = 2\nsend A prop k 2 body z\ncount Q\n",
        b"sent 2-1\ncount 1\nsent 2-2\ncount 2\nok\nunrouted\nok\nok\nsent 2-3\ncount 1\n",
    ),
    (
        b"send A prop k 1 body z\nsend A prop k 2 body z\ncount Q\nconsumer C on Q\nreceive C\n",
        b"unrouted\nsent 3-1\ncount 2\nok\nmsg 2-3 prop k 2 hex 7a\n",
    ),
];

/// Whether each run is answered so.
fn runs_go_on(alloc: Global) -> Result<bool, AllocError> {
    let mut site = MemSite::new(alloc);
    for (script, replies) in RUNS {
        if !answers(alloc, &mut site, script, replies)? {
            return Ok(false);
        }
    }
    Ok(true)
}

#[test]
fn a_filter_outlives_a_run(rt: HostRuntime) -> Result<(), Fail> {
    assert!(rt; runs_go_on(rt.alloc())?);
    Ok(())
}

/// A line that makes a queue with a filter of that many bytes, most of them blanks.
fn put_long_filter(script: &mut Vec<u8>, name: &[u8], length: usize) -> Result<(), AllocError> {
    script.extend_from_slice(b"queue ")?;
    script.extend_from_slice(name)?;
    script.extend_from_slice(b" on A where k = 1")?;
    for _ in 5..length {
        script.push(b' ')?;
    }
    script.push(b'\n')?;
    Ok(())
}

/// A filter of 4,096 bytes is one, and a line with a longer one is none.
fn long_filters(alloc: Global) -> Result<bool, AllocError> {
    let mut script = Vec::from_slice(alloc, b"address A max 1000 page 100 ahead 0 dup 0\n")?;
    put_long_filter(&mut script, b"Q", 4_096)?;
    put_long_filter(&mut script, b"R", 4_097)?;
    script.extend_from_slice(b"send A prop k 1 body x\ncount Q\ncount R\n")?;
    let replies = b"ok\nok\nno line\nsent 1-1\ncount 1\nno queue\n";
    let mut site = MemSite::new(alloc);
    let first = answers(alloc, &mut site, script.as_slice(), replies)?;
    Ok(first && answers(alloc, &mut site, b"send A prop k 1 body x\n", b"sent 2-1\n")?)
}

#[test]
fn a_filter_has_at_most_4096_bytes(rt: HostRuntime) -> Result<(), Fail> {
    assert!(rt; long_filters(rt.alloc())?);
    Ok(())
}

/// Makes 1,000 queues on the address A, each for another number, and tries one more.
fn many_queues(alloc: Global) -> Result<(Vec<u8>, Vec<u8>), AllocError> {
    let mut script = Vec::from_slice(alloc, b"address A max 1000 page 100 ahead 0 dup 0\n")?;
    let mut replies = Vec::from_slice(alloc, b"ok\n")?;
    for number in 0..1_000u32 {
        let line = format!(in alloc; "queue Q{number} on A where k = {number}\n")?;
        script.extend_from_slice(line.as_bytes())?;
        replies.extend_from_slice(b"ok\n")?;
    }
    script.extend_from_slice(b"queue R on A where =\n")?;
    replies.extend_from_slice(b"no room\n")?;
    Ok((script, replies))
}

/// Of 1,000 queues that filter one gets the message, also in a second run.
fn one_of_many(alloc: Global) -> Result<bool, AllocError> {
    let (script, replies) = many_queues(alloc)?;
    let mut site = MemSite::new(alloc);
    let made = answers(alloc, &mut site, script.as_slice(), replies.as_slice())?;
    let sent = b"send A prop k 7 body x\nsend A prop k 1000 body x\ncount Q7\ncount Q8\n";
    Ok(
        made && answers(
            alloc,
            &mut site,
            sent,
            b"sent 2-1\nunrouted\ncount 1\ncount 0\n",
        )?,
    )
}

#[test]
fn a_thousand_queues_filter(rt: HostRuntime) -> Result<(), Fail> {
    assert!(rt; one_of_many(rt.alloc())?);
    Ok(())
}
