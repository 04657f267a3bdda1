use crate::stage::{JOURNAL, answers_first, run, run_within, run_words};
use pg_disk::{MemSite, MemSource};
use pg_run::{LIMITS, Limits};
use std::alloc::{AllocError, Global};
use std::test::Fail;

/// What a script is about, the script, and the replies to it.
const SCRIPTS: [(&str, &[u8], &[u8]); 11] = [
    ("empty input", b"", b""),
    (
        "a name twice",
        b"address A max 50 page 100 ahead 0 dup 0\naddress A max 50 page 100 ahead 0 dup 0\n",
        b"ok\nno name\n",
    ),
    (
        "unreadable lines",
        b"queue Q on\n\n\xff\xfe\naddress B max 1000000000001 page 1 ahead 0 dup 0\n",
        b"no line\nno line\nno line\nno line\n",
    ),
    (
        "a last line without its end",
        b"receive\naddress A max 0 page 1 ahead 0 dup 0",
        b"no line\nok\n",
    ),
    (
        "a body in digits",
        b"address A max 50 page 100 ahead 0 dup 0\nqueue Q on A\nsend A hex 6F6f\nsend A body oo\ncount Q\n",
        b"ok\nok\nsent 1-1\nsent 1-2\ncount 2\n",
    ),
    (
        "commands that aren't built",
        b"address A max 50 page 100 ahead 0 dup 0\nsend A id 61 body x\nsend A tx T body x\nbegin T\nstat A\nack C 1-1 tx T\nreceive C\n",
        b"ok\nno line\nno line\nno line\nno line\nno line\nno consumer\n",
    ),
    (
        "properties",
        b"address A max 1000 page 100 ahead 0 dup 0\nqueue Q on A\nsend A prop k -1 body x\nsend A hex -\nsend A prop k 1 prop k 2 body x\ncount Q\n",
        b"ok\nok\nsent 1-1\nsent 1-2\nno line\ncount 2\n",
    ),
    (
        "dropped queues",
        b"address A max 1000 page 100 ahead 0 dup 0\nqueue Q on A\nqueue R on A\nsend A body x\ndrop Q\ndrop Q\ncount Q\ncount R\nqueue Q on A\ncount Q\nsend A body y\ncount Q\ndrop R\ndrop Q\nsend A body z\n",
        b"ok\nok\nok\nsent 1-1\nok\nno queue\nno queue\ncount 1\nok\ncount 0\nsent 1-2\ncount 1\nok\nok\nunrouted\n",
    ),
    (
        "room that a dropped queue leaves",
        b"address A max 16 page 100 ahead 0 dup 0\nqueue Q on A\nsend A body x\nsend A body y\ndrop Q\nqueue R on A\nsend A body z\n",
        b"ok\nok\nsent 1-1\nno line\nok\nok\nsent 1-2\n",
    ),
    (
        "a cut line",
        b"address A max 0 page 1 ahead 0 dup",
        b"no line\n",
    ),
    (
        "the edges of the ranges",
        b"address a max 1000000000000 page 1000000000 ahead 1000000000 dup 65535\n",
        b"ok\n",
    ),
];

/// The first script that isn't answered so.
fn wrong_script(alloc: Global) -> Result<Option<&'static str>, AllocError> {
    for (name, script, replies) in SCRIPTS {
        if !answers_first(alloc, script, replies)? {
            return Ok(Some(name));
        }
    }
    Ok(None)
}

#[test]
fn scripts_are_answered(rt: HostRuntime) -> Result<(), Fail> {
    assert!(rt; wrong_script(rt.alloc())?.is_none());
    Ok(())
}

/// The journal of a broker that was opened once: the batch of the first epoch behind its open gate, and a closed gate.
const OPENED: &[u8] = &[1, 0, 0, 0, 0, 0, 0, 0, 5, 1, 0, 0, 0, 1, 0];

const ONE_ADDRESS: &[u8] =
    b"address A max 50 page 100 ahead 0 dup 0\nno\naddress A max 1 page 1 ahead 1 dup 1\n";

const ADDRESSED: &[u8] = &[
    1, 0, 0, 0, 0, 0, 0, 0, 5, 1, 0, 0, 0, 1, 1, 0, 0, 0, 0, 0, 0, 0, 35, 2, 0, 0, 0, 1, 1, 65, 0,
    0, 0, 0, 0, 0, 0, 50, 0, 0, 0, 0, 0, 0, 0, 100, 0, 0, 0, 0, 0, 0, 0, 0, 0, 0, 0, 0, 0,
];

/// Whether a run of the script leaves this journal, and ends with 0.
fn leaves(alloc: Global, script: &[u8], journal: &[u8]) -> Result<bool, AllocError> {
    let mut site = MemSite::new(alloc);
    let status = run(alloc, &mut site, script)?;
    Ok(status == 0 && site.bytes(JOURNAL) == Some(journal))
}

#[test]
fn the_journal_holds_each_address(rt: HostRuntime) -> Result<(), Fail> {
    assert!(rt; leaves(rt.alloc(), b"", OPENED)? && leaves(rt.alloc(), ONE_ADDRESS, ADDRESSED)?);
    Ok(())
}

/// A line of more bytes than a line may have, and one behind it.
fn long_line(alloc: Global) -> Result<Vec<u8>, AllocError> {
    let mut script = vec![in alloc; b'a'; 1_048_577]?;
    script.extend_from_slice(b"\naddress A max 0 page 1 ahead 0 dup 0\n")?;
    Ok(script)
}

#[test]
fn a_line_that_is_too_long_is_unreadable(rt: HostRuntime) -> Result<(), Fail> {
    let script = long_line(rt.alloc())?;
    assert!(rt; answers_first(rt.alloc(), script.as_slice(), b"no line\nok\n")?);
    Ok(())
}

const REFUSED: [&[&str]; 8] = [
    &["pagebroker"],
    &["pagebroker", "run"],
    &["pagebroker", "-h"],
    &["pagebroker", "run", ""],
    &["pagebroker", "run", "-x"],
    &["pagebroker", "run", "a", "b"],
    &["pagebroker", "Run", "a"],
    &[],
];

/// Whether the words are refused before anything is done.
fn is_refused(alloc: Global, words: &[&str]) -> Result<bool, AllocError> {
    let mut site = MemSite::new(alloc);
    let mut source = MemSource::new(alloc, b"address A max 0 page 1 ahead 0 dup 0\n")?;
    let status = run_words(alloc, words, &mut source, &mut site)?;
    Ok(status == 1 && site.calls() == 0 && site.told().is_empty())
}

fn are_refused(alloc: Global) -> Result<bool, AllocError> {
    for words in REFUSED {
        if !is_refused(alloc, words)? {
            return Ok(false);
        }
    }
    Ok(true)
}

#[test]
fn other_words_are_refused(rt: HostRuntime) -> Result<(), Fail> {
    assert!(rt; are_refused(rt.alloc())?);
    Ok(())
}

const LIMITED: &[u8] = b"stat A\naddress A max 0 page 1 ahead 0 dup 0\n";

/// How many bytes of input there may be, how many epochs, the status that is wanted, and what is to be told.
const BOUNDS: [(u64, u32, u8, &[u8]); 5] = [
    (5, 1_048_576, 7, b""),
    (7, 1_048_576, 7, b"no line\n"),
    (43, 1_048_576, 7, b"no line\n"),
    (44, 1_048_576, 0, b"no line\nok\n"),
    (44, 1, 8, b""),
];

/// How many ids an epoch has.
const IDS: u32 = LIMITS.ids;

/// Whether a run within the limits ends with this status, when this was told.
fn ends(
    alloc: Global,
    limits: &Limits,
    script: &[u8],
    wanted: u8,
    told: &[u8],
) -> Result<bool, AllocError> {
    let mut site = MemSite::new(alloc);
    let status = run_within(alloc, limits, &mut site, script)?;
    Ok(status == wanted && site.told() == told)
}

/// The first bound that doesn't end the run so.
fn wrong_bound(alloc: Global) -> Result<Option<u64>, AllocError> {
    for (input, epochs, status, told) in BOUNDS {
        let limits = Limits {
            ids: IDS,
            epochs,
            input,
        };
        if !ends(alloc, &limits, LIMITED, status, told)? {
            return Ok(Some(input));
        }
    }
    Ok(None)
}

#[test]
fn limits_end_a_run(rt: HostRuntime) -> Result<(), Fail> {
    assert!(rt; wrong_bound(rt.alloc())?.is_none());
    Ok(())
}

const TWO_IDS: Limits = Limits {
    ids: 2,
    epochs: LIMITS.epochs,
    input: LIMITS.input,
};

#[test]
fn an_epoch_has_so_many_ids(rt: HostRuntime) -> Result<(), Fail> {
    let script =
        b"address A max 1000 page 1 ahead 0 dup 0\nsend A body x\nqueue Q on A\nsend A body x\nsend A body x\nsend A body x\ncount Q\n";
    let replies = b"ok\nunrouted\nok\nsent 1-1\nsent 1-2\nno ids\ncount 2\n";
    assert!(rt; ends(rt.alloc(), &TWO_IDS, script, 0, replies)?);
    Ok(())
}

/// A line for each of the addresses that there may be and one more, and for one that is there.
fn address_lines(alloc: Global) -> Result<Vec<u8>, AllocError> {
    let mut script = Vec::new(alloc);
    for number in 0..1001u32 {
        let line = format!(in alloc; "address a{number} max 0 page 1 ahead 0 dup 0\n")?;
        script.extend_from_slice(line.as_bytes())?;
    }
    script.extend_from_slice(b"address a7 max 0 page 1 ahead 0 dup 0\n")?;
    Ok(script)
}

/// The replies to these. A name that is taken is told before the number of addresses is looked at.
fn address_replies(alloc: Global) -> Result<Vec<u8>, AllocError> {
    let mut replies = Vec::new(alloc);
    for _ in 0..1000 {
        replies.extend_from_slice(b"ok\n")?;
    }
    replies.extend_from_slice(b"no room\nno name\n")?;
    Ok(replies)
}

#[test]
fn a_further_address_than_there_may_be_is_refused(rt: HostRuntime) -> Result<(), Fail> {
    let script = address_lines(rt.alloc())?;
    let replies = address_replies(rt.alloc())?;
    assert!(rt; answers_first(rt.alloc(), script.as_slice(), replies.as_slice())?);
    Ok(())
}

/// A script that makes an address and a queue and sends a body of so many bytes, which weighs 15 bytes more.
fn heavy_script(alloc: Global, length: usize) -> Result<Vec<u8>, AllocError> {
    let mut script = Vec::new(alloc);
    script.extend_from_slice(b"address A max 1 page 1 ahead 0 dup 0\nqueue Q on A\nsend A body ")?;
    script.extend_from_slice(vec![in alloc; b'b'; length]?.as_slice())?;
    script.extend_from_slice(b"\n")?;
    Ok(script)
}

/// Lengths of bodies, and the replies to them. A message weighs less than 102,400 bytes.
const HEAVY: [(usize, &[u8]); 2] = [
    (102_384, b"ok\nok\nsent 1-1\n"),
    (102_385, b"ok\nok\nno size\n"),
];

/// The first length that is answered otherwise.
fn wrong_length(alloc: Global) -> Result<Option<usize>, AllocError> {
    for (length, replies) in HEAVY {
        let script = heavy_script(alloc, length)?;
        if !answers_first(alloc, script.as_slice(), replies)? {
            return Ok(Some(length));
        }
    }
    Ok(None)
}

#[test]
fn a_message_is_lighter_than_its_limit(rt: HostRuntime) -> Result<(), Fail> {
    assert!(rt; wrong_length(rt.alloc())?.is_none());
    Ok(())
}
