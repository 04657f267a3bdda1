// Consumers over runs, one after the other: what isn't acknowledged comes again.
use pg_disk::MemSite;
use pg_scenarios::stage::answers;
use std::alloc::{AllocError, Global};
use std::test::Fail;

/// The lines of a run, and the replies to them.
type Run = (&'static [u8], &'static [u8]);

/// What the runs over one folder are about, and the runs.
const CASES: [(&str, &[Run]); 3] = [
    (
        "what isn't acknowledged comes again",
        &[
            (
                b"address A max 1000 page 100 ahead 0 dup 0\nqueue Q on A\nsend A prop k -1 body x\nsend A hex -\nconsumer C on Q\nreceive C\nreceive C\nack C 1-2\n",
                b"ok\nok\nsent 1-1\nsent 1-2\nok\nmsg 1-1 prop k -1 hex 78\nmsg 1-2 hex -\nok\n",
            ),
            (
                b"receive C\nack C 1-1\nsend A body y\nconsumer C on Q\nack C 1-1\nreceive C\nreceive C\nreceive C\ncancel C 2-1\ncancel C 1-1\nreceive C\nreceive C\nack C 2-1\n",
                b"no consumer\nno consumer\nsent 2-1\nok\nno delivery\nmsg 1-1 prop k -1 hex 78\nmsg 2-1 hex 79\nempty\nok\nok\nmsg 1-1 prop k -1 hex 78\nmsg 2-1 hex 79\nok\n",
            ),
            (b"count Q\ndrop Q\n", b"count 1\nok\n"),
            (b"count Q\n", b"no queue\n"),
        ],
    ),
    (
        "a message that one of its queues has no more",
        &[
            (
                b"address A max 1000 page 100 ahead 0 dup 0\nqueue Q on A\nqueue R on A\nsend A body x\nconsumer C on Q\nreceive C\nack C 1-1\n",
                b"ok\nok\nok\nsent 1-1\nok\nmsg 1-1 hex 78\nok\n",
            ),
            (
                b"count Q\ncount R\nconsumer C on Q\nreceive C\nconsumer D on R\nreceive D\nack D 1-1\n",
                b"count 0\ncount 1\nok\nempty\nok\nmsg 1-1 hex 78\nok\n",
            ),
            (b"count Q\ncount R\n", b"count 0\ncount 0\n"),
        ],
    ),
    (
        "a queue that is dropped while another one holds its messages",
        &[
            (
                b"address A max 1000 page 100 ahead 0 dup 0\nqueue Q on A\nqueue R on A\nsend A body x\nsend A body y\nconsumer C on R\nreceive C\ndrop Q\nreceive C\nack C 1-1\ncount R\nqueue Q on A\nconsumer D on Q\nreceive D\nsend A body z\nreceive D\nreceive C\nack D 1-3\n",
                b"ok\nok\nok\nsent 1-1\nsent 1-2\nok\nmsg 1-1 hex 78\nok\nmsg 1-2 hex 79\nok\ncount 1\nok\nok\nempty\nsent 1-3\nmsg 1-3 hex 7a\nmsg 1-3 hex 7a\nok\n",
            ),
            (
                b"count Q\ncount R\nconsumer C on R\nreceive C\nreceive C\nreceive C\n",
                b"count 0\ncount 2\nok\nmsg 1-2 hex 79\nmsg 1-3 hex 7a\nempty\n",
            ),
        ],
    ),
];

/// Whether each of the runs goes on where the one before it ended.
fn goes_on(alloc: Global, runs: &[Run]) -> Result<bool, AllocError> {
    let mut site = MemSite::new(alloc);
    for (script, replies) in runs {
        if !answers(alloc, &mut site, *script, *replies)? {
            return Ok(false);
        }
    }
    Ok(true)
}

/// The first case that goes otherwise.
fn wrong_case(alloc: Global) -> Result<Option<&'static str>, AllocError> {
    for (name, runs) in CASES {
        if !goes_on(alloc, runs)? {
            return Ok(Some(name));
        }
    }
    Ok(None)
}

#[test]
fn what_is_not_acknowledged_comes_again(rt: HostRuntime) -> Result<(), Fail> {
    assert!(rt; wrong_case(rt.alloc())?.is_none());
    Ok(())
}
