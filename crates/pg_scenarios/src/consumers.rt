// Scripts with consumers.
use crate::stage::answers_first;
use std::alloc::{AllocError, Global};
use std::test::Fail;

/// What a script is about, the script, and the replies to it.
const SCRIPTS: [(&str, &[u8], &[u8]); 7] = [
    (
        "given, canceled and acknowledged",
        b"address A max 1000 page 100 ahead 0 dup 0\nqueue Q on A\nsend A prop k -1 body x\nsend A hex -\nconsumer C on Q\nreceive C\nreceive C\nreceive C\ncancel C 1-1\nreceive C\nack C 1-2\nack C 1-2\ncount Q\n",
        b"ok\nok\nsent 1-1\nsent 1-2\nok\nmsg 1-1 prop k -1 hex 78\nmsg 1-2 hex -\nempty\nok\nmsg 1-1 prop k -1 hex 78\nok\nno delivery\ncount 1\n",
    ),
    (
        "refusals",
        b"drop Q\nqueue Q on A\nack C 1-1\nreceive C\ncancel C 1-1\nclose C\nconsumer C on Q\naddress A max 1000 page 100 ahead 0 dup 0\nqueue Q on A\nconsumer C on Q\ndrop Q\nconsumer C on Q\nconsumer C on R\nack C 1-1\ncancel C 1-1\nconsumer Q on Q\nclose C\ndrop Q\nclose C\nclose Q\ndrop Q\n",
        b"no queue\nno address\nno consumer\nno consumer\nno consumer\nno consumer\nno queue\nok\nok\nok\nno consumer-open\nno name\nno name\nno delivery\nno delivery\nok\nok\nno consumer-open\nno consumer\nok\nok\n",
    ),
    (
        "two consumers of one queue",
        b"address A max 1000 page 100 ahead 0 dup 0\nqueue Q on A\nconsumer C on Q\nreceive C\nsend A body a\nsend A body b\nsend A body c\nconsumer D on Q\nreceive D\nreceive C\nreceive D\nreceive C\nack C 1-1\ncancel C 1-3\ncount Q\ncancel D 1-1\nreceive C\ncancel D 1-1\nack C 1-1\nack D 1-3\ncount Q\nclose C\nreceive D\nack D 1-2\nreceive D\ncount Q\n",
        b"ok\nok\nok\nempty\nsent 1-1\nsent 1-2\nsent 1-3\nok\nmsg 1-1 hex 61\nmsg 1-2 hex 62\nmsg 1-3 hex 63\nempty\nno delivery\nno delivery\ncount 3\nok\nmsg 1-1 hex 61\nno delivery\nok\nok\ncount 1\nok\nmsg 1-2 hex 62\nok\nempty\ncount 0\n",
    ),
    (
        "places behind a close and behind cancels",
        b"address A max 1000 page 100 ahead 0 dup 0\nqueue Q on A\nsend A body a\nsend A body b\nsend A body c\nsend A body d\nconsumer C on Q\nconsumer D on Q\nreceive C\nreceive D\nreceive C\nclose C\nreceive D\nreceive D\nreceive D\nreceive D\ncancel D 1-4\ncancel D 1-1\ncancel D 1-2\nsend A body e\nreceive D\nreceive D\nreceive D\nreceive D\nreceive D\ncount Q\n",
        b"ok\nok\nsent 1-1\nsent 1-2\nsent 1-3\nsent 1-4\nok\nok\nmsg 1-1 hex 61\nmsg 1-2 hex 62\nmsg 1-3 hex 63\nok\nmsg 1-1 hex 61\nmsg 1-3 hex 63\nmsg 1-4 hex 64\nempty\nok\nok\nok\nsent 1-5\nmsg 1-1 hex 61\nmsg 1-2 hex 62\nmsg 1-4 hex 64\nmsg 1-5 hex 65\nempty\ncount 5\n",
    ),
    (
        "one message in two queues",
        b"address A max 1000 page 100 ahead 0 dup 0\nqueue Q on A\nqueue R on A\nsend A body x\nconsumer C on Q\nconsumer D on R\nreceive C\nreceive D\nack C 1-1\ncount Q\ncount R\nack C 1-1\nreceive C\ncancel D 1-1\nreceive D\nack D 1-1\ncount R\n",
        b"ok\nok\nok\nsent 1-1\nok\nok\nmsg 1-1 hex 78\nmsg 1-1 hex 78\nok\ncount 0\ncount 1\nno delivery\nempty\nok\nmsg 1-1 hex 78\nok\ncount 0\n",
    ),
    (
        "room that acknowledgements leave",
        b"address A max 16 page 100 ahead 0 dup 0\nqueue Q on A\nqueue R on A\nsend A body x\nsend A body y\nconsumer C on Q\nconsumer D on R\nreceive C\nack C 1-1\nsend A body y\nreceive D\nsend A body y\nack D 1-1\nsend A body y\nsend A body z\n",
        b"ok\nok\nok\nsent 1-1\nno line\nok\nok\nmsg 1-1 hex 78\nok\nno line\nmsg 1-1 hex 78\nno line\nok\nsent 1-2\nno line\n",
    ),
    (
        "a name that is taken again",
        b"address A max 1000 page 100 ahead 0 dup 0\nqueue Q on A\nsend A body x\nconsumer C on Q\nreceive C\nclose C\ndrop Q\nqueue Q on A\nconsumer C on Q\nreceive C\nack C 1-1\nsend A body y\nreceive C\nack C 1-2\ncount Q\n",
        b"ok\nok\nsent 1-1\nok\nmsg 1-1 hex 78\nok\nok\nok\nok\nempty\nno delivery\nsent 1-2\nmsg 1-2 hex 79\nok\ncount 0\n",
    ),
];

/// The first script that isn't answered so.
fn wrong_script(alloc: Global) -> Result<Option<&'static str>, AllocError> {
    for (name, script, replies) in SCRIPTS {
        if !answers_first(alloc, script, replies)? {
            return Ok(Some(name));
        }
    }
    Ok(None)
}

#[test]
fn consumers_are_answered(rt: HostRuntime) -> Result<(), Fail> {
    assert!(rt; wrong_script(rt.alloc())?.is_none());
    Ok(())
}
