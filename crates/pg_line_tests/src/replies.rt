use crate::cases::{Plain, Plains, properties};
use pg_bytes::Octets;
use pg_msg::{Body, Message, MessageId, Refusal, Reply};
use pg_text::render;
use std::alloc::{AllocError, Global};
use std::test::Fail;

const LAST: MessageId = MessageId {
    epoch: 1,
    number: 4_294_967_295,
};

// Refusals with their lines.
const REFUSALS: [(Refusal, &str); 16] = [
    (Refusal::Line, "no line\n"),
    (Refusal::Name, "no name\n"),
    (Refusal::Room, "no room\n"),
    (Refusal::Address, "no address\n"),
    (Refusal::Queue, "no queue\n"),
    (Refusal::Filter(12), "no filter 12\n"),
    (Refusal::ConsumerOpen, "no consumer-open\n"),
    (Refusal::Tx, "no tx\n"),
    (Refusal::TxFailed, "no failed\n"),
    (Refusal::Size, "no size\n"),
    (Refusal::Duplicate, "no duplicate\n"),
    (Refusal::Ids, "no ids\n"),
    (Refusal::Consumer, "no consumer\n"),
    (Refusal::Delivery, "no delivery\n"),
    (Refusal::Large, "no large\n"),
    (Refusal::Range, "no range\n"),
];

// A duplicate id, properties, and the body of a message 1-1, with its line.
type Given = (Option<&'static [u8]>, Plains<'static>, Kind, &'static str);

#[derive(Clone, Copy)]
enum Kind {
    Plain(&'static [u8]),
    Large(u64),
}

const GIVEN: [Given; 5] = [
    (None, &[], Kind::Plain(b""), "msg 1-1 hex -\n"),
    (
        None,
        &[("k", Plain::Whole(-1))],
        Kind::Plain(b"x"),
        "msg 1-1 prop k -1 hex 78\n",
    ),
    (
        Some(b"ord-1"),
        &[("region", Plain::Text("EU")), ("total", Plain::Whole(250))],
        Kind::Plain(b"{\"order\":1}"),
        "msg 1-1 id 6f72642d31 prop region 'EU' prop total 250 hex 7b226f72646572223a317d\n",
    ),
    (
        None,
        &[("k", Plain::Whole(1))],
        Kind::Large(4),
        "msg 1-1 prop k 1 large 4\n",
    ),
    (
        Some(b"\x00\xff"),
        &[
            ("a", Plain::Truth(true)),
            ("b", Plain::Truth(false)),
            ("c", Plain::Text("it's ")),
            ("d", Plain::Whole(i64::MIN)),
        ],
        Kind::Large(u64::MAX),
        "msg 1-1 id 00ff prop a TRUE prop b FALSE prop c 'it''s ' prop d -9223372036854775808 large 18446744073709551615\n",
    ),
];

// Whether the reply has this line.
fn has_line(alloc: Global, reply: Reply, line: &str) -> Result<bool, AllocError> {
    Ok(render(alloc, &reply)?.as_slice() == line.as_bytes())
}

// The first refusal that is written otherwise.
fn wrong_refusal(alloc: Global) -> Result<Option<&'static str>, AllocError> {
    for (refusal, line) in REFUSALS {
        if !has_line(alloc, Reply::No(refusal), line)? {
            return Ok(Some(line));
        }
    }
    Ok(None)
}

fn message(
    alloc: Global,
    dup: Option<&[u8]>,
    plains: Plains<'_>,
    kind: Kind,
) -> Result<Message, AllocError> {
    let dup = match dup {
        Some(id) => Some(Octets::from_slice(alloc, id)?),
        None => None,
    };
    let body = match kind {
        Kind::Plain(bytes) => Body::Plain(Octets::from_slice(alloc, bytes)?),
        Kind::Large(size) => Body::Large(size),
    };
    Ok(Message {
        id: MessageId {
            epoch: 1,
            number: 1,
        },
        dup,
        properties: properties(alloc, plains)?,
        body,
    })
}

// The first message that is written otherwise.
fn wrong_message(alloc: Global) -> Result<Option<&'static str>, AllocError> {
    for (dup, plains, kind, line) in GIVEN {
        let message = message(alloc, dup, plains, kind)?;
        if !has_line(alloc, Reply::Given(message), line)? {
            return Ok(Some(line));
        }
    }
    Ok(None)
}

fn stat(paging: bool, resident: u64) -> Reply {
    Reply::Stat {
        paging,
        resident,
        loaded: 20,
        pages: 2,
        first: 3,
    }
}

fn writes_words(alloc: Global) -> Result<bool, AllocError> {
    Ok(
        has_line(alloc, Reply::Done, "ok\n")?
            && has_line(alloc, Reply::Unrouted, "unrouted\n")?
            && has_line(alloc, Reply::Empty, "empty\n")?
            && has_line(alloc, Reply::Nothing, "nothing\n")?
            && has_line(alloc, Reply::Sent(LAST), "sent 1-4294967295\n")?,
    )
}

fn writes_numbers(alloc: Global) -> Result<bool, AllocError> {
    let count = Reply::Count(u64::MAX);
    let piece = Octets::from_slice(alloc, b"\x64\xAB")?;
    Ok(
        has_line(alloc, count, "count 18446744073709551615\n")?
            && has_line(alloc, Reply::Removed(1), "removed 1\n")?
            && has_line(alloc, Reply::First(10), "first 10\n")?
            && has_line(alloc, Reply::Bytes(piece), "bytes 64ab\n")?
            && has_line(alloc, Reply::Bytes(Octets::new(alloc)), "bytes -\n")?,
    )
}

fn writes_stats(alloc: Global) -> Result<bool, AllocError> {
    Ok(
        has_line(
            alloc,
            stat(true, 60),
            "stat paging resident 60 loaded 20 pages 2 first 3\n",
        )? && has_line(
            alloc,
            stat(false, 0),
            "stat normal resident 0 loaded 20 pages 2 first 3\n",
        )?,
    )
}

#[test]
fn writes_refusals(rt: HostRuntime) -> Result<(), Fail> {
    assert!(rt; wrong_refusal(rt.alloc())?.is_none());
    Ok(())
}

#[test]
fn writes_replies(rt: HostRuntime) -> Result<(), Fail> {
    let alloc = rt.alloc();
    let words = writes_words(alloc)? && writes_numbers(alloc)?;
    assert!(rt; words && writes_stats(alloc)? && wrong_message(alloc)?.is_none());
    Ok(())
}
