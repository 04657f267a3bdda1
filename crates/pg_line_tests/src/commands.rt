use crate::cases::{Case, Wanted, Word, wrong_line};
use std::test::Fail;

// A name of 64 bytes, which is the longest.
const LONGEST: &str = "abcdefghijklmnopqrstuvwxyzABCDEFGHIJKLMNOPQRSTUVWXYZ_.0123456789";

const ADDRESSES: [Case; 21] = [
    (
        b"address A max 50 page 100 ahead 0 dup 0",
        Wanted::Address("A", 50, 100, 0, 0),
    ),
    (
        b"address _a.B-9 max 0 page 1 ahead 1000000000 dup 65535",
        Wanted::Address("_a.B-9", 0, 1, 1_000_000_000, 65_535),
    ),
    (
        b"address abcdefghijklmnopqrstuvwxyzABCDEFGHIJKLMNOPQRSTUVWXYZ_.0123456789 max 1000000000000 page 1000000000 ahead 7 dup 10",
        Wanted::Address(LONGEST, 1_000_000_000_000, 1_000_000_000, 7, 10),
    ),
    (
        b"address abcdefghijklmnopqrstuvwxyzABCDEFGHIJKLMNOPQRSTUVWXYZ_.01234567890 max 50 page 100 ahead 0 dup 0",
        Wanted::Nothing,
    ),
    (b"address 9A max 50 page 100 ahead 0 dup 0", Wanted::Nothing),
    (
        b"address A/B max 50 page 100 ahead 0 dup 0",
        Wanted::Nothing,
    ),
    (
        b"address \xffA max 50 page 100 ahead 0 dup 0",
        Wanted::Nothing,
    ),
    (
        b"address A max 1000000000001 page 100 ahead 0 dup 0",
        Wanted::Nothing,
    ),
    (b"address A max 50 page 0 ahead 0 dup 0", Wanted::Nothing),
    (
        b"address A max 50 page 1000000001 ahead 0 dup 0",
        Wanted::Nothing,
    ),
    (
        b"address A max 50 page 100 ahead 1000000001 dup 0",
        Wanted::Nothing,
    ),
    (
        b"address A max 50 page 100 ahead 0 dup 65536",
        Wanted::Nothing,
    ),
    (b"address A max 050 page 100 ahead 0 dup 0", Wanted::Nothing),
    (b"address A max +5 page 100 ahead 0 dup 0", Wanted::Nothing),
    (
        b"address A max 18446744073709551616 page 100 ahead 0 dup 0",
        Wanted::Nothing,
    ),
    (b"address A max  page 100 ahead 0 dup 0", Wanted::Nothing),
    (b"address A  max 50 page 100 ahead 0 dup 0", Wanted::Nothing),
    (b"address A max 50 page 100 ahead 0 dup 0 ", Wanted::Nothing),
    (b"address A max 50 page 100 dup 0 ahead 0", Wanted::Nothing),
    (b"address A", Wanted::Nothing),
    (b"Address A max 50 page 100 ahead 0 dup 0", Wanted::Nothing),
];

const QUEUES: [Case; 20] = [
    (b"queue Q on A", Wanted::Queue("Q", "A", None)),
    (b"queue on on on", Wanted::Queue("on", "on", None)),
    (
        b"queue Q on abcdefghijklmnopqrstuvwxyzABCDEFGHIJKLMNOPQRSTUVWXYZ_.0123456789",
        Wanted::Queue("Q", LONGEST, None),
    ),
    (
        b"queue abcdefghijklmnopqrstuvwxyzABCDEFGHIJKLMNOPQRSTUVWXYZ_.0123456789 on A",
        Wanted::Queue(LONGEST, "A", None),
    ),
    (
        b"queue Q on abcdefghijklmnopqrstuvwxyzABCDEFGHIJKLMNOPQRSTUVWXYZ_.01234567890",
        Wanted::Nothing,
    ),
    (
        b"queue abcdefghijklmnopqrstuvwxyzABCDEFGHIJKLMNOPQRSTUVWXYZ_.01234567890 on A",
        Wanted::Nothing,
    ),
    (b"queue Q on A ", Wanted::Nothing),
    (b"queue Q on ", Wanted::Nothing),
    (b"queue Q on \xff", Wanted::Nothing),
    (b"queue Q  on A", Wanted::Nothing),
    (b"queue  on A", Wanted::Nothing),
    // A filter is a text, whether it can be read as a filter or not.
    (
        b"queue Q on A where a BETWEEN 1 OR 3",
        Wanted::Queue("Q", "A", Some("a BETWEEN 1 OR 3")),
    ),
    (
        b"queue where on where where where",
        Wanted::Queue("where", "where", Some("where")),
    ),
    (b"queue Q on A where ", Wanted::Queue("Q", "A", Some(""))),
    (
        b"queue Q on A where  x ",
        Wanted::Queue("Q", "A", Some(" x ")),
    ),
    (
        b"queue Q on A where \xc3\xa9",
        Wanted::Queue("Q", "A", Some("\u{e9}")),
    ),
    (b"queue Q on A where \xc3", Wanted::Nothing),
    (b"queue Q on A where", Wanted::Nothing),
    (b"queue Q on A  where x", Wanted::Nothing),
    (b"queue Q on A WHERE x", Wanted::Nothing),
];

const CONSUMERS: [Case; 33] = [
    (b"consumer C on Q", Wanted::Consumer("C", "Q")),
    (b"consumer on on on", Wanted::Consumer("on", "on")),
    (b"consumer C on Q ", Wanted::Nothing),
    (b"consumer C Q", Wanted::Nothing),
    (b"consumer C on", Wanted::Nothing),
    (b"ack C 1-1", Wanted::Ack((1, 1), None)),
    (b"ack C 12-30 tx T", Wanted::Ack((12, 30), Some("T"))),
    (
        b"ack C 4294967295-4294967295",
        Wanted::Ack((4_294_967_295, 4_294_967_295), None),
    ),
    (b"ack C 0-1", Wanted::Nothing),
    (b"ack C 1-0", Wanted::Nothing),
    (b"ack C 4294967296-1", Wanted::Nothing),
    (b"ack C 1-4294967296", Wanted::Nothing),
    (b"ack C 01-1", Wanted::Nothing),
    (b"ack C 1-01", Wanted::Nothing),
    (b"ack C 1", Wanted::Nothing),
    (b"ack C 1-", Wanted::Nothing),
    (b"ack C -1", Wanted::Nothing),
    (b"ack C 1--1", Wanted::Nothing),
    (b"ack C 1-1-1", Wanted::Nothing),
    (b"ack C +1-1", Wanted::Nothing),
    (b"ack C 1-1 ", Wanted::Nothing),
    (b"ack C  1-1", Wanted::Nothing),
    (b"ack C 1-1 tx", Wanted::Nothing),
    (b"ack C 1-1 tx T ", Wanted::Nothing),
    (b"ack C 1-1 id 00", Wanted::Nothing),
    (b"cancel C 7-1", Wanted::Cancel((7, 1))),
    (b"cancel C 7-1 tx T", Wanted::Nothing),
    (b"cancel C", Wanted::Nothing),
    (b"part-of C 1-1 3 1", Wanted::PartOf(3, 1)),
    (
        b"part-of C 1-1 4611686018427387904 65536",
        Wanted::PartOf(4_611_686_018_427_387_904, 65_536),
    ),
    (b"part-of C 1-1 4611686018427387905 65536", Wanted::Nothing),
    (b"part-of C 1-1 0 65537", Wanted::Nothing),
    (b"part-of C 1-1 0 0 ", Wanted::Nothing),
];

const NAMES: [Case; 25] = [
    (b"drop N", Wanted::One(Word::Drop)),
    (b"begin N", Wanted::One(Word::Begin)),
    (b"commit N", Wanted::One(Word::Commit)),
    (b"rollback N", Wanted::One(Word::Rollback)),
    (b"receive N", Wanted::One(Word::Receive)),
    (b"close N", Wanted::One(Word::Close)),
    (b"end N", Wanted::One(Word::End)),
    (b"cleanup N", Wanted::One(Word::Cleanup)),
    (b"ahead N", Wanted::One(Word::Ahead)),
    (b"stat N", Wanted::One(Word::Stat)),
    (b"count N", Wanted::One(Word::Count)),
    (b"checkpoint", Wanted::Checkpoint),
    (b"checkpoint ", Wanted::Nothing),
    (b"checkpoint N", Wanted::Nothing),
    (b"checkpoin", Wanted::Nothing),
    (b"receive", Wanted::Nothing),
    (b"receive ", Wanted::Nothing),
    (b"receive N ", Wanted::Nothing),
    (b"receive N M", Wanted::Nothing),
    (b"receiveN", Wanted::Nothing),
    (b" count N", Wanted::Nothing),
    (b"COUNT N", Wanted::Nothing),
    (b"count \xc3\xa9", Wanted::Nothing),
    (b" ", Wanted::Nothing),
    (b"", Wanted::Nothing),
];

#[test]
fn reads_what_is_made(rt: HostRuntime) -> Result<(), Fail> {
    assert!(rt;
        wrong_line(rt.alloc(), &ADDRESSES)?.is_none() && wrong_line(rt.alloc(), &QUEUES)?.is_none()
    );
    Ok(())
}

#[test]
fn reads_what_consumers_do(rt: HostRuntime) -> Result<(), Fail> {
    assert!(rt;
        wrong_line(rt.alloc(), &CONSUMERS)?.is_none() && wrong_line(rt.alloc(), &NAMES)?.is_none()
    );
    Ok(())
}
