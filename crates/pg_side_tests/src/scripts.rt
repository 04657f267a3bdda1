// Scripts that are made from numbers: the same number makes the same script.
use pg_bytes::Octets;
use pg_msg::LIMITS;
use rand_core::Rng;
use rand_pcg::Pcg32;
use std::alloc::{AllocError, Global};

/// The generator's stream, which is that of every script.
const STREAM: u64 = 17;

/// So few names that many are taken, and many are of nothing. The first ones are drawn more often.
const ADDRESSES: [&str; 3] = ["A", "B", "C"];

const QUEUES: [&str; 4] = ["Q", "R", "S", "T"];

const CONSUMERS: [&str; 3] = ["C", "D", "E"];

/// What stands between the address of a message and its body.
const PROPERTIES: [&str; 5] = [
    "",
    "",
    " prop k -1",
    " prop k 'it''s' prop l TRUE",
    " prop region 'EU' prop total 250",
];

/// What stands behind a queue's address: of twelve times nothing five times, a filter five times, and twice a text that has no
/// reading.
const FILTERS: [&str; 12] = [
    "",
    "",
    "",
    "",
    "",
    " where k = -1",
    " where NOT k = -1 OR region = 'EU'",
    " where total BETWEEN 1 AND 300",
    " where k IS NULL",
    " where l AND k LIKE '%''s'",
    " where k = 1 = 2",
    " where l = 1 > 2",
];

/// A run that doesn't begin so may have no queue for long, or no consumer.
const BEGINNING: [&str; 3] = [
    "address A max 10000 page 100 ahead 0 dup 0",
    "queue Q on A",
    "consumer C on Q",
];

/// More messages than any queue has at the end of a script.
const RECEIVES: u32 = 24;

const DIGITS: [u8; 22] = *b"0123456789abcdefABCDEF";

/// A script: how many message ids an epoch has, and the lines of each run, without the byte 10 at their ends.
pub(crate) struct Script {
    pub(crate) ids: u32,
    pub(crate) runs: Vec<Vec<Octets>>,
}

impl Drop for Script {
    fn drop(self) {
        let Script {
            ids: _ids,
            runs: _runs,
        } = self;
    }
}

fn address_name(rng: &mut Pcg32) -> &'static str {
    let one = rng.next_u32() % 3;
    let other = rng.next_u32() % 3;
    ADDRESSES[one.min(other) as usize]
}

fn queue_name(rng: &mut Pcg32) -> &'static str {
    let one = rng.next_u32() % 4;
    let other = rng.next_u32() % 4;
    QUEUES[one.min(other) as usize]
}

fn consumer_name(rng: &mut Pcg32) -> &'static str {
    let one = rng.next_u32() % 3;
    let other = rng.next_u32() % 3;
    CONSUMERS[one.min(other) as usize]
}

fn properties(rng: &mut Pcg32) -> &'static str {
    PROPERTIES[(rng.next_u32() % 5) as usize]
}

/// A line that makes an address. Its `max` is above what all messages of a script weigh.
fn address_line(alloc: Global, rng: &mut Pcg32) -> Result<Octets, AllocError> {
    let name = address_name(rng);
    let more = rng.next_u32() % 1_000;
    let line = format!(in alloc;
        "address {name} max 1000{more} page 1{more} ahead {more} dup {more}"
    )?;
    Octets::from_slice(alloc, line.as_bytes())
}

fn queue_line(alloc: Global, rng: &mut Pcg32) -> Result<Octets, AllocError> {
    let name = queue_name(rng);
    let address = address_name(rng);
    let filter = FILTERS[(rng.next_u32() % 12) as usize];
    let line = format!(in alloc; "queue {name} on {address}{filter}")?;
    Octets::from_slice(alloc, line.as_bytes())
}

fn consumer_line(alloc: Global, rng: &mut Pcg32) -> Result<Octets, AllocError> {
    let name = consumer_name(rng);
    let queue = queue_name(rng);
    let line = format!(in alloc; "consumer {name} on {queue}")?;
    Octets::from_slice(alloc, line.as_bytes())
}

/// A line that has one word, a consumer's name, and the id of a message that may be there: one of the first four numbers of this
/// epoch or, of four times once, of any up to it. The lower numbers are drawn more often.
fn delivery_line(
    alloc: Global,
    word: &str,
    epoch: u32,
    rng: &mut Pcg32,
) -> Result<Octets, AllocError> {
    let name = consumer_name(rng);
    let any = 1 + rng.next_u32() % epoch.max(1);
    let of = if rng.next_u32() % 4 == 0 { any } else { epoch };
    let one = rng.next_u32() % 4;
    let other = rng.next_u32() % 4;
    let number = 1 + one.min(other);
    let line = format!(in alloc; "{word} {name} {of}-{number}")?;
    Octets::from_slice(alloc, line.as_bytes())
}

/// A line that has one word and a name.
fn line_on(alloc: Global, word: &str, name: &str) -> Result<Octets, AllocError> {
    let line = format!(in alloc; "{word} {name}")?;
    Octets::from_slice(alloc, line.as_bytes())
}

/// Any byte that may stand within a line.
fn body_byte(rng: &mut Pcg32) -> u8 {
    match (rng.next_u32() % 256) as u8 {
        b'\n' => b' ',
        byte => byte,
    }
}

fn put_bytes(line: &mut Vec<u8>, rng: &mut Pcg32, count: u32) -> Result<(), AllocError> {
    line.extend_from_slice(b" body ")?;
    for _ in 0..count {
        line.push(body_byte(rng))?;
    }
    Ok(())
}

fn put_digits(line: &mut Vec<u8>, rng: &mut Pcg32, count: u32) -> Result<(), AllocError> {
    if count == 0 {
        return line.extend_from_slice(b" hex -");
    }
    line.extend_from_slice(b" hex ")?;
    for _ in 0..count {
        line.push(DIGITS[(rng.next_u32() % 22) as usize])?;
        line.push(DIGITS[(rng.next_u32() % 22) as usize])?;
    }
    Ok(())
}

/// A line that sends a message with a body of 0 to 40 bytes.
fn send_line(alloc: Global, rng: &mut Pcg32) -> Result<Octets, AllocError> {
    let address = address_name(rng);
    let properties = properties(rng);
    let head = format!(in alloc; "send {address}{properties}")?;
    let mut line = Vec::from_slice(alloc, head.as_bytes())?;
    let count = rng.next_u32() % 41;
    if rng.next_u32() % 2 == 0 {
        put_bytes(&mut line, rng, count)?;
    } else {
        put_digits(&mut line, rng, count)?;
    }
    Ok(Octets::from_vec(line))
}

/// Some line of the commands on addresses and queues. Two in five send a message.
fn sending_line(alloc: Global, rng: &mut Pcg32) -> Result<Octets, AllocError> {
    match rng.next_u32() % 20 {
        0..=3 => address_line(alloc, rng),
        4..=7 => queue_line(alloc, rng),
        8 => line_on(alloc, "drop", queue_name(rng)),
        9..=11 => line_on(alloc, "count", queue_name(rng)),
        _ => send_line(alloc, rng),
    }
}

/// Some line of the commands on consumers.
fn consuming_line(alloc: Global, epoch: u32, rng: &mut Pcg32) -> Result<Octets, AllocError> {
    match rng.next_u32() % 16 {
        0..=2 => consumer_line(alloc, rng),
        3..=8 => line_on(alloc, "receive", consumer_name(rng)),
        9..=12 => delivery_line(alloc, "ack", epoch, rng),
        13..=14 => delivery_line(alloc, "cancel", epoch, rng),
        _ => line_on(alloc, "close", consumer_name(rng)),
    }
}

/// Some line of the commands that the program serves, in the run of that epoch.
fn any_line(alloc: Global, epoch: u32, rng: &mut Pcg32) -> Result<Octets, AllocError> {
    if rng.next_u32() % 2 == 0 {
        sending_line(alloc, rng)
    } else {
        consuming_line(alloc, epoch, rng)
    }
}

/// What each run of a script begins with, but for every fourth script.
fn beginning(alloc: Global, number: u64) -> Result<Vec<Octets>, AllocError> {
    let mut lines = Vec::new(alloc);
    if number % 4 != 0 {
        for line in BEGINNING {
            lines.push(Octets::from_slice(alloc, line.as_bytes())?)?;
        }
    }
    Ok(lines)
}

/// 24 to 39 lines more, in the run of that epoch.
fn put_lines(
    alloc: Global,
    lines: &mut Vec<Octets>,
    epoch: u32,
    rng: &mut Pcg32,
) -> Result<(), AllocError> {
    for _ in 0..24 + rng.next_u32() % 16 {
        lines.push(any_line(alloc, epoch, rng)?)?;
    }
    Ok(())
}

/// Lines that ask for all that a queue of that name has: its count, and message after message, for a consumer of its own.
fn put_receives(alloc: Global, lines: &mut Vec<Octets>, name: &str) -> Result<(), AllocError> {
    lines.push(line_on(alloc, "count", name)?)?;
    let line = format!(in alloc; "consumer {name} on {name}")?;
    lines.push(Octets::from_slice(alloc, line.as_bytes())?)?;
    for _ in 0..RECEIVES {
        lines.push(line_on(alloc, "receive", name)?)?;
    }
    Ok(())
}

/// The lines that ask for all that every queue has.
fn receives(alloc: Global) -> Result<Vec<Octets>, AllocError> {
    let mut lines = Vec::new(alloc);
    for name in QUEUES {
        put_receives(alloc, &mut lines, name)?;
    }
    Ok(lines)
}

/// The script of that number: two or three runs, and one more that asks for all that every queue has. In every third script an
/// epoch has two message ids.
pub(crate) fn made_script(alloc: Global, number: u64) -> Result<Script, AllocError> {
    let mut rng = Pcg32::new(number, STREAM);
    let mut runs = Vec::new(alloc);
    for run in 0..2 + rng.next_u32() % 2 {
        let mut lines = beginning(alloc, number)?;
        put_lines(alloc, &mut lines, run + 1, &mut rng)?;
        runs.push(lines)?;
    }
    runs.push(receives(alloc)?)?;
    let ids = if number % 3 == 0 { 2 } else { LIMITS.ids };
    Ok(Script { ids, runs })
}
