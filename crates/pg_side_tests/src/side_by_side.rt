// Both brokers over one script after the other.
use crate::scripts::{Script, made_script};
use pg_bytes::Octets;
use pg_disk::{MemSite, MemSource};
use pg_msg::QUEUE_ID_LIMIT;
use pg_plain::{Broker, Plain};
use pg_run::{LIMITS, Limits, serve};
use pg_text::{parse_line, render};
use std::alloc::{AllocError, Global};
use std::test::Fail;

/// The scripts have the numbers from 1 to this one.
const LAST: u64 = 120;

/// The unpaged broker behind the line, and its reply. None where the line is unreadable, or no queue id is left.
fn stepped(
    alloc: Global,
    plain: Plain,
    line: &[u8],
) -> Result<Option<(Plain, Octets)>, AllocError> {
    let Some(command) = parse_line(alloc, line)? else {
        return Ok(None);
    };
    if plain.next_queue() >= QUEUE_ID_LIMIT {
        return Ok(None);
    }
    let (plain, reply) = plain.step(alloc, command)?;
    Ok(Some((plain, render(alloc, &reply)?)))
}

/// The unpaged broker behind the lines of a run, and its replies.
fn unpaged_run(
    alloc: Global,
    mut plain: Plain,
    lines: &[Octets],
) -> Result<Option<(Plain, Vec<Octets>)>, AllocError> {
    let mut replies = Vec::new(alloc);
    for line in lines {
        let Some((next, reply)) = stepped(alloc, plain, line.as_slice())? else {
            return Ok(None);
        };
        plain = next;
        replies.push(reply)?;
    }
    Ok(Some((plain, replies)))
}

/// The unpaged broker opened anew. None where no epoch is left.
fn reopened(plain: Plain) -> Option<Plain> {
    if plain.epoch() >= u32::MAX {
        return None;
    }
    Some(plain.reopened())
}

/// The replies of the unpaged broker to the lines of each run. It is opened anew behind each.
fn unpaged(alloc: Global, script: &Script) -> Result<Option<Vec<Vec<Octets>>>, AllocError> {
    let mut plain = Plain::with_ids(alloc, script.ids);
    let mut all = Vec::new(alloc);
    for lines in &script.runs {
        let Some((next, replies)) = unpaged_run(alloc, plain, lines.as_slice())? else {
            return Ok(None);
        };
        let Some(next) = reopened(next) else {
            return Ok(None);
        };
        plain = next;
        all.push(replies)?;
    }
    Ok(Some(all))
}

/// The pieces one behind the other, each with these bytes at its end.
fn joined(alloc: Global, pieces: &[Octets], end: &[u8]) -> Result<Vec<u8>, AllocError> {
    let mut bytes = Vec::new(alloc);
    for piece in pieces {
        bytes.extend_from_slice(piece.as_slice())?;
        bytes.extend_from_slice(end)?;
    }
    Ok(bytes)
}

/// Whether a run of the program over the site ends with 0, and answers the lines with the replies and no other byte.
fn answers(
    alloc: Global,
    limits: &Limits,
    site: &mut MemSite,
    lines: &[Octets],
    replies: &[Octets],
) -> Result<bool, AllocError> {
    let told = site.told().len();
    let input = joined(alloc, lines, b"\n")?;
    let mut source = MemSource::new(alloc, input.as_slice())?;
    let status = serve(alloc, &mut source, site, limits);
    let wanted = joined(alloc, replies, b"")?;
    Ok(status == 0 && site.short() == 0 && site.told().get(told..) == Some(wanted.as_slice()))
}

/// Whether the program answers each run of the script as the unpaged broker does.
fn is_alike(alloc: Global, script: &Script) -> Result<bool, AllocError> {
    let Some(all) = unpaged(alloc, script)? else {
        return Ok(false);
    };
    let limits = Limits {
        ids: script.ids,
        epochs: LIMITS.epochs,
        input: LIMITS.input,
    };
    let mut site = MemSite::new(alloc);
    for (lines, replies) in script.runs.iter().zip(all.iter()) {
        if !answers(
            alloc,
            &limits,
            &mut site,
            lines.as_slice(),
            replies.as_slice(),
        )? {
            return Ok(false);
        }
    }
    Ok(true)
}

/// The number of the first script that the two answer otherwise.
fn first_unlike(alloc: Global) -> Result<Option<u64>, AllocError> {
    for number in 1..LAST + 1 {
        let script = made_script(alloc, number)?;
        if !is_alike(alloc, &script)? {
            return Ok(Some(number));
        }
    }
    Ok(None)
}

#[test]
fn the_program_answers_as_the_unpaged_broker_does(rt: HostRuntime) -> Result<(), Fail> {
    assert!(rt; first_unlike(rt.alloc())?.is_none());
    Ok(())
}

/// How a line and the reply to it begin.
type Told = (&'static str, &'static str);

/// Each kind of a reply to the commands, and some lines and counts.
const KINDS: [Told; 28] = [
    ("", "ok\n"),
    ("drop ", "ok\n"),
    ("consumer ", "ok\n"),
    ("ack ", "ok\n"),
    ("cancel ", "ok\n"),
    ("close ", "ok\n"),
    ("", "sent 1-"),
    ("", "sent 2-"),
    ("", "unrouted\n"),
    ("", "count 0\n"),
    ("", "count 1\n"),
    ("", "count 2\n"),
    ("", "msg 1-"),
    ("", "msg 2-"),
    ("", "empty\n"),
    ("", "no name\n"),
    ("consumer ", "no name\n"),
    ("", "no address\n"),
    ("", "no queue\n"),
    ("consumer ", "no queue\n"),
    ("queue ", "no filter 6\n"),
    ("", "no consumer-open\n"),
    ("", "no ids\n"),
    ("receive ", "no consumer\n"),
    ("ack ", "no consumer\n"),
    ("close ", "no consumer\n"),
    ("ack ", "no delivery\n"),
    ("cancel ", "no delivery\n"),
];

/// At least so many replies are of each kind.
const AT_LEAST: usize = 20;

/// Whether the line and the reply to it are of that kind.
fn is_of(line: &[u8], reply: &[u8], kind: &Told) -> bool {
    line.starts_with(kind.0.as_bytes()) && reply.starts_with(kind.1.as_bytes())
}

/// Adds the line and the reply to it to the count of each kind that they are of.
fn add_line(counts: &mut [usize], line: &[u8], reply: &[u8]) {
    for (count, kind) in counts.iter_mut().zip(KINDS.iter()) {
        if is_of(line, reply, kind) {
            *count = count.saturating_add(1);
        }
    }
}

fn add_run(counts: &mut [usize], lines: &[Octets], replies: &[Octets]) {
    for (line, reply) in lines.iter().zip(replies.iter()) {
        add_line(counts, line.as_slice(), reply.as_slice());
    }
}

/// Adds the lines of the script and the replies to them, but for its last run, which only asks for what is there.
fn add_script(alloc: Global, counts: &mut [usize], script: &Script) -> Result<(), AllocError> {
    let Some(all) = unpaged(alloc, script)? else {
        return Ok(());
    };
    let runs = script.runs.len().saturating_sub(1);
    for (lines, replies) in script.runs.iter().zip(all.iter()).take(runs) {
        add_run(counts, lines.as_slice(), replies.as_slice());
    }
    Ok(())
}

/// How many lines of all scripts are of each kind.
fn counts_of_kinds(alloc: Global) -> Result<Vec<usize>, AllocError> {
    let mut counts = vec![in alloc; 0usize; KINDS.len()]?;
    for number in 1..LAST + 1 {
        let script = made_script(alloc, number)?;
        add_script(alloc, counts.as_mut_slice(), &script)?;
    }
    Ok(counts)
}

/// The first kind that fewer lines are of.
fn first_rare(alloc: Global) -> Result<Option<Told>, AllocError> {
    let counts = counts_of_kinds(alloc)?;
    for (count, kind) in counts.iter().zip(KINDS.iter()) {
        if *count < AT_LEAST {
            return Ok(Some(*kind));
        }
    }
    Ok(None)
}

#[test]
fn the_scripts_have_every_kind_of_reply(rt: HostRuntime) -> Result<(), Fail> {
    assert!(rt; first_rare(rt.alloc())?.is_none());
    Ok(())
}
