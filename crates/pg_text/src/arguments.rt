// The commands, each from what stands behind its first word. Malformed where that isn't what the command wants.
ghost use Rattle.pg_msg.specs.Reading.{Gives};
ghost use Rattle.pg_text.specs.Arguments.{address_at, queue_at, send_at, large_at, consumer_at, ack_at, cancel_at, part_at, part_of_at, single_at, single_command};
ghost use Rattle.pg_text.specs.Reading.{tx_at, id_at, id_of, filter_at, body_at};
ghost use Rattle.std.specs.Prelude.{◌≡◌};

use crate::values::properties;
use crate::verbs::Single;
use crate::words::{
    after, expect, hex_of, is_end, last_name_behind, message_id, name, name_behind, number_behind,
    split_at_first,
};
use pg_bytes::{Octets, Text};
use pg_msg::fields::{Unread, text_of};
use pg_msg::{
    Command, FILE_LIMIT, GREATEST_AHEAD, GREATEST_DUP, GREATEST_MAX, GREATEST_PAGE,
    LONGEST_DUPLICATE_ID, LONGEST_FILTER, LONGEST_PIECE,
};
use std::alloc::Global;

#[tactic(auto, unfolding(crate::specs::Arguments::address_at))]
pub fn address(alloc: Global, arguments: &[u8]) -> Result<Command, Unread>
    ensures { Gives (λ command. command) result (address_at arguments.now) }
{
    let (name, rest) = name_behind(alloc, arguments, b" ")?;
    let (max, rest) = number_behind(rest, b" max ", 0, GREATEST_MAX)?;
    let (page, rest) = number_behind(rest, b" page ", 1, GREATEST_PAGE)?;
    let (ahead, rest) = number_behind(rest, b" ahead ", 0, GREATEST_AHEAD)?;
    let (dup, rest) = number_behind(rest, b" dup ", 0, u64::from(GREATEST_DUP))?;
    if !is_end(rest) {
        return Err(Unread::Malformed);
    }
    let dup = dup as u32;
    Ok(Command::Address {
        name,
        max,
        page,
        ahead,
        dup,
    })
}

#[tactic(auto, unfolding(crate::specs::Arguments::queue_at))]
pub fn queue(alloc: Global, arguments: &[u8]) -> Result<Command, Unread>
    ensures { Gives (λ command. command) result (queue_at arguments.now) }
{
    let (name, rest) = name_behind(alloc, arguments, b" ")?;
    let (address, rest) = name_behind(alloc, rest, b" on ")?;
    let filter = filter(alloc, rest)?;
    Ok(Command::Queue {
        name,
        address,
        filter,
    })
}

#[tactic(auto, unfolding(crate::specs::Arguments::send_at))]
pub fn send(alloc: Global, arguments: &[u8]) -> Result<Command, Unread>
    ensures { Gives (λ command. command) result (send_at arguments.now) }
{
    let (address, rest) = name_behind(alloc, arguments, b" ")?;
    let (tx, rest) = tx(alloc, rest)?;
    let (id, rest) = id(alloc, rest)?;
    let (properties, rest) = properties(alloc, rest)?;
    let body = body(alloc, rest)?;
    Ok(Command::Send {
        address,
        tx,
        id,
        properties,
        body,
    })
}

#[tactic(auto, unfolding(crate::specs::Arguments::large_at))]
pub fn large(alloc: Global, arguments: &[u8]) -> Result<Command, Unread>
    ensures { Gives (λ command. command) result (large_at arguments.now) }
{
    let (address, rest) = name_behind(alloc, arguments, b" ")?;
    let (name, rest) = name_behind(alloc, rest, b" ")?;
    let (id, rest) = id(alloc, rest)?;
    let (properties, rest) = properties(alloc, rest)?;
    if !is_end(rest) {
        return Err(Unread::Malformed);
    }
    Ok(Command::Large {
        address,
        name,
        id,
        properties,
    })
}

#[tactic(auto, unfolding(crate::specs::Arguments::consumer_at))]
pub fn consumer(alloc: Global, arguments: &[u8]) -> Result<Command, Unread>
    ensures { Gives (λ command. command) result (consumer_at arguments.now) }
{
    let (name, rest) = name_behind(alloc, arguments, b" ")?;
    let queue = last_name_behind(alloc, rest, b" on ")?;
    Ok(Command::Consumer { name, queue })
}

#[tactic(auto, unfolding(crate::specs::Arguments::ack_at))]
pub fn ack(alloc: Global, arguments: &[u8]) -> Result<Command, Unread>
    ensures { Gives (λ command. command) result (ack_at arguments.now) }
{
    let (consumer, rest) = name_behind(alloc, arguments, b" ")?;
    let (message, rest) = message_id(rest)?;
    let (tx, rest) = tx(alloc, rest)?;
    if !is_end(rest) {
        return Err(Unread::Malformed);
    }
    Ok(Command::Ack {
        consumer,
        message,
        tx,
    })
}

#[tactic(auto, unfolding(crate::specs::Arguments::cancel_at))]
pub fn cancel(alloc: Global, arguments: &[u8]) -> Result<Command, Unread>
    ensures { Gives (λ command. command) result (cancel_at arguments.now) }
{
    let (consumer, rest) = name_behind(alloc, arguments, b" ")?;
    let (message, rest) = message_id(rest)?;
    if !is_end(rest) {
        return Err(Unread::Malformed);
    }
    Ok(Command::Cancel { consumer, message })
}

#[tactic(auto, unfolding(crate::specs::Arguments::part_at))]
pub fn part(alloc: Global, arguments: &[u8]) -> Result<Command, Unread>
    ensures { Gives (λ command. command) result (part_at arguments.now) }
{
    let (name, rest) = name_behind(alloc, arguments, b" ")?;
    let digits = expect(rest, b" ")?;
    let bytes = hex_of(alloc, digits)?;
    Ok(Command::Part { name, bytes })
}

#[tactic(auto, unfolding(crate::specs::Arguments::part_of_at))]
pub fn part_of(alloc: Global, arguments: &[u8]) -> Result<Command, Unread>
    ensures { Gives (λ command. command) result (part_of_at arguments.now) }
{
    let (consumer, rest) = name_behind(alloc, arguments, b" ")?;
    let (message, rest) = message_id(rest)?;
    let (from, rest) = number_behind(rest, b" ", 0, FILE_LIMIT)?;
    let (length, rest) = number_behind(rest, b" ", 0, LONGEST_PIECE)?;
    if !is_end(rest) {
        return Err(Unread::Malformed);
    }
    Ok(Command::PartOf {
        consumer,
        message,
        from,
        length,
    })
}

// A command of one name.
#[tactic(auto, unfolding(crate::specs::Arguments::single_at))]
pub fn single(alloc: Global, what: Single, arguments: &[u8]) -> Result<Command, Unread>
    ensures { Gives (λ command. command) result (single_at what arguments.now) }
{
    let name = last_name_behind(alloc, arguments, b" ")?;
    Ok(with_name(what, name))
}

fn with_name(what: Single, name: Text) -> Command
    ensures { result ≡ single_command what name }
{
    match what {
        Single::Drop => Command::DropQueue { name },
        Single::Begin => Command::Begin { tx: name },
        Single::Commit => Command::Commit { tx: name },
        Single::Rollback => Command::Rollback { tx: name },
        Single::Receive => Command::Receive { consumer: name },
        Single::Close => Command::Close { consumer: name },
        Single::End => Command::End { name },
        Single::Cleanup => Command::Cleanup { address: name },
        Single::Ahead => Command::Ahead { queue: name },
        Single::Stat => Command::Stat { address: name },
        Single::Count => Command::Count { queue: name },
    }
}

// The transaction that is named, if one is.
#[tactic(auto, unfolding(crate::specs::Reading::tx_at))]
fn tx(alloc: Global, line: &[u8]) -> Result<(Option<Text>, &[u8]), Unread>
    ensures { Gives (λ read. (read.0, read.1.now)) result (tx_at line.now) }
{
    let Some(rest) = after(line, b" tx ") else {
        return Ok((None, line));
    };
    let (tx, rest) = name(alloc, rest)?;
    Ok((Some(tx), rest))
}

// The duplicate id, if there is one.
#[tactic(auto, unfolding(crate::specs::Reading::id_at))]
fn id(alloc: Global, line: &[u8]) -> Result<(Option<Octets>, &[u8]), Unread>
    ensures { Gives (λ read. (read.0, read.1.now)) result (id_at line.now) }
{
    let Some(rest) = after(line, b" id ") else {
        return Ok((None, line));
    };
    let (digits, rest) = split_at_first(rest, b' ');
    let id = id_of(alloc, digits)?;
    Ok((Some(id), rest))
}

#[tactic(auto, unfolding(crate::specs::Reading::id_of))]
fn id_of(alloc: Global, digits: &[u8]) -> Result<Octets, Unread>
    ensures { Gives (λ id. id) result (id_of digits.now) }
{
    let id = hex_of(alloc, digits)?;
    if id.is_empty() || id.len() > LONGEST_DUPLICATE_ID {
        return Err(Unread::Malformed);
    }
    Ok(id)
}

// The filter, if there is one, to the end of the line.
#[tactic(auto, unfolding(crate::specs::Reading::filter_at))]
fn filter(alloc: Global, line: &[u8]) -> Result<Option<Text>, Unread>
    ensures { Gives (λ filter. filter) result (filter_at line.now) }
{
    let Some(rest) = after(line, b" where ") else {
        if !is_end(line) {
            return Err(Unread::Malformed);
        }
        return Ok(None);
    };
    if rest.len() > LONGEST_FILTER {
        return Err(Unread::Malformed);
    }
    let filter = text_of(alloc, rest)?;
    Ok(Some(filter))
}

// The body, to the end of the line.
#[tactic(auto, unfolding(crate::specs::Reading::body_at))]
fn body(alloc: Global, line: &[u8]) -> Result<Octets, Unread>
    ensures { Gives (λ body. body) result (body_at line.now) }
{
    if let Some(bytes) = after(line, b" body ") {
        return Ok(Octets::from_slice(alloc, bytes)?);
    }
    let digits = expect(line, b" hex ")?;
    hex_of(alloc, digits)
}
