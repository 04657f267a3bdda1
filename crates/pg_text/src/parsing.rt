// Lines as commands.
ghost use Rattle.std.specs.Prelude.{◌≡◌, ℕ, List, IfOk};
ghost use Rattle.pg_msg.specs.declared.command.Command.{Command};
ghost use Rattle.pg_msg.specs.Reading.{Gives};
ghost use Rattle.pg_text.specs.Spelling.{ReadsAs, Spells};
ghost use Rattle.pg_text.specs.Arguments.{arguments_at, command_at};
ghost use Rattle.pg_text.specs.Reading.{last_of};

use crate::arguments;
use crate::verbs::{Verb, verb_of};
use crate::words::{is_end, split_at_first};
use pg_msg::Command;
use pg_msg::fields::Unread;
use std::alloc::{AllocError, Global};

// A line has at most so many bytes.
const LONGEST_LINE: usize = 1_048_576;

/// The command that a line spells, and None where it spells none or is too long. The line comes without its line end;
/// `docs/FORMATS.md` gives the spellings. Fails only where there is no memory.
pub fn parse_line(alloc: Global, line: &[u8]) -> Result<Option<Command>, AllocError>
    ensures { IfOk result (λ item. ReadsAs line.now item) }
{
    if line.len() > LONGEST_LINE {
        return Ok(None);
    }
    match command(alloc, line) {
        Ok(command) => Ok(Some(command)),
        Err(Unread::Malformed) => Ok(None),
        Err(Unread::Memory) => Err(AllocError),
    }
}

/// A line spells one command at most, though a command may have several lines. A law, which does nothing.
pub fn one_command()
    ensures { (line : List ℕ) (what other : Command) → Spells line what → Spells line other → what ≡ other }
{}

#[tactic(auto, unfolding(crate::specs::Arguments::command_at))]
fn command(alloc: Global, line: &[u8]) -> Result<Command, Unread>
    ensures { Gives (λ command. command) result (command_at line.now) }
{
    let (word, arguments) = split_at_first(line, b' ');
    let Some(verb) = verb_of(word) else {
        return Err(Unread::Malformed);
    };
    with_arguments(alloc, verb, arguments)
}

fn with_arguments(alloc: Global, verb: Verb, line: &[u8]) -> Result<Command, Unread>
    ensures { Gives (λ command. command) result (arguments_at verb line.now) }
{
    match verb {
        Verb::Address => arguments::address(alloc, line),
        Verb::Queue => arguments::queue(alloc, line),
        Verb::Send => arguments::send(alloc, line),
        Verb::Consumer => arguments::consumer(alloc, line),
        Verb::Ack => arguments::ack(alloc, line),
        Verb::Cancel => arguments::cancel(alloc, line),
        Verb::Large => arguments::large(alloc, line),
        Verb::Part => arguments::part(alloc, line),
        Verb::PartOf => arguments::part_of(alloc, line),
        Verb::Checkpoint => checkpoint(line),
        Verb::One(what) => arguments::single(alloc, what, line),
    }
}

fn checkpoint(line: &[u8]) -> Result<Command, Unread>
    ensures { Gives (λ command. command) result (last_of (Command.Checkpoint, line.now)) }
{
    if !is_end(line) {
        return Err(Unread::Malformed);
    }
    Ok(Command::Checkpoint)
}
