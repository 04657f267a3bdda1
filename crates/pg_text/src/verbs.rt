// The first words of lines.
ghost use Rattle.std.specs.Prelude.{◌≡◌};
ghost use Rattle.pg_text.specs.Arguments.{single_of, verb_of};

use crate::words::is;

/// A command that has one name and nothing else.
#[derive(Clone, Copy)]
pub enum Single {
    Drop,
    Begin,
    Commit,
    Rollback,
    Receive,
    Close,
    End,
    Cleanup,
    Ahead,
    Stat,
    Count,
}

/// A command.
#[derive(Clone, Copy)]
pub enum Verb {
    Address,
    Queue,
    Send,
    Consumer,
    Ack,
    Cancel,
    Large,
    Part,
    PartOf,
    Checkpoint,
    One(Single),
}

// The command of one name that has this first word.
fn single_of(word: &[u8]) -> Option<Single>
    ensures { result ≡ single_of word.now }
{
    if is(word, "drop") {
        return Some(Single::Drop);
    }
    if is(word, "begin") {
        return Some(Single::Begin);
    }
    if is(word, "commit") {
        return Some(Single::Commit);
    }
    if is(word, "rollback") {
        return Some(Single::Rollback);
    }
    if is(word, "receive") {
        return Some(Single::Receive);
    }
    if is(word, "close") {
        return Some(Single::Close);
    }
    if is(word, "end") {
        return Some(Single::End);
    }
    if is(word, "cleanup") {
        return Some(Single::Cleanup);
    }
    if is(word, "ahead") {
        return Some(Single::Ahead);
    }
    if is(word, "stat") {
        return Some(Single::Stat);
    }
    if is(word, "count") {
        return Some(Single::Count);
    }
    None
}

/// The command that has this first word.
pub fn verb_of(word: &[u8]) -> Option<Verb>
    ensures { result ≡ verb_of word.now }
{
    if is(word, "address") {
        return Some(Verb::Address);
    }
    if is(word, "queue") {
        return Some(Verb::Queue);
    }
    if is(word, "send") {
        return Some(Verb::Send);
    }
    if is(word, "consumer") {
        return Some(Verb::Consumer);
    }
    if is(word, "ack") {
        return Some(Verb::Ack);
    }
    if is(word, "cancel") {
        return Some(Verb::Cancel);
    }
    if is(word, "large") {
        return Some(Verb::Large);
    }
    if is(word, "part") {
        return Some(Verb::Part);
    }
    if is(word, "part-of") {
        return Some(Verb::PartOf);
    }
    if is(word, "checkpoint") {
        return Some(Verb::Checkpoint);
    }
    single_of(word).map(Verb::One)
}
