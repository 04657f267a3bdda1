// The answers to commands.

use crate::message::{Message, MessageId};
use pg_bytes::Octets;

/// Why a command was refused.
#[derive(Clone, Copy, PartialEq, Eq)]
pub enum Refusal {
    /// The line is none that is understood.
    Line,
    /// The name is taken.
    Name,
    /// There is no room for one more.
    Room,
    /// There is no address of the name.
    Address,
    /// There is no queue of the name.
    Queue,
    /// The filter has no reading, and this is the offset of the first token that can't stand there, in bytes.
    Filter(u64),
    /// A consumer on the queue is open.
    ConsumerOpen,
    /// No transaction of the name is open.
    Tx,
    /// The transaction failed.
    TxFailed,
    /// The message is too heavy.
    Size,
    /// The duplicate id was seen.
    Duplicate,
    /// No message id is left.
    Ids,
    /// No consumer of the name is open.
    Consumer,
    /// The consumer has no such delivery.
    Delivery,
    /// There is no large message of the name, or the message isn't large.
    Large,
    /// The range passes the end of the body.
    Range,
}

/// The answer to a line. `docs/FORMATS.md` gives its text.
#[derive(PartialEq, Eq, Drop)]
pub enum Reply {
    Done,
    /// The message has this id, and went to a queue.
    Sent(MessageId),
    /// The message went to no queue, so that it wasn't kept.
    Unrouted,
    /// A message is delivered.
    Given(Message),
    /// There is nothing to deliver.
    Empty,
    /// A piece of a large message's body.
    Bytes(Octets),
    /// This page was removed.
    Removed(u64),
    /// This page is the first one now.
    First(u64),
    /// There was nothing to do.
    Nothing,
    /// How an address stands.
    Stat {
        /// Whether it is in page mode.
        paging: bool,
        /// The bytes of its messages that are held in memory.
        resident: u64,
        /// The bytes of its paged messages that were read ahead.
        loaded: u64,
        /// The number of its page files from the first page on.
        pages: u64,
        /// Its first page.
        first: u64,
    },
    /// How many messages there are.
    Count(u64),
    No(Refusal),
}
