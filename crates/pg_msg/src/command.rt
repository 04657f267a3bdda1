// The commands of a script.

use crate::message::MessageId;
use crate::properties::Properties;
use pg_bytes::{Octets, Text};

/// A command of a script. `docs/FORMATS.md` gives its lines, and says which are served.
#[derive(PartialEq, Eq, Drop)]
pub enum Command {
    /// Makes an address. `max` and `ahead` are bytes of messages, `page` is bytes of a page file, and `dup` is a count
    /// of duplicate ids.
    Address {
        name: Text,
        max: u64,
        page: u64,
        ahead: u64,
        dup: u32,
    },
    /// Makes a queue on the address, which takes the messages of which the filter is true, or all.
    Queue {
        name: Text,
        address: Text,
        filter: Option<Text>,
    },
    /// Drops the queue with what it holds.
    DropQueue {
        name: Text,
    },
    /// Sends a message to the address, at once or as part of a transaction.
    Send {
        address: Text,
        tx: Option<Text>,
        /// The duplicate id.
        id: Option<Octets>,
        properties: Properties,
        body: Octets,
    },
    /// Opens a transaction.
    Begin {
        tx: Text,
    },
    /// Makes what a transaction did count.
    Commit {
        tx: Text,
    },
    /// Undoes what a transaction did.
    Rollback {
        tx: Text,
    },
    /// Opens a consumer on the queue.
    Consumer {
        name: Text,
        queue: Text,
    },
    /// Delivers the next message to the consumer.
    Receive {
        consumer: Text,
    },
    /// Acknowledges a delivery, at once or as part of a transaction.
    Ack {
        consumer: Text,
        message: MessageId,
        tx: Option<Text>,
    },
    /// Gives a delivery back.
    Cancel {
        consumer: Text,
        message: MessageId,
    },
    /// Closes the consumer, and gives its deliveries back.
    Close {
        consumer: Text,
    },
    /// Begins a large message to the address, under a name of its own.
    Large {
        address: Text,
        name: Text,
        /// The duplicate id.
        id: Option<Octets>,
        properties: Properties,
    },
    /// Writes a further part of a large message's body.
    Part {
        name: Text,
        bytes: Octets,
    },
    /// Ends a large message, and sends it.
    End {
        name: Text,
    },
    /// Reads a piece of a large message that was delivered, by its offset and its length in bytes.
    PartOf {
        consumer: Text,
        message: MessageId,
        from: u64,
        length: u64,
    },
    /// Removes pages of the address that are done with.
    Cleanup {
        address: Text,
    },
    /// Reads messages of the queue ahead.
    Ahead {
        queue: Text,
    },
    /// Writes the state to a new journal.
    Checkpoint,
    /// Tells how the address stands.
    Stat {
        address: Text,
    },
    /// Counts the messages of the queue.
    Count {
        queue: Text,
    },
}
