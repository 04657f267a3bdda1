// The entries of the journal.

use pg_bytes::{Octets, Text};
use pg_msg::{Message, MessageId, Pages, QueueIds};

/// A change of what outlives a run, as the journal has it. `docs/FORMATS.md` gives the code and the bytes of each.
///
/// An address and a queue are named by their ids, which are never used again. Pages are numbered
/// from 1; that a page is one that there is isn't asked before the entry is applied.
#[derive(PartialEq, Eq, Drop)]
pub enum Entry {
    /// The broker was opened.
    Epoch {
        epoch: u32,
    },
    /// An address was made. `max` and `ahead` are bytes of messages, `page` is bytes of a page file, and `dup` is a
    /// count of duplicate ids.
    Address {
        address: u32,
        name: Text,
        max: u64,
        page: u64,
        ahead: u64,
        dup: u32,
    },
    /// A queue was made on an address.
    Queue {
        queue: u32,
        address: u32,
        name: Text,
        /// The text of the filter, empty where there is none.
        filter: Text,
    },
    /// A queue was dropped, with what it held.
    DropQueue {
        queue: u32,
    },
    /// A message to an address was given to the queues, and is held in the journal.
    Add {
        address: u32,
        /// Ascending.
        queues: QueueIds,
        message: Message,
    },
    /// A message that is held in the journal was acknowledged at a queue.
    Ack {
        queue: u32,
        message: MessageId,
    },
    /// A message in a page was acknowledged at a queue.
    AckAt {
        queue: u32,
        page: u64,
        /// Its place among the messages of the page, from 0.
        index: u32,
    },
    /// Every message of a page that is for a queue was acknowledged there.
    PageDone {
        queue: u32,
        page: u64,
    },
    /// A transaction was committed whose messages are in pages.
    PageTx {
        tx: MessageId,
        /// For each address with such a message, the last page that has one. Addresses ascend.
        last: Pages,
    },
    /// A duplicate id was seen at an address.
    Dup {
        address: u32,
        /// Of 1 to 64 bytes.
        id: Octets,
    },
    /// A large message was given to the queues, and its body is in a file of its own.
    LargeAdd {
        message: MessageId,
        /// Of the body, in bytes.
        length: u64,
        /// Ascending.
        queues: QueueIds,
    },
    /// A large message was acknowledged at a queue.
    LargeAck {
        queue: u32,
        message: MessageId,
    },
    /// The pages of an address below this one are gone.
    FirstPage {
        address: u32,
        page: u64,
    },
    /// The next queue that is made has this id.
    NextQueue {
        queue: u32,
    },
    /// The messages in a page from one place to another were acknowledged at a queue.
    AckRun {
        queue: u32,
        page: u64,
        /// The first place, from 0.
        from: u32,
        /// The last place, at least `from`.
        to: u32,
    },
}
