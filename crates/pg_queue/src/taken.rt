// What a queue gives.

use pg_msg::MessageId;

/// An entry that was given by a queue.
#[derive(Clone, Copy, PartialEq, Eq)]
pub enum Taken {
    /// The journal holds the message.
    Journaled(MessageId),
}
