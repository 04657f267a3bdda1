// A frame.

use pg_msg::{Message, MessageId, QueueIds};

/// A message in a page, with the queues that it goes to. `docs/FORMATS.md` gives its bytes.
#[derive(PartialEq, Eq)]
pub struct Frame {
    /// The transaction that it was sent in, if it was sent in one.
    pub tx: Option<MessageId>,
    /// From 1 to 1,000 ids, ascending.
    pub queues: QueueIds,
    pub message: Message,
}

impl Drop for Frame {
    fn drop(self) {
        let Frame {
            tx: _tx,
            queues: _queues,
            message: _message,
        } = self;
    }
}
