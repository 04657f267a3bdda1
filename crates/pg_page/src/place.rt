// A place.

use pg_acks::Position;

/// Where a message is read from: its position, and where its batch stands in the page's file.
#[derive(Clone, Copy, Debug, PartialEq, Eq)]
pub struct Place {
    pub position: Position,
    /// In bytes from the file's beginning to the first one of the batch's payload.
    pub offset: u64,
}
