// A position.

/// Where a message stands among the pages of its address.
#[derive(Clone, Copy, Debug, PartialEq, Eq)]
pub struct Position {
    /// The number of the page, from 1.
    pub page: u64,
    /// The place of the message's batch among those of the page, from 0.
    pub index: u32,
}
