// The standing of a page transaction.

/// Whether the frames of a page transaction count.
#[derive(Clone, Copy, PartialEq, Eq)]
pub enum Standing {
    /// It is committed: its frames are messages.
    Counts,
    /// It is undecided: its frames may become messages.
    Pending,
    /// It is neither: its frames never become messages. That is so where it was rolled back, and where its run ended
    /// before it was committed.
    Void,
}
