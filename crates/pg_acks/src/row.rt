// A run of acknowledged positions.

/// Consecutive positions of one page that are acknowledged one by one at a queue.
#[derive(Clone, Copy, PartialEq, Eq)]
pub struct AckRow {
    /// The queue.
    pub queue: u32,
    /// The page.
    pub page: u64,
    /// The index of the first of them.
    pub from: u32,
    /// The index of the last of them, which may be the first.
    pub to: u32,
}
