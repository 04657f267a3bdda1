/// What a file holds.
#[derive(Clone, Copy, Debug, PartialEq, Eq, PartialOrd, Ord)]
pub enum Kind {
    /// A generation of the journal.
    Journal,
    /// A page of an address.
    Page,
    /// The body of a large message.
    Large,
}

/// Names a file. Files are ordered by kind, owner and number. `docs/FORMATS.md` gives the name of each in a directory.
#[derive(Clone, Copy, Debug, PartialEq, Eq, PartialOrd, Ord)]
pub struct FileId {
    pub kind: Kind,
    /// The address of a page, the epoch of a large message's id, and 0 for the journal.
    pub owner: u32,
    /// The generation, the page or the number of a large message's id, from 1.
    pub number: u64,
}
