// One row of each kind.

use crate::holders::Holders;
use pg_bytes::Text;
use pg_msg::Message;

/// An address. `docs/FORMATS.md` gives the ranges of the settings.
#[derive(PartialEq, Eq)]
pub struct AddressRow {
    /// Its place among the addresses, from 1.
    pub id: u32,
    pub name: Text,
    /// In bytes of messages: from this on, messages go to pages.
    pub max: u64,
    /// In bytes of a page file: the size that pages keep.
    pub page: u64,
    /// In bytes of messages: how far a queue reads ahead.
    pub ahead: u64,
    /// How many duplicate ids are kept.
    pub dup: u32,
    /// The first page, from 1. There are no pages below it.
    pub first: u64,
}

impl Drop for AddressRow {
    fn drop(self) {
        let AddressRow {
            id: _id,
            name: _name,
            max: _max,
            page: _page,
            ahead: _ahead,
            dup: _dup,
            first: _first,
        } = self;
    }
}

/// A live queue.
#[derive(PartialEq, Eq)]
pub struct QueueRow {
    pub id: u32,
    /// The id of its address.
    pub address: u32,
    pub name: Text,
    /// The text of its filter, empty where there is none.
    pub filter: Text,
}

impl Drop for QueueRow {
    fn drop(self) {
        let QueueRow {
            id: _id,
            address: _address,
            name: _name,
            filter: _filter,
        } = self;
    }
}

/// A message that is held in the journal.
pub struct JournaledRow {
    /// The id of its address.
    pub address: u32,
    pub message: Message,
    /// The ids of the queues that hold it, in the order in which the entry named them.
    pub holders: Holders,
}

impl Drop for JournaledRow {
    fn drop(self) {
        let JournaledRow {
            address: _address,
            message: _message,
            holders: _holders,
        } = self;
    }
}
