// The rows of the lists.
ghost use Rattle.std.specs.Prelude.{◌≡◌, ◌↔◌, IsTrue, OnOk};
ghost use Rattle.std.specs.List.{Contains};
ghost use Rattle.pg_model.specs.Changes.{given_to, relieved, with_id, without_id, is_before};

use crate::filter::Filter;
use pg_bytes::Text;
use pg_msg::{Message, MessageId};
use std::alloc::{AllocError, Global};
use std::marker::Model;

// An address and its settings.
pub(crate) struct AddressRow {
    pub(crate) name: Text,
    pub(crate) max: u64,
    pub(crate) page: u64,
    pub(crate) ahead: u64,
    pub(crate) dup: u32,
}

impl Model for AddressRow {
    ghost use Rattle.pg_model.specs.Broker.{Address};

    ghost Value = { Address };

    ghost view = { λ a. record {
      name = a.name;
      settings = record { max = a.max; page = a.page; ahead = a.ahead; dup = a.dup };
    } };
}

impl Drop for AddressRow {
    fn drop(self) {
        let AddressRow {
            name: _name,
            max: _max,
            page: _page,
            ahead: _ahead,
            dup: _dup,
        } = self;
    }
}

// The row of an address with these settings.
pub(crate) fn address_row(name: Text, max: u64, page: u64, ahead: u64, dup: u32) -> AddressRow
    ensures { result ≡ record { name = name; settings = record { max = max; page = page; ahead = ahead; dup = dup } } }
{
    AddressRow {
        name,
        max,
        page,
        ahead,
        dup,
    }
}

// A live queue, the id of its address, its filter, and its messages in their order.
pub(crate) struct QueueRow {
    pub(crate) id: u32,
    pub(crate) name: Text,
    pub(crate) address: usize,
    pub(crate) filter: Filter,
    pub(crate) messages: Vec<Message>,
}

impl Model for QueueRow {
    ghost use Rattle.pg_model.specs.Broker.{Queue};

    ghost Value = { Queue };

    ghost view = { λ q. record {
      id = q.id;
      name = q.name;
      address = q.address;
      filter = q.filter;
      messages = q.messages.items;
    } };
}

impl Drop for QueueRow {
    fn drop(self) {
        let QueueRow {
            id: _id,
            name: _name,
            address: _address,
            filter: _filter,
            messages: _messages,
        } = self;
    }
}

// An open consumer, the id of its queue, and the ids of what is in flight for it, which ascend.
pub(crate) struct ConsumerRow {
    pub(crate) name: Text,
    pub(crate) queue: u32,
    pub(crate) in_flight: Vec<MessageId>,
}

impl Model for ConsumerRow {
    ghost use Rattle.pg_model.specs.Broker.{Consumer};

    ghost Value = { Consumer };

    ghost view = { λ c. record { name = c.name; queue = c.queue; in_flight = c.in_flight.items } };
}

impl Drop for ConsumerRow {
    fn drop(self) {
        let ConsumerRow {
            name: _name,
            queue: _queue,
            in_flight: _in_flight,
        } = self;
    }
}
