// The commands on addresses and queues.
ghost use Rattle.std.specs.Prelude.{◌≡◌, ◌<◌, ◌==◌, false, IfOk};
ghost use Rattle.std.specs.List.{list_any};
ghost use Rattle.pg_msg.specs.declared.limits.TheConstants.{QUEUE_ID_LIMIT};
ghost use Rattle.pg_model.specs.Actions.{MakeAddress, MakeQueue, DropQueue, Count};
ghost use Rattle.pg_model.specs.Changes.{with_address, with_durable, with_queue, with_queues, without_queue};
ghost use Rattle.pg_plain.specs.Unpaged.{ActsUnpaged};

use crate::filter::Filter;
use crate::plain::Plain;
use crate::queues::take_out;
use crate::rows::{AddressRow, QueueRow};
use pg_bytes::Text;
use pg_msg::{MOST_ADDRESSES, MOST_QUEUES, Refusal, Reply};
use pg_parse::FilterError;
use std::alloc::{AllocError, Global};

impl Plain {
    // The command `address`.
    pub(crate) fn add_address(self, row: AddressRow) -> Result<(Plain, Reply), AllocError>
        ensures { IfOk result (λ answer. ActsUnpaged self (MakeAddress row.name row.settings) answer.1 answer.0) }
    {
        if self.address_id(&row.name).is_some() {
            return Ok((self, Reply::No(Refusal::Name)));
        }
        if self.addresses.len() >= MOST_ADDRESSES {
            return Ok((self, Reply::No(Refusal::Room)));
        }
        Ok((self.with_address(row)?, Reply::Done))
    }

    fn with_address(mut self, row: AddressRow) -> Result<Plain, AllocError>
        ensures { IfOk result (λ t. t ≡ with_durable self (with_address self.durable row.name row.settings)) }
    {
        self.addresses.push(row)?;
        Ok(self)
    }

    // The command `queue`.
    pub(crate) fn add_queue(
        self,
        alloc: Global,
        name: Text,
        address: &Text,
        filter: Option<Text>,
    ) -> Result<(Plain, Reply), AllocError>
        requires { self.durable.next < QUEUE_ID_LIMIT }
        ensures { IfOk result (λ answer. ActsUnpaged self (MakeQueue name address.now filter) answer.1 answer.0) }
    {
        if self.queue_id(&name).is_some() {
            return Ok((self, Reply::No(Refusal::Name)));
        }
        let Some(id) = self.address_id(address) else {
            return Ok((self, Reply::No(Refusal::Address)));
        };
        if self.queues_at(id) >= MOST_QUEUES {
            return Ok((self, Reply::No(Refusal::Room)));
        }
        match Filter::asked(alloc, filter) {
            Ok(filter) => Ok((self.with_queue(alloc, name, id, filter)?, Reply::Done)),
            Err(FilterError::BadFilter { at }) => {
                Ok((self, Reply::No(Refusal::Filter(at as u64))))
            }
            Err(FilterError::Memory) => Err(AllocError),
        }
    }

    fn with_queue(
        mut self,
        alloc: Global,
        name: Text,
        address: usize,
        filter: Filter,
    ) -> Result<Plain, AllocError>
        requires { self.durable.next < QUEUE_ID_LIMIT }
        ensures { IfOk result (λ t. t ≡ with_durable self (with_queue self.durable name address filter)) }
    {
        self.queues.push(QueueRow {
            id: self.next,
            name,
            address,
            filter,
            messages: Vec::new(alloc),
        })?;
        self.next += 1;
        Ok(self)
    }

    // The command `drop`.
    pub(crate) fn drop_queue(self, name: &Text) -> (Plain, Reply)
        ensures { ActsUnpaged self (DropQueue name.now) result.1 result.0 }
    {
        let Some(id) = self.queue_id(name) else {
            return (self, Reply::No(Refusal::Queue));
        };
        if self.is_consumed(id) {
            return (self, Reply::No(Refusal::ConsumerOpen));
        }
        (self.without_queue(id), Reply::Done)
    }

    fn without_queue(mut self, id: u32) -> Plain
        requires { list_any (λ c. c.queue == id) self.running.consumers ≡ false }
        ensures { result ≡ with_durable self (with_queues self.durable (without_queue id self.durable.queues)) }
    {
        take_out(&mut self.queues, id);
        self
    }

    // The command `count`.
    pub(crate) fn count(self, queue: &Text) -> (Plain, Reply)
        ensures { ActsUnpaged self (Count queue.now) result.1 result.0 }
    {
        match self.count_of(queue) {
            Some(count) => (self, Reply::Count(count as u64)),
            None => (self, Reply::No(Refusal::Queue)),
        }
    }
}
