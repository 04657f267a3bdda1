// The unpaged broker.
ghost use Rattle.std.specs.Prelude.{◌≡◌, ◌↔◌, ◌<◌, ◌==◌, length, true, IsTrue, IfOk};
ghost use Rattle.std.specs.List.{list_any};
ghost use Rattle.std.specs.Option.{option_and_then, option_map};
ghost use Rattle.pg_msg.specs.declared.limits.TheConstants.{LIMITS};
ghost use Rattle.pg_msg.specs.declared.command.Command.{Command};
ghost use Rattle.pg_model.specs.Broker.{address_named, consumer_named, fresh, opened_from, queue_named, queue_with};
ghost use Rattle.pg_model.specs.Changes.{with_consumers, with_flights, with_id, with_message};
ghost use Rattle.pg_model.specs.Refusals.{HasFlight};
ghost use Rattle.pg_model.specs.Routing.{IsRouted, queues_of};
ghost use Rattle.pg_model.specs.Steps.{available};
ghost use Rattle.pg_plain.specs.Kept.{are_live};
ghost use Rattle.pg_plain.specs.Unpaged.{IsServable, StepUnpaged};

use crate::broker::Broker;
use crate::consumers::{has_flight, has_on, queue_of, take_up};
use crate::queues::{address_id, available_at, count_at, count_named, give, id_named, takers};
use crate::rows::{AddressRow, ConsumerRow, QueueRow, address_row};
use crate::same::{same_addresses, same_queues};
use pg_bytes::Text;
use pg_msg::{Command, LIMITS, Message, MessageId, Property, Refusal, Reply};
use std::alloc::{AllocError, Global};
use std::marker::Model;

/// The unpaged broker in memory. A command takes time that grows with all that is held.
pub struct Plain {
    pub(crate) epoch: u32,
    pub(crate) next: u32,
    pub(crate) addresses: Vec<AddressRow>,
    pub(crate) queues: Vec<QueueRow>,
    pub(crate) drawn: u32,
    pub(crate) consumers: Vec<ConsumerRow>,
    pub(crate) ids: u32,
}

impl Model for Plain {
    ghost use Rattle.std.specs.Prelude.{◌≡◌, true};
    ghost use Rattle.pg_model.specs.Broker.{Broker};
    ghost use Rattle.pg_plain.specs.Kept.{are_live};

    ghost Value = { Broker };

    ghost view = { λ p. record {
      durable = record {
        epoch = p.epoch;
        next = p.next;
        addresses = p.addresses.items;
        queues = p.queues.items;
      };
      running = record { drawn = p.drawn; consumers = p.consumers.items };
      ids = p.ids;
    } };

    ghost invariant = { λ p. are_live p.queues.items p.consumers.items ≡ true };
}

impl Drop for Plain {
    fn drop(self) {
        let Plain {
            epoch: _epoch,
            next: _next,
            addresses: _addresses,
            queues: _queues,
            drawn: _drawn,
            consumers: _consumers,
            ids: _ids,
        } = self;
    }
}

impl Plain {
    /// A broker that was opened in the state in which nothing was made. Takes no memory.
    pub fn new(alloc: Global) -> Plain
        ensures { result ≡ opened_from LIMITS.ids fresh }
    {
        Plain::with_ids(alloc, LIMITS.ids)
    }

    /// The same, where an epoch has so many message ids. Takes no memory.
    pub fn with_ids(alloc: Global, ids: u32) -> Plain
        ensures { result ≡ opened_from ids fresh }
    {
        Plain {
            epoch: 1,
            next: 1,
            addresses: Vec::new(alloc),
            queues: Vec::new(alloc),
            drawn: 0,
            consumers: Vec::new(alloc),
            ids,
        }
    }

    /// Whether what outlives a run is equal: the epoch, the id that the next queue gets, and the addresses and
    /// queues with their messages, in their order. Consumers and what is in flight for them don't matter.
    pub fn same(&self, other: &Plain) -> bool
        ensures { IsTrue result ↔ (self.now.durable ≡ other.now.durable) }
    {
        self.epoch == other.epoch
            && self.next == other.next
            && same_addresses(self.addresses.as_slice(), other.addresses.as_slice())
            && same_queues(self.queues.as_slice(), other.queues.as_slice())
    }

    /// The id that the next queue gets.
    pub fn next_queue(&self) -> u32
        ensures { result ≡ self.now.durable.next }
    {
        self.next
    }

    /// The epoch.
    pub fn epoch(&self) -> u32
        ensures { result ≡ self.now.durable.epoch }
    {
        self.epoch
    }

    /// The same broker, opened anew: in the next epoch, with every message id to draw and without consumers. What was in
    /// flight for them is in its queue at its place. How many message ids an epoch has stays. Takes no memory.
    pub fn reopened(self) -> Plain
        requires { self.durable.epoch < 4_294_967_295 }
        ensures { result ≡ opened_from self.ids self.durable }
    {
        let Plain {
            epoch,
            next,
            addresses,
            queues,
            drawn: _drawn,
            mut consumers,
            ids,
        } = self;
        consumers.clear();
        Plain {
            epoch: epoch + 1,
            next,
            addresses,
            queues,
            drawn: 0,
            consumers,
            ids,
        }
    }

    // The id of the address of that name.
    pub(crate) fn address_id(&self, name: &Text) -> Option<usize>
        ensures { result ≡ address_named self.now.durable.addresses name.now }
    {
        address_id(self.addresses.as_slice(), name)
    }

    // The id of the queue of that name.
    pub(crate) fn queue_id(&self, name: &Text) -> Option<u32>
        ensures { result ≡ option_map (λ q. q.id) (queue_named self.now.durable.queues name.now) }
    {
        id_named(self.queues.as_slice(), name)
    }

    // How many messages the queue of that name holds.
    pub(crate) fn count_of(&self, name: &Text) -> Option<usize>
        ensures { result ≡ option_map (λ q. length q.messages) (queue_named self.now.durable.queues name.now) }
    {
        count_named(self.queues.as_slice(), name)
    }

    // How many queues the address has.
    pub(crate) fn queues_at(&self, address: usize) -> usize
        ensures { result ≡ length (queues_of address self.now.durable.queues) }
    {
        count_at(self.queues.as_slice(), address)
    }

    // The ids of the queues of the address that a message with these properties goes to.
    pub(crate) fn routed(
        &self,
        alloc: Global,
        address: usize,
        properties: &[Property],
    ) -> Result<Vec<u32>, AllocError>
        ensures { IfOk result (λ ids. IsRouted self.now address properties.now ids.items) }
    {
        takers(alloc, self.queues.as_slice(), address, properties)
    }

    // The id of the queue of the consumer of that name.
    pub(crate) fn queue_of(&self, name: &Text) -> Option<u32>
        ensures { result ≡ option_map (λ c. c.queue) (consumer_named self.now.running.consumers name.now) }
    {
        queue_of(self.consumers.as_slice(), name)
    }

    // Whether a consumer is open on the queue with that id.
    pub(crate) fn is_consumed(&self, queue: u32) -> bool
        ensures { result ≡ list_any (λ c. c.queue == queue) self.now.running.consumers }
    {
        has_on(self.consumers.as_slice(), queue)
    }

    // Whether the consumer of that name has the message in flight.
    pub(crate) fn has_flight(&self, name: &Text, id: MessageId) -> bool
        ensures { IsTrue result ↔ HasFlight self.now name.now id }
    {
        has_flight(self.consumers.as_slice(), name, id)
    }

    // The first message of the queue with that id that isn't in flight.
    pub(crate) fn available(&self, queue: u32) -> Option<&Message>
        ensures live { are_live self.now.durable.queues self.now.running.consumers ≡ true }
        ensures first { option_map (λ m. m.now) result
            ≡ option_and_then (available self.now) (queue_with self.now.durable.queues queue) }
    {
        available_at(self.queues.as_slice(), self.consumers.as_slice(), queue)
    }

    // The message is in flight for the consumer of that name.
    pub(crate) fn with_flight(self, consumer: &Text, id: MessageId) -> Result<Plain, AllocError>
        ensures { IfOk result (λ t. t ≡ with_consumers self
            (with_flights consumer.now (with_id id) self.running.consumers)) }
    {
        let Plain {
            epoch,
            next,
            addresses,
            queues,
            drawn,
            mut consumers,
            ids,
        } = self;
        take_up(&mut consumers, consumer, id)?;
        Ok(Plain {
            epoch,
            next,
            addresses,
            queues,
            drawn,
            consumers,
            ids,
        })
    }

    // Each of the queues with these numbers gets the message, whose id is drawn.
    pub(crate) fn with_message(
        self,
        alloc: Global,
        numbers: &[u32],
        message: &Message,
    ) -> Result<Plain, AllocError>
        requires { self.running.drawn < self.ids }
        ensures { IfOk result (λ t. t ≡ with_message self numbers.now message.now) }
    {
        let Plain {
            epoch,
            next,
            addresses,
            mut queues,
            drawn,
            consumers,
            ids,
        } = self;
        give(alloc, &mut queues, numbers, message)?;
        Ok(Plain {
            epoch,
            next,
            addresses,
            queues,
            drawn: drawn + 1,
            consumers,
            ids,
        })
    }
}

impl Broker for Plain {
    ghost takes = { λ s command. IsServable s command };

    fn step(self, alloc: Global, command: Command) -> Result<(Plain, Reply), AllocError>
        requires { IsServable self command }
        ensures { IfOk result (λ answer. StepUnpaged self command answer.1 answer.0) }
    {
        match command {
            Command::Address {
                name,
                max,
                page,
                ahead,
                dup,
            } => self.add_address(address_row(name, max, page, ahead, dup)),
            Command::Queue {
                name,
                address,
                filter,
            } => self.add_queue(alloc, name, &address, filter),
            Command::DropQueue { name } => Ok(self.drop_queue(&name)),
            Command::Send {
                address,
                tx,
                id,
                properties,
                body,
            } => match (tx, id) {
                (None, None) => self.send(alloc, &address, properties, body),
                (Some(_), _) | (None, Some(_)) => Ok((self, Reply::No(Refusal::Line))),
            },
            Command::Consumer { name, queue } => self.open(alloc, name, &queue),
            Command::Receive { consumer } => self.receive(alloc, &consumer),
            Command::Ack {
                consumer,
                message,
                tx,
            } => Ok(self.acknowledge_with(&consumer, message, tx)),
            Command::Cancel { consumer, message } => Ok(self.cancel(&consumer, message)),
            Command::Close { consumer } => Ok(self.close(&consumer)),
            Command::Count { queue } => Ok(self.count(&queue)),
            // No other command has an action.
            _ => Ok((self, Reply::No(Refusal::Line))),
        }
    }
}
