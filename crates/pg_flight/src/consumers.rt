// The open consumers.
ghost use Rattle.std.specs.Prelude.{◌≡◌, ◌++◌, ◌∷◌, [], true, None, is_some, OnOk, OnErr, IfOk, slice_get};
ghost use Rattle.std.specs.Option.{option_map};
ghost use Rattle.pg_flight.specs.Consumers.{AreNamedApart, changed_for, deliveries_to, delivery_to, is_consumed};
ghost use Rattle.pg_flight.specs.Consumers.{open_named, without_open};
ghost use Rattle.pg_flight.specs.Deliveries.{with_delivery, without_delivery, AreAscending};

use crate::delivery::Delivery;
use crate::flights::Flights;
use crate::names::Names;
use pg_bytes::Text;
use pg_msg::MessageId;
use std::alloc::{AllocError, Global};
use std::marker::Model;

/// The open consumers in the order of their opening: each with the id of its queue, and what is in flight for it.
///
/// Each call takes at most logarithmic time, but for `close`, which besides takes time that grows with what the consumer holds,
/// and `is_consumed`, which takes time that grows with the number of consumers.
pub struct Consumers {
    names: Names,
    // Nothing is in flight for a name that no open consumer has.
    flights: Flights,
}

impl Model for Consumers {
    ghost use Rattle.std.specs.Prelude.{List};
    ghost use Rattle.pg_flight.specs.Consumers.{OpenConsumer, IsForOpenOnly, consumers_of};

    ghost Value = { List OpenConsumer };

    ghost view = { λ consumers. consumers_of consumers.flights consumers.names };

    ghost invariant = { λ consumers. IsForOpenOnly consumers.flights consumers.names };
}

impl Drop for Consumers {
    fn drop(self) {
        let Consumers {
            names: _names,
            flights: _flights,
        } = self;
    }
}

impl Consumers {
    /// No consumer is open. Takes no memory.
    pub fn new(alloc: Global) -> Consumers
        ensures { result ≡ [] }
    {
        Consumers {
            names: Names::new(alloc),
            flights: Flights::new(alloc),
        }
    }

    /// Opens a consumer on the queue. It stands behind the others, and nothing is in flight for it. Fails only where there is no
    /// memory for it, or where 2^64 - 1 were opened before, and then nothing has changed.
    pub fn open(&mut self, alloc: Global, name: Text, queue: u32) -> Result<(), AllocError>
        requires { open_named name self.old ≡ None }
        ensures ok { OnOk result (self.new ≡ self.old ++ record { name = name; queue = queue; deliveries = [] } ∷ []) }
        ensures err { OnErr result (self.new ≡ self.old) }
    {
        self.names.add(alloc, name, queue)
    }

    /// The id of the queue of the consumer with that name. None exactly where no such consumer is open.
    pub fn queue_of(&self, name: &Text) -> Option<u32>
        ensures queue { result ≡ option_map (λ consumer. consumer.queue) (open_named name.now self.now) }
        ensures apart { AreNamedApart self.now }
    {
        self.names.queue_of(name)
    }

    /// Whether some consumer is open on the queue.
    pub fn is_consumed(&self, queue: u32) -> bool
        ensures { result ≡ is_consumed queue self.now }
    {
        self.names.is_consumed(queue)
    }

    /// The delivery is in flight for the consumer from now on. One that was in flight for it with the same message gives way to
    /// it. Fails only where there is no memory for it, and then nothing has changed.
    pub fn deliver(
        &mut self,
        alloc: Global,
        name: &Text,
        delivery: Delivery,
    ) -> Result<(), AllocError>
        requires { is_some (open_named name.now self.old) ≡ true }
        ensures ok { OnOk result (self.new ≡ changed_for name.now (with_delivery delivery) self.old) }
        ensures err { OnErr result (self.new ≡ self.old) }
    {
        self.flights.deliver(alloc, name, delivery)
    }

    /// The delivery of that message to the consumer. None exactly where none is in flight, or no such consumer is open.
    pub fn get(&self, name: &Text, id: MessageId) -> Option<Delivery>
        ensures { result ≡ delivery_to name.now id self.now }
    {
        self.flights.get(name, id)
    }

    /// Of the deliveries to the consumer the one whose message has the lowest id. None exactly where none is in flight, or no such
    /// consumer is open.
    pub fn first(&self, name: &Text) -> Option<Delivery>
        ensures { result ≡ slice_get (deliveries_to name.now self.now) 0 }
    {
        self.flights.first(name)
    }

    /// Takes the delivery of that message to the consumer out, which is then in flight no more. None exactly where none was.
    pub fn take(&mut self, name: &Text, id: MessageId) -> Option<Delivery>
        ensures given { result ≡ delivery_to name.now id self.old }
        ensures left { self.new ≡ changed_for name.now (without_delivery id) self.old }
    {
        self.flights.take(name, id)
    }

    /// Closes the consumer, and gives each delivery that was in flight for it once, in the order of their messages' ids. Where no
    /// such consumer is open it gives none. Fails only where there is no memory for the answer, and then nothing has changed.
    pub fn close(&mut self, alloc: Global, name: &Text) -> Result<Vec<Delivery>, AllocError>
        ensures given { IfOk result (λ deliveries. deliveries.items ≡ deliveries_to name.now self.old) }
        ensures ascending { IfOk result (λ deliveries. AreAscending deliveries.items) }
        ensures left { OnOk result (self.new ≡ without_open name.now self.old) }
        ensures err { OnErr result (self.new ≡ self.old) }
    {
        let deliveries = self.flights.close(alloc, name)?;
        self.names.remove(name);
        Ok(deliveries)
    }
}
