// What is in flight for all consumers.
ghost use Rattle.std.specs.Prelude.{◌≡◌, [], OnOk, OnErr, IfOk, slice_get};
ghost use Rattle.pg_flight.specs.Deliveries.{with_delivery, without_delivery, AreAscending};
ghost use Rattle.pg_flight.specs.Flights.{deliveries_of, delivery_of, cleared, ChangesAt};

use crate::deliveries::Deliveries;
use crate::delivery::Delivery;
use pg_bytes::Text;
use pg_msg::MessageId;
use std::alloc::{AllocError, Global};
use std::collections::BTreeMap;
use std::marker::Model;

/// The deliveries in flight: a map from a consumer's name and a message's id to a delivery.
///
/// `get`, `deliver` and `take` take at most logarithmic time. `close` besides takes time that grows with what the consumer
/// holds, and with nothing that others hold.
pub struct Flights {
    // By the consumer's name. A consumer to which nothing is in flight may be there or not.
    consumers: BTreeMap<String, Deliveries>,
}

impl Model for Flights {
    ghost use Rattle.std.specs.Prelude.{List};
    ghost use Rattle.pg_flight.specs.Flights.{Holder, seen};

    ghost Value = { List Holder };

    ghost view = { λ flights. seen flights.consumers };
}

impl Drop for Flights {
    fn drop(self) {
        let Flights {
            consumers: _consumers,
        } = self;
    }
}

impl Flights {
    /// Nothing is in flight. Takes no memory.
    pub fn new(alloc: Global) -> Flights
        ensures { result ≡ [] }
    {
        Flights {
            consumers: BTreeMap::new(alloc),
        }
    }

    /// The delivery is in flight for the consumer from now on. One that was in flight for it with the same message gives way to
    /// it. Fails only where there is no memory for it, and then nothing has changed.
    pub fn deliver(
        &mut self,
        alloc: Global,
        consumer: &Text,
        delivery: Delivery,
    ) -> Result<(), AllocError>
        ensures ok { OnOk result (ChangesAt consumer.now (with_delivery delivery) self.old self.new) }
        ensures err { OnErr result (self.new ≡ self.old) }
    {
        if let Some(own) = self.consumers.get_mut(consumer.as_str()) {
            own.put(delivery)?;
            return Ok(());
        }
        let mut own = Deliveries::new(alloc);
        own.put(delivery)?;
        self.consumers.insert(consumer.copy()?.into_string(), own)?;
        Ok(())
    }

    /// The delivery of that message to the consumer. None exactly where none is in flight.
    pub fn get(&self, consumer: &Text, id: MessageId) -> Option<Delivery>
        ensures { result ≡ delivery_of self.now consumer.now id }
    {
        let own = self.consumers.get(consumer.as_str())?;
        own.get(id)
    }

    /// Of the deliveries to the consumer the one whose message has the lowest id. None exactly where none is in flight.
    pub fn first(&self, consumer: &Text) -> Option<Delivery>
        ensures { result ≡ slice_get (deliveries_of self.now consumer.now) 0 }
    {
        let own = self.consumers.get(consumer.as_str())?;
        own.first()
    }

    /// Takes the delivery of that message to the consumer out, which is then in flight no more. None exactly where none was.
    pub fn take(&mut self, consumer: &Text, id: MessageId) -> Option<Delivery>
        ensures given { result ≡ delivery_of self.old consumer.now id }
        ensures left { ChangesAt consumer.now (without_delivery id) self.old self.new }
    {
        let own = self.consumers.get_mut(consumer.as_str())?;
        own.take(id)
    }

    /// Takes all deliveries to the consumer out, and gives each of them once, in the order of their messages' ids. Fails only
    /// where there is no memory for the answer, and then nothing has changed.
    pub fn close(&mut self, alloc: Global, consumer: &Text) -> Result<Vec<Delivery>, AllocError>
        ensures given { IfOk result (λ deliveries. deliveries.items ≡ deliveries_of self.old consumer.now) }
        ensures ascending { IfOk result (λ deliveries. AreAscending deliveries.items) }
        ensures left { OnOk result (ChangesAt consumer.now cleared self.old self.new) }
        ensures err { OnErr result (self.new ≡ self.old) }
    {
        let Some(own) = self.consumers.get(consumer.as_str()) else {
            return Ok(Vec::new(alloc));
        };
        let deliveries = own.to_vec(alloc)?;
        self.consumers.remove(consumer.as_str());
        Ok(deliveries)
    }
}
