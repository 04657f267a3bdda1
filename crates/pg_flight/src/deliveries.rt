// What is in flight for one consumer.
ghost use Rattle.std.specs.Prelude.{◌≡◌, [], OnOk, OnErr, IfOk, slice_get};
ghost use Rattle.pg_flight.specs.Deliveries.{delivery_with, with_delivery, without_delivery, AreAscending};
ghost use Rattle.pg_flight.specs.Ids.{key_of};

use crate::delivery::Delivery;
use pg_msg::MessageId;
use std::alloc::{AllocError, Global};
use std::collections::BTreeMap;
use std::marker::Model;

// Deliveries to a consumer, in the order of their messages' ids. Each call but `to_vec` takes at most logarithmic time.
pub(crate) struct Deliveries {
    // Each by the epoch and the number of its message.
    by_id: BTreeMap<(u32, u32), Delivery>,
}

impl Model for Deliveries {
    ghost use Rattle.std.specs.Prelude.{List};
    ghost use Rattle.std.specs.BTreeMap.{values};
    ghost use Rattle.pg_flight.specs.declared.delivery.Delivery.{Delivery};
    ghost use Rattle.pg_flight.specs.Deliveries.{AreKeyed};

    ghost Value = { List Delivery };

    ghost view = { λ deliveries. values deliveries.by_id };

    ghost invariant = { λ deliveries. AreKeyed deliveries.by_id };
}

impl Drop for Deliveries {
    fn drop(self) {
        let Deliveries { by_id: _by_id } = self;
    }
}

impl Deliveries {
    // None. Takes no memory.
    pub(crate) fn new(alloc: Global) -> Deliveries
        ensures { result ≡ [] }
    {
        Deliveries {
            by_id: BTreeMap::new(alloc),
        }
    }

    // The delivery of that message.
    pub(crate) fn get(&self, id: MessageId) -> Option<Delivery>
        ensures { result ≡ delivery_with id self.now }
    {
        self.by_id.get(&key(id)).copied()
    }

    // The first one in their order.
    pub(crate) fn first(&self) -> Option<Delivery>
        ensures { result ≡ slice_get self.now 0 }
    {
        let (_, delivery) = self.by_id.first_key_value()?;
        Some(*delivery)
    }

    // Puts one in at its place, where a former one of the same message gives way. Fails only where there is no memory for it.
    pub(crate) fn put(&mut self, delivery: Delivery) -> Result<(), AllocError>
        ensures ok { OnOk result (self.new ≡ with_delivery delivery self.old) }
        ensures err { OnErr result (self.new ≡ self.old) }
    {
        self.by_id.insert(key(delivery.id), delivery)?;
        Ok(())
    }

    // Takes the delivery of that message out.
    pub(crate) fn take(&mut self, id: MessageId) -> Option<Delivery>
        ensures given { result ≡ delivery_with id self.old }
        ensures left { self.new ≡ without_delivery id self.old }
    {
        self.by_id.remove(&key(id))
    }

    // All of them, in their order. Fails only where there is no memory for them.
    pub(crate) fn to_vec(&self, alloc: Global) -> Result<Vec<Delivery>, AllocError>
        ensures all { IfOk result (λ deliveries. deliveries.items ≡ self.now) }
        ensures ascending { AreAscending self.now }
    {
        self.by_id.values().copied().collect(alloc)
    }
}

// By what a message is looked for.
fn key(id: MessageId) -> (u32, u32)
    ensures { result ≡ key_of id }
{
    (id.epoch, id.number)
}
