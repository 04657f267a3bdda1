// Laws of deliveries.
ghost use Rattle.std.specs.Prelude.{◌≡◌, List, Some, None, if◌then◌else◌};
ghost use Rattle.pg_msg.specs.declared.message.MessageId.{MessageId};
ghost use Rattle.pg_flight.specs.declared.delivery.Delivery.{Delivery};
ghost use Rattle.pg_flight.specs.Deliveries.{delivery_with, with_delivery, without_delivery};
ghost use Rattle.pg_flight.specs.Ids.{same_id};

/// The deliveries to a consumer are a map from messages: one that is put in is found by its message, one that is taken out isn't,
/// and the others stay. This law has no code.
pub fn found_by_message()
    ensures put { (deliveries : List Delivery) (delivery : Delivery) (id : MessageId) → delivery_with id (with_delivery delivery deliveries) ≡ (if same_id delivery.id id then Some delivery else delivery_with id deliveries) }
    ensures taken { (deliveries : List Delivery) (id other : MessageId) → delivery_with other (without_delivery id deliveries) ≡ (if same_id id other then None else delivery_with other deliveries) }
{}
