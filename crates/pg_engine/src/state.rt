// The state of the broker in memory, and how its parts change together.
ghost use Rattle.std.specs.Prelude.{◌≡◌, ◌==◌, ◌≢◌, ◌≤◌, ◌<◌, ◌+◌, ◌^◌, ◌↔◌, ◌++◌, ◌∷◌, [], List, ℕ, Option, true, false, All, IsTrue, Some, None, IfOk, IfErr, IfSome, OnOk, is_some, length, option_map};
ghost use Rattle.std.specs.List.{list_any};
ghost use Rattle.pg_msg.specs.declared.properties.Property.{Property};
ghost use Rattle.pg_msg.specs.Commands.{AreSettings, IsFilterText};
ghost use Rattle.pg_msg.specs.Messages.{IsMessage, IsMessageId};
ghost use Rattle.pg_msg.specs.Names.{IsName};
ghost use Rattle.pg_dispatch.specs.Dispatch.{flight_from};
ghost use Rattle.pg_fold.specs.Rows.{has_holder};
ghost use Rattle.pg_model.specs.Actions.{Acknowledge, DropQueue, MakeAddress, MakeQueue, Send};
ghost use Rattle.pg_model.specs.Broker.{address_named, consumer_named, queue_named, queue_with};
ghost use Rattle.pg_model.specs.Changes.{message_of, next_id, with_flights, without_consumer, without_id};
ghost use Rattle.pg_model.specs.Refusals.{WouldPage};
ghost use Rattle.pg_model.specs.Routing.{IsRouted, queues_of, text_of};
ghost use Rattle.pg_recover.specs.Recovered.{IsBegun};
ghost use Rattle.pg_recover.specs.WellFormed.{AreRoomy};
ghost use Rattle.pg_parse.specs.FilterTexts.{ReadsAs};
ghost use Rattle.pg_engine.specs.Filters.{IsTreeOf};
ghost use Rattle.pg_engine.specs.Kept.{HasRoom, IsId, after_giving, broker_of, next_for, view_of, with_consumers};
ghost use Rattle.pg_engine.specs.Outcomes.{IsOutcome, settings_of};

use crate::address::{Settings, add_mark, add_weight, address_entry};
use crate::lines::{count_in, dispatched, held_message, relief};
use crate::naming::named_routes;
use crate::queue::queue_entry;
use crate::recording::record_entry;
use crate::send::{id_after, queue_ids};
use pg_bytes::{Octets, Text};
use pg_disk::Fault;
use pg_dispatch::Dispatcher;
use pg_fold::Durable;
use pg_msg::{Message, MessageId, Properties, QUEUE_ID_LIMIT, QueueIds, Refusal, Reply, weight};
use pg_parse::Tree;
use pg_records::Entry;
use pg_recover::weights_by_address;
use pg_routes::Routes;
use std::alloc::{AllocError, Global};
use std::marker::Model;

/// The state of the broker in memory: the folded state, the names in it by hash, the bytes of the messages of each
/// address and whether it has a page, what is in flight for whom, and the ids that were drawn.
pub struct State {
    pub(crate) durable: Durable,
    pub(crate) routes: Routes,
    pub(crate) weights: Vec<u64>,
    pub(crate) dispatcher: Dispatcher,
    pub(crate) paged: Vec<bool>,
    pub(crate) drawn: u32,
    pub(crate) ids: u32,
}

impl Model for State {
    ghost use Rattle.pg_engine.specs.Kept.{Kept, IsFit};

    ghost Value = { Kept };

    ghost view = { λ i. record {
      durable = i.durable;
      drawn = i.drawn;
      ids = i.ids;
      paged = i.paged.items;
      consumers = i.dispatcher.consumers;
    } };

    ghost invariant = { λ i. IsFit i.durable i.routes i.weights.items i.dispatcher.lines i.paged.items i.drawn };
}

// Written out, so that what holds a state lets it go by one call.
impl Drop for State {
    fn drop(self) {
        let State {
            durable: _durable,
            routes: _routes,
            weights: _weights,
            dispatcher: _dispatcher,
            paged: _paged,
            drawn: _drawn,
            ids: _ids,
        } = self;
    }
}

/// What a command does.
#[derive(Drop)]
pub enum Outcome {
    /// What outlives the run is as before.
    Unchanged {
        state: State,
        reply: Reply,
    },
    /// The state after the command, and the batch that the journal gets for it.
    Changed {
        state: State,
        batch: Octets,
        reply: Reply,
    },
}

impl State {
    /// The state of a broker that was opened: the epoch was begun, no id is drawn, and no consumer is open. `paged` tells
    /// of each address whether it has a page.
    pub fn new(
        alloc: Global,
        durable: Durable,
        paged: Vec<bool>,
        ids: u32,
    ) -> Result<State, AllocError>
        requires begun { IsBegun durable }
        requires roomy { AreRoomy durable }
        requires counted { length paged.items ≡ length durable.addresses }
        ensures { IfOk result (λ state. state ≡ record
            { durable = durable; drawn = 0; ids = ids; paged = paged.items; consumers = [] }) }
    {
        let addresses = durable.addresses.as_slice();
        let queues = durable.queues.as_slice();
        let routes = named_routes(alloc, addresses, queues)?;
        let weights = weights_by_address(alloc, addresses.len(), &durable.journaled)?;
        let dispatcher = dispatched(alloc, queues, &durable.journaled)?;
        Ok(State {
            durable,
            routes,
            weights,
            dispatcher,
            paged,
            drawn: 0,
            ids,
        })
    }

    // Makes the address, whose name is new.
    pub(crate) fn make_address(
        self,
        alloc: Global,
        name: Text,
        settings: Settings,
    ) -> Result<Outcome, Fault>
        requires name { IsName name }
        requires settings { AreSettings settings.max settings.page settings.ahead settings.dup }
        requires new { address_named (broker_of self).durable.addresses name ≡ None }
        requires few { length self.durable.addresses < 1000 }
        ensures outcome { IfOk result (λ outcome. IsOutcome self (Some (MakeAddress name (settings_of settings))) outcome) }
        ensures none { IfErr result (λ fault. fault ≡ Fault.Memory) }
    {
        let State {
            durable,
            mut routes,
            mut weights,
            dispatcher,
            mut paged,
            drawn,
            ids,
        } = self;
        let id = durable.addresses.as_slice().len() as u32 + 1;
        let entry = address_entry(id, name.copy()?, settings);
        let (durable, batch) = record_entry(alloc, durable, entry)?;
        routes.add_address(alloc, id, name)?;
        add_weight(&mut weights)?;
        add_mark(&mut paged)?;
        let state = State {
            durable,
            routes,
            weights,
            dispatcher,
            paged,
            drawn,
            ids,
        };
        Ok(Outcome::Changed {
            state,
            batch,
            reply: Reply::Done,
        })
    }

    // Makes the queue, whose name is new, on the address with that id, with the filter of this text and tree.
    pub(crate) fn make_queue(
        self,
        alloc: Global,
        name: Text,
        address: u32,
        filter: Text,
        tree: Option<Tree>,
    ) -> Result<Outcome, Fault>
        requires name { IsName name }
        requires text { IsFilterText filter }
        requires read { ReadsAs filter tree }
        requires new { queue_named (broker_of self).durable.queues name ≡ None }
        requires known { IsId (length self.durable.addresses) address }
        requires few { length (queues_of address (broker_of self).durable.queues) < 1000 }
        requires left { self.durable.next < QUEUE_ID_LIMIT }
        ensures outcome { IfOk result (λ outcome. (at : List ℕ) (asked : Option (List ℕ))
            → address_named (broker_of self).durable.addresses at ≡ Some address → IsTreeOf asked tree
            → filter ≡ text_of asked → IsOutcome self (Some (MakeQueue name at asked)) outcome) }
        ensures none { IfErr result (λ fault. fault ≡ Fault.Memory) }
    {
        let State {
            durable,
            mut routes,
            weights,
            mut dispatcher,
            paged,
            drawn,
            ids,
        } = self;
        let queue = durable.next;
        let entry = queue_entry(queue, address, name.copy()?, filter);
        let (durable, batch) = record_entry(alloc, durable, entry)?;
        routes.add_queue(alloc, queue, address, name, tree)?;
        dispatcher.add_queue(alloc, queue)?;
        let state = State {
            durable,
            routes,
            weights,
            dispatcher,
            paged,
            drawn,
            ids,
        };
        Ok(Outcome::Changed {
            state,
            batch,
            reply: Reply::Done,
        })
    }

    // Drops the queue with that id, on which no consumer is open, with what it holds. The messages that are held by then
    // are weighed anew.
    pub(crate) fn remove_queue(self, alloc: Global, queue: u32) -> Result<Outcome, Fault>
        requires named { (name : List ℕ)
            × (option_map (λ q. q.id) (queue_named (broker_of self).durable.queues name) ≡ Some queue) }
        requires free { list_any (λ c. c.queue == queue) self.consumers ≡ false }
        ensures outcome { IfOk result (λ outcome. (name : List ℕ)
            → option_map (λ q. q.id) (queue_named (broker_of self).durable.queues name) ≡ Some queue
            → IsOutcome self (Some (DropQueue name)) outcome) }
        ensures none { IfErr result (λ fault. fault ≡ Fault.Memory) }
    {
        let State {
            durable,
            mut routes,
            weights: _weights,
            mut dispatcher,
            paged,
            drawn,
            ids,
        } = self;
        let (durable, batch) = record_entry(alloc, durable, Entry::DropQueue { queue })?;
        routes.drop_queue(queue);
        dispatcher.drop_queue(queue);
        let count = durable.addresses.as_slice().len();
        let weights = weights_by_address(alloc, count, &durable.journaled)?;
        let state = State {
            durable,
            routes,
            weights,
            dispatcher,
            paged,
            drawn,
            ids,
        };
        Ok(Outcome::Changed {
            state,
            batch,
            reply: Reply::Done,
        })
    }

    // Holds the message, which has the next id, for the address with that id, and gives it to its queues.
    pub(crate) fn hold(
        self,
        alloc: Global,
        address: u32,
        queues: QueueIds,
        message: Message,
    ) -> Result<Outcome, Fault>
        requires known { IsId (length self.durable.addresses) address }
        requires routed { IsRouted (broker_of self) address message.properties queues }
        requires some { queues ≢ [] }
        requires in_range { All (λ queue. queue < 2 ^ 32) queues }
        requires message { IsMessage message }
        requires next { message.id ≡ next_id (broker_of self) }
        requires left { self.drawn < self.ids }
        requires room { HasRoom self.durable address }
        ensures outcome { IfOk result (λ outcome. (name : List ℕ) (properties : List Property) (body : List ℕ)
            → address_named (broker_of self).durable.addresses name ≡ Some address
            → message ≡ message_of (next_id (broker_of self)) properties body
            → (WouldPage (view_of self) (broker_of self) address → ⊥)
            → IsOutcome self (Some (Send name properties body)) outcome) }
        ensures none { IfErr result (λ fault. fault ≡ Fault.Memory) }
    {
        let State {
            durable,
            routes,
            mut weights,
            mut dispatcher,
            paged,
            drawn,
            ids,
        } = self;
        let id = message.id;
        let place = address as usize - 1;
        weights[place] = weights[place].saturating_add(weight(&message));
        dispatcher.add(queues.as_slice(), id)?;
        let entry = Entry::Add {
            address,
            queues,
            message,
        };
        let (durable, batch) = record_entry(alloc, durable, entry)?;
        let state = State {
            durable,
            routes,
            weights,
            dispatcher,
            paged,
            drawn: drawn + 1,
            ids,
        };
        Ok(Outcome::Changed {
            state,
            batch,
            reply: Reply::Sent(id),
        })
    }

    // Takes the message, which is in flight for the consumer from the queue, from what the queue holds.
    pub(crate) fn relieve(
        self,
        alloc: Global,
        consumer: &Text,
        queue: u32,
        id: MessageId,
    ) -> Result<Outcome, Fault>
        requires from { flight_from consumer.now id self.consumers ≡ Some queue }
        requires held { has_holder self.durable.journaled id queue ≡ true }
        requires id { IsMessageId id }
        ensures outcome { IfOk result (λ outcome. IsOutcome self (Some (Acknowledge consumer.now id)) outcome) }
        ensures none { IfErr result (λ fault. fault ≡ Fault.Memory) }
    {
        let State {
            durable,
            routes,
            mut weights,
            mut dispatcher,
            paged,
            drawn,
            ids,
        } = self;
        let (address, bytes) = relief(&durable.journaled, queue, id);
        let place = address as usize - 1;
        weights[place] = weights[place].saturating_sub(bytes);
        dispatcher.acknowledge(consumer, id);
        let (durable, batch) = record_entry(alloc, durable, Entry::Ack { queue, message: id })?;
        let state = State {
            durable,
            routes,
            weights,
            dispatcher,
            paged,
            drawn,
            ids,
        };
        Ok(Outcome::Changed {
            state,
            batch,
            reply: Reply::Done,
        })
    }

    // Opens the consumer, whose name is new, on the live queue with that id.
    pub(crate) fn open_on(
        &mut self,
        alloc: Global,
        name: Text,
        queue: u32,
    ) -> Result<(), AllocError>
        requires new { consumer_named self.old.consumers name ≡ None }
        requires live { is_some (queue_with (broker_of self.old).durable.queues queue) ≡ true }
        ensures { OnOk result (self.new ≡ with_consumers
            (self.old.consumers ++ record { name = name; queue = queue; in_flight = [] } ∷ []) self.old) }
    {
        self.dispatcher.open(alloc, name, queue)
    }

    // Gives the consumer the first message of its queue that isn't in flight, from the one copy that the journal's state
    // holds.
    pub(crate) fn give(
        &mut self,
        alloc: Global,
        consumer: &Text,
    ) -> Result<Option<Message>, AllocError>
        requires { is_some (consumer_named self.old.consumers consumer.now) ≡ true }
        ensures given { IfOk result (λ given. given ≡ next_for consumer.now self.old) }
        ensures taken { IfOk result (λ given. self.new ≡ after_giving consumer.now given self.old) }
    {
        let Some(id) = self.dispatcher.receive(alloc, consumer)? else {
            return Ok(None);
        };
        Ok(Some(held_message(alloc, &self.durable.journaled, id)?))
    }

    // Makes the message, which is in flight for the consumer, available again, at its place.
    pub(crate) fn put_back(&mut self, consumer: &Text, id: MessageId) -> Result<(), AllocError>
        requires { is_some (flight_from consumer.now id self.old.consumers) ≡ true }
        ensures { OnOk result (self.new ≡ with_consumers
            (with_flights consumer.now (without_id id) self.old.consumers) self.old) }
    {
        self.dispatcher.cancel(consumer, id)
    }

    // Closes the consumer. What is in flight for it is available again, at its place.
    pub(crate) fn shut(&mut self, alloc: Global, consumer: &Text) -> Result<(), AllocError>
        requires { is_some (consumer_named self.old.consumers consumer.now) ≡ true }
        ensures { OnOk result (self.new ≡ with_consumers (without_consumer consumer.now self.old.consumers) self.old) }
    {
        self.dispatcher.close(alloc, consumer)
    }

    // The id of the next message. Where no number is left it is that of another one, and no message is made of it.
    pub(crate) fn next_id(&self) -> MessageId
        ensures next { self.now.drawn < self.now.ids → result ≡ next_id (broker_of self.now) }
        ensures fields { IsMessageId result }
    {
        id_after(self.durable.epoch, self.drawn, self.ids)
    }

    // The id of the address of that name.
    pub(crate) fn address_id(&self, name: &Text) -> Option<u32>
        ensures { result ≡ address_named (broker_of self.now).durable.addresses name.now }
    {
        self.routes.address_id(name.as_str())
    }

    // The id of the live queue of that name.
    pub(crate) fn queue_id(&self, name: &Text) -> Option<u32>
        ensures id { result ≡ option_map (λ q. q.id) (queue_named (broker_of self.now).durable.queues name.now) }
        ensures live { IfSome result (λ queue. is_some (queue_with (broker_of self.now).durable.queues queue) ≡ true) }
    {
        self.routes.queue_id(name.as_str())
    }

    // How many queues the address has.
    pub(crate) fn queue_count(&self, address: u32) -> usize
        ensures { result ≡ length (queues_of address (broker_of self.now).durable.queues) }
    {
        self.routes.queues_at(address).len()
    }

    // The ids of the queues of the address that a message with these properties goes to.
    pub(crate) fn route(
        &self,
        alloc: Global,
        address: u32,
        properties: &Properties,
    ) -> Result<QueueIds, AllocError>
        ensures routed { IfOk result (λ queues. IsRouted (broker_of self.now) address properties.now queues) }
        ensures in_range { IfOk result (All (λ queue. queue < 2 ^ 32)) }
    {
        let ids = self.routes.route(alloc, address, properties.as_slice())?;
        Ok(queue_ids(ids))
    }

    // Whether a message to the address would be paged: it has a page, or its messages come to its `max`.
    pub(crate) fn would_page(&self, address: u32) -> bool
        requires { IsId (length self.now.durable.addresses) address }
        ensures { IsTrue result ↔ WouldPage (view_of self.now) (broker_of self.now) address }
    {
        let place = address as usize - 1;
        self.paged[place] || self.durable.addresses.as_slice()[place].max <= self.weights[place]
    }

    // The id of the queue of the consumer of that name.
    pub(crate) fn consumed_by(&self, consumer: &Text) -> Option<u32>
        ensures queue { result ≡ option_map (λ c. c.queue) (consumer_named self.now.consumers consumer.now) }
        ensures live { IfSome result (λ queue. is_some (queue_with (broker_of self.now).durable.queues queue) ≡ true) }
    {
        self.dispatcher.queue_of(consumer)
    }

    // Whether a consumer is open on the queue.
    pub(crate) fn is_consumed(&self, queue: u32) -> bool
        ensures { result ≡ list_any (λ c. c.queue == queue) self.now.consumers }
    {
        self.dispatcher.is_consumed(queue)
    }

    // The id of the queue from which the message is in flight for the consumer of that name.
    pub(crate) fn flight(&self, consumer: &Text, id: MessageId) -> Option<u32>
        ensures from { result ≡ flight_from consumer.now id self.now.consumers }
        ensures held { IfSome result (λ queue. has_holder self.now.durable.journaled id queue ≡ true) }
    {
        self.dispatcher.flight(consumer, id)
    }

    // How many messages the live queue of that name holds.
    pub(crate) fn count_of(&self, name: &Text) -> Option<u64>
        ensures { result ≡ option_map (λ q. length q.messages) (queue_named (broker_of self.now).durable.queues name.now) }
    {
        let id = self.queue_id(name)?;
        count_in(&self.dispatcher, &self.durable.journaled, id)
    }

    // A refusal, which leaves all as it was.
    pub(crate) fn refused(self, refusal: Refusal) -> Outcome
        ensures { result ≡ Outcome.Unchanged self (Reply.No refusal) }
    {
        self.unchanged(Reply::No(refusal))
    }

    // The refusal of a command that isn't built.
    pub(crate) fn unread(self) -> Outcome
        ensures { result ≡ Outcome.Unchanged self (Reply.No Refusal.Line) }
    {
        self.refused(Refusal::Line)
    }

    // A reply that leaves all as it was.
    pub(crate) fn unchanged(self, reply: Reply) -> Outcome
        ensures { result ≡ Outcome.Unchanged self reply }
    {
        Outcome::Unchanged { state: self, reply }
    }
}
