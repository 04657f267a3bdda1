// The queues and the consumers beside each other.
ghost use Rattle.std.specs.Prelude.{◌≡◌, ◌==◌, ◌<◌, ◌^◌, ◌-◌, ℕ, [], true, false, None, Some, is_some, length, min};
ghost use Rattle.std.specs.Prelude.{slice_get, All, OnOk, OnErr, IfOk, IfSome};
ghost use Rattle.std.specs.List.{list_any};
ghost use Rattle.std.specs.Option.{option_map};
ghost use Rattle.pg_model.specs.Broker.{consumer_named};
ghost use Rattle.pg_queue.specs.Entries.{entry_at, entry_of};
ghost use Rattle.pg_dispatch.specs.Dispatch.{acknowledged, cancelled, closed, first_available, flight_from, given_to};
ghost use Rattle.pg_dispatch.specs.Dispatch.{has_in_line, has_in_lines, has_line, line_of};
ghost use Rattle.pg_dispatch.specs.Dispatch.{with_consumer, with_line, with_message, without_line};
ghost use Rattle.pg_dispatch.specs.Matching.{flights_to, given_once};

use pg_bytes::Text;
use pg_flight::{Consumers, Delivery};
use pg_msg::MessageId;
use pg_queue::{Queues, Taken};
use std::alloc::{AllocError, Global};
use std::marker::Model;

/// The messages of the live queues and the open consumers: each message is available, or in flight for one consumer of its queue.
///
/// Each call takes time that is at most logarithmic in what there is, but for these: `add` does so for each queue that it is given,
/// `close` for each message that was in flight for the consumer, and `is_consumed` walks over the consumers.
pub struct Dispatcher {
    // An entry is taken exactly where it is in flight.
    queues: Queues,
    consumers: Consumers,
}

impl Model for Dispatcher {
    ghost use Rattle.pg_dispatch.specs.Dispatch.{Dispatch};

    ghost Value = { Dispatch };

    ghost use Rattle.pg_dispatch.specs.Matching.{seen, AreMatched};

    ghost view = { λ dispatcher. seen dispatcher.queues dispatcher.consumers };

    ghost invariant = { λ dispatcher. AreMatched dispatcher.queues dispatcher.consumers };
}

impl Drop for Dispatcher {
    fn drop(self) {
        let Dispatcher {
            queues: _queues,
            consumers: _consumers,
        } = self;
    }
}

impl Dispatcher {
    /// No queue and no consumer. Takes no memory.
    pub fn new(alloc: Global) -> Dispatcher
        ensures { result ≡ record { lines = []; consumers = [] } }
    {
        Dispatcher {
            queues: Queues::new(alloc),
            consumers: Consumers::new(alloc),
        }
    }

    /// One more live queue, with no message. Fails only where there is no memory for it, and then nothing has changed.
    pub fn add_queue(&mut self, alloc: Global, queue: u32) -> Result<(), AllocError>
        requires { All (λ line. line.queue < queue) self.old.lines }
        ensures ok { OnOk result (self.new ≡ with_line queue self.old) }
        ensures err { OnErr result (self.new ≡ self.old) }
    {
        self.queues.add_queue(alloc, queue)
    }

    /// Takes the queue out, if it is there, with all its messages.
    pub fn drop_queue(&mut self, queue: u32)
        requires { list_any (λ consumer. consumer.queue == queue) self.old.consumers ≡ false }
        ensures { self.new ≡ without_line queue self.old }
    {
        self.queues.drop_queue(queue);
    }

    /// How many messages the queue has, those in flight too. None exactly where there is no such queue.
    pub fn count(&self, queue: u32) -> Option<u64>
        ensures { result ≡ option_map (λ line. min (length line.ids) (2 ^ 64 - 1)) (line_of queue self.now.lines) }
    {
        self.queues.count(queue)
    }

    /// Puts the message behind the others of each of these queues that is there. Fails where there is no memory for it, or where
    /// a queue was given 2^64 - 1 messages before, and then some of the queues may have it.
    pub fn add(&mut self, queues: &[u32], id: MessageId) -> Result<(), AllocError>
        requires { has_in_lines id self.old.lines ≡ false }
        ensures { OnOk result (self.new ≡ with_message queues.now id self.old) }
    {
        for queue in queues {
            self.add_to(*queue, id)?;
        }
        Ok(())
    }

    // Puts the message behind the others of the queue, unless it is there already. At Err nothing has changed.
    fn add_to(&mut self, queue: u32, id: MessageId) -> Result<(), AllocError>
        ensures ok { OnOk result (self.new ≡ given_once queue id self.old) }
        ensures err { OnErr result (self.new ≡ self.old) }
    {
        if self.queues.has(queue, id) {
            return Ok(());
        }
        self.queues.add(queue, id)
    }

    /// Opens a consumer on the queue, behind the others, with nothing in flight. Fails only where there is no memory for it, or
    /// where 2^64 - 1 were opened before, and then nothing has changed.
    pub fn open(&mut self, alloc: Global, name: Text, queue: u32) -> Result<(), AllocError>
        requires new { consumer_named self.old.consumers name ≡ None }
        requires there { has_line queue self.old.lines ≡ true }
        ensures ok { OnOk result (self.new ≡ with_consumer name queue self.old) }
        ensures err { OnErr result (self.new ≡ self.old) }
    {
        self.consumers.open(alloc, name, queue)
    }

    /// The queue of the consumer with that name. None exactly where no such consumer is open.
    pub fn queue_of(&self, name: &Text) -> Option<u32>
        ensures queue { result ≡ option_map (λ consumer. consumer.queue) (consumer_named self.now.consumers name.now) }
        ensures live { IfSome result (λ queue. has_line queue self.now.lines ≡ true) }
    {
        self.consumers.queue_of(name)
    }

    /// Whether some consumer is open on the queue.
    pub fn is_consumed(&self, queue: u32) -> bool
        ensures { result ≡ list_any (λ consumer. consumer.queue == queue) self.now.consumers }
    {
        self.consumers.is_consumed(queue)
    }

    /// Gives the consumer the first message of its queue that isn't in flight, if there is one: it is in flight for the consumer
    /// from then on. None where no such consumer is open, too. Fails only where there is no memory for it, and then nothing has
    /// changed.
    pub fn receive(&mut self, alloc: Global, name: &Text) -> Result<Option<MessageId>, AllocError>
        ensures given { IfOk result (λ given. (queue : ℕ)
            → option_map (λ consumer. consumer.queue) (consumer_named self.old.consumers name.now) ≡ Some queue
            → given ≡ first_available queue self.old) }
        ensures unopened { IfOk result (λ given. consumer_named self.old.consumers name.now ≡ None → given ≡ None) }
        ensures taken { IfOk result (λ given. self.new ≡ given_to name.now given self.old) }
        ensures err { OnErr result (self.new ≡ self.old) }
    {
        let Some(queue) = self.consumers.queue_of(name) else {
            return Ok(None);
        };
        let Some(first) = self.queues.peek(queue) else {
            return Ok(None);
        };
        let id = message_of(first);
        let delivery = Delivery {
            queue,
            id,
            place: None,
        };
        self.consumers.deliver(alloc, name, delivery)?;
        self.queues.receive(queue);
        Ok(Some(id))
    }

    /// The queue from which the message is in flight for the consumer. None exactly where it isn't, or no such consumer is open.
    pub fn flight(&self, name: &Text, id: MessageId) -> Option<u32>
        ensures from { result ≡ flight_from name.now id self.now.consumers }
        ensures held { IfSome result (λ queue. has_in_line queue id self.now.lines ≡ true) }
    {
        let delivery = self.consumers.get(name, id)?;
        Some(delivery.queue)
    }

    /// Ends the flight of the message to the consumer, and takes it out of its queue.
    pub fn acknowledge(&mut self, name: &Text, id: MessageId)
        requires { is_some (flight_from name.now id self.old.consumers) ≡ true }
        ensures { (queue : ℕ) → flight_from name.now id self.old.consumers ≡ Some queue
            → self.new ≡ acknowledged name.now queue id self.old }
    {
        if let Some(delivery) = self.consumers.take(name, id) {
            self.queues.remove(delivery.queue, id);
        }
    }

    /// Ends the flight of the message to the consumer: it is available again, at its place. Fails only where there is no memory
    /// for it, and then nothing has changed.
    pub fn cancel(&mut self, name: &Text, id: MessageId) -> Result<(), AllocError>
        requires { is_some (flight_from name.now id self.old.consumers) ≡ true }
        ensures ok { OnOk result (self.new ≡ cancelled name.now id self.old) }
        ensures err { OnErr result (self.new ≡ self.old) }
    {
        let Some(delivery) = self.consumers.get(name, id) else {
            return Ok(());
        };
        self.queues.put_back(delivery.queue, id)?;
        self.consumers.take(name, id);
        Ok(())
    }

    /// Closes the consumer: each message that was in flight for it is available again, at its place. Fails only where there is
    /// no memory for it, and then some of these messages may be available again.
    pub fn close(&mut self, alloc: Global, name: &Text) -> Result<(), AllocError>
        requires { is_some (consumer_named self.old.consumers name.now) ≡ true }
        ensures closed { OnOk result (self.new ≡ closed name.now self.old) }
        ensures lines { self.new.lines ≡ self.old.lines }
    {
        self.cancel_all(name)?;
        self.consumers.close(alloc, name)?;
        Ok(())
    }

    // Ends each flight to the consumer. At Err some may have ended. Nothing else changes in either case.
    fn cancel_all(&mut self, name: &Text) -> Result<(), AllocError>
        requires { is_some (consumer_named self.old.consumers name.now) ≡ true }
        ensures open { is_some (consumer_named self.new.consumers name.now) ≡ true }
        ensures others { closed name.now self.new ≡ closed name.now self.old }
        ensures none { OnOk result (flights_to name.now self.new.consumers ≡ []) }
    {
        while let Some(id) = self.first_flight(name) {
            self.cancel(name, id)?;
        }
        Ok(())
    }

    // The message with the lowest id that is in flight for the consumer.
    fn first_flight(&self, name: &Text) -> Option<MessageId>
        ensures { result ≡ slice_get (flights_to name.now self.now.consumers) 0 }
    {
        let delivery = self.consumers.first(name)?;
        Some(delivery.id)
    }
}

// The message of an entry.
fn message_of(entry: Taken) -> MessageId
    ensures { entry_of entry ≡ entry_at result None }
{
    match entry {
        Taken::Journaled(id) => id,
    }
}
