// The commands of consumers.
ghost use Rattle.std.specs.Prelude.{◌≡◌, ◌++◌, ◌∷◌, [], true, IfOk};
ghost use Rattle.pg_msg.specs.declared.command.Command.TheVariants as Command;
ghost use Rattle.pg_model.specs.Actions.{Open, Receive, Acknowledge, Cancel, Close};
ghost use Rattle.pg_model.specs.Changes.{acknowledged, with_consumers, with_durable, with_flights, with_queues, without_consumer, without_id};
ghost use Rattle.pg_plain.specs.Kept.{is_live};
ghost use Rattle.pg_plain.specs.Unpaged.{ActsUnpaged, StepUnpaged};

use crate::consumers::{close, let_go};
use crate::plain::Plain;
use crate::queues::relieve;
use crate::rows::ConsumerRow;
use pg_bytes::Text;
use pg_msg::{MessageId, Refusal, Reply};
use std::alloc::{AllocError, Global};

impl Plain {
    // The command `consumer`.
    pub(crate) fn open(
        self,
        alloc: Global,
        name: Text,
        queue: &Text,
    ) -> Result<(Plain, Reply), AllocError>
        ensures { IfOk result (λ answer. ActsUnpaged self (Open name queue.now) answer.1 answer.0) }
    {
        if self.queue_of(&name).is_some() {
            return Ok((self, Reply::No(Refusal::Name)));
        }
        let Some(id) = self.queue_id(queue) else {
            return Ok((self, Reply::No(Refusal::Queue)));
        };
        Ok((self.with_consumer(alloc, name, id)?, Reply::Done))
    }

    fn with_consumer(mut self, alloc: Global, name: Text, queue: u32) -> Result<Plain, AllocError>
        requires { is_live self.durable.queues queue ≡ true }
        ensures { IfOk result (λ t. t ≡ with_consumers self
            (self.running.consumers ++ (record { name = name; queue = queue; in_flight = [] } ∷ []))) }
    {
        self.consumers.push(ConsumerRow {
            name,
            queue,
            in_flight: Vec::new(alloc),
        })?;
        Ok(self)
    }

    // The command `receive`.
    pub(crate) fn receive(
        self,
        alloc: Global,
        consumer: &Text,
    ) -> Result<(Plain, Reply), AllocError>
        ensures { IfOk result (λ answer. ActsUnpaged self (Receive consumer.now) answer.1 answer.0) }
    {
        let Some(queue) = self.queue_of(consumer) else {
            return Ok((self, Reply::No(Refusal::Consumer)));
        };
        let message = match self.available(queue) {
            Some(message) => message.copy(alloc)?,
            None => return Ok((self, Reply::Empty)),
        };
        Ok((
            self.with_flight(consumer, message.id)?,
            Reply::Given(message),
        ))
    }

    // The command `ack`. One in a transaction isn't taken.
    pub(crate) fn acknowledge_with(
        self,
        consumer: &Text,
        id: MessageId,
        tx: Option<Text>,
    ) -> (Plain, Reply)
        ensures { StepUnpaged self (Command.Ack consumer.now id tx) result.1 result.0 }
    {
        match tx {
            None => self.acknowledge(consumer, id),
            Some(_) => (self, Reply::No(Refusal::Line)),
        }
    }

    // The command `ack`, outside of transactions.
    fn acknowledge(self, consumer: &Text, id: MessageId) -> (Plain, Reply)
        ensures { ActsUnpaged self (Acknowledge consumer.now id) result.1 result.0 }
    {
        let Some(queue) = self.queue_of(consumer) else {
            return (self, Reply::No(Refusal::Consumer));
        };
        if !self.has_flight(consumer, id) {
            return (self, Reply::No(Refusal::Delivery));
        }
        (
            self.without_flight(consumer, id).without_message(queue, id),
            Reply::Done,
        )
    }

    fn without_flight(mut self, consumer: &Text, id: MessageId) -> Plain
        ensures { result ≡ with_consumers self (with_flights consumer.now (without_id id) self.running.consumers) }
    {
        let_go(&mut self.consumers, consumer, id);
        self
    }

    fn without_message(mut self, queue: u32, id: MessageId) -> Plain
        ensures { result ≡ with_durable self (with_queues self.durable (acknowledged queue id self.durable.queues)) }
    {
        relieve(&mut self.queues, queue, id);
        self
    }

    // The command `cancel`.
    pub(crate) fn cancel(self, consumer: &Text, id: MessageId) -> (Plain, Reply)
        ensures { ActsUnpaged self (Cancel consumer.now id) result.1 result.0 }
    {
        let Some(_queue) = self.queue_of(consumer) else {
            return (self, Reply::No(Refusal::Consumer));
        };
        if !self.has_flight(consumer, id) {
            return (self, Reply::No(Refusal::Delivery));
        }
        (self.without_flight(consumer, id), Reply::Done)
    }

    // The command `close`.
    pub(crate) fn close(self, consumer: &Text) -> (Plain, Reply)
        ensures { ActsUnpaged self (Close consumer.now) result.1 result.0 }
    {
        let Some(_queue) = self.queue_of(consumer) else {
            return (self, Reply::No(Refusal::Consumer));
        };
        (self.without_consumer(consumer), Reply::Done)
    }

    fn without_consumer(mut self, consumer: &Text) -> Plain
        ensures { result ≡ with_consumers self (without_consumer consumer.now self.running.consumers) }
    {
        close(&mut self.consumers, consumer);
        self
    }
}
