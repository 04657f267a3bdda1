// The command `send`.
ghost use Rattle.std.specs.Prelude.{◌≡◌, ◌≤◌, ◌<◌, ◌+◌, ◌^◌, All, Some, IfOk, IfErr};
ghost use Rattle.pg_msg.specs.Messages.{AreProperties, IsMessageId};
ghost use Rattle.pg_model.specs.Actions.{Send};
ghost use Rattle.pg_model.specs.Changes.{message_of};
ghost use Rattle.pg_model.specs.Steps.{asked};
ghost use Rattle.pg_engine.specs.Outcomes.{IsOutcome};

use crate::state::{Outcome, State};
use pg_bytes::{Octets, Text};
use pg_disk::Fault;
use pg_msg::{
    Body, Command, Message, MessageId, Properties, QueueIds, Refusal, Reply, WEIGHT_LIMIT, weight,
};
use std::alloc::Global;

impl State {
    // The command `send`. Messages of a transaction and messages with a duplicate id aren't built.
    pub(crate) fn send_with(
        self,
        alloc: Global,
        address: Text,
        tx: Option<Text>,
        id: Option<Octets>,
        properties: Properties,
        body: Octets,
    ) -> Result<Outcome, Fault>
        requires { AreProperties properties }
        ensures outcome { IfOk result
            (λ outcome. IsOutcome self (asked (Some (Command.Send address tx id properties body))) outcome) }
        ensures none { IfErr result (λ fault. fault ≡ Fault.Memory) }
    {
        match (tx, id) {
            (None, None) => self.send(alloc, address, properties, body),
            (Some(_), _) | (None, Some(_)) => Ok(self.refused(Refusal::Line)),
        }
    }

    // The command `send`, outside of transactions and without a duplicate id.
    fn send(
        self,
        alloc: Global,
        address: Text,
        properties: Properties,
        body: Octets,
    ) -> Result<Outcome, Fault>
        requires { AreProperties properties }
        ensures outcome { IfOk result (λ outcome. IsOutcome self (Some (Send address properties body)) outcome) }
        ensures none { IfErr result (λ fault. fault ≡ Fault.Memory) }
    {
        let Some(id) = self.address_id(&address) else {
            return Ok(self.refused(Refusal::Address));
        };
        if body.as_slice().len() as u64 >= WEIGHT_LIMIT {
            return Ok(self.refused(Refusal::Size));
        }
        let message = plain_message(self.next_id(), properties, body);
        if weight(&message) >= WEIGHT_LIMIT {
            return Ok(self.refused(Refusal::Size));
        }
        let queues = self.route(alloc, id, &message.properties)?;
        if queues.as_slice().is_empty() {
            return Ok(self.unchanged(Reply::Unrouted));
        }
        if self.drawn >= self.ids {
            return Ok(self.refused(Refusal::Ids));
        }
        if self.would_page(id) {
            return Ok(self.refused(Refusal::Line));
        }
        self.hold(alloc, id, queues, message)
    }
}

// A message that is all here, without a duplicate id.
fn plain_message(id: MessageId, properties: Properties, body: Octets) -> Message
    ensures { result ≡ message_of id properties body }
{
    Message {
        id,
        dup: None,
        properties,
        body: Body::Plain(body),
    }
}

// The queues with these ids.
pub(crate) fn queue_ids(ids: Vec<u32>) -> QueueIds
    ensures same { result ≡ ids.items }
    ensures in_range { All (λ id. id < 2 ^ 32) ids.items }
{
    QueueIds::from_vec(ids)
}

// The id behind so many that were drawn in the epoch, and some id of it where as many were drawn as it has.
pub(crate) fn id_after(epoch: u32, drawn: u32, ids: u32) -> MessageId
    requires { 1 ≤ epoch }
    ensures next { drawn < ids → result ≡ record { epoch = epoch; number = drawn + 1 } }
    ensures fields { IsMessageId result }
{
    let number = if drawn < ids { drawn + 1 } else { 1 };
    MessageId { epoch, number }
}
