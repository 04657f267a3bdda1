// The command `queue`.
ghost use Rattle.std.specs.Prelude.{◌≡◌, ◌<◌, List, ℕ, None, Some, IfOk, IfErr, IfSome, length};
ghost use Rattle.pg_msg.specs.Commands.{IsFilterText};
ghost use Rattle.pg_msg.specs.Names.{IsName};
ghost use Rattle.pg_model.specs.Actions.{MakeQueue};
ghost use Rattle.pg_model.specs.Broker.{address_named, queue_named};
ghost use Rattle.pg_model.specs.Routing.{queues_of, text_of};
ghost use Rattle.pg_engine.specs.Filters.{IsBadFilter, IsTreeOf};
ghost use Rattle.pg_engine.specs.Kept.{IsId, broker_of};
ghost use Rattle.pg_engine.specs.Outcomes.{IsNoOutcome, IsOutcome};

use crate::state::{Outcome, State};
use pg_bytes::Text;
use pg_disk::Fault;
use pg_msg::{MOST_QUEUES, QUEUE_ID_LIMIT, Refusal};
use pg_parse::{FilterError, Tree, parse};
use pg_records::Entry;
use std::alloc::{AllocError, Global};

impl State {
    // The command `queue`.
    pub(crate) fn add_queue(
        self,
        alloc: Global,
        name: Text,
        address: Text,
        filter: Option<Text>,
    ) -> Result<Outcome, Fault>
        requires name { IsName name }
        requires text { IfSome filter IsFilterText }
        ensures outcome { IfOk result (λ outcome. IsOutcome self (Some (MakeQueue name address filter)) outcome) }
        ensures none { IfErr result (λ fault. IsNoOutcome self (Some (MakeQueue name address filter)) fault) }
    {
        if self.queue_id(&name).is_some() {
            return Ok(self.refused(Refusal::Name));
        }
        let Some(id) = self.address_id(&address) else {
            return Ok(self.refused(Refusal::Address));
        };
        if self.queue_count(id) >= MOST_QUEUES {
            return Ok(self.refused(Refusal::Room));
        }
        match tree_of(alloc, &filter) {
            Ok(tree) => self.add_readable_queue(alloc, name, id, filter, tree),
            Err(FilterError::BadFilter { at }) => Ok(self.refused(Refusal::Filter(at as u64))),
            Err(FilterError::Memory) => Err(Fault::Memory),
        }
    }

    // Makes the queue, which nothing refuses, on the address with that id, if an id is left for it.
    fn add_readable_queue(
        self,
        alloc: Global,
        name: Text,
        address: u32,
        filter: Option<Text>,
        tree: Option<Tree>,
    ) -> Result<Outcome, Fault>
        requires name { IsName name }
        requires text { IfSome filter IsFilterText }
        requires read { IsTreeOf filter tree }
        requires new { queue_named (broker_of self).durable.queues name ≡ None }
        requires known { IsId (length self.durable.addresses) address }
        requires few { length (queues_of address (broker_of self).durable.queues) < 1000 }
        ensures outcome { IfOk result (λ outcome. (at : List ℕ)
            → address_named (broker_of self).durable.addresses at ≡ Some address
            → IsOutcome self (Some (MakeQueue name at filter)) outcome) }
        ensures none { IfErr result (λ fault. (at : List ℕ)
            → address_named (broker_of self).durable.addresses at ≡ Some address
            → IsNoOutcome self (Some (MakeQueue name at filter)) fault) }
    {
        if self.durable.next >= QUEUE_ID_LIMIT {
            return Err(Fault::Spent);
        }
        let text = text_of(alloc, filter)?;
        self.make_queue(alloc, name, address, text, tree)
    }
}

// The tree of the filter, if there is one.
fn tree_of(alloc: Global, filter: &Option<Text>) -> Result<Option<Tree>, FilterError>
    ensures tree { IfOk result (λ tree. IsTreeOf filter.now tree) }
    ensures bad { IfErr result (λ e. IsBadFilter filter.now e) }
{
    match filter {
        Some(text) => Ok(Some(parse(alloc, text.as_str())?)),
        None => Ok(None),
    }
}

// The text that is kept of the filter: an empty one where there is none.
fn text_of(alloc: Global, filter: Option<Text>) -> Result<Text, AllocError>
    ensures { IfOk result (λ text. text ≡ text_of filter) }
{
    match filter {
        Some(text) => Ok(text),
        None => Text::from_str(alloc, ""),
    }
}

// The entry of a queue with this text for its filter.
pub(crate) fn queue_entry(queue: u32, address: u32, name: Text, filter: Text) -> Entry
    ensures { result ≡ Entry.Queue queue address name filter }
{
    Entry::Queue {
        queue,
        address,
        name,
        filter,
    }
}
