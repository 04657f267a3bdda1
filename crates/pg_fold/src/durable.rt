// The state that entries give.
ghost use Rattle.std.specs.Prelude.{◌≡◌, ◌+◌, ◌<◌, false, length, IfOk, IfErr};
ghost use Rattle.pg_records.specs.declared.entry.Entry.TheVariants as entries;
ghost use Rattle.pg_msg.specs.declared.message.Message.{Message};
ghost use Rattle.pg_fold.specs.Fold.{changed, fresh, rule_of, unless, IsApplied, IsBrokenBy, are_settings};
ghost use Rattle.pg_fold.specs.Rows.{has_message, has_queue_named};

use crate::addresses::AddressRows;
use crate::filters::check_readable;
use crate::fold_error::FoldError;
use crate::holders::Holders;
use crate::journaled::JournaledRows;
use crate::queues::QueueRows;
use crate::rows::{AddressRow, JournaledRow, QueueRow};
use pg_bytes::Text;
use pg_disk::Rule;
use pg_msg::{
    GREATEST_AHEAD, GREATEST_DUP, GREATEST_MAX, GREATEST_PAGE, LONGEST_FILTER, MOST_ADDRESSES,
    MOST_QUEUES, Message, MessageId, QUEUE_ID_LIMIT, QueueIds,
};
use pg_records::Entry;
use std::alloc::{AllocError, Global};

/// What outlives a run, as the journal's entries give it. `docs/FORMATS.md` has the condition and the effect of each.
pub struct Durable {
    /// The epoch of the last opening, 0 before the first.
    pub epoch: u32,
    pub addresses: AddressRows,
    pub queues: QueueRows,
    /// The id that the next queue gets.
    pub next: u32,
    pub journaled: JournaledRows,
}

// Written out, so that what holds a state lets it go by one call.
impl Drop for Durable {
    fn drop(self) {
        let Durable {
            epoch: _epoch,
            addresses: _addresses,
            queues: _queues,
            next: _next,
            journaled: _journaled,
        } = self;
    }
}

impl Durable {
    /// The state before the first entry: nothing was made. Takes no memory.
    pub fn fresh(alloc: Global) -> Durable
        ensures { result ≡ fresh }
    {
        Durable {
            epoch: 0,
            addresses: AddressRows::new(alloc),
            queues: QueueRows::new(alloc),
            next: 1,
            journaled: JournaledRows::new(alloc),
        }
    }

    /// The rule of the first part of the entry's condition that fails, and None where the condition holds. Whether the
    /// text of a filter is readable isn't asked here, only how long it is. The entries on pages, transactions, duplicate
    /// ids and large messages aren't built, and break `Name`.
    pub fn broken_by(&self, entry: &Entry) -> Option<Rule>
        ensures { result ≡ rule_of self.now entry.now }
    {
        match entry {
            Entry::Epoch { epoch } => unless(self.epoch < *epoch, Rule::Repeat),
            Entry::Address {
                address,
                name,
                max,
                page,
                ahead,
                dup,
            } => self.broken_by_address(*address, name, *max, *page, *ahead, *dup),
            Entry::Queue {
                queue,
                address,
                name,
                filter,
            } => self.broken_by_queue(*queue, *address, name, filter),
            Entry::DropQueue { queue } => unless(self.queues.has(*queue), Rule::Name),
            Entry::Add {
                address,
                queues,
                message,
            } => self.broken_by_message(*address, queues, message.id),
            Entry::Ack { queue, message } => unless(
                self.journaled.has_holder(*message, *queue),
                Rule::Name,
            ),
            Entry::NextQueue { queue } => unless(self.next <= *queue, Rule::Repeat),
            Entry::AckAt { .. }
            | Entry::PageDone { .. }
            | Entry::PageTx { .. }
            | Entry::Dup { .. }
            | Entry::LargeAdd { .. }
            | Entry::LargeAck { .. }
            | Entry::FirstPage { .. }
            | Entry::AckRun { .. } => Some(Rule::Name),
        }
    }

    /// The state behind the entry, whose condition holds, also if its filter isn't readable. Fails only where there is no
    /// memory.
    pub fn change(self, alloc: Global, entry: Entry) -> Result<Durable, AllocError>
        requires { rule_of self entry ≡ None }
        ensures { IfOk result (λ after. after ≡ changed self entry) }
    {
        match entry {
            Entry::Epoch { epoch } => Ok(self.begin_epoch(epoch)),
            Entry::Address {
                address,
                name,
                max,
                page,
                ahead,
                dup,
            } => self.add_address(address, name, max, page, ahead, dup),
            Entry::Queue {
                queue,
                address,
                name,
                filter,
            } => self.add_queue(alloc, queue, address, name, filter),
            Entry::DropQueue { queue } => Ok(self.drop_queue(alloc, queue)),
            Entry::Add {
                address,
                queues,
                message,
            } => self.add_message(alloc, address, queues, message),
            Entry::Ack { queue, message } => Ok(self.acknowledge(alloc, queue, message)),
            Entry::NextQueue { queue } => Ok(self.set_next(queue)),
            // The condition of none of these holds yet.
            Entry::AckAt { .. }
            | Entry::PageDone { .. }
            | Entry::PageTx { .. }
            | Entry::Dup { .. }
            | Entry::LargeAdd { .. }
            | Entry::LargeAck { .. }
            | Entry::FirstPage { .. }
            | Entry::AckRun { .. } => Ok(self),
        }
    }

    /// The state behind the entry. `Broken` comes where the entry's condition fails, with the rule of the first part
    /// that does: the filter of a queue is read last, and breaks `Name` where it isn't readable.
    pub fn apply(self, alloc: Global, entry: Entry) -> Result<Durable, FoldError>
        ensures applied { IfOk result (IsApplied self entry) }
        ensures broken { IfErr result (IsBrokenBy self entry) }
    {
        if let Some(rule) = self.broken_by(&entry) {
            return Err(FoldError::Broken(rule));
        }
        check_readable(alloc, &entry)?;
        Ok(self.change(alloc, entry)?)
    }

    fn broken_by_address(
        &self,
        address: u32,
        name: &Text,
        max: u64,
        page: u64,
        ahead: u64,
        dup: u32,
    ) -> Option<Rule>
        ensures { result ≡ rule_of self.now (entries.Address address name.now max page ahead dup) }
    {
        let count = self.addresses.as_slice().len();
        if address as usize != count + 1
            || self.addresses.has_named(name)
            || count >= MOST_ADDRESSES
        {
            return Some(Rule::Repeat);
        }
        unless(are_in_range(max, page, ahead, dup), Rule::Name)
    }

    fn broken_by_queue(&self, queue: u32, address: u32, name: &Text, filter: &Text) -> Option<Rule>
        ensures { result ≡ rule_of self.now (entries.Queue queue address name.now filter.now) }
    {
        if queue != self.next || queue >= QUEUE_ID_LIMIT || self.queues.has_named(name) {
            return Some(Rule::Repeat);
        }
        if !self.addresses.has(address)
            || self.queues.count_at(address) >= MOST_QUEUES
            || filter.as_str().len() > LONGEST_FILTER
        {
            return Some(Rule::Name);
        }
        None
    }

    // The rule that a message with this id breaks, given to these queues of the address.
    fn broken_by_message(&self, address: u32, queues: &QueueIds, id: MessageId) -> Option<Rule>
        ensures { (message : Message) → message.id ≡ id
            → result ≡ rule_of self.now (entries.Add address queues.now message) }
    {
        if !self.addresses.has(address)
            || !self.queues.have_at(address, queues.as_slice())
            || id.epoch > self.epoch
        {
            return Some(Rule::Name);
        }
        unless(!self.journaled.has(id), Rule::Repeat)
    }

    fn begin_epoch(mut self, epoch: u32) -> Durable
        ensures { result ≡ changed self (entries.Epoch epoch) }
    {
        self.epoch = epoch;
        self
    }

    fn add_address(
        mut self,
        address: u32,
        name: Text,
        max: u64,
        page: u64,
        ahead: u64,
        dup: u32,
    ) -> Result<Durable, AllocError>
        requires { address ≡ length self.addresses + 1 }
        ensures { IfOk result (λ after. after ≡ changed self (entries.Address address name max page ahead dup)) }
    {
        self.addresses.push(AddressRow {
            id: address,
            name,
            max,
            page,
            ahead,
            dup,
            first: 1,
        })?;
        Ok(self)
    }

    fn add_queue(
        mut self,
        alloc: Global,
        queue: u32,
        address: u32,
        name: Text,
        filter: Text,
    ) -> Result<Durable, AllocError>
        requires new { has_queue_named self.queues name ≡ false }
        requires left { self.next < QUEUE_ID_LIMIT }
        ensures { IfOk result (λ after. after ≡ changed self (entries.Queue queue address name filter)) }
    {
        let queues = std::mem::replace(&mut self.queues, QueueRows::new(alloc));
        self.queues = queues.push(QueueRow {
            id: queue,
            address,
            name,
            filter,
        })?;
        self.next += 1;
        Ok(self)
    }

    fn drop_queue(mut self, alloc: Global, queue: u32) -> Durable
        ensures { result ≡ changed self (entries.DropQueue queue) }
    {
        self.queues.remove(queue);
        self.journaled.remove_holder(alloc, queue);
        self
    }

    fn add_message(
        mut self,
        alloc: Global,
        address: u32,
        queues: QueueIds,
        message: Message,
    ) -> Result<Durable, AllocError>
        requires { has_message self.journaled message.id ≡ false }
        ensures { IfOk result (λ after. after ≡ changed self (entries.Add address queues message)) }
    {
        let row = JournaledRow {
            address,
            message,
            holders: Holders::from_ids(queues),
        };
        self.journaled.push(alloc, row)?;
        Ok(self)
    }

    fn acknowledge(mut self, alloc: Global, queue: u32, message: MessageId) -> Durable
        ensures { result ≡ changed self (entries.Ack queue message) }
    {
        self.journaled.acknowledge(alloc, message, queue);
        self
    }

    fn set_next(mut self, queue: u32) -> Durable
        ensures { result ≡ changed self (entries.NextQueue queue) }
    {
        self.next = queue;
        self
    }
}

// The rule, where the condition fails.
fn unless(condition: bool, broken: Rule) -> Option<Rule>
    ensures { result ≡ unless condition broken None }
{
    if condition { None } else { Some(broken) }
}

// Whether the settings of an address are in their ranges.
fn are_in_range(max: u64, page: u64, ahead: u64, dup: u32) -> bool
    ensures { result ≡ are_settings max page ahead dup }
{
    max <= GREATEST_MAX
        && 1 <= page
        && page <= GREATEST_PAGE
        && ahead <= GREATEST_AHEAD
        && dup <= GREATEST_DUP
}
