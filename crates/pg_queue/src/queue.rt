// A queue.
ghost use Rattle.std.specs.Prelude.{◌≡◌, ℕ, [], true, false, None, OnOk, OnErr, IfSome, IfNone, option_map};
ghost use Rattle.pg_flight.specs.Ids.{key_of};
ghost use Rattle.pg_queue.specs.Entries.{added, count_of, entry_at, entry_of, first_waiting, has_entry, is_taken, marked, with_entries, without_entry};
ghost use Rattle.pg_queue.specs.Numbers.{IsNumberOf};

use crate::taken::Taken;
use pg_msg::MessageId;
use std::alloc::{AllocError, Global};
use std::collections::BTreeMap;
use std::marker::Model;

/// A queue, which contracts see as its id and the list of its entries in their order, each marked as taken or not.
///
/// Each call takes at most logarithmic time, however many entries there are and however many of them are taken.
pub struct Queue {
    id: u32,
    // The number of the next entry. Those of entries ascend in the order of entries.
    next: u64,
    // The messages of the entries, by the entries' numbers.
    rows: BTreeMap<u64, MessageId>,
    // Those of the entries that aren't taken.
    waiting: BTreeMap<u64, MessageId>,
    // The number of each message's entry, by its epoch and its number. A message that has no entry may have one too.
    numbers: BTreeMap<(u32, u32), u64>,
}

impl Model for Queue {
    ghost use Rattle.pg_queue.specs.Entries.{Contents};

    ghost Value = { Contents };

    ghost use Rattle.pg_queue.specs.Numbers.{seen, AreNumbered};

    ghost view = { λ queue. seen queue.id queue.waiting queue.rows };

    ghost invariant = { λ queue. AreNumbered queue.next queue.rows queue.waiting queue.numbers };
}

impl Drop for Queue {
    fn drop(self) {
        let Queue {
            id: _id,
            next: _next,
            rows: _rows,
            waiting: _waiting,
            numbers: _numbers,
        } = self;
    }
}

impl Queue {
    /// The queue with that id, with no entry. Takes no memory.
    pub fn new(alloc: Global, id: u32) -> Queue
        ensures { result ≡ record { id = id; entries = [] } }
    {
        Queue {
            id,
            next: 0,
            rows: BTreeMap::new(alloc),
            waiting: BTreeMap::new(alloc),
            numbers: BTreeMap::new(alloc),
        }
    }

    /// The id of the queue.
    pub fn id(&self) -> u32
        ensures { result ≡ self.now.id }
    {
        self.id
    }

    /// How many entries there are, taken ones too.
    pub fn count(&self) -> u64
        ensures { result ≡ count_of self.now.entries }
    {
        self.rows.len() as u64
    }

    /// Whether there is an entry of the message.
    pub fn has(&self, id: MessageId) -> bool
        ensures { result ≡ has_entry self.now.entries (entry_at id None) }
    {
        number_of(&self.rows, &self.numbers, id).is_some()
    }

    /// Whether there is an entry of the message, and it is taken.
    pub fn is_taken(&self, id: MessageId) -> bool
        ensures { result ≡ is_taken self.now.entries (entry_at id None) }
    {
        match number_of(&self.rows, &self.numbers, id) {
            Some(number) => !self.waiting.contains_key(&number),
            None => false,
        }
    }

    /// Puts an entry of the message behind the others that the journal holds. Fails only where there is no memory for it, or where
    /// 2^64 - 1 were put in before, and then nothing has changed.
    pub fn add(&mut self, id: MessageId) -> Result<(), AllocError>
        requires { has_entry self.old.entries (entry_at id None) ≡ false }
        ensures ok { OnOk result (self.new ≡ with_entries (added (entry_at id None) self.old.entries) self.old) }
        ensures err { OnErr result (self.new ≡ self.old) }
    {
        let number = self.next;
        let Some(next) = number.checked_add(1) else {
            return Err(AllocError);
        };
        self.numbers.insert(key(id), number)?;
        self.waiting.insert(number, id)?;
        match self.rows.insert(number, id) {
            Ok(_) => {
                self.next = next;
                Ok(())
            }
            Err(_) => {
                self.waiting.remove(&number);
                Err(AllocError)
            }
        }
    }

    /// The first entry that isn't taken, which it stays. None exactly where there is none.
    pub fn peek(&self) -> Option<Taken>
        ensures { option_map entry_of result ≡ first_waiting self.now.entries }
    {
        let (_, id) = self.waiting.first_key_value()?;
        Some(Taken::Journaled(*id))
    }

    /// Takes the first entry that isn't taken. None exactly where there is none.
    pub fn receive(&mut self) -> Option<Taken>
        ensures first { option_map entry_of result ≡ first_waiting self.old.entries }
        ensures taken { IfSome result (λ given. self.new ≡ with_entries (marked true (entry_of given) self.old.entries) self.old) }
        ensures none { IfNone result (self.new ≡ self.old) }
    {
        let (_, id) = self.waiting.pop_first()?;
        Some(Taken::Journaled(id))
    }

    /// Makes a taken entry available again, at its place. Fails only where there is no memory for it, and then nothing has changed.
    pub fn put_back(&mut self, id: MessageId) -> Result<(), AllocError>
        requires { is_taken self.old.entries (entry_at id None) ≡ true }
        ensures ok { OnOk result (self.new ≡ with_entries (marked false (entry_at id None) self.old.entries) self.old) }
        ensures err { OnErr result (self.new ≡ self.old) }
    {
        if let Some(number) = self.numbers.get(&key(id)).copied() {
            self.waiting.insert(number, id)?;
        }
        Ok(())
    }

    /// Takes a taken entry out.
    pub fn remove(&mut self, id: MessageId)
        requires { is_taken self.old.entries (entry_at id None) ≡ true }
        ensures { self.new ≡ with_entries (without_entry (entry_at id None) self.old.entries) self.old }
    {
        if let Some(number) = self.numbers.remove(&key(id)) {
            self.rows.remove(&number);
        }
    }
}

// The number of the message's entry.
fn number_of(
    rows: &BTreeMap<u64, MessageId>,
    numbers: &BTreeMap<(u32, u32), u64>,
    id: MessageId,
) -> Option<u64>
    ensures found { IfSome result (IsNumberOf rows.now numbers.now id) }
    ensures none { IfNone result ((number : ℕ) → ¬ IsNumberOf rows.now numbers.now id number) }
{
    let number = numbers.get(&key(id)).copied()?;
    let row = rows.get(&number)?;
    if *row == id { Some(number) } else { None }
}

// By what a message is looked for.
fn key(id: MessageId) -> (u32, u32)
    ensures { result ≡ key_of id }
{
    (id.epoch, id.number)
}
