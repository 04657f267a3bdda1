// The queues by their ids.
ghost use Rattle.std.specs.Prelude.{◌≡◌, ◌<◌, ◌++◌, ◌∷◌, [], All, true, false, None, OnOk, OnErr, IfSome, IfNone, option_map};
ghost use Rattle.pg_queue.specs.Entries.{added, count_of, entry_at, entry_of, first_waiting, has_entry, is_taken, marked, without_entry};
ghost use Rattle.pg_queue.specs.Queues.{AreAscending, changed_at, entries_in, queue_with, without_queue};

use crate::queue::Queue;
use crate::taken::Taken;
use pg_msg::MessageId;
use std::alloc::{AllocError, Global};
use std::collections::BTreeMap;
use std::marker::Model;

/// All live queues, which contracts see as the list of them, ascending by their ids.
///
/// Each call takes at most logarithmic time, in the number of queues and in that of the queue's entries. But `drop_queue` lets
/// these go, each of them.
pub struct Queues {
    by_id: BTreeMap<u32, Queue>,
}

impl Model for Queues {
    ghost use Rattle.std.specs.Prelude.{List};
    ghost use Rattle.std.specs.BTreeMap.{values};
    ghost use Rattle.pg_queue.specs.Entries.{Contents};

    ghost Value = { List Contents };

    ghost use Rattle.pg_queue.specs.Queues.{StandAtTheirIds};

    ghost view = { λ queues. values queues.by_id };

    ghost invariant = { λ queues. StandAtTheirIds queues.by_id };
}

impl Drop for Queues {
    fn drop(self) {
        let Queues { by_id: _by_id } = self;
    }
}

impl Queues {
    /// No queue. Takes no memory.
    pub fn new(alloc: Global) -> Queues
        ensures { result ≡ [] }
    {
        Queues {
            by_id: BTreeMap::new(alloc),
        }
    }

    /// One more queue, with no entry. Fails only where there is no memory for it, and then nothing has changed.
    pub fn add_queue(&mut self, alloc: Global, id: u32) -> Result<(), AllocError>
        requires { All (λ queue. queue.id < id) self.old }
        ensures ok { OnOk result (self.new ≡ self.old ++ record { id = id; entries = [] } ∷ []) }
        ensures err { OnErr result (self.new ≡ self.old) }
    {
        self.by_id.insert(id, Queue::new(alloc, id))?;
        Ok(())
    }

    /// Takes the queue out, if it is there, with all its entries.
    pub fn drop_queue(&mut self, id: u32)
        ensures { self.new ≡ without_queue id self.old }
    {
        self.by_id.remove(&id);
    }

    /// How many entries the queue has, taken ones too. None where there is no such queue.
    pub fn count(&self, id: u32) -> Option<u64>
        ensures count { result ≡ option_map (λ queue. count_of queue.entries) (queue_with id self.now) }
        ensures ascending { AreAscending self.now }
    {
        let queue = self.by_id.get(&id)?;
        Some(queue.count())
    }

    /// Whether there is such a queue with an entry of the message.
    pub fn has(&self, id: u32, message: MessageId) -> bool
        ensures { result ≡ has_entry (entries_in id self.now) (entry_at message None) }
    {
        match self.by_id.get(&id) {
            Some(queue) => queue.has(message),
            None => false,
        }
    }

    /// Whether there is such a queue with an entry of the message, and it is taken.
    pub fn is_taken(&self, id: u32, message: MessageId) -> bool
        ensures { result ≡ is_taken (entries_in id self.now) (entry_at message None) }
    {
        match self.by_id.get(&id) {
            Some(queue) => queue.is_taken(message),
            None => false,
        }
    }

    /// Adds the message, which isn't taken, behind those of the queue that the journal holds. Nothing changes where there is no
    /// such queue. Fails where there is no memory for it, or the queue was given 2^64 - 1 messages before, and then nothing has
    /// changed.
    pub fn add(&mut self, id: u32, message: MessageId) -> Result<(), AllocError>
        requires { has_entry (entries_in id self.old) (entry_at message None) ≡ false }
        ensures ok { OnOk result (self.new ≡ changed_at id (added (entry_at message None)) self.old) }
        ensures err { OnErr result (self.new ≡ self.old) }
    {
        let Some(queue) = self.by_id.get_mut(&id) else {
            return Ok(());
        };
        queue.add(message)
    }

    /// The entry that `receive` would take, which stays as it is. None exactly where there is none, or no such queue.
    pub fn peek(&self, id: u32) -> Option<Taken>
        ensures { option_map entry_of result ≡ first_waiting (entries_in id self.now) }
    {
        let queue = self.by_id.get(&id)?;
        queue.peek()
    }

    /// Takes the queue's first entry that isn't taken. None exactly where there is none, or no such queue.
    pub fn receive(&mut self, id: u32) -> Option<Taken>
        ensures first { option_map entry_of result ≡ first_waiting (entries_in id self.old) }
        ensures taken { IfSome result (λ given. self.new ≡ changed_at id (marked true (entry_of given)) self.old) }
        ensures none { IfNone result (self.new ≡ self.old) }
    {
        let queue = self.by_id.get_mut(&id)?;
        queue.receive()
    }

    /// Makes a taken entry available again, at its place. Fails only where there is no memory for it, and then nothing has
    /// changed.
    pub fn put_back(&mut self, id: u32, message: MessageId) -> Result<(), AllocError>
        requires { is_taken (entries_in id self.old) (entry_at message None) ≡ true }
        ensures ok { OnOk result (self.new ≡ changed_at id (marked false (entry_at message None)) self.old) }
        ensures err { OnErr result (self.new ≡ self.old) }
    {
        let Some(queue) = self.by_id.get_mut(&id) else {
            return Ok(());
        };
        queue.put_back(message)
    }

    /// Takes a taken entry out of its queue.
    pub fn remove(&mut self, id: u32, message: MessageId)
        requires { is_taken (entries_in id self.old) (entry_at message None) ≡ true }
        ensures { self.new ≡ changed_at id (without_entry (entry_at message None)) self.old }
    {
        let Some(queue) = self.by_id.get_mut(&id) else {
            return;
        };
        queue.remove(message);
    }
}
