// The messages that are held in the journal.
ghost use Rattle.std.specs.Prelude.{◌≡◌, ◌<◌, ◌++◌, ◌∷◌, ℕ, [], false, length, map, find, option_map, Some, All, OnOk, OnErr, IfOk, IfSome, IfNone};
ghost use Rattle.std.specs.Ordering.{nat_cmp};
ghost use Rattle.std.specs.BTreeMap.{get, is_at, values, IsOrdered};
ghost use Rattle.std.specs.Map.{set_value};
ghost use Rattle.pg_fold.specs.declared.rows.JournaledRow.{JournaledRow};
ghost use Rattle.pg_fold.specs.Rows.{has_message, has_holder, has_number, released, is_held, dropped, acknowledged, same_id};
ghost use Rattle.pg_fold.specs.JournalNumbers.{IsRowOf, IsTold, Numbers, key_of};

use crate::held::Held;
use crate::rows::JournaledRow;
use pg_msg::MessageId;
use std::alloc::{AllocError, Global};
use std::collections::BTreeMap;
use std::marker::Model;

/// The messages that are held in the journal, in the order in which they were added.
///
/// Each call takes at most logarithmic time, in whatever order ids come and go, but for `to_vec`, which lists all of them,
/// and for taking a queue from the holders of all.
pub struct JournaledRows {
    // The number of the next message. Those of messages ascend in the order in which they were added.
    next: u64,
    rows: BTreeMap<u64, Held>,
    // The number of each message, by the epoch and the number of its id.
    numbers: BTreeMap<(u32, u32), u64>,
}

impl Model for JournaledRows {
    ghost use Rattle.std.specs.Prelude.{List};
    ghost use Rattle.std.specs.BTreeMap.{values};
    ghost use Rattle.pg_fold.specs.declared.rows.JournaledRow.{JournaledRow};
    ghost use Rattle.pg_fold.specs.JournalNumbers.{AreNumbered};

    ghost Value = { List JournaledRow };

    ghost view = { λ journaled. values journaled.rows };

    ghost invariant = { λ journaled. AreNumbered journaled.next journaled.rows journaled.numbers };
}

impl Drop for JournaledRows {
    fn drop(self) {
        let JournaledRows {
            next: _next,
            rows: _rows,
            numbers: _numbers,
        } = self;
    }
}

impl JournaledRows {
    /// No messages. Takes no memory.
    pub fn new(alloc: Global) -> JournaledRows
        ensures { result ≡ [] }
    {
        JournaledRows {
            next: 0,
            rows: BTreeMap::new(alloc),
            numbers: BTreeMap::new(alloc),
        }
    }

    /// How many they are.
    pub fn len(&self) -> usize
        ensures { result ≡ length self.now }
    {
        self.rows.len()
    }

    /// The message with that id, with its holders. None where none has it.
    pub fn get(&self, id: MessageId) -> Option<&JournaledRow>
        ensures { option_map (λ row. row.now) result ≡ find (λ row. same_id row.message.id id) self.now }
    {
        let number = number_of(&self.rows, &self.numbers, id)?;
        let held = self.rows.get(&number)?;
        Some(held.row())
    }

    // Whether there is one with this id.
    pub(crate) fn has(&self, id: MessageId) -> bool
        ensures { result ≡ has_message self.now id }
    {
        self.get(id).is_some()
    }

    // Whether there is one with this id that the queue holds.
    pub(crate) fn has_holder(&self, id: MessageId, queue: u32) -> bool
        ensures { result ≡ has_holder self.now id queue }
    {
        match number_of(&self.rows, &self.numbers, id) {
            Some(number) => holds(&self.rows, number, queue),
            None => false,
        }
    }

    /// Appends the message. Fails only where there is no memory for it, or where 2^64 - 1 were appended before, and then
    /// nothing has changed.
    pub fn push(&mut self, alloc: Global, row: JournaledRow) -> Result<(), AllocError>
        requires { has_message self.old row.message.id ≡ false }
        ensures ok { OnOk result (self.new ≡ self.old ++ row ∷ []) }
        ensures err { OnErr result (self.new ≡ self.old) }
    {
        let number = self.next;
        let Some(next) = number.checked_add(1) else {
            return Err(AllocError);
        };
        let key = key(row.message.id);
        let held = Held::new(alloc, row)?;
        self.numbers.insert(key, number)?;
        self.rows.insert(number, held)?;
        self.next = next;
        Ok(())
    }

    // Takes the queue from the holders of the message, and the message away where that was the last.
    pub(crate) fn acknowledge(&mut self, alloc: Global, id: MessageId, queue: u32)
        ensures { self.new ≡ acknowledged queue id self.old }
    {
        let Some(number) = number_of(&self.rows, &self.numbers, id) else {
            return;
        };
        if !release_at(alloc, &mut self.rows, number, queue) {
            self.rows.remove(&number);
            self.numbers.remove(&key(id));
        }
    }

    // Takes the queue from the holders of every message, and away what no queue holds.
    pub(crate) fn remove_holder(&mut self, alloc: Global, queue: u32)
        ensures { self.new ≡ dropped queue self.old }
    {
        release_all(alloc, &mut self.rows, queue);
        keep_told(&self.rows, &mut self.numbers);
    }

    /// All of them, in their order. Fails only where there is no memory for the list.
    pub fn to_vec(&self, alloc: Global) -> Result<Vec<&JournaledRow>, AllocError>
        ensures { IfOk result (λ rows. map (λ row. row.now) rows.items ≡ self.now) }
    {
        let mut rows = Vec::new(alloc);
        for held in self.rows.values() {
            rows.push(held.row())?;
        }
        Ok(rows)
    }
}

// The number of the message with that id.
fn number_of(
    rows: &BTreeMap<u64, Held>,
    numbers: &BTreeMap<(u32, u32), u64>,
    id: MessageId,
) -> Option<u64>
    ensures found { IfSome result (λ number. (row : JournaledRow) × IsRowOf rows.now numbers.now id number row) }
    ensures none { IfNone result ((number : ℕ) (row : JournaledRow) → IsRowOf rows.now numbers.now id number row → ⊥) }
{
    let number = numbers.get(&key(id)).copied()?;
    let held = rows.get(&number)?;
    if held.row().message.id == id {
        Some(number)
    } else {
        None
    }
}

// Whether the queue holds the message with the number.
fn holds(rows: &BTreeMap<u64, Held>, number: u64, queue: u32) -> bool
    ensures { (row : JournaledRow) → get nat_cmp rows.now number ≡ Some row → result ≡ has_number row.holders queue }
{
    match rows.get(&number) {
        Some(held) => held.row().holders.as_slice().contains(&queue),
        None => false,
    }
}

// Takes the queue from the holders of the message with the number, and answers whether some queue still holds it.
fn release_at(alloc: Global, rows: &mut BTreeMap<u64, Held>, number: u64, queue: u32) -> bool
    ensures changed { (row : JournaledRow) → get nat_cmp rows.old number ≡ Some row
        → rows.new.entries ≡ set_value (is_at (nat_cmp number)) rows.old.entries (released queue row) }
    ensures held { (row : JournaledRow) → get nat_cmp rows.old number ≡ Some row → result ≡ is_held (released queue row) }
    ensures ordered { IsOrdered nat_cmp rows.new }
{
    match rows.get_mut(&number) {
        Some(held) => {
            held.release(alloc, queue);
            held.is_held()
        }
        None => false,
    }
}

// Takes the queue from the holders of each message, and away what no queue holds.
fn release_all(alloc: Global, rows: &mut BTreeMap<u64, Held>, queue: u32)
    ensures left { values rows.new ≡ dropped queue (values rows.old) }
    ensures below { (next : ℕ) → All (λ entry. entry.0 < next) rows.old.entries → All (λ entry. entry.0 < next) rows.new.entries }
    ensures told { (numbers : Numbers) → All (IsTold numbers) rows.old.entries → All (IsTold numbers) rows.new.entries }
    ensures ordered { IsOrdered nat_cmp rows.new }
{
    rows.retain(|_, held| is_held_without(alloc, held, queue));
}

// Forgets the numbers of messages that aren't there.
fn keep_told(rows: &BTreeMap<u64, Held>, numbers: &mut BTreeMap<(u32, u32), u64>)
    requires { IsOrdered nat_cmp rows.now }
    ensures { All (IsTold numbers.old) rows.now.entries → All (IsTold numbers.new) rows.now.entries }
{
    numbers.retain(|_, number| rows.contains_key(&*number));
}

// Takes the queue from the holders of the message, and answers whether some queue still holds it.
fn is_held_without(alloc: Global, held: &mut Held, queue: u32) -> bool
    ensures released { held.new ≡ released queue held.old }
    ensures held { result ≡ is_held held.new }
{
    held.release(alloc, queue);
    held.is_held()
}

// By what a message is looked for.
fn key(id: MessageId) -> (u32, u32)
    ensures { result ≡ key_of id }
{
    (id.epoch, id.number)
}
