// The live queues.
ghost use Rattle.std.specs.Prelude.{◌≡◌, ◌==◌, ◌<◌, ◌+◌, ◌^◌, ◌++◌, ◌∷◌, [], ℕ, true, false, if◌then◌else◌, length, remove, IfOk, IfSome, IfNone, OnOk};
ghost use Rattle.std.specs.List.{list_all, position};
ghost use Rattle.pg_fold.specs.QueueIndex.{counted};
ghost use Rattle.pg_fold.specs.Rows.{has_queue, has_queue_named, has_queue_at, queues_at, without_queue, IsBehind, IsPlaceOf};

use crate::rows::QueueRow;
use indexmap::{IndexMap, IndexSet};
use pg_bytes::Text;
use std::alloc::{AllocError, Global};
use std::marker::Model;

/// The live queues, in the order of their making. The ids of those that a journal makes ascend.
///
/// A name is looked for in a set and an id by a binary search, and the queues of each address are counted as they come
/// and go, so none of these costs time that grows with all the queues. Only taking a queue out does, since those behind
/// it move up.
pub struct QueueRows {
    rows: Vec<QueueRow>,
    // Whether the ids ascend. They do unless a state was put together from parts that belong to different ones.
    ascending: bool,
    // The names of the rows.
    names: IndexSet<String>,
    // How many queues each address has. An address that has none may be missing.
    counts: IndexMap<u32, usize>,
}

impl Model for QueueRows {
    ghost use Rattle.std.specs.Prelude.{List};
    ghost use Rattle.pg_fold.specs.declared.rows.QueueRow.{QueueRow};
    ghost use Rattle.pg_fold.specs.QueueIndex.{AreIndexed};

    ghost Value = { List QueueRow };

    ghost view = { λ queues. queues.rows.items };

    ghost invariant = { λ queues. AreIndexed queues.ascending queues.names queues.counts queues.rows.items };
}

// Written out, so that what holds the queues lets them go by one call, and not by a step for each part of the maps.
impl Drop for QueueRows {
    fn drop(self) {
        let QueueRows {
            rows: _rows,
            ascending: _ascending,
            names: _names,
            counts: _counts,
        } = self;
    }
}

impl QueueRows {
    /// No queues. Takes no memory.
    pub fn new(alloc: Global) -> QueueRows
        ensures { result ≡ [] }
    {
        QueueRows {
            rows: Vec::new(alloc),
            ascending: true,
            names: IndexSet::new(alloc),
            counts: IndexMap::new(alloc),
        }
    }

    /// The queues as a slice.
    pub fn as_slice(&self) -> &[QueueRow]
        ensures { result.now ≡ self.now }
    {
        self.rows.as_slice()
    }

    // Whether there is one with this id.
    pub(crate) fn has(&self, id: u32) -> bool
        ensures { result ≡ has_queue self.now id }
    {
        self.place_of(id).is_some()
    }

    // Whether there is one with this name.
    pub(crate) fn has_named(&self, name: &Text) -> bool
        ensures { result ≡ has_queue_named self.now name.now }
    {
        self.names.contains(name.as_str())
    }

    // How many the address has.
    pub(crate) fn count_at(&self, address: u32) -> usize
        ensures { result ≡ queues_at self.now address }
    {
        self.counts.get(&address).copied().unwrap_or(0)
    }

    // Whether there is one with this id, and it is of this address.
    pub(crate) fn has_at(&self, address: u32, id: u32) -> bool
        ensures { result ≡ has_queue_at self.now address id }
    {
        if !self.ascending {
            return self
                .rows
                .iter()
                .any(|row| row.id == id && row.address == address);
        }
        match self.rows.binary_search_by_key(&id, |row| row.id) {
            Ok(place) => self.rows[place].address == address,
            Err(_) => false,
        }
    }

    // Whether all of these ids are those of queues of this address.
    pub(crate) fn have_at(&self, address: u32, ids: &[u32]) -> bool
        ensures { result ≡ list_all (has_queue_at self.now address) ids.now }
    {
        ids.iter().all(|id| self.has_at(address, *id))
    }

    // Appends the queue, whose name is a new one. Fails only where there is no memory for it.
    pub(crate) fn push(self, row: QueueRow) -> Result<QueueRows, AllocError>
        requires { has_queue_named self row.name ≡ false }
        ensures { IfOk result (λ queues. queues ≡ self ++ row ∷ []) }
    {
        let QueueRows {
            mut rows,
            ascending,
            mut names,
            mut counts,
        } = self;
        let behind = is_behind(&row, rows.as_slice());
        let name = row.name.copy()?;
        names.insert(name.into_string())?;
        count_up(&mut counts, row.address)?;
        rows.push(row)?;
        Ok(QueueRows {
            rows,
            ascending: ascending && behind,
            names,
            counts,
        })
    }

    // Takes the queue out.
    pub(crate) fn remove(&mut self, id: u32)
        ensures { self.new ≡ without_queue id self.old }
    {
        while let Some(place) = self.place_of(id) {
            self.remove_at(place);
        }
    }

    // The place of a queue with this id.
    fn place_of(&self, id: u32) -> Option<usize>
        ensures found { IfSome result (IsPlaceOf self.now id) }
        ensures none { IfNone result (has_queue self.now id ≡ false) }
    {
        if !self.ascending {
            return first_place(self.rows.as_slice(), id);
        }
        match self.rows.binary_search_by_key(&id, |row| row.id) {
            Ok(place) => Some(place),
            Err(_) => None,
        }
    }

    // Takes out the queue at the place.
    fn remove_at(&mut self, place: usize)
        requires { place < length self.old }
        ensures { self.new ≡ remove self.old place }
    {
        let row = self.rows.remove(place);
        self.names.swap_remove(row.name.as_str());
        count_down(&mut self.counts, row.address);
    }
}

// Whether the id is above that of the last of the queues.
fn is_behind(row: &QueueRow, rows: &[QueueRow]) -> bool
    ensures { result ≡ true → IsBehind row.now rows.now }
{
    match rows.last() {
        Some(last) => last.id < row.id,
        None => true,
    }
}

// The place of the first queue with this id.
fn first_place(rows: &[QueueRow], id: u32) -> Option<usize>
    ensures { result ≡ position (λ row. row.id == id) rows.now }
{
    rows.iter().position(|row| row.id == id)
}

// Counts one queue more at the address. Fails only where there is no memory for it.
fn count_up(counts: &mut IndexMap<u32, usize>, address: u32) -> Result<(), AllocError>
    requires { counted counts.old address + 1 < 2 ^ 64 }
    ensures { OnOk result ((other : ℕ)
        → counted counts.new other ≡ counted counts.old other + (if address == other then 1 else 0)) }
{
    let count = counts.get(&address).copied().unwrap_or(0);
    counts.insert(address, count + 1)?;
    Ok(())
}

// Counts one queue less at the address.
fn count_down(counts: &mut IndexMap<u32, usize>, address: u32)
    requires { 0 < counted counts.old address }
    ensures { (other : ℕ) → counted counts.new other + (if address == other then 1 else 0) ≡ counted counts.old other }
{
    if let Some(count) = counts.get_mut(&address) {
        *count -= 1;
    }
}
