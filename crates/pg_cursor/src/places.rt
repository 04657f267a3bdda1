// Places, by their positions.
ghost use Rattle.std.specs.Prelude.{◌≡◌, [], filter, length, not, is_some, Some, None, OnOk, OnErr, IfSome, IfNone};
ghost use Rattle.std.specs.BTreeMap.{keys};
ghost use Rattle.pg_acks.specs.Acked.{is_acknowledged};
ghost use Rattle.pg_page.specs.Pages.{position_at};
ghost use Rattle.pg_cursor.specs.Counting.{AreOnce, open_of};
ghost use Rattle.pg_cursor.specs.Kept.{Key};
ghost use Rattle.pg_cursor.specs.Places.{ChangesAt, IsFirstOf, offset_at};

use pg_acks::{Acks, Position};
use pg_page::Place;
use std::alloc::{AllocError, Global};
use std::collections::BTreeMap;
use std::marker::Model;

// Places in the order of their positions, no two at one position. Each call takes at most logarithmic time.
pub(crate) struct Places {
    // The offset of each, by its page and its index.
    offsets: BTreeMap<(u64, u32), u64>,
}

impl Model for Places {
    ghost use Rattle.std.specs.Prelude.{List};
    ghost use Rattle.pg_page.specs.declared.place.Place.{Place};

    ghost Value = { List Place };

    ghost use Rattle.std.specs.BTreeMap.{IsOrdered};
    ghost use Rattle.pg_cursor.specs.Kept.{key_cmp, seen};

    ghost view = { λ places. seen places.offsets };

    ghost invariant = { λ places. IsOrdered key_cmp places.offsets };
}

impl Drop for Places {
    fn drop(self) {
        let Places { offsets: _offsets } = self;
    }
}

impl Places {
    // No places. Takes no memory.
    pub(crate) fn new(alloc: Global) -> Places
        ensures { result ≡ [] }
    {
        Places {
            offsets: BTreeMap::new(alloc),
        }
    }

    // Takes the first place out.
    pub(crate) fn pop_first(&mut self) -> Option<Place>
        ensures first { IfSome result (IsFirstOf self.old) }
        ensures rest { IfSome result (λ place. ChangesAt place.position None self.old self.new) }
        ensures none { IfNone result (self.old ≡ []) }
        ensures empty { IfNone result (self.new ≡ []) }
    {
        let (key, offset) = self.offsets.pop_first()?;
        Some(Place {
            position: Position {
                page: key.0,
                index: key.1,
            },
            offset,
        })
    }

    // Puts a place in. Fails only where there is no memory for it, and then nothing has changed.
    pub(crate) fn insert(&mut self, place: Place) -> Result<(), AllocError>
        ensures ok { OnOk result (ChangesAt place.position (Some place.offset) self.old self.new) }
        ensures err { OnErr result (self.new ≡ self.old) }
    {
        self.offsets.insert(key(place.position), place.offset)?;
        Ok(())
    }

    // How many there are.
    pub(crate) fn count(&self) -> u64
        ensures count { result ≡ length self.now }
        ensures once { AreOnce self.now }
    {
        self.offsets.len() as u64
    }

    // How many of them aren't acknowledged at the queue.
    pub(crate) fn count_open(&self, queue: u32, acks: &Acks) -> u64
        ensures count { result ≡ length (open_of queue acks.now self.now) }
        ensures once { AreOnce self.now }
    {
        open_keys(&self.offsets, queue, acks) as u64
    }

    // Takes the place at the position out, if there is one.
    pub(crate) fn remove(&mut self, position: Position)
        ensures { ChangesAt position None self.old self.new }
    {
        self.offsets.remove(&key(position));
    }
}

// How many keys are those of positions that aren't acknowledged at the queue.
fn open_keys(offsets: &BTreeMap<(u64, u32), u64>, queue: u32, acks: &Acks) -> usize
    ensures { result ≡ length (filter (λ key. not (is_acknowledged acks.now queue (position_at key.0 key.1)))
        (keys offsets.now)) }
{
    offsets
        .keys()
        .filter(|key| !acks.contains(queue, position_of(**key)))
        .count()
}

// The position of a kept place.
fn position_of(key: (u64, u32)) -> Position
    ensures { result ≡ position_at key.0 key.1 }
{
    Position {
        page: key.0,
        index: key.1,
    }
}

// By what a place is kept.
fn key(position: Position) -> (u64, u32)
    ensures { result ≡ (position.page, position.index) }
{
    (position.page, position.index)
}
