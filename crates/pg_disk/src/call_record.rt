// The record of what was done to a site in memory.
ghost use Rattle.std.specs.Prelude.{◌≡◌, ◌+◌, ◌^◌, ◌<◌, ◌≤◌, ◌++◌, [], ◌∷◌, length, vec_len, vec_capacity, filter_map, count_by, option_to_list, OnOk, OnErr, if◌then◌else◌};
ghost use Rattle.pg_disk.specs.Events.{call_of, is_emit};

use crate::FileId;
use std::alloc::{AllocError, Global};

/// A call of a disk, with the file that it names.
#[derive(Clone, Copy, Debug, PartialEq, Eq)]
pub enum CallKind {
    List,
    Length(FileId),
    Read(FileId),
    Write(FileId),
    Sync(FileId),
    Create(FileId),
    Remove(FileId),
}

/// One thing that was done. A `bool` says whether it took effect, and is false where it was named to fail.
#[derive(Debug, Drop)]
pub enum Event {
    List,
    Length(FileId),
    /// So many bytes were read.
    Read(FileId, usize),
    /// These bytes were put at this offset.
    Write(FileId, u64, Vec<u8>, bool),
    Sync(FileId, bool),
    Create(FileId, bool),
    Remove(FileId, bool),
    /// These bytes went to the output.
    Emit(Vec<u8>, bool),
    /// The file got this content from outside, with nothing pending. It is no call.
    Put(FileId, Vec<u8>),
    /// These bytes count as told from before. It is no emit.
    Told(Vec<u8>),
}

impl Event {
    ghost use Rattle.pg_disk.specs.Events.{call_of, is_emit};

    /// The call of the disk that it is.
    pub fn call(&self) -> Option<CallKind>
        ensures { result ≡ call_of self.now }
    {
        match self {
            Event::List => Some(CallKind::List),
            Event::Length(file) => Some(CallKind::Length(*file)),
            Event::Read(file, _) => Some(CallKind::Read(*file)),
            Event::Write(file, _, _, _) => Some(CallKind::Write(*file)),
            Event::Sync(file, _) => Some(CallKind::Sync(*file)),
            Event::Create(file, _) => Some(CallKind::Create(*file)),
            Event::Remove(file, _) => Some(CallKind::Remove(*file)),
            Event::Emit(_, _) | Event::Put(_, _) | Event::Told(_) => None,
        }
    }

    // How many emits it is.
    fn emits(&self) -> u64
        ensures { result ≡ (if is_emit self.now then 1 else 0) }
    {
        match self {
            Event::Emit(_, _) => 1,
            Event::List
            | Event::Length(_)
            | Event::Read(_, _)
            | Event::Write(_, _, _, _)
            | Event::Sync(_, _)
            | Event::Create(_, _)
            | Event::Remove(_, _)
            | Event::Put(_, _)
            | Event::Told(_) => 0,
        }
    }
}

/// The events in their order. The calls among them are counted from 1, and so are the emits.
#[derive(Debug)]
pub struct CallRecord {
    events: Vec<Event>,
    calls: Vec<CallKind>,
    emits: u64,
    ghost calls_of_events: { calls.items ≡ filter_map call_of events.items },
    ghost emits_of_events: { emits ≡ count_by is_emit events.items },
}

impl Drop for CallRecord {
    fn drop(self) {
        let CallRecord {
            events: _events,
            calls: _calls,
            emits: _emits,
        } = self;
    }
}

impl CallRecord {
    pub fn new(alloc: Global) -> Self
        ensures { result.events.items ≡ [] }
    {
        CallRecord {
            events: Vec::new(alloc),
            calls: Vec::new(alloc),
            emits: 0,
        }
    }

    pub fn events(&self) -> &[Event]
        ensures { result.now ≡ self.now.events.items }
    {
        &self.events
    }

    /// The calls of the disk.
    pub fn calls(&self) -> &[CallKind]
        ensures { result.now ≡ filter_map call_of self.now.events.items }
    {
        &self.calls
    }

    /// How many emits there were.
    pub fn emits(&self) -> u64
        ensures count { result ≡ count_by is_emit self.now.events.items }
        ensures bound { result < 2 ^ 63 }
    {
        self.emits
    }

    /// Makes room for one more event.
    pub fn reserve(&mut self) -> Result<(), AllocError>
        ensures same { self.new.events.items ≡ self.old.events.items }
        ensures room { OnOk result (vec_len self.new.events + 1 ≤ vec_capacity self.new.events) }
        ensures call_room { OnOk result (vec_len self.new.calls + 1 ≤ vec_capacity self.new.calls) }
    {
        self.events.reserve(1)?;
        self.calls.reserve(1)
    }

    /// Adds the event, for which there is room.
    pub fn add(&mut self, event: Event)
        requires room { vec_len self.old.events + 1 ≤ vec_capacity self.old.events }
        requires call_room { vec_len self.old.calls + 1 ≤ vec_capacity self.old.calls }
        ensures { self.new.events.items ≡ self.old.events.items ++ event ∷ [] }
    {
        add_call(&mut self.calls, event.call());
        self.emits += event.emits();
        push_within(&mut self.events, event);
    }

    /// Makes room for the event and adds it.
    pub fn push(&mut self, event: Event) -> Result<(), AllocError>
        ensures ok { OnOk result (self.new.events.items ≡ self.old.events.items ++ event ∷ []) }
        ensures err { OnErr result (self.new.events.items ≡ self.old.events.items) }
    {
        self.reserve()?;
        self.add(event);
        Ok(())
    }
}

// Adds the call, if the event was one.
fn add_call(calls: &mut Vec<CallKind>, call: Option<CallKind>)
    requires { vec_len calls.old + 1 ≤ vec_capacity calls.old }
    ensures { calls.new.items ≡ calls.old.items ++ option_to_list call }
{
    if let Some(call) = call {
        push_within(calls, call);
    }
}

// Pushes what there is room for.
fn push_within<T: Drop>(items: &mut Vec<T>, item: T)
    requires { vec_len items.old + 1 ≤ vec_capacity items.old }
    ensures { items.new.items ≡ items.old.items ++ item ∷ [] }
{
    let _ = items.push(item);
}
