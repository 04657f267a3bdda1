// What a crash leaves of a site in memory.
ghost use Rattle.std.specs.Prelude.{◌≡◌, ◌<◌, ◌≤◌, length, vec_len, filter_map, IfOk, IfSome, OnOk};
ghost use Rattle.std.specs.BTreeMap as tree;
ghost use Rattle.pg_disk.specs.Files.{file_cmp};
ghost use Rattle.pg_disk.specs.Contents.{ComesTo, HasContents};
ghost use Rattle.pg_disk.specs.Crash.{IsCallAt, IsAtRest, LeftWithin, Follows};
ghost use Rattle.pg_disk.specs.Events.{call_of};
ghost use Rattle.pg_disk.specs.Left.{left_replay, counts_as_done as done_within};
ghost use Rattle.pg_disk.specs.MemoryState.{events_of, account_of};
ghost use Rattle.pg_disk.specs.Replay.{start, replay, if_done, after_write, after_sync, after_create, after_remove, after_emit, after_put};

use crate::FileId;
use crate::call_record::Event;
use crate::memory_state::{MemoryState, create_in, overwrite_in, remove_in, tell};
use std::alloc::{AllocError, Global};
use std::collections::BTreeMap;

/// What becomes of the bytes that are pending at a crash: those in a range that was written since the file's last sync,
/// and those behind the length that it had then.
#[derive(Clone, Copy, Debug, PartialEq, Eq)]
pub enum Pick {
    /// They are as at the file's last sync, and the file is as long as it was then.
    Old,
    /// They are as they read, and as they were to be written by a write that is stopped.
    New,
    /// Each of them is this byte, and the file has the greatest length since its last sync.
    Fill(u8),
}

/// What events come to: the files as they read, the same files as a crash leaves them, and what was told.
#[derive(Drop)]
pub(crate) struct Remains {
    alloc: Global,
    read: BTreeMap<FileId, Vec<u8>>,
    left: BTreeMap<FileId, Vec<u8>>,
    told: Vec<u8>,
}

impl Remains {
    ghost use Rattle.pg_disk.specs.Crash.{Redoes, RedoesAll};
    ghost use Rattle.pg_disk.specs.Left.{left_of_write, left_as_read, left_after, last_done};
    ghost use Rattle.pg_disk.specs.Replay.{step, completed};
    ghost use Rattle.std.specs.FinMap.{get};

    fn new(alloc: Global) -> Self
        ensures { Follows result start start }
    {
        Remains {
            alloc,
            read: BTreeMap::new(alloc),
            left: BTreeMap::new(alloc),
            told: Vec::new(alloc),
        }
    }

    // Does once more what the event did.
    fn redo(&mut self, event: &Event, pick: Pick) -> Result<(), AllocError>
        ensures { OnOk result (Redoes (step event.now) (left_after pick event.now) self.old self.new) }
    {
        match event {
            Event::Write(file, at, bytes, done) => self.write(*file, *at, bytes, *done, pick),
            Event::Sync(file, done) => self.sync(*file, *done),
            Event::Create(file, done) => self.create(*file, *done),
            Event::Remove(file, done) => {
                self.remove(*file, *done);
                Ok(())
            }
            Event::Emit(bytes, done) => self.tell(bytes, *done),
            Event::Told(bytes) => self.tell(bytes, true),
            Event::Put(file, bytes) => self.put(*file, bytes),
            Event::List | Event::Length(_) | Event::Read(_, _) => Ok(()),
        }
    }

    // Does the event that is stopped, where it counts as done.
    fn stop_within(&mut self, event: &Event, pick: Pick) -> Result<(), AllocError>
        ensures { OnOk result (RedoesAll pick (last_done pick event.now) self.old self.new) }
    {
        if !counts_as_done(pick, event) {
            return Ok(());
        }
        self.complete(event, pick)
    }

    // Does once more what the event was to do, also where it failed.
    fn complete(&mut self, event: &Event, pick: Pick) -> Result<(), AllocError>
        ensures { OnOk result (Redoes (step (completed event.now))
            (left_after pick (completed event.now)) self.old self.new) }
    {
        match event {
            Event::Write(file, at, bytes, _) => self.write(*file, *at, bytes, true, pick),
            Event::Create(file, _) => self.create(*file, true),
            Event::Remove(file, _) => {
                self.remove(*file, true);
                Ok(())
            }
            Event::List
            | Event::Length(_)
            | Event::Read(_, _)
            | Event::Sync(_, _)
            | Event::Emit(_, _)
            | Event::Put(_, _)
            | Event::Told(_) => self.redo(event, pick),
        }
    }

    fn write(
        &mut self,
        file: FileId,
        at: u64,
        bytes: &[u8],
        done: bool,
        pick: Pick,
    ) -> Result<(), AllocError>
        ensures { OnOk result (Redoes (after_write file at bytes.now done)
            (λ a. left_of_write pick file at bytes.now done) self.old self.new) }
    {
        overwrite_within(&mut self.read, file, at, bytes, done)?;
        match pick {
            Pick::Old => Ok(()),
            Pick::New => overwrite_within(&mut self.left, file, at, bytes, done),
            Pick::Fill(byte) => {
                let filling = vec![in self.alloc; byte; bytes.len()]?;
                overwrite_within(&mut self.left, file, at, &filling, true)
            }
        }
    }

    fn sync(&mut self, file: FileId, done: bool) -> Result<(), AllocError>
        ensures { OnOk result (Redoes (after_sync file done)
            (λ a l. if_done done (left_as_read file (get a.files file) l) l) self.old self.new) }
    {
        if !done {
            return Ok(());
        }
        if let Some(content) = self.read.get(&file) {
            let content = Vec::from_slice(self.alloc, content)?;
            self.left.insert(file, content)?;
        }
        Ok(())
    }

    fn create(&mut self, file: FileId, done: bool) -> Result<(), AllocError>
        ensures { OnOk result (Redoes (after_create file done) (λ a. after_create file done) self.old self.new) }
    {
        create_in(&mut self.read, self.alloc, file, done)?;
        create_in(&mut self.left, self.alloc, file, done)
    }

    fn remove(&mut self, file: FileId, done: bool)
        ensures { Redoes (after_remove file done) (λ a. after_remove file done) self.old self.new }
    {
        remove_in(&mut self.read, file, done);
        remove_in(&mut self.left, file, done);
    }

    fn tell(&mut self, bytes: &[u8], done: bool) -> Result<(), AllocError>
        ensures { OnOk result (Redoes (after_emit bytes.now done) (λ a l. l) self.old self.new) }
    {
        tell(&mut self.told, bytes, done)
    }

    fn put(&mut self, file: FileId, bytes: &[u8]) -> Result<(), AllocError>
        ensures { OnOk result (Redoes (after_put file bytes.now) (λ a. after_put file bytes.now) self.old self.new) }
    {
        let content = Vec::from_slice(self.alloc, bytes)?;
        self.read.insert(file, content)?;
        let content = Vec::from_slice(self.alloc, bytes)?;
        self.left.insert(file, content)?;
        Ok(())
    }
}

// Does a write to the contents. A write behind the file's end goes to its end.
fn overwrite_within(
    contents: &mut BTreeMap<FileId, Vec<u8>>,
    file: FileId,
    at: u64,
    bytes: &[u8],
    done: bool,
) -> Result<(), AllocError>
    ensures { OnOk result (ComesTo contents.old contents.new (after_write file at bytes.now done)) }
{
    let length = length_in(contents, file);
    overwrite_in(contents, file, at.min(length), bytes, done)
}

// The length of the file's content, where it has one.
fn length_in(contents: &BTreeMap<FileId, Vec<u8>>, file: FileId) -> u64
    ensures { IfSome (tree.get file_cmp contents.now file) (λ content. result ≡ vec_len content) }
{
    match contents.get(&file) {
        Some(content) => content.len() as u64,
        None => 0,
    }
}

// The site as it stands within its call of this number, which is stopped there.
pub(crate) fn left_within(
    alloc: Global,
    events: &[Event],
    number: u64,
    pick: Pick,
) -> Result<MemoryState, AllocError>
    requires from_one { 0 < number }
    requires made { number ≤ length (filter_map call_of events.now) }
    ensures rest { IfOk result (λ state. IsAtRest (events_of state)) }
    ensures left { IfOk result (λ state. LeftWithin events.now number pick (account_of state)) }
{
    let place = place_of_call(events, number);
    let mut remains = redone(alloc, &events[..place], pick)?;
    remains.stop_within(&events[place], pick)?;
    begun(alloc, remains.left, &remains.told)
}

// The place of the call of this number among the events.
fn place_of_call(events: &[Event], number: u64) -> usize
    requires from_one { 0 < number }
    requires made { number ≤ length (filter_map call_of events.now) }
    ensures { (event : Event) × IsCallAt events.now number result event }
{
    let mut calls = 0;
    for (place, event) in events.iter().enumerate() {
        if event.call().is_some() {
            calls += 1;
            if calls == number {
                return place;
            }
        }
    }
    events.len()
}

// Whether a call that is stopped counts as done.
fn counts_as_done(pick: Pick, event: &Event) -> bool
    ensures { result ≡ done_within pick event.now }
{
    match (pick, event) {
        (Pick::Old, _) | (Pick::Fill(_), Event::Sync(_, _)) => false,
        (Pick::New, _) | (Pick::Fill(_), _) => true,
    }
}

fn redone(alloc: Global, events: &[Event], pick: Pick) -> Result<Remains, AllocError>
    ensures { IfOk result (λ remains. Follows remains (replay start events.now)
        (left_replay pick start start events.now)) }
{
    let mut remains = Remains::new(alloc);
    for event in events {
        remains.redo(event, pick)?;
    }
    Ok(remains)
}

// A site at its beginning, with these contents and these bytes told.
fn begun(
    alloc: Global,
    mut contents: BTreeMap<FileId, Vec<u8>>,
    told: &[u8],
) -> Result<MemoryState, AllocError>
    ensures rest { IfOk result (λ state. IsAtRest (events_of state)) }
    ensures contents { IfOk result (λ state. HasContents contents (account_of state).files) }
    ensures told { IfOk result (λ state. (account_of state).told ≡ told.now) }
{
    let mut state = MemoryState::new(alloc);
    while let Some((file, content)) = contents.pop_first() {
        state.put(file, &content)?;
    }
    state.begin_told(told)?;
    Ok(state)
}
