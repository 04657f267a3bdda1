// The files and the output in memory: the record of what was done, and beside it what the record comes to.
ghost use Rattle.std.specs.Prelude.{◌≡◌, ◌≤◌, ◌++◌, [], ◌∷◌, Some, None, true, false, IsTrue, IfOk, IfSome, MatchResult, OnOk, OnErr, length, vec_len, List};
ghost use Rattle.std.specs.Option.{option_map};
ghost use Rattle.std.specs.FinMap.{get, keys};
ghost use Rattle.std.specs.BTreeMap as tree;
ghost use Rattle.pg_disk.specs.Calls.{ReadsAt};
ghost use Rattle.pg_disk.specs.Contents.{HasContents, ComesTo, content_at};
ghost use Rattle.pg_disk.specs.Files.{file_cmp};
ghost use Rattle.pg_disk.specs.Recorded.{RecordsCall, RecordsEmit, RecordsOther, Recorded};
ghost use Rattle.pg_disk.specs.Replay.{start, replay, overwritten_content, if_done, unchanged, after_read, after_write, after_sync, after_create, after_remove, after_emit, after_put, after_told};

use crate::FileId;
use crate::call_record::{CallKind, CallRecord, Event};
use std::alloc::{AllocError, Global};
use std::collections::BTreeMap;

/// Files and output in memory. Each method records what it does, and changes nothing where it has no memory for that.
/// A `done` of false is for a call that is to fail: it is recorded, and nothing else.
#[derive(Debug)]
pub struct MemoryState {
    alloc: Global,
    history: CallRecord,
    contents: BTreeMap<FileId, Vec<u8>>,
    told: Vec<u8>,
    ghost contents_of_history: { HasContents contents (replay start history.events.items).files },
    ghost told_of_history: { told.items ≡ (replay start history.events.items).told },
}

impl Drop for MemoryState {
    fn drop(self) {
        let MemoryState {
            alloc: _alloc,
            history: _history,
            contents: _contents,
            told: _told,
        } = self;
    }
}

impl MemoryState {
    ghost use Rattle.pg_disk.specs.MemoryState.{events_of, account_of};

    pub fn new(alloc: Global) -> Self
        ensures { events_of result ≡ [] }
    {
        MemoryState {
            alloc,
            history: CallRecord::new(alloc),
            contents: BTreeMap::new(alloc),
            told: Vec::new(alloc),
        }
    }

    pub fn alloc(&self) -> Global {
        self.alloc
    }

    pub fn history(&self) -> &CallRecord
        ensures { result.now ≡ self.now.history }
    {
        &self.history
    }

    pub fn content(&self, file: FileId) -> Option<&[u8]>
        ensures { option_map (λ b. b.now) result ≡ content_at (account_of self.now).files file }
    {
        let content = self.contents.get(&file)?;
        Some(content.as_slice())
    }

    pub fn told(&self) -> &[u8]
        ensures { result.now ≡ (account_of self.now).told }
    {
        &self.told
    }

    pub fn list(&mut self, alloc: Global) -> Result<Vec<FileId>, AllocError>
        ensures files { IfOk result (λ ids. ids.items ≡ keys (account_of self.old).files) }
        ensures recorded { RecordsCall (events_of self.old) (events_of self.new) CallKind.List unchanged result }
    {
        let ids = files_of(alloc, &self.contents)?;
        self.history.push(Event::List)?;
        Ok(ids)
    }

    pub fn length(&mut self, file: FileId) -> Result<u64, AllocError>
        ensures length { IfOk result (λ n. (s : _) → get (account_of self.old).files file ≡ Some s
            → n ≡ length s.bytes) }
        ensures recorded { RecordsCall (events_of self.old) (events_of self.new)
            (CallKind.Length file) unchanged result }
    {
        let length = match self.content(file) {
            Some(content) => content.len(),
            None => 0,
        };
        self.history.push(Event::Length(file))?;
        Ok(length as u64)
    }

    pub fn read(
        &mut self,
        file: FileId,
        at: u64,
        buf: &mut [u8],
        done: bool,
    ) -> Result<usize, AllocError>
        ensures count { IfOk result (λ n. n ≤ length buf.old) }
        ensures bytes { IfOk result (λ n. IsTrue done → (s : _) → get (account_of self.old).files file ≡ Some s →
            ReadsAt at n s.bytes buf.old buf.new) }
        ensures nothing { IfOk result (λ n. done ≡ false → n ≡ 0) }
        ensures recorded { MatchResult result
            (λ n. Recorded (events_of self.old) (events_of self.new) (Some (CallKind.Read file)) false (after_read n))
            (λ _. events_of self.new ≡ events_of self.old) }
    {
        let count = if done { self.fill(file, at, buf) } else { 0 };
        self.history.push(Event::Read(file, count))?;
        Ok(count)
    }

    // Fills the buffer with the file's content from `at` on, and answers the count.
    fn fill(&self, file: FileId, at: u64, buf: &mut [u8]) -> usize
        ensures count { result ≤ length buf.old }
        ensures bytes { (s : _) → get (account_of self.now).files file ≡ Some s
            → ReadsAt at result s.bytes buf.old buf.new }
    {
        match self.content(file) {
            Some(content) => copy_at(content, at, buf),
            None => 0,
        }
    }

    pub fn write(
        &mut self,
        file: FileId,
        at: u64,
        bytes: &[u8],
        done: bool,
    ) -> Result<(), AllocError>
        requires { (s : _) × (get (account_of self.old).files file ≡ Some s) × (at ≤ length s.bytes) }
        ensures { RecordsCall (events_of self.old) (events_of self.new) (CallKind.Write file)
            (after_write file at bytes.now done) result }
    {
        let copy = Vec::from_slice(self.alloc, bytes)?;
        self.history.reserve()?;
        overwrite_in(&mut self.contents, file, at, bytes, done)?;
        self.history.add(Event::Write(file, at, copy, done));
        Ok(())
    }

    pub fn sync(&mut self, file: FileId, done: bool) -> Result<(), AllocError>
        ensures { RecordsCall (events_of self.old) (events_of self.new) (CallKind.Sync file)
            (after_sync file done) result }
    {
        self.history.push(Event::Sync(file, done))
    }

    pub fn create(&mut self, file: FileId, done: bool) -> Result<(), AllocError>
        ensures { RecordsCall (events_of self.old) (events_of self.new) (CallKind.Create file)
            (after_create file done) result }
    {
        self.history.reserve()?;
        create_in(&mut self.contents, self.alloc, file, done)?;
        self.history.add(Event::Create(file, done));
        Ok(())
    }

    pub fn remove(&mut self, file: FileId, done: bool) -> Result<(), AllocError>
        ensures { RecordsCall (events_of self.old) (events_of self.new) (CallKind.Remove file)
            (after_remove file done) result }
    {
        self.history.reserve()?;
        remove_in(&mut self.contents, file, done);
        self.history.add(Event::Remove(file, done));
        Ok(())
    }

    pub fn emit(&mut self, bytes: &[u8], done: bool) -> Result<(), AllocError>
        ensures { RecordsEmit (events_of self.old) (events_of self.new) (after_emit bytes.now done) result }
    {
        let copy = Vec::from_slice(self.alloc, bytes)?;
        self.history.reserve()?;
        tell(&mut self.told, bytes, done)?;
        self.history.add(Event::Emit(copy, done));
        Ok(())
    }

    /// Adds bytes to what was told, and is no emit.
    pub fn begin_told(&mut self, bytes: &[u8]) -> Result<(), AllocError>
        ensures { RecordsOther (events_of self.old) (events_of self.new) (after_told bytes.now) result }
    {
        let copy = Vec::from_slice(self.alloc, bytes)?;
        self.history.reserve()?;
        tell(&mut self.told, bytes, true)?;
        self.history.add(Event::Told(copy));
        Ok(())
    }

    pub fn put(&mut self, file: FileId, bytes: &[u8]) -> Result<(), AllocError>
        ensures { RecordsOther (events_of self.old) (events_of self.new) (after_put file bytes.now) result }
    {
        let copy = Vec::from_slice(self.alloc, bytes)?;
        let content = Vec::from_slice(self.alloc, bytes)?;
        self.history.reserve()?;
        self.contents.insert(file, content)?;
        self.history.add(Event::Put(file, copy));
        Ok(())
    }
}

// Fills the buffer with the content from `at` on, and answers the count.
fn copy_at(content: &[u8], at: u64, buf: &mut [u8]) -> usize
    ensures { ReadsAt at result content.now buf.old buf.new }
{
    let start = at.min(content.len() as u64) as usize;
    let count = buf.len().min(content.len() - start);
    buf[..count].copy_from_slice(&content[start..start + count]);
    count
}

// The files in their order.
fn files_of(alloc: Global, contents: &BTreeMap<FileId, Vec<u8>>) -> Result<Vec<FileId>, AllocError>
    ensures ids { IfOk result (λ ids. ids.items ≡ tree.keys contents.now) }
    ensures ordered { tree.IsOrdered file_cmp contents.now }
{
    contents.keys().copied().collect(alloc)
}

// Adds the bytes to what was told, where they are to be told.
pub(crate) fn tell(told: &mut Vec<u8>, bytes: &[u8], done: bool) -> Result<(), AllocError>
    ensures ok { OnOk result (told.new.items ≡ if_done done (told.old.items ++ bytes.now) told.old.items) }
    ensures err { OnErr result (told.new.items ≡ told.old.items) }
{
    if !done {
        return Ok(());
    }
    told.extend_from_slice(bytes)
}

// Does a create to the contents.
pub(crate) fn create_in(
    contents: &mut BTreeMap<FileId, Vec<u8>>,
    alloc: Global,
    file: FileId,
    done: bool,
) -> Result<(), AllocError>
    ensures ok { OnOk result (ComesTo contents.old contents.new (after_create file done)) }
    ensures err { OnErr result (ComesTo contents.old contents.new unchanged) }
{
    if !done {
        return Ok(());
    }
    contents.insert(file, Vec::new(alloc))?;
    Ok(())
}

// Does a removal to the contents.
pub(crate) fn remove_in(contents: &mut BTreeMap<FileId, Vec<u8>>, file: FileId, done: bool)
    ensures { ComesTo contents.old contents.new (after_remove file done) }
{
    if done {
        contents.remove(&file);
    }
}

// Does a write to the contents.
pub(crate) fn overwrite_in(
    contents: &mut BTreeMap<FileId, Vec<u8>>,
    file: FileId,
    at: u64,
    bytes: &[u8],
    done: bool,
) -> Result<(), AllocError>
    requires { IfSome (tree.get file_cmp contents.old file) (λ content. at ≤ vec_len content) }
    ensures ok { OnOk result (ComesTo contents.old contents.new (after_write file at bytes.now done)) }
    ensures err { OnErr result (ComesTo contents.old contents.new unchanged) }
{
    if !done {
        return Ok(());
    }
    match contents.get_mut(&file) {
        Some(content) => overwrite(content, at as usize, bytes),
        None => Ok(()),
    }
}

// Puts the bytes over the content from `at` on, and behind its end where they go further.
fn overwrite(content: &mut Vec<u8>, at: usize, bytes: &[u8]) -> Result<(), AllocError>
    requires { at ≤ vec_len content.old }
    ensures ok { OnOk result (content.new.items ≡ overwritten_content at bytes.now content.old.items) }
    ensures err { OnErr result (content.new.items ≡ content.old.items) }
{
    let over = bytes.len().min(content.len() - at);
    content.extend_from_slice(&bytes[over..])?;
    content[at..at + over].copy_from_slice(&bytes[..over]);
    Ok(())
}
