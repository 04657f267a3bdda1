// A site in memory.
ghost use Rattle.std.specs.Prelude.{◌≡◌, ◌⊎◌, ◌+◌, ◌-◌, ◌≤◌, ◌<◌, ◌^◌, ◌↔◌, ◌++◌, [], ◌∷◌, Some, None, Ok, Err, true, false, IsTrue, IsNone, IfOk, IfSome, MatchBool, MatchResult, OnOk, OnErr, Contains, length, slice_get, is_ok};
ghost use Rattle.std.specs.Option.{option_map};
ghost use Rattle.std.specs.FinMap.{get, keys};
ghost use Rattle.pg_disk.specs.Account.{account, IsHonest};
ghost use Rattle.pg_disk.specs.Calls.{Changes, Reads, ReadsAt, ChangesFile, There, Wrote, Synced, Created, Removed, Emits};
ghost use Rattle.pg_disk.specs.Contents.{content_at};
ghost use Rattle.pg_disk.specs.Counts.{CountsDisk, CountsListing, CountsOutput};
ghost use Rattle.pg_disk.specs.Image.{Leaves, LeavesAt, LeavesPrefix, IsFileThere, MayBeCreated, MayBeRemoved};
ghost use Rattle.pg_disk.specs.MemSite.{calls_of};
ghost use Rattle.pg_disk.specs.Elapsing.{Elapses};
ghost use Rattle.pg_disk.specs.Recorded.{Settled};

use crate::call_record::CallKind;
use crate::crash::{Pick, left_within};
use crate::memory_state::MemoryState;
use crate::{Disk, Failed, FileId, ListError, Site};
use std::alloc::{AllocError, Global};

/// A site in memory, which records all that is done to it, and fails at the calls that are named.
#[derive(Debug)]
pub struct MemSite {
    state: MemoryState,
    named_calls: Vec<u64>,
    named_emits: Vec<u64>,
    faults: u64,
    output_faults: u64,
    short: u64,
}

// Written out, so that a test lets a site go by one call.
impl Drop for MemSite {
    fn drop(self) {
        let MemSite {
            state: _state,
            named_calls: _named_calls,
            named_emits: _named_emits,
            faults: _faults,
            output_faults: _output_faults,
            short: _short,
        } = self;
    }
}

impl MemSite {
    ghost use Rattle.pg_disk.specs.MemSite.{account_of, events_of, faults_of, short_of, emit_count, named_calls, named_emits, KeepsNames, IsUntouched, FailsNextCall, FailsNextEmit};
    ghost use Rattle.pg_disk.specs.Replay.{start, after_put};
    ghost use Rattle.pg_disk.specs.Crash.{IsAtRest, LeftWithin};

    /// No files, and nothing told, read or made to fail.
    pub fn new(alloc: Global) -> Self
        ensures honest { IsHonest (Some (account_of result)) }
        ensures empty { account_of result ≡ start }
        ensures calls { calls_of result ≡ [] }
        ensures emits { emit_count result ≡ 0 }
        ensures names { (named_calls result ≡ []) × (named_emits result ≡ []) }
        ensures faults { faults_of result ≡ record { disk = 0; output = 0 } }
        ensures short { short_of result ≡ 0 }
    {
        MemSite {
            state: MemoryState::new(alloc),
            named_calls: Vec::new(alloc),
            named_emits: Vec::new(alloc),
            faults: 0,
            output_faults: 0,
            short: 0,
        }
    }

    /// Gives the file this content, with nothing of it pending, as if from outside. It is no call.
    pub fn put(&mut self, file: FileId, bytes: &[u8]) -> Result<(), AllocError>
        ensures honest { IsHonest (Some (account_of self.new)) }
        ensures ok { OnOk result (account_of self.new ≡ after_put file bytes.now (account_of self.old)) }
        ensures err { OnErr result (account_of self.new ≡ account_of self.old) }
        ensures calls { calls_of self.new ≡ calls_of self.old }
        ensures emits { emit_count self.new ≡ emit_count self.old }
        ensures names { KeepsNames self.old self.new }
        ensures faults { faults_of self.new ≡ faults_of self.old }
        ensures short { short_of self.new ≡ short_of self.old }
    {
        self.state.put(file, bytes)
    }

    /// Names calls of the disk that are to fail, beside those that are named already. All its calls are counted
    /// together, from 1.
    pub fn fail(&mut self, calls: &[u64]) -> Result<(), AllocError>
        ensures ok { OnOk result (named_calls self.new ≡ named_calls self.old ++ calls.now) }
        ensures err { OnErr result (named_calls self.new ≡ named_calls self.old) }
        ensures emits { named_emits self.new ≡ named_emits self.old }
        ensures untouched { IsUntouched self.old self.new }
        ensures faults { faults_of self.new ≡ faults_of self.old }
        ensures short { short_of self.new ≡ short_of self.old }
    {
        self.named_calls.extend_from_slice(calls)
    }

    /// Names emits that are to fail, counted from 1 for themselves.
    pub fn fail_emit(&mut self, emits: &[u64]) -> Result<(), AllocError>
        ensures ok { OnOk result (named_emits self.new ≡ named_emits self.old ++ emits.now) }
        ensures err { OnErr result (named_emits self.new ≡ named_emits self.old) }
        ensures calls { named_calls self.new ≡ named_calls self.old }
        ensures untouched { IsUntouched self.old self.new }
        ensures faults { faults_of self.new ≡ faults_of self.old }
        ensures short { short_of self.new ≡ short_of self.old }
    {
        self.named_emits.extend_from_slice(emits)
    }

    /// How many calls of the disk were made. One that was refused memory for its record isn't counted.
    pub fn calls(&self) -> u64
        ensures { result ≡ length (calls_of self.now) }
    {
        self.state.history().calls().len() as u64
    }

    /// The n-th call of the disk.
    pub fn call(&self, n: u64) -> Option<CallKind>
        ensures none { IsNone result ↔ ((n ≡ 0) ⊎ (length (calls_of self.now) < n)) }
        ensures some { IfSome result (λ call. slice_get (calls_of self.now) (n - 1) ≡ Some call) }
    {
        if n == 0 {
            return None;
        }
        self.state.history().calls().get(n as usize - 1).copied()
    }

    /// The file's content, as a read gives it.
    pub fn bytes(&self, file: FileId) -> Option<&[u8]>
        ensures { option_map (λ b. b.now) result ≡ content_at (account_of self.now).files file }
    {
        self.state.content(file)
    }

    /// All that was emitted.
    pub fn told(&self) -> &[u8]
        ensures { result.now ≡ (account_of self.now).told }
    {
        self.state.told()
    }

    /// How many of its faults, those of its output among them, stand for want of memory.
    pub fn short(&self) -> u64
        ensures { result ≡ short_of self.now }
    {
        self.short
    }

    /// The site as it is left where it stops within the call of this number, counted from 1: with nothing pending, no
    /// call or emit made, and nothing named to fail. The pick says what became of the bytes that were pending, those of
    /// a write that is stopped among them. A create or a removal that is stopped has happened, but for `Pick::Old`,
    /// also where it was named to fail. A sync that is stopped has ended nothing.
    pub fn crash(&self, stop: u64, pick: Pick) -> Result<MemSite, AllocError>
        requires from_one { 0 < stop }
        requires made { stop ≤ length (calls_of self.now) }
        ensures honest { IfOk result (λ site. IsHonest (Some (account_of site))) }
        ensures rest { IfOk result (λ site. IsAtRest (events_of site)) }
        ensures left { IfOk result (λ site. LeftWithin (events_of self.now) stop pick (account_of site)) }
        ensures names { IfOk result (λ site. (named_calls site ≡ []) × (named_emits site ≡ [])) }
        ensures faults { IfOk result (λ site. faults_of site ≡ record { disk = 0; output = 0 }) }
        ensures short { IfOk result (λ site. short_of site ≡ 0) }
    {
        let alloc = self.state.alloc();
        let state = left_within(alloc, self.state.history().events(), stop, pick)?;
        Ok(MemSite {
            state,
            named_calls: Vec::new(alloc),
            named_emits: Vec::new(alloc),
            faults: 0,
            output_faults: 0,
            short: 0,
        })
    }

    fn call_succeeds(&self) -> bool
        ensures { MatchBool result (FailsNextCall self.now → ⊥) (FailsNextCall self.now) }
    {
        !is_named(&self.named_calls, self.state.history().calls().len() as u64)
    }

    fn emit_succeeds(&self) -> bool
        ensures { MatchBool result (FailsNextEmit self.now → ⊥) (FailsNextEmit self.now) }
    {
        !is_named(&self.named_emits, self.state.history().emits())
    }
}

// Whether the number after this one is named.
fn is_named(names: &[u64], number: u64) -> bool
    requires { number + 1 < 2 ^ 64 }
    ensures { IsTrue result ↔ Contains names.now (number + 1) }
{
    names.contains(&(number + 1))
}

// Answers a call that was recorded where memory was there, and counts it where it failed.
fn settle<T: Drop>(
    faults: &mut u64,
    short: &mut u64,
    outcome: Result<T, AllocError>,
    done: bool,
) -> Result<T, Failed>
    ensures { Settled outcome done (faults.old, short.old) (faults.new, short.new) result }
{
    match outcome {
        Ok(value) if done => return Ok(value),
        Ok(_) => {}
        Err(_) => *short = short.saturating_add(1),
    }
    *faults = faults.saturating_add(1);
    Err(Failed)
}

impl Disk for MemSite {
    ghost use Rattle.pg_disk.specs.MemSite.{tells_of, moment_of, left_since_of, events_of, faults_of, AnswersCall, AnswersListing, KeepsNames};
    ghost use Rattle.pg_disk.specs.ReplayLaws.{counts_now as counts, only_now as only};

    ghost tells = { tells_of };

    ghost faults = { faults_of };

    ghost moment = { moment_of };

    ghost left_since = { left_since_of };

    ghost counts_now = { λ m t c b le now. counts (events_of m) t c b now };

    ghost only_now = { λ m c b left. only (events_of m) c b left };

    fn list(&mut self, alloc: Global) -> Result<Vec<FileId>, ListError>
        ensures files { IfOk result (λ ids. IsHonest (tells_of self.old)
            → ids.items ≡ keys (account (tells_of self.old)).files) }
        ensures same { Changes (tells_of self.old) (tells_of self.new) (Reads 0) }
        ensures time { Elapses (moment_of self.old) (moment_of self.new) (left_since_of self.old)
            (left_since_of self.new) (Leaves (tells_of self.old)) }
        ensures cause { CountsListing (faults_of self.old) (faults_of self.new) result }
        ensures answer { AnswersListing self.old self.new result }
        ensures names { KeepsNames self.old self.new }
    {
        let done = self.call_succeeds();
        match self.state.list(alloc) {
            Ok(ids) if done => Ok(ids),
            Ok(_) => {
                self.faults = self.faults.saturating_add(1);
                Err(ListError::Failed)
            }
            Err(_) => Err(ListError::Memory),
        }
    }

    fn length(&mut self, file: FileId) -> Result<u64, Failed>
        requires { IsHonest (tells_of self.old) → IsFileThere file (account (tells_of self.old)).files }
        ensures length { IfOk result (λ n. IsHonest (tells_of self.old) → (s : _)
            → get (account (tells_of self.old)).files file ≡ Some s → n ≡ length s.bytes) }
        ensures same { Changes (tells_of self.old) (tells_of self.new) (Reads 0) }
        ensures time { Elapses (moment_of self.old) (moment_of self.new) (left_since_of self.old)
            (left_since_of self.new) (Leaves (tells_of self.old)) }
        ensures cause { CountsDisk (faults_of self.old) (faults_of self.new) result }
        ensures answer { AnswersCall (CallKind.Length file) self.old self.new result }
        ensures names { KeepsNames self.old self.new }
    {
        let done = self.call_succeeds();
        let outcome = self.state.length(file);
        settle(&mut self.faults, &mut self.short, outcome, done)
    }

    fn read(&mut self, file: FileId, at: u64, buf: &mut [u8]) -> Result<usize, Failed>
        requires { IsHonest (tells_of self.old) → IsFileThere file (account (tells_of self.old)).files }
        ensures count { IfOk result (λ n. n ≤ length buf.old) }
        ensures bytes { IfOk result (λ n. IsHonest (tells_of self.old) → (s : _)
            → get (account (tells_of self.old)).files file ≡ Some s →
            ReadsAt at n s.bytes buf.old buf.new) }
        ensures same { IfOk result (λ n. Changes (tells_of self.old) (tells_of self.new) (Reads n)) }
        ensures same_err { OnErr result (Changes (tells_of self.old) (tells_of self.new) (Reads 0)) }
        ensures time { Elapses (moment_of self.old) (moment_of self.new) (left_since_of self.old)
            (left_since_of self.new) (Leaves (tells_of self.old)) }
        ensures cause { CountsDisk (faults_of self.old) (faults_of self.new) result }
        ensures answer { AnswersCall (CallKind.Read file) self.old self.new result }
        ensures names { KeepsNames self.old self.new }
    {
        let done = self.call_succeeds();
        let outcome = self.state.read(file, at, buf, done);
        settle(&mut self.faults, &mut self.short, outcome, done)
    }

    fn write(&mut self, file: FileId, at: u64, bytes: &[u8]) -> Result<(), Failed>
        requires { IsHonest (tells_of self.old) → (s : _) × (get (account (tells_of self.old)).files file ≡ Some s)
            × (at ≤ length s.bytes) }
        ensures step { Changes (tells_of self.old) (tells_of self.new)
            (ChangesFile file (There (Wrote at bytes.now (is_ok result)))) }
        ensures time { Elapses (moment_of self.old) (moment_of self.new) (left_since_of self.old)
            (left_since_of self.new) (Leaves (tells_of self.new)) }
        ensures cause { CountsDisk (faults_of self.old) (faults_of self.new) result }
        ensures answer { AnswersCall (CallKind.Write file) self.old self.new result }
        ensures names { KeepsNames self.old self.new }
    {
        let done = self.call_succeeds();
        let outcome = self.state.write(file, at, bytes, done);
        settle(&mut self.faults, &mut self.short, outcome, done)
    }

    fn sync(&mut self, file: FileId) -> Result<(), Failed>
        requires { IsHonest (tells_of self.old) → IsFileThere file (account (tells_of self.old)).files }
        ensures step { Changes (tells_of self.old) (tells_of self.new)
            (ChangesFile file (There (Synced (is_ok result)))) }
        ensures time { Elapses (moment_of self.old) (moment_of self.new) (left_since_of self.old)
            (left_since_of self.new) (Leaves (tells_of self.old)) }
        ensures cause { CountsDisk (faults_of self.old) (faults_of self.new) result }
        ensures answer { AnswersCall (CallKind.Sync file) self.old self.new result }
        ensures names { KeepsNames self.old self.new }
    {
        let done = self.call_succeeds();
        let outcome = self.state.sync(file, done);
        settle(&mut self.faults, &mut self.short, outcome, done)
    }

    fn create(&mut self, file: FileId) -> Result<(), Failed>
        requires { IsHonest (tells_of self.old) → get (account (tells_of self.old)).files file ≡ None }
        ensures step { Changes (tells_of self.old) (tells_of self.new) (ChangesFile file (Created (is_ok result))) }
        ensures time { Elapses (moment_of self.old) (moment_of self.new) (left_since_of self.old)
            (left_since_of self.new) (LeavesAt file MayBeCreated (tells_of self.old)) }
        ensures cause { CountsDisk (faults_of self.old) (faults_of self.new) result }
        ensures answer { AnswersCall (CallKind.Create file) self.old self.new result }
        ensures names { KeepsNames self.old self.new }
    {
        let done = self.call_succeeds();
        let outcome = self.state.create(file, done);
        settle(&mut self.faults, &mut self.short, outcome, done)
    }

    fn remove(&mut self, file: FileId) -> Result<(), Failed>
        requires { IsHonest (tells_of self.old) → IsFileThere file (account (tells_of self.old)).files }
        ensures step { Changes (tells_of self.old) (tells_of self.new) (ChangesFile file (Removed (is_ok result))) }
        ensures time { Elapses (moment_of self.old) (moment_of self.new) (left_since_of self.old)
            (left_since_of self.new)
            (LeavesAt file MayBeRemoved (tells_of self.old)) }
        ensures cause { CountsDisk (faults_of self.old) (faults_of self.new) result }
        ensures answer { AnswersCall (CallKind.Remove file) self.old self.new result }
        ensures names { KeepsNames self.old self.new }
    {
        let done = self.call_succeeds();
        let outcome = self.state.remove(file, done);
        settle(&mut self.faults, &mut self.short, outcome, done)
    }
}

impl Site for MemSite {
    ghost use Rattle.pg_disk.specs.MemSite.{tells_of, moment_of, left_since_of, faults_of, AnswersEmit, KeepsNames};

    fn emit(&mut self, bytes: &[u8]) -> Result<(), Failed>
        ensures step { Changes (tells_of self.old) (tells_of self.new) (Emits bytes.now (is_ok result)) }
        ensures time { Elapses (moment_of self.old) (moment_of self.new) (left_since_of self.old)
            (left_since_of self.new)
            (LeavesPrefix bytes.now (tells_of self.old)) }
        ensures cause { CountsOutput (faults_of self.old) (faults_of self.new) result }
        ensures answer { AnswersEmit self.old self.new result }
        ensures names { KeepsNames self.old self.new }
    {
        let done = self.emit_succeeds();
        let outcome = self.state.emit(bytes, done);
        settle(&mut self.output_faults, &mut self.short, outcome, done)
    }
}
