// The disk: its files, and what a crash may leave of them.
ghost use Rattle.std.specs.Prelude.{◌≡◌, ◌≤◌, List, ℕ, Option, Some, None, length, is_ok, IfOk, OnErr};
ghost use Rattle.std.specs.FinMap.{get, keys};
ghost use Rattle.pg_disk.specs.Account.{Account, account, IsHonest};
ghost use Rattle.pg_disk.specs.Calls.{Changes, Reads, ReadsAt, ChangesFile, There, Wrote, Synced, Created, Removed};
ghost use Rattle.pg_disk.specs.Counts.{FaultCounts, CountsDisk, CountsListing};
ghost use Rattle.pg_disk.specs.Files.{Files};
ghost use Rattle.pg_disk.specs.Image.{Leaves, LeavesAt, IsFileThere, MayBeCreated, MayBeRemoved};
ghost use Rattle.pg_disk.specs.Elapsing.{Elapses};

use crate::{Failed, FileId, ListError};
use std::alloc::Global;

/// A disk of files. What it promises is what the broker stands on; `docs/DISK.md` says it in words.
pub trait Disk {
    /// All that it tells: its files, the bytes emitted and the count of bytes read. A real directory tells nothing.
    ghost tells: { Self → Option Account };

    /// How often it has failed, and how often its output has.
    ghost faults: { Self → FaultCounts };

    /// The moment, as a number that doesn't fall.
    ghost moment: { Self → ℕ };

    /// What a crash at some moment from that one on might have left, with the bytes told until then.
    ghost left_since: { Self → ℕ → Files → List ℕ → Type 0 };

    /// All files, ascending by kind, owner and number.
    fn list(&mut self, alloc: Global) -> Result<Vec<FileId>, ListError>
        ensures files { IfOk result (λ ids. IsHonest (tells self.old)
            → ids.items ≡ keys (account (tells self.old)).files) }
        ensures same { Changes (tells self.old) (tells self.new) (Reads 0) }
        ensures time { Elapses (moment self.old) (moment self.new) (left_since self.old) (left_since self.new)
            (Leaves (tells self.old)) }
        ensures cause { CountsListing (faults self.old) (faults self.new) result };

    /// The file's length in bytes.
    fn length(&mut self, file: FileId) -> Result<u64, Failed>
        requires { IsHonest (tells self.old) → IsFileThere file (account (tells self.old)).files }
        ensures length { IfOk result (λ n. IsHonest (tells self.old) → (s : _)
            → get (account (tells self.old)).files file ≡ Some s → n ≡ length s.bytes) }
        ensures same { Changes (tells self.old) (tells self.new) (Reads 0) }
        ensures time { Elapses (moment self.old) (moment self.new) (left_since self.old) (left_since self.new)
            (Leaves (tells self.old)) }
        ensures cause { CountsDisk (faults self.old) (faults self.new) result };

    /// Fills the buffer from `at` and answers the count, which is short only at the file's end.
    fn read(&mut self, file: FileId, at: u64, buf: &mut [u8]) -> Result<usize, Failed>
        requires { IsHonest (tells self.old) → IsFileThere file (account (tells self.old)).files }
        ensures count { IfOk result (λ n. n ≤ length buf.old) }
        ensures bytes { IfOk result (λ n. IsHonest (tells self.old) → (s : _)
            → get (account (tells self.old)).files file ≡ Some s →
            ReadsAt at n s.bytes buf.old buf.new) }
        ensures same { IfOk result (λ n. Changes (tells self.old) (tells self.new) (Reads n)) }
        ensures same_err { OnErr result (Changes (tells self.old) (tells self.new) (Reads 0)) }
        ensures time { Elapses (moment self.old) (moment self.new) (left_since self.old) (left_since self.new)
            (Leaves (tells self.old)) }
        ensures cause { CountsDisk (faults self.old) (faults self.new) result };

    /// Puts the bytes at `at`, which is no further than the file's end. After an Err the range may hold any bytes.
    fn write(&mut self, file: FileId, at: u64, bytes: &[u8]) -> Result<(), Failed>
        requires { IsHonest (tells self.old) → (s : _) × (get (account (tells self.old)).files file ≡ Some s)
            × (at ≤ length s.bytes) }
        ensures step { Changes (tells self.old) (tells self.new)
            (ChangesFile file (There (Wrote at bytes.now (is_ok result)))) }
        ensures time { Elapses (moment self.old) (moment self.new) (left_since self.old) (left_since self.new)
            (Leaves (tells self.new)) }
        ensures cause { CountsDisk (faults self.old) (faults self.new) result };

    /// Ends the file's pending ranges at Ok.
    fn sync(&mut self, file: FileId) -> Result<(), Failed>
        requires { IsHonest (tells self.old) → IsFileThere file (account (tells self.old)).files }
        ensures step { Changes (tells self.old) (tells self.new) (ChangesFile file (There (Synced (is_ok result)))) }
        ensures time { Elapses (moment self.old) (moment self.new) (left_since self.old) (left_since self.new)
            (Leaves (tells self.old)) }
        ensures cause { CountsDisk (faults self.old) (faults self.new) result };

    /// Makes an empty file where there is none of that name. It is durable at Ok.
    fn create(&mut self, file: FileId) -> Result<(), Failed>
        requires { IsHonest (tells self.old) → get (account (tells self.old)).files file ≡ None }
        ensures step { Changes (tells self.old) (tells self.new) (ChangesFile file (Created (is_ok result))) }
        ensures time { Elapses (moment self.old) (moment self.new) (left_since self.old) (left_since self.new)
            (LeavesAt file MayBeCreated (tells self.old)) }
        ensures cause { CountsDisk (faults self.old) (faults self.new) result };

    /// Removes the file. It is gone for good at Ok.
    fn remove(&mut self, file: FileId) -> Result<(), Failed>
        requires { IsHonest (tells self.old) → IsFileThere file (account (tells self.old)).files }
        ensures step { Changes (tells self.old) (tells self.new) (ChangesFile file (Removed (is_ok result))) }
        ensures time { Elapses (moment self.old) (moment self.new) (left_since self.old) (left_since self.new)
            (LeavesAt file MayBeRemoved (tells self.old)) }
        ensures cause { CountsDisk (faults self.old) (faults self.new) result };

    /// This moment is one of those since an earlier one.
    ghost counts_now: { (d : Self) (t : ℕ) (c : Files) (b : List ℕ) → t ≤ moment d → Leaves (tells d) c b
        → left_since d t c b };

    /// Since this moment there is no other.
    ghost only_now: { (d : Self) (c : Files) (b : List ℕ) → left_since d (moment d) c b → Leaves (tells d) c b };
}
