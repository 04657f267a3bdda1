// A disk with an output.
ghost use Rattle.std.specs.Prelude.{is_ok};
ghost use Rattle.pg_disk.specs.Calls.{Changes, Emits};
ghost use Rattle.pg_disk.specs.Counts.{CountsOutput};
ghost use Rattle.pg_disk.specs.Image.{LeavesPrefix};
ghost use Rattle.pg_disk.specs.Elapsing.{Elapses};

use crate::{Disk, Failed};

/// A disk with an output, whose bytes are told in order.
pub trait Site: Disk {
    /// Tells all the bytes at Ok, and a prefix of them at Err.
    fn emit(&mut self, bytes: &[u8]) -> Result<(), Failed>
        ensures step { Changes (Self.tells self.old) (Self.tells self.new) (Emits bytes.now (is_ok result)) }
        ensures time { Elapses (Self.moment self.old) (Self.moment self.new) (Self.left_since self.old)
            (Self.left_since self.new)
            (LeavesPrefix bytes.now (Self.tells self.old)) }
        ensures cause { CountsOutput (Self.faults self.old) (Self.faults self.new) result };
}
