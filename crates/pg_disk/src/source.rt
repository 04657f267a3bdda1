// Where the input comes from.
ghost use Rattle.std.specs.Prelude.{◌≡◌, ◌≤◌, ◌++◌, List, ℕ, Option, Some, [], length, take, drop, IfOk, OnErr};
ghost use Rattle.pg_disk.specs.Counts.{CountsSource};
ghost use Rattle.pg_disk.specs.Reads.{TakesFrom};

use crate::Failed;

/// Bytes that are read in order.
pub trait Source {
    /// What is left to read, where it is told. Standard input tells nothing.
    ghost rest: { Self → Option (List ℕ) };

    /// How often it has failed.
    ghost faults: { Self → ℕ };

    /// Puts a prefix of what is left at the buffer's beginning, and answers its length. An answer of 0 for a buffer
    /// that isn't empty is the end.
    fn read(&mut self, buf: &mut [u8]) -> Result<usize, Failed>
        ensures count { IfOk result (λ n. n ≤ length buf.old) }
        ensures bytes { IfOk result (λ n. TakesFrom (rest self.old) (rest self.new) (take n buf.new)) }
        ensures behind { IfOk result (λ n. drop n buf.new ≡ drop n buf.old) }
        ensures at_end { IfOk result (λ n. n ≡ 0 → (length buf.old ≡ 0 → ⊥) → (xs : _) → rest self.old ≡ Some xs
            → xs ≡ []) }
        ensures err { OnErr result (rest self.new ≡ rest self.old) }
        ensures cause { CountsSource (faults self.old) (faults self.new) result };
}
