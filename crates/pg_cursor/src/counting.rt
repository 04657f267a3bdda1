// How many places are left behind a tail.
ghost use Rattle.std.specs.Prelude.{ℕ, IfOk, IfErr};
ghost use Rattle.pg_disk.specs.Calls.{Reads};
ghost use Rattle.pg_disk.specs.Counts.{CountsFault};
ghost use Rattle.pg_disk.specs.Image.{Leaves};
ghost use Rattle.pg_disk.specs.Moments.{Within};
ghost use Rattle.pg_disk.specs.Sites.{OnFiles, Steps};
ghost use Rattle.pg_cursor.specs.Counting.{HasCount, IsLiveBehind};
ghost use Rattle.pg_cursor.specs.Places.{page_of};
ghost use Rattle.pg_cursor.specs.Walking.{AreThere, IsDamageIn, OnPages, TailStands};

use crate::tail::Tail;
use crate::walking::{Step, one_step};
use pg_acks::Acks;
use pg_disk::{Disk, Fault};
use pg_pagetx::PageTxs;
use std::alloc::Global;

// How many places behind the tail name the queue, count and aren't acknowledged, up to the last page.
pub(crate) fn count_behind<D: Disk>(
    alloc: Global,
    disk: &mut D,
    queue: u32,
    address: u32,
    acks: &Acks,
    txs: &PageTxs,
    from: Tail,
    last: u64,
) -> Result<u64, Fault>
    requires there { OnFiles D.Disk disk.old (AreThere address (page_of from) last) }
    requires stands { OnPages D.Disk disk.old address (TailStands from) }
    ensures count { IfOk result (λ count. OnPages D.Disk disk.old address (λ pages.
        HasCount (IsLiveBehind queue acks.now txs.now last from pages) count)) }
    ensures same { (n : ℕ) × Steps D.Disk disk.old disk.new (Reads n) }
    ensures any_moment { Within D.Disk disk.old disk.new Leaves }
    ensures damaged { IfErr result (IsDamageIn D.Disk disk.old address (page_of from) last) }
    ensures cause { CountsFault (D.faults disk.old) (D.faults disk.new) result }
{
    let mut tail = from;
    let mut count: u64 = 0;
    'frames: loop {
        match one_step(alloc, disk, queue, address, acks, txs, tail, last)? {
            Step::Stays => return Ok(count),
            Step::Passes(next) => tail = next,
            Step::Finds(place) => {
                tail = Tail::Behind(place);
                count = count.saturating_add(1);
            }
        }
    }
}
