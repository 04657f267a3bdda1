// Paging starts.
ghost use Rattle.std.specs.Prelude.{◌≡◌, ◌⊎◌, ◌<◌, ◌^◌, ◌↔◌, IfOk, IfErr, IsErrOf};
ghost use Rattle.pg_disk.specs.Counts.{CountsFault};
ghost use Rattle.pg_disk.specs.Moments.{Within};
ghost use Rattle.pg_disk.specs.Sites.{OnFiles, Steps};
ghost use Rattle.pg_gate.specs.Gated.{IsFailedOrSpent};
ghost use Rattle.pg_store.specs.Pages.{ChangesPages, LeavesPages, Somehow, states_of};
ghost use Rattle.pg_store.specs.Stores.{IsNormal, LeavesNone, Starts, address_of_normal, address_of_paging};
ghost use Rattle.pg_store.specs.Stores.{counted_in_last, first_of, first_of_normal, frames_in_last, last_of};

use crate::store::{NormalStore, PagingStore};
use pg_disk::{Disk, Fault};
use pg_page::PageWriter;

// No page has a greater number, and no file more bytes.
pub(crate) const LAST: u64 = 1 << 62;

impl NormalStore {
    /// Makes the first page, which has no frame. `Spent` comes where its number would be above 2^62, before any call of
    /// the disk. The only other Err is that the disk failed: then the page may be there or not, and has no frame.
    pub fn start<D: Disk>(self, disk: &mut D) -> Result<PagingStore, Fault>
        requires { OnFiles D.Disk disk.old (λ files. IsNormal self (states_of files (address_of_normal self))) }
        ensures same { IfOk result (λ next. (address_of_paging next ≡ address_of_normal self) ×
            (first_of next ≡ first_of_normal self) × (last_of next ≡ first_of_normal self)) }
        ensures empty { IfOk result (λ next. (frames_in_last next ≡ 0) × (counted_in_last next ≡ 1)) }
        ensures started { IfOk result (λ next. Steps D.Disk disk.old disk.new
            (ChangesPages (address_of_normal self) (Starts self next))) }
        ensures other_files { Steps D.Disk disk.old disk.new (ChangesPages (address_of_normal self) Somehow) }
        ensures any_moment { Within D.Disk disk.old disk.new
            (LeavesPages (address_of_normal self) (LeavesNone self)) }

        ensures spent { IsErrOf result Fault.Spent ↔ (2 ^ 62 < first_of_normal self) }
        ensures untouched { IsErrOf result Fault.Spent → disk.new ≡ disk.old }
        ensures only { IfErr result IsFailedOrSpent }
        ensures cause { CountsFault (D.faults disk.old) (D.faults disk.new) result }
    {
        if self.first > LAST {
            return Err(Fault::Spent);
        }
        let writer = PageWriter::create(disk, self.address, self.first)?;
        Ok(PagingStore {
            first: self.first,
            writer,
        })
    }
}
