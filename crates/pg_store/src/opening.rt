// The pages of an address are opened, as after a crash.
ghost use Rattle.std.specs.Prelude.{◌≡◌, ◌≤◌, ◌^◌, None, IfOk, IfErr, IfSome, IfNone, OnOk, IsOk};
ghost use Rattle.pg_disk.specs.Counts.{CountsFault};
ghost use Rattle.pg_disk.specs.Image.{LeavesAt, Only};
ghost use Rattle.pg_disk.specs.Moments.{Within, WithinFrom};
ghost use Rattle.pg_disk.specs.Sites.{OnBoth, OnFiles, OnTaken, Steps};
ghost use Rattle.pg_gate.specs.Spans.{KeepsAsRead, KeepsAtRest, ReadsAndChanges, ReadsWithin, StaysOrMends};
ghost use Rattle.pg_page.specs.Faults.{BreaksOn, IsPageFault};
ghost use Rattle.pg_page.specs.Pages.{page_file};
ghost use Rattle.pg_store.specs.Pages.{IsLast, states_of};
ghost use Rattle.pg_store.specs.Stores.{IsReady, Reopens, address_of_store, first_of_store, last_of_store};

use crate::store::{NormalStore, PagingStore, Store};
use pg_disk::{Disk, Fault};
use pg_page::PageWriter;
use std::alloc::Global;

impl Store {
    /// The store of an address whose last page is this one, or which has none from `first` on. The last page is opened
    /// as `PageWriter::open` does, whose errors are those of this call; of the pages before it none is read. Without a
    /// page there is no call of the disk, and the answer is Ok.
    pub fn open<D: Disk>(
        alloc: Global,
        disk: &mut D,
        address: u32,
        first: u64,
        last: Option<u64>,
    ) -> Result<Store, Fault>
        requires last { OnFiles D.Disk disk.old (λ files. IsLast first last (states_of files address)) }
        requires numbered { IfSome last (λ page. page ≤ 2 ^ 62) }
        ensures state { IfOk result (λ store. (address_of_store store ≡ address) × (first_of_store store ≡ first) ×
            (last_of_store store ≡ last)) }
        ensures opened { IfOk result (λ store. OnBoth D.Disk disk.old disk.new (λ files now.
            IsReady store (states_of now address) × Reopens store (states_of files address) (states_of now address))) }
        ensures nothing { IfNone last (IsOk result × (disk.new ≡ disk.old)) }

        ensures stays { IfSome last (λ page. Steps D.Disk disk.old disk.new
            (ReadsAndChanges (page_file address page) StaysOrMends)) }
        ensures taken { IfSome last (λ page. OnTaken D.Disk disk.old disk.new (page_file address page) ReadsWithin) }
        ensures any_moment { IfSome last (λ page. Within D.Disk disk.old disk.new
            (LeavesAt (page_file address page) KeepsAtRest)) }
        ensures once_synced { OnOk result (IfSome last (λ page. WithinFrom D.Disk (Only (page_file address page))
            disk.old disk.new (LeavesAt (page_file address page) KeepsAsRead))) }
        ensures damaged { IfErr result (λ e. IfSome last (λ page. IsPageFault (page_file address page)
            (BreaksOn D.Disk disk.old (page_file address page)) e)) }
        ensures cause { CountsFault (D.faults disk.old) (D.faults disk.new) result }
    {
        match last {
            None => Ok(Store::Normal(NormalStore { address, first })),
            Some(page) => {
                let writer = PageWriter::open(alloc, disk, address, page)?;
                Ok(Store::Paging(PagingStore { first, writer }))
            }
        }
    }
}
