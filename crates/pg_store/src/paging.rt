// A frame is added to the pages of an address.
ghost use Rattle.std.specs.Prelude.{◌≡◌, ◌⊎◌, ◌<◌, ◌≤◌, ◌+◌, ◌^◌, ◌↔◌, length, IfOk, IfErr, IsErrOf};
ghost use Rattle.pg_disk.specs.Counts.{CountsFault};
ghost use Rattle.pg_disk.specs.Moments.{Within};
ghost use Rattle.pg_disk.specs.Sites.{OnFiles, Steps};
ghost use Rattle.pg_gate.specs.Gated.{IsUndamaged};
ghost use Rattle.pg_page.specs.Pages.{position_at};
ghost use Rattle.pg_page.specs.Writing.{next_position};
ghost use Rattle.pg_store.specs.Pages.{ChangesPages, LeavesPages, Somehow, states_of};
ghost use Rattle.pg_store.specs.Stores.{GoesTo, HasNoSpace, IsPaging, MayPage, Paged, address_of_paging};
ghost use Rattle.pg_store.specs.Stores.{counted_in_last, first_of, frames_in_last, last_of};
ghost use Rattle.pg_store.specs.Turning.{Keeps, Turns};

use crate::starting::LAST;
use crate::store::PagingStore;
use pg_bytes::Octets;
use pg_disk::{Disk, Fault};
use pg_page::{PageWriter, Place};
use std::alloc::Global;

impl PagingStore {
    /// Adds a frame, which this payload spells, and answers its place: on the last page, unless that one has a frame
    /// and its counted length with the payload and 9 is above `limit`, which is the page size in bytes; then on a new
    /// page. The frame counts from some moment within the call on, and at no moment in part. Before any call of the
    /// disk comes `Spent`, where the page's number or the file's length would pass 2^62. The other errors are that the
    /// disk failed, and that there was no memory: then the frame counts or it doesn't, and an empty page may stand at
    /// the end.
    pub fn page<D: Disk>(
        self,
        alloc: Global,
        disk: &mut D,
        payload: &Octets,
        limit: u64,
    ) -> Result<(PagingStore, Place), Fault>
        requires ready { OnFiles D.Disk disk.old (λ files. IsPaging self (states_of files (address_of_paging self))) }
        requires limited { limit ≤ 1000000000 }
        ensures same { IfOk result (λ done. (address_of_paging done.0 ≡ address_of_paging self) ×
            (first_of done.0 ≡ first_of self) × (last_of done.0 ≡ done.1.position.page)) }
        ensures goes { IfOk result (λ done. GoesTo self (length payload.now) limit done.1) }
        ensures grown { IfOk result (λ done. (frames_in_last done.0 ≡ done.1.position.index + 1) ×
            (counted_in_last done.0 ≡ done.1.offset + length payload.now + 1)) }
        ensures paged { IfOk result (λ done. Steps D.Disk disk.old disk.new
            (ChangesPages (address_of_paging self) (Paged self payload.now done.0 done.1))) }
        ensures other_files { Steps D.Disk disk.old disk.new (ChangesPages (address_of_paging self) Somehow) }
        ensures any_moment { Within D.Disk disk.old disk.new
            (LeavesPages (address_of_paging self) (MayPage self payload.now)) }

        ensures spent { IsErrOf result Fault.Spent ↔ HasNoSpace self (length payload.now) limit }
        ensures untouched { IsErrOf result Fault.Spent → disk.new ≡ disk.old }
        ensures only { IfErr result IsUndamaged }
        ensures cause { CountsFault (D.faults disk.old) (D.faults disk.new) result }
    {
        let size = payload.len() as u64;
        if self.writer.fits(size, limit) {
            return self.add(alloc, disk, payload);
        }
        if self.writer.page() >= LAST || size > LAST - 10 {
            return Err(Fault::Spent);
        }
        self.add_behind(alloc, disk, payload)
    }

    // Adds a frame to the last page.
    pub(crate) fn add<D: Disk>(
        self,
        alloc: Global,
        disk: &mut D,
        payload: &Octets,
    ) -> Result<(PagingStore, Place), Fault>
        requires ready { OnFiles D.Disk disk.old (λ files. IsPaging self (states_of files (address_of_paging self))) }
        requires room { frames_in_last self < 4294967295 }
        ensures same { IfOk result (λ done. (address_of_paging done.0 ≡ address_of_paging self) ×
            (first_of done.0 ≡ first_of self) × (last_of done.0 ≡ last_of self)) }
        ensures place { IfOk result (λ done. (done.1.position ≡ next_position self.writer) ×
            (done.1.offset ≡ counted_in_last self + 8)) }
        ensures grown { IfOk result (λ done. (frames_in_last done.0 ≡ frames_in_last self + 1) ×
            (counted_in_last done.0 ≡ counted_in_last self + length payload.now + 9)) }
        ensures paged { IfOk result (λ done. Steps D.Disk disk.old disk.new
            (ChangesPages (address_of_paging self) (Paged self payload.now done.0 done.1))) }
        ensures other_files { Steps D.Disk disk.old disk.new (ChangesPages (address_of_paging self) Somehow) }
        ensures any_moment { Within D.Disk disk.old disk.new
            (LeavesPages (address_of_paging self) (MayPage self payload.now)) }
        ensures spent { IsErrOf result Fault.Spent ↔ (2 ^ 62 < counted_in_last self + length payload.now + 9) }
        ensures untouched { IsErrOf result Fault.Spent → disk.new ≡ disk.old }
        ensures only { IfErr result IsUndamaged }
        ensures cause { CountsFault (D.faults disk.old) (D.faults disk.new) result }
    {
        let (writer, place) = self.writer.write(alloc, disk, payload)?;
        let store = PagingStore {
            first: self.first,
            writer,
        };
        Ok((store, place))
    }

    // Adds a frame to a new page.
    fn add_behind<D: Disk>(
        self,
        alloc: Global,
        disk: &mut D,
        payload: &Octets,
    ) -> Result<(PagingStore, Place), Fault>
        requires ready { OnFiles D.Disk disk.old (λ files. IsPaging self (states_of files (address_of_paging self))) }
        requires numbered { last_of self < 2 ^ 62 }
        requires short { length payload.now + 10 ≤ 2 ^ 62 }
        ensures same { IfOk result (λ done. (address_of_paging done.0 ≡ address_of_paging self) ×
            (first_of done.0 ≡ first_of self) × (last_of done.0 ≡ last_of self + 1)) }
        ensures place { IfOk result (λ done. (done.1.position ≡ position_at (last_of self + 1) 0) ×
            (done.1.offset ≡ 9)) }
        ensures grown { IfOk result (λ done. (frames_in_last done.0 ≡ 1) ×
            (counted_in_last done.0 ≡ length payload.now + 10)) }
        ensures paged { IfOk result (λ done. Steps D.Disk disk.old disk.new
            (ChangesPages (address_of_paging self) (Paged self payload.now done.0 done.1))) }
        ensures other_files { Steps D.Disk disk.old disk.new (ChangesPages (address_of_paging self) Somehow) }
        ensures any_moment { Within D.Disk disk.old disk.new
            (LeavesPages (address_of_paging self) (MayPage self payload.now)) }
        ensures unspent { IsErrOf result Fault.Spent → ⊥ }
        ensures only { IfErr result IsUndamaged }
        ensures cause { CountsFault (D.faults disk.old) (D.faults disk.new) result }
    {
        let next = self.turn(disk)?;
        let (store, place) = next.add(alloc, disk, payload)?;
        Ok((store, place))
    }

    // Makes a page behind the last one. It has no frame.
    fn turn<D: Disk>(self, disk: &mut D) -> Result<PagingStore, Fault>
        requires ready { OnFiles D.Disk disk.old (λ files. IsPaging self (states_of files (address_of_paging self))) }
        requires numbered { last_of self < 2 ^ 62 }
        ensures same { IfOk result (λ next. (address_of_paging next ≡ address_of_paging self) ×
            (first_of next ≡ first_of self) × (last_of next ≡ last_of self + 1)) }
        ensures empty { IfOk result (λ next. (frames_in_last next ≡ 0) × (counted_in_last next ≡ 1)) }
        ensures turned { IfOk result (λ next. Steps D.Disk disk.old disk.new
            (ChangesPages (address_of_paging self) (Turns self next))) }
        ensures other_files { Steps D.Disk disk.old disk.new (ChangesPages (address_of_paging self) Somehow) }
        ensures any_moment { Within D.Disk disk.old disk.new (LeavesPages (address_of_paging self) (Keeps self)) }
        ensures only_failed { IfErr result (λ e. e ≡ Fault.Failed) }
        ensures cause { CountsFault (D.faults disk.old) (D.faults disk.new) result }
    {
        let writer = PageWriter::create(disk, self.writer.address(), self.writer.page() + 1)?;
        Ok(PagingStore {
            first: self.first,
            writer,
        })
    }

    /// The number of the first page.
    pub fn first(&self) -> u64
        ensures { result ≡ first_of self.now }
    {
        self.first
    }

    /// The number of the last page, at most 2^62.
    pub fn last(&self) -> u64
        ensures { result ≡ last_of self.now }
    {
        self.writer.page()
    }
}
