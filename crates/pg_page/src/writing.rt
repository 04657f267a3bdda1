// A page is made, and frames are added to it.
ghost use Rattle.std.specs.Prelude.{◌≡◌, ◌⊎◌, ◌<◌, ◌+◌, ◌^◌, ◌↔◌, [], length, None};
ghost use Rattle.std.specs.Prelude.{IsTrue, IfOk, IfErr, OnErr, IsErrOf};
ghost use Rattle.pg_disk.specs.Calls.{ChangesFile};
ghost use Rattle.pg_disk.specs.Counts.{CountsFault};
ghost use Rattle.pg_disk.specs.Image.{LeavesAt};
ghost use Rattle.pg_disk.specs.Moments.{Within};
ghost use Rattle.pg_disk.specs.Sites.{OnFile, Steps};
ghost use Rattle.pg_gate.specs.Gated.{Anyhow, HasNone, IsUndamaged};
ghost use Rattle.pg_page.specs.Pages.{page_file};
ghost use Rattle.pg_page.specs.Writing.{Adds, HasRoom, IsWritten, MayAdd, Writes};
ghost use Rattle.pg_page.specs.Writing.{address_of, counted_of, frames_of, name_of, next_position, page_of};

use crate::place::Place;
use crate::writer::{ClosedPage, PageWriter, page_file};
use pg_acks::Position;
use pg_bytes::Octets;
use pg_disk::{Disk, Fault};
use pg_gate::lay;
use std::alloc::Global;

impl PageWriter {
    /// Makes a page without frames. The only Err is that the disk failed: then the file may be there or not, and has no
    /// frame.
    pub fn create<D: Disk>(disk: &mut D, address: u32, page: u64) -> Result<PageWriter, Fault>
        requires { OnFile D.Disk disk.old (page_file address page) (λ s. s ≡ None) }
        ensures page { IfOk result (λ writer. (address_of writer ≡ address) × (page_of writer ≡ page)) }
        ensures empty { IfOk result (λ writer. (frames_of writer ≡ 0) × (counted_of writer ≡ 1)) }
        ensures created { IfOk result (λ writer. Steps D.Disk disk.old disk.new
            (ChangesFile (page_file address page) (λ _ s. Writes writer [] s))) }
        ensures other_files { OnErr result (Steps D.Disk disk.old disk.new
            (ChangesFile (page_file address page) Anyhow)) }
        ensures any_moment { Within D.Disk disk.old disk.new (LeavesAt (page_file address page) (λ _. HasNone)) }

        ensures only_failed { IfErr result (λ e. e ≡ Fault.Failed) }
        ensures cause { CountsFault (D.faults disk.old) (D.faults disk.new) result }
    {
        let rest = lay(disk, page_file(address, page))?;
        Ok(PageWriter { rest, frames: 0 })
    }

    /// Adds a frame, which this payload spells, and answers its place. It counts from some moment within the call on,
    /// and at no moment in part. Before any call of the disk comes `Spent`, where the file would grow past 2^62 bytes,
    /// and `Memory`, where there was none for the batch. The only other Err is that the disk failed: then the frame
    /// counts or it doesn't.
    pub fn write<D: Disk>(
        self,
        alloc: Global,
        disk: &mut D,
        payload: &Octets,
    ) -> Result<(PageWriter, Place), Fault>
        requires stands { OnFile D.Disk disk.old (name_of self) (IsWritten self) }
        requires room { frames_of self < 4294967295 }
        ensures page { IfOk result (λ done. (address_of done.0 ≡ address_of self) × (page_of done.0 ≡ page_of self)) }
        ensures grown { IfOk result (λ done. (frames_of done.0 ≡ frames_of self + 1) ×
            (counted_of done.0 ≡ counted_of self + length payload.now + 9)) }
        ensures place { IfOk result (λ done. (done.1.position ≡ next_position self) ×
            (done.1.offset ≡ counted_of self + 8)) }
        ensures written { IfOk result (λ done. Steps D.Disk disk.old disk.new
            (ChangesFile (name_of self) (Adds self payload.now done.0))) }
        ensures other_files { Steps D.Disk disk.old disk.new (ChangesFile (name_of self) Anyhow) }
        ensures any_moment { Within D.Disk disk.old disk.new (LeavesAt (name_of self) (MayAdd self payload.now)) }

        ensures spent { IsErrOf result Fault.Spent ↔ (2 ^ 62 < counted_of self + length payload.now + 9) }
        ensures untouched { IsErrOf result Fault.Spent ⊎ IsErrOf result Fault.Memory → disk.new ≡ disk.old }
        ensures only { IfErr result IsUndamaged }
        ensures cause { CountsFault (D.faults disk.old) (D.faults disk.new) result }
    {
        let file = self.rest.file();
        let before = self.rest.length();
        let frames = self.frames;
        let rest = self.rest.append_at_once(alloc, disk, payload.as_slice())?;
        let position = Position {
            page: file.number,
            index: frames,
        };
        let place = Place {
            position,
            offset: before + 8,
        };
        let writer = PageWriter {
            rest,
            frames: frames + 1,
        };
        Ok((writer, place))
    }

    /// Whether a batch with a payload of so many bytes ends within `limit` bytes of the file, or the page has no frame.
    pub fn fits(&self, payload: u64, limit: u64) -> bool
        ensures { IsTrue result ↔ HasRoom self.now payload limit }
    {
        if self.frames == 0 {
            return true;
        }
        match self.rest.length().checked_add(9) {
            Some(end) => end <= limit && payload <= limit - end,
            None => false,
        }
    }

    /// The address of the page.
    pub fn address(&self) -> u32
        ensures { result ≡ address_of self.now }
    {
        self.rest.file().owner
    }

    /// The number of the page.
    pub fn page(&self) -> u64
        ensures { result ≡ page_of self.now }
    {
        self.rest.file().number
    }

    /// How many frames the page has.
    pub fn frames(&self) -> u32
        ensures { result ≡ frames_of self.now }
    {
        self.frames
    }

    /// What the page is now. Nothing more is written to it.
    pub fn close(self) -> ClosedPage
        ensures { result ≡ record { page = page_of self; frames = frames_of self; length = counted_of self } }
    {
        ClosedPage {
            page: self.rest.file().number,
            frames: self.frames,
            length: self.rest.length(),
        }
    }
}
