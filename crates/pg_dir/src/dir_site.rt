// A directory as the broker's disk.
ghost use Rattle.std.specs.Prelude.{◌≡◌, None, IfOk, Ok};
ghost use Rattle.pg_disk.specs.Counts.{FaultCounts, CountsSource};
ghost use Rattle.std.proofs.lemmas.Bool.{false≢true};

use crate::folder::Folder;
use pg_disk::{Disk, Failed, FileId, ListError, Site};
use std::alloc::Global;
use std::fs::File;
use std::io::{self, ErrorKind, Write};
use std::rt::Files;

/// A directory and an output. It tells nothing of what they hold, so all that it promises is that it counts its faults.
pub struct DirSite<R: Files<File = File>, W> {
    folder: Folder<R>,
    output: W,
    disk_faults: u64,
    output_faults: u64,
}

// Written out, so that what holds a site lets it go by one call.
impl<R: Files<File = File> + Drop, W: Drop> Drop for DirSite<R, W> {
    fn drop(self) {
        let DirSite {
            folder: _folder,
            output: _output,
            disk_faults: _disk_faults,
            output_faults: _output_faults,
        } = self;
    }
}

impl<R: Files<File = File> + AllocGlobal + Clone + Drop, W: Write + Drop> DirSite<R, W> {
    /// Touches neither.
    pub fn new(runtime: R, directory: String, output: W) -> Self {
        DirSite {
            folder: Folder::new(runtime, directory),
            output,
            disk_faults: 0,
            output_faults: 0,
        }
    }

    /// How many calls of the disk failed so far.
    pub fn disk_faults(&self) -> u64
        ensures { result ≡ self.now.disk_faults }
    {
        self.disk_faults
    }

    /// How many pieces of output were not taken whole so far.
    pub fn output_faults(&self) -> u64
        ensures { result ≡ self.now.output_faults }
    {
        self.output_faults
    }
}

// The outcome as the traits have it, and the count of the device that gave it.
fn counted<T>(faults: &mut u64, outcome: io::Result<T>) -> Result<T, Failed>
    ensures count { CountsSource faults.old faults.new result }
    ensures value { IfOk result (λ value. outcome ≡ Ok value) }
{
    match outcome {
        Ok(value) => Ok(value),
        Err(_) => {
            *faults = faults.saturating_add(1);
            Err(Failed)
        }
    }
}

impl<R: Files<File = File> + AllocGlobal + Clone + Drop, W: Write + Drop> Disk for DirSite<R, W> {
    ghost tells = { λ _. None };

    ghost faults = { λ site. record { disk = site.disk_faults; output = site.output_faults } };

    ghost moment = { λ _. 0 };

    ghost left_since = { λ _ _ _ _. ⊥ };

    ghost counts_now = { λ d t c b le left. absurd (false≢true left.honest.tells) };

    ghost only_now = { λ d c b left. absurd left };

    fn list(&mut self, alloc: Global) -> Result<Vec<FileId>, ListError> {
        match self.folder.list(alloc) {
            Ok(ids) => Ok(ids),
            Err(error) if error.kind() == ErrorKind::OutOfMemory => Err(ListError::Memory),
            Err(_) => {
                self.disk_faults = self.disk_faults.saturating_add(1);
                Err(ListError::Failed)
            }
        }
    }

    fn length(&mut self, file: FileId) -> Result<u64, Failed> {
        let outcome = self.folder.length(file);
        counted(&mut self.disk_faults, outcome)
    }

    fn read(&mut self, file: FileId, at: u64, buf: &mut [u8]) -> Result<usize, Failed> {
        let outcome = self.folder.read(file, at, buf);
        counted(&mut self.disk_faults, outcome)
    }

    fn write(&mut self, file: FileId, at: u64, bytes: &[u8]) -> Result<(), Failed> {
        let outcome = self.folder.write(file, at, bytes);
        counted(&mut self.disk_faults, outcome)
    }

    fn sync(&mut self, file: FileId) -> Result<(), Failed> {
        let outcome = self.folder.sync(file);
        counted(&mut self.disk_faults, outcome)
    }

    fn create(&mut self, file: FileId) -> Result<(), Failed> {
        let outcome = self.folder.create(file);
        counted(&mut self.disk_faults, outcome)
    }

    fn remove(&mut self, file: FileId) -> Result<(), Failed> {
        let outcome = self.folder.remove(file);
        counted(&mut self.disk_faults, outcome)
    }
}

impl<R: Files<File = File> + AllocGlobal + Clone + Drop, W: Write + Drop> Site for DirSite<R, W> {
    fn emit(&mut self, bytes: &[u8]) -> Result<(), Failed> {
        let outcome = self.output.write_all(bytes);
        counted(&mut self.output_faults, outcome)
    }
}
