// The files of a directory, with positioned reads and writes. The files that were used last stay open.
ghost use Rattle.std.specs.Prelude.{◌≤◌, ◌<◌, IfOk, OnOk, IsSorted, length};
ghost use Rattle.pg_disk.specs.Files.{file_cmp};

use crate::names::{file_id, file_name};
use crate::open_files::OpenFiles;
use pg_disk::FileId;
use std::alloc::{AllocError, Global};
use std::fs::{self, File, OpenOptions};
use std::io::{self, ErrorKind};
use std::os::unix::fs::FileExt;
use std::rt::Files;

/// A directory. A call of the system that a signal interrupts is made again.
pub(crate) struct Folder<R: Files<File = File>> {
    runtime: R,
    path: String,
    // The directory, locked, from the first call that asks something of it.
    directory: Option<File>,
    files: OpenFiles<File>,
    // After a sync that failed the system may have dropped what it had still to write, and may answer the next one
    // well. So none is answered well from then on.
    sync_failed: bool,
}

impl<R: Files<File = File> + Drop> Drop for Folder<R> {
    fn drop(self) {
        let Folder {
            runtime: _runtime,
            path: _path,
            directory: _directory,
            files: _files,
            sync_failed: _sync_failed,
        } = self;
    }
}

impl<R: Files<File = File> + AllocGlobal + Clone + Drop> Folder<R> {
    /// Touches nothing yet.
    pub(crate) fn new(runtime: R, path: String) -> Self {
        let files = OpenFiles::new(runtime.alloc());
        Folder {
            runtime,
            path,
            directory: None,
            files,
            sync_failed: false,
        }
    }

    /// The broker's files, ascending. What isn't a plain file and what has another name is passed over, but a name that
    /// isn't UTF-8 is an error.
    pub(crate) fn list(&mut self, alloc: Global) -> io::Result<Vec<FileId>>
        ensures ascending { IfOk result (λ ids. IsSorted file_cmp ids.items) }
    {
        self.lock()?;
        let folder = &*self;
        uninterrupted(|| folder.list_once(alloc))
    }

    fn list_once(&self, alloc: Global) -> io::Result<Vec<FileId>>
        ensures ascending { IfOk result (λ ids. IsSorted file_cmp ids.items) }
    {
        let mut ids = Vec::new(alloc);
        for entry in fs::read_dir(&self.runtime, self.path.as_str())? {
            let entry = entry?;
            if let Some(id) = file_id(entry.file_name())
                && entry.file_type()?.is_file()
            {
                ids.push(id).map_err(AllocError::from)?;
            }
        }
        ids.sort_unstable();
        Ok(ids)
    }

    /// In bytes.
    pub(crate) fn length(&mut self, id: FileId) -> io::Result<u64> {
        let file = self.file(id)?;
        Ok(uninterrupted(|| file.metadata())?.len())
    }

    /// Fills the buffer, unless the file ends before, and answers the count.
    pub(crate) fn read(&mut self, id: FileId, at: u64, buf: &mut [u8]) -> io::Result<usize>
        ensures { IfOk result (λ n. n ≤ length buf.old) }
    {
        fill(self.file(id)?, at, buf)
    }

    /// Writes all the bytes.
    pub(crate) fn write(&mut self, id: FileId, at: u64, bytes: &[u8]) -> io::Result<()> {
        self.file(id)?.write_all_at(bytes, at)
    }

    pub(crate) fn sync(&mut self, id: FileId) -> io::Result<()> {
        let outcome = self.file(id)?.sync_data();
        self.synced(outcome)
    }

    /// Makes an empty file where there is none of its name.
    pub(crate) fn create(&mut self, id: FileId) -> io::Result<()> {
        self.lock()?;
        let path = self.path_of(id)?;
        let file = File::create_new(&self.runtime, path.as_str())?;
        self.files.keep(id, file)?;
        self.sync_directory()
    }

    pub(crate) fn remove(&mut self, id: FileId) -> io::Result<()> {
        self.lock()?;
        let path = self.path_of(id)?;
        self.files.close(id);
        let runtime = &self.runtime;
        uninterrupted(|| fs::remove_file(runtime, path.as_str()))?;
        self.sync_directory()
    }

    fn path_of(&self, id: FileId) -> Result<String, AllocError> {
        let alloc = self.runtime.alloc();
        let name = file_name(alloc, id)?;
        let directory = &self.path;
        format!(in alloc; "{directory}/{name}")
    }

    fn file(&mut self, id: FileId) -> io::Result<&File> {
        self.open(id)?;
        Ok(self.files.latest())
    }

    // Opens the file, where it isn't open.
    fn open(&mut self, id: FileId) -> io::Result<()>
        ensures { IfOk result (λ _. 0 < length self.new.files) }
    {
        if self.files.touch(id) {
            return Ok(());
        }
        self.lock()?;
        let path = self.path_of(id)?;
        let file = OpenOptions::new()
            .read(true)
            .write(true)
            .open(&self.runtime, path.as_str())?;
        self.files.keep(id, file)?;
        Ok(())
    }

    // Opens the directory and locks it, where this isn't done yet. The lock is the system's advisory one. It is refused
    // while another site has it, and is gone once this one lets the directory go, also where the process is killed.
    fn lock(&mut self) -> io::Result<()> {
        if self.directory.is_none() {
            let directory = File::open(&self.runtime, self.path.as_str())?;
            directory.try_lock()?;
            self.directory = Some(directory);
        }
        Ok(())
    }

    fn sync_directory(&mut self) -> io::Result<()> {
        let outcome = match &self.directory {
            Some(directory) => directory.sync_all(),
            None => Err(io::Error::from(ErrorKind::NotFound)),
        };
        self.synced(outcome)
    }

    fn synced(&mut self, outcome: io::Result<()>) -> io::Result<()> {
        self.sync_failed |= outcome.is_err();
        if self.sync_failed {
            return Err(io::Error::from(ErrorKind::Other));
        }
        Ok(())
    }
}

// Makes the call again where a signal interrupts it, which std does at the calls of an open file that write or sync.
fn uninterrupted<T, F: Fn() -> io::Result<T>>(call: F) -> io::Result<T>
    requires { F.IsAlwaysCallable call }
    ensures { OnOk result (F.post call result) }
{
    for _ in 0..u64::MAX {
        match call() {
            Err(error) if error.kind() == ErrorKind::Interrupted => {}
            outcome => return outcome,
        }
    }
    Err(io::Error::from(ErrorKind::Interrupted))
}

// Fills the buffer from the offset on, unless the file ends before, and answers the count.
fn fill(file: &File, at: u64, buf: &mut [u8]) -> io::Result<usize>
    ensures { IfOk result (λ n. n ≤ length buf.old) }
{
    let mut filled = 0;
    for _ in 0..u64::MAX {
        if filled == buf.len() {
            break;
        }
        match file.read_at(&mut buf[filled..], at.saturating_add(filled as u64)) {
            Ok(0) => break,
            Ok(count) => filled += count,
            Err(error) if error.kind() == ErrorKind::Interrupted => {}
            Err(error) => return Err(error),
        }
    }
    Ok(filled)
}
