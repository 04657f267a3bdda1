// The files that are open.
ghost use Rattle.std.specs.Prelude.{◌≡◌, ◌<◌, ◌≤◌, ◌++◌, ◌∷◌, [], IfOk, IsTrue, length};
ghost use Rattle.pg_dir.specs.OpenFiles.{with_room};

use pg_disk::FileId;
use std::alloc::{AllocError, Global};
use std::marker::Model;

// The most that are open at a time. A plain shell lets a program have 1,024.
const MOST_OPEN: usize = 512;

struct OpenFile<F> {
    id: FileId,
    file: F,
}

/// Open files by their ids, in the order of their last use. There are at most 512.
pub(crate) struct OpenFiles<F> {
    // The one that was used last stands at the end.
    files: Vec<OpenFile<F>>,
}

impl<F> Model for OpenFiles<F> {
    ghost use Rattle.std.specs.Prelude.{◌≤◌, List, length, map};
    ghost use Rattle.pg_disk.specs.declared.file_id.FileId.{FileId};

    ghost Value = { List FileId };

    ghost view = { λ all. map (λ opened. opened.id) all.files.items };

    ghost invariant = { λ all. length all.files.items ≤ 512 };
}

impl<F: Drop> Drop for OpenFile<F> {
    fn drop(self) {
        let OpenFile {
            id: _id,
            file: _file,
        } = self;
    }
}

impl<F: Drop> Drop for OpenFiles<F> {
    fn drop(self) {
        let OpenFiles { files: _files } = self;
    }
}

impl<F: Drop> OpenFiles<F> {
    /// None.
    pub(crate) fn new(alloc: Global) -> Self
        ensures { result ≡ [] }
    {
        OpenFiles {
            files: Vec::new(alloc),
        }
    }

    /// Whether the file is open. Then it is the one that was used last from now on.
    pub(crate) fn touch(&mut self, id: FileId) -> bool
        ensures same { length self.new ≡ length self.old }
        ensures some { IsTrue result → 0 < length self.new }
    {
        match self.files.iter().rposition(|opened| opened.id == id) {
            Some(place) => {
                self.files[place..].rotate_left(1);
                true
            }
            None => false,
        }
    }

    /// The file that was used last.
    pub(crate) fn latest(&self) -> &F
        requires { 0 < length self.now }
    {
        &self.files[self.files.len() - 1].file
    }

    /// Adds a file that was opened, as the one that was used last. Where 512 are open, the one whose last use is the
    /// longest ago is closed.
    pub(crate) fn keep(&mut self, id: FileId, file: F) -> Result<(), AllocError>
        ensures added { IfOk result (λ _. self.new ≡ with_room self.old ++ id ∷ []) }
        ensures few { length self.new ≤ 512 }
    {
        if self.files.len() >= MOST_OPEN {
            self.files.remove(0);
        }
        self.files
            .push(OpenFile { id, file })
            .map_err(AllocError::from)
    }

    /// Closes the file, where it is open.
    pub(crate) fn close(&mut self, id: FileId) {
        self.files.retain(|opened| opened.id != id);
    }
}
