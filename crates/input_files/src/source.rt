//! What opens files.

ghost use Rattle.std.specs.Prelude.{ℕ, List, IfOk};

use std::fs::OpenFile;
use std::io::Read;
use std::rt::Files;
use std::{fs, io};

/// What opens files by their names, as the system does.
pub trait FileSource {
    /// An open file.
    type File: Read + OpenFile + Drop;

    /// Says that a file was opened by a name.
    ghost named: { Self.File → List ℕ → Type 0 };

    /// Opens the file of that name, to read it.
    ///
    /// # Errors
    ///
    /// It can't be opened.
    fn open_named(&self, name: &str) -> io::Result<Self::File>
        ensures { IfOk result (λ file. named file name.now) };
}

impl<R: Files> FileSource for R {
    type File = R::File;

    ghost named = { λ _ _. Unit {0} };

    fn open_named(&self, name: &str) -> io::Result<R::File> {
        fs::open(self, name)
    }
}
