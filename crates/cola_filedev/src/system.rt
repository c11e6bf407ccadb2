//! The files of a runtime: each call is std's, and tells nothing.
ghost use Rattle.std.specs.Prelude.{⊤};

use crate::access::{OpenedFile, Opener};
use crate::file::PathDevice;
use std::fs::{OpenFile, OpenOptions};
use std::io;
use std::os::unix::fs::FileExt;
use std::rt::Files;

impl<'a, R: Files> Opener for &'a R
where
    R::File: FileExt,
{
    type File = SystemFile<R::File>;

    ghost opened = { λ _ _ _ _. ⊤ };

    fn open(self, path: &str, options: &OpenOptions) -> io::Result<SystemFile<R::File>> {
        Ok(SystemFile::of(options.open(self, path)?))
    }
}

/// A device over a file of the runtime.
pub type FileDevice<'a, R> = PathDevice<'a, &'a R>;

/// A file of the runtime.
#[derive(Drop)]
pub struct SystemFile<F> {
    file: F,
}

impl<F: OpenFile + FileExt + Drop> SystemFile<F> {
    pub(crate) fn of(file: F) -> SystemFile<F> {
        SystemFile { file }
    }
}

impl<F: OpenFile + FileExt + Drop> OpenedFile for SystemFile<F> {
    ghost sized = { λ _ _ _. ⊤ };

    ghost cut = { λ _ _ _ _. ⊤ };

    ghost synced = { λ _ _ _. ⊤ };

    ghost gave = { λ _ _ _ _ _ _. ⊤ };

    ghost took = { λ _ _ _ _ _. ⊤ };

    fn size(&mut self) -> io::Result<u64> {
        Ok(self.file.metadata()?.len())
    }

    fn set_size(&mut self, size: u64) -> io::Result<()> {
        self.file.set_len(size)
    }

    fn sync(&mut self) -> io::Result<()> {
        self.file.sync_all()
    }

    fn read_at(&mut self, at: u64, into: &mut [u8]) -> io::Result<usize> {
        self.file.read_at(into, at)
    }

    fn write_at(&mut self, at: u64, from: &[u8]) -> io::Result<usize> {
        self.file.write_at(from, at)
    }
}
