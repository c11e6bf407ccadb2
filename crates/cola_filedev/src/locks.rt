//! The files of the system, each opened with the system's lock on it, so that no two programs write one file at once. What
//! the system makes of a lock is its word: no clause speaks of it.
ghost use Rattle.std.specs.Prelude.{⊤};

use crate::access::{OpenedFile, Opener};
use crate::file::PathDevice;
use crate::handle::{self, HEADER};
use crate::system::SystemFile;
use std::cell::Cell;
use std::fs::{File, OpenOptions, TryLockError};
use std::io::{self, ErrorKind};
use std::os::unix::fs::MetadataExt;
use std::rt::Files;

/// Opens the files of a program's two devices. The lock of each is asked for once, as it is opened, and held until the
/// device is dropped. A program that opens one file twice has its lock by the first of the two.
#[derive(Drop)]
pub struct Locks<'a, R: Files> {
    rt: &'a R,
    /// The last file whose lock was given.
    held: Cell<Option<FileId>>,
}

/// A file of the system: its device, and its number there.
#[derive(Clone, Copy, PartialEq, Eq)]
struct FileId {
    device: u64,
    number: u64,
}

/// Who has the lock of a file.
#[derive(Clone, Copy, PartialEq, Eq)]
enum Hold {
    /// This opening of it, or nobody, where the system knows no locks on it.
    Own,
    /// Another opening of it by the same program.
    Shared,
    /// Another program.
    Other,
}

fn id_of(file: &File) -> Option<FileId> {
    let about = file.metadata().ok()?;
    Some(FileId {
        device: about.dev(),
        number: about.ino(),
    })
}

impl<'a, R: Files> Locks<'a, R> {
    /// None is held yet.
    pub fn new(rt: &'a R) -> Locks<'a, R> {
        Locks {
            rt,
            held: Cell::new(None),
        }
    }

    /// What opens one more of the program's files.
    pub fn opener(&'a self) -> Locking<'a, R> {
        Locking { locks: self }
    }

    /// Who has the lock of the file, once it was asked for.
    fn hold_of(&self, file: &File) -> Hold {
        match file.try_lock() {
            Ok(()) => {
                self.held.set(id_of(file));
                Hold::Own
            }
            Err(TryLockError::WouldBlock) => {
                let held = self.held.get();
                if held.is_some() && held == id_of(file) {
                    Hold::Shared
                } else {
                    Hold::Other
                }
            }
            Err(TryLockError::Error(_)) => Hold::Own,
        }
    }
}

/// Opens one file, and asks for its lock.
#[derive(Drop)]
pub struct Locking<'a, R: Files> {
    locks: &'a Locks<'a, R>,
}

impl<'a, R: Files<File = File>> Opener for Locking<'a, R> {
    type File = LockedFile;

    ghost opened = { λ _ _ _ _. ⊤ };

    fn open(self, path: &str, options: &OpenOptions) -> io::Result<LockedFile> {
        let file = options.open(self.locks.rt, path)?;
        let hold = self.locks.hold_of(&file);
        Ok(LockedFile {
            file: SystemFile::of(file),
            hold,
            is_begun: false,
        })
    }
}

/// A device over a file of the system whose lock it asked for. Where another program has the lock, it answers its size and its
/// reads, and refuses each write and layout.
pub type LockedDevice<'a, R> = PathDevice<'a, Locking<'a, R>>;

/// A file of the system, with its lock or without.
#[derive(Drop)]
pub struct LockedFile {
    file: SystemFile<File>,
    hold: Hold,
    /// Whether its header was written, or it was laid out, since it was opened.
    is_begun: bool,
}

impl LockedFile {
    /// Nothing is changed in a file that another program has.
    fn may_change(&self) -> io::Result<()> {
        if self.hold == Hold::Other {
            return Err(io::Error::from(ErrorKind::WouldBlock));
        }
        Ok(())
    }

    /// Takes an old header away, before what stands behind it is written over: it says nothing of the new bytes.
    fn begin(&mut self, at: u64) -> io::Result<()> {
        if !self.is_begun && at >= HEADER as u64 && self.hold == Hold::Own {
            handle::put(&mut self.file, 0, &[0; HEADER])?;
            self.file.sync()?;
        }
        self.is_begun = true;
        Ok(())
    }
}

impl OpenedFile for LockedFile {
    ghost sized = { λ _ _ _. ⊤ };

    ghost cut = { λ _ _ _ _. ⊤ };

    ghost synced = { λ _ _ _. ⊤ };

    ghost gave = { λ _ _ _ _ _ _. ⊤ };

    ghost took = { λ _ _ _ _ _. ⊤ };

    fn size(&mut self) -> io::Result<u64> {
        self.file.size()
    }

    fn set_size(&mut self, size: u64) -> io::Result<()> {
        self.may_change()?;
        self.is_begun = true;
        self.file.set_size(size)
    }

    fn sync(&mut self) -> io::Result<()> {
        self.file.sync()
    }

    fn read_at(&mut self, at: u64, into: &mut [u8]) -> io::Result<usize> {
        self.file.read_at(at, into)
    }

    fn write_at(&mut self, at: u64, from: &[u8]) -> io::Result<usize> {
        self.may_change()?;
        self.begin(at)?;
        self.file.write_at(at, from)
    }
}
