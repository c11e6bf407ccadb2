//! Files as a device asks for them. The relations are open: each says that a call was asked so, was answered so, and
//! left that file. Code over any opener has one of them only by making the call, and since a file is handed from
//! call to call, none is made in between.
ghost use Rattle.std.specs.Prelude.{ℕ, List, Result};
ghost use Rattle.std.specs.declared.fs.options.OpenOptions.{OpenOptions};
ghost use Rattle.std.specs.declared.io.Error.{Error};
ghost use Rattle.std.specs.Io.{ReadsAtMost, WritesAtMost};

use std::fs::OpenOptions;
use std::io;

/// What opens one file, once.
pub trait Opener: Drop {
    /// The open file.
    type File: OpenedFile;

    /// The opening of a path with such options was answered so.
    ghost opened: { Self → List ℕ → OpenOptions → Result Self.File Error → Type 0 };

    /// Opens the file at this path.
    fn open(self, path: &str, options: &OpenOptions) -> io::Result<Self::File>
        ensures { opened self path.now options.now result };
}

/// An open file, read and written at any place.
pub trait OpenedFile: Drop {
    /// It was asked for its size.
    ghost sized: { Self → Result ℕ Error → Self → Type 0 };

    /// It was cut or lengthened to a size.
    ghost cut: { Self → ℕ → Result (Unit {0}) Error → Self → Type 0 };

    /// All that was written to it was asked to be finished.
    ghost synced: { Self → Result (Unit {0}) Error → Self → Type 0 };

    /// From a place on it gave a number of bytes, into a buffer that had the first bytes and then the second.
    ghost gave: { Self → ℕ → List ℕ → Result ℕ Error → List ℕ → Self → Type 0 };

    /// From a place on it took a number of these bytes.
    ghost took: { Self → ℕ → List ℕ → Result ℕ Error → Self → Type 0 };

    /// The number of its bytes.
    fn size(&mut self) -> io::Result<u64>
        ensures { sized self.old result self.new };

    /// Cuts it, or lengthens it with zero bytes, to so many.
    fn set_size(&mut self, size: u64) -> io::Result<()>
        ensures { cut self.old size result self.new };

    /// Asks that all that was written be finished.
    fn sync(&mut self) -> io::Result<()>
        ensures { synced self.old result self.new };

    /// Puts bytes from a place on into a buffer, and answers how many.
    fn read_at(&mut self, at: u64, into: &mut [u8]) -> io::Result<usize>
        ensures gave { gave self.old at into.old result into.new self.new }
        ensures count { ReadsAtMost result into.new };

    /// Puts bytes in its place from a place on, and answers how many.
    fn write_at(&mut self, at: u64, from: &[u8]) -> io::Result<usize>
        ensures took { took self.old at from.now result self.new }
        ensures count { WritesAtMost result from.now };
}
