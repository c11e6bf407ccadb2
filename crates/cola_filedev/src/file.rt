ghost use Rattle.std.specs.Prelude.{◌≡◌, Option, false, Some, None, refl, is_err};
ghost use Rattle.cola_device.specs.Counts.{count_fault, count_read, count_write, count_other};
ghost use Rattle.cola_filedev.specs.Opening.{Wanted, unused, AskedFor, Asked};
ghost use Rattle.cola_filedev.specs.Work.{InPieces, Written, Laid};
ghost use Rattle.cola_filedev.specs.declared.handle.Handle.TheVariants.{Unopened, Refused};

use crate::access::{OpenedFile, Opener};
use crate::handle::{self, Handle};
use cola_device::{Counts, Device, DeviceFault};
use std::marker::Model;
use std::mem;

/// A device over the file at a path, which an opener opens. It tells no bytes.
#[derive(Drop)]
pub struct PathDevice<'a, O: Opener> {
    /// The path that the first call opens, and whether it makes the file.
    wanted: Option<(&'a str, bool)>,
    handle: Handle<O, O::File>,
    counts: Counts,
}

impl<'a, O: Opener> Model for PathDevice<'a, O> {
    ghost use Rattle.cola_filedev.specs.Opening.{Shown, wanted_of};

    ghost Value = { Shown O O.File };

    ghost view = { λ d. record { handle = d.handle; wanted = wanted_of d.wanted; counts = d.counts } };
}

impl<'a, O: Opener> PathDevice<'a, O> {
    /// A device over the file at this path. Nothing is touched before the first call of `size`, `lay_out`,
    /// `read`, `write` or `settle`: that call opens the file for reading and writing, and makes it where
    /// it is not there and `make` is true.
    pub fn new(opener: O, path: &'a str, make: bool) -> PathDevice<'a, O>
        ensures { result ≡ unused (Unopened opener) (Some (path.now, make)) }
    {
        PathDevice {
            wanted: Some((path, make)),
            handle: Handle::Unopened(opener),
            counts: Counts::default(),
        }
    }

    /// A device with no file: each of those calls is a fault.
    pub fn none(_opener: O) -> PathDevice<'a, O>
        ensures { result ≡ unused Refused None }
    {
        PathDevice {
            wanted: None,
            handle: Handle::Refused,
            counts: Counts::default(),
        }
    }

    /// Asks for the file where that was not done yet.
    fn ask(&mut self)
        ensures opening { AskedFor O.opened self.old.wanted self.old.handle self.new.handle }
        ensures wanted { self.new.wanted ≡ self.old.wanted }
        ensures counts { self.new.counts ≡ self.old.counts }
    {
        if let Handle::Unopened(_) = self.handle {
            let unasked = mem::replace(&mut self.handle, Handle::Refused);
            self.handle = handle::asked(unasked, self.wanted);
        }
    }
}

impl<'a, O: Opener> Device for PathDevice<'a, O> {
    ghost bytes = { λ _. None };

    ghost tells = { false };

    ghost counts = { λ d. d.counts };

    ghost Kept = { Option Wanted };

    ghost kept = { λ d. d.wanted };

    ghost settles = { λ old result new. Asked O.opened old.wanted O.File.synced old.handle result new.handle };

    ghost told = { λ _. refl };

    fn size(&mut self) -> Result<u64, DeviceFault>
        ensures asked { Asked O.opened self.old.wanted O.File.sized self.old.handle result self.new.handle }
        ensures wanted { self.new.wanted ≡ self.old.wanted }
        ensures counted { self.new.counts ≡ count_other (count_fault (is_err result) self.old.counts) }
    {
        self.counts.other();
        self.ask();
        if let Handle::Open(file) = &mut self.handle {
            if let Ok(size) = file.size() {
                return Ok(size);
            }
        }
        Err(self.counts.fault())
    }

    fn lay_out(&mut self, size: u64) -> Result<(), DeviceFault>
        ensures asked { Asked O.opened self.old.wanted (Laid O.File.cut size) self.old.handle result self.new.handle }
        ensures wanted { self.new.wanted ≡ self.old.wanted }
        ensures counted { self.new.counts ≡ count_other (count_fault (is_err result) self.old.counts) }
    {
        self.counts.other();
        self.ask();
        if let Handle::Open(file) = &mut self.handle {
            if handle::lay_out(file, size).is_ok() {
                return Ok(());
            }
        }
        Err(self.counts.fault())
    }

    fn read(&mut self, at: u64, into: &mut [u8]) -> Result<(), DeviceFault>
        ensures asked { Asked O.opened self.old.wanted (λ old answer new. InPieces O.File.gave old at into.old answer into.new new)
            self.old.handle result self.new.handle }
        ensures wanted { self.new.wanted ≡ self.old.wanted }
        ensures counted { self.new.counts ≡ count_read (count_fault (is_err result) self.old.counts) }
    {
        self.counts.read();
        self.ask();
        if let Handle::Open(file) = &mut self.handle {
            if handle::read(file, at, into).is_ok() {
                return Ok(());
            }
        }
        Err(self.counts.fault())
    }

    fn write(&mut self, at: u64, from: &[u8]) -> Result<(), DeviceFault>
        ensures asked { Asked O.opened self.old.wanted (λ old answer new. Written O.File.took O.File.synced old at from.now answer new)
            self.old.handle result self.new.handle }
        ensures wanted { self.new.wanted ≡ self.old.wanted }
        ensures counted { self.new.counts ≡ count_write (count_fault (is_err result) self.old.counts) }
    {
        self.counts.write();
        self.ask();
        if let Handle::Open(file) = &mut self.handle {
            if handle::write(file, at, from).is_ok() {
                return Ok(());
            }
        }
        Err(self.counts.fault())
    }

    fn settle(&mut self) -> Result<(), DeviceFault>
        ensures asked { Asked O.opened self.old.wanted O.File.synced self.old.handle result self.new.handle }
        ensures wanted { self.new.wanted ≡ self.old.wanted }
        ensures counted { self.new.counts ≡ count_other (count_fault (is_err result) self.old.counts) }
    {
        self.counts.other();
        self.ask();
        if let Handle::Open(file) = &mut self.handle {
            if file.sync().is_ok() {
                return Ok(());
            }
        }
        Err(self.counts.fault())
    }

    /// It lends nothing: a file is read.
    fn view(&self, _at: u64, _count: usize) -> Option<&[u8]> {
        None
    }

    fn reads(&self) -> u64 {
        self.counts.reads
    }

    fn writes(&self) -> u64 {
        self.counts.writes
    }

    fn faults(&self) -> u64 {
        self.counts.faults
    }
}
