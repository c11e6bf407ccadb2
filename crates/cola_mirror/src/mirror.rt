//! A device over two devices that hold the same bytes.
ghost use Rattle.std.specs.Prelude.{◌≡◌, ◌≤◌, length, IfOk, OnOk, OnErr};
ghost use Rattle.cola_device.specs.Bytes.{IsEmpty, HasSize, HasRange, Gives, LaidOut, Wrote};
ghost use Rattle.cola_device.specs.Counts.{Called};
ghost use Rattle.cola_mirror.specs.Mirror.{bytes_of, settings, IsSound, EachFailed, LostFailed, IsSize, IsRead, IsLayout, IsWrite, IsSettling};
ghost use Rattle.cola_mirror.specs.Device.{new_pair};

use crate::calls::{counted, lay_out_where, read_where, settle_where, size_where, write_where};
use crate::sides::Sides;
use cola_device::{Counts, Device, DeviceFault, MAX_TRANSFER};
use std::marker::Model;

/// A device over two devices, its sides, which hold the same bytes: it goes on while one of them works.
#[derive(Drop)]
pub struct Mirror<D: Device, E: Device> {
    first: D,
    second: E,
    sides: Sides,
    counts: Counts,
    /// How many faults each side had met as the mirror was made.
    first_faults: u64,
    second_faults: u64,
}

impl<D: Device, E: Device> Model for Mirror<D, E> {
    ghost use Rattle.cola_mirror.specs.Mirror.{Pair, IsSound};

    ghost Value = { Pair D E };

    ghost view = { λ m. record {
      first = m.first;
      second = m.second;
      sides = m.sides;
      counts = m.counts;
      first_faults = m.first_faults;
      second_faults = m.second_faults;
    } };

    ghost invariant = { λ m. IsSound D.Device E.Device (record {
      first = m.first;
      second = m.second;
      sides = m.sides;
      counts = m.counts;
      first_faults = m.first_faults;
      second_faults = m.second_faults;
    }) };
}

impl<D: Device, E: Device> Mirror<D, E> {
    /// A mirror over two devices, of which both or neither tell their bytes, and these are the same. Both sides are in
    /// use, and no call is counted yet.
    pub fn new(first: D, second: E) -> Mirror<D, E>
        requires { D.bytes first ≡ E.bytes second }
        ensures { result ≡ new_pair D.Device E.Device first second }
    {
        let first_faults = first.faults();
        let second_faults = second.faults();
        Mirror {
            first,
            second,
            sides: Sides::Both,
            counts: Counts::default(),
            first_faults,
            second_faults,
        }
    }

    /// The sides that are in use.
    pub fn sides(&self) -> Sides
        ensures sides { result ≡ self.now.sides }
        ensures sound { IsSound D.Device E.Device self.now }
    {
        self.sides
    }

    /// Both devices, the lost one too.
    pub fn into_parts(self) -> (D, E)
        ensures first { result.0 ≡ self.first }
        ensures second { result.1 ≡ self.second }
        ensures sound { IsSound D.Device E.Device self }
    {
        let Mirror { first, second, .. } = self;
        (first, second)
    }
}

impl<D: Device, E: Device> Device for Mirror<D, E> {
    ghost use Rattle.cola_mirror.specs.Device.{mirror_device};
    ghost use Rattle.cola_mirror.specs.Told.{is_some-where};

    ghost bytes = { (mirror_device D.Device E.Device).bytes };

    ghost tells = { (mirror_device D.Device E.Device).tells };

    ghost counts = { (mirror_device D.Device E.Device).counts };

    ghost Kept = { (mirror_device D.Device E.Device).Kept };

    ghost kept = { (mirror_device D.Device E.Device).kept };

    ghost settles = { (mirror_device D.Device E.Device).settles };

    ghost told = { λ m. is_some-where D.tells E.tells m.sides (D.bytes m.first) (E.bytes m.second) (D.told m.first) (E.told m.second) };

    /// The first side in use is asked, and the other one in use only where that failed. No side is lost.
    fn size(&mut self) -> Result<u64, DeviceFault>
        ensures value { IfOk result (HasSize (bytes_of D.Device E.Device self.old)) }
        ensures bytes_stay { bytes_of D.Device E.Device self.new
            ≡ bytes_of D.Device E.Device self.old }
        ensures kept { settings D.Device E.Device self.new ≡ settings D.Device E.Device self.old }
        ensures counts { Called self.old.counts self.new.counts 0 0 1 result }
        ensures is { IsSize D.Device E.Device self.old result self.new }
        ensures refused { OnErr result (EachFailed D.Device E.Device self.old self.new) }
        ensures sides_stay { self.new.sides ≡ self.old.sides }
    {
        self.counts.other();
        let first = size_where(&mut self.first, self.sides.has_first());
        let called = self.sides.asks_second(first.is_err());
        let second = size_where(&mut self.second, called);
        counted(&mut self.counts, first.or(second))
    }

    /// Each side in use is laid out, the first one first. Of two the one that failed is lost, and where both failed the
    /// second is.
    fn lay_out(&mut self, size: u64) -> Result<(), DeviceFault>
        requires { IsEmpty (bytes_of D.Device E.Device self.old) }
        ensures laid { LaidOut result size (bytes_of D.Device E.Device self.old)
            (bytes_of D.Device E.Device self.new) }
        ensures kept { settings D.Device E.Device self.new ≡ settings D.Device E.Device self.old }
        ensures counts { Called self.old.counts self.new.counts 0 0 1 result }
        ensures is { IsLayout D.Device E.Device size self.old result self.new }
        ensures refused { OnErr result (EachFailed D.Device E.Device self.old self.new) }
        ensures lost { LostFailed D.Device E.Device self.old self.new }
    {
        self.counts.other();
        let first = lay_out_where(&mut self.first, self.sides.has_first(), size);
        let second = lay_out_where(&mut self.second, self.sides.has_second(), size);
        self.sides = self.sides.after_change(first.is_err(), second.is_err());
        counted(&mut self.counts, first.or(second))
    }

    /// The first side in use is read, and the other one in use only where that failed. No side is lost.
    fn read(&mut self, at: u64, into: &mut [u8]) -> Result<(), DeviceFault>
        requires block { length into.old ≤ MAX_TRANSFER }
        requires inside { HasRange (bytes_of D.Device E.Device self.old) at (length into.old) }
        ensures given { OnOk result (Gives (bytes_of D.Device E.Device self.old) at into.new) }
        ensures bytes_stay { bytes_of D.Device E.Device self.new
            ≡ bytes_of D.Device E.Device self.old }
        ensures kept { settings D.Device E.Device self.new ≡ settings D.Device E.Device self.old }
        ensures counts { Called self.old.counts self.new.counts 1 0 0 result }
        ensures is { IsRead D.Device E.Device at into.new self.old result self.new }
        ensures refused { OnErr result (EachFailed D.Device E.Device self.old self.new) }
        ensures sides_stay { self.new.sides ≡ self.old.sides }
    {
        self.counts.read();
        let first = read_where(&mut self.first, self.sides.has_first(), at, into);
        let called = self.sides.asks_second(first.is_err());
        let second = read_where(&mut self.second, called, at, into);
        counted(&mut self.counts, first.or(second))
    }

    /// Each side in use is written, the first one first. Of two the one that failed is lost, and where both failed the
    /// second is.
    fn write(&mut self, at: u64, from: &[u8]) -> Result<(), DeviceFault>
        requires block { length from.now ≤ MAX_TRANSFER }
        requires inside { HasRange (bytes_of D.Device E.Device self.old) at (length from.now) }
        ensures wrote { Wrote result at from.now (bytes_of D.Device E.Device self.old)
            (bytes_of D.Device E.Device self.new) }
        ensures kept { settings D.Device E.Device self.new ≡ settings D.Device E.Device self.old }
        ensures counts { Called self.old.counts self.new.counts 0 1 0 result }
        ensures is { IsWrite D.Device E.Device at from.now self.old result self.new }
        ensures refused { OnErr result (EachFailed D.Device E.Device self.old self.new) }
        ensures lost { LostFailed D.Device E.Device self.old self.new }
    {
        self.counts.write();
        let first = write_where(&mut self.first, self.sides.has_first(), at, from);
        let second = write_where(&mut self.second, self.sides.has_second(), at, from);
        self.sides = self.sides.after_change(first.is_err(), second.is_err());
        counted(&mut self.counts, first.or(second))
    }

    /// Each side in use settles, the first one first. Of two the one that failed is lost, and where both failed none is.
    fn settle(&mut self) -> Result<(), DeviceFault>
        ensures settled { IsSettling D.Device E.Device self.old result self.new }
        ensures bytes_stay { bytes_of D.Device E.Device self.new
            ≡ bytes_of D.Device E.Device self.old }
        ensures kept { settings D.Device E.Device self.new ≡ settings D.Device E.Device self.old }
        ensures counts { Called self.old.counts self.new.counts 0 0 1 result }
        ensures refused { OnErr result (EachFailed D.Device E.Device self.old self.new) }
        ensures lost { LostFailed D.Device E.Device self.old self.new }
    {
        self.counts.other();
        let first = settle_where(&mut self.first, self.sides.has_first());
        let second = settle_where(&mut self.second, self.sides.has_second());
        self.sides = self.sides.after_settle(first.is_err(), second.is_err());
        counted(&mut self.counts, first.or(second))
    }

    /// It lends nothing: a read may go to either side.
    fn view(&self, _at: u64, _count: usize) -> Option<&[u8]> {
        None
    }

    fn reads(&self) -> u64 {
        self.counts.reads
    }

    fn writes(&self) -> u64 {
        self.counts.writes
    }

    fn faults(&self) -> u64 {
        self.counts.faults
    }
}
