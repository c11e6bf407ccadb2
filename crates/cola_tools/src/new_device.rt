//! A device over zero bytes that were lent for a new file.
ghost use Rattle.std.specs.Prelude.{◌≡◌, ◌+◌, ◌≤◌, ◌<◌, ℕ, nat_lt, true, false, Some, refl, length, replicate, is_err, is_some, IfOk, OnOk, MatchResult};
ghost use Rattle.cola_device.specs.Bytes.{part, WroteSome};
ghost use Rattle.cola_mapped.specs.Region.{bytes_in};
ghost use Rattle.cola_mapped.specs.Mapped.{IsLent};
ghost use Rattle.cola_tools.specs.New.{IsNew, Place, file_of, unlaid, counts_of, place_of, after_call, after_other, after_layout, after_read, after_write};

use cola_device::{Device, DeviceFault, MAX_TRANSFER};
use cola_mapped::{Lent, Region};
use std::marker::Model;

/// A device over zero bytes that were lent, of which there is at least one: it has no byte until a file is laid out in the first
/// of them. A layout of more bytes than were lent is refused, and then each call is. No other call fails. All bytes behind the
/// file stay zero.
#[derive(Drop)]
pub struct NewDevice {
    lent: Lent,
    size: usize,
    refused: bool,
    faults: u64,
    reads: u64,
    writes: u64,
    others: u64,
}

impl Model for NewDevice {
    ghost use Rattle.cola_mapped.specs.Region.{bytes_in};
    ghost use Rattle.cola_tools.specs.New.{New, IsNew};

    ghost Value = { New };

    ghost view = { λ d. record {
      at = d.lent.at;
      len = d.lent.len;
      bytes = bytes_in d.lent.bytes;
      size = d.size;
      refused = d.refused;
      faults = d.faults;
      reads = d.reads;
      writes = d.writes;
      others = d.others;
    } };

    ghost invariant = { λ d. IsNew (record {
      at = d.lent.at;
      len = d.lent.len;
      bytes = bytes_in d.lent.bytes;
      size = d.size;
      refused = d.refused;
      faults = d.faults;
      reads = d.reads;
      writes = d.writes;
      others = d.others;
    }) };
}

impl NewDevice {
    /// A device over these bytes, which are zero.
    pub fn over(lent: Lent) -> NewDevice
        requires lent { IsLent lent.bytes }
        requires zero { bytes_in lent.bytes ≡ replicate (length (bytes_in lent.bytes)) 0 }
        ensures { result ≡ unlaid lent.at lent.len (bytes_in lent.bytes) }
    {
        NewDevice {
            lent,
            size: 0,
            refused: false,
            faults: 0,
            reads: 0,
            writes: 0,
            others: 0,
        }
    }

    /// The bytes, where they lay.
    pub fn into_region(self) -> Region
        ensures at { result.at ≡ self.at }
        ensures len { result.len ≡ self.len }
        ensures bytes { result.bytes ≡ Some self.bytes }
        ensures sound { IsNew self }
    {
        let NewDevice { lent, .. } = self;
        lent.into_region()
    }

    /// Does nothing: it says what holds of it at any time.
    pub(crate) fn is_sound(&self)
        ensures { IsNew self.now }
    {
        let _ = &self.lent;
    }

    /// Counts a fault where a layout was refused.
    fn begin(&mut self) -> Result<(), DeviceFault>
        ensures fails { is_err result ≡ self.old.refused }
        ensures after { self.new ≡ after_call self.old }
    {
        if self.refused {
            self.faults = self.faults.saturating_add(1);
            return Err(DeviceFault);
        }
        Ok(())
    }
}

impl Device for NewDevice {
    ghost bytes = { λ d. Some (file_of d) };

    ghost tells = { true };

    ghost counts = { counts_of };

    ghost Kept = { Place };

    ghost kept = { place_of };

    ghost settles = { λ old _ new. new ≡ after_other old };

    ghost told = { λ _. refl };

    fn size(&mut self) -> Result<u64, DeviceFault>
        ensures fails { is_err result ≡ self.old.refused }
        ensures value { IfOk result (λ size. size ≡ length (file_of self.old)) }
        ensures after { self.new ≡ after_other self.old }
    {
        self.others = self.others.saturating_add(1);
        match self.begin() {
            Ok(()) => Ok(self.size as u64),
            Err(fault) => Err(fault),
        }
    }

    /// Refused where fewer bytes were lent.
    fn lay_out(&mut self, size: u64) -> Result<(), DeviceFault>
        requires { length (file_of self.old) ≡ 0 }
        ensures fails { is_err result ≡ nat_lt (length self.old.bytes) size }
        ensures laid { MatchResult result (λ _. file_of self.new ≡ replicate size 0) (λ _. length (file_of self.new) ≤ size) }
        ensures after { self.new ≡ after_layout size self.old }
    {
        self.others = self.others.saturating_add(1);
        if size > self.lent.size() as u64 {
            self.refused = true;
            self.faults = self.faults.saturating_add(1);
            return Err(DeviceFault);
        }
        self.size = size as usize;
        Ok(())
    }

    fn read(&mut self, at: u64, into: &mut [u8]) -> Result<(), DeviceFault>
        requires block { length into.old ≤ MAX_TRANSFER }
        requires inside { at + length into.old ≤ length (file_of self.old) }
        ensures fails { is_err result ≡ self.old.refused }
        ensures given { OnOk result (into.new ≡ part (file_of self.old) at (length into.new)) }
        ensures after { self.new ≡ after_read self.old }
    {
        self.reads = self.reads.saturating_add(1);
        match self.begin() {
            Ok(()) => {
                self.lent.read(at as usize, into);
                Ok(())
            }
            Err(fault) => Err(fault),
        }
    }

    fn write(&mut self, at: u64, from: &[u8]) -> Result<(), DeviceFault>
        requires block { length from.now ≤ MAX_TRANSFER }
        requires inside { at + length from.now ≤ length (file_of self.old) }
        ensures fails { is_err result ≡ self.old.refused }
        ensures wrote { WroteSome result at from.now (file_of self.old) (file_of self.new) }
        ensures after { self.new ≡ after_write at from.now self.old }
    {
        self.writes = self.writes.saturating_add(1);
        match self.begin() {
            Ok(()) => {
                self.lent.write(at as usize, from);
                Ok(())
            }
            Err(fault) => Err(fault),
        }
    }

    fn settle(&mut self) -> Result<(), DeviceFault>
        ensures fails { is_err result ≡ self.old.refused }
        ensures after { self.new ≡ after_other self.old }
    {
        self.others = self.others.saturating_add(1);
        self.begin()
    }

    /// It lends nothing.
    fn view(&self, _at: u64, _count: usize) -> Option<&[u8]> {
        None
    }

    fn reads(&self) -> u64 {
        self.reads
    }

    fn writes(&self) -> u64 {
        self.writes
    }

    fn faults(&self) -> u64 {
        self.faults
    }
}
