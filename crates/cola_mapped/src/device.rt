//! A device over bytes that were lent.
ghost use Rattle.std.specs.Prelude.{◌≡◌, ◌+◌, ◌≤◌, ℕ, true, false, Some, refl, length, is_some, is_err, IfOk, IfSome};
ghost use denote.RawPtr.{Ptr};
ghost use Rattle.cola_device.specs.Bytes.{part};
ghost use Rattle.cola_mapped.specs.Mapped.{IsLent, unused, counts_of, after_other, after_read, after_write, IsSettle};
ghost use Rattle.cola_mapped.specs.Region.{bytes_in};

use crate::lent::Lent;
use crate::region::Region;
use cola_device::{Device, DeviceFault, MAX_TRANSFER};
use std::marker::Model;

/// A device over lent bytes, of which there is at least one: the device has these bytes, as they lie in memory, and no call on
/// it fails. It counts its calls up to the last value of `u64`. That what was written outlasts the program is up to whoever
/// lent the bytes: a settle writes nothing.
#[derive(Drop)]
pub struct MappedDevice {
    lent: Lent,
    reads: u64,
    writes: u64,
    others: u64,
}

impl Model for MappedDevice {
    ghost use Rattle.cola_mapped.specs.Region.{bytes_in};
    ghost use Rattle.cola_mapped.specs.Mapped.{Mapped, IsLent};

    ghost Value = { Mapped };

    ghost view = { λ d. record {
      at = d.lent.at;
      len = d.lent.len;
      bytes = bytes_in d.lent.bytes;
      reads = d.reads;
      writes = d.writes;
      others = d.others;
    } };

    ghost invariant = { λ d. IsLent d.lent.bytes };
}

impl MappedDevice {
    /// A device over these bytes.
    pub fn over(lent: Lent) -> MappedDevice
        requires { IsLent lent.bytes }
        ensures { result ≡ unused lent.at lent.len (bytes_in lent.bytes) }
    {
        MappedDevice {
            lent,
            reads: 0,
            writes: 0,
            others: 0,
        }
    }

    /// The bytes, where they lay.
    pub fn into_region(self) -> Region
        ensures at { result.at ≡ self.at }
        ensures len { result.len ≡ self.len }
        ensures bytes { result.bytes ≡ Some self.bytes }
        ensures lent { IsLent result.bytes }
    {
        let MappedDevice { lent, .. } = self;
        lent.into_region()
    }
}

impl Device for MappedDevice {
    ghost bytes = { λ d. Some d.bytes };

    ghost tells = { true };

    ghost lends = { true };

    ghost counts = { counts_of };

    ghost Kept = { Ptr × ℕ };

    ghost kept = { λ d. (d.at, d.len) };

    ghost settles = { λ old result new. IsSettle result old new };

    ghost told = { λ _. refl };

    fn size(&mut self) -> Result<u64, DeviceFault>
        ensures carried_out { is_err result ≡ false }
        ensures value { IfOk result (λ size. size ≡ length self.old.bytes) }
        ensures after { self.new ≡ after_other self.old }
    {
        self.others = self.others.saturating_add(1);
        Ok(self.lent.size() as u64)
    }

    /// It has bytes, so that it is never asked for.
    fn lay_out(&mut self, _size: u64) -> Result<(), DeviceFault> {
        self.others = self.others.saturating_add(1);
        Ok(())
    }

    fn read(&mut self, at: u64, into: &mut [u8]) -> Result<(), DeviceFault>
        requires block { length into.old ≤ MAX_TRANSFER }
        requires inside { at + length into.old ≤ length self.old.bytes }
        ensures carried_out { is_err result ≡ false }
        ensures given { into.new ≡ part self.old.bytes at (length into.old) }
        ensures after { self.new ≡ after_read self.old }
    {
        self.reads = self.reads.saturating_add(1);
        self.lent.read(at as usize, into);
        Ok(())
    }

    fn write(&mut self, at: u64, from: &[u8]) -> Result<(), DeviceFault>
        requires block { length from.now ≤ MAX_TRANSFER }
        requires inside { at + length from.now ≤ length self.old.bytes }
        ensures carried_out { is_err result ≡ false }
        ensures after { self.new ≡ after_write at from.now self.old }
    {
        self.writes = self.writes.saturating_add(1);
        self.lent.write(at as usize, from);
        Ok(())
    }

    fn settle(&mut self) -> Result<(), DeviceFault>
        ensures is { IsSettle result self.old self.new }
    {
        self.others = self.others.saturating_add(1);
        Ok(())
    }

    /// It lends its bytes as they lie in memory.
    #[inline(always)]
    fn view(&self, at: u64, count: usize) -> Option<&[u8]>
        requires inside { at + count ≤ length self.now.bytes }
        ensures lent { is_some result ≡ true }
        ensures given { IfSome result (λ shown. shown.now ≡ part self.now.bytes at count) }
        ensures size { IfSome result (λ shown. length shown.now ≡ count) }
    {
        Some(self.lent.view(at as usize, count))
    }

    fn reads(&self) -> u64 {
        self.reads
    }

    fn writes(&self) -> u64 {
        self.writes
    }

    fn faults(&self) -> u64 {
        0
    }
}
