//! A device over bytes that are only read.
ghost use Rattle.std.specs.Prelude.{◌≡◌, ◌+◌, ◌≤◌, ◌<◌, List, ℕ, true, false, Some, refl, length, is_err, is_some, IfOk, IfSome, OnOk};
ghost use Rattle.cola_device.specs.Bytes.{part};
ghost use Rattle.cola_tools.specs.Shown.{unread, counts_of, after_other, after_read, after_write};

use cola_device::{Device, DeviceFault, MAX_TRANSFER};
use std::marker::Model;

/// A device over bytes that somebody else has and lends to be read, of which there is at least one. It refuses each write, and
/// no other call. It counts its calls up to the last value of `u64`.
#[derive(Drop)]
pub struct Shown<'a> {
    bytes: &'a [u8],
    reads: u64,
    writes: u64,
    others: u64,
}

impl<'a> Model for Shown<'a> {
    ghost use Rattle.std.specs.Prelude.{length, ◌<◌};
    ghost use Rattle.cola_tools.specs.Shown.{Showing};

    ghost Value = { Showing };

    ghost view = { λ d. record {
      bytes = d.bytes.now;
      reads = d.reads;
      writes = d.writes;
      others = d.others;
    } };

    ghost invariant = { λ d. 0 < length d.bytes.now };
}

impl<'a> Shown<'a> {
    /// A device over these bytes.
    pub fn over(bytes: &'a [u8]) -> Shown<'a>
        requires { 0 < length bytes.now }
        ensures { result ≡ unread bytes.now }
    {
        Shown {
            bytes,
            reads: 0,
            writes: 0,
            others: 0,
        }
    }
}

impl<'a> Device for Shown<'a> {
    ghost bytes = { λ d. Some d.bytes };

    ghost tells = { true };

    ghost lends = { true };

    ghost counts = { counts_of };

    ghost Kept = { List ℕ };

    ghost kept = { λ d. d.bytes };

    ghost settles = { λ old _ new. new ≡ after_other old };

    ghost told = { λ _. refl };

    fn size(&mut self) -> Result<u64, DeviceFault>
        ensures carried_out { is_err result ≡ false }
        ensures value { IfOk result (λ size. size ≡ length self.old.bytes) }
        ensures after { self.new ≡ after_other self.old }
    {
        self.others = self.others.saturating_add(1);
        Ok(self.bytes.len() as u64)
    }

    /// It has bytes, so that it is never asked for.
    fn lay_out(&mut self, _size: u64) -> Result<(), DeviceFault> {
        self.others = self.others.saturating_add(1);
        Ok(())
    }

    fn read(&mut self, at: u64, into: &mut [u8]) -> Result<(), DeviceFault>
        requires block { length into.old ≤ MAX_TRANSFER }
        requires inside { at + length into.old ≤ length self.old.bytes }
        ensures carried_out { is_err result ≡ false }
        ensures given { OnOk result (into.new ≡ part self.old.bytes at (length into.new)) }
        ensures after { self.new ≡ after_read self.old }
    {
        self.reads = self.reads.saturating_add(1);
        let at = at as usize;
        into.copy_from_slice(&self.bytes[at..at + into.len()]);
        Ok(())
    }

    /// Refused: nothing is written.
    fn write(&mut self, at: u64, from: &[u8]) -> Result<(), DeviceFault>
        requires block { length from.now ≤ MAX_TRANSFER }
        requires inside { at + length from.now ≤ length self.old.bytes }
        ensures refused { is_err result ≡ true }
        ensures after { self.new ≡ after_write self.old }
    {
        self.writes = self.writes.saturating_add(1);
        Err(DeviceFault)
    }

    fn settle(&mut self) -> Result<(), DeviceFault>
        ensures carried_out { is_err result ≡ false }
        ensures after { self.new ≡ after_other self.old }
    {
        self.others = self.others.saturating_add(1);
        Ok(())
    }

    /// It lends its bytes where they lie.
    #[inline(always)]
    fn view(&self, at: u64, count: usize) -> Option<&[u8]>
        requires inside { at + count ≤ length self.now.bytes }
        ensures lent { is_some result ≡ true }
        ensures given { IfSome result (λ shown. shown.now ≡ part self.now.bytes at count) }
        ensures size { IfSome result (λ shown. length shown.now ≡ count) }
    {
        let at = at as usize;
        Some(&self.bytes[at..at + count])
    }

    fn reads(&self) -> u64 {
        self.reads
    }

    fn writes(&self) -> u64 {
        self.writes
    }

    fn faults(&self) -> u64 {
        self.writes
    }
}
