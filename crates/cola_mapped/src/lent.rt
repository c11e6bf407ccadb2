//! The bytes of a region that were lent.
ghost use Rattle.std.specs.Prelude.{◌≡◌, ◌+◌, ◌≤◌, ℕ, List, Option, length};
ghost use Rattle.cola_device.specs.Bytes.{part};

use crate::region::Region;
use std::marker::Model;

/// What a region owned, lent to a device: its bytes can be read through a `&`. A region, which C holds, cannot be.
#[derive(Drop)]
pub struct Lent {
    pub at: *mut u8,
    pub len: usize,
    pub ghost bytes: { Option (List ℕ) },
}

impl Model for Lent {
    ghost use Rattle.cola_mapped.specs.Region.{region_at, region_lent};

    ghost also_owns = { λ r. region_at r.at r.len r.bytes };

    ghost also_shares = { λ r _ κ. region_lent r.at r.len r.bytes κ };
}

impl Lent {
    ghost use Rattle.std.specs.Prelude.{◌≡◌, ◌+◌, ◌≤◌, Some, length, IsSome};
    ghost use Rattle.std.specs.Borrow.{sem};
    ghost use Rattle.cola_device.specs.Bytes.{part, splice};
    ghost use Rattle.cola_mapped.specs.Region.{bytes_in};
    ghost use Rattle.cola_mapped.specs.Lending.{LendsBytes};

    /// What a region owns.
    pub fn of(region: Region) -> Lent
        ensures at { result.at ≡ region.at }
        ensures len { result.len ≡ region.len }
        ensures bytes { result.bytes ≡ region.bytes }
    {
        let Region { at, len, .. } = region;
        Lent { at, len }
    }

    /// The region that was lent.
    pub fn into_region(self) -> Region
        ensures at { result.at ≡ self.at }
        ensures len { result.len ≡ self.len }
        ensures bytes { result.bytes ≡ self.bytes }
    {
        let Lent { at, len, .. } = self;
        Region { at, len }
    }

    /// Its bytes.
    pub fn bytes(&mut self) -> &mut [u8]
        requires { IsSome self.old.bytes }
        ensures* writes_back { sem 𝓛 (LendsBytes self.entry result) }
        ensures value { self.old.bytes ≡ Some result.now }
    {
        unsafe { std::slice::from_raw_parts_mut(self.at, self.len) }
    }

    /// Its bytes, to be read.
    #[inline(always)]
    pub fn shown(&self) -> &[u8]
        requires { IsSome self.now.bytes }
        ensures value { self.now.bytes ≡ Some result.now }
    {
        unsafe { std::slice::from_raw_parts(self.at, self.len) }
    }

    /// So many of its bytes from a place on, to be read where they lie.
    #[inline(always)]
    pub fn view(&self, at: usize, count: usize) -> &[u8]
        requires some { IsSome self.now.bytes }
        requires inside { at + count ≤ length (bytes_in self.now.bytes) }
        ensures given { result.now ≡ part (bytes_in self.now.bytes) at count }
        ensures size { length result.now ≡ count }
    {
        &self.shown()[at..at + count]
    }

    /// How many bytes it has.
    pub fn size(&self) -> usize
        requires { IsSome self.now.bytes }
        ensures value { result ≡ length (bytes_in self.now.bytes) }
    {
        self.shown().len()
    }

    /// A copy of its bytes from a place on.
    pub fn read(&self, at: usize, into: &mut [u8])
        requires some { IsSome self.now.bytes }
        requires inside { at + length into.old ≤ length (bytes_in self.now.bytes) }
        ensures given { into.new ≡ part (bytes_in self.now.bytes) at (length into.old) }
    {
        into.copy_from_slice(self.view(at, into.len()));
    }

    /// Puts bytes in the place of those from a place on.
    pub fn write(&mut self, at: usize, from: &[u8])
        requires some { IsSome self.old.bytes }
        requires inside { at + length from.now ≤ length (bytes_in self.old.bytes) }
        ensures wrote { self.new.bytes ≡ Some (splice (bytes_in self.old.bytes) at from.now) }
        ensures at { self.new.at ≡ self.old.at }
        ensures len { self.new.len ≡ self.old.len }
    {
        let bytes = self.bytes();
        bytes[at..at + from.len()].copy_from_slice(from);
    }
}
