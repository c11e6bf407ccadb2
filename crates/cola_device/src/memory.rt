//! A device in memory, whose calls fail where the caller wants them to.
ghost use Rattle.std.specs.Prelude.{◌≡◌, ◌+◌, ◌*◌, ◌||◌, ◌≤◌, [], true, Some, refl, not, length, replicate, is_err, IfOk, OnOk, OnErr};
ghost use Rattle.std.specs.Vec.{vec_capacity};
ghost use Rattle.cola_device.specs.Bytes.{part};
ghost use Rattle.cola_device.specs.Memory.{Settings, settings, unused, next_fails, layout_fails, after_call, after_other, after_layout, after_read, after_write, IsSettle};

use crate::{Counts, Device, DeviceFault, MAX_TRANSFER};
use std::alloc::{AllocError, Global};
use std::marker::Model;

/// What stands in the place of bytes that a failing call was to read, to write or to lay out.
pub const SPOILED: u8 = 0xa5;

/// A device in memory. Its calls of `size`, `lay_out`, `read`, `write` and `settle` have the numbers 1, 2,
/// and so on, and it fails those whose numbers it was given.
#[derive(Drop)]
pub struct MemoryDevice {
    bytes: Vec<u8>,
    room: usize,
    calls: u64,
    failing: Vec<u64>,
    counts: Counts,
}

impl Model for MemoryDevice {
    ghost use Rattle.std.specs.Prelude.{◌+◌, ◌*◌, ◌≤◌};
    ghost use Rattle.std.specs.Vec.{vec_capacity};
    ghost use Rattle.cola_device.specs.Memory.{Memory};

    ghost Value = { Memory };

    ghost view = { λ d. record {
      bytes = d.bytes.items;
      room = d.room;
      calls = d.calls;
      failing = d.failing.items;
      counts = d.counts;
      taken = vec_capacity d.bytes + 8 * vec_capacity d.failing;
    } };

    ghost invariant = { λ d. d.room ≤ vec_capacity d.bytes };
}

/// Fills an empty list with `size` bytes, for which it has room: no memory is taken.
fn fill_up(bytes: &mut Vec<u8>, size: u64, byte: u8)
    requires empty { length bytes.old.items ≡ 0 }
    requires room { size ≤ vec_capacity bytes.old }
    ensures filled { bytes.new.items ≡ replicate size byte }
    ensures taken { vec_capacity bytes.new ≡ vec_capacity bytes.old }
{
    for place in 0..size {
        // Of `insert` it is said that a list with room stays where it is, and of `push` it is not.
        let _ = bytes.insert(place as usize, byte);
    }
}

impl MemoryDevice {
    /// An empty device, which has room for so many bytes. All memory is taken here.
    pub fn new(alloc: Global, room: u64, failing: Vec<u64>) -> Result<MemoryDevice, AllocError>
        ensures { IfOk result (λ device. device ≡ unused [] room failing.items (room + 8 * vec_capacity failing)) }
    {
        let bytes = Vec::with_capacity(alloc, room as usize)?;
        Ok(MemoryDevice {
            bytes,
            room: room as usize,
            calls: 0,
            failing,
            counts: Counts::default(),
        })
    }

    /// A device that holds these bytes, and has room for no more.
    pub fn holding(bytes: Vec<u8>, failing: Vec<u64>) -> MemoryDevice
        ensures { result ≡ unused bytes.items (length bytes.items) failing.items (vec_capacity bytes + 8 * vec_capacity failing) }
    {
        MemoryDevice {
            room: bytes.len(),
            bytes,
            calls: 0,
            failing,
            counts: Counts::default(),
        }
    }

    /// The bytes that it holds.
    pub fn as_bytes(&self) -> &[u8]
        ensures { result.now ≡ self.now.bytes }
    {
        &self.bytes
    }

    /// The bytes that it holds, as they are kept.
    pub fn into_bytes(self) -> Vec<u8>
        ensures { result.items ≡ self.bytes }
    {
        let MemoryDevice { bytes, .. } = self;
        bytes
    }

    /// How many calls of the five were made so far.
    pub fn calls(&self) -> u64
        ensures { result ≡ self.now.calls }
    {
        self.calls
    }

    /// Takes the next call number. The call fails where it is listed or cannot be done.
    fn begin(&mut self, can_be_done: bool) -> Result<(), DeviceFault>
        ensures fails { is_err result ≡ next_fails self.old || not can_be_done }
        ensures after { self.new ≡ after_call (next_fails self.old || not can_be_done) self.old }
    {
        self.calls = self.calls.saturating_add(1);
        if self.failing.contains(&self.calls) || !can_be_done {
            return Err(self.counts.fault());
        }
        Ok(())
    }
}

impl Device for MemoryDevice {
    ghost bytes = { λ d. Some d.bytes };

    ghost tells = { true };

    ghost counts = { λ d. d.counts };

    ghost Kept = { Settings };

    ghost kept = { settings };

    ghost settles = { λ old result new. IsSettle result old new };

    ghost told = { λ _. refl };

    fn size(&mut self) -> Result<u64, DeviceFault>
        ensures fails { is_err result ≡ next_fails self.old }
        ensures value { IfOk result (λ size. size ≡ length self.old.bytes) }
        ensures after { self.new ≡ after_other (next_fails self.old) self.old }
    {
        self.counts.other();
        self.begin(true)?;
        Ok(self.bytes.len() as u64)
    }

    /// As many spoiled bytes as there is room for are there after a fault.
    fn lay_out(&mut self, size: u64) -> Result<(), DeviceFault>
        requires { length self.old.bytes ≡ 0 }
        ensures fails { is_err result ≡ layout_fails size self.old }
        ensures after { self.new ≡ after_layout size self.old }
    {
        self.counts.other();
        let room = self.room as u64;
        match self.begin(size <= room) {
            Ok(()) => {
                fill_up(&mut self.bytes, size, 0);
                Ok(())
            }
            Err(fault) => {
                fill_up(&mut self.bytes, size.min(room), SPOILED);
                Err(fault)
            }
        }
    }

    /// Spoiled bytes are in `into` after a fault.
    fn read(&mut self, at: u64, into: &mut [u8]) -> Result<(), DeviceFault>
        requires block { length into.old ≤ MAX_TRANSFER }
        requires inside { at + length into.old ≤ length self.old.bytes }
        ensures fails { is_err result ≡ next_fails self.old }
        ensures given { OnOk result (into.new ≡ part self.old.bytes at (length into.old)) }
        ensures spoiled { OnErr result (into.new ≡ replicate (length into.old) SPOILED) }
        ensures after { self.new ≡ after_read self.old }
    {
        self.counts.read();
        match self.begin(true) {
            Ok(()) => {
                let at = at as usize;
                into.copy_from_slice(&self.bytes[at..at + into.len()]);
                Ok(())
            }
            Err(fault) => {
                into.fill(SPOILED);
                Err(fault)
            }
        }
    }

    /// Spoiled bytes are in the range after a fault.
    fn write(&mut self, at: u64, from: &[u8]) -> Result<(), DeviceFault>
        requires block { length from.now ≤ MAX_TRANSFER }
        requires inside { at + length from.now ≤ length self.old.bytes }
        ensures fails { is_err result ≡ next_fails self.old }
        ensures after { self.new ≡ after_write at from.now self.old }
    {
        self.counts.write();
        let at = at as usize;
        match self.begin(true) {
            Ok(()) => {
                self.bytes[at..at + from.len()].copy_from_slice(from);
                Ok(())
            }
            Err(fault) => {
                self.bytes[at..at + from.len()].fill(SPOILED);
                Err(fault)
            }
        }
    }

    fn settle(&mut self) -> Result<(), DeviceFault>
        ensures is { IsSettle result self.old self.new }
    {
        // Bytes in memory are always settled.
        self.counts.other();
        self.begin(true)
    }

    /// It lends nothing, so that each read is a call that may fail.
    fn view(&self, _at: u64, _count: usize) -> Option<&[u8]> {
        None
    }

    fn reads(&self) -> u64 {
        self.counts.reads
    }

    fn writes(&self) -> u64 {
        self.counts.writes
    }

    fn faults(&self) -> u64 {
        self.counts.faults
    }
}
