//! The trait of devices.
ghost use Rattle.std.specs.Prelude.{◌≡◌, ℕ, ◌≤◌, Bool, false, List, Option, Result, length, is_some, IfOk, IfSome, OnOk};
ghost use Rattle.cola_device.specs.declared.counts.Counts.{Counts};
ghost use Rattle.cola_device.specs.declared.device.DeviceFault.{DeviceFault};
ghost use Rattle.cola_device.specs.Bytes.{IsEmpty, HasSize, HasRange, Gives, LaidOut, Wrote};
ghost use Rattle.cola_device.specs.Counts.{Called};

use thiserror::Error;

/// At most so many bytes are read or written at once: the largest block. The law
/// [`crate::laws::largest_transfer`] has the number.
pub const MAX_TRANSFER: usize = 65_536;

/// A device refused a call.
#[derive(Clone, Copy, Debug, PartialEq, Eq, Error)]
#[error("the device failed: try again")]
pub struct DeviceFault;

/// So many bytes, read and written at any place. A device may tell which bytes it holds: what is said of
/// bytes below holds where it does.
pub trait Device {
    /// The bytes that it holds, where it tells them.
    ghost bytes: { Self → Option (List ℕ) };

    /// Whether the devices of this type tell their bytes: all of them do, or none.
    ghost tells: { Bool };

    /// Whether the devices of this type lend their bytes: all of them do, or none.
    ghost lends: { Bool } = { false };

    /// How many faults it met, how many reads and writes it made, and how many calls of `size`, `lay_out` and
    /// `settle`.
    ghost counts: { Self → Counts };

    /// What it has beside its bytes and counts, which no call changes.
    ghost Kept: { Type 0 } = { Unit {0} };

    ghost kept: { Self → Self.Kept };

    /// A settle with this answer took the one to the other. A device over a device says with it that the
    /// one below settled.
    ghost settles: { Self → Result (Unit {0}) DeviceFault → Self → Type 0 };

    /// The number of bytes.
    fn size(&mut self) -> Result<u64, DeviceFault>
        ensures value { IfOk result (HasSize (bytes self.old)) }
        ensures bytes_stay { bytes self.new ≡ bytes self.old }
        ensures kept { kept self.new ≡ kept self.old }
        ensures counts { Called (counts self.old) (counts self.new) 0 0 1 result };

    /// Gives an empty device `size` zero bytes. After a fault it has from none to `size` bytes of any
    /// value.
    fn lay_out(&mut self, size: u64) -> Result<(), DeviceFault>
        requires { IsEmpty (bytes self.old) }
        ensures laid { LaidOut result size (bytes self.old) (bytes self.new) }
        ensures kept { kept self.new ≡ kept self.old }
        ensures counts { Called (counts self.old) (counts self.new) 0 0 1 result };

    /// Fills `into` with the bytes from `at` on. After a fault it may have any bytes.
    fn read(&mut self, at: u64, into: &mut [u8]) -> Result<(), DeviceFault>
        requires block { length into.old ≤ MAX_TRANSFER }
        requires inside { HasRange (bytes self.old) at (length into.old) }
        ensures given { OnOk result (Gives (bytes self.old) at into.new) }
        ensures bytes_stay { bytes self.new ≡ bytes self.old }
        ensures kept { kept self.new ≡ kept self.old }
        ensures counts { Called (counts self.old) (counts self.new) 1 0 0 result };

    /// Puts `from` in the place of the bytes from `at` on. After a fault there may be any bytes in that
    /// range. All others stay.
    fn write(&mut self, at: u64, from: &[u8]) -> Result<(), DeviceFault>
        requires block { length from.now ≤ MAX_TRANSFER }
        requires inside { HasRange (bytes self.old) at (length from.now) }
        ensures wrote { Wrote result at from.now (bytes self.old) (bytes self.new) }
        ensures kept { kept self.new ≡ kept self.old }
        ensures counts { Called (counts self.old) (counts self.new) 0 1 0 result };

    /// Asks that all that was written be finished.
    fn settle(&mut self) -> Result<(), DeviceFault>
        ensures settled { settles self.old result self.new }
        ensures bytes_stay { bytes self.new ≡ bytes self.old }
        ensures kept { kept self.new ≡ kept self.old }
        ensures counts { Called (counts self.old) (counts self.new) 0 0 1 result };

    /// So many bytes from `at` on where they lie: none exactly where it lends none. It is no call that is counted.
    fn view(&self, at: u64, count: usize) -> Option<&[u8]>
        requires inside { HasRange (bytes self.now) at count }
        ensures lent { is_some result ≡ lends }
        ensures given { IfSome result (λ shown. Gives (bytes self.now) at shown.now) }
        ensures size { IfSome result (λ shown. length shown.now ≡ count) };

    /// How many reads it made.
    fn reads(&self) -> u64
        ensures { result ≡ (counts self.now).reads };

    /// How many writes it made.
    fn writes(&self) -> u64
        ensures { result ≡ (counts self.now).writes };

    /// How many faults it met.
    fn faults(&self) -> u64
        ensures { result ≡ (counts self.now).faults };

    ghost told: { (device : Self) → is_some (bytes device) ≡ tells };
}
