//! A call of one side of a mirror, where that side is called.
ghost use Rattle.std.specs.Prelude.{◌≡◌, ◌≤◌, true, false, length, is_err};
ghost use Rattle.cola_device.specs.Bytes.{IsEmpty, HasRange};
ghost use Rattle.cola_device.specs.Counts.{count_fault};
ghost use Rattle.cola_mirror.specs.Mirror.{AsksSize, Reads, LaysOut, Writes, Settles, IfCalled};

use cola_device::{Counts, Device, DeviceFault, MAX_TRANSFER};

/// Counts a fault where a call was refused.
pub(crate) fn counted<T>(
    counts: &mut Counts,
    answer: Result<T, DeviceFault>,
) -> Result<T, DeviceFault>
    ensures answer { result ≡ answer }
    ensures counts { counts.new ≡ count_fault (is_err answer) counts.old }
{
    match answer {
        Ok(value) => Ok(value),
        Err(_) => Err(counts.fault()),
    }
}

/// Asks a side for its size, where it is called.
pub(crate) fn size_where<D: Device>(side: &mut D, called: bool) -> Result<u64, DeviceFault>
    ensures { IfCalled called (AsksSize D.Device) side.old result side.new }
{
    if called {
        return side.size();
    }
    Err(DeviceFault)
}

/// Reads a side, where it is called.
pub(crate) fn read_where<D: Device>(
    side: &mut D,
    called: bool,
    at: u64,
    into: &mut [u8],
) -> Result<(), DeviceFault>
    requires block { length into.old ≤ MAX_TRANSFER }
    requires inside { called ≡ true → HasRange (D.bytes side.old) at (length into.old) }
    ensures called { IfCalled called (Reads D.Device at into.new) side.old result side.new }
    ensures stays { called ≡ false → into.new ≡ into.old }
{
    if called {
        return side.read(at, into);
    }
    Err(DeviceFault)
}

/// Lays out a side, where it is called.
pub(crate) fn lay_out_where<D: Device>(
    side: &mut D,
    called: bool,
    size: u64,
) -> Result<(), DeviceFault>
    requires { called ≡ true → IsEmpty (D.bytes side.old) }
    ensures { IfCalled called (LaysOut D.Device size) side.old result side.new }
{
    if called {
        return side.lay_out(size);
    }
    Err(DeviceFault)
}

/// Writes a side, where it is called.
pub(crate) fn write_where<D: Device>(
    side: &mut D,
    called: bool,
    at: u64,
    from: &[u8],
) -> Result<(), DeviceFault>
    requires block { length from.now ≤ MAX_TRANSFER }
    requires inside { called ≡ true → HasRange (D.bytes side.old) at (length from.now) }
    ensures { IfCalled called (Writes D.Device at from.now) side.old result side.new }
{
    if called {
        return side.write(at, from);
    }
    Err(DeviceFault)
}

/// Settles a side, where it is called.
pub(crate) fn settle_where<D: Device>(side: &mut D, called: bool) -> Result<(), DeviceFault>
    ensures { IfCalled called (Settles D.Device) side.old result side.new }
{
    if called {
        return side.settle();
    }
    Err(DeviceFault)
}
