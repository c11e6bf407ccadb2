//! Devices in memory.
ghost use Rattle.std.specs.Prelude.{◌≡◌, length};

use cola_device::{Device, MemoryDevice, SPOILED};
use std::process::Abort;
use std::test::Fail;

#[test]
fn refuses_more_than_its_room(rt: HostRuntime) -> Result<(), Fail> {
    let mut device = MemoryDevice::new(rt.alloc(), 63, Vec::new(rt.alloc()))?;
    assert!(rt; device.lay_out(64).is_err() && device.faults() == 1);
    Ok(())
}

#[test]
fn has_room_for_a_large_file(rt: HostRuntime) -> Result<(), Fail> {
    // No clause says that there is memory. A file of 64 MiB is larger than any that a test of a store needs.
    let mut device = MemoryDevice::new(rt.alloc(), 64 << 20, Vec::new(rt.alloc()))?;
    device.lay_out(3)?;
    assert!(rt; device.as_bytes() == [0; 3].as_slice());
    Ok(())
}

// A write and a read that are refused, and a write that is not.
fn spoil(rt: &impl Abort, device: &mut MemoryDevice)
    requires { length device.old.bytes ≡ 6 }
{
    let wrote = device.write(1, b"xyz");
    assert!(rt; device.as_bytes() == [b'a', SPOILED, SPOILED, SPOILED, b'e', b'f'].as_slice());
    let mut into = *b"ef";
    let read = device.read(4, &mut into);
    let again = device.write(2, b"uv");
    assert!(rt; wrote.is_err() && read.is_err() && into == [SPOILED; 2] && again.is_ok());
}

#[test]
fn spoils_only_what_a_failing_call_was_to_write(rt: HostRuntime) -> Result<(), Fail> {
    let failing = vec![in rt.alloc(); 1, 2]?;
    let mut device = MemoryDevice::holding(b"abcdef".to_vec(rt.alloc())?, failing);
    spoil(&rt, &mut device);
    assert!(rt; device.reads() == 1 && device.writes() == 2 && device.faults() == 2);
    assert!(rt;
        device.into_bytes().as_slice() == [b'a', SPOILED, b'u', b'v', b'e', b'f'].as_slice()
    );
    Ok(())
}
