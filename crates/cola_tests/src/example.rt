//! The example over a device in memory.
use cola_cell::{Key, Value};
use cola_device::MemoryDevice;
use cola_example::round_trip;
use cola_kv::Error;
use std::process::Abort;
use std::test::Fail;

/// The pair that is put.
fn pair() -> Option<(Key, Value)> {
    Some((Key::of(b"k")?, Value::of(b"v")?))
}

#[test]
fn a_pair_is_read_before_and_after(rt: HostRuntime) -> Result<(), Fail> {
    let alloc = rt.alloc();
    let device = MemoryDevice::new(alloc, 65536, Vec::new(alloc))?;
    let answered = match round_trip(alloc, device, b"k", b"v") {
        Ok((device, before, after)) => {
            before.is_some()
                && before == pair()
                && before == after
                && device.as_bytes().len() == 32768
        }
        Err(_) => false,
    };
    assert!(rt; answered);
    Ok(())
}

#[test]
fn a_refusal_has_its_cause(rt: HostRuntime) -> Result<(), Fail> {
    let alloc = rt.alloc();
    let device = MemoryDevice::new(alloc, 65536, Vec::new(alloc))?;
    let refused = match round_trip(alloc, device, b"", b"v") {
        Ok(_) => false,
        Err(error) => error == Error::KeyLength,
    };
    assert!(rt; refused);
    Ok(())
}
