//! Blocks behind a cache, and the buffers over them: worked rows and refusals.
ghost use Rattle.std.specs.Prelude.{◌≡◌, ◌<◌, ◌≤◌, length, IfOk};

use cola_cache::{Buffers, Cached};
use cola_device::{Device, DeviceFault, MemoryDevice};
use std::alloc::{AllocError, Global};
use std::process::Abort;
use std::test::Fail;

/// Reads one block of 2,048 bytes, once the size tells that it is there.
fn read_block<D: Device>(device: &mut D, block: u64, into: &mut [u8]) -> Result<(), DeviceFault> {
    if device.size()? < 8192 {
        return Err(DeviceFault);
    }
    if block > 3 {
        return Err(DeviceFault);
    }
    if into.len() != 2048 {
        return Err(DeviceFault);
    }
    device.read(2048 * block, into)
}

/// Writes one byte into block 2, once the size tells that it is there.
fn write_one_byte<D: Device>(device: &mut D, byte: u8) -> Result<(), DeviceFault> {
    if device.size()? < 8192 {
        return Err(DeviceFault);
    }
    device.write(4100, &[byte])
}

/// A cache over a device of 8,192 bytes, laid out, which refuses these of its calls.
fn cache(alloc: Global, failing: Vec<u64>, blocks: u32) -> Result<Cached<MemoryDevice>, Fail>
    requires { blocks ≤ 4096 }
{
    let mut device = MemoryDevice::new(alloc, 8192, failing)?;
    device.lay_out(8192)?;
    let cached = Cached::new(alloc, device, blocks, 5);
    Ok(cached.ok().ok_or("no memory")?)
}

// Block 2 is read below once, has the byte that is written, and is given up by a write that is refused.
fn read_write_and_lose<D: Device>(
    rt: &impl Abort,
    cached: &mut Cached<D>,
    block: &mut [u8],
) -> Result<(), Fail> {
    read_block(cached, 2, block)?;
    read_block(cached, 2, block)?;
    write_one_byte(cached, b'x')?;
    read_block(cached, 2, block)?;
    assert!(rt; cached.reads() == 1 && block.get(4).copied() == Some(b'x'));
    assert!(rt; write_one_byte(cached, b'y').is_err() && !cached.holds(2));
    Ok(())
}

#[test]
fn a_held_block_is_read_once_renewed_and_given_up(rt: HostRuntime) -> Result<(), Fail> {
    let mut block = vec![in rt.alloc(); 1u8; 2048]?;
    let mut cached = cache(rt.alloc(), vec![in rt.alloc(); 9]?, 1)?;
    read_write_and_lose(&rt, &mut cached, &mut block)
}

// Each refusal of the device is the cache's, and a refused read holds nothing.
fn pass_cache_refusals_on<D: Device>(
    rt: &impl Abort,
    cached: &mut Cached<D>,
    block: &mut [u8],
) -> Result<(), Fail> {
    read_block(cached, 0, block)?;
    let read = read_block(cached, 1, block);
    assert!(rt; read.is_err() && cached.holds(0) && !cached.holds(1));
    let size = cached.size();
    let settled = cached.settle();
    assert!(rt; size.is_err() && settled.is_err());
    assert!(rt; cached.reads() == 2 && cached.faults() == 3);
    Ok(())
}

#[test]
fn a_refusal_of_the_cache_is_that_of_the_device(rt: HostRuntime) -> Result<(), Fail> {
    let mut block = vec![in rt.alloc(); 1u8; 2048]?;
    let mut cached = cache(rt.alloc(), vec![in rt.alloc(); 5, 6, 7]?, 2)?;
    pass_cache_refusals_on(&rt, &mut cached, &mut block)
}

// With no blocks every call is the device's.
fn pass_all_on(
    rt: &impl Abort,
    cached: &mut Cached<MemoryDevice>,
    block: &mut [u8],
) -> Result<(), Fail> {
    read_block(cached, 2, block)?;
    read_block(cached, 2, block)?;
    assert!(rt; cached.inner().calls() == 5 && !cached.holds(2));
    Ok(())
}

#[test]
fn with_no_blocks_every_call_passes_through(rt: HostRuntime) -> Result<(), Fail> {
    let mut block = vec![in rt.alloc(); 1u8; 2048]?;
    let mut cached = cache(rt.alloc(), Vec::new(rt.alloc()), 0)?;
    pass_all_on(&rt, &mut cached, &mut block)
}

/// The byte at a place of block 0, by way of a buffer.
fn byte_of_first<D: Device>(blocks: &mut Buffers<D>, at: usize) -> Result<u8, DeviceFault>
    requires many { 0 < blocks.old.many }
    requires lasts { 0 < length blocks.old.lasts }
    ensures many { blocks.new.many ≡ blocks.old.many }
    ensures size { blocks.new.cache.size ≡ blocks.old.cache.size }
    ensures lasts { length blocks.new.lasts ≡ length blocks.old.lasts }
{
    match blocks.turn_to(0, 0) {
        Ok(()) => Ok(blocks.copy(0).get(at).copied().unwrap_or(0)),
        Err(fault) => Err(fault),
    }
}

// One byte of block 0 is written and settled, and all else stays; then each of these is refused.
fn write_one<D: Device>(rt: &impl Abort, blocks: &mut Buffers<D>) -> Result<(), Fail>
    requires many { blocks.old.many ≡ 7 }
    requires size { blocks.old.cache.size ≡ 512 }
    requires lasts { length blocks.old.lasts ≡ 3 }
{
    blocks.write_byte(14, 1)?;
    blocks.settle()?;
    let before = byte_of_first(blocks, 13)?;
    let written = byte_of_first(blocks, 14)?;
    assert!(rt; before == 7 && written == 1 && blocks.reads() == 1);
    let wrote = blocks.write_byte(14, 2);
    let settled = blocks.settle();
    let read = byte_of_first(blocks, 13);
    assert!(rt; wrote.is_err() && settled.is_err() && read.is_err());
    assert!(rt; blocks.faults() == 3 && blocks.reads() == 2);
    assert!(rt; blocks.block_size() == 512 && blocks.many() == 7);
    Ok(())
}

#[test]
fn a_byte_is_written_and_settled(rt: HostRuntime) -> Result<(), Fail> {
    let failing = vec![in rt.alloc(); 4, 5, 6]?;
    let mut blocks = seven(rt.alloc(), 0, failing)?;
    write_one(&rt, &mut blocks)?;
    assert!(rt; blocks.into_device().calls() == 6);
    Ok(())
}

/// Seven blocks of 512 bytes of the value 7 behind a cache of so many, and three buffers, on a device that refuses these of
/// its calls.
fn seven(alloc: Global, cache: u32, failing: Vec<u64>) -> Result<Buffers<MemoryDevice>, AllocError>
    requires { cache ≤ 4096 }
    ensures many { IfOk result (λ made. made.many ≡ 7) }
    ensures size { IfOk result (λ made. made.cache.size ≡ 512) }
    ensures lasts { IfOk result (λ made. length made.lasts ≡ 3) }
{
    let bytes = vec![in alloc; 7u8; 3584]?;
    match Buffers::new(alloc, MemoryDevice::holding(bytes, failing), cache, 3, 7, 3) {
        Ok(made) => Ok(made),
        Err((_, error)) => Err(error),
    }
}
