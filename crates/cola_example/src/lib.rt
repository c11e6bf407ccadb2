//! How a store is used: one function that makes a store, writes to it, closes it, opens it again and reads, with what its
//! caller knows afterwards.
#![tactic(auto)]

ghost use Rattle.std.specs.Prelude.{◌≡◌, ℕ, List, length, IfOk, IsSomeAnd, None};
ghost use Rattle.cola_spec.specs.Map.{Map, pairs_between};
ghost use Rattle.cola_kv.specs.Kv.{Holds};
ghost use Rattle.cola_kv.specs.Opened.{StandsFor};
ghost use Rattle.cola_example.specs.Example.{first_of, Reads, Writes, IsNewWithPut};

mod callers;

pub use callers::found_in_store;
use cola_device::Device;
use cola_kv::{Error, Key, Kv, Options, Value, create};
use std::alloc::Global;

/// The first pair from a key on.
fn first_pair<D: Device>(kv: &mut Kv<D>, low: &[u8]) -> Result<Option<(Key, Value)>, Error>
    ensures stays { (m : Map) → Holds D.Device kv.old m → Holds D.Device kv.new m }
    ensures first { (m : Map) → Holds D.Device kv.old m →
        IfOk result (λ pair. pair ≡ first_of (pairs_between m low.now None)) }
{
    let mut range = kv.range(low, None)?;
    range.try_next()
}

/// Closes a store. An engine would try again what the device refused, by `close` of what is owed.
fn closed<D: Device + Drop>(kv: Kv<D>) -> Result<D, Error>
    ensures { (m : Map) → Holds D.Device kv m →
        IfOk result (λ device. StandsFor D.Device device m) }
{
    match kv.close() {
        Ok(device) => Ok(device),
        Err(_owed) => Err(Error::Device),
    }
}

/// Opens the store of a device's file, behind a cache of 64 blocks. An engine would keep the device that a refusal gives back.
fn opened<D: Device + Drop>(alloc: Global, device: D) -> Result<Kv<D>, Error>
    ensures { (m : Map) → StandsFor D.Device device m → IfOk result (λ kv. Holds D.Device kv m) }
{
    match Kv::open(alloc, device, 64) {
        Ok(kv) => Ok(kv),
        Err((_device, error)) => Err(error),
    }
}

/// Opens the store of a device's file, reads the first pair from a key on, and closes it: the device and the pair. An error is
/// that of the first call that was refused.
pub fn read_first<D: Device + Drop>(
    alloc: Global,
    device: D,
    low: &[u8],
) -> Result<(D, Option<(Key, Value)>), Error>
    ensures { (m : Map) → StandsFor D.Device device m →
        IfOk result (λ done. Reads (D.bytes done.0) m low.now done.1) }
{
    let mut kv = opened(alloc, device)?;
    let pair = first_pair(&mut kv, low)?;
    Ok((closed(kv)?, pair))
}

/// Opens the store of a device's file, gives a key a value, reads the first pair from the key on, and closes the store.
pub fn write_one<D: Device + Drop>(
    alloc: Global,
    device: D,
    key: &[u8],
    value: &[u8],
) -> Result<(D, Option<(Key, Value)>), Error>
    ensures { (m : Map) → StandsFor D.Device device m →
        IfOk result (λ done. Writes (D.bytes done.0) m key.now value.now done.1) }
{
    let mut kv = opened(alloc, device)?;
    kv.put(key, value)?;
    let pair = first_pair(&mut kv, key)?;
    Ok((closed(kv)?, pair))
}

/// Makes a store for 100 keys on an empty device, gives one key a value, reads, closes the store, opens it again and reads
/// again: the device, and the first pair from the key on of both readings.
pub fn round_trip<D: Device + Drop>(
    alloc: Global,
    device: D,
    key: &[u8],
    value: &[u8],
) -> Result<(D, Option<(Key, Value)>, Option<(Key, Value)>), Error>
    // on a device that tells that it is empty, both readings answer the map with the put, and the file stands for it
    ensures { IsSomeAnd (D.bytes device) (λ bytes. length bytes ≡ 0) →
        IfOk result (λ done. IsNewWithPut (D.bytes done.0) key.now value.now done.1 done.2) }
{
    let mut device = device;
    create(&mut device, &Options::new(100))?;
    let (device, before) = write_one(alloc, device, key, value)?;
    let (device, after) = read_first(alloc, device, key)?;
    Ok((device, before, after))
}
