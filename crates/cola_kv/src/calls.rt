//! The calls of an open store. Each begins a ledger of its own, so that its caller carries none.
ghost use Rattle.std.specs.Prelude.{◌≡◌, ◌<◌};
ghost use Rattle.cola_kv.specs.Calls.{Gets, Stamps, Deletes, Puts, PutsIf};

use crate::error::Error;
use crate::kv::Kv;
use cola_cell::Value;
use cola_device::Device;
use cola_outside::Steps;
use cola_table::{Put, PutIf};
use std::marker::Brand;
use std::sync::ledger::{Blank, Ledger};

/// A get on a ledger that the blank opens.
fn get_on<D: Device, L: Ledger>(
    blank: Blank,
    kv: &mut Kv<D>,
    key: &[u8],
) -> Result<Option<Value>, Error>
    requires name { blank.name ≡ L.name }
    requires parts { blank.parts ≡ L.parts }
    requires some { 0 < L.parts }
    ensures { Gets D.Device kv.old kv.new key.now result }
{
    let mut steps = Steps::<L>::begin(blank);
    let (value, _ticks) = kv.get_counted(key, &mut steps)?;
    Ok(value)
}

/// A stamp on a ledger that the blank opens.
fn stamp_on<D: Device, L: Ledger>(
    blank: Blank,
    kv: &mut Kv<D>,
    key: &[u8],
) -> Result<Option<u64>, Error>
    requires name { blank.name ≡ L.name }
    requires parts { blank.parts ≡ L.parts }
    requires some { 0 < L.parts }
    ensures { Stamps D.Device kv.old kv.new key.now result }
{
    let mut steps = Steps::<L>::begin(blank);
    let (stamp, _ticks) = kv.stamp_counted(key, &mut steps)?;
    Ok(stamp)
}

/// A delete on a ledger that the blank opens.
fn delete_on<D: Device, L: Ledger>(
    blank: Blank,
    kv: &mut Kv<D>,
    key: &[u8],
) -> Result<Option<Value>, Error>
    requires name { blank.name ≡ L.name }
    requires parts { blank.parts ≡ L.parts }
    requires some { 0 < L.parts }
    ensures { Deletes D.Device kv.old kv.new key.now result }
{
    let mut steps = Steps::<L>::begin(blank);
    let (value, _ticks) = kv.delete_counted(key, &mut steps)?;
    Ok(value)
}

/// A put on a ledger that the blank opens.
fn put_on<D: Device, L: Ledger>(
    blank: Blank,
    kv: &mut Kv<D>,
    key: &[u8],
    value: &[u8],
) -> Result<Put, Error>
    requires name { blank.name ≡ L.name }
    requires parts { blank.parts ≡ L.parts }
    requires some { 0 < L.parts }
    ensures { Puts D.Device kv.old kv.new key.now value.now result }
{
    let mut steps = Steps::<L>::begin(blank);
    let (put, _ticks) = kv.put_counted(key, value, &mut steps)?;
    Ok(put)
}

/// A put that depends on the stamp seen, on a ledger that the blank opens.
fn put_if_on<D: Device, L: Ledger>(
    blank: Blank,
    kv: &mut Kv<D>,
    key: &[u8],
    seen: u64,
    value: &[u8],
) -> Result<PutIf, Error>
    requires name { blank.name ≡ L.name }
    requires parts { blank.parts ≡ L.parts }
    requires some { 0 < L.parts }
    ensures { PutsIf D.Device kv.old kv.new key.now seen value.now result }
{
    let mut steps = Steps::<L>::begin(blank);
    let (put, _ticks) = kv.put_if_counted(key, seen, value, &mut steps)?;
    Ok(put)
}

impl<D: Device> Kv<D> {
    /// The value of a key. `KeyLength` where it has no bytes or more than the format has room for, `Device` where the device
    /// refused a call, `BadCell` on a damaged file.
    pub fn get(&mut self, key: &[u8]) -> Result<Option<Value>, Error>
        ensures { Gets D.Device self.old self.new key.now result }
    {
        get_on::<D, Brand>(Blank::new(1), self, key)
    }

    /// The stamp of a key: the number of the put that gave its value, and 0 in version 1. It costs as much as a get, and is
    /// refused for the same reasons.
    pub fn stamp(&mut self, key: &[u8]) -> Result<Option<u64>, Error>
        ensures { Stamps D.Device self.old self.new key.now result }
    {
        stamp_on::<D, Brand>(Blank::new(1), self, key)
    }

    /// Takes a key out, and answers the value that it had. It is refused as a get is, and with `Overfull` on a damaged file.
    pub fn delete(&mut self, key: &[u8]) -> Result<Option<Value>, Error>
        ensures { Deletes D.Device self.old self.new key.now result }
    {
        delete_on::<D, Brand>(Blank::new(1), self, key)
    }

    /// Gives a key a value. `KeyLength`, then `ValueLength`; `Full` where a new key meets the limit, then `Worn` where no
    /// stamp is left; `Device` where the device refused a call; `BadCell` and `Overfull` on a damaged file.
    pub fn put(&mut self, key: &[u8], value: &[u8]) -> Result<Put, Error>
        ensures { Puts D.Device self.old self.new key.now value.now result }
    {
        put_on::<D, Brand>(Blank::new(1), self, key, value)
    }

    /// A put that is made only where the key has the stamp seen, 0 where it is absent. That is tried before `Full` and `Worn`.
    /// In version 1 each stamp is 0.
    pub fn put_if(&mut self, key: &[u8], seen: u64, value: &[u8]) -> Result<PutIf, Error>
        ensures { PutsIf D.Device self.old self.new key.now seen value.now result }
    {
        put_if_on::<D, Brand>(Blank::new(1), self, key, seen, value)
    }
}
