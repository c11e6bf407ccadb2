//! The calls of an open store with the number of ticks that each made, on a ledger of the caller's.
ghost use Rattle.std.specs.Prelude.{◌≡◌, ◌+◌, ◌≤◌, true, false, IfOk, MatchResult};
ghost use Rattle.cola_cell.specs.Format.{KeyFits, ValueFits};
ghost use Rattle.cola_spec.specs.Bounds.{get_bound, put_bound};
ghost use Rattle.cola_spec.specs.Map.{is_key, is_value};
ghost use Rattle.cola_kv.specs.declared.error.Error.TheVariants.{KeyLength, ValueLength};
ghost use Rattle.cola_kv.specs.Kv.{shape_of, levels_of, geometry_of};
ghost use Rattle.cola_kv.specs.Calls.{Gets, Stamps, Deletes, Puts, PutsIf, unticked};

use crate::error::Error;
use crate::kv::Kv;
use cola_cell::{Key, Value};
use cola_device::Device;
use cola_outside::Steps;
use cola_table::{Put, PutIf, Table};
use std::sync::ledger::Ledger;

impl<D: Device> Kv<D> {
    /// The key of these bytes, where one of the store's may have them.
    pub(crate) fn key_of(&self, bytes: &[u8]) -> Result<Key, Error>
        ensures value { IfOk result (λ key. key ≡ bytes.now) }
        ensures fits { IfOk result (λ key. KeyFits (geometry_of self.now).format key) }
        ensures exact { MatchResult result (λ key. is_key (shape_of self.now) key ≡ true)
            (λ error. (error ≡ KeyLength) × (is_key (shape_of self.now) bytes.now ≡ false)) }
    {
        match Key::of(bytes) {
            Some(key) if key.fits(self.store.format()) => Ok(key),
            _ => Err(Error::KeyLength),
        }
    }

    /// The value of these bytes, where one of the store's may have them.
    fn value_of(&self, bytes: &[u8]) -> Result<Value, Error>
        ensures value { IfOk result (λ value. value ≡ bytes.now) }
        ensures fits { IfOk result (λ value. ValueFits (geometry_of self.now).format value) }
        ensures exact { MatchResult result (λ value. is_value (shape_of self.now) value ≡ true)
            (λ error. (error ≡ ValueLength) × (is_value (shape_of self.now) bytes.now ≡ false)) }
    {
        match Value::of(bytes) {
            Some(value) if value.fits(self.store.format()) => Ok(value),
            _ => Err(Error::ValueLength),
        }
    }

    /// [`Kv::get`], with its number of ticks: at most 8 for each level.
    pub fn get_counted<L: Ledger>(
        &mut self,
        key: &[u8],
        steps: &mut Steps<L>,
    ) -> Result<(Option<Value>, u32), Error>
        ensures gets { Gets D.Device self.old self.new key.now (unticked result) }
        ensures counted { IfOk result (λ answer. steps.new ≡ steps.old + answer.1) }
        ensures told { IfOk result (λ answer. self.new.ticks ≡ answer.1) }
        ensures no_fewer { steps.old ≤ steps.new }
        ensures within { steps.new ≤ steps.old + get_bound (levels_of self.old) }
    {
        let key = self.key_of(key)?;
        let answer = self.store.get(&key, steps)?;
        self.ticks = answer.1;
        Ok(answer)
    }

    /// [`Kv::stamp`], with its number of ticks: at most 8 for each level.
    pub fn stamp_counted<L: Ledger>(
        &mut self,
        key: &[u8],
        steps: &mut Steps<L>,
    ) -> Result<(Option<u64>, u32), Error>
        ensures stamps { Stamps D.Device self.old self.new key.now (unticked result) }
        ensures counted { IfOk result (λ answer. steps.new ≡ steps.old + answer.1) }
        ensures told { IfOk result (λ answer. self.new.ticks ≡ answer.1) }
        ensures no_fewer { steps.old ≤ steps.new }
        ensures within { steps.new ≤ steps.old + get_bound (levels_of self.old) }
    {
        let key = self.key_of(key)?;
        let answer = self.store.stamp(&key, steps)?;
        self.ticks = answer.1;
        Ok(answer)
    }

    /// [`Kv::delete`], with its number of ticks: at most 40 for each level.
    pub fn delete_counted<L: Ledger>(
        &mut self,
        key: &[u8],
        steps: &mut Steps<L>,
    ) -> Result<(Option<Value>, u32), Error>
        ensures deletes { Deletes D.Device self.old self.new key.now (unticked result) }
        ensures counted { IfOk result (λ answer. steps.new ≡ steps.old + answer.1) }
        ensures told { IfOk result (λ answer. self.new.ticks ≡ answer.1) }
        ensures no_fewer { steps.old ≤ steps.new }
        ensures within { steps.new ≤ steps.old + put_bound (levels_of self.old) }
    {
        let key = self.key_of(key)?;
        let answer = self.store.delete(&key, steps)?;
        self.ticks = answer.1;
        Ok(answer)
    }

    /// [`Kv::put`], with its number of ticks: at most 40 for each level.
    pub fn put_counted<L: Ledger>(
        &mut self,
        key: &[u8],
        value: &[u8],
        steps: &mut Steps<L>,
    ) -> Result<(Put, u32), Error>
        ensures puts { Puts D.Device self.old self.new key.now value.now (unticked result) }
        ensures counted { IfOk result (λ answer. steps.new ≡ steps.old + answer.1) }
        ensures told { IfOk result (λ answer. self.new.ticks ≡ answer.1) }
        ensures no_fewer { steps.old ≤ steps.new }
        ensures within { steps.new ≤ steps.old + put_bound (levels_of self.old) }
    {
        let key = self.key_of(key)?;
        let value = self.value_of(value)?;
        let answer = self.store.put(&key, &value, steps)?;
        self.ticks = answer.1;
        Ok(answer)
    }

    /// [`Kv::put_if`], with its number of ticks: at most 40 for each level.
    pub fn put_if_counted<L: Ledger>(
        &mut self,
        key: &[u8],
        seen: u64,
        value: &[u8],
        steps: &mut Steps<L>,
    ) -> Result<(PutIf, u32), Error>
        ensures puts { PutsIf D.Device self.old self.new key.now seen value.now (unticked result) }
        ensures counted { IfOk result (λ answer. steps.new ≡ steps.old + answer.1) }
        ensures told { IfOk result (λ answer. self.new.ticks ≡ answer.1) }
        ensures no_fewer { steps.old ≤ steps.new }
        ensures within { steps.new ≤ steps.old + put_bound (levels_of self.old) }
    {
        let key = self.key_of(key)?;
        let value = self.value_of(value)?;
        let answer = self.store.put_if(&key, seen, &value, steps)?;
        self.ticks = answer.1;
        Ok(answer)
    }
}
