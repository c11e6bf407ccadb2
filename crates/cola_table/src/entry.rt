//! A key with what it has, as it lies in memory.

use cola_cell::{Key, Value};
use std::marker::Model;

/// A key and its value. A contract sees it as an entry of the map, with stamp 0.
#[derive(Clone, Copy, Debug, Drop)]
pub struct Entry {
    key: Key,
    value: Value,
}

impl Model for Entry {
    ghost use Rattle.std.specs.Prelude.{ℕ, List};
    ghost use Rattle.cola_spec.specs.Map.{Stored};

    ghost Value = { List ℕ × Stored };

    ghost view = { λ e. (e.key, record { value = e.value; stamp = 0 }) };

    ghost inverse = { λ v. record { key = v.0; value = v.1.value } };
}

impl Entry {
    ghost use Rattle.std.specs.Prelude.{◌≡◌, ◌≤◌, length};

    /// The entry of a key and a value.
    pub fn new(key: Key, value: Value) -> Entry
        ensures value { result ≡ (key, record { value = value; stamp = 0 }) }
        ensures some { 1 ≤ length result.0 }
    {
        prove!(!key.bytes().is_empty());
        Entry { key, value }
    }

    /// The key.
    pub fn key(&self) -> &Key
        ensures { result.now ≡ self.now.0 }
    {
        &self.key
    }

    /// The value.
    pub fn value(&self) -> &Value
        ensures { result.now ≡ self.now.1.value }
    {
        &self.value
    }
}
