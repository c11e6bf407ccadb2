//! The keys that begin with a prefix, as a range of an open store.
ghost use Rattle.std.specs.Prelude.{◌≡◌, ◌<◌, ◌≤◌, ◌↔◌, ◌&&◌, ◌++◌, ℕ, List, length, true, false, All, IfOk};
ghost use Rattle.std.specs.Borrow.{sem, RestsIfErr};
ghost use Rattle.cola_spec.specs.Map.{is_before, is_from};
ghost use Rattle.cola_kv.specs.contracts.kv.Kv.{the_row};
ghost use Rattle.cola_kv.specs.Prefix.{BeginsPrefix, begins_with, first_from, prefix_end};
ghost use Rattle.cola_kv.specs.Ranged.{walked};

use crate::error::Error;
use crate::kv::Kv;
use crate::range::{Range, range_on};
use cola_cell::Key;
use cola_cursor::Cursor;
use cola_device::Device;
use std::marker::Brand;
use std::sync::ledger::{Blank, Ledger};

/// What begins with a prefix is the prefix and what follows it. Strings of bytes do exactly where they lie from the prefix on and
/// below its end, where it has one.
pub fn prefixes_are_intervals()
    ensures begins { (prefix key : List ℕ) → (begins_with prefix key ≡ true) ↔ ((rest : List ℕ) × (key ≡ prefix ++ rest)) }
    ensures interval { (prefix key : List ℕ) → All (λ byte. byte < 256) key →
        begins_with prefix key ≡ (is_from prefix key && is_before (prefix_end prefix) key) }
{}

/// The least key above all that begin with a prefix; none where all keys from the prefix on do: where each byte of it is 255,
/// or none is there.
pub fn prefix_end(prefix: &[u8]) -> Option<Key>
    requires { length prefix.now ≤ 40 }
    ensures { result ≡ prefix_end prefix.now }
{
    let mut len = prefix.len();
    while len > 0 && prefix[len - 1] == 255 {
        len -= 1;
    }
    if len == 0 {
        return None;
    }
    let mut end = [0; 40];
    end[..len].copy_from_slice(&prefix[..len]);
    end[len - 1] = prefix[len - 1] + 1;
    Key::of(&end[..len])
}

/// The least key from a prefix on.
fn first_from(prefix: &[u8]) -> &[u8]
    ensures { result.now ≡ first_from prefix.now }
{
    if prefix.is_empty() {
        return &[0];
    }
    prefix
}

/// Begins a range over the keys that begin with a prefix on a ledger that the blank opens.
fn prefix_on<D: Device, L: Ledger>(
    blank: Blank,
    kv: &mut Kv<D>,
    prefix: &[u8],
) -> Result<Cursor, Error>
    requires name { blank.name ≡ L.name }
    requires parts { blank.parts ≡ L.parts }
    requires some { 0 < L.parts }
    ensures { BeginsPrefix D.Device kv.old kv.new prefix.now result }
{
    if prefix.len() > 40 {
        return Err(Error::KeyLength);
    }
    let low = first_from(prefix);
    match prefix_end(prefix) {
        Some(end) => range_on::<D, L>(blank, kv, low, Some(end.bytes())),
        None => range_on::<D, L>(blank, kv, low, None),
    }
}

impl<D: Device> Kv<D> {
    /// The pairs whose keys begin with a prefix, by rising keys; all pairs where it is empty. `KeyLength` where it is longer than
    /// the store's keys may be; else it is refused as a range is, and goes on as one.
    pub fn prefix<'a>(&'a mut self, prefix: &[u8]) -> Result<Range<'a, D>, Error>
        ensures* refused { sem 𝓛 (RestsIfErr (the_row D.row D.Device) self.entry (λ range. range.kv.ghost_name) result
            (λ last. BeginsPrefix D.Device self.old last prefix.now (walked (λ range. range.walk) result))) }
        ensures same_reference { IfOk result (λ range. range.kv.ghost_name ≡ self.entry.ghost_name) }
        ensures goes_on { IfOk result (λ range. range.ended ≡ false) }
        ensures begins { IfOk result (λ range. BeginsPrefix D.Device self.old range.kv.now prefix.now
            (walked (λ range. range.walk) result)) }
    {
        let walk = prefix_on::<D, Brand>(Blank::new(1), self, prefix)?;
        Ok(Range {
            kv: self,
            walk,
            ended: false,
        })
    }
}
