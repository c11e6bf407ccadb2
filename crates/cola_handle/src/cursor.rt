//! A place in the order of the keys, and rows, as C holds them.
ghost use Rattle.std.specs.Prelude.{◌≡◌, ◌≤◌, true, false, IfOk, length, take};
ghost use Rattle.cola_spec.specs.Map.{Map, pairs_between};
ghost use Rattle.cola_handle.specs.Cursors.{row_pair, IsGoodRow, from_of, end_at, end_of, is_good, is_void, was_given, first_key, ahead, SeekSays, IsBehind};

use cola_kv::{Error, Key, Value};

/// A key with its value, as C has it: the first bytes of each list, as many as its length says.
#[repr(C)]
#[derive(Clone, Copy, Drop)]
pub struct Row {
    pub key_len: u8,
    pub value_len: u8,
    pub key: [u8; 40],
    pub value: [u8; 72],
}

impl Row {
    /// The row of a pair.
    pub fn set(&mut self, key: &Key, value: &Value)
        ensures pair { row_pair self.new ≡ (key.now, value.now) }
        ensures good { IsGoodRow self.new }
    {
        let key = key.bytes();
        let value = value.bytes();
        self.key_len = key.len() as u8;
        self.key[..key.len()].copy_from_slice(key);
        self.value_len = value.len() as u8;
        self.value[..value.len()].copy_from_slice(value);
    }
}

/// These bytes, then zeros.
pub(crate) fn padded(bytes: &[u8]) -> [u8; 40]
    requires { length bytes.now ≤ 40 }
    ensures { take (length bytes.now) result ≡ bytes.now }
{
    let mut room = [0; 40];
    room[..bytes.len()].copy_from_slice(bytes);
    room
}

/// A place in the order of the keys, and an upper end.
#[repr(C)]
#[derive(Clone, Copy, Drop)]
pub struct Cursor {
    pub(crate) from_len: u8,
    pub(crate) until_len: u8,
    pub(crate) behind: bool,
    pub(crate) bounded: bool,
    pub(crate) from: [u8; 40],
    pub(crate) until: [u8; 40],
}

impl Cursor {
    /// The place before the first key from `low` on, with the upper end `high`, if `bounded`. `KeyLength` where an end has
    /// more than 40 bytes.
    pub fn seek(low: &[u8], high: &[u8], bounded: bool) -> Result<Cursor, Error>
        ensures says { SeekSays low.now high.now bounded result }
        ensures ahead { (m : Map) →
            IfOk result (λ cursor. ahead m cursor ≡ pairs_between m low.now
            (end_at bounded high.now)) }
    {
        if low.len() > 40 || high.len() > 40 {
            return Err(Error::KeyLength);
        }
        Ok(Cursor {
            from_len: low.len() as u8,
            until_len: high.len() as u8,
            behind: false,
            bounded,
            from: padded(low),
            until: padded(high),
        })
    }

    /// Whether its lengths are within its lists.
    pub fn is_good(&self) -> bool
        ensures { result ≡ is_good self.now }
    {
        self.from_len <= 40 && self.until_len <= 40
    }

    /// The least key that may be ahead: the one at which it stands, and the least of all where it stands before all keys.
    pub fn low(&self) -> Key
        requires { is_good self.now ≡ true }
        ensures { result ≡ first_key (from_of self.now) }
    {
        let from: &[u8] = if self.from_len == 0 {
            &[0]
        } else {
            &self.from[..self.from_len as usize]
        };
        match Key::of(from) {
            Some(key) => key,
            None => unreachable!(),
        }
    }

    /// Whether no key is below its upper end.
    pub fn is_void(&self) -> bool
        ensures { result ≡ is_void self.now }
    {
        self.bounded && self.until_len == 0
    }

    /// The upper end, if it has one.
    pub fn high(&self) -> Option<Key>
        requires good { is_good self.now ≡ true }
        requires some { is_void self.now ≡ false }
        ensures { result ≡ end_of self.now }
    {
        if !self.bounded {
            return None;
        }
        Key::of(&self.until[..self.until_len as usize])
    }

    /// Whether the key was given already.
    pub fn has_given(&self, key: &Key) -> bool
        requires { is_good self.now ≡ true }
        ensures { result ≡ was_given self.now key.now }
    {
        self.behind && key.bytes() == &self.from[..self.from_len as usize]
    }

    /// Goes behind the key of a row.
    pub fn pass(&mut self, row: &Row)
        requires { IsGoodRow row.now }
        ensures good { is_good self.old ≡ true → is_good self.new ≡ true }
        ensures is_behind { IsBehind self.old self.new row.now }
    {
        let key = &row.key[..row.key_len as usize];
        self.from_len = row.key_len;
        self.behind = true;
        self.from[..key.len()].copy_from_slice(key);
    }
}
