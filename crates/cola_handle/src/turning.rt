//! A place in the order of the keys from its other side.
ghost use Rattle.std.specs.Prelude.{◌≡◌, ◌≤◌, true, false, [], length, reverse, IfOk};
ghost use Rattle.cola_spec.specs.Map.{Map};
ghost use Rattle.cola_handle.specs.Behind.{HasBytes, IsAtRow, IsSetLast, SeekLastSays, behind, bound_of, is_first, pairs_below};
ghost use Rattle.cola_handle.specs.Cursors.{IsGoodRow, ahead, end_at, is_good};

use crate::cursor::{Cursor, Row, padded};
use cola_kv::{Error, Key};
use std::ops::Bound;

impl Cursor {
    /// The place behind the last key below `high`, with that upper end, if `bounded`, and else behind every key. `KeyLength` where
    /// the end has more than 40 bytes.
    pub fn seek_last(high: &[u8], bounded: bool) -> Result<Cursor, Error>
        ensures says { SeekLastSays high.now bounded result }
        ensures behind { (m : Map) → HasBytes m →
            IfOk result (λ cursor. behind m cursor ≡ reverse (pairs_below m (end_at bounded high.now))) }
        ensures none_ahead { (m : Map) → HasBytes m → IfOk result (λ cursor. ahead m cursor ≡ []) }
    {
        if high.len() > 40 {
            return Err(Error::KeyLength);
        }
        Ok(Cursor::at_end(high, bounded))
    }

    /// The place behind the last key below `high`, or behind every key.
    fn at_end(high: &[u8], bounded: bool) -> Cursor
        requires { length high.now ≤ 40 }
        ensures { IsSetLast high.now bounded result }
    {
        let until = padded(high);
        let len = high.len() as u8;
        Cursor {
            from_len: if bounded { len } else { 40 },
            until_len: len,
            behind: !bounded,
            bounded,
            from: if bounded { until } else { [255; 40] },
            until,
        }
    }

    /// Whether it stands before all keys, or no key is below its upper end.
    pub fn is_first(&self) -> bool
        ensures { result ≡ is_first self.now }
    {
        self.from_len == 0 || self.is_void()
    }

    /// The bound of the keys that are behind it: those below its upper end, where that is the lesser, else those up to the key at
    /// which it stands, or below it.
    pub fn bound(&self) -> Bound<Key>
        requires good { is_good self.now ≡ true }
        requires some { is_first self.now ≡ false }
        ensures { result ≡ bound_of self.now }
    {
        let from = self.low();
        match self.high() {
            Some(until) if until <= from => Bound::Excluded(until),
            _ if self.behind => Bound::Included(from),
            _ => Bound::Excluded(from),
        }
    }

    /// Goes before the key of a row.
    pub fn turn_to(&mut self, row: &Row)
        requires { IsGoodRow row.now }
        ensures good { is_good self.old ≡ true → is_good self.new ≡ true }
        ensures is_at { IsAtRow self.old self.new row.now }
    {
        let key = &row.key[..row.key_len as usize];
        self.from_len = row.key_len;
        self.behind = false;
        self.from[..key.len()].copy_from_slice(key);
    }
}
