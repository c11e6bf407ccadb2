//! Keys.
ghost use Rattle.std.specs.Prelude.{◌≡◌, ◌≤◌, ◌%◌, ◌↔◌, ℕ, List, length, take, IsTrue, SomeIff, Some, nat_eq, refl};
ghost use Rattle.std.specs.Ordering.{nat_cmp};
ghost use Rattle.std.specs.Cmp.{partial_equiv_from_equiv};
ghost use Rattle.std.specs.Cmp.Lexicographic.{pointwise, slice_cmp, nat_list_eq_equiv, nat_list_cmp_total, texts_po, texts_ties};
ghost use Rattle.cola_cell.specs.Bytes.{IsKey, Fills, padded};
ghost use Rattle.cola_cell.specs.Format.{KeyFits};

use crate::format::Format;
use crate::short::Short;
use byteorder::{BigEndian, ByteOrder};
use std::cmp::Ordering;
use std::marker::Model;

/// A key: 1 to 40 bytes, any bytes. Keys are ordered as byte strings: the first byte that differs
/// decides, and where there is none the shorter key comes first. A contract sees a key as its list.
#[derive(Clone, Copy, Debug)]
pub struct Key(Short<40>);

impl Model for Key {
    ghost use Rattle.std.specs.Prelude.{ℕ, List};
    ghost use Rattle.cola_cell.specs.Bytes.{IsKey};

    ghost Value = { List ℕ };

    ghost view = { λ k. k.0 };

    ghost invariant = { λ k. IsKey k.0 };

    ghost inverse = { λ v. record { 0 = v } };
}

impl Key {
    /// The key of these bytes. None exactly where there are none, or more than 40.
    #[inline]
    pub fn of(bytes: &[u8]) -> Option<Key>
        ensures { SomeIff result (IsKey bytes.now) bytes.now }
    {
        if bytes.is_empty() || bytes.len() > 40 {
            return None;
        }
        Some(Key(Short::of(bytes)))
    }

    /// The bytes of the key.
    #[inline]
    pub fn bytes(&self) -> &[u8]
        ensures value { result.now ≡ self.now }
        ensures limits { IsKey result.now }
    {
        self.0.bytes()
    }

    /// Whether the key fits the format, by its length.
    #[inline]
    pub fn fits(&self, format: Format) -> bool
        ensures { IsTrue result ↔ KeyFits format self.now }
    {
        self.0.len() <= format.key_limit()
    }

    /// The length of the key, in bytes.
    #[inline(always)]
    pub(crate) fn len(&self) -> usize
        ensures value { result ≡ length self.now }
        ensures limits { IsKey self.now }
    {
        self.0.len()
    }

    /// The key, then zeros to the end of a room of `n` bytes.
    #[inline(always)]
    pub(crate) fn room(&self, n: usize) -> &[u8]
        requires holds { length self.now ≤ n }
        requires fits { n ≤ 40 }
        ensures value { result.now ≡ padded n self.now }
        ensures limits { IsKey self.now }
    {
        self.0.room(n)
    }

    /// The key of `len` bytes that fills `room`.
    #[inline(always)]
    pub(crate) fn of_room(room: &[u8], len: u8) -> Key
        requires filled { Fills room.now len (take len room.now) }
        requires some { 1 ≤ len }
        requires fits { length room.now ≤ 40 }
        ensures { result ≡ take len room.now }
    {
        Key(Short::of_room(room, len))
    }
}

impl PartialEq for Key {
    ghost eq = { pointwise nat_eq };

    ghost laws = { partial_equiv_from_equiv nat_list_eq_equiv };

    fn eq(&self, other: &Key) -> bool {
        self.bytes() == other.bytes()
    }
}

impl Eq for Key {
    ghost laws = { nat_list_eq_equiv };
}

impl PartialOrd for Key {
    ghost partial_cmp = { λ a b. Some (slice_cmp nat_cmp a b) };

    ghost laws = { texts_po };

    fn partial_cmp(&self, other: &Key) -> Option<Ordering> {
        Some(self.cmp(other))
    }
}

impl Ord for Key {
    ghost cmp = { slice_cmp nat_cmp };

    ghost total = { nat_list_cmp_total };

    ghost matches_partial_cmp = { λ a b. refl };

    ghost matches_eq = { texts_ties };

    /// Compares words of 8 bytes, since zeros stand behind both keys; where all are the same, the lengths.
    #[inline]
    fn cmp(&self, other: &Key) -> Ordering {
        let (length, other_length) = (self.len(), other.len());
        let order = words_cmp(self.room(40), other.room(40));
        order.then(length.cmp(&other_length))
    }
}

/// The order of two lists of as many bytes, which are whole words of 8.
#[inline(always)]
pub(crate) fn words_cmp(left: &[u8], right: &[u8]) -> Ordering
    requires words { length left.now % 8 ≡ 0 }
    requires same { length left.now ≡ length right.now }
    ensures { result ≡ slice_cmp nat_cmp left.now right.now }
{
    for word in 0..left.len() / 8 {
        let first = BigEndian::read_u64(&left[8 * word..]);
        let second = BigEndian::read_u64(&right[8 * word..]);
        if first != second {
            return first.cmp(&second);
        }
    }
    Ordering::Equal
}
