//! Values.
ghost use Rattle.std.specs.Prelude.{◌≡◌, ◌≤◌, ◌↔◌, ℕ, List, length, take, IsTrue, SomeIff, nat_eq};
ghost use Rattle.std.specs.Cmp.{partial_equiv_from_equiv};
ghost use Rattle.std.specs.Cmp.Lexicographic.{pointwise, nat_list_eq_equiv};
ghost use Rattle.cola_cell.specs.Bytes.{IsValue, Fills, padded};
ghost use Rattle.cola_cell.specs.Format.{ValueFits};

use crate::format::Format;
use crate::short::Short;
use std::marker::Model;

/// A value: 0 to 72 bytes, any bytes. A contract sees a value as its list.
#[derive(Clone, Copy, Debug)]
pub struct Value(Short<72>);

impl Model for Value {
    ghost use Rattle.std.specs.Prelude.{ℕ, List};
    ghost use Rattle.cola_cell.specs.Bytes.{IsValue};

    ghost Value = { List ℕ };

    ghost view = { λ v. v.0 };

    ghost invariant = { λ v. IsValue v.0 };

    ghost inverse = { λ v. record { 0 = v } };
}

impl Value {
    /// The value of these bytes. None exactly where there are more than 72.
    #[inline]
    pub fn of(bytes: &[u8]) -> Option<Value>
        ensures { SomeIff result (IsValue bytes.now) bytes.now }
    {
        if bytes.len() > 72 {
            return None;
        }
        Some(Value(Short::of(bytes)))
    }

    /// The bytes of the value.
    #[inline]
    pub fn bytes(&self) -> &[u8]
        ensures value { result.now ≡ self.now }
        ensures limit { IsValue result.now }
    {
        self.0.bytes()
    }

    /// Whether the value fits the format, by its length.
    #[inline]
    pub fn fits(&self, format: Format) -> bool
        ensures { IsTrue result ↔ ValueFits format self.now }
    {
        self.0.len() <= format.value_limit()
    }

    /// The length of the value, in bytes.
    #[inline(always)]
    pub(crate) fn len(&self) -> usize
        ensures value { result ≡ length self.now }
        ensures limit { IsValue self.now }
    {
        self.0.len()
    }

    /// The value, then zeros to the end of a room of `n` bytes.
    #[inline(always)]
    pub(crate) fn room(&self, n: usize) -> &[u8]
        requires holds { length self.now ≤ n }
        requires fits { n ≤ 72 }
        ensures { result.now ≡ padded n self.now }
    {
        self.0.room(n)
    }

    /// The value of `len` bytes that fills `room`.
    #[inline(always)]
    pub(crate) fn of_room(room: &[u8], len: u8) -> Value
        requires filled { Fills room.now len (take len room.now) }
        requires fits { length room.now ≤ 72 }
        ensures { result ≡ take len room.now }
    {
        Value(Short::of_room(room, len))
    }
}

impl PartialEq for Value {
    ghost eq = { pointwise nat_eq };

    ghost laws = { partial_equiv_from_equiv nat_list_eq_equiv };

    fn eq(&self, other: &Value) -> bool {
        self.bytes() == other.bytes()
    }
}

impl Eq for Value {
    ghost laws = { nat_list_eq_equiv };
}
