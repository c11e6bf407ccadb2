//! Calls and answers as data, so that many may be made at once.
use cola_cell::Value;
use cola_table::{Put, PutIf};

/// A call of an open store.
#[derive(Clone, Copy, Debug, PartialEq, Eq, Drop)]
pub enum Call<'a> {
    /// [`Kv::put`](crate::Kv::put): a key and its value.
    Put(&'a [u8], &'a [u8]),
    /// [`Kv::put_if`](crate::Kv::put_if): a key, the stamp seen, and the value.
    PutIf(&'a [u8], u64, &'a [u8]),
    /// [`Kv::delete`](crate::Kv::delete).
    Delete(&'a [u8]),
    /// [`Kv::get`](crate::Kv::get).
    Get(&'a [u8]),
    /// [`Kv::stamp`](crate::Kv::stamp).
    Stamp(&'a [u8]),
}

/// What a call was answered.
#[derive(Clone, Copy, Debug, PartialEq, Eq, Drop)]
pub enum Answer {
    /// What an accepted put did.
    Put(Put),
    /// What a put that depends on the stamp seen did.
    PutIf(PutIf),
    /// The value of the key that was taken out, or none.
    Deleted(Option<Value>),
    /// The value of the key, or none.
    Got(Option<Value>),
    /// The stamp of the key, or none.
    Stamped(Option<u64>),
}
