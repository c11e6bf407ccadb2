//! The calls that a log has.

/// A call that changes a store.
#[derive(Clone, Copy, Debug, PartialEq, Eq, Drop)]
pub enum Call<'a> {
    /// A key and its value.
    Put(&'a [u8], &'a [u8]),
    /// A key, the stamp seen, and the value.
    PutIf(&'a [u8], u64, &'a [u8]),
    /// A key that is taken out.
    Delete(&'a [u8]),
}

impl<'a> Call<'a> {
    ghost use Rattle.std.specs.Prelude.{◌≡◌};
    ghost use Rattle.cola_log.specs.Format.{told, kind_of, seen_of, key_of, value_of};

    /// The first byte of its record.
    pub(crate) fn kind(&self) -> u8
        ensures { result ≡ kind_of (told self.now) }
    {
        match self {
            Call::Put(_, _) => 1,
            Call::PutIf(_, _, _) => 2,
            Call::Delete(_) => 3,
        }
    }

    /// The stamp seen, or 0.
    pub(crate) fn seen(&self) -> u64
        ensures { result ≡ seen_of (told self.now) }
    {
        match self {
            Call::PutIf(_, seen, _) => *seen,
            _ => 0,
        }
    }

    pub(crate) fn key(&self) -> &'a [u8]
        ensures { result.now ≡ key_of (told self.now) }
    {
        match self {
            Call::Put(key, _) => key,
            Call::PutIf(key, _, _) => key,
            Call::Delete(key) => key,
        }
    }

    /// The value, or no bytes.
    pub(crate) fn value(&self) -> &'a [u8]
        ensures { result.now ≡ value_of (told self.now) }
    {
        match self {
            Call::Put(_, value) => value,
            Call::PutIf(_, _, value) => value,
            Call::Delete(_) => &[],
        }
    }
}
