//! A place before the keys that begin with a prefix.
ghost use Rattle.std.specs.Prelude.{◌≡◌, IfOk};
ghost use Rattle.cola_spec.specs.Map.{Map};
ghost use Rattle.cola_kv.specs.Prefix.{KeysAreBytes, pairs_with};
ghost use Rattle.cola_handle.specs.Cursors.{ahead};
ghost use Rattle.cola_handle.specs.Prefixed.{SeekPrefixSays};

use crate::cursor::Cursor;
use cola_kv::{Error, prefix_end};

impl Cursor {
    /// The place before the first of the keys that begin with a prefix, which alone are ahead of it. `KeyLength` where the prefix has
    /// more than 40 bytes.
    pub fn seek_prefix(prefix: &[u8]) -> Result<Cursor, Error>
        ensures says { SeekPrefixSays prefix.now result }
        ensures ahead { (m : Map) → KeysAreBytes m →
            IfOk result (λ cursor. ahead m cursor ≡ pairs_with m prefix.now) }
    {
        if prefix.len() > 40 {
            return Err(Error::KeyLength);
        }
        match prefix_end(prefix) {
            Some(end) => Cursor::seek(prefix, end.bytes(), true),
            None => Cursor::seek(prefix, &[], false),
        }
    }
}
