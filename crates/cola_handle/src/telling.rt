//! What a call answers to C: its number, and what it writes behind the pointers.
ghost use Rattle.std.specs.Prelude.{◌≡◌, ◌≤◌, pos, length};
ghost use Rattle.cola_handle.specs.Numbers.{number, found, made, made_if, was_told, other_told, value_told, length_told, stamp_told};

use crate::answer::Answer;
use cola_kv::{Error, Put, PutIf, Value};

/// Of a put: whether a value was replaced.
pub fn tell_put(put: Result<Put, Error>, was: &mut bool) -> i32
    ensures number { result ≡ pos (number (made put)) }
    ensures was { was.new ≡ was_told put was.old }
{
    match put {
        Ok(Put::New) => {
            *was = false;
            Answer::Done.code()
        }
        Ok(Put::Old(_)) => {
            *was = true;
            Answer::Done.code()
        }
        Err(error) => Answer::of(error).code(),
    }
}

/// Of a put that depends on the stamp seen: the stamp that the key has, where it is another.
pub fn tell_put_if(put: Result<PutIf, Error>, stamp: &mut u64) -> i32
    ensures number { result ≡ pos (number (made_if put)) }
    ensures stamp { stamp.new ≡ other_told put stamp.old }
{
    match put {
        Ok(PutIf::Other(other)) => {
            *stamp = other;
            Answer::Other.code()
        }
        Ok(PutIf::New) => Answer::Done.code(),
        Ok(PutIf::Old(_)) => Answer::Done.code(),
        Err(error) => Answer::of(error).code(),
    }
}

/// Of a get: the value and its length.
pub fn tell_value(value: Result<Option<Value>, Error>, into: &mut [u8], len: &mut usize) -> i32
    requires { 72 ≤ length into.old }
    ensures number { result ≡ pos (number (found value)) }
    ensures value { into.new ≡ value_told value into.old }
    ensures len { len.new ≡ length_told value len.old }
{
    match value {
        Ok(Some(value)) => {
            let bytes = value.bytes();
            into[..bytes.len()].copy_from_slice(bytes);
            *len = bytes.len();
            Answer::Done.code()
        }
        Ok(None) => Answer::Absent.code(),
        Err(error) => Answer::of(error).code(),
    }
}

/// Of a stamp: the stamp.
pub fn tell_stamp(got: Result<Option<u64>, Error>, stamp: &mut u64) -> i32
    ensures number { result ≡ pos (number (found got)) }
    ensures stamp { stamp.new ≡ stamp_told got stamp.old }
{
    match got {
        Ok(Some(given)) => {
            *stamp = given;
            Answer::Done.code()
        }
        Ok(None) => Answer::Absent.code(),
        Err(error) => Answer::of(error).code(),
    }
}

/// Of a delete.
pub fn tell_delete(old: Result<Option<Value>, Error>) -> i32
    ensures { result ≡ pos (number (found old)) }
{
    match old {
        Ok(Some(_)) => Answer::Done.code(),
        Ok(None) => Answer::Absent.code(),
        Err(error) => Answer::of(error).code(),
    }
}
