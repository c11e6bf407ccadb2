//! Keys, values and bytes that several tests make.
use cola_cell::{Key, Value};
use std::test::Fail;

pub fn key(text: &str) -> Result<Key, Fail> {
    Ok(Key::of(text.as_bytes()).ok_or("no key")?)
}

pub fn value(text: &str) -> Result<Value, Fail> {
    Ok(Value::of(text.as_bytes()).ok_or("no value")?)
}

/// Puts a part at a place, where there is room.
pub fn put_at(bytes: &mut [u8], at: usize, part: &[u8]) {
    if at <= bytes.len() && part.len() <= bytes.len() - at {
        bytes[at..at + part.len()].copy_from_slice(part);
    }
}

/// Sets the byte of a place, where there is one.
pub fn set_byte(bytes: &mut [u8], at: usize, value: u8) {
    if let Some(byte) = bytes.get_mut(at) {
        *byte = value;
    }
}
