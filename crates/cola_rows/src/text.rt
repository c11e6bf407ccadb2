//! Bytes as text and text as bytes.
use crate::fault::Fault;
use std::alloc::{AllocError, Global};

/// The value of a hexadecimal digit.
fn digit(byte: u8) -> Option<u8> {
    match byte {
        b'0'..=b'9' => Some(byte - b'0'),
        b'a'..=b'f' => Some(byte - b'a' + 10),
        b'A'..=b'F' => Some(byte - b'A' + 10),
        _ => None,
    }
}

/// The byte of two hexadecimal digits.
fn byte_of(high: u8, low: u8) -> Option<u8> {
    let high = digit(high)?;
    let low = digit(low)?;
    Some((high << 4) | low)
}

/// Where the reading of escapes stands.
#[derive(Drop)]
enum Seen {
    Plain,
    Backslash,
    Hex,
    High(u8),
}

/// Adds the bytes of a text with escapes: `\xNN` is a byte, `\\` a backslash.
pub(crate) fn push_unescaped(into: &mut Vec<u8>, text: &str) -> Result<(), Fault> {
    let mut seen = Seen::Plain;
    for byte in text.as_bytes() {
        let byte = *byte;
        seen = match seen {
            Seen::Plain => {
                if byte == b'\\' {
                    Seen::Backslash
                } else {
                    into.push(byte)?;
                    Seen::Plain
                }
            }
            Seen::Backslash => match byte {
                b'x' => Seen::Hex,
                b'\\' => {
                    into.push(byte)?;
                    Seen::Plain
                }
                _ => return Err(Fault::Row("no such escape")),
            },
            Seen::Hex => Seen::High(byte),
            Seen::High(high) => {
                let Some(value) = byte_of(high, byte) else {
                    return Err(Fault::Row("an escape has no two digits"));
                };
                into.push(value)?;
                Seen::Plain
            }
        };
    }
    match seen {
        Seen::Plain => Ok(()),
        _ => Err(Fault::Row("an escape has no end")),
    }
}

/// The bytes of groups of pairs of hexadecimal digits.
pub(crate) fn hex_bytes(alloc: Global, text: &str) -> Result<Vec<u8>, Fault> {
    let mut bytes = Vec::new(alloc);
    let mut before = None;
    for byte in text.as_bytes() {
        let byte = *byte;
        if byte == b' ' {
            continue;
        }
        before = match before {
            None => Some(byte),
            Some(high) => {
                let Some(value) = byte_of(high, byte) else {
                    return Err(Fault::Row("no hexadecimal digits"));
                };
                bytes.push(value)?;
                None
            }
        };
    }
    match before {
        None => Ok(bytes),
        Some(_) => Err(Fault::Row("an odd number of hexadecimal digits")),
    }
}

/// Adds bytes as text with escapes, of which every byte that is no printable sign of ASCII is one.
pub(crate) fn push_escaped(into: &mut String, bytes: &[u8]) -> Result<(), AllocError> {
    for byte in bytes {
        let byte = *byte;
        match byte {
            b'\\' => into.push_str("\\\\")?,
            b' '..=b'~' => into.push(char::from(byte))?,
            _ => write!(into, "\\x{byte:02x}")?,
        }
    }
    Ok(())
}
