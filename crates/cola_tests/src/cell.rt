//! Cells and their bytes in both formats, bytes that spell none, the limits of keys, and messages.
use crate::made::{key, put_at, set_byte, value};
use cola_cell::{
    Cell, Format, Item, Key, PushFault, ReadFault, StepFault, Value, decode, decode_wide, encode,
    encode_wide,
};
use std::test::Fail;

const VALUE: &[u8] = &[0, 0, 3, 1, 0, 0, 0, 0];

const TOMBSTONE: &[u8] = &[1, 1, 1, 0, 8, 0, 0, 0];

const LOOK: &[u8] = &[2, 0, 3, 0, 0, 0, 0, 0];

/// The head of a spelling, its key and its value, and bytes that each break one line of the format's table: two numbers
/// for each, a place and what is put there.
type Near = (&'static [u8], &'static [u8], &'static [u8], &'static [u8]);

const NARROW: [Near; 3] = [
    (
        VALUE,
        b"k03",
        b"3",
        &[
            0, 1, 0, 2, 0, 3, 0, 128, 1, 2, 1, 255, 2, 0, 2, 2, 2, 25, 2, 131, 3, 0, 3, 33, 3, 129,
            11, 1, 31, 1, 31, 128, 33, 1, 63, 1, 63, 128,
        ],
    ),
    (TOMBSTONE, b"a", b"", &[1, 3, 3, 1, 9, 1, 32, 1, 63, 64]),
    (LOOK, b"k09", b"", &[1, 1, 3, 1, 11, 16, 32, 1, 63, 1]),
];

const WIDE: [Near; 3] = [
    (
        VALUE,
        b"k03",
        b"3",
        &[2, 41, 3, 73, 15, 129, 19, 1, 55, 1, 57, 1, 127, 1, 127, 128],
    ),
    (TOMBSTONE, b"a", b"", &[8, 1, 15, 128, 3, 1]),
    (LOOK, b"k09", b"", &[8, 1, 1, 1, 3, 1]),
];

// 64 bytes by their parts.
fn narrow(head: &[u8], key: &[u8], value: &[u8]) -> [u8; 64] {
    let mut bytes = [0u8; 64];
    put_at(&mut bytes, 0, head);
    put_at(&mut bytes, 8, key);
    put_at(&mut bytes, 32, value);
    bytes
}

// 128 bytes by their parts.
fn wide(head: &[u8], key: &[u8], value: &[u8]) -> [u8; 128] {
    let mut bytes = [0u8; 128];
    put_at(&mut bytes, 0, head);
    put_at(&mut bytes, 16, key);
    put_at(&mut bytes, 56, value);
    bytes
}

// How many of these changes of a spelling spell a cell.
fn many_narrow(spelling: &[u8; 64], changes: &[u8]) -> u32 {
    let mut many = 0u32;
    for change in changes.chunks(2) {
        let mut bytes = *spelling;
        if let [at, byte] = change {
            set_byte(&mut bytes, usize::from(*at), *byte);
        }
        many = many.wrapping_add(u32::from(decode(&bytes).is_some()));
    }
    many
}

fn many_wide(spelling: &[u8; 128], changes: &[u8]) -> u32 {
    let mut many = 0u32;
    for change in changes.chunks(2) {
        let mut bytes = *spelling;
        if let [at, byte] = change {
            set_byte(&mut bytes, usize::from(*at), *byte);
        }
        many = many.wrapping_add(u32::from(decode_wide(&bytes).is_some()));
    }
    many
}

#[test]
fn near_spellings_are_refused(rt: HostRuntime) {
    for (head, key, value, changes) in NARROW {
        let spelling = narrow(head, key, value);
        assert!(rt; decode(&spelling).is_some() && many_narrow(&spelling, changes) == 0);
    }
    for (head, key, value, changes) in WIDE {
        let spelling = wide(head, key, value);
        assert!(rt; decode_wide(&spelling).is_some() && many_wide(&spelling, changes) == 0);
    }
}

// The greatest stamp is 2^63.
#[test]
fn stamps_have_a_limit(rt: HostRuntime) {
    let mut last = wide(VALUE, b"k03", b"3");
    last[15] = 128;
    assert!(rt; decode_wide(&last).is_some() && many_wide(&last, &[8, 1, 14, 128]) == 0);
}

#[test]
fn cells_are_spelled(rt: HostRuntime) -> Result<(), Fail> {
    let value = value("3")?;
    let key_of_old = key("k03")?;
    let old = Cell::Item {
        key: key_of_old,
        item: Item::Value { value, stamp: 0 },
        young: false,
        link: 0,
    };
    let deleted = Cell::Item {
        key: key("a")?,
        item: Item::Tombstone,
        young: true,
        link: 8,
    };
    let look = Cell::Look {
        key: key("k09")?,
        link: 0,
    };
    for (cell, (head, key, value, _)) in [old, deleted, look].iter().zip(&NARROW) {
        assert!(rt; decode(&narrow(head, key, value)).as_ref() == Some(cell));
        assert!(rt; decode_wide(&wide(head, key, value)).as_ref() == Some(cell));
    }
    let mut into = [255u8; 64];
    assert!(rt; key_of_old.fits(Format::One) && value.fits(Format::One));
    encode(&old, &mut into);
    assert!(rt; into == narrow(VALUE, b"k03", b"3"));
    let mut into = [255u8; 128];
    encode_wide(&old, &mut into);
    assert!(rt; into == wide(VALUE, b"k03", b"3"));
    Ok(())
}

// In version 2 the stamp stands behind the link.
#[test]
fn stamps_are_spelled(rt: HostRuntime) -> Result<(), Fail> {
    let cell = Cell::Item {
        key: key("k03")?,
        item: Item::Value {
            value: value("3")?,
            stamp: 0x0102,
        },
        young: false,
        link: 0,
    };
    let mut spelling = wide(VALUE, b"k03", b"3");
    put_at(&mut spelling, 8, &[2, 1]);
    assert!(rt; decode_wide(&spelling) == Some(cell));
    Ok(())
}

// How many bytes, and whether a key and a value in version 1 and version 2 may have so many.
const LENGTHS: [(usize, [bool; 4]); 9] = [
    (0, [false, true, false, true]),
    (1, [true, true, true, true]),
    (24, [true, true, true, true]),
    (25, [false, true, true, true]),
    (32, [false, true, true, true]),
    (33, [false, false, true, true]),
    (40, [false, false, true, true]),
    (41, [false, false, false, true]),
    (73, [false, false, false, false]),
];

// Whether a key and a value of these bytes fit a format.
fn fits(bytes: &[u8], format: Format) -> (bool, bool) {
    let key = Key::of(bytes).is_some_and(|key| key.fits(format));
    let value = Value::of(bytes).is_some_and(|value| value.fits(format));
    (key, value)
}

#[test]
fn lengths_have_limits(rt: HostRuntime) {
    let bytes = [7u8; 73];
    for (len, [key, value, wide_key, wide_value]) in LENGTHS {
        let part = bytes.get(..len).unwrap_or(&bytes);
        assert!(rt; fits(part, Format::One) == (key, value), "{len} bytes");
        assert!(rt;
            fits(part, Format::Two) == (wide_key, wide_value),
            "{len} bytes"
        );
    }
}

const MESSAGES: &str = "the device failed: try again
the bytes of cell 87 spell no cell: the file is damaged
the next run of level 3 has no room: the file is damaged
the bytes of cell 87 spell no cell: the file is damaged
the next run of level 3 has no room: the file is damaged
";

#[test]
fn messages_of_faults(rt: HostRuntime) -> Result<(), Fail> {
    let mut text = String::new(rt.alloc());
    for fault in [
        StepFault::Device,
        StepFault::BadCell(87),
        StepFault::Overfull(3),
    ] {
        writeln!(text, "{fault}")?;
    }
    writeln!(text, "{}", ReadFault::BadCell(87))?;
    writeln!(text, "{}", PushFault::Overfull(3))?;
    assert!(rt; text.as_str() == MESSAGES);
    Ok(())
}
