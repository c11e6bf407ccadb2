//! Worked sizes, places and headers, and bytes that are no header.
use crate::made::set_byte;
use cola_cell::Format;
use cola_layout::{Geometry, Header, LayoutFault, Marks};
use std::test::Fail;

/// The marks of a store of 32 keys after forty-three puts in turn of its keys, at the clock 11.
const AFTER_43: [[u8; 5]; 4] = [
    [3, 0, 0, 0, 0],
    [7, 5, 0, 0, 0],
    [11, 15, 0, 0, 0],
    [26, 23, 23, 5, 0],
];

/// The same after fifty-five puts, at the clock 7.
const AFTER_55: [[u8; 5]; 4] = [
    [4, 0, 0, 0, 0],
    [8, 5, 0, 0, 0],
    [16, 12, 0, 0, 0],
    [32, 32, 0, 0, 0],
];

/// A byte of the header after fifty-five puts, what it is set to, and whether the bytes are then a header in
/// version 1 and in version 2.
const CHANGED: [(usize, u8, bool, bool); 20] = [
    (0, 0, false, false),
    (8, 3, false, false),
    (12, 4, true, true),
    (12, 5, true, true),
    (12, 6, false, false),
    (13, 4, false, false),
    (14, 2, false, false),
    (15, 1, false, false),
    (16, 31, false, false),
    (16, 33, false, false),
    (24, 33, false, false),
    (32, 6, false, false),
    (32, 16, false, false),
    (40, 1, false, true),
    (47, 128, false, true),
    (47, 129, false, false),
    (48, 5, false, false),
    (52, 1, false, false),
    (76, 1, false, false),
    (511, 1, false, false),
];

// The header of a store of 32 keys that it has all, in blocks of 32 cells.
fn header_of_32(version: u8, clock: u8, marks: &[[u8; 5]; 4]) -> [u8; 512] {
    let mut bytes = [0; 512];
    bytes[..8].copy_from_slice(b"COLASTOR");
    bytes[8] = version;
    bytes[12] = 5;
    bytes[13] = 3;
    bytes[16] = 32;
    bytes[24] = 32;
    bytes[32] = clock;
    for level in 0..4 {
        for mark in 0..5 {
            bytes[48 + 20 * level + 4 * mark] = marks[level][mark];
        }
    }
    bytes
}

// Whether the bytes are a spelling, and encoding what they spell gives them again.
fn is_spelling(bytes: &[u8; 512]) -> bool {
    let Some(header) = Header::decode(bytes) else {
        return false;
    };
    let mut again = [1; 512];
    header.encode(&mut again);
    again == *bytes
}

#[test]
fn sizes_and_places(rt: HostRuntime) -> Result<(), Fail> {
    for (keys, block_exp, format, wanted) in [
        (1, 5, Format::One, Ok((4, 128, 3))),
        (33, 5, Format::One, Ok((5, 256, 3))),
        (0, 5, Format::One, Err(LayoutFault::Keys)),
        ((1 << 24) + 1, 5, Format::One, Err(LayoutFault::Keys)),
        (32, 6, Format::One, Err(LayoutFault::Block)),
        (32, 2, Format::Two, Err(LayoutFault::Block)),
    ] {
        let sizes = Geometry::of_format(keys, block_exp, format).map(|geometry| (
            geometry.levels(),
            geometry.cells(),
            geometry.front_levels(),
        ));
        assert!(rt; sizes == wanted, "{keys} keys");
    }
    let geometry = Geometry::of(32, 5)?;
    assert!(rt; geometry.place(0, 0, 0) == 8 && geometry.place(1, 1, 0) == 24);
    assert!(rt; geometry.place(2, 1, 15) == 63 && geometry.place(3, 1, 25) == 121);
    Ok(())
}

#[test]
fn headers(rt: HostRuntime) -> Result<(), Fail> {
    let mut bytes = [1; 512];
    Header::empty(Geometry::of(1, 5)?).encode(&mut bytes);
    let start = *b"COLASTOR\x01\0\0\0\x05\x03\0\0\x01\0\0\0\0\0\0\0";
    assert!(rt; bytes.starts_with(&start));
    assert!(rt; bytes[24..].iter().all(|byte| *byte == 0));
    let bytes = header_of_32(1, 11, &AFTER_43);
    let header = Header::decode(&bytes).ok_or("no header")?;
    assert!(rt; header.geometry == Geometry::of(32, 5)? && header.closed);
    assert!(rt; header.count == 32 && header.clock == 11 && header.last == 0);
    let bottom = Marks {
        visible: 26,
        shadow: 23,
        own: 23,
        incoming: 5,
        sample: 0,
    };
    assert!(rt; header.levels.as_slice().last() == Some(&bottom));
    assert!(rt; is_spelling(&bytes) && is_spelling(&header_of_32(2, 11, &AFTER_43)));
    Ok(())
}

#[test]
fn changed_headers(rt: HostRuntime) {
    for (at, byte, one, two) in CHANGED {
        for (version, wanted) in [(1, one), (2, two)] {
            let mut bytes = header_of_32(version, 7, &AFTER_55);
            set_byte(&mut bytes, at, byte);
            assert!(rt;
                is_spelling(&bytes) == wanted,
                "byte {at} is {byte} in version {version}"
            );
        }
    }
}

const MESSAGES: &str = "a store is for 1 to 16777216 keys
a block has 2^3 to 2^9 cells, and at most as many as a slot of the lowest level
";

#[test]
fn messages_of_sizes(rt: HostRuntime) -> Result<(), Fail> {
    let mut text = String::new(rt.alloc());
    for fault in [LayoutFault::Keys, LayoutFault::Block] {
        writeln!(text, "{fault}")?;
    }
    assert!(rt; text.as_str() == MESSAGES);
    Ok(())
}
