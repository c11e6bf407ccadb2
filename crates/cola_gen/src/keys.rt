//! The keys of the workload, by place, and their values.
ghost use Rattle.std.specs.Prelude.{◌≡◌, ◌*◌, ◌<◌, ◌≤◌, ◌%◌, ◌/◌, length};
ghost use Rattle.cola_gen.specs.Keys as spec;

use cola_cell::{Key, Value};
use itoa::Buffer;

/// The factor that scatters the keys. It is odd, so that no two places have the same key.
const FACTOR: u32 = 2_654_435_761;

/// How many keys the workload makes of so many: three quarters, rounded up.
pub fn made(keys: u32) -> u32
    ensures { result ≡ spec.made keys }
{
    keys - keys / 4
}

/// The hexadecimal digit of a number that stands for so many units.
fn hex_digit(number: u32, unit: u32) -> u8
    requires { 0 < unit }
    ensures { result ≡ spec.hex_digit (number / unit % 16) }
{
    let digit = (number / unit % 16) as u8;
    if digit < 10 {
        b'0' + digit
    } else {
        b'a' - 10 + digit
    }
}

/// A number in eight hexadecimal digits.
fn hex_text(number: u32) -> [u8; 8]
    ensures { result ≡ spec.hex_text number }
{
    [
        hex_digit(number, 0x1000_0000),
        hex_digit(number, 0x100_0000),
        hex_digit(number, 0x10_0000),
        hex_digit(number, 0x1_0000),
        hex_digit(number, 0x1000),
        hex_digit(number, 0x100),
        hex_digit(number, 0x10),
        hex_digit(number, 1),
    ]
}

/// The key of a place, in eight hexadecimal digits.
pub fn key_of(place: u32) -> Key
    ensures value { result ≡ spec.key_text place }
    ensures size { length result ≡ 8 }
{
    match Key::of(&hex_text(place.wrapping_mul(FACTOR))) {
        Some(key) => key,
        None => unreachable!(),
    }
}

/// The value of a place, in decimal digits.
pub fn value_of(place: u32) -> Value
    ensures value { result ≡ spec.value_text place }
    ensures size { length result ≤ 10 }
{
    let mut buffer = Buffer::new();
    match Value::of(buffer.format(place).as_bytes()) {
        Some(value) => value,
        None => unreachable!(),
    }
}

/// What a get of the key of a place is to answer after the workload: its value at odd places, and none
/// at even ones.
pub fn expected(place: u32) -> Option<Value>
    ensures { result ≡ spec.expected place }
{
    if place % 2 == 1 {
        Some(value_of(place))
    } else {
        None
    }
}
