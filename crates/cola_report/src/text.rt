//! The text of a line while it is made.
ghost use Rattle.std.specs.Prelude.{◌≡◌, ◌+◌, ◌≤◌, ◌++◌, length, decimal};

use arrayvec::ArrayVec;
use itoa::Buffer;

/// The text of one line, of at most 160 bytes.
pub type Text = ArrayVec<u8, 160>;

/// Appends bytes, which have room.
pub fn push_bytes(text: &mut Text, bytes: &[u8])
    requires { length text.old.items + length bytes.now ≤ 160 }
    ensures { text.new.items ≡ text.old.items ++ bytes.now }
{
    let _ = text.try_extend_from_slice(bytes);
}

/// Appends a number in decimal digits, which are 20 at most.
pub fn push_number(text: &mut Text, number: u64)
    requires { length text.old.items + 20 ≤ 160 }
    ensures text { text.new.items ≡ text.old.items ++ decimal number }
    ensures short { length text.new.items ≤ length text.old.items + 20 }
{
    let mut buffer = Buffer::new();
    push_bytes(text, buffer.format(number).as_bytes());
}
