//! Laws of bytes that are written and read, and of counts. Each is a function with nothing to run: what it
//! ensures is the law, for any bytes.
ghost use Rattle.std.specs.Prelude.{◌≡◌, ℕ, ◌+◌, ◌≤◌, List, ◌++◌, length, replicate};
ghost use Rattle.cola_device.specs.Bytes.{part, splice};

use crate::{MAX_TRANSFER, SPOILED};

/// The most bytes that are read or written at once.
pub fn largest_transfer()
    ensures { MAX_TRANSFER ≡ 65536 }
{}

/// The byte that stands in the place of bytes that a failing call of a device in memory spoiled.
pub fn spoiled_byte()
    ensures { SPOILED ≡ 165 }
{}

/// New bytes in the place of others leave the size as it is.
pub fn size_stays()
    ensures { (bytes new : List ℕ) (at : ℕ) → at + length new ≤ length bytes
        → length (splice bytes at new) ≡ length bytes }
{}

/// What was put in a place is found there.
pub fn written_bytes_are_found()
    ensures { (bytes new : List ℕ) (at : ℕ) → at ≤ length bytes
        → part (splice bytes at new) at (length new) ≡ new }
{}

/// What stands before that place, or after it, is found as before.
pub fn other_bytes_stay()
    ensures below { (bytes new : List ℕ) (at from count : ℕ) → at ≤ length bytes → from + count ≤ at
        → part (splice bytes at new) from count ≡ part bytes from count }
    ensures above { (bytes new : List ℕ) (at from count : ℕ) → at ≤ length bytes → at + length new ≤ from
        → part (splice bytes at new) from count ≡ part bytes from count }
{}

/// Of two writes of as many bytes to one place the later stays.
pub fn later_write_stays()
    ensures { (bytes first second : List ℕ) (at : ℕ) → at ≤ length bytes → length first ≡ length second
        → splice (splice bytes at first) at second ≡ splice bytes at second }
{}

/// Two writes, one behind the other, are one write of both pieces.
pub fn pieces_join()
    ensures { (bytes first second : List ℕ) (at : ℕ) → at ≤ length bytes
        → splice bytes at (first ++ second) ≡ splice (splice bytes at first) (at + length first) second }
{}

/// Zero bytes are laid out, so zero bytes are found.
pub fn laid_out_bytes_are_found()
    ensures { (size at count : ℕ) → at + count ≤ size → part (replicate size 0) at count ≡ replicate count 0 }
{}
