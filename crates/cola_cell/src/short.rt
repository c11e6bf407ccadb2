//! Short lists of bytes that lie in the value itself.
ghost use Rattle.std.specs.Prelude.{◌≡◌, ◌+◌, ◌≤◌, ◌%◌, ◌↔◌, ℕ, List, length, take, drop, replicate, slice_index, IsTrue};
ghost use Rattle.byteorder.specs.Endian.{little_bytes};
ghost use Rattle.std.specs.Bool.{MatchBool};
ghost use Rattle.cola_cell.specs.Bytes.{padded, Fills};

use byteorder::{ByteOrder, LittleEndian};
use std::marker::Model;

/// 72 bytes of zeros, then 72 of ones. The word of 8 bytes at the place `72 - n` has ones in all but its
/// first `n` bytes, where `n` is at most 8.
static MASKS: [[u8; 72]; 2] = [[0; 72], [255; 72]];

/// A list of at most `N` bytes, with zeros behind it. A contract sees it as the list.
#[derive(Clone, Copy, Debug)]
pub struct Short<const N: usize> {
    bytes: [u8; N],
    len: u8,
}

impl<const N: usize> Model for Short<N> {
    ghost use Rattle.std.specs.Prelude.{◌≡◌, ◌≤◌, ℕ, List, length, take};
    ghost use Rattle.std.proofs.Common.{arith, length-take-le, sym};
    ghost use Rattle.cola_cell.specs.Bytes.{padded};

    ghost Value = { List ℕ };

    ghost view = { λ s. take s.len s.bytes };

    ghost invariant = { λ s. (s.len ≤ N) × (length s.bytes ≡ N) × (s.bytes ≡ padded N (take s.len s.bytes)) };

    ghost inverse = { λ v. record { bytes = padded N v; len = length v } };

    ghost inverse_ok = { λ s h i. record {
      bytes = sym h.2 i;
      len = length-take-le s.len s.bytes (omega (arith, h.0, h.1)) i;
    } };
}

impl<const N: usize> Short<N> {
    /// A copy of `bytes`.
    #[inline]
    pub fn of(bytes: &[u8]) -> Short<N>
        requires fits { length bytes.now ≤ N }
        requires small { N ≤ 255 }
        ensures { result ≡ bytes.now }
    {
        let len = bytes.len();
        let mut room = [0u8; N];
        room[..len].copy_from_slice(bytes);
        Short {
            bytes: room,
            len: len as u8,
        }
    }

    /// The length, in bytes.
    #[inline]
    pub fn len(&self) -> usize
        ensures value { result ≡ length self.now }
        ensures fits { result ≤ N }
    {
        self.len as usize
    }

    /// The list.
    #[inline]
    pub fn bytes(&self) -> &[u8]
        ensures value { result.now ≡ self.now }
        ensures fits { length result.now ≤ N }
    {
        &self.bytes[..self.len as usize]
    }

    /// The list, then zeros to the end of a room of `n` bytes.
    #[inline(always)]
    pub fn room(&self, n: usize) -> &[u8]
        requires holds { length self.now ≤ n }
        requires fits { n ≤ N }
        ensures { result.now ≡ padded n self.now }
    {
        &self.bytes[..n]
    }

    /// The list of `len` bytes that fills `room`.
    #[inline(always)]
    pub fn of_room(room: &[u8], len: u8) -> Short<N>
        requires filled { Fills room.now len (take len room.now) }
        requires fits { length room.now ≤ N }
        requires small { N ≤ 255 }
        ensures { result ≡ take len room.now }
    {
        let mut bytes = [0u8; N];
        put_room(room, &mut bytes);
        Short { bytes, len }
    }
}

/// Copies the room to the front of zeros.
#[inline(always)]
fn put_room(room: &[u8], into: &mut [u8])
    requires fits { length room.now ≤ length into.old }
    requires zeros { into.old ≡ replicate (length into.old) 0 }
    ensures { into.new ≡ padded (length into.old) room.now }
{
    let size = into.len();
    if room.len() < size && room.len() % 8 == 0 && size % 8 == 0 && size <= 72 {
        put_words(room, into);
    } else {
        into[..room.len()].copy_from_slice(room);
    }
}

/// Writes the room to the front of a larger one, and zeros behind it. Both are whole words of 8 bytes, at
/// most 9. Each word has a line of its own, and the zeros are written again: so the compiler keeps the words
/// in registers until the answer is written. Of a loop it makes a copy in memory.
#[inline(always)]
fn put_words(room: &[u8], into: &mut [u8])
    requires words { length room.now % 8 ≡ 0 }
    requires whole { length into.old % 8 ≡ 0 }
    requires small { length into.old ≤ 72 }
    requires fits { length room.now ≤ length into.old }
    ensures { into.new ≡ padded (length into.old) room.now }
{
    put_word(room, 0, into);
    put_word(room, 8, into);
    put_word(room, 16, into);
    put_word(room, 24, into);
    put_word(room, 32, into);
    put_word(room, 40, into);
    put_word(room, 48, into);
    put_word(room, 56, into);
    put_word(room, 64, into);
}

/// Writes the word at the place, where `into` has one there.
#[inline(always)]
fn put_word(room: &[u8], place: usize, into: &mut [u8])
    requires words { length room.now % 8 ≡ 0 }
    requires whole { length into.old % 8 ≡ 0 }
    requires word { place % 8 ≡ 0 }
    requires low { place ≤ 64 }
    requires fits { length room.now ≤ length into.old }
    requires front { take place into.old ≡ take place (padded (length into.old) room.now) }
    ensures front { take (place + 8) into.new
        ≡ take (place + 8) (padded (length into.old) room.now) }
    ensures size { length into.new ≡ length into.old }
{
    if place < into.len() {
        LittleEndian::write_u64(&mut into[place..place + 8], word_at(room, place));
    }
}

/// The word of the room at the place, zero behind the room.
#[inline(always)]
fn word_at(room: &[u8], place: usize) -> u64
    requires words { length room.now % 8 ≡ 0 }
    requires word { place % 8 ≡ 0 }
    ensures { (n : ℕ) → place + 8 ≤ n → little_bytes 8 result
        ≡ take 8 (drop place (padded n room.now)) }
{
    if place >= room.len() {
        return 0;
    }
    LittleEndian::read_u64(&room[place..place + 8])
}

/// Whether a list of `len` bytes fills the room: the room has that many, and zeros behind them. A
/// room is whole words of 8 bytes, at most 9.
#[inline(always)]
pub fn is_filled(room: &[u8], len: u8) -> bool
    requires words { length room.now % 8 ≡ 0 }
    requires small { length room.now ≤ 72 }
    ensures { MatchBool result (Fills room.now len (take len room.now)) ((list : List ℕ) →
        ¬ Fills room.now len list) }
{
    len as usize <= room.len() && is_zero_from(room, len as usize)
}

/// Whether every byte of the room from `start` on is zero. A room is whole words of 8 bytes, at most 9.
/// The words are gathered and tested once: so the compiler reads two at a time.
#[inline(always)]
pub fn is_zero_from(room: &[u8], start: usize) -> bool
    requires words { length room.now % 8 ≡ 0 }
    requires small { length room.now ≤ 72 }
    requires inside { start ≤ length room.now }
    ensures { IsTrue result ↔ ((k : ℕ) → start ≤ k → slice_index room.now k ≡ 0) }
{
    let masks = MASKS.as_flattened();
    let mut rest = 0u64;
    for word in 0..room.len() / 8 {
        let mask = LittleEndian::read_u64(&masks[72 - start + 8 * word..]);
        rest |= LittleEndian::read_u64(&room[8 * word..]) & mask;
    }
    rest == 0
}
