//! The header of a store, and its bytes.

ghost use Rattle.std.specs.Prelude.{◌≡◌, ◌<◌, ◌≤◌, ◌^◌, ◌+◌, length, replicate};
ghost use Rattle.cola_cell.specs.Format.{stamp_limit};
ghost use Rattle.cola_clock.proofs.MarkLaws.{marks-fact};
ghost use Rattle.cola_layout.specs.Marks.{AreMarks, all_numbers, no_marks};

use crate::decode::read;
use crate::encode::write;
use crate::geometry::Geometry;
use crate::marks::Marks;
use arrayvec::ArrayVec;
use cola_cell::MOST_LEVELS;

/// What a store's file says of the whole store: its geometry, whether it was closed, how many keys it has, its clock, its
/// last number and the marks of its levels. The invariants are the rules of a header.
#[derive(Debug, Drop)]
pub struct Header {
    /// The keys that the store is for, its levels, its blocks and its format.
    pub geometry: Geometry,
    /// Whether the store was closed, so that its file holds all of it.
    pub closed: bool,
    /// The keys that the store has, at most those that it is for.
    pub count: u64,
    /// The accepted mutations, modulo `2^(bottom+1)`.
    pub clock: u64,
    /// The last number that was given to a value: 0 in format One, at most `2^63` in format Two.
    pub last: u64,
    /// The marks of the levels 0 to bottom.
    pub levels: ArrayVec<Marks, MOST_LEVELS>,
    pub ghost count_fits: { count ≤ geometry.keys },
    pub ghost clock_fits: { clock < 2 ^ (geometry.bottom + 1) },
    pub ghost last_fits: { last ≤ stamp_limit geometry.format },
    pub ghost one_each: { length levels.items ≡ geometry.bottom + 1 },
    pub ghost marks_fit: { AreMarks clock levels.items } by { marks-fact 0 clock 0 0 (all_numbers levels.items) },
}

impl Header {
    ghost use Rattle.std.specs.Prelude.{true};
    ghost use Rattle.cola_layout.specs.Header.{IsSpelling};
    ghost use Rattle.cola_layout.specs.Fields.{fields_of, Decodes};

    /// The header of a closed store with no keys.
    pub fn empty(geometry: Geometry) -> Header
        ensures geometry { result.geometry ≡ geometry }
        ensures closed { result.closed ≡ true }
        ensures count { result.count ≡ 0 }
        ensures clock { result.clock ≡ 0 }
        ensures last { result.last ≡ 0 }
        ensures levels { result.levels.items ≡ replicate (geometry.bottom + 1) no_marks }
    {
        let levels = empty_levels(geometry.levels());
        Header {
            geometry,
            closed: true,
            count: 0,
            clock: 0,
            last: 0,
            levels,
        }
    }

    /// Writes the header's spelling: all 512 bytes. Numbers are little-endian.
    pub fn encode(&self, into: &mut [u8; 512])
        ensures { IsSpelling (fields_of self.now) into.new }
    {
        write(self, into);
    }

    /// The header of the bytes, in the format that their version says; none exactly on invalid bytes.
    pub fn decode(bytes: &[u8; 512]) -> Option<Header>
        ensures { Decodes bytes.now result }
    {
        read(bytes)
    }
}

// The marks of so many levels with nothing in them.
fn empty_levels(levels: u8) -> ArrayVec<Marks, MOST_LEVELS>
    requires { levels ≤ 23 }
    ensures { result.items ≡ replicate levels no_marks }
{
    let mut empty = ArrayVec::new();
    for _level in 0..levels {
        empty.push(Marks::default());
    }
    empty
}
