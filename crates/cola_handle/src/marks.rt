//! The marks of a store's pages, in bytes that a caller lends.
ghost use Rattle.std.specs.Prelude.{◌≡◌, None, Some, IsSome, IfSome};
ghost use Rattle.cola_mapped.specs.Region.{bytes_in};
ghost use Rattle.cola_handle.specs.Marks.{marks_in, place_in};

use cola_mapped::{Lent, MappedDevice, Region};
use cola_marks::{MarkedDevice, Marks};
use std::marker::Model;

/// What a session's store lies on: lent bytes, each page of which is marked before it is written, as far as there are marks.
pub type LentDevice = MarkedDevice<MappedDevice, LentMarks>;

/// A byte for each page, in bytes that a caller lends, or no marks at all.
#[derive(Drop)]
pub struct LentMarks {
    lent: Option<Lent>,
}

impl Model for LentMarks {
    ghost use Rattle.std.specs.Prelude.{Option, IfSome, IsSome};
    ghost use Rattle.cola_mapped.specs.declared.lent.Lent.{Lent};

    ghost Value = { Option Lent };

    ghost view = { λ m. m.lent };

    ghost invariant = { λ m. IfSome m.lent (λ lent. IsSome lent.bytes) };
}

impl LentMarks {
    /// No page has a mark.
    pub fn none() -> LentMarks
        ensures { result ≡ None }
    {
        LentMarks { lent: None }
    }

    /// Marks in these bytes.
    pub fn of(region: Region) -> LentMarks
        requires { IsSome region.bytes }
        ensures marks { marks_in result ≡ bytes_in region.bytes }
        ensures place { place_in result ≡ Some (region.at, region.len) }
    {
        LentMarks {
            lent: Some(Lent::of(region)),
        }
    }

    /// The bytes, where they lay; an empty region where there are none.
    pub fn into_region(self) -> Region
        ensures marks { bytes_in result.bytes ≡ marks_in self }
        ensures lent { IsSome self → IsSome result.bytes }
        ensures place { IfSome (place_in self) (λ place. (result.at, result.len) ≡ place) }
    {
        match self.lent {
            Some(lent) => lent.into_region(),
            None => Region::none(),
        }
    }
}

impl Marks for LentMarks {
    ghost use Rattle.cola_handle.specs.Marks.{Place, marks_in, place_in};
    ghost use Rattle.std.specs.Prelude.{Option};

    ghost marks = { marks_in };

    ghost Kept = { Option Place };

    ghost kept = { place_in };

    fn pages(&self) -> usize {
        match &self.lent {
            Some(lent) => lent.size(),
            None => 0,
        }
    }

    fn mark(&mut self, page: usize) {
        if let Some(lent) = &mut self.lent {
            lent.write(page, &[1]);
        }
    }
}
