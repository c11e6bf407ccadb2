//! A range of an open store, as an iterator that borrows it.
ghost use Rattle.std.specs.Prelude.{◌≡◌, ◌<◌, false, IfOk, option_copied};
ghost use Rattle.std.specs.Borrow.{sem, RestsIfErr};
ghost use Rattle.cola_kv.specs.contracts.kv.Kv.{the_row};
ghost use Rattle.cola_kv.specs.Ranged.{Begins, Nexts, Stands, walked};

use crate::error::Error;
use crate::kv::Kv;
use cola_cell::{Key, Value};
use cola_cursor::Cursor;
use cola_device::Device;
use cola_outside::Steps;
use cola_table::Table;
use std::marker::Brand;
use std::sync::ledger::{Blank, Ledger};

/// A range of an open store, by rising or by falling keys, which borrows it. As an iterator it ends behind the last pair and
/// behind the first refusal; [`Range::try_next`] asks again what was refused.
#[derive(Drop)]
pub struct Range<'a, D: Device> {
    pub(crate) kv: &'a mut Kv<D>,
    pub(crate) walk: Cursor,
    pub(crate) ended: bool,
}

/// Begins a range on a ledger that the blank opens.
pub(crate) fn range_on<D: Device, L: Ledger>(
    blank: Blank,
    kv: &mut Kv<D>,
    low: &[u8],
    high: Option<&[u8]>,
) -> Result<Cursor, Error>
    requires name { blank.name ≡ L.name }
    requires parts { blank.parts ≡ L.parts }
    requires some { 0 < L.parts }
    ensures { Begins D.Device kv.old kv.new low.now (option_copied high.entry) result }
{
    let mut steps = Steps::<L>::begin(blank);
    let low = kv.key_of(low)?;
    let high = match high {
        Some(high) => Some(kv.key_of(high)?),
        None => None,
    };
    Ok(kv.store.range(&low, high.as_ref(), &mut steps)?)
}

/// A step on a range, on a ledger that the blank opens.
fn next_on<D: Device, L: Ledger>(
    blank: Blank,
    kv: &mut Kv<D>,
    walk: &mut Cursor,
) -> Result<Option<(Key, Value)>, Error>
    requires name { blank.name ≡ L.name }
    requires parts { blank.parts ≡ L.parts }
    requires some { 0 < L.parts }
    requires standing { Stands D.Device kv.old walk.old }
    ensures { Nexts D.Device kv.old kv.new walk.old walk.new result }
{
    let mut steps = Steps::<L>::begin(blank);
    Ok(kv.store.next(walk, &mut steps)?)
}

impl<'a, D: Device> Range<'a, D> {
    /// The next pair, or none where none is left. A refused step leaves the range as it was, so that it may be asked again.
    /// It may be asked as `range` and each step leave it.
    pub fn try_next(&mut self) -> Result<Option<(Key, Value)>, Error>
        requires standing { Stands D.Device self.old.kv.now self.old.walk }
        ensures same_reference { self.new.kv.ghost_name ≡ self.old.kv.ghost_name }
        ensures nexts { Nexts D.Device self.old.kv.now self.new.kv.now self.old.walk self.new.walk result }
        ensures same_end { self.new.ended ≡ self.old.ended }
    {
        next_on::<D, Brand>(Blank::new(1), self.kv, &mut self.walk)
    }
}

impl<D: Device> Kv<D> {
    /// The pairs from `low` on and below `high`, by rising keys; with no upper end where `high` is absent.
    pub fn range<'a>(&'a mut self, low: &[u8], high: Option<&[u8]>) -> Result<Range<'a, D>, Error>
        ensures* refused { sem 𝓛 (RestsIfErr (the_row D.row D.Device) self.entry (λ range. range.kv.ghost_name) result
            (λ last. Begins D.Device self.old last low.now (option_copied high.entry) (walked (λ range. range.walk) result))) }
        ensures same_reference { IfOk result (λ range. range.kv.ghost_name ≡ self.entry.ghost_name) }
        ensures goes_on { IfOk result (λ range. range.ended ≡ false) }
        ensures begins { IfOk result (λ range. Begins D.Device self.old range.kv.now low.now (option_copied high.entry)
            (walked (λ range. range.walk) result)) }
    {
        let walk = range_on::<D, Brand>(Blank::new(1), self, low, high)?;
        Ok(Range {
            kv: self,
            walk,
            ended: false,
        })
    }
}
