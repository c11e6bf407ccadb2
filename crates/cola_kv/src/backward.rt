//! An open store by falling keys.
ghost use Rattle.std.specs.Prelude.{◌≡◌, ◌<◌, ◌≤◌, length, true, false, IfOk, MatchResult, option_copied};
ghost use Rattle.std.specs.Borrow.{sem, RestsIfErr};
ghost use Rattle.std.specs.Bound.{bound_map};
ghost use Rattle.cola_cursor.specs.Lines.{all_left, left_of};
ghost use Rattle.cola_kv.specs.contracts.kv.Kv.{the_row};
ghost use Rattle.cola_kv.specs.declared.error.Error.TheVariants.{KeyLength};
ghost use Rattle.cola_kv.specs.Backward.{BeginsBack, Lasts, is_high, is_low};
ghost use Rattle.cola_kv.specs.Kv.{shape_of};
ghost use Rattle.cola_kv.specs.Ranged.{walked};

use crate::error::Error;
use crate::kv::Kv;
use crate::range::Range;
use cola_cell::{Key, Value};
use cola_cursor::{Cursor, Line};
use cola_device::Device;
use cola_outside::Steps;
use cola_table::Table;
use std::marker::Brand;
use std::ops::Bound;
use std::sync::ledger::{Blank, Ledger};

/// Begins a falling range on a ledger that the blank opens.
fn range_back_on<D: Device, L: Ledger>(
    blank: Blank,
    kv: &mut Kv<D>,
    low: Option<&[u8]>,
    high: Bound<&[u8]>,
) -> Result<Cursor, Error>
    requires name { blank.name ≡ L.name }
    requires parts { blank.parts ≡ L.parts }
    requires some { 0 < L.parts }
    ensures { BeginsBack D.Device kv.old kv.new (option_copied low.entry)
        (bound_map (λ key. key.now) high.entry) result }
{
    let mut steps = Steps::<L>::begin(blank);
    let low = kv.low_of(low)?;
    let high = kv.high_of(high)?;
    Ok(
        kv.store
            .range_back(low.as_ref(), high.as_ref(), &mut steps)?,
    )
}

/// How many cells of its run a line has still to read.
fn left_in(line: &Line) -> u32
    ensures { result ≡ left_of line.now }
{
    let ahead = line.run.len.saturating_sub(line.place);
    if line.head.has_cell() {
        ahead.saturating_sub(1)
    } else {
        ahead
    }
}

/// How many cells the lines of a walk have still to read.
fn cells_left(lines: &[Line]) -> u64
    requires { length lines.now ≤ 23 }
    ensures { result ≡ all_left lines.now }
{
    let mut left: u64 = 0;
    for line in lines {
        left += left_in(line) as u64;
    }
    left
}

/// Asks for the greatest key on a ledger that the blank opens. A tick is made for each cell that the walk reads.
fn last_on<D: Device, L: Ledger>(
    blank: Blank,
    kv: &mut Kv<D>,
) -> Result<Option<(Key, Value)>, Error>
    requires name { blank.name ≡ L.name }
    requires parts { blank.parts ≡ L.parts }
    requires some { 0 < L.parts }
    ensures { Lasts D.Device kv.old kv.new result }
{
    let mut steps = Steps::<L>::begin(blank);
    let mut walk = kv.store.range_back(None, Bound::Unbounded, &mut steps)?;
    let left = cells_left(walk.lines.as_slice());
    let pair = kv.store.next(&mut walk, &mut steps)?;
    kv.ticks = (left - cells_left(walk.lines.as_slice())) as u32;
    Ok(pair)
}

impl<D: Device> Kv<D> {
    /// The lower end of these bytes, where a key of the store may have them.
    fn low_of(&self, bytes: Option<&[u8]>) -> Result<Option<Key>, Error>
        ensures value { IfOk result (λ low. low ≡ option_copied bytes.entry) }
        ensures exact { MatchResult result (λ low. is_low (shape_of self.now) low ≡ true)
            (λ error. (error ≡ KeyLength)
            × (is_low (shape_of self.now) (option_copied bytes.entry) ≡ false)) }
    {
        match bytes {
            Some(bytes) => Ok(Some(self.key_of(bytes)?)),
            None => Ok(None),
        }
    }

    /// The upper bound of these bytes, where a key of the store may have them.
    fn high_of(&self, bytes: Bound<&[u8]>) -> Result<Bound<Key>, Error>
        ensures value { IfOk result (λ high. high ≡ bound_map (λ key. key.now) bytes.entry) }
        ensures exact { MatchResult result (λ high. is_high (shape_of self.now) high ≡ true)
            (λ error. (error ≡ KeyLength)
            × (is_high (shape_of self.now) (bound_map (λ key. key.now) bytes.entry) ≡ false)) }
    {
        match bytes {
            Bound::Included(bytes) => Ok(Bound::Included(self.key_of(bytes)?)),
            Bound::Excluded(bytes) => Ok(Bound::Excluded(self.key_of(bytes)?)),
            Bound::Unbounded => Ok(Bound::Unbounded),
        }
    }

    /// The pairs from `low` on, where there is one, and up to `high`, by falling keys: the newest first of a log whose keys
    /// rise. It is refused as a range is, and goes on as one.
    pub fn range_back<'a>(
        &'a mut self,
        low: Option<&[u8]>,
        high: Bound<&[u8]>,
    ) -> Result<Range<'a, D>, Error>
        ensures* refused { sem 𝓛 (RestsIfErr (the_row D.row D.Device) self.entry (λ range. range.kv.ghost_name) result
            (λ last. BeginsBack D.Device self.old last (option_copied low.entry) (bound_map (λ key. key.now) high.entry)
            (walked (λ range. range.walk) result))) }
        ensures same_reference { IfOk result (λ range. range.kv.ghost_name ≡ self.entry.ghost_name) }
        ensures goes_on { IfOk result (λ range. range.ended ≡ false) }
        ensures begins { IfOk result (λ range. BeginsBack D.Device self.old range.kv.now (option_copied low.entry)
            (bound_map (λ key. key.now) high.entry) (walked (λ range. range.walk) result)) }
    {
        let walk = range_back_on::<D, Brand>(Blank::new(1), self, low, high)?;
        Ok(Range {
            kv: self,
            walk,
            ended: false,
        })
    }

    /// The pair of the greatest key, and none where the store has no key. It costs the tombstones above that key: in a log
    /// that is cut at its end there may be many. Refused where the device failed, or a cell is damaged.
    pub fn last(&mut self) -> Result<Option<(Key, Value)>, Error>
        ensures { Lasts D.Device self.old self.new result }
    {
        last_on::<D, Brand>(Blank::new(1), self)
    }
}
