//! A map as a list of entries.

ghost use Rattle.std.specs.Prelude.{◌≡◌, ◌&&◌, option_copied, IfOk};
ghost use Rattle.cola_spec.specs.Map.{is_before, is_from, pair_of};
ghost use Rattle.cola_plain.specs.Map.{pair_with, stored_with};

use crate::shape::Shape;
use std::alloc::{AllocError, Global};
use std::cmp::Ordering;

/// A key, its value, and the number of the put that gave it.
#[derive(Drop)]
pub struct Entry {
    key: Vec<u8>,
    value: Vec<u8>,
    stamp: u64,
}

/// Entries by rising keys, and the last stamp that was given.
#[derive(Drop)]
pub struct Map {
    entries: Vec<Entry>,
    last: u64,
}

/// A key with its value.
#[derive(Drop)]
pub struct Row {
    pub key: Vec<u8>,
    pub value: Vec<u8>,
}

/// What a put answers.
#[derive(Drop)]
pub enum PutOutcome {
    New,
    Old(Vec<u8>),
    Full,
    Worn,
    Other(u64),
}

/// No put is accepted after this stamp.
const LAST_STAMP: u64 = 1 << 63;

impl Map {
    ghost use Rattle.std.specs.Prelude.{◌≡◌, ◌≢◌, ◌≤◌, ◌<◌, ◌+◌, ◌-◌, ◌^◌, ℕ, true, false, not, min, Some, None, IfOk, OnErr, OnOk, MatchResult, option_map, option_copied, length, take, map, if◌then◌else◌};
    ghost use Rattle.std.specs.FinMap.Entries.{find, put, where_key};
    ghost use Rattle.std.specs.Ordering.{eq_by_cmp};
    ghost use Rattle.cola_spec.specs.Map.{after_delete, after_put, after_put_if, count, empty_map, is_worn, key_cmp, pairs_between, put_outcome, put_if_outcome, scan, settled, value_of, with_value, stamp_of, Map as SpecMap, Stored};
    ghost use Rattle.cola_spec.specs.Laws.{is_accepted};
    ghost use Rattle.cola_plain.specs.Command.{shape_of};
    ghost use Rattle.cola_plain.specs.Map.{listed, pair_with, outcome_with, kept_in, GoesAt, IsAt, Stands};

    /// The map with no key.
    pub fn new(alloc: Global) -> Map
        ensures { Stands result empty_map }
    {
        Map {
            entries: Vec::new(alloc),
            last: 0,
        }
    }

    /// The entry of a key.
    fn find(&self, key: &[u8]) -> Option<&Entry>
        ensures { option_map kept_in (option_copied result) ≡ find key_cmp key.now
            (listed self.now.entries.items) }
    {
        for entry in &self.entries {
            if entry.key.as_slice() == key {
                return Some(entry);
            }
        }
        None
    }

    /// The value of a key. An error comes only for want of memory.
    pub fn get(&self, alloc: Global, key: &[u8]) -> Result<Option<Vec<u8>>, AllocError>
        ensures { (m : SpecMap) → Stands self.now m →
            IfOk result (λ value. option_map (λ v. v.items) value ≡ value_of m key.now) }
    {
        match self.find(key) {
            Some(entry) => Ok(Some(Vec::from_slice(alloc, &entry.value)?)),
            None => Ok(None),
        }
    }

    /// The stamp of a key.
    pub fn stamp(&self, key: &[u8]) -> Option<u64>
        ensures { (m : SpecMap) → Stands self.now m → result ≡ stamp_of m key.now }
    {
        match self.find(key) {
            Some(entry) => Some(entry.stamp),
            None => None,
        }
    }

    /// How many keys there are.
    pub fn count(&self) -> usize
        ensures { (m : SpecMap) → Stands self.now m → result ≡ count m }
    {
        self.entries.len()
    }

    /// Whether no stamp is left to give.
    fn is_worn(&self, shape: &Shape) -> bool
        ensures { (m : SpecMap) → Stands self.now m → result ≡ is_worn (shape_of shape.now) m }
    {
        shape.stamped & (self.last >= LAST_STAMP)
    }

    /// What a put of a key answers.
    fn put_outcome(
        &self,
        alloc: Global,
        shape: &Shape,
        key: &[u8],
    ) -> Result<PutOutcome, AllocError>
        ensures { (m : SpecMap) → Stands self.now m →
            IfOk result (λ outcome. outcome_with outcome ≡ put_outcome
            (shape_of shape.now) m key.now) }
    {
        let worn = self.is_worn(shape);
        match self.get(alloc, key)? {
            Some(old) => {
                if worn {
                    return Ok(PutOutcome::Worn);
                }
                Ok(PutOutcome::Old(old))
            }
            None => {
                if self.count() >= shape.limit {
                    return Ok(PutOutcome::Full);
                }
                if worn {
                    return Ok(PutOutcome::Worn);
                }
                Ok(PutOutcome::New)
            }
        }
    }

    /// What a put of a key answers that depends on the stamp seen.
    fn put_if_outcome(
        &self,
        alloc: Global,
        shape: &Shape,
        key: &[u8],
        seen: u64,
    ) -> Result<PutOutcome, AllocError>
        ensures { (m : SpecMap) → Stands self.now m →
            IfOk result (λ outcome. outcome_with outcome ≡ put_if_outcome
            (shape_of shape.now) m key.now seen) }
    {
        let stamp = self.stamp(key).unwrap_or(0);
        if stamp == seen {
            return self.put_outcome(alloc, shape, key);
        }
        Ok(PutOutcome::Other(stamp))
    }

    /// Where the entry of a key is, or else where it would go.
    fn place(&self, key: &[u8]) -> Result<usize, usize>
        ensures { (new : Stored) →
            MatchResult result (IsAt key.now new self.now.entries.items)
            (GoesAt key.now new self.now.entries.items) }
    {
        for (i, entry) in self.entries.iter().enumerate() {
            match key.cmp(entry.key.as_slice()) {
                Ordering::Less => return Err(i),
                Ordering::Equal => return Ok(i),
                Ordering::Greater => {}
            }
        }
        Err(self.entries.len())
    }

    /// Puts an entry in its place, or in place of the one that its key has. An error comes only for want of
    /// memory, and changes nothing.
    fn store(&mut self, entry: Entry) -> Result<(), AllocError>
        ensures stored { OnOk result
            (listed self.new.entries.items ≡ put key_cmp entry.key.items (kept_in entry)
            (listed self.old.entries.items)) }
        ensures kept { OnErr result (self.new.entries.items ≡ self.old.entries.items) }
        ensures last { self.new.last ≡ self.old.last }
    {
        match self.place(&entry.key) {
            Ok(i) => {
                self.entries[i] = entry;
                Ok(())
            }
            Err(i) => {
                self.entries.insert(i, entry)?;
                Ok(())
            }
        }
    }

    /// The stamp that the next accepted put gives.
    fn next_stamp(&self, shape: &Shape) -> u64
        ensures { result ≡ (if shape.now.stamped then min (self.now.last + 1) (2 ^ 64 - 1) else 0) }
    {
        if shape.stamped {
            self.last.saturating_add(1)
        } else {
            0
        }
    }

    /// The last stamp after the next accepted put.
    fn next_last(&self, shape: &Shape) -> u64
        ensures { result ≡
            (if shape.now.stamped then min (self.now.last + 1) (2 ^ 64 - 1) else self.now.last) }
    {
        if shape.stamped {
            self.last.saturating_add(1)
        } else {
            self.last
        }
    }

    /// Gives the key the value, and the next stamp.
    fn with_value(
        &mut self,
        alloc: Global,
        shape: &Shape,
        key: &[u8],
        value: &[u8],
    ) -> Result<(), AllocError>
        ensures given { (m : SpecMap) → Stands self.old m → is_worn (shape_of shape.now) m ≡ false →
            OnOk result (Stands self.new (with_value (shape_of shape.now) m key.now value.now)) }
        ensures kept { (m : SpecMap) → Stands self.old m → OnErr result (Stands self.new m) }
    {
        let last = self.next_last(shape);
        let entry = Entry {
            key: Vec::from_slice(alloc, key)?,
            value: Vec::from_slice(alloc, value)?,
            stamp: self.next_stamp(shape),
        };
        self.store(entry)?;
        self.last = last;
        Ok(())
    }

    /// Does what an answer says: gives the key the value where the put is accepted, and else nothing.
    fn settle(
        &mut self,
        alloc: Global,
        shape: &Shape,
        outcome: &PutOutcome,
        key: &[u8],
        value: &[u8],
    ) -> Result<(), AllocError>
        ensures settled { (m : SpecMap) → Stands self.old m →
            (is_accepted (outcome_with outcome.now) ≡ true →
            is_worn (shape_of shape.now) m ≡ false) →
            OnOk result (Stands self.new
            (settled (outcome_with outcome.now) m
            (with_value (shape_of shape.now) m key.now value.now))) }
        ensures kept { (m : SpecMap) → Stands self.old m → OnErr result (Stands self.new m) }
    {
        match outcome {
            PutOutcome::New => self.with_value(alloc, shape, key, value),
            PutOutcome::Old(_) => self.with_value(alloc, shape, key, value),
            PutOutcome::Full => Ok(()),
            PutOutcome::Worn => Ok(()),
            PutOutcome::Other(_) => Ok(()),
        }
    }

    /// Puts a value under a key. An error comes only for want of memory, and changes nothing.
    pub fn put(
        &mut self,
        alloc: Global,
        shape: &Shape,
        key: &[u8],
        value: &[u8],
    ) -> Result<PutOutcome, AllocError>
        ensures put { (m : SpecMap) → Stands self.old m →
            IfOk result (λ outcome.
            (outcome_with outcome ≡ put_outcome (shape_of shape.now) m key.now)
            × Stands self.new (after_put (shape_of shape.now) m key.now value.now)) }
        ensures kept { (m : SpecMap) → Stands self.old m → OnErr result (Stands self.new m) }
    {
        let outcome = self.put_outcome(alloc, shape, key)?;
        self.settle(alloc, shape, &outcome, key, value)?;
        Ok(outcome)
    }

    /// Puts a value under a key where the stamp seen is the one that the key has, and 0 where it has none.
    /// An error comes only for want of memory, and changes nothing.
    pub fn put_if(
        &mut self,
        alloc: Global,
        shape: &Shape,
        key: &[u8],
        seen: u64,
        value: &[u8],
    ) -> Result<PutOutcome, AllocError>
        ensures put { (m : SpecMap) → Stands self.old m →
            IfOk result (λ outcome.
            (outcome_with outcome ≡ put_if_outcome (shape_of shape.now) m key.now seen)
            × Stands self.new (after_put_if (shape_of shape.now) m key.now seen value.now)) }
        ensures kept { (m : SpecMap) → Stands self.old m → OnErr result (Stands self.new m) }
    {
        let outcome = self.put_if_outcome(alloc, shape, key, seen)?;
        self.settle(alloc, shape, &outcome, key, value)?;
        Ok(outcome)
    }

    /// Copies of all entries but that of a key.
    fn without(&self, alloc: Global, key: &[u8]) -> Result<Vec<Entry>, AllocError>
        ensures { IfOk result
            (λ kept. listed kept.items ≡ where_key key_cmp (λ x. not (eq_by_cmp key_cmp key.now x))
            (listed self.now.entries.items)) }
    {
        let mut kept = Vec::new(alloc);
        for entry in &self.entries {
            if entry.key.as_slice() == key {
                continue;
            }
            kept.push(copy_of(alloc, entry)?)?;
        }
        Ok(kept)
    }

    /// Removes a key, and gives the value that it had. An error comes only for want of memory, and changes
    /// nothing.
    pub fn delete(&mut self, alloc: Global, key: &[u8]) -> Result<Option<Vec<u8>>, AllocError>
        ensures deleted { (m : SpecMap) → Stands self.old m →
            IfOk result (λ value. (option_map (λ v. v.items) value ≡ value_of m key.now)
            × Stands self.new (after_delete m key.now)) }
        ensures kept { (m : SpecMap) → Stands self.old m → OnErr result (Stands self.new m) }
    {
        let old = self.get(alloc, key)?;
        self.entries = self.without(alloc, key)?;
        Ok(old)
    }

    /// The rows from `low` on and below `high`, where there is one. An error comes only for want of memory.
    pub fn range(
        &self,
        alloc: Global,
        low: &[u8],
        high: Option<&[u8]>,
    ) -> Result<Vec<Row>, AllocError>
        ensures { (m : SpecMap) → Stands self.now m →
            IfOk result (λ rows. map pair_with rows.items ≡ pairs_between m low.now
            (option_copied high.entry)) }
    {
        let mut rows = Vec::new(alloc);
        for entry in &self.entries {
            if !is_within(low, high, &entry.key) {
                continue;
            }
            rows.push(row_of(alloc, entry)?)?;
        }
        Ok(rows)
    }

    /// The first `most` rows from `low` on. An error comes only for want of memory.
    pub fn scan(&self, alloc: Global, low: &[u8], most: u64) -> Result<Vec<Row>, AllocError>
        ensures { (m : SpecMap) → Stands self.now m →
            IfOk result (λ rows. map pair_with rows.items ≡ scan m low.now most) }
    {
        let mut rows = self.range(alloc, low, None)?;
        rows.truncate(most as usize);
        Ok(rows)
    }
}

/// Whether a key lies from `low` on and below `high`, where there is one.
fn is_within(low: &[u8], high: Option<&[u8]>, key: &[u8]) -> bool
    ensures { result ≡ (is_from low.now key.now && is_before (option_copied high.entry) key.now) }
{
    let from = low.cmp(key).is_le();
    match high {
        Some(high) => from & key.cmp(high).is_lt(),
        None => from & true,
    }
}

/// A copy of an entry.
fn copy_of(alloc: Global, entry: &Entry) -> Result<Entry, AllocError>
    ensures { IfOk result (λ copy. stored_with copy ≡ stored_with entry.now) }
{
    Ok(Entry {
        key: Vec::from_slice(alloc, &entry.key)?,
        value: Vec::from_slice(alloc, &entry.value)?,
        stamp: entry.stamp,
    })
}

/// The key and value of an entry.
fn row_of(alloc: Global, entry: &Entry) -> Result<Row, AllocError>
    ensures { IfOk result (λ row. pair_with row ≡ pair_of (stored_with entry.now)) }
{
    Ok(Row {
        key: Vec::from_slice(alloc, &entry.key)?,
        value: Vec::from_slice(alloc, &entry.value)?,
    })
}
