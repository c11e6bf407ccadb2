//! The table in memory: a sorted vector, reserved at the start.
ghost use Rattle.std.specs.FinMap.{is_sorted, find};
ghost use Rattle.std.specs.Prelude.{◌≡◌, ◌+◌, ◌-◌, ◌^◌, ◌≤◌, ◌<◌, ℕ, length, IsTrue, List, Option, IfOk, IfErr, OnOk, OnErr, option_copied, option_map, All, OnSome};
ghost use Rattle.cola_cell.specs.declared.format.Format.TheVariants.{One, Two};
ghost use Rattle.cola_cell.specs.Format.{KeyFits, ValueFits};
ghost use Rattle.cola_spec.specs.Map.{Map, IsMap, Stored, count, key_cmp, empty_map, is_before};
ghost use Rattle.cola_spec.specs.Bounds.{put_bound, get_bound, range_bound};
ghost use Rattle.cola_table.specs.Terms.{Terms, Call, shape};
ghost use Rattle.cola_table.specs.Answers.{PutAnswers, PutIfAnswers, DeleteAnswers, GetAnswers, StampAnswers, RangeAnswers, NextAnswers, PutFaults, StepFaults, ReadFaults, KeepsWalks, UnlessPut, UnlessDeleted};
ghost use Rattle.cola_table.specs.Flat.{HasKeyAt, LacksKey, terms_of, place_of};
ghost use Rattle.cola_table.specs.Walks.{Stands, Ahead, most_ahead};

use crate::entries::Entries;
use crate::entry::Entry;
use crate::table::Table;
use crate::{Put, PutFault, PutIf};
use cola_cell::{Format, Key, ReadFault, StepFault, Value};
use cola_outside::Steps;
use std::alloc::{AllocError, Global};
use std::marker::Model;
use std::sync::ledger::Ledger;

/// An ordered map of at most a limit of keys, in memory that is taken at the start.
///
/// It holds a map at any time. A put is refused only where the table is full, and no other call is
/// refused. Its format is One, and no call makes a step.
#[derive(Debug, Drop)]
pub struct FlatTable {
    entries: Entries,
}

impl Model for FlatTable {
    ghost use Rattle.cola_table.specs.Flat.{Flat, flat_code, map_of, AreFlat};

    ghost Value = { Flat };

    ghost coded = { flat_code };

    ghost view = { λ t. record { limit = t.entries.limit; map = map_of t.entries.list } };

    ghost invariant = { λ t. AreFlat t.entries.limit t.entries.list };
}

/// A walk over a range of a table in memory.
#[derive(Clone, Copy, Debug, Drop)]
pub struct FlatWalk {
    place: u32,
    high: Option<Key>,
}

impl FlatTable {
    /// A table for at most `keys` keys, with none in it. An error comes only for want of memory.
    pub fn new(alloc: Global, keys: u32) -> Result<FlatTable, AllocError>
        ensures { IfOk result (λ table. table ≡ record { limit = keys; map = empty_map }) }
    {
        let entries = Entries::with_room(alloc, keys)?;
        Ok(FlatTable { entries })
    }
}

// How many entries have smaller keys.
fn place_of(entries: &Entries, key: &Key) -> usize
    requires { IsTrue (is_sorted key_cmp entries.now.list) }
    ensures place { result ≡ place_of key_cmp key.now entries.now.list }
    ensures in_range { result ≤ length entries.now.list }
    ensures small { result < 2 ^ 32 }
{
    let mut low = 0;
    let mut high = entries.len();
    while low < high {
        let middle = low + (high - low) / 2;
        if entries.at(middle).key() < key {
            low = middle + 1;
        } else {
            high = middle;
        }
    }
    low
}

// Where the key is, or where it would go.
fn search(entries: &Entries, key: &Key) -> Result<usize, usize>
    requires { IsTrue (is_sorted key_cmp entries.now.list) }
    ensures found { IfOk result (HasKeyAt entries.now.list key.now) }
    ensures absent { IfErr result (LacksKey entries.now.list key.now) }
{
    let place = place_of(entries, key);
    if place < entries.len() && entries.at(place).key() == key {
        Ok(place)
    } else {
        Err(place)
    }
}

// The value of a key.
fn find(entries: &Entries, key: &Key) -> Option<Value>
    requires { IsTrue (is_sorted key_cmp entries.now.list) }
    ensures { result ≡ option_map (λ s. s.value) (find key_cmp key.now entries.now.list) }
{
    match search(entries, key) {
        Ok(place) => Some(*entries.at(place).value()),
        Err(_) => None,
    }
}

// The stamp of a key: each is 0.
fn stamp_of(entries: &Entries, key: &Key) -> Option<u64>
    requires rising { IsTrue (is_sorted key_cmp entries.now.list) }
    requires unstamped { All (λ entry. entry.1.stamp ≡ 0) entries.now.list }
    ensures { result ≡ option_map (λ s. s.stamp) (find key_cmp key.now entries.now.list) }
{
    match search(entries, key) {
        Ok(_) => Some(0),
        Err(_) => None,
    }
}

impl Table for FlatTable {
    ghost use Rattle.std.specs.Prelude.{◌≡◌, ◌+◌, ◌-◌, ◌^◌, ◌≤◌, ◌<◌, ℕ, List, Option, IfOk, IfErr, OnOk, OnErr, option_copied, OnSome};
    ghost use Rattle.cola_cell.specs.declared.format.Format.TheVariants.{One, Two};
    ghost use Rattle.cola_cell.specs.Format.{KeyFits, ValueFits};
    ghost use Rattle.cola_spec.specs.Map.{Map, IsMap, count};
    ghost use Rattle.cola_spec.specs.Bounds.{put_bound, get_bound, range_bound};
    ghost use Rattle.cola_table.specs.Terms.{Terms, Call, shape};
    ghost use Rattle.cola_table.specs.Answers.{PutAnswers, PutIfAnswers, DeleteAnswers, GetAnswers, StampAnswers, RangeAnswers, NextAnswers, PutFaults, StepFaults, ReadFaults, KeepsWalks, UnlessPut, UnlessDeleted};
    ghost use Rattle.cola_table.specs.Flat.{terms_of};
    ghost use Rattle.cola_table.specs.Walks.{Stands, Ahead, most_ahead};

    type Walk = FlatWalk;

    ghost kept = { λ _. tt };

    ghost terms = { terms_of };

    ghost faults = { λ _. 0 };

    ghost holds = { λ t m. m ≡ t.map };

    // It holds a map at any time, and each answer is the map's.
    ghost answers = { λ _ _ _. Unit {0} };

    ghost begins = { λ _ _ _ _ _. Unit {0} };

    ghost goes = { λ _ _ _ _ _. Unit {0} };

    ghost stands = { Stands };

    ghost ahead = { Ahead };

    ghost left = { λ _. 0 };

    ghost most = { most_ahead };

    fn format(&self) -> Format {
        Format::One
    }

    fn count(&self) -> u64 {
        self.entries.len() as u64
    }

    fn put<L: Ledger>(
        &mut self,
        key: &Key,
        value: &Value,
        _steps: &mut Steps<L>,
    ) -> Result<(Put, u32), PutFault> {
        let entry = Entry::new(*key, *value);
        match search(&self.entries, key) {
            Ok(place) => {
                let old = *self.entries.at(place).value();
                self.entries.replace(place, entry);
                Ok((Put::Old(old), 0))
            }
            Err(place) => {
                if self.entries.is_full() {
                    return Err(PutFault::Full);
                }
                self.entries.insert(place, entry);
                Ok((Put::New, 0))
            }
        }
    }

    fn put_if<L: Ledger>(
        &mut self,
        key: &Key,
        seen: u64,
        value: &Value,
        steps: &mut Steps<L>,
    ) -> Result<(PutIf, u32), PutFault> {
        let stamp = stamp_of(&self.entries, key).unwrap_or(0);
        if stamp != seen {
            return Ok((PutIf::Other(stamp), 0));
        }
        match self.put(key, value, steps) {
            Ok((put, count)) => Ok((PutIf::from(put), count)),
            Err(refusal) => Err(refusal),
        }
    }

    fn delete<L: Ledger>(
        &mut self,
        key: &Key,
        _steps: &mut Steps<L>,
    ) -> Result<(Option<Value>, u32), StepFault> {
        match search(&self.entries, key) {
            Ok(place) => Ok((Some(*self.entries.remove(place).value()), 0)),
            Err(_) => Ok((None, 0)),
        }
    }

    fn get<L: Ledger>(
        &mut self,
        key: &Key,
        _steps: &mut Steps<L>,
    ) -> Result<(Option<Value>, u32), ReadFault> {
        Ok((find(&self.entries, key), 0))
    }

    fn stamp<L: Ledger>(
        &mut self,
        key: &Key,
        _steps: &mut Steps<L>,
    ) -> Result<(Option<u64>, u32), ReadFault> {
        Ok((stamp_of(&self.entries, key), 0))
    }

    fn range<L: Ledger>(
        &mut self,
        low: &Key,
        high: Option<&Key>,
        steps: &mut Steps<L>,
    ) -> Result<FlatWalk, ReadFault>
        ensures answer { (m : Map) → m ≡ self.old.map →
            RangeAnswers m low.now (option_copied high.entry) (λ m'. m' ≡ self.new.map)
            (Ahead self.new) result }
        ensures stands { IfOk result (λ walk. Stands self.new walk) }
        ensures most { IfOk result (λ walk. most_ahead walk < 2 ^ 64) }
        ensures call { Call (terms_of self.old) (terms_of self.new) 0 0 steps.old steps.new
            (range_bound 0) }
        ensures left { IfOk result (λ _. steps.new + 0 ≤ steps.old + range_bound 0) }
        ensures faults { ReadFaults result 0 0 }
        ensures walks { KeepsWalks (Stands self.old) (Stands self.new) (Ahead self.old)
            (Ahead self.new) }
        // Those were the trait's clauses; and no step is made.
        ensures free { steps.new ≡ steps.old }
    {
        let place = place_of(&self.entries, low) as u32;
        Ok(FlatWalk {
            place,
            high: high.copied(),
        })
    }

    fn next<L: Ledger>(
        &mut self,
        walk: &mut FlatWalk,
        _steps: &mut Steps<L>,
    ) -> Result<Option<(Key, Value)>, ReadFault> {
        if walk.place as usize >= self.entries.len() {
            return Ok(None);
        }
        let entry = *self.entries.at(walk.place as usize);
        if !is_below(entry.key(), &walk.high) {
            return Ok(None);
        }
        walk.place += 1;
        Ok(Some((*entry.key(), *entry.value())))
    }
}

// Whether the key is below the upper end, where there is one.
fn is_below(key: &Key, high: &Option<Key>) -> bool
    ensures { result ≡ is_before high.now key.now }
{
    match high {
        Some(high) => key < high,
        None => true,
    }
}
