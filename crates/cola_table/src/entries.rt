//! Entries in an order, in room that is taken once.
ghost use Rattle.std.specs.Prelude.{◌≡◌, ◌+◌, ◌^◌, ◌≤◌, ◌<◌, ◌↔◌, ℕ, [], List, length, IfOk, IsTrue, slice_index_or, slice_set};
ghost use Rattle.std.specs.List.{insert, remove};
ghost use Rattle.cola_spec.specs.Map.{Stored};

use crate::entry::Entry;
use std::alloc::{AllocError, Global};
use std::marker::Model;

/// At most a limit of entries. Only `with_room` takes memory.
///
/// An entry lies in a slot for as long as it is there, so that an entry that comes or goes moves the
/// numbers of slots alone.
#[derive(Debug, Drop)]
pub struct Entries {
    slots: Vec<Entry>,
    /// The slots of the entries, in their order.
    order: Vec<u32>,
    /// The slots that no entry has.
    free: Vec<u32>,
    limit: u32,
}

impl Model for Entries {
    ghost use Rattle.std.specs.Prelude.{◌≤◌, length, vec_capacity};
    ghost use Rattle.cola_table.specs.Flat.{Entries, entries_code};
    ghost use Rattle.cola_table.specs.Slots.{in_order, AreSlots};

    ghost Value = { Entries };

    ghost coded = { entries_code };

    ghost view = { λ e. record { limit = e.limit; list = in_order e.slots.items e.order.items } };

    ghost invariant = { λ e. record {
      are_slots : AreSlots e.limit (length e.slots.items) e.order.items e.free.items;
      slots_room : e.limit ≤ vec_capacity e.slots;
      order_room : e.limit ≤ vec_capacity e.order;
      free_room : e.limit ≤ vec_capacity e.free;
    } };
}

impl Entries {
    /// Room for `limit` entries, with none in it.
    pub fn with_room(alloc: Global, limit: u32) -> Result<Entries, AllocError>
        ensures { IfOk result (λ room. room ≡ record { limit = limit; list = [] }) }
    {
        let slots = Vec::with_capacity(alloc, limit as usize)?;
        let order = Vec::with_capacity(alloc, limit as usize)?;
        let free = Vec::with_capacity(alloc, limit as usize)?;
        Ok(Entries {
            slots,
            order,
            free,
            limit,
        })
    }

    /// How many entries there are.
    pub fn len(&self) -> usize
        ensures value { result ≡ length self.now.list }
        ensures small { result < 2 ^ 32 }
    {
        prove!(self.order.len() <= self.limit as usize);
        self.order.len()
    }

    /// Whether there are as many entries as there may be.
    pub fn is_full(&self) -> bool
        ensures { IsTrue result ↔ (self.now.limit ≤ length self.now.list) }
    {
        self.order.len() >= self.limit as usize
    }

    /// The entry at a place.
    pub fn at(&self, place: usize) -> &Entry
        requires { place < length self.now.list }
        ensures { slice_index_or self.now.list place result.now ≡ result.now }
    {
        &self.slots[self.order[place] as usize]
    }

    /// Puts an entry in the place of another.
    pub fn replace(&mut self, place: usize, entry: Entry)
        requires { place < length self.old.list }
        ensures { self.new ≡ record self.old { list = slice_set self.old.list place entry } }
    {
        let slot = self.order[place] as usize;
        self.slots[slot] = entry;
    }

    /// Puts an entry at a place, and moves those from there on up by one.
    pub fn insert(&mut self, place: usize, entry: Entry)
        requires in_range { place ≤ length self.old.list }
        requires has_room { length self.old.list < self.old.limit }
        ensures { self.new ≡ record self.old { list = insert self.old.list place entry } }
    {
        match self.free.pop() {
            Some(slot) => {
                self.slots[slot as usize] = entry;
                let _in_place = self.order.insert(place, slot);
            }
            None => {
                let slot = self.slots.len() as u32;
                let _pushed = self.slots.push(entry);
                let _in_place = self.order.insert(place, slot);
            }
        }
    }

    /// Takes the entry at a place out, and moves those after it down by one.
    pub fn remove(&mut self, place: usize) -> Entry
        requires { place < length self.old.list }
        ensures entry { slice_index_or self.old.list place result ≡ result }
        ensures kept { self.new ≡ record self.old { list = remove self.old.list place } }
    {
        let slot = self.order.remove(place);
        let _pushed = self.free.push(slot);
        self.slots[slot as usize]
    }
}
