//! An open store: its chain, how many keys it has, and the last number that was given to a value.
ghost use Rattle.std.specs.Prelude.{◌≡◌, ◌+◌, ◌%◌, ◌^◌, ◌≤◌, length, OnErr};
ghost use Rattle.cola_cell.specs.Format.{KeyFits, ItemFits, stamp_limit};
ghost use Rattle.cola_spec.specs.Bounds.{get_bound};
ghost use Rattle.cola_spec.specs.Map.{Map};
ghost use Rattle.cola_table.specs.Answers.{ReadFaults, StepFaults};
ghost use Rattle.cola_mutation.specs.Steps.{step_ticks};
ghost use Rattle.cola_chain.specs.Account.{IsPaid};
ghost use Rattle.cola_chain.specs.Contents as chain_held;
ghost use Rattle.cola_store.specs.Store.{new_account, IsStored, IsMadeAfter, Holds, spent_of, faults_of, kept_by, geometry_of, levels_of};
ghost use Rattle.cola_store.specs.Calls.{FindsIn, Searches, TicksBy, StepTransfers};
ghost use Rattle.cola_store.specs.Calls as calls;
ghost use Rattle.cola_store.specs.OnMaps.{WritesOnMap};
ghost use Rattle.cola_store.specs.Walks.{WalksStay};

use crate::account::{Account, one_more};
use cola_cell::{CellSource, Item, Key, ReadFault, StepFault};
use cola_chain::Chain;
use cola_device::{Counts, Device};
use cola_outside::Steps;
use cola_search::find;
use std::marker::Model;
use std::sync::ledger::Ledger;

/// An open store over the device `D`. Contracts see it as its chain, the count of its keys, its last number and its account.
#[derive(Drop)]
pub struct Store<D: Device> {
    pub(crate) chain: Chain<D>,
    count: u64,
    last: u64,
    account: Account,
}

impl<D: Device> Model for Store<D> {
    ghost use Rattle.cola_store.specs.Store.{Stored, IsStored};

    ghost Value = { Stored D };

    ghost view = { λ s. record { chain = s.chain; count = s.count; last = s.last; account = s.account } };

    ghost invariant = { λ s. IsStored D.bytes D.counts (record { chain = s.chain; count = s.count; last = s.last; account = s.account }) };
}

impl<D: Device> Store<D> {
    /// The store of a chain whose file was just opened, with so many keys, at most those that it is for, this last number,
    /// which its format has, and the counts of the device at the opening.
    pub(crate) fn of(chain: Chain<D>, count: u64, last: u64, opened: Counts) -> Store<D>
        requires many { length chain.levels ≡ chain.store.geometry.bottom + 1 }
        requires count_fits { count ≤ chain.store.geometry.keys }
        requires last_fits { last ≤ stamp_limit chain.store.geometry.format }
        requires made { IsMadeAfter opened (chain_held.held_of D.bytes chain) }
        requires paid { IsPaid D.bytes D.counts chain }
        requires written { (chain_held.spent_of D.counts chain).written ≤ opened.writes + 1 + chain.writes }
        ensures { result ≡ record { chain = chain; count = count; last = last; account = new_account opened } }
    {
        Store {
            chain,
            count,
            last,
            account: Account {
                searches: 0,
                opened,
                calm: true,
            },
        }
    }

    /// Its chain, the count of its keys and its last number.
    pub(crate) fn into_parts(self) -> (Chain<D>, u64, u64)
        ensures parts { result ≡ (self.chain, self.count, self.last) }
        ensures sound { IsStored D.bytes D.counts self }
    {
        let Store {
            chain,
            count,
            last,
            ..
        } = self;
        (chain, count, last)
    }

    /// The number of keys.
    pub(crate) fn keys_now(&self) -> u64
        ensures value { result ≡ self.now.count }
        ensures sound { IsStored D.bytes D.counts self.now }
    {
        self.count
    }

    /// The last number that was given to a value.
    pub(crate) fn last_number(&self) -> u64
        ensures value { result ≡ self.now.last }
        ensures sound { IsStored D.bytes D.counts self.now }
    {
        self.last
    }

    /// What it counted since its opening, beside its steps.
    pub fn account(&self) -> &Account
        ensures { result.now ≡ self.now.account }
    {
        &self.account
    }

    /// The steps that were accepted since its opening, up to the last value of `u64`.
    pub fn steps(&self) -> u64
        ensures { result ≡ self.now.chain.accepted }
    {
        self.chain.accepted()
    }

    /// Its chain.
    pub(crate) fn chain(&self) -> &Chain<D>
        ensures value { result.now ≡ self.now.chain }
        ensures sound { IsStored D.bytes D.counts self.now }
    {
        &self.chain
    }

    /// The keys that the store is for.
    pub(crate) fn limit(&self) -> u64
        ensures { result ≡ (geometry_of self.now).keys }
    {
        self.chain.runs().geometry().keys
    }

    /// The number of its levels, 4 to 23.
    pub fn levels(&self) -> u8
        ensures { result ≡ levels_of self.now }
    {
        self.chain.runs().geometry().levels()
    }

    /// How many ticks it has made, modulo `2^64`.
    pub(crate) fn ticked(&self) -> u64
        ensures { result ≡ (spent_of D.counts self.now).ticked % 2 ^ 64 }
    {
        self.chain.ticked()
    }

    /// Searches the visible runs for a key: the item of the first that has one, a tombstone too.
    pub(crate) fn search<L: Ledger>(
        &mut self,
        key: &Key,
        steps: &mut Steps<L>,
    ) -> Result<Option<Item>, ReadFault>
        ensures searches { Searches D.bytes D.counts self.old self.new key.now result }
        ensures right { (m : Map) → Holds D.bytes self.old m → FindsIn m key.now result }
        ensures faults { ReadFaults result
            (faults_of D.counts self.old) (faults_of D.counts self.new) }
        ensures ticks { TicksBy D.counts get_bound self.old self.new steps.old steps.new }
        ensures kept { kept_by D.Device self.new ≡ kept_by D.Device self.old }
    {
        self.account.searches = one_more(self.account.searches);
        let runs = self.chain.visible();
        find(&mut self.chain, &runs, key, steps)
    }

    /// One step of the chain, by which the key gets the item; then there are so many keys and this last number. A refusal
    /// leaves both.
    pub(crate) fn write<L: Ledger>(
        &mut self,
        key: &Key,
        item: &Item,
        count: u64,
        last: u64,
        steps: &mut Steps<L>,
    ) -> Result<(), StepFault>
        requires key_fits { KeyFits (geometry_of self.old).format key.now }
        requires item_fits { ItemFits (geometry_of self.old).format item.now }
        requires count_fits { count ≤ (geometry_of self.old).keys }
        requires last_fits { last ≤ stamp_limit (geometry_of self.old).format }
        ensures steps { calls.Steps D.bytes D.counts self.old self.new key.now item.now count last result }
        // on a store that stands for a map, where the count and the number are those of the map with the item
        ensures right { WritesOnMap D.Device self.old self.new key.now item.now count last result }
        ensures faults { StepFaults result
            (faults_of D.counts self.old) (faults_of D.counts self.new) }
        ensures ticks { TicksBy D.counts step_ticks self.old self.new steps.old steps.new }
        ensures transfers { StepTransfers D.counts self.old self.new }
        ensures kept { kept_by D.Device self.new ≡ kept_by D.Device self.old }
        ensures walks { OnErr result (WalksStay D.bytes self.old self.new) }
    {
        match self.chain.step(key, item, steps) {
            Ok(()) => {
                self.count = count;
                self.last = last;
                Ok(())
            }
            Err(fault) => {
                self.account.calm = false;
                Err(fault)
            }
        }
    }
}
