//! Puts and deletes after their searches.
ghost use Rattle.std.specs.Prelude.{◌≡◌, ◌≤◌, false, None, OnErr};
ghost use Rattle.cola_cell.specs.Fault.{step_of_read};
ghost use Rattle.cola_cell.specs.Format.{KeyFits, ValueFits, stamp_limit};
ghost use Rattle.cola_spec.specs.Bounds.{put_bound};
ghost use Rattle.cola_spec.specs.Reply as reply;
ghost use Rattle.cola_table.specs.Answers.{PutFaults};
ghost use Rattle.cola_table.specs.Replies.{put_of_step, put_refused, step_failure, read_failure};
ghost use Rattle.cola_mutation.specs.Steps.{step_ticks};
ghost use Rattle.cola_store.specs.Store.{faults_of, kept_by, geometry_of, map_shape};
ghost use Rattle.cola_store.specs.Calls as calls;
ghost use Rattle.cola_store.specs.Calls.{stamped_found, worn_at, decided_by, number_by, refusal_of, count_with};
ghost use Rattle.cola_store.specs.Calls.{TransfersWithin, TicksBy, StepTransfers};
ghost use Rattle.cola_store.specs.OnMaps.{PutSearches, PutConcludes, PutsOnMap, PutsFoundOnMap};
ghost use Rattle.cola_store.specs.Walks.{WalksStay};

use crate::calls::{ticks_between, value_of};
use crate::store::Store;
use cola_cell::{Format, Item, Key, LAST_STAMP, ReadFault, StepFault, Value};
use cola_device::Device;
use cola_outside::Steps;
use cola_table::{Put, PutFault, Table};
use std::sync::ledger::Ledger;

/// Why a put was refused whose step was.
fn put_fault(fault: StepFault) -> PutFault
    ensures value { result ≡ put_of_step fault }
    ensures told { put_refused result ≡ reply.Failed (step_failure fault) }
{
    PutFault::from(fault)
}

/// Why a put was refused whose search was.
pub(crate) fn read_put_fault(fault: ReadFault) -> PutFault
    ensures value { result ≡ put_of_step (step_of_read fault) }
    ensures told { put_refused result ≡ reply.Failed (read_failure fault) }
{
    PutFault::from(fault)
}

/// What an accepted put answers to a key that had this value, or none.
fn put_of(old: Option<Value>) -> Put
    ensures { result ≡ calls.put_of old }
{
    match old {
        Some(value) => Put::Old(value),
        None => Put::New,
    }
}

impl<D: Device> Store<D> {
    /// Whether no number is left to give.
    fn is_worn(&self) -> bool
        ensures { result ≡ worn_at (map_shape self.now) self.now.last }
    {
        match self.format() {
            Format::One => false,
            Format::Two => self.last_number() >= LAST_STAMP,
        }
    }

    /// The number that the value of a put gets, to a key of which this was found.
    fn next_number(&self) -> u64
        requires { worn_at (map_shape self.now) self.now.last ≡ false }
        ensures value { result ≡ number_by self.now }
        ensures fits { result ≤ stamp_limit (geometry_of self.now).format }
    {
        match self.format() {
            Format::One => 0,
            Format::Two => self.last_number() + 1,
        }
    }

    /// Why a put to a key of which this was found is refused: full where a new key meets the limit, then worn where no number
    /// is left.
    fn refusal(&self, found: &Option<Item>) -> Option<PutFault>
        ensures { result ≡ refusal_of (decided_by self.now (stamped_found found.now)) }
    {
        let old = value_of(found);
        if old.is_none() && self.keys_now() >= self.limit() {
            return Some(PutFault::Full);
        }
        if self.is_worn() {
            return Some(PutFault::Worn);
        }
        None
    }

    /// How many keys there are after a put to a key of which this was found.
    fn count_after(&self, found: &Option<Item>) -> u64
        requires { refusal_of (decided_by self.now (stamped_found found.now)) ≡ None }
        ensures value { result ≡ count_with self.now.count (stamped_found found.now) }
        ensures fits { result ≤ (geometry_of self.now).keys }
    {
        let count = self.keys_now();
        match value_of(found) {
            Some(_) => count,
            None => count + 1,
        }
    }

    /// A put whose search found this: refused, or made by one step of the chain.
    pub(crate) fn put_found<L: Ledger>(
        &mut self,
        key: &Key,
        value: &Value,
        found: &Option<Item>,
        steps: &mut Steps<L>,
    ) -> Result<Put, PutFault>
        requires key_fits { KeyFits (geometry_of self.old).format key.now }
        requires value_fits { ValueFits (geometry_of self.old).format value.now }
        ensures concludes { PutConcludes D.Device self.old self.new key.now value.now found.now result }
        ensures answer { PutsFoundOnMap D.Device self.old self.new key.now value.now found.now result }
        ensures faults { PutFaults result
            (faults_of D.counts self.old) (faults_of D.counts self.new) }
        ensures ticks { TicksBy D.counts step_ticks self.old self.new steps.old steps.new }
        ensures transfers { StepTransfers D.counts self.old self.new }
        ensures kept { kept_by D.Device self.new ≡ kept_by D.Device self.old }
        ensures walks { OnErr result (WalksStay D.bytes self.old self.new) }
    {
        match self.refusal(found) {
            Some(fault) => return Err(fault),
            None => {}
        }
        let _ = key.bytes();
        let number = self.next_number();
        let after = self.count_after(found);
        let item = Item::Value {
            value: *value,
            stamp: number,
        };
        match self.write(key, &item, after, number, steps) {
            Ok(()) => Ok(put_of(value_of(found))),
            Err(fault) => Err(put_fault(fault)),
        }
    }

    /// A put: it searches, and then it is refused or made.
    pub(crate) fn put_uncounted<L: Ledger>(
        &mut self,
        key: &Key,
        value: &Value,
        steps: &mut Steps<L>,
    ) -> Result<Put, PutFault>
        requires key_fits { KeyFits (geometry_of self.old).format key.now }
        requires value_fits { ValueFits (geometry_of self.old).format value.now }
        ensures searches { PutSearches D.Device self.old self.new key.now value.now result }
        ensures within { TransfersWithin D.bytes D.counts self.old self.new }
        ensures answer { PutsOnMap D.Device self.old self.new key.now value.now result }
        ensures faults { PutFaults result
            (faults_of D.counts self.old) (faults_of D.counts self.new) }
        ensures ticks { TicksBy D.counts put_bound self.old self.new steps.old steps.new }
        ensures kept { kept_by D.Device self.new ≡ kept_by D.Device self.old }
        ensures walks { OnErr result (WalksStay D.bytes self.old self.new) }
    {
        match self.search(key, steps) {
            Ok(found) => self.put_found(key, value, &found, steps),
            Err(fault) => Err(read_put_fault(fault)),
        }
    }
}
