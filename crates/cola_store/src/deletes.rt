//! Deletes: each searches first.
ghost use Rattle.std.specs.Prelude.{◌≡◌, IfSome, OnErr};
ghost use Rattle.cola_cell.specs.Fault.{step_of_read};
ghost use Rattle.cola_cell.specs.Format.{KeyFits};
ghost use Rattle.cola_spec.specs.Bounds.{put_bound};
ghost use Rattle.cola_table.specs.Answers.{StepFaults, UnlessDeleted};
ghost use Rattle.cola_table.specs.Replies.{step_failure, read_failure};
ghost use Rattle.cola_mutation.specs.Steps.{step_ticks};
ghost use Rattle.cola_store.specs.Store.{faults_of, kept_by, geometry_of};
ghost use Rattle.cola_store.specs.Calls.{value_found, held_by};
ghost use Rattle.cola_store.specs.Calls.{TransfersWithin, TicksBy, StepTransfers, with_ticks};
ghost use Rattle.cola_store.specs.OnMaps.{DeleteSearches, DeleteConcludes, DeleteRemoves, DeletesOnMap, DeletesFoundOnMap, RemovesOnMap};
ghost use Rattle.cola_store.specs.Walks.{WalksStay};

use crate::calls::{ticks_between, value_of};
use crate::store::Store;
use cola_cell::{Item, Key, ReadFault, StepFault, Value};
use cola_device::Device;
use cola_outside::Steps;
use cola_table::Table;
use std::sync::ledger::Ledger;

/// Why a delete was refused whose search was.
fn read_step_fault(fault: ReadFault) -> StepFault
    ensures value { result ≡ step_of_read fault }
    ensures told { step_failure result ≡ read_failure fault }
{
    StepFault::from(fault)
}

impl<D: Device> Store<D> {
    /// The value that a delete takes out, of what its search found: none where the key does not fit the format, since no
    /// cell has such a key.
    fn held_value(&self, key: &Key, found: &Option<Item>) -> Option<Value>
        ensures value { result ≡ held_by (geometry_of self.now).format key.now (value_found found.now) }
        ensures fits { IfSome result (λ _. KeyFits (geometry_of self.now).format key.now) }
    {
        if key.fits(self.format()) {
            value_of(found)
        } else {
            None
        }
    }

    /// Takes out a key that has this value: one step of the chain, with a tombstone. A count of 0 stays 0.
    fn take_out<L: Ledger>(
        &mut self,
        key: &Key,
        value: &Value,
        steps: &mut Steps<L>,
    ) -> Result<Option<Value>, StepFault>
        requires { KeyFits (geometry_of self.old).format key.now }
        ensures writes { DeleteRemoves D.Device self.old self.new key.now value.now result }
        ensures answer { RemovesOnMap D.Device self.old self.new key.now value.now result }
        ensures faults { StepFaults result
            (faults_of D.counts self.old) (faults_of D.counts self.new) }
        ensures ticks { TicksBy D.counts step_ticks self.old self.new steps.old steps.new }
        ensures transfers { StepTransfers D.counts self.old self.new }
        ensures kept { kept_by D.Device self.new ≡ kept_by D.Device self.old }
        ensures walks { OnErr result (WalksStay D.bytes self.old self.new) }
    {
        let after = self.keys_now().saturating_sub(1);
        let last = self.last_number();
        match self.write(key, &Item::Tombstone, after, last, steps) {
            Ok(()) => Ok(Some(*value)),
            Err(fault) => Err(fault),
        }
    }

    /// A delete whose search found this: it answers none, or is one step of the chain.
    fn delete_found<L: Ledger>(
        &mut self,
        key: &Key,
        found: &Option<Item>,
        steps: &mut Steps<L>,
    ) -> Result<Option<Value>, StepFault>
        ensures removes { DeleteConcludes D.Device self.old self.new key.now found.now result }
        ensures answer { DeletesFoundOnMap D.Device self.old self.new key.now found.now result }
        ensures faults { StepFaults result
            (faults_of D.counts self.old) (faults_of D.counts self.new) }
        ensures ticks { TicksBy D.counts step_ticks self.old self.new steps.old steps.new }
        ensures transfers { StepTransfers D.counts self.old self.new }
        ensures kept { kept_by D.Device self.new ≡ kept_by D.Device self.old }
        ensures walks { UnlessDeleted (WalksStay D.bytes self.old self.new) (with_ticks result) }
    {
        match self.held_value(key, found) {
            Some(value) => self.take_out(key, &value, steps),
            None => Ok(None),
        }
    }

    /// A delete: it searches, and then it answers none or is made.
    pub(crate) fn delete_uncounted<L: Ledger>(
        &mut self,
        key: &Key,
        steps: &mut Steps<L>,
    ) -> Result<Option<Value>, StepFault>
        ensures searches { DeleteSearches D.Device self.old self.new key.now result }
        ensures within { TransfersWithin D.bytes D.counts self.old self.new }
        ensures answer { DeletesOnMap D.Device self.old self.new key.now result }
        ensures faults { StepFaults result
            (faults_of D.counts self.old) (faults_of D.counts self.new) }
        ensures ticks { TicksBy D.counts put_bound self.old self.new steps.old steps.new }
        ensures kept { kept_by D.Device self.new ≡ kept_by D.Device self.old }
        ensures walks { UnlessDeleted (WalksStay D.bytes self.old self.new) (with_ticks result) }
    {
        match self.search(key, steps) {
            Ok(found) => self.delete_found(key, &found, steps),
            Err(fault) => Err(read_step_fault(fault)),
        }
    }
}
