//! Puts that depend on the stamp seen.
ghost use Rattle.std.specs.Prelude.{◌≡◌};
ghost use Rattle.cola_cell.specs.Format.{KeyFits, ValueFits};
ghost use Rattle.cola_spec.specs.Bounds.{put_bound};
ghost use Rattle.cola_table.specs.Answers.{PutFaults, UnlessPut};
ghost use Rattle.cola_mutation.specs.Steps.{step_ticks};
ghost use Rattle.cola_store.specs.Store.{faults_of, kept_by, geometry_of};
ghost use Rattle.cola_store.specs.Calls as calls;
ghost use Rattle.cola_store.specs.Calls.{stamped_found};
ghost use Rattle.cola_store.specs.Calls.{TransfersWithin, TicksBy, StepTransfers, with_ticks};
ghost use Rattle.cola_store.specs.OnMaps.{PutIfSearches, PutIfConcludes, PutsIfOnMap, PutsIfFoundOnMap};
ghost use Rattle.cola_store.specs.Walks.{WalksStay};

use crate::calls::{stamp_of, ticks_between};
use crate::puts::read_put_fault;
use crate::store::Store;
use cola_cell::{Item, Key, Value};
use cola_device::Device;
use cola_outside::Steps;
use cola_table::{PutFault, PutIf};
use std::sync::ledger::Ledger;

/// The stamp of what a search found, and 0 where it found none or a tombstone.
fn stamp_or_zero(found: &Option<Item>) -> u64
    ensures { result ≡ calls.stamp_or_zero (stamped_found found.now) }
{
    match stamp_of(found) {
        Some(stamp) => stamp,
        None => 0,
    }
}

impl<D: Device> Store<D> {
    /// A put that depends on the stamp seen, whose search found this.
    fn put_if_found<L: Ledger>(
        &mut self,
        key: &Key,
        seen: u64,
        value: &Value,
        found: &Option<Item>,
        steps: &mut Steps<L>,
    ) -> Result<PutIf, PutFault>
        requires key_fits { KeyFits (geometry_of self.old).format key.now }
        requires value_fits { ValueFits (geometry_of self.old).format value.now }
        ensures concludes { PutIfConcludes D.Device self.old self.new
            key.now seen value.now found.now result }
        ensures answer { PutsIfFoundOnMap D.Device self.old self.new
            key.now seen value.now found.now result }
        ensures faults { PutFaults result
            (faults_of D.counts self.old) (faults_of D.counts self.new) }
        ensures ticks { TicksBy D.counts step_ticks self.old self.new steps.old steps.new }
        ensures transfers { StepTransfers D.counts self.old self.new }
        ensures kept { kept_by D.Device self.new ≡ kept_by D.Device self.old }
        ensures walks { UnlessPut (WalksStay D.bytes self.old self.new) (with_ticks result) }
    {
        let stamp = stamp_or_zero(found);
        if stamp != seen {
            return Ok(PutIf::Other(stamp));
        }
        match self.put_found(key, value, found, steps) {
            Ok(put) => Ok(PutIf::from(put)),
            Err(fault) => Err(fault),
        }
    }

    /// A put that depends on the stamp seen: it searches, and then it is refused or made.
    pub(crate) fn put_if_uncounted<L: Ledger>(
        &mut self,
        key: &Key,
        seen: u64,
        value: &Value,
        steps: &mut Steps<L>,
    ) -> Result<PutIf, PutFault>
        requires key_fits { KeyFits (geometry_of self.old).format key.now }
        requires value_fits { ValueFits (geometry_of self.old).format value.now }
        ensures searches { PutIfSearches D.Device self.old self.new key.now seen value.now result }
        ensures within { TransfersWithin D.bytes D.counts self.old self.new }
        ensures answer { PutsIfOnMap D.Device self.old self.new key.now seen value.now result }
        ensures faults { PutFaults result
            (faults_of D.counts self.old) (faults_of D.counts self.new) }
        ensures ticks { TicksBy D.counts put_bound self.old self.new steps.old steps.new }
        ensures kept { kept_by D.Device self.new ≡ kept_by D.Device self.old }
        ensures walks { UnlessPut (WalksStay D.bytes self.old self.new) (with_ticks result) }
    {
        match self.search(key, steps) {
            Ok(found) => self.put_if_found(key, seen, value, &found, steps),
            Err(fault) => Err(read_put_fault(fault)),
        }
    }
}
