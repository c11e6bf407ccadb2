//! An open store by falling keys.
ghost use Rattle.std.specs.Prelude.{◌≡◌, ◌+◌, ◌*◌, ◌^◌, ◌≤◌, ◌<◌, IfOk, length, option_copied};
ghost use Rattle.std.specs.Bound.{bound_map};
ghost use Rattle.std.specs.declared.ops.Bound.TheVariants.{Unbounded};
ghost use Rattle.cola_spec.specs.Bounds.{range_bound};
ghost use Rattle.cola_spec.specs.Map.{Map};
ghost use Rattle.cola_table.specs.Answers.{KeepsWalks, ReadFaults};
ghost use Rattle.cola_table.specs.Terms.{Call};
ghost use Rattle.cola_store.specs.Backward.{AsksLast, BeginsBack, LastAnswers, RangeBackAnswers};
ghost use Rattle.cola_store.specs.Store.{Holds, faults_of, kept_by, levels_of, runs_of, terms_of};
ghost use Rattle.cola_store.specs.Walks.{Ahead, Stands, WalksStay, cells_ahead, left_of};

use crate::store::Store;
use cola_cell::{Key, ReadFault, Value};
use cola_cursor::Cursor;
use cola_device::Device;
use cola_outside::Steps;
use cola_table::Table;
use std::ops::Bound;
use std::sync::ledger::Ledger;

impl<D: Device> Store<D> {
    /// A walk over the pairs from `low` on, where there is one, and up to `high`, by falling keys; `next` goes on it as on
    /// that of a range, with the costs and refusals of that. It begins as a range does, in as many ticks at most, and from
    /// the end, where `high` is unbounded, without reading a cell.
    pub fn range_back<L: Ledger>(
        &mut self,
        low: Option<&Key>,
        high: Bound<&Key>,
        steps: &mut Steps<L>,
    ) -> Result<Cursor, ReadFault>
        ensures answer { (m : Map) → Holds D.bytes self.old m →
            RangeBackAnswers m (option_copied low.entry) (bound_map (λ key. key.now) high.entry)
            (Holds D.bytes self.new) (Ahead D.bytes self.new) result }
        ensures given { BeginsBack D.bytes D.counts self.old (option_copied low.entry)
            (bound_map (λ key. key.now) high.entry) result self.new }
        ensures stands { IfOk result (λ walk. Stands D.bytes self.new walk) }
        ensures most { IfOk result (λ walk. cells_ahead walk < 2 ^ 64) }
        ensures call { Call (terms_of self.old) (terms_of self.new)
            (faults_of D.counts self.old) (faults_of D.counts self.new)
            steps.old steps.new (range_bound (levels_of self.old)) }
        ensures left { IfOk result
            (λ walk. steps.new + left_of walk ≤ steps.old + range_bound (levels_of self.old)) }
        ensures few { steps.new ≤ steps.old + 8 * length (runs_of self.old) }
        ensures unread { bound_map (λ key. key.now) high.entry ≡ Unbounded → steps.new ≡ steps.old }
        ensures faults { ReadFaults result
            (faults_of D.counts self.old) (faults_of D.counts self.new) }
        ensures kept { kept_by D.Device self.new ≡ kept_by D.Device self.old }
        ensures walks { WalksStay D.bytes self.old self.new }
    {
        let runs = self.chain.visible();
        Cursor::seek_back(&mut self.chain, &runs, low, high, steps)
    }

    /// The pair of the greatest key, and none where it has no key: a walk that falls is begun at the end, which reads
    /// nothing, and asked once. It passes the tombstones above that key, of which there may be as many as keys were deleted.
    pub fn last<L: Ledger>(
        &mut self,
        steps: &mut Steps<L>,
    ) -> Result<Option<(Key, Value)>, ReadFault>
        ensures answer { (m : Map) → Holds D.bytes self.old m →
            LastAnswers m (Holds D.bytes self.new) result }
        ensures given { AsksLast D.bytes D.counts self.old result self.new steps.old steps.new }
        ensures call { Call (terms_of self.old) (terms_of self.new)
            (faults_of D.counts self.old) (faults_of D.counts self.new)
            steps.old steps.new (range_bound (levels_of self.old)) }
        ensures faults { ReadFaults result
            (faults_of D.counts self.old) (faults_of D.counts self.new) }
        ensures kept { kept_by D.Device self.new ≡ kept_by D.Device self.old }
        ensures walks { WalksStay D.bytes self.old self.new }
    {
        let mut walk = self.range_back(None, Bound::Unbounded, steps)?;
        self.next(&mut walk, steps)
    }
}
