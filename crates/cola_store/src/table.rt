//! An open store as a table: its calls.
use crate::calls::{stamp_of, ticks_between, value_of};
use crate::store::Store;
use cola_cell::{Format, Key, ReadFault, StepFault, Value};
use cola_cursor::Cursor;
use cola_device::Device;
use cola_outside::Steps;
use cola_table::{Put, PutFault, PutIf, Table};
use std::sync::ledger::Ledger;

impl<D: Device> Table for Store<D> {
    ghost use Rattle.cola_store.specs.Table.{store_table};

    type Walk = Cursor;

    ghost Kept = { (store_table D.Device).Kept };

    ghost kept = { (store_table D.Device).kept };

    ghost terms = { (store_table D.Device).terms };

    ghost faults = { (store_table D.Device).faults };

    ghost holds = { (store_table D.Device).holds };

    ghost answers = { (store_table D.Device).answers };

    ghost begins = { (store_table D.Device).begins };

    ghost goes = { (store_table D.Device).goes };

    ghost stands = { (store_table D.Device).stands };

    ghost ahead = { (store_table D.Device).ahead };

    ghost left = { (store_table D.Device).left };

    ghost most = { (store_table D.Device).most };

    /// The format of its keys and values.
    fn format(&self) -> Format {
        self.chain().runs().format()
    }

    /// The number of its keys.
    #[tactic(auto, using(crate::proofs::Storing::no_tick))]
    fn count(&self) -> u64 {
        self.keys_now()
    }

    /// Gives the key a value. Full exactly where a new key meets the limit, and then worn where no number is left to give,
    /// in format Two after `2^63`. A refusal leaves the count, the last number and every visible run.
    ///
    /// Its step is refused where the device failed; where a cell that a merge reads next is bad; and as overfull, by the
    /// number of a level that works at this clock, or of level 0, where the next run of that level fills its slot and a step
    /// would emit another cell. On a store that stands for a map it is refused by the device alone.
    #[tactic(auto, using(crate::proofs::Storing::ticked_between))]
    fn put<L: Ledger>(
        &mut self,
        key: &Key,
        value: &Value,
        steps: &mut Steps<L>,
    ) -> Result<(Put, u32), PutFault> {
        let before = self.ticked();
        match self.put_uncounted(key, value, steps) {
            Ok(put) => Ok((put, ticks_between(before, self.ticked()))),
            Err(fault) => Err(fault),
        }
    }

    /// A put that is made only where the key has the stamp seen, 0 where it is absent. That is tried before the causes of a
    /// put. In format One each stamp is 0. Another stamp leaves the clock, the count, the last number and every cell.
    #[tactic(auto, using(crate::proofs::Storing::ticked_between))]
    fn put_if<L: Ledger>(
        &mut self,
        key: &Key,
        seen: u64,
        value: &Value,
        steps: &mut Steps<L>,
    ) -> Result<(PutIf, u32), PutFault> {
        let before = self.ticked();
        match self.put_if_uncounted(key, seen, value, steps) {
            Ok(put) => Ok((put, ticks_between(before, self.ticked()))),
            Err(fault) => Err(fault),
        }
    }

    /// Takes the key out, and answers the value that it had. An absent key, a deleted one, and one that does not fit the
    /// format are answered none: no step is made, and the clock stays. A delete takes no number. A refusal leaves the count,
    /// the last number and every visible run. Its step is refused where the step of a put is: as overfull by a level that
    /// works at this clock, or by level 0, whose next run fills its slot where a step would emit another cell.
    #[tactic(auto, using(crate::proofs::Storing::ticked_between))]
    fn delete<L: Ledger>(
        &mut self,
        key: &Key,
        steps: &mut Steps<L>,
    ) -> Result<(Option<Value>, u32), StepFault> {
        let before = self.ticked();
        match self.delete_uncounted(key, steps) {
            Ok(old) => Ok((old, ticks_between(before, self.ticked()))),
            Err(fault) => Err(fault),
        }
    }

    /// The value of the key. It turns to two blocks for each level at most, and to one on a store that stands for a map.
    #[tactic(auto, using(crate::proofs::Storing::ticked_between))]
    fn get<L: Ledger>(
        &mut self,
        key: &Key,
        steps: &mut Steps<L>,
    ) -> Result<(Option<Value>, u32), ReadFault> {
        let before = self.ticked();
        match self.search(key, steps) {
            Ok(found) => Ok((value_of(&found), ticks_between(before, self.ticked()))),
            Err(fault) => Err(fault),
        }
    }

    /// The stamp of the key: the number of the put that gave its value, and 0 in format One. It costs as much as a get.
    #[tactic(auto, using(crate::proofs::Storing::ticked_between))]
    fn stamp<L: Ledger>(
        &mut self,
        key: &Key,
        steps: &mut Steps<L>,
    ) -> Result<(Option<u64>, u32), ReadFault> {
        let before = self.ticked();
        match self.search(key, steps) {
            Ok(found) => Ok((stamp_of(&found), ticks_between(before, self.ticked()))),
            Err(fault) => Err(fault),
        }
    }

    /// A walk over the pairs from `low` on and below `high`, by rising keys; with no upper end where `high` is absent. It
    /// searches each visible run from the link of the run above it, in at most 8 ticks for each. With every call on the walk
    /// it makes at most 9 ticks for each level and twice as many as the widest level has cells, and turns to at most one
    /// block for each tick. It is refused where the device failed, or a cell of a visible run is bad.
    fn range<L: Ledger>(
        &mut self,
        low: &Key,
        high: Option<&Key>,
        steps: &mut Steps<L>,
    ) -> Result<Cursor, ReadFault> {
        let runs = self.chain.visible();
        Cursor::seek(&mut self.chain, &runs, low, high, steps)
    }

    /// The next pair of the walk, or none where none is left, in a tick for each cell that it reads. It is refused where the
    /// device failed, or a cell that the walk reads next is bad. A refused call leaves the walk as it was, so that it may be
    /// asked again.
    fn next<L: Ledger>(
        &mut self,
        walk: &mut Cursor,
        steps: &mut Steps<L>,
    ) -> Result<Option<(Key, Value)>, ReadFault> {
        walk.next(&mut self.chain, steps)
    }
}
