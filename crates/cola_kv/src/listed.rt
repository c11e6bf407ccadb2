//! Calls of an open store one after another.
ghost use Rattle.std.specs.Prelude.{◌≡◌, ◌↔◌, ◌+◌, ◌≤◌, length, OnErr, IfOk, IsTrue};
ghost use Rattle.cola_spec.specs.Bounds.{command_bound};
ghost use Rattle.cola_store.specs.Transfers.{IsCounting};
ghost use Rattle.cola_kv.specs.Kv.{levels_of, steps_of, writes_of, WritesWithin};
ghost use Rattle.cola_kv.specs.Listed.{Carries, CarriesAll, command_of, most_ticks};

use crate::error::Error;
use crate::kv::Kv;
use crate::list::{Answer, Call};
use cola_device::Device;
use cola_outside::Steps;
use std::alloc::{AllocError, Global};
use std::sync::ledger::Ledger;

impl<D: Device> Kv<D> {
    /// Makes one call.
    pub fn carry_out<L: Ledger>(
        &mut self,
        call: &Call,
        steps: &mut Steps<L>,
    ) -> Result<Answer, Error>
        ensures carries { Carries D.Device self.old self.new call.now result }
        ensures no_fewer { steps.old ≤ steps.new }
        ensures within { steps.new ≤ steps.old + command_bound (levels_of self.old) (command_of call.now) }
    {
        match call {
            Call::Put(key, value) => Ok(Answer::Put(self.put_counted(key, value, steps)?.0)),
            Call::PutIf(key, seen, value) => Ok(Answer::PutIf(
                self.put_if_counted(key, *seen, value, steps)?.0,
            )),
            Call::Delete(key) => Ok(Answer::Deleted(self.delete_counted(key, steps)?.0)),
            Call::Get(key) => Ok(Answer::Got(self.get_counted(key, steps)?.0)),
            Call::Stamp(key) => Ok(Answer::Stamped(self.stamp_counted(key, steps)?.0)),
        }
    }

    /// Whether no step was refused since the opening, and no number that is counted since stands at the last value of `u64`.
    pub fn is_counting(&self) -> bool
        ensures { IsTrue result ↔ IsCounting self.now.store }
    {
        self.store.is_counting()
    }

    /// The blocks that the device wrote. As long as the store counts, at most so many since its opening as its steps allow:
    /// 4 cells for each step and level, in whole blocks, each block of the file once, and 1 more.
    pub fn writes(&self) -> u64
        ensures value { result ≡ writes_of D.Device self.now }
        ensures within { IsCounting self.now.store → WritesWithin D.Device (steps_of self.now) self.now }
    {
        self.store.transfers().1
    }

    /// Makes calls one after another, and answers each. A refused call does not end them. All memory is taken before the first
    /// call: where there is none the store is as it was.
    pub fn carry_out_all<L: Ledger>(
        &mut self,
        alloc: Global,
        calls: &[Call],
        steps: &mut Steps<L>,
    ) -> Result<Vec<Result<Answer, Error>>, AllocError>
        ensures carries { IfOk result (λ results. CarriesAll D.Device self.old self.new calls.now results.items) }
        ensures within { steps.new ≤ steps.old + most_ticks (levels_of self.old) calls.now }
        ensures writes { IsCounting self.new.store →
            WritesWithin D.Device (steps_of self.old + length calls.now) self.new }
        ensures none_made { OnErr result (self.new ≡ self.old) }
    {
        let _before = self.writes();
        let mut results = Vec::with_capacity(alloc, calls.len())?;
        for call in calls {
            let result = self.carry_out(call, steps);
            results.push(result).unwrap();
        }
        let _after = self.writes();
        Ok(results)
    }
}
