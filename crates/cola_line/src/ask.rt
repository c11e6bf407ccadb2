//! What a table answers to a command whose reply is one line.
ghost use Rattle.std.specs.Prelude.{◌≡◌, ◌-◌, Bool};
ghost use Rattle.cola_cell.specs.declared.format.Format.TheVariants.{Two};
ghost use Rattle.cola_cell.specs.Format.{KeyFits, ValueFits};
ghost use Rattle.cola_spec.specs.Command as spec;
ghost use Rattle.cola_spec.specs.Reply.{reply_text};
ghost use Rattle.cola_spec.specs.Bounds.{put_bound, get_bound};
ghost use Rattle.cola_table.specs.Answers.{put_answer, put_if_answer};
ghost use Rattle.cola_table.specs.Replies.{turn_of, put_refused, step_failure, read_failure};
ghost use Rattle.cola_line.specs.Replied.{reply_of, outcome_of, failure_of};
ghost use Rattle.cola_line.specs.Answered.{Calls, GaveTurn};

use crate::reply::{Failure, Outcome, Reply};
use cola_cell::{Key, ReadFault, StepFault, Value};
use cola_outside::Steps;
use cola_table::{Put, PutFault, PutIf, Table};
use std::sync::ledger::Ledger;

fn put_outcome(put: Put) -> Outcome
    ensures { outcome_of result ≡ put_answer put }
{
    match put {
        Put::New => Outcome::New,
        Put::Old(value) => Outcome::Old(value),
    }
}

fn put_if_outcome(put: PutIf) -> Outcome
    ensures { outcome_of result ≡ put_if_answer put }
{
    match put {
        PutIf::New => Outcome::New,
        PutIf::Old(value) => Outcome::Old(value),
        PutIf::Other(stamp) => Outcome::Other(stamp),
    }
}

fn refused_put(fault: PutFault) -> Reply
    ensures { reply_of result ≡ put_refused fault }
{
    match fault {
        PutFault::Full => Reply::Put(Outcome::Full),
        PutFault::Worn => Reply::Put(Outcome::Worn),
        PutFault::Device => Reply::Failed(Failure::Fault),
        PutFault::BadCell(cell) => Reply::Failed(Failure::Damaged(cell)),
        PutFault::Overfull(level) => Reply::Failed(Failure::Overfull(level)),
    }
}

fn failed_step(fault: StepFault) -> Failure
    ensures { failure_of result ≡ step_failure fault }
{
    match fault {
        StepFault::Device => Failure::Fault,
        StepFault::BadCell(cell) => Failure::Damaged(cell),
        StepFault::Overfull(level) => Failure::Overfull(level),
    }
}

/// Why a reading failed.
pub fn failed_read(fault: ReadFault) -> Failure
    ensures { failure_of result ≡ read_failure fault }
{
    failed_step(StepFault::from(fault))
}

/// The reply to a put, and the ticks that it made.
pub fn put<T: Table, L: Ledger>(
    table: &mut T,
    key: &Key,
    value: &Value,
    steps: &mut Steps<L>,
) -> (Reply, u32)
    requires key_fits { KeyFits (T.terms table.old).format key.now }
    requires value_fits { ValueFits (T.terms table.old).format value.now }
    ensures turn { GaveTurn T.Table table.old
        (turn_of (spec.Put key.now value.now) (reply_of result.0)
        (steps.new - steps.old)) table.new }
    ensures call { Calls T.Table table.old table.new steps.old steps.new
        (put_bound (T.terms table.old).depth) }
    ensures ticks { (cost : Bool) →
        reply_text cost result.1 (reply_of result.0) ≡ reply_text cost (steps.new - steps.old)
        (reply_of result.0) }
{
    match table.put(key, value, steps) {
        Ok((put, ticks)) => (Reply::Put(put_outcome(put)), ticks),
        Err(fault) => (refused_put(fault), 0),
    }
}

/// The reply to a put that depends on the stamp seen, and the ticks that it made.
pub fn put_if<T: Table, L: Ledger>(
    table: &mut T,
    key: &Key,
    seen: u64,
    value: &Value,
    steps: &mut Steps<L>,
) -> (Reply, u32)
    requires stamped { (T.terms table.old).format ≡ Two }
    requires key_fits { KeyFits (T.terms table.old).format key.now }
    requires value_fits { ValueFits (T.terms table.old).format value.now }
    ensures turn { GaveTurn T.Table table.old
        (turn_of (spec.PutIf key.now seen value.now) (reply_of result.0)
        (steps.new - steps.old)) table.new }
    ensures call { Calls T.Table table.old table.new steps.old steps.new
        (put_bound (T.terms table.old).depth) }
    ensures ticks { (cost : Bool) →
        reply_text cost result.1 (reply_of result.0) ≡ reply_text cost (steps.new - steps.old)
        (reply_of result.0) }
{
    match table.put_if(key, seen, value, steps) {
        Ok((put, ticks)) => (Reply::Put(put_if_outcome(put)), ticks),
        Err(fault) => (refused_put(fault), 0),
    }
}

/// The reply to a delete, and the ticks that it made.
pub fn delete<T: Table, L: Ledger>(table: &mut T, key: &Key, steps: &mut Steps<L>) -> (Reply, u32)
    ensures turn { GaveTurn T.Table table.old
        (turn_of (spec.Del key.now) (reply_of result.0) (steps.new - steps.old)) table.new }
    ensures call { Calls T.Table table.old table.new steps.old steps.new
        (put_bound (T.terms table.old).depth) }
    ensures ticks { (cost : Bool) →
        reply_text cost result.1 (reply_of result.0) ≡ reply_text cost (steps.new - steps.old)
        (reply_of result.0) }
{
    match table.delete(key, steps) {
        Ok((value, ticks)) => (Reply::Deleted(value), ticks),
        Err(fault) => (Reply::Failed(failed_step(fault)), 0),
    }
}

/// The reply to a get, and the ticks that it made.
pub fn get<T: Table, L: Ledger>(table: &mut T, key: &Key, steps: &mut Steps<L>) -> (Reply, u32)
    ensures turn { GaveTurn T.Table table.old
        (turn_of (spec.Get key.now) (reply_of result.0) (steps.new - steps.old)) table.new }
    ensures call { Calls T.Table table.old table.new steps.old steps.new
        (get_bound (T.terms table.old).depth) }
    ensures ticks { (cost : Bool) →
        reply_text cost result.1 (reply_of result.0) ≡ reply_text cost (steps.new - steps.old)
        (reply_of result.0) }
{
    match table.get(key, steps) {
        Ok((value, ticks)) => (Reply::Got(value), ticks),
        Err(fault) => (Reply::Failed(failed_read(fault)), 0),
    }
}

/// The reply to a stamp, and the ticks that it made.
pub fn stamp<T: Table, L: Ledger>(table: &mut T, key: &Key, steps: &mut Steps<L>) -> (Reply, u32)
    requires { (T.terms table.old).format ≡ Two }
    ensures turn { GaveTurn T.Table table.old
        (turn_of (spec.Stamp key.now) (reply_of result.0) (steps.new - steps.old)) table.new }
    ensures call { Calls T.Table table.old table.new steps.old steps.new
        (get_bound (T.terms table.old).depth) }
    ensures ticks { (cost : Bool) →
        reply_text cost result.1 (reply_of result.0) ≡ reply_text cost (steps.new - steps.old)
        (reply_of result.0) }
{
    match table.stamp(key, steps) {
        Ok((stamp, ticks)) => (Reply::Stamped(stamp), ticks),
        Err(fault) => (Reply::Failed(failed_read(fault)), 0),
    }
}
