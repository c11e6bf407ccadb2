//! The calls of the workload, each with what it adds to the tally.
ghost use Rattle.std.specs.Prelude.{◌≡◌, ◌+◌, ◌*◌, ◌<◌, MatchResult};
ghost use Rattle.cola_cell.specs.declared.fault.ReadFault.{ReadFault};
ghost use Rattle.cola_spec.specs.Reply.{Failed, Deleted, Put as Answer};
ghost use Rattle.cola_spec.specs.Bounds.{put_bound, get_bound};
ghost use Rattle.cola_table.specs.Answers.{put_answer, PutFaults, ReadFaults};
ghost use Rattle.cola_table.specs.Replies.{put_refused, read_failure};
ghost use Rattle.cola_gen.specs.Commands.{puts, deletes, gets};
ghost use Rattle.cola_gen.specs.Turns as turns;
ghost use Rattle.cola_gen.specs.Turns.{HasOneMore, one};
ghost use Rattle.cola_gen.specs.Answered.{Accepted, Refused, at};

use crate::Tally;
use crate::keys::{expected, key_of, value_of};
use cola_cell::{ReadFault, Value};
use cola_outside::Steps;
use cola_table::{Put, PutFault, Table};
use std::sync::ledger::Ledger;

/// A number that rises by one where a test holds.
fn counted(number: u64, holds: bool) -> u64
    requires { number < 18446744073709551615 }
    ensures { result ≡ number + one holds }
{
    number + u64::from(holds)
}

/// Whether a put made a new key.
fn is_new(put: Put) -> bool
    ensures { result ≡ turns.is_new (Answer (put_answer put)) }
{
    matches!(put, Put::New)
}

/// Whether a delete found its key.
fn is_found(value: Option<Value>) -> bool
    ensures { result ≡ turns.is_found (Deleted value) }
{
    value.is_some()
}

/// Whether two answers to a get are the same.
fn is_same(found: Option<Value>, wanted: Option<Value>) -> bool
    ensures { result ≡ turns.same found wanted }
{
    match (found, wanted) {
        (Some(found), Some(wanted)) => found == wanted,
        (None, None) => true,
        _ => false,
    }
}

/// Puts the key of a place with its value.
pub fn put_key<T: Table, L: Ledger>(
    table: &mut T,
    place: u32,
    levels: u8,
    tally: &mut Tally,
    steps: &mut Steps<L>,
) -> Result<(), PutFault>
    requires { HasOneMore tally.old }
    ensures call { MatchResult result
        (λ _. Accepted T.Table (puts place) (put_bound (T.terms table.old).depth) levels place
        (at table.old tally.old steps.old) (at table.new tally.new steps.new))
        (λ fault. Refused T.Table (puts place) (put_refused fault)
        (at table.old tally.old steps.old) (at table.new tally.new steps.new)) }
    ensures faults { PutFaults result (T.faults table.old) (T.faults table.new) }
{
    let (put, cost) = table.put(&key_of(place), &value_of(place), steps)?;
    tally.fresh = counted(tally.fresh, is_new(put));
    tally.over = counted(tally.over, cost > 40 * u32::from(levels));
    Ok(())
}

/// Deletes the key of the place that is twice this number.
pub fn delete_key<T: Table, L: Ledger>(
    table: &mut T,
    half: u32,
    levels: u8,
    tally: &mut Tally,
    steps: &mut Steps<L>,
) -> Result<(), PutFault>
    requires in_range { half < 2147483648 }
    requires room { HasOneMore tally.old }
    ensures call { MatchResult result
        (λ _. Accepted T.Table (deletes half) (put_bound (T.terms table.old).depth) levels half
        (at table.old tally.old steps.old) (at table.new tally.new steps.new))
        (λ fault. Refused T.Table (deletes half) (put_refused fault)
        (at table.old tally.old steps.old) (at table.new tally.new steps.new)) }
    ensures faults { PutFaults result (T.faults table.old) (T.faults table.new) }
{
    match table.delete(&key_of(2 * half), steps) {
        Ok((value, cost)) => {
            tally.gone = counted(tally.gone, is_found(value));
            tally.over = counted(tally.over, cost > 40 * u32::from(levels));
            Ok(())
        }
        Err(fault) => Err(PutFault::from(fault)),
    }
}

/// Gets the key of a place, and looks whether the answer is the one expected after the workload.
pub fn get_key<T: Table, L: Ledger>(
    table: &mut T,
    place: u32,
    levels: u8,
    tally: &mut Tally,
    steps: &mut Steps<L>,
) -> Result<(), ReadFault>
    requires { HasOneMore tally.old }
    ensures call { MatchResult result
        (λ _. Accepted T.Table (gets place) (get_bound (T.terms table.old).depth) levels place
        (at table.old tally.old steps.old) (at table.new tally.new steps.new))
        (λ fault. Refused T.Table (gets place) (Failed (read_failure fault))
        (at table.old tally.old steps.old) (at table.new tally.new steps.new)) }
    ensures faults { ReadFaults result (T.faults table.old) (T.faults table.new) }
{
    let (found, cost) = table.get(&key_of(place), steps)?;
    tally.wrong = counted(tally.wrong, !is_same(found, expected(place)));
    tally.over = counted(tally.over, cost > 8 * u32::from(levels));
    Ok(())
}
