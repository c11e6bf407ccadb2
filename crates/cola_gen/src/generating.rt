//! The puts and the deletes of the workload.
ghost use Rattle.std.specs.Prelude.{◌≡◌, ◌+◌, ◌*◌, ◌≤◌, OnOk, MatchResult};
ghost use Rattle.cola_spec.specs.Map.{Map, empty_map};
ghost use Rattle.cola_spec.specs.Bounds.{put_bound};
ghost use Rattle.cola_table.specs.Answers.{PutFaults};
ghost use Rattle.cola_table.specs.declared.PutFault.TheVariants as fault;
ghost use Rattle.cola_table.specs.Replies.{put_refused};
ghost use Rattle.cola_table.specs.Terms.{shape};
ghost use Rattle.cola_gen.specs.Keys as spec;
ghost use Rattle.cola_gen.specs.Keys.{evens};
ghost use Rattle.cola_gen.specs.Commands.{puts, deletes, left_by};
ghost use Rattle.cola_gen.specs.Turns.{HasCounted, RisesBy};
ghost use Rattle.cola_gen.specs.Answered.{Ran, Generated, MadeOdd, Spent, at};

use crate::Tally;
use crate::calls::{delete_key, put_key};
use crate::keys::made;
use cola_outside::Steps;
use cola_table::{PutFault, Table};
use std::sync::ledger::Ledger;

/// Puts the keys of the places below `number`, in order.
fn put_keys<T: Table, L: Ledger>(
    table: &mut T,
    number: u32,
    levels: u8,
    tally: &mut Tally,
    steps: &mut Steps<L>,
) -> Result<(), PutFault>
    requires { HasCounted 0 tally.old }
    ensures ran { Ran T.Table puts put_refused
        (put_bound (T.terms table.old).depth) levels number result
        (at table.old tally.old steps.old) (at table.new tally.new steps.new) }
    ensures faults { PutFaults result (T.faults table.old) (T.faults table.new) }
    ensures counted { HasCounted number tally.new }
{
    for place in 0..number {
        put_key(table, place, levels, tally, steps)?;
    }
    Ok(())
}

/// Deletes the keys of the even places below `number`, in order.
fn delete_keys<T: Table, L: Ledger>(
    table: &mut T,
    number: u32,
    levels: u8,
    tally: &mut Tally,
    steps: &mut Steps<L>,
) -> Result<(), PutFault>
    requires { HasCounted number tally.old }
    ensures ran { Ran T.Table deletes put_refused (put_bound (T.terms table.old).depth) levels
        (evens number) result (at table.old tally.old steps.old)
        (at table.new tally.new steps.new) }
    ensures faults { PutFaults result (T.faults table.old) (T.faults table.new) }
{
    for half in 0..number - number / 2 {
        delete_key(table, half, levels, tally, steps)?;
    }
    Ok(())
}

/// Puts the keys of the workload in order, and then deletes those of even places in order. The first
/// call that the table refuses ends it, with that refusal.
///
/// The puts of new keys, the deletes that find their key, and the calls above 40 ticks a level are
/// counted. No memory is taken.
pub fn generate<T: Table, L: Ledger>(
    table: &mut T,
    keys: u32,
    levels: u8,
    tally: &mut Tally,
    steps: &mut Steps<L>,
) -> Result<(), PutFault>
    requires { HasCounted 0 tally.old }
    ensures given { Generated T.Table (put_bound (T.terms table.old).depth) levels
        (spec.made keys) result (at table.old tally.old steps.old)
        (at table.new tally.new steps.new) }
    ensures left { (m : Map) → T.holds table.old m →
        OnOk result (T.holds table.new (left_by (shape (T.terms table.old)) m (spec.made keys))) }
    ensures from_empty { T.holds table.old empty_map → spec.made keys ≤ (T.terms table.old).limit →
        MatchResult result
        (λ _. MadeOdd T.Table (spec.made keys) (at table.old tally.old steps.old)
        (at table.new tally.new steps.new)) (λ refusal. refusal ≡ fault.Device) }
    ensures not_over { (T.terms table.old).depth ≤ levels → tally.new.over ≡ tally.old.over }
    ensures tallied { RisesBy (spec.made keys) (evens (spec.made keys)) 0
        (spec.made keys + evens (spec.made keys)) tally.old tally.new }
    ensures spent { Spent T.Table
        ((spec.made keys + evens (spec.made keys)) * put_bound (T.terms table.old).depth)
        (at table.old tally.old steps.old) (at table.new tally.new steps.new) }
    ensures faults { PutFaults result (T.faults table.old) (T.faults table.new) }
{
    let number = made(keys);
    put_keys(table, number, levels, tally, steps)?;
    delete_keys(table, number, levels, tally, steps)
}
