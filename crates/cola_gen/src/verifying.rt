//! The gets of the workload.
ghost use Rattle.std.specs.Prelude.{◌≡◌, ◌+◌, ◌*◌, ◌≤◌, OnOk, MatchResult};
ghost use Rattle.cola_cell.specs.declared.fault.ReadFault.TheVariants as fault;
ghost use Rattle.cola_spec.specs.Bounds.{get_bound};
ghost use Rattle.cola_spec.specs.Map.{Map};
ghost use Rattle.cola_table.specs.Answers.{ReadFaults};
ghost use Rattle.cola_gen.specs.Keys as spec;
ghost use Rattle.cola_gen.specs.Keys.{HasOdd};
ghost use Rattle.cola_gen.specs.Commands.{gets};
ghost use Rattle.cola_gen.specs.Turns.{HasCounted, RisesBy, wrong_in};
ghost use Rattle.cola_gen.specs.Answered.{Ran, Spent, at, read_refused};

use crate::Tally;
use crate::calls::get_key;
use crate::keys::made;
use cola_cell::ReadFault;
use cola_outside::Steps;
use cola_table::Table;
use std::sync::ledger::Ledger;

/// Gets each key of the workload, in order. The first call that the table refuses ends it, with that
/// refusal.
///
/// The answers that are not the ones expected after the workload, and the calls above 8 ticks a level,
/// are counted. No memory is taken.
pub fn verify<T: Table, L: Ledger>(
    table: &mut T,
    keys: u32,
    levels: u8,
    tally: &mut Tally,
    steps: &mut Steps<L>,
) -> Result<(), ReadFault>
    requires { HasCounted 0 tally.old }
    ensures given { Ran T.Table gets read_refused (get_bound (T.terms table.old).depth) levels
        (spec.made keys) result (at table.old tally.old steps.old)
        (at table.new tally.new steps.new) }
    ensures sound { (m : Map) → T.holds table.old m → T.holds table.new m }
    ensures wrong { (m : Map) → T.holds table.old m →
        MatchResult result (λ _. tally.new.wrong ≡ tally.old.wrong + wrong_in m (spec.made keys))
        (λ refusal. refusal ≡ fault.Device) }
    ensures none_wrong { (m : Map) → T.holds table.old m → HasOdd (spec.made keys) m →
        OnOk result (tally.new.wrong ≡ tally.old.wrong) }
    ensures not_over { (T.terms table.old).depth ≤ levels → tally.new.over ≡ tally.old.over }
    ensures tallied { RisesBy 0 0 (spec.made keys) (spec.made keys) tally.old tally.new }
    ensures spent { Spent T.Table (spec.made keys * get_bound (T.terms table.old).depth)
        (at table.old tally.old steps.old) (at table.new tally.new steps.new) }
    ensures faults { ReadFaults result (T.faults table.old) (T.faults table.new) }
{
    for place in 0..made(keys) {
        get_key(table, place, levels, tally, steps)?;
    }
    Ok(())
}
