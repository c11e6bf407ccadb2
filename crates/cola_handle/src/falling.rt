//! Rows of an open store, by falling keys.
ghost use Rattle.std.specs.Prelude.{◌≡◌, ℕ, ◌+◌, ◌<◌, ◌≤◌, ◌++◌, true, List, [], ◌∷◌, None, length, take, drop, map, All, IfOk, IfErr, OnErr, MatchResult};
ghost use Rattle.std.specs.Bound.{bound_map};
ghost use Rattle.cola_spec.specs.Bounds.{range_bound};
ghost use Rattle.cola_spec.specs.Map.{Map};
ghost use Rattle.cola_store.specs.Backward.{pairs_back};
ghost use Rattle.cola_store.specs.Store.{Holds, faults_of, kept_by, terms_of};
ghost use Rattle.cola_table.specs.Answers.{ReadFaults};
ghost use Rattle.cola_table.specs.Terms.{Call};
ghost use Rattle.cola_handle.specs.Behind.{PrevSays, Turns};
ghost use Rattle.cola_handle.specs.Cursors.{row_pair, IsGoodRow, is_good, ByLength, GaveSome, Writes};
ghost use Rattle.cola_handle.specs.Falling.{FillsBack, RangeBackSays, Takes, TakeSays};
ghost use Rattle.cola_handle.specs.Open.{HoldsMap, levels_of, place_of, SameFirst};
ghost use Rattle.cola_handle.specs.Walking.{RangeCall, Reads};

use crate::cursor::{Cursor, Row};
use crate::session::Session;
use cola_cell::ReadFault;
use cola_device::Device;
use cola_kv::{Error, Key, Value};
use cola_outside::Steps;
use cola_store::Store;
use cola_table::Table;
use std::ops::Bound;
use std::sync::ledger::Ledger;

/// Gives a pair in the next row, and answers how many rows are given then.
fn give_row(pair: &(Key, Value), rows: &mut [Row], given: usize) -> usize
    requires room { given < length rows.old }
    ensures next { result ≡ given + 1 }
    ensures pairs { map row_pair (take result rows.new) ≡ map row_pair (take given rows.old) ++ pair.now ∷ [] }
    ensures good_rows { All IsGoodRow (take given rows.old) → All IsGoodRow (take result rows.new) }
    ensures others { drop result rows.new ≡ drop result rows.old }
{
    let (key, value) = pair;
    rows[given].set(key, value);
    given + 1
}

/// Fills rows with the pairs that a walk gives, as many as there are and are wanted, and answers how many.
fn take_rows<T: Table, L: Ledger>(
    table: &mut T,
    mut walk: T::Walk,
    rows: &mut [Row],
    steps: &mut Steps<L>,
) -> Result<usize, ReadFault>
    requires { T.stands table.old walk }
    ensures rows { (m : Map) (pairs : List (List ℕ × List ℕ)) → T.holds table.old m →
        T.ahead table.old walk pairs → TakeSays pairs rows.new (T.holds table.new m) result }
    ensures takes { Takes T.begins T.goes table.old walk rows.new result table.new }
    ensures writes { MatchResult result (Writes rows.old rows.new)
        (λ _. (given : ℕ) × Writes rows.old rows.new given) }
    ensures call { Call (T.terms table.old) (T.terms table.new) (T.faults table.old)
        (T.faults table.new) steps.old steps.new (T.left walk) }
    ensures faults { ReadFaults result (T.faults table.old) (T.faults table.new) }
    ensures kept { T.kept table.new ≡ T.kept table.old }
{
    let mut given = 0;
    'rows: while given < rows.len() {
        let next = match table.next(&mut walk, steps) {
            Ok(next) => next,
            Err(fault) => return Err(fault),
        };
        let Some(pair) = next else {
            return Ok(given);
        };
        given = give_row(&pair, rows, given);
    }
    Ok(given)
}

/// Fills rows with the pairs up to a bound, by falling keys, as many as there are and are wanted, and answers how many.
fn fill_back<D: Device, L: Ledger>(
    store: &mut Store<D>,
    high: Bound<&Key>,
    rows: &mut [Row],
    steps: &mut Steps<L>,
) -> Result<usize, ReadFault>
    ensures rows { (m : Map) → Holds D.bytes store.old m →
        TakeSays (pairs_back m None (bound_map (λ key. key.now) high.entry)) rows.new
        (Holds D.bytes store.new m) result }
    ensures fills { FillsBack D.Device (bound_map (λ key. key.now) high.entry)
        store.old store.new rows.new result }
    ensures writes { MatchResult result (Writes rows.old rows.new)
        (λ _. (given : ℕ) × Writes rows.old rows.new given) }
    ensures call { RangeCall terms_of (faults_of D.counts) store.old store.new steps.old steps.new }
    ensures faults { ReadFaults result
        (faults_of D.counts store.old) (faults_of D.counts store.new) }
    ensures kept { kept_by D.Device store.new ≡ kept_by D.Device store.old }
{
    match store.range_back(None, high, steps) {
        Ok(walk) => take_rows(store, walk, rows, steps),
        Err(fault) => Err(fault),
    }
}

/// The rows before the cursor, by falling keys, down to the least of all, and how many they are: it stands before the last of them
/// then, so that `next` gives them again. A refusal leaves the cursor. `KeyLength` where a length of the cursor is more than its list
/// has; then nothing is read.
#[tactic(auto, using(crate::proofs::Taking::fill_back_reads, crate::proofs::Turns::no_turn))]
pub fn prev<L: Ledger>(
    session: &mut Session,
    cursor: &mut Cursor,
    rows: &mut [Row],
    steps: &mut Steps<L>,
) -> Result<usize, Error>
    ensures answer { (m : Map) → HoldsMap session.old m →
        PrevSays m cursor.old cursor.new rows.new (HoldsMap session.new) result }
    ensures given { RangeBackSays session.old session.new cursor.old rows.new result }
    ensures length { ByLength (is_good cursor.old) (session.new ≡ session.old) result }
    ensures writes { IfOk result (Writes rows.old rows.new) }
    ensures gave_some { IfErr result (GaveSome rows.old rows.new) }
    ensures turns { IfOk result (Turns cursor.old cursor.new rows.new) }
    ensures refused { OnErr result (cursor.new ≡ cursor.old) }
    ensures good { is_good cursor.old ≡ true → is_good cursor.new ≡ true }
    ensures ticks { steps.new ≤ steps.old + range_bound (levels_of session.old) }
    ensures reads { Reads session.old session.new (range_bound (levels_of session.old)) }
    ensures last_ticks { session.new.kv.ticks ≡ session.old.kv.ticks }
    ensures cache { session.new.kv.cache ≡ session.old.kv.cache }
    ensures terms { terms_of session.new.kv.store ≡ terms_of session.old.kv.store }
    ensures place { place_of session.new ≡ place_of session.old }
    ensures lent { SameFirst session.old session.new }
{
    if !cursor.is_good() {
        return Err(Error::KeyLength);
    }
    if rows.len() == 0 || cursor.is_first() {
        return Ok(0);
    }
    let high = cursor.bound();
    match fill_back(&mut session.kv.store, high.as_ref(), rows, steps) {
        Ok(given) => {
            if given > 0 {
                cursor.turn_to(&rows[given - 1]);
            }
            Ok(given)
        }
        Err(ReadFault::BadCell(cell)) => Err(Error::BadCell(cell)),
        Err(ReadFault::Device) => unreachable!(),
    }
}
