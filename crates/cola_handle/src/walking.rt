//! Rows of an open store, by rising keys.
ghost use Rattle.std.specs.Prelude.{◌≡◌, ℕ, ◌<◌, ◌≤◌, ◌+◌, ◌++◌, true, [], ◌∷◌, length, take, drop, map, All, IfOk, IfErr, OnErr, MatchResult, option_copied};
ghost use Rattle.cola_spec.specs.Bounds.{range_bound};
ghost use Rattle.cola_spec.specs.Map.{Map};
ghost use Rattle.cola_store.specs.Store.{terms_of};
ghost use Rattle.cola_table.specs.Answers.{ReadFaults};
ghost use Rattle.cola_handle.specs.Cursors.{row_pair, IsGoodRow, is_good, not_given, ByLength, GaveSome, Writes, Moves, NextSays};
ghost use Rattle.cola_handle.specs.Open.{HoldsMap, levels_of, place_of, SameFirst};
ghost use Rattle.cola_handle.specs.Walking.{Fills, FillSays, RangeCall, RangeSays, Reads};

use crate::cursor::{Cursor, Row};
use crate::session::Session;
use cola_cell::ReadFault;
use cola_kv::{Error, Key, Value};
use cola_outside::Steps;
use cola_table::Table;
use std::sync::ledger::Ledger;

/// Gives a pair in the next row, unless the cursor has given its key already, and answers how many rows are given then.
fn give(cursor: &Cursor, pair: &(Key, Value), rows: &mut [Row], given: usize) -> usize
    requires good { is_good cursor.now ≡ true }
    requires room { given < length rows.old }
    ensures few { result ≤ length rows.old }
    ensures grows { given ≤ result }
    ensures pairs { map row_pair (take result rows.new) ≡ map row_pair
        (take given rows.old) ++ not_given cursor.now (pair.now ∷ []) }
    ensures good_rows { All IsGoodRow (take given rows.old) → All IsGoodRow (take result rows.new) }
    ensures others { drop result rows.new ≡ drop result rows.old }
{
    let (key, value) = pair;
    if cursor.has_given(key) {
        return given;
    }
    rows[given].set(key, value);
    given + 1
}

/// Fills rows with the pairs from `low` on and below `high` that the cursor has not given, as many as there are and are wanted, and
/// answers how many.
fn fill<T: Table, L: Ledger>(
    table: &mut T,
    cursor: &Cursor,
    low: &Key,
    high: Option<&Key>,
    rows: &mut [Row],
    steps: &mut Steps<L>,
) -> Result<usize, ReadFault>
    requires { is_good cursor.now ≡ true }
    ensures rows { (m : Map) → T.holds table.old m →
        FillSays m cursor.now low.now (option_copied high.entry) rows.new (T.holds table.new) result }
    ensures fills { Fills T.begins T.goes cursor.now low.now (option_copied high.entry) table.old
        rows.new result table.new }
    ensures writes { MatchResult result (Writes rows.old rows.new)
        (λ _. (given : ℕ) × Writes rows.old rows.new given) }
    ensures call { RangeCall T.terms T.faults table.old table.new steps.old steps.new }
    ensures faults { ReadFaults result (T.faults table.old) (T.faults table.new) }
    ensures kept { T.kept table.new ≡ T.kept table.old }
{
    let mut walk = match table.range(low, high, steps) {
        Ok(walk) => walk,
        Err(fault) => return Err(fault),
    };
    let mut given = 0;
    'rows: while given < rows.len() {
        let next = match table.next(&mut walk, steps) {
            Ok(next) => next,
            Err(fault) => return Err(fault),
        };
        let Some(pair) = next else {
            return Ok(given);
        };
        given = give(cursor, &pair, rows, given);
    }
    Ok(given)
}

/// The next rows of the cursor, and how many they are: it stands behind the last of them then. A refusal leaves the cursor. `KeyLength`
/// where a length of the cursor is more than its list has; then nothing is read.
#[tactic(auto, using(crate::proofs::Turns::fill_reads, crate::proofs::Turns::no_turn))]
pub fn next<L: Ledger>(
    session: &mut Session,
    cursor: &mut Cursor,
    rows: &mut [Row],
    steps: &mut Steps<L>,
) -> Result<usize, Error>
    ensures answer { (m : Map) → HoldsMap session.old m →
        NextSays m cursor.old cursor.new rows.new (HoldsMap session.new) result }
    ensures given { RangeSays session.old session.new cursor.old rows.new result }
    ensures length { ByLength (is_good cursor.old) (session.new ≡ session.old) result }
    ensures writes { IfOk result (Writes rows.old rows.new) }
    ensures gave_some { IfErr result (GaveSome rows.old rows.new) }
    ensures moves { IfOk result (Moves cursor.old cursor.new rows.new) }
    ensures refused { OnErr result (cursor.new ≡ cursor.old) }
    ensures good { is_good cursor.old ≡ true → is_good cursor.new ≡ true }
    ensures ticks { steps.new ≤ steps.old + range_bound (levels_of session.old) }
    ensures reads { Reads session.old session.new (range_bound (levels_of session.old)) }
    ensures last_ticks { session.new.kv.ticks ≡ session.old.kv.ticks }
    ensures cache { session.new.kv.cache ≡ session.old.kv.cache }
    ensures terms { terms_of session.new.kv.store ≡ terms_of session.old.kv.store }
    ensures place { place_of session.new ≡ place_of session.old }
    ensures lent { SameFirst session.old session.new }
{
    if !cursor.is_good() {
        return Err(Error::KeyLength);
    }
    if rows.len() == 0 || cursor.is_void() {
        return Ok(0);
    }
    let low = cursor.low();
    let high = cursor.high();
    match fill(
        &mut session.kv.store,
        cursor,
        &low,
        high.as_ref(),
        rows,
        steps,
    ) {
        Ok(given) => {
            if given > 0 {
                cursor.pass(&rows[given - 1]);
            }
            Ok(given)
        }
        Err(ReadFault::BadCell(cell)) => Err(Error::BadCell(cell)),
        Err(ReadFault::Device) => unreachable!(),
    }
}
