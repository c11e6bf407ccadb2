//! Searches of one run and of chains, and ranges, beside plain programs.
ghost use Rattle.std.specs.Prelude.{◌≡◌, ◌<◌, ◌≤◌, All, length, IfOk};
ghost use Rattle.cola_cell.specs.declared.format.Format.TheVariants.{One};
ghost use Rattle.cola_look.specs.Runs.{HasRun};
ghost use Rattle.cola_cursor.specs.Seeking.{LevelsRise};
ghost use Rattle.cola_cursor.specs.Standing.{Stands};

use crate::chains::{made_chain, worked_chain};
use crate::rows::{Row, Stretch, What, item_of, key_of, pair_of, rows_of};
use crate::runs::{put_chain, put_run};
use arrayvec::ArrayVec;
use cola_cell::{CellSink, CellSource, FlatCells, Item, Key, MOST_LEVELS, ReadFault, Run, Value};
use cola_cursor::Cursor;
use cola_look::{Seat, sample_index, seek, window};
use cola_outside::Steps;
use cola_plain_runs::cells::{PlainCell, PlainItem};
use cola_plain_runs::pairs::live_pairs;
use cola_reverse::plain::falling;
use cola_search::find;
use std::alloc::{AllocError, Global};
use std::marker::Brand;
use std::ops::Bound;
use std::process::Abort;
use std::sync::ledger::{Blank, Ledger};

/// A link and the length of a run, with the first and the last place of the window between them.
const WINDOWS: [[u32; 4]; 6] = [
    [4_294_967_295, 8, 8, 8],
    [8, 13, 8, 13],
    [8, 16, 8, 16],
    [0, 0, 0, 0],
    [0, 4, 0, 4],
    [5, 20, 5, 13],
];

#[test]
fn windows_are_within_the_run(rt: HostRuntime) {
    for row in &WINDOWS {
        assert!(rt; window(row[0], row[1]) == (row[2], row[3]));
    }
    assert!(rt; sample_index(0) == 7 && sample_index(268_435_455) == 2_147_483_647);
}

/// A search of level 1, whose run begins with tombstones of 2 and 4 and a lookahead cell of 6, and has no other cell: the
/// run's length, that of the next run, the link, the key; then the place, whether it is the key's, the link, or the refusal;
/// and the ticks up to then.
type Search = (u32, u32, u32, u8, Result<(u32, bool, u32), ReadFault>, u64);

const SEARCHES: [Search; 8] = [
    (3, 20, 0, 4, Ok((1, true, 0)), 5),
    (3, 20, 1, 6, Err(ReadFault::Device), 7),
    (3, 20, 1, 6, Ok((2, false, 8)), 9),
    (3, 20, 2, 4, Ok((2, false, 8)), 10),
    (3, 21, 1, 7, Ok((3, false, 16)), 12),
    (3, 8, 3, 2, Ok((3, false, 8)), 12),
    (5, 0, 0, 6, Ok((2, false, 8)), 15),
    (5, 0, 0, 7, Err(ReadFault::BadCell(19)), 19),
];

const SEARCHED: [Stretch; 3] = [
    (2, 1, What::Deleted, 0),
    (4, 1, What::Deleted, 0),
    (6, 1, What::Look, 8),
];

/// A seat as a row has it.
fn shown(seat: Seat) -> (u32, bool, u32) {
    (seat.pos, seat.hit == Some(Item::Tombstone), seat.link)
}

/// Whether a search answers what its row has, at the tick that its row has.
fn seeks_as_said<W: CellSource, L: Ledger>(
    work: &mut W,
    search: &Search,
    steps: &mut Steps<L>,
) -> bool
    requires levels { 1 < (W.state work.old).held.fixed.levels }
    ensures { (W.state work.new).held ≡ (W.state work.old).held }
{
    let (len, next, link, key, answer, ticks) = *search;
    let Some(key) = key_of(key) else {
        return false;
    };
    let (level, slot, len) = (1, 0, len.min(8));
    match seek(work, &Run { level, slot, len }, next, link, &key, steps) {
        Ok(seat) => answer == Ok(shown(seat)) && work.ticked() == ticks,
        Err(fault) => answer == Err(fault) && work.ticked() == ticks,
    }
}

fn seek_all<W: CellSink, L: Ledger>(work: &mut W, rows: &[Row], steps: &mut Steps<L>) -> bool
    requires levels { 1 < (W.CellSource.state work.old).held.fixed.levels }
    requires format { (W.CellSource.state work.old).held.fixed.format ≡ One }
{
    if put_run(work, 1, 0, rows, steps).is_err() {
        return false;
    }
    for search in &SEARCHES {
        if !seeks_as_said(work, search, steps) {
            return false;
        }
    }
    true
}

fn seeks<L: Ledger>(rt: &impl Abort, alloc: Global, blank: Blank) -> Result<(), AllocError>
    requires name { blank.name ≡ L.name }
    requires parts { blank.parts ≡ L.parts }
    requires some { 0 < L.parts }
{
    let mut steps = Steps::<L>::begin(blank);
    let rows = rows_of(alloc, &SEARCHED)?;
    // the run is put into its slot by three accesses
    let mut cells = FlatCells::new(alloc, 2, vec![in alloc; 7u64]?)?;
    assert!(rt; seek_all(&mut cells, &rows, &mut steps));
    Ok(())
}

#[test]
fn a_run_is_searched(rt: HostRuntime) -> Result<(), AllocError> {
    seeks::<Brand>(&rt, rt.alloc(), Blank::new(1))
}

/// The item of a key in a run, by going over all its cells.
fn item_in(rows: &[Row], key: u8) -> Option<PlainItem<u8>> {
    for row in rows {
        if let PlainCell::Entry {
            key: found,
            item,
            ..
        } = row
        {
            if *found == key {
                return Some(*item);
            }
        }
    }
    None
}

/// The item of the first run that has one.
fn plain_find(chain: &[Vec<Row>], key: u8) -> Option<Item> {
    for rows in chain {
        if let Some(item) = item_in(rows, key) {
            return item_of(&item);
        }
    }
    None
}

/// Whether a key is found with this item.
fn finds<W: CellSource, L: Ledger>(
    work: &mut W,
    runs: &ArrayVec<Run, MOST_LEVELS>,
    key: u8,
    item: Option<Item>,
    steps: &mut Steps<L>,
) -> bool
    requires { All (HasRun (W.state work.old).held) runs.now.items }
    ensures { (W.state work.new).held ≡ (W.state work.old).held }
{
    match key_of(key) {
        Some(key) => find(work, runs, &key, steps) == Ok(item),
        None => false,
    }
}

/// Whether each key up to 70 is found as the plain program finds it.
fn finds_all<W: CellSource, L: Ledger>(
    work: &mut W,
    runs: &ArrayVec<Run, MOST_LEVELS>,
    chain: &[Vec<Row>],
    steps: &mut Steps<L>,
) -> bool
    requires { All (HasRun (W.state work.old).held) runs.now.items }
    ensures { (W.state work.new).held ≡ (W.state work.old).held }
{
    for number in 0..71u8 {
        if !finds(work, runs, number, plain_find(chain, number), steps) {
            return false;
        }
    }
    true
}

/// Whether a cursor gives this pair next, or none.
fn next_is<W: CellSource, L: Ledger>(
    work: &mut W,
    cursor: &mut Cursor,
    pair: Option<(Key, Value)>,
    steps: &mut Steps<L>,
) -> bool
    requires { Stands (W.state work.old).held cursor.old }
    ensures held { (W.state work.new).held ≡ (W.state work.old).held }
    ensures stands { Stands (W.state work.new).held cursor.new }
{
    cursor.next(work, steps) == Ok(pair)
}

/// Whether a cursor gives these pairs, one after the other, and then none.
fn gives<W: CellSource, L: Ledger>(
    work: &mut W,
    cursor: &mut Cursor,
    pairs: &[(u8, u8)],
    steps: &mut Steps<L>,
) -> bool
    requires { Stands (W.state work.old).held cursor.old }
    ensures { (W.state work.new).held ≡ (W.state work.old).held }
{
    for pair in pairs {
        let pair = pair_of(*pair);
        if pair.is_none() || !next_is(work, cursor, pair, steps) {
            return false;
        }
    }
    next_is(work, cursor, None, steps) && next_is(work, cursor, None, steps)
}

/// Whether a cursor from one key on, and below another where there is one, gives these pairs.
fn rises<W: CellSource, L: Ledger>(
    work: &mut W,
    runs: &ArrayVec<Run, MOST_LEVELS>,
    ends: (u8, Option<u8>),
    pairs: &[(u8, u8)],
    steps: &mut Steps<L>,
) -> bool
    requires runs { All (HasRun (W.state work.old).held) runs.now.items }
    requires rise { LevelsRise 0 runs.now.items }
    ensures { (W.state work.new).held ≡ (W.state work.old).held }
{
    let Some(low) = key_of(ends.0) else {
        return false;
    };
    let high = ends.1.and_then(key_of);
    match Cursor::seek(work, runs, &low, high.as_ref(), steps) {
        Ok(mut cursor) => gives(work, &mut cursor, pairs, steps),
        Err(_) => false,
    }
}

/// Whether a cursor gives the plain program's pairs.
fn ranges<W: CellSource, L: Ledger>(
    alloc: Global,
    work: &mut W,
    runs: &ArrayVec<Run, MOST_LEVELS>,
    chain: &[Vec<Row>],
    ends: (u8, Option<u8>),
    steps: &mut Steps<L>,
) -> bool
    requires runs { All (HasRun (W.state work.old).held) runs.now.items }
    requires rise { LevelsRise 0 runs.now.items }
    ensures { (W.state work.new).held ≡ (W.state work.old).held }
{
    match live_pairs(alloc, chain, &ends.0, &ends.1) {
        Ok(pairs) => rises(work, runs, ends, &pairs, steps),
        Err(_) => false,
    }
}

/// The bound of a key.
fn key_bound(high: Bound<u8>) -> Option<Bound<Key>> {
    Some(match high {
        Bound::Included(high) => Bound::Included(key_of(high)?),
        Bound::Excluded(high) => Bound::Excluded(key_of(high)?),
        Bound::Unbounded => Bound::Unbounded,
    })
}

/// Whether a cursor that falls from a bound, down to a key where there is one, gives these pairs.
fn falls<W: CellSource, L: Ledger>(
    work: &mut W,
    runs: &ArrayVec<Run, MOST_LEVELS>,
    ends: (Option<u8>, Bound<u8>),
    pairs: &[(u8, u8)],
    steps: &mut Steps<L>,
) -> bool
    requires runs { All (HasRun (W.state work.old).held) runs.now.items }
    requires rise { LevelsRise 0 runs.now.items }
    ensures { (W.state work.new).held ≡ (W.state work.old).held }
{
    let low = ends.0.and_then(key_of);
    let Some(high) = key_bound(ends.1) else {
        return false;
    };
    match Cursor::seek_back(work, runs, low.as_ref(), high.as_ref(), steps) {
        Ok(mut cursor) => gives(work, &mut cursor, pairs, steps),
        Err(_) => false,
    }
}

/// The plain program's pairs of an interval, reversed.
fn fallen(
    alloc: Global,
    chain: &[Vec<Row>],
    ends: (Option<u8>, Bound<u8>),
) -> Result<Vec<(u8, u8)>, AllocError> {
    let all = live_pairs(alloc, chain, &0, &None)?;
    falling(alloc, &all, &ends.0, &ends.1)
}

/// Whether a cursor that falls gives the plain program's pairs, reversed.
fn ranges_back<W: CellSource, L: Ledger>(
    alloc: Global,
    work: &mut W,
    runs: &ArrayVec<Run, MOST_LEVELS>,
    chain: &[Vec<Row>],
    ends: (Option<u8>, Bound<u8>),
    steps: &mut Steps<L>,
) -> bool
    requires runs { All (HasRun (W.state work.old).held) runs.now.items }
    requires rise { LevelsRise 0 runs.now.items }
    ensures { (W.state work.new).held ≡ (W.state work.old).held }
{
    match fallen(alloc, chain, ends) {
        Ok(pairs) => falls(work, runs, ends, &pairs, steps),
        Err(_) => false,
    }
}

/// The upper bounds of a falling range, of which each interval has one.
fn bound_of(high: Option<u8>, seed: u8) -> Bound<u8> {
    match high {
        Some(high) => {
            if seed % 2 == 0 {
                Bound::Included(high)
            } else {
                Bound::Excluded(high)
            }
        }
        None => Bound::Unbounded,
    }
}

/// The ends of an interval, of 42 for each seed: with both ends, and without an upper end, 14 keys apart. The seed moves the
/// ends, so that 98 seeds in turn have every interval of the keys up to 70, all of which are even.
fn ends_of(pair: u8, seed: u8) -> (u8, Option<u8>)
    requires { pair < 42 }
{
    let low = 14 * (pair / 7) + seed % 14;
    let high = match pair % 7 {
        6 => None,
        high => Some(14 * high + 2 * (seed / 14 % 7)),
    };
    (low, high)
}

/// Whether each interval of a seed has the plain program's pairs, both ways.
fn ranges_all<W: CellSource, L: Ledger>(
    alloc: Global,
    work: &mut W,
    runs: &ArrayVec<Run, MOST_LEVELS>,
    chain: &[Vec<Row>],
    seed: u8,
    steps: &mut Steps<L>,
) -> bool
    requires runs { All (HasRun (W.state work.old).held) runs.now.items }
    requires rise { LevelsRise 0 runs.now.items }
{
    for pair in 0..42u8 {
        let (low, high) = ends_of(pair, seed);
        let down_to = if low == 0 { None } else { Some(low) };
        let back = (down_to, bound_of(high, seed));
        if !ranges(alloc, work, runs, chain, (low, high), steps)
            || !ranges_back(alloc, work, runs, chain, back, steps)
        {
            return false;
        }
    }
    true
}

/// Whether a chain is searched, and ranges over it are taken, as by the plain programs.
fn answers<W: CellSink, L: Ledger>(
    alloc: Global,
    work: &mut W,
    chain: &[Vec<Row>],
    seed: u8,
    steps: &mut Steps<L>,
) -> bool
    requires levels { 3 < (W.CellSource.state work.old).held.fixed.levels }
    requires format { (W.CellSource.state work.old).held.fixed.format ≡ One }
    requires four { length chain.now ≡ 4 }
{
    match put_chain(work, chain, steps) {
        Ok(runs) => {
            finds_all(work, &runs, chain, steps)
                && ranges_all(alloc, work, &runs, chain, seed, steps)
        }
        Err(_) => false,
    }
}

/// Keys of the worked chain with their values, and at most how many ticks their searches make.
const FOUND: [(u8, Option<u8>, u64); 3] = [(9, Some(41), 10), (24, Some(24), 27), (33, None, 4)];

/// Whether each of these keys is found in at most as many ticks.
fn finds_few<W: CellSource, L: Ledger>(
    work: &mut W,
    runs: &ArrayVec<Run, MOST_LEVELS>,
    steps: &mut Steps<L>,
) -> bool
    requires { All (HasRun (W.state work.old).held) runs.now.items }
    ensures { (W.state work.new).held ≡ (W.state work.old).held }
{
    for row in &FOUND {
        let (key, value, ticks) = *row;
        let item = match value {
            Some(value) => item_of(&PlainItem::Value(value)),
            None => None,
        };
        let before = work.ticked();
        if !finds(work, runs, key, item, steps) || work.ticked().wrapping_sub(before) > ticks {
            return false;
        }
    }
    true
}

/// Whether the worked chain has these three pairs between 22 and 25.
fn has_three(alloc: Global, chain: &[Vec<Row>]) -> bool {
    match live_pairs(alloc, chain, &22, &Some(25)) {
        Ok(three) => three.as_slice() == [(22u8, 54u8), (23, 55), (24, 24)].as_slice(),
        Err(_) => false,
    }
}

/// Whether a range of three pairs is walked, both ways, in at most 100 ticks each; and one that is past all keys, and one
/// whose ends cross.
fn ranges_few<W: CellSource, L: Ledger>(
    alloc: Global,
    work: &mut W,
    runs: &ArrayVec<Run, MOST_LEVELS>,
    chain: &[Vec<Row>],
    steps: &mut Steps<L>,
) -> bool
    requires runs { All (HasRun (W.state work.old).held) runs.now.items }
    requires rise { LevelsRise 0 runs.now.items }
{
    let before = work.ticked();
    let rising = ranges(alloc, work, runs, chain, (22, Some(25)), steps);
    let between = work.ticked();
    let back = (Some(22), Bound::Included(24));
    let falling = ranges_back(alloc, work, runs, chain, back, steps);
    let after = work.ticked();
    let few = between.wrapping_sub(before) <= 100 && after.wrapping_sub(between) <= 100;
    let crossed = (Some(9), Bound::Excluded(3));
    rising
        && falling
        && few
        && ranges(alloc, work, runs, chain, (33, None), steps)
        && ranges(alloc, work, runs, chain, (9, Some(3)), steps)
        && ranges_back(alloc, work, runs, chain, crossed, steps)
        && ranges_back(alloc, work, runs, chain, (None, Bound::Unbounded), steps)
}

/// Whether the searches of the worked chain find what they should, and cost no more, and its ranges.
pub fn answers_worked<W: CellSink, L: Ledger>(
    alloc: Global,
    work: &mut W,
    chain: &[Vec<Row>],
    steps: &mut Steps<L>,
) -> bool
    requires levels { 3 < (W.CellSource.state work.old).held.fixed.levels }
    requires format { (W.CellSource.state work.old).held.fixed.format ≡ One }
    requires four { length chain.now ≡ 4 }
{
    match put_chain(work, chain, steps) {
        Ok(runs) => {
            finds_few(work, &runs, steps)
                && finds_all(work, &runs, chain, steps)
                && ranges_few(alloc, work, &runs, chain, steps)
        }
        Err(_) => false,
    }
}

/// Whether the worked chain is answered as by hand, in cells of its own.
fn worked_one<L: Ledger>(alloc: Global, steps: &mut Steps<L>) -> Result<bool, AllocError> {
    let chain = worked_chain(alloc)?;
    let mut cells = FlatCells::new(alloc, 4, Vec::new(alloc))?;
    Ok(has_three(alloc, &chain) && answers_worked(alloc, &mut cells, &chain, steps))
}

/// Whether the chain of a number is answered as by the plain programs, in cells of its own.
fn made_one<L: Ledger>(alloc: Global, seed: u8, steps: &mut Steps<L>) -> Result<bool, AllocError> {
    let chain = made_chain(alloc, seed as u32)?;
    let mut cells = FlatCells::new(alloc, 4, Vec::new(alloc))?;
    Ok(answers(alloc, &mut cells, &chain, seed, steps))
}

fn chains<L: Ledger>(rt: &impl Abort, alloc: Global, blank: Blank)
    requires name { blank.name ≡ L.name }
    requires parts { blank.parts ≡ L.parts }
    requires some { 0 < L.parts }
{
    let mut steps = Steps::<L>::begin(blank);
    assert!(rt; worked_one(alloc, &mut steps) == Ok(true));
    for seed in 0..100u8 {
        assert!(rt; made_one(alloc, seed, &mut steps) == Ok(true));
    }
}

#[test]
fn chains_answer_as_plain_programs(rt: HostRuntime) {
    chains::<Brand>(&rt, rt.alloc(), Blank::new(1));
}
