//! Merges of two runs and a sample: in each list of quotas, with each access refused, and at the bottom.
ghost use Rattle.std.specs.Prelude.{◌≡◌, ◌+◌, ◌<◌, ◌≤◌, IfOk, length};
ghost use Rattle.cola_cell.specs.declared.format.Format.TheVariants.{One};
ghost use Rattle.cola_merge.specs.Heads.{fresh, IsReady};

use crate::rows::{Row, Stretch, What, rows_of};
use crate::runs::{has_rows, put_run};
use cola_bottom::bottom_aim;
use cola_cell::{CellSink, FlatCells, ReadFault, Run, StepFault};
use cola_clock::Part;
use cola_merge::{Aim, Feed, Merger, Progress};
use cola_outside::Steps;
use cola_plain_runs::cells::PlainPart;
use cola_plain_runs::weave::{sample, weave};
use std::alloc::{AllocError, Global};
use std::marker::Brand;
use std::process::Abort;
use std::sync::ledger::{Blank, Ledger};

/// Puts the bottom's run into slot 1 of level 3 and the run above it into slot 0 of level 2, for the next run in slot 0.
pub fn at_bottom<W: CellSink, L: Ledger>(
    work: &mut W,
    own: &[Row],
    incoming: &[Row],
    steps: &mut Steps<L>,
) -> Result<Aim, StepFault>
    requires levels { 3 < (W.CellSource.state work.old).held.fixed.levels }
    requires format { (W.CellSource.state work.old).held.fixed.format ≡ One }
    ensures fixed { (W.CellSource.state work.new).held.fixed ≡ (W.CellSource.state work.old).held.fixed }
    ensures level { IfOk result (λ aim. aim.level ≡ 3) }
    ensures ready { IfOk result (λ aim. IsReady (W.CellSource.state work.new).held aim fresh) }
{
    let own = put_run(work, 3, 1, own, steps)?;
    let incoming = put_run(work, 2, 0, incoming, steps)?;
    work.restart(3, 0);
    Ok(bottom_aim(own, incoming, 0))
}

/// Puts the runs of a build of this part into levels 1 to 3, for the next run in slot 0 of level 2.
fn at_level_2<W: CellSink, L: Ledger>(
    work: &mut W,
    runs: &[Vec<Row>],
    part: &PlainPart,
    steps: &mut Steps<L>,
) -> Result<Aim, StepFault>
    requires three { length runs.now ≡ 3 }
    requires levels { 3 < (W.CellSource.state work.old).held.fixed.levels }
    requires format { (W.CellSource.state work.old).held.fixed.format ≡ One }
    ensures fixed { (W.CellSource.state work.new).held.fixed ≡ (W.CellSource.state work.old).held.fixed }
    ensures level { IfOk result (λ aim. aim.level ≡ 2) }
    ensures ready { IfOk result (λ aim. IsReady (W.CellSource.state work.new).held aim fresh) }
{
    let own = put_run(work, 2, 1, &runs[0], steps)?;
    let incoming = put_run(work, 1, 0, &runs[1], steps)?;
    let below = put_run(work, 3, 0, &runs[2], steps)?;
    work.restart(2, 0);
    Ok(Aim {
        level: 2,
        slot: 0,
        own: Feed::Run(own),
        incoming: Feed::Run(incoming),
        sample: Feed::Sampled(below),
        part: part_of(part),
        young: part.marks_young,
        bottom: part.drops_tombstones,
    })
}

fn part_of(part: &PlainPart) -> Part {
    if part.only_young {
        Part::Young
    } else {
        Part::All
    }
}

/// Calls with these quotas in turn. Answers how many calls left cells, how many left none, and how many were refused.
fn advance_all<W: CellSink, L: Ledger>(
    work: &mut W,
    merger: &mut Merger,
    aim: &Aim,
    quotas: &[u32],
    steps: &mut Steps<L>,
) -> (u32, u32, u32)
    requires ready { IsReady (W.CellSource.state work.old).held aim.now merger.old }
    ensures ready { IsReady (W.CellSource.state work.new).held aim.now merger.new }
    ensures fixed { (W.CellSource.state work.new).held.fixed ≡ (W.CellSource.state work.old).held.fixed }
{
    let (mut more, mut done, mut refused) = (0u32, 0u32, 0u32);
    for quota in quotas {
        match merger.advance(work, aim, *quota, steps) {
            Ok(Progress::More) => more = more.wrapping_add(1),
            Ok(Progress::Done) => done = done.wrapping_add(1),
            Err(_) => refused = refused.wrapping_add(1),
        }
    }
    (more, done, refused)
}

/// Whether the shadow of a level, in slot 0, has these cells.
fn has_built<W: CellSink, L: Ledger>(
    work: &mut W,
    level: u8,
    rows: &[Row],
    steps: &mut Steps<L>,
) -> Result<bool, ReadFault>
    requires { level < (W.CellSource.state work.old).held.fixed.levels }
{
    let slot = 0;
    let len = work.shadow_len(level);
    has_rows(work, &Run { level, slot, len }, rows, steps)
}

/// A first call with a quota, and the calls with the same quota that follow it.
struct Case {
    /// The number of an access that fails; the runs are put into their slots by the first 37.
    failing: u64,
    quota: u32,
    first: Result<Progress, StepFault>,
    /// How many cells the first call consumed of the bottom's own run and of the other, and how many it emitted.
    stand: (u32, u32, u32),
    calls: usize,
    /// How many of the later calls leave cells, how many leave none, and how many are refused.
    later: (u32, u32, u32),
}

const CASES: [Case; 3] = [
    Case {
        failing: 0,
        quota: 28,
        first: Ok(Progress::More),
        stand: (23, 5, 23),
        calls: 1,
        later: (0, 1, 0),
    },
    Case {
        failing: 0,
        quota: 1,
        first: Ok(Progress::More),
        stand: (1, 0, 0),
        calls: 36,
        later: (35, 1, 0),
    },
    Case {
        failing: 44,
        quota: 28,
        first: Err(StepFault::Device),
        stand: (2, 1, 1),
        calls: 2,
        later: (1, 1, 0),
    },
];

/// The bottom's run after forty-three puts of thirty-two keys in turn; the run above it, of two newer items, a sample of the
/// bottom and six items that the bottom lacks; and the bottom's next run.
const OLDER: [Stretch; 1] = [(1, 26, What::Old(1), 0)];

const NEWER: [Stretch; 5] = [
    (1, 2, What::Old(33), 0),
    (8, 1, What::Look, 0),
    (16, 1, What::Look, 8),
    (24, 1, What::Look, 16),
    (27, 6, What::Old(27), 24),
];

const MERGED: [Stretch; 2] = [(1, 2, What::Old(33), 0), (3, 30, What::Old(3), 0)];

/// Whether a first call and those that follow it do as the case says, over these rows of the bottom and of the run above, and
/// build these.
fn goes_as_said<W: CellSink, L: Ledger>(
    work: &mut W,
    case: &Case,
    quotas: &[u32],
    rows: (&[Row], &[Row], &[Row]),
    steps: &mut Steps<L>,
) -> bool
    requires levels { 3 < (W.CellSource.state work.old).held.fixed.levels }
    requires format { (W.CellSource.state work.old).held.fixed.format ≡ One }
{
    let Ok(aim) = at_bottom(work, rows.0, rows.1, steps) else {
        return false;
    };
    let mut merger = Merger::begin();
    let first = merger.advance(work, &aim, case.quota, steps);
    let stand = (merger.own(), merger.incoming(), work.shadow_len(3));
    let begun = first == case.first && stand == case.stand && merger.sample() == 0;
    let later = advance_all(work, &mut merger, &aim, quotas, steps);
    begun
        && later == case.later
        && merger.is_done(&aim)
        && has_built(work, 3, rows.2, steps) == Ok(true)
}

fn stop_and_resume<L: Ledger>(
    alloc: Global,
    case: &Case,
    steps: &mut Steps<L>,
) -> Result<bool, AllocError> {
    let older = rows_of(alloc, &OLDER)?;
    let newer = rows_of(alloc, &NEWER)?;
    let merged = rows_of(alloc, &MERGED)?;
    let quotas = vec![in alloc; case.quota; case.calls]?;
    let mut cells = FlatCells::new(alloc, 4, vec![in alloc; case.failing]?)?;
    let rows = (older.as_slice(), newer.as_slice(), merged.as_slice());
    Ok(goes_as_said(&mut cells, case, &quotas, rows, steps))
}

/// Whether a key that has a value in the bottom's run, and a tombstone in the run above, is gone: the bottom's next run is
/// empty.
fn leaves_none<W: CellSink, L: Ledger>(
    work: &mut W,
    own: &[Row],
    incoming: &[Row],
    steps: &mut Steps<L>,
) -> bool
    requires levels { 3 < (W.CellSource.state work.old).held.fixed.levels }
    requires format { (W.CellSource.state work.old).held.fixed.format ≡ One }
{
    let Ok(aim) = at_bottom(work, own, incoming, steps) else {
        return false;
    };
    let mut merger = Merger::begin();
    let calls = advance_all(work, &mut merger, &aim, &[1, 1], steps);
    calls == (1, 1, 0) && work.shadow_len(3) == 0
}

fn delete_at_bottom<L: Ledger>(alloc: Global, steps: &mut Steps<L>) -> Result<bool, AllocError> {
    let own = rows_of(alloc, &[(1, 1, What::Old(1), 0)])?;
    let incoming = rows_of(alloc, &[(1, 1, What::Deleted, 0)])?;
    let mut cells = FlatCells::new(alloc, 4, Vec::new(alloc))?;
    Ok(leaves_none(&mut cells, &own, &incoming, steps))
}

fn bottom_merges<L: Ledger>(rt: &impl Abort, alloc: Global, blank: Blank)
    requires name { blank.name ≡ L.name }
    requires parts { blank.parts ≡ L.parts }
    requires some { 0 < L.parts }
{
    let mut steps = Steps::<L>::begin(blank);
    for case in &CASES {
        assert!(rt; stop_and_resume(alloc, case, &mut steps) == Ok(true));
    }
    assert!(rt; delete_at_bottom(alloc, &mut steps) == Ok(true));
}

#[test]
fn a_bottom_merge_stops_and_resumes(rt: HostRuntime) {
    bottom_merges::<Brand>(&rt, rt.alloc(), Blank::new(1));
}

pub const PARTS: [PlainPart; 3] = [
    PlainPart {
        only_young: false,
        marks_young: true,
        drops_tombstones: false,
    },
    PlainPart {
        only_young: true,
        marks_young: false,
        drops_tombstones: false,
    },
    PlainPart {
        only_young: false,
        marks_young: false,
        drops_tombstones: true,
    },
];

/// Three cells of the level's own run, two of the run above and eight of the run below, of which the last is sampled: six
/// steps.
pub fn small_runs(alloc: Global) -> Result<Vec<Vec<Row>>, AllocError>
    ensures { IfOk result (λ runs. length runs.items ≡ 3) }
{
    let own = [
        (10, 1, What::Young(1), 0),
        (30, 1, What::Old(3), 0),
        (40, 1, What::Look, 0),
    ];
    let incoming = [(10, 1, What::Young(11), 0), (20, 1, What::JustDeleted, 0)];
    let mut runs = Vec::new(alloc);
    runs.push(rows_of(alloc, &own)?)?;
    runs.push(rows_of(alloc, &incoming)?)?;
    runs.push(rows_of(alloc, &[(13, 8, What::Old(13), 0)])?)?;
    Ok(runs)
}

/// What the plain slow program makes of the six cells; nothing where they are not six.
pub fn plain_weave(
    alloc: Global,
    runs: &[Vec<Row>],
    part: &PlainPart,
) -> Result<Vec<Row>, AllocError>
    requires { length runs.now ≡ 3 }
{
    let keys = sample(alloc, &runs[2])?;
    if runs[0].len() != 3 || runs[1].len() != 2 || keys.len() != 1 {
        return Ok(Vec::new(alloc));
    }
    weave(alloc, part, &runs[0], &runs[1], &keys)
}

/// Quotas of six steps: one ends behind the last step, and behind each earlier one whose bit is set.
fn quotas_of(alloc: Global, ends: u32) -> Result<Vec<u32>, AllocError> {
    let mut quotas = Vec::new(alloc);
    let mut quota = 0u32;
    for gap in 0..6u32 {
        quota = quota.wrapping_add(1);
        if gap == 5 || ends >> gap & 1 == 1 {
            quotas.push(quota)?;
            quota = 0;
        }
    }
    Ok(quotas)
}

/// Whether the cells of a build in these quotas are the plain program's, so many calls are refused, and the last one alone
/// leaves no cell.
pub fn builds<W: CellSink, L: Ledger>(
    work: &mut W,
    runs: &[Vec<Row>],
    wanted: &[Row],
    part: &PlainPart,
    quotas: &[u32],
    refused: u32,
    steps: &mut Steps<L>,
) -> bool
    requires three { length runs.now ≡ 3 }
    requires levels { 3 < (W.CellSource.state work.old).held.fixed.levels }
    requires format { (W.CellSource.state work.old).held.fixed.format ≡ One }
{
    let Ok(aim) = at_level_2(work, runs, part, steps) else {
        return false;
    };
    let mut merger = Merger::begin();
    let (more, done, faults) = advance_all(work, &mut merger, &aim, quotas, steps);
    let ended = more as u64 + done as u64 + faults as u64;
    ended == quotas.len() as u64
        && done == 1
        && faults == refused
        && has_built(work, 2, wanted, steps) == Ok(true)
}

/// A build of the small runs in these quotas, in cells of which these accesses fail.
fn build_small<L: Ledger>(
    alloc: Global,
    part: &PlainPart,
    quotas: &[u32],
    failing: Vec<u64>,
    refused: u32,
    steps: &mut Steps<L>,
) -> Result<bool, AllocError> {
    let runs = small_runs(alloc)?;
    let wanted = plain_weave(alloc, &runs, part)?;
    let mut cells = FlatCells::new(alloc, 4, failing)?;
    let few = 3 <= wanted.len() && wanted.len() <= 4;
    Ok(few && builds(&mut cells, &runs, &wanted, part, quotas, refused, steps))
}

/// One in the quotas that a number makes.
fn build_whole<L: Ledger>(
    alloc: Global,
    part: &PlainPart,
    ends: u32,
    steps: &mut Steps<L>,
) -> Result<bool, AllocError> {
    let quotas = quotas_of(alloc, ends)?;
    build_small(alloc, part, &quotas, Vec::new(alloc), 0, steps)
}

/// One in two calls, where this access is refused.
fn build_refused<L: Ledger>(
    alloc: Global,
    number: u64,
    steps: &mut Steps<L>,
) -> Result<bool, AllocError> {
    let failing = vec![in alloc; number]?;
    build_small(alloc, &PARTS[0], &[6, 6], failing, 1, steps)
}

fn small_merges<L: Ledger>(rt: &impl Abort, alloc: Global, blank: Blank)
    requires name { blank.name ≡ L.name }
    requires parts { blank.parts ≡ L.parts }
    requires some { 0 < L.parts }
{
    let mut steps = Steps::<L>::begin(blank);
    for part in &PARTS {
        for ends in 0..32u32 {
            assert!(rt; build_whole(alloc, part, ends, &mut steps) == Ok(true));
        }
    }
    // the runs are put into their slots by 13 accesses, and the merge makes 10
    for number in 14..24u64 {
        assert!(rt; build_refused(alloc, number, &mut steps) == Ok(true));
    }
}

#[test]
fn every_list_of_quotas_gives_the_plain_weave(rt: HostRuntime) {
    small_merges::<Brand>(&rt, rt.alloc(), Blank::new(1));
}
