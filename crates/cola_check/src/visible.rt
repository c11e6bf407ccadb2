//! The tests of one run: its order, its sample of the run below, and how many cells it has.
ghost use Rattle.std.specs.Prelude.{◌≡◌, ◌↔◌, ◌+◌, ◌-◌, ◌≤◌, ◌<◌, ◌/◌, ◌∷◌, [], List, IsTrue, IfOk, OnOk, IfSome, Some, slice_get, min};
ghost use Rattle.std.specs.Option.{option_to_list};
ghost use Rattle.cola_cell.specs.Held.{Held, LawCell, as_cell};
ghost use Rattle.cola_cell.specs.Looks.{OnlyLooks};
ghost use Rattle.cola_look.specs.Runs.{HasRun};
ghost use Rattle.cola_runs.specs.Cells.{key_of, sample, count_looks};
ghost use Rattle.cola_cell.specs.ToldCells.{run_cells};
ghost use Rattle.cola_verdict.specs.Tests.{HasSample};
ghost use Rattle.cola_check.specs.Blocks.{TurnsTo, SampleReadsOn, run_blocks, run_blocks_or};
ghost use Rattle.cola_check.specs.Prefix.{AreBothTold, OrderIs, IsFew, lists_below, sample_len, sample_reads, Suits, IsSeen};
ghost use Rattle.cola_check.specs.Reading.{IsRunTold, ReadsRuns};

use crate::kinds::{has_key_of, is_look, is_old_value};
use crate::prefix::Prefix;
use cola_cell::{CellSource, Packed, ReadFault, Reader, Run};
use cola_outside::Steps;
use std::sync::ledger::Ledger;

/// How few cells a run must have: at most so many items and so many young ones among them, or at most so many cells.
#[derive(Clone, Copy, Drop)]
pub(crate) enum Few {
    Items { items: u32, young: u32 },
    Cells(u64),
}

/// What the tests of a run found: the index of the last cell of the shortest prefix that is out of order, if there is one;
/// whether it has the sample of the run below, or is of old values at the bottom; and whether it is as short as it must be.
#[derive(Clone, Copy, Drop)]
pub(crate) struct RunTests {
    pub disorder: Option<u32>,
    pub is_sampled: bool,
    pub has_few: bool,
}

/// The number of keys of the sample of the run below, if there is one.
fn sample_len(below: Option<Run>) -> u32
    ensures { result ≡ sample_len below }
{
    match below {
        Some(run) => run.len / 8,
        None => 0,
    }
}

/// Whether cells have at most so many items, and at most so many young ones among them.
fn has_few_items(seen: &Prefix, items: u32, young: u32) -> bool
    ensures { IsTrue result ↔ ((seen.now.place - seen.now.looks ≤ items) × (seen.now.young ≤ young)) }
{
    seen.place - seen.looks <= items && seen.young <= young
}

/// Whether the cells are as few as they must be.
fn is_few(few: Few, seen: &Prefix) -> bool
    ensures { (lists : List (List LawCell)) (cells : List LawCell) → IsSeen lists cells seen.now →
        (IsTrue result ↔ IsFew few cells) }
{
    match few {
        Few::Items { items, young } => has_few_items(seen, items, young),
        Few::Cells(most) => u64::from(seen.place) <= most,
    }
}

/// Whether all cells of a run pass the test of the sample: none of them fails it, and no key of the sample is left.
fn has_sample(seen: &Prefix, below: Option<Run>) -> bool
    ensures { IsTrue result ↔ (IsTrue seen.now.is_sampled × (seen.now.looks ≡ sample_len below)) }
{
    seen.is_sampled && seen.looks == sample_len(below)
}

/// What is known of all cells of a run, as the tests say it.
fn tests_of(seen: &Prefix, below: Option<Run>, few: Few) -> RunTests
    ensures order { (lists : List (List LawCell)) (cells : List LawCell) → IsSeen lists cells seen.now →
        OrderIs cells result.disorder }
    ensures within { IfSome result.disorder (λ index. index < seen.now.place) }
    ensures sampled { (held : Held) (rest : List (List LawCell)) (cells : List LawCell) →
        IsSeen (lists_below held below rest) cells seen.now → (IsTrue result.is_sampled ↔ HasSample cells (lists_below held below rest)) }
    ensures few { (lists : List (List LawCell)) (cells : List LawCell) → IsSeen lists cells seen.now →
        (IsTrue result.has_few ↔ IsFew few cells) }
{
    RunTests {
        disorder: seen.disorder,
        is_sampled: has_sample(seen, below),
        has_few: is_few(few, seen),
    }
}

/// Whether the key of this number in the sample of a run is that of a cell.
fn has_sampled<W: CellSource, L: Ledger>(
    work: &mut W,
    cell: &Packed,
    run: &Run,
    number: u32,
    steps: &mut Steps<L>,
) -> Result<bool, ReadFault>
    requires { HasRun (W.state work.old).held run.now }
    ensures sampled { IfOk result (λ is. IsRunTold (W.state work.old).held run.now →
        (IsTrue is ↔ (slice_get (sample (run_cells (W.state work.old).held run.now)) number ≡ Some (key_of (as_cell cell.now))))) }
    ensures reads { ReadsRuns (W.state work.old) (W.state work.new) steps.old steps.new
        (run.now ∷ []) (min 1 (run.now.len / 8 - number)) result }
    ensures blocks { OnOk result (SampleReadsOn (W.state work.old) (W.state work.new)
        (Some run.now) number (number + 1)) }
    ensures looks { OnlyLooks W.CellSource work.old work.new result }
{
    if number >= run.len / 8 {
        return Ok(false);
    }
    let index = 8 * number + 7;
    let mut sampled = Packed::blank();
    work.read_packed(
        Some(Reader::Sample),
        run.level,
        run.slot,
        index,
        &mut sampled,
        steps,
    )?;
    Ok(has_key_of(&sampled, cell))
}

/// Whether a cell is what the test of the sample asks behind so many lookahead cells.
fn suits_at<W: CellSource, L: Ledger>(
    work: &mut W,
    cell: &Packed,
    below: Option<Run>,
    looks: u32,
    steps: &mut Steps<L>,
) -> Result<bool, ReadFault>
    requires { IfSome below (HasRun (W.state work.old).held) }
    ensures suits { IfOk result (λ suits.
        IfSome below (IsRunTold (W.state work.old).held) → (rest : List (List LawCell)) →
        (IsTrue suits ↔ Suits (lists_below (W.state work.old).held below rest) looks (as_cell cell.now))) }
    ensures reads { ReadsRuns (W.state work.old) (W.state work.new) steps.old steps.new
        (option_to_list below) (sample_reads below looks (as_cell cell.now)) result }
    ensures blocks { OnOk result (SampleReadsOn (W.state work.old) (W.state work.new) below
        looks (looks + count_looks (as_cell cell.now ∷ []))) }
    ensures looks { OnlyLooks W.CellSource work.old work.new result }
{
    match below {
        Some(run) => {
            if is_look(cell) {
                has_sampled(work, cell, &run, looks, steps)
            } else {
                Ok(true)
            }
        }
        None => Ok(is_old_value(cell)),
    }
}

/// The cells of a run, of which each is read once, and with each lookahead cell the next one of the sample of the run below.
fn read_all<W: CellSource, L: Ledger>(
    work: &mut W,
    run: &Run,
    below: Option<Run>,
    steps: &mut Steps<L>,
) -> Result<Prefix, ReadFault>
    requires run { HasRun (W.state work.old).held run.now }
    requires below { IfSome below (HasRun (W.state work.old).held) }
    ensures seen { IfOk result (λ seen.
        AreBothTold (W.state work.old).held run.now below → (rest : List (List LawCell)) →
        IsSeen (lists_below (W.state work.old).held below rest) (run_cells (W.state work.old).held run.now) seen) }
    ensures whole { IfOk result (λ seen. seen.place ≡ run.now.len) }
    ensures reads { ReadsRuns (W.state work.old) (W.state work.new) steps.old steps.new
        (run.now ∷ option_to_list below) (run.now.len + sample_len below) result }
    ensures blocks { OnOk result (TurnsTo (W.state work.old) (W.state work.new)
        (run_blocks (W.state work.old).held run.now + run_blocks_or (W.state work.old).held below)) }
    ensures looks { OnlyLooks W.CellSource work.old work.new result }
{
    let mut seen = Prefix::empty();
    let mut cell = Packed::blank();
    for index in 0..run.len {
        work.read_packed(
            Some(Reader::Own),
            run.level,
            run.slot,
            index,
            &mut cell,
            steps,
        )?;
        let suits = suits_at(work, &cell, below, seen.looks, steps)?;
        seen.take(&cell, suits);
    }
    Ok(seen)
}

/// Tests a run over the run below it, if there is one, in one pass. Where both runs are told, each answer is exact, whatever
/// the others are.
pub(crate) fn test_run<W: CellSource, L: Ledger>(
    work: &mut W,
    run: &Run,
    below: Option<Run>,
    few: Few,
    steps: &mut Steps<L>,
) -> Result<RunTests, ReadFault>
    requires run { HasRun (W.state work.old).held run.now }
    requires below { IfSome below (HasRun (W.state work.old).held) }
    ensures order { IfOk result (λ tests. AreBothTold (W.state work.old).held run.now below →
        OrderIs (run_cells (W.state work.old).held run.now) tests.disorder) }
    ensures within { IfOk result (λ tests. IfSome tests.disorder (λ index. index < run.now.len)) }
    ensures sampled { IfOk result (λ tests.
        AreBothTold (W.state work.old).held run.now below → (rest : List (List LawCell)) →
        (IsTrue tests.is_sampled ↔ HasSample (run_cells (W.state work.old).held run.now) (lists_below (W.state work.old).held below rest))) }
    ensures few { IfOk result (λ tests. AreBothTold (W.state work.old).held run.now below →
        (IsTrue tests.has_few ↔ IsFew few (run_cells (W.state work.old).held run.now))) }
    ensures reads { ReadsRuns (W.state work.old) (W.state work.new) steps.old steps.new
        (run.now ∷ option_to_list below) (run.now.len + sample_len below) result }
    ensures blocks { OnOk result (TurnsTo (W.state work.old) (W.state work.new)
        (run_blocks (W.state work.old).held run.now + run_blocks_or (W.state work.old).held below)) }
    ensures looks { OnlyLooks W.CellSource work.old work.new result }
{
    let seen = read_all(work, run, below, steps)?;
    Ok(tests_of(&seen, below, few))
}
