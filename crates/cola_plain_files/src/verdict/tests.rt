//! The tests of one level.

ghost use Rattle.std.specs.Prelude.{◌≡◌, ◌≤◌, ◌<◌, ◌+◌, ◌++◌, ◌^◌, ◌↔◌, suc, not, true, length, drop, IsTrue, IfOk};
ghost use Rattle.cola_cell.specs.Order.{key_cmp};
ghost use Rattle.cola_clock.specs.Clock.{period, is_odd, is_over};
ghost use Rattle.cola_laws.specs.Chain.{part_of, visibles, first_keys, next_runs};
ghost use Rattle.cola_laws.specs.Sound.{IsVisible};
ghost use Rattle.cola_plain_runs.specs.Runs.{as_cell, as_run, as_part, linked_to};
ghost use Rattle.cola_runs.specs.Cells.{count_looks};
ghost use Rattle.cola_runs.specs.Weave.{relinked};
ghost use Rattle.cola_plain_files.specs.Levels.{as_level, as_levels, runs_from, IsLevelCut, HasFewFrom};
ghost use Rattle.cola_verdict.specs.Tests.{HasSample, HasFew, HasShadow, IsShadowFinished, live_pairs};

use crate::verdict::cells::{FileCell, PlainValue, is_same_run};
use crate::verdict::level::PlainLevel;
use crate::verdict::levels::{copy_of, first_keys, is_odd, live_pairs_of, runs_from};
use crate::verdict::runs::{
    are_old_values, count_looks, has_few_items, is_bottom_run, is_same_list, is_upper_run,
    look_keys, rest_of,
};
use crate::verdict::seen::carries;
use cola_cell::Key;
use cola_clock::{Phase, phase};
use cola_plain_runs::cells::{PlainCell, PlainItem, PlainPart, looks_ahead};
use cola_plain_runs::weave::{sample, weave};
use std::alloc::{AllocError, Global};

/// Whether the lookahead cells of a level's visible run are the sample of the run below, or at the bottom each cell is an old
/// value.
pub fn has_sample(
    alloc: Global,
    level: &PlainLevel,
    below: &[PlainLevel],
) -> Result<bool, AllocError>
    ensures { IfOk result (λ holds. IsTrue holds ↔ HasSample (as_level level.now).visible (visibles (as_levels below.now))) }
{
    match below.first() {
        Some(next) => {
            let looks = look_keys(alloc, level.visible.as_slice())?;
            let keys = sample(alloc, next.visible.as_slice())?;
            Ok(is_same_list(looks.as_slice(), keys.as_slice()))
        }
        None => Ok(are_old_values(level.visible.as_slice())),
    }
}

/// Whether a run has no more items than it may have, or at the bottom no more cells than the store is for keys.
pub fn has_few(most: u64, odd: bool, number: u8, run: &[FileCell], below: &[PlainLevel]) -> bool
    requires { number ≤ 22 }
    ensures { IsTrue result ↔ HasFew most odd number (as_run run.now) (as_levels below.now) }
{
    if below.is_empty() {
        run.len() as u64 <= most
    } else {
        has_few_items(odd, number, run)
    }
}

/// The part that a level builds in a period of this parity.
fn part_of(odd: bool, below: &[PlainLevel]) -> PlainPart
    ensures { as_part result ≡ part_of odd (as_levels below.now) }
{
    let bottom = below.is_empty();
    PlainPart {
        only_young: odd && !bottom,
        marks_young: !odd && !bottom,
        drops_tombstones: bottom,
    }
}

/// The cell with this link.
fn linked_to(cell: &FileCell, link: u64) -> FileCell
    ensures { as_cell result ≡ linked_to link (as_cell cell.now) }
{
    match cell {
        PlainCell::Entry {
            key,
            item,
            young,
            ..
        } => PlainCell::Entry {
            key: *key,
            item: *item,
            young: *young,
            link,
        },
        PlainCell::Look { key, .. } => PlainCell::Look { key: *key, link },
    }
}

/// The cells done, and behind them the rest with the links that it has there.
fn joined(alloc: Global, done: &[FileCell], rest: &[FileCell]) -> Result<Vec<FileCell>, AllocError>
    requires { length done.now + length rest.now < 2 ^ 32 }
    ensures { IfOk result (λ run. as_run run.items ≡ as_run done.now ++ relinked (count_looks (as_run done.now)) (as_run rest.now)) }
{
    let _item: Option<PlainItem<PlainValue>> = None;
    let mut run = copy_of(alloc, done)?;
    let mut looks = count_looks(done);
    for cell in rest {
        run.push(linked_to(cell, 8 * looks))?;
        if looks_ahead(cell) {
            looks += 1;
        }
    }
    Ok(run)
}

/// Whether a level's cursors cut its build after its shadow.
fn is_cut(
    alloc: Global,
    part: &PlainPart,
    above: &[FileCell],
    level: &PlainLevel,
    keys: &[Key],
) -> Result<bool, AllocError>
    requires above_small { length above.now ≤ 2 ^ 24 }
    requires keys_small { length keys.now ≤ 2 ^ 24 }
    ensures { IfOk result (λ holds. IsTrue holds ↔ IsLevelCut (as_part part.now) (as_run above.now) (as_level level.now) keys.now) }
{
    let own = level.visible.as_slice();
    let whole = weave(alloc, part, own, above, keys)?;
    let rest = weave(
        alloc,
        part,
        rest_of(own, level.own),
        rest_of(above, level.incoming),
        rest_of(keys, level.sampled),
    )?;
    let run = joined(alloc, level.shadow.as_slice(), rest.as_slice())?;
    Ok(is_same_run(run.as_slice(), whole.as_slice()))
}

/// Whether a run is one that may be visible at a level, in a period of this parity, over a run with this sample.
fn is_visible_run(
    alloc: Global,
    most: u64,
    odd: bool,
    number: u8,
    run: &[FileCell],
    below: &[PlainLevel],
    keys: &[Key],
) -> Result<bool, AllocError>
    requires { number ≤ 22 }
    ensures { IfOk result (λ holds. IsTrue holds ↔ IsVisible key_cmp most odd number (as_run run.now) (as_levels below.now) keys.now) }
{
    if below.is_empty() {
        Ok(is_bottom_run(most, run))
    } else {
        is_upper_run(alloc, odd, number, run, keys)
    }
}

/// Whether a level's shadow is finished.
fn is_finished(
    alloc: Global,
    most: u64,
    clock: u64,
    number: u8,
    above: &[FileCell],
    level: &PlainLevel,
    below: &[PlainLevel],
) -> Result<bool, AllocError>
    requires number_in_range { number ≤ 22 }
    requires clock_in_range { clock < 2 ^ 23 }
    ensures { IfOk result (λ holds. IsTrue holds ↔ IsShadowFinished most (is_odd (period clock number)) number (as_run above.now) (as_level level.now) (as_levels below.now) (next_runs clock number (as_levels below.now))) }
{
    let odd = is_odd(clock, number);
    let keys = first_keys(alloc, clock, number, below)?;
    let shadow = level.shadow.as_slice();
    if !is_visible_run(alloc, most, !odd, number, shadow, below, keys.as_slice())? {
        return Ok(false);
    }
    let part = part_of(odd, below);
    Ok(carries(
        &part,
        part.marks_young,
        above,
        level.visible.as_slice(),
        shadow,
    ))
}

/// Whether a level's shadow is what it builds, inside its window and behind it.
pub fn has_shadow(
    alloc: Global,
    most: u64,
    clock: u64,
    number: u8,
    above: &[FileCell],
    level: &PlainLevel,
    below: &[PlainLevel],
) -> Result<bool, AllocError>
    requires below_zero { 1 ≤ number }
    requires number_in_range { number ≤ 22 }
    requires clock_in_range { clock < 2 ^ 23 }
    requires above_small { length above.now ≤ 2 ^ 24 }
    ensures { IfOk result (λ holds. IsTrue holds ↔ HasShadow most clock number (as_run above.now) (as_level level.now) (as_levels below.now)) }
{
    match phase(clock, number) {
        Phase::Before => Ok(true),
        Phase::Inside(_) => {
            let part = part_of(is_odd(clock, number), below);
            let keys = first_keys(alloc, clock, number, below)?;
            is_cut(alloc, &part, above, level, keys.as_slice())
        }
        Phase::After => is_finished(alloc, most, clock, number, above, level, below),
    }
}

/// Whether the runs from a level down have at most so many live keys.
fn has_few_keys(
    alloc: Global,
    most: u64,
    clock: u64,
    number: u8,
    shadow: bool,
    levels: &[PlainLevel],
) -> Result<bool, AllocError>
    requires levels_in_range { number + length levels.now ≤ 23 }
    requires clock_in_range { clock < 2 ^ 23 }
    ensures { IfOk result (λ holds. IsTrue holds ↔ length (live_pairs (runs_from shadow clock number (as_levels levels.now))) ≤ most) }
{
    let runs = runs_from(alloc, clock, number, shadow, levels)?;
    let pairs = live_pairs_of(alloc, runs.as_slice())?;
    Ok(pairs.len() as u64 <= most)
}

/// Whether the window of a level is over.
fn is_over(clock: u64, number: u8) -> bool
    requires number_in_range { number ≤ 22 }
    requires clock_in_range { clock < 2 ^ 23 }
    ensures { result ≡ is_over clock number }
{
    if number == 0 {
        return false;
    }
    match phase(clock, number) {
        Phase::After => true,
        Phase::Before | Phase::Inside(_) => false,
    }
}

/// Whether a level's shadow with its next runs has at most so many live keys, once its window is over.
fn has_few_next(
    alloc: Global,
    most: u64,
    clock: u64,
    number: u8,
    levels: &[PlainLevel],
) -> Result<bool, AllocError>
    requires levels_in_range { number + length levels.now ≤ 23 }
    requires some { 1 ≤ length levels.now }
    requires clock_in_range { clock < 2 ^ 23 }
    ensures { IfOk result (λ holds. IsTrue holds ↔ (is_over clock number ≡ true → length (live_pairs (runs_from true clock number (as_levels levels.now))) ≤ most)) }
{
    if !is_over(clock, number) {
        return Ok(true);
    }
    has_few_keys(alloc, most, clock, number, true, levels)
}

/// Whether the runs from the first of these levels down have no more live keys than the store is for, and its shadow with
/// its next runs neither, once its window is over.
pub fn has_few_live(
    alloc: Global,
    most: u64,
    clock: u64,
    number: u8,
    levels: &[PlainLevel],
) -> Result<bool, AllocError>
    requires levels_in_range { number + length levels.now ≤ 23 }
    requires some { 1 ≤ length levels.now }
    requires clock_in_range { clock < 2 ^ 23 }
    ensures { IfOk result (λ holds. IsTrue holds ↔ HasFewFrom most clock number (as_levels levels.now)) }
{
    if !has_few_next(alloc, most, clock, number, levels)? {
        return Ok(false);
    }
    has_few_keys(alloc, most, clock, number, false, levels)
}
