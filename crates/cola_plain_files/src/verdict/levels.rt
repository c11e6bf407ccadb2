//! The levels of a file, the runs that are seen from one of them down, and the live pairs of these.

ghost use Rattle.std.specs.Prelude.{◌≡◌, ◌≤◌, ◌<◌, ◌+◌, ◌^◌, ◌↔◌, ℕ, suc, List, Bool, cond, length, [], ◌∷◌, IsTrue, IsSome, IfSome, IfOk};
ghost use Rattle.std.specs.List.{AllByRecursion};
ghost use Rattle.cola_clock.specs.Clock.{period, is_odd};
ghost use Rattle.cola_laws.specs.Chain.{first_keys, next_runs};
ghost use Rattle.cola_plain_runs.specs.Runs.{as_run};
ghost use Rattle.cola_plain_files.specs.Levels.{HaveKeys, as_level, as_levels, as_runs, shown_of, runs_from};
ghost use Rattle.cola_verdict.specs.Tests.{live_pairs};

use crate::verdict::cells::{FileCell, PlainValue};
use crate::verdict::level::PlainLevel;
use cola_cell::Key;
use cola_clock::visible_slot;
use cola_plain_runs::cells::{PlainItem, key};
use cola_plain_runs::pairs::live_pairs;
use cola_plain_runs::weave::sample;
use std::alloc::{AllocError, Global};

/// Whether the period of a level is odd.
pub fn is_odd(clock: u64, level: u8) -> bool
    requires level_in_range { level ≤ 22 }
    requires clock_in_range { clock < 2 ^ 23 }
    ensures { result ≡ is_odd (period clock level) }
{
    visible_slot(clock, level) == 1
}

/// The run of a level that is asked for: its shadow, or the visible one.
fn shown(level: &PlainLevel, shadow: bool) -> &[FileCell]
    ensures run { as_run result.now ≡ shown_of shadow (as_level level.now) }
    ensures small { length result.now ≤ 2 ^ 24 }
{
    let _item: Option<PlainItem<PlainValue>> = None;
    if shadow {
        level.shadow.as_slice()
    } else {
        level.visible.as_slice()
    }
}

/// The run again.
pub fn copy_of(alloc: Global, run: &[FileCell]) -> Result<Vec<FileCell>, AllocError>
    ensures { IfOk result (λ copy. as_run copy.items ≡ as_run run.now) }
{
    let _item: Option<PlainItem<PlainValue>> = None;
    run.iter().copied().collect(alloc)
}

/// The runs that are seen from a level down: its shadow and the runs that will be visible below it, or the visible ones.
pub fn runs_from(
    alloc: Global,
    clock: u64,
    first: u8,
    shadow: bool,
    levels: &[PlainLevel],
) -> Result<Vec<Vec<FileCell>>, AllocError>
    requires levels_in_range { first + length levels.now ≤ 23 }
    requires clock_in_range { clock < 2 ^ 23 }
    ensures { IfOk result (λ runs. as_runs runs.items ≡ runs_from shadow clock first (as_levels levels.now)) }
{
    let _item: Option<PlainItem<PlainValue>> = None;
    let mut runs = Vec::new(alloc);
    let mut number = first;
    let mut shows_shadow = shadow;
    for level in levels {
        let run = copy_of(alloc, shown(level, shows_shadow))?;
        runs.push(run)?;
        shows_shadow &= is_odd(clock, number);
        number += 1;
    }
    Ok(runs)
}

/// The keys that a level samples: of the run that will lie below its shadow, where one does.
pub fn first_keys(
    alloc: Global,
    clock: u64,
    level: u8,
    below: &[PlainLevel],
) -> Result<Vec<Key>, AllocError>
    requires level_in_range { level ≤ 22 }
    requires clock_in_range { clock < 2 ^ 23 }
    ensures keys { IfOk result (λ keys. keys.items ≡ first_keys (next_runs clock level (as_levels below.now))) }
    ensures small { IfOk result (λ keys. length keys.items ≤ 2 ^ 24) }
{
    match below.first() {
        Some(next) => sample(alloc, shown(next, is_odd(clock, level))),
        None => Ok(Vec::new(alloc)),
    }
}

/// The least key, of one zero byte.
fn least_key() -> Option<Key>
    ensures least { IfSome result (λ key. key ≡ 0 ∷ []) }
    ensures some { IsSome result }
{
    Key::of(&[0])
}

/// The keys of a run's cells are what a key may be. It does nothing.
fn keys_of_run(run: &[FileCell])
    ensures { HaveKeys (as_run run.now) }
{
    let _item: Option<PlainItem<PlainValue>> = None;
    for cell in run {
        let _key = key(cell);
    }
}

/// The same of runs.
fn keys_of_runs(runs: &[Vec<FileCell>])
    ensures { AllByRecursion HaveKeys (as_runs runs.now) }
{
    let _item: Option<PlainItem<PlainValue>> = None;
    for run in runs {
        keys_of_run(run.as_slice());
    }
}

/// The live pairs of runs, of which the first is the newest.
pub fn live_pairs_of(
    alloc: Global,
    runs: &[Vec<FileCell>],
) -> Result<Vec<(Key, PlainValue)>, AllocError>
    ensures { IfOk result (λ pairs. pairs.items ≡ live_pairs (as_runs runs.now)) }
{
    let _item: Option<PlainItem<PlainValue>> = None;
    keys_of_runs(runs);
    match least_key() {
        Some(least) => live_pairs(alloc, runs, &least, &None),
        None => Ok(Vec::new(alloc)),
    }
}
