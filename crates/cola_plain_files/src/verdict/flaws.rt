//! The flaws of a file whose cells are told.

ghost use Rattle.std.specs.Prelude.{◌≡◌, ◌≤◌, ◌<◌, ◌+◌, ◌^◌, ℕ, List, length, IfOk, IsTrue, MatchOption, ◌↔◌};
ghost use Rattle.std.specs.List.{AllByRecursion};
ghost use Rattle.cola_plain_files.specs.Levels.{as_levels};
ghost use Rattle.cola_plain_files.specs.File.{file_of};
ghost use Rattle.cola_plain_files.specs.Verdict.{TestAt, IsFirstAtVisible, PassLevels};
ghost use Rattle.cola_verdict.specs.declared.verdict.Flaw.TheVariants.{Order, Shadow};
ghost use Rattle.cola_verdict.specs.Tests.{levels_in, AreCellsTold, EachLevel, visible_cell, shadow_cell};
ghost use Rattle.cola_verdict.specs.Verdict.{Passes, FailsAt, IsVerdict};

use crate::verdict::cells::{PlainValue, stamp_of};
use crate::verdict::file::slot_of;
use crate::verdict::level::PlainLevel;
use crate::verdict::levels::{live_pairs_of, runs_from};
use crate::verdict::runs::first_disorder;
use crate::verdict::verdicts::{LevelTest, first_to_fail, last_to_fail};
use cola_cell::Key;
use cola_layout::Header;
use cola_verdict::{Flaw, Verdict};
use std::alloc::{AllocError, Global};

/// The number of the first cell of the slot of a level's visible run.
fn visible_cell(header: &Header, level: u8) -> u64
    requires { level ≤ header.now.geometry.bottom }
    ensures value { (bytes : List ℕ) → result ≡ visible_cell (file_of header.now bytes) level }
    ensures small { result < 2 ^ 26 }
{
    header.geometry.place(level, slot_of(header, level), 0)
}

/// The number of the first cell of the slot of a level's shadow.
fn shadow_cell(header: &Header, level: u8) -> u64
    requires { level ≤ header.now.geometry.bottom }
    ensures { (bytes : List ℕ) → result ≡ shadow_cell (file_of header.now bytes) level }
{
    header.geometry.place(level, 1 - slot_of(header, level), 0)
}

/// The first level that fails a test, and the number of the first cell of the slot of its visible run.
fn visible_flaw(
    alloc: Global,
    header: &Header,
    levels: &[PlainLevel],
    test: LevelTest,
) -> Result<Option<(u8, u64)>, AllocError>
    requires { length levels.now ≡ header.now.geometry.bottom + 1 }
    ensures { (bytes : List ℕ) → as_levels levels.now ≡ levels_in (file_of header.now bytes) →
        IfOk result (λ found. MatchOption found (EachLevel (file_of header.now bytes) (TestAt (file_of header.now bytes) test)) (λ place. IsFirstAtVisible (file_of header.now bytes) test place.0 place.1)) }
{
    match first_to_fail(alloc, test, header.geometry.keys, header.clock, levels)? {
        Some(level) => Ok(Some((level, visible_cell(header, level)))),
        None => Ok(None),
    }
}

/// The last level whose shadow is not what it builds, and the number of the first cell of the shadow's slot.
fn shadow_flaw(
    alloc: Global,
    header: &Header,
    levels: &[PlainLevel],
) -> Result<Option<(u8, u64)>, AllocError>
    requires { length levels.now ≡ header.now.geometry.bottom + 1 }
    ensures { (bytes : List ℕ) → as_levels levels.now ≡ levels_in (file_of header.now bytes) →
        IfOk result (λ found. MatchOption found (Passes (file_of header.now bytes) Shadow) (λ place. FailsAt (file_of header.now bytes) Shadow place.0 place.1)) }
{
    let test = LevelTest::Shadow;
    match last_to_fail(alloc, test, header.geometry.keys, header.clock, levels)? {
        Some(level) => Ok(Some((level, shadow_cell(header, level)))),
        None => Ok(None),
    }
}

/// The first level whose visible run is out of order, and the number of the cell with which its order ends.
fn order_flaw(
    alloc: Global,
    header: &Header,
    levels: &[PlainLevel],
) -> Result<Option<(u8, u64)>, AllocError>
    requires { length levels.now ≡ header.now.geometry.bottom + 1 }
    ensures { (bytes : List ℕ) → as_levels levels.now ≡ levels_in (file_of header.now bytes) →
        IfOk result (λ found. MatchOption found (Passes (file_of header.now bytes) Order) (λ place. FailsAt (file_of header.now bytes) Order place.0 place.1)) }
{
    let test = LevelTest::Order;
    match first_to_fail(alloc, test, header.geometry.keys, header.clock, levels)? {
        Some(level) => {
            let index = first_disorder(levels[level as usize].visible.as_slice());
            Ok(Some((level, visible_cell(header, level) + index as u64)))
        }
        None => Ok(None),
    }
}

/// Whether no pair has a stamp above the last number.
fn are_stamped(pairs: &[(Key, PlainValue)], last: u64) -> bool
    ensures { IsTrue result ↔ AllByRecursion (λ pair. pair.1.stamp ≤ last) pairs.now }
{
    for pair in pairs {
        if stamp_of(&pair.1) > last {
            return false;
        }
    }
    true
}

/// The first flaw of the levels, in the order of the tests.
pub fn first_flaw(
    alloc: Global,
    header: &Header,
    levels: &[PlainLevel],
) -> Result<Option<Verdict>, AllocError>
    requires { length levels.now ≡ header.now.geometry.bottom + 1 }
    ensures { (bytes : List ℕ) → AreCellsTold (file_of header.now bytes) → as_levels levels.now ≡ levels_in (file_of header.now bytes) →
        IfOk result (λ found. MatchOption found (PassLevels (file_of header.now bytes)) (IsVerdict (file_of header.now bytes))) }
{
    match order_flaw(alloc, header, levels)? {
        Some(at) => return Ok(Some(Verdict::Broken(Flaw::Order, at.0, at.1))),
        None => {}
    }
    match visible_flaw(alloc, header, levels, LevelTest::Sample)? {
        Some(at) => return Ok(Some(Verdict::Broken(Flaw::Sample, at.0, at.1))),
        None => {}
    }
    match visible_flaw(alloc, header, levels, LevelTest::Length)? {
        Some(at) => return Ok(Some(Verdict::Broken(Flaw::Length, at.0, at.1))),
        None => {}
    }
    match shadow_flaw(alloc, header, levels)? {
        Some(at) => return Ok(Some(Verdict::Broken(Flaw::Shadow, at.0, at.1))),
        None => {}
    }
    match visible_flaw(alloc, header, levels, LevelTest::Live)? {
        Some(at) => Ok(Some(Verdict::Broken(Flaw::Live, at.0, at.1))),
        None => Ok(None),
    }
}

/// The verdict on a file whose levels pass their tests.
pub fn verdict_of_keys(
    alloc: Global,
    header: &Header,
    levels: &[PlainLevel],
) -> Result<Verdict, AllocError>
    requires { length levels.now ≡ header.now.geometry.bottom + 1 }
    ensures { (bytes : List ℕ) → as_levels levels.now ≡ levels_in (file_of header.now bytes) → PassLevels (file_of header.now bytes) →
        IfOk result (IsVerdict (file_of header.now bytes)) }
{
    let runs = runs_from(alloc, header.clock, 0, false, levels)?;
    let pairs = live_pairs_of(alloc, runs.as_slice())?;
    let count = pairs.len() as u64;
    if count != header.count {
        return Ok(Verdict::Broken(Flaw::Count, 0, 0));
    }
    if !are_stamped(pairs.as_slice(), header.last) {
        return Ok(Verdict::Broken(Flaw::Stamp, 0, 0));
    }
    Ok(Verdict::Sound(count))
}
