//! What C calls to test a whole store, and to copy its map into another: both lie in bytes that C lends, and no handle is open.
ghost use Rattle.std.specs.Prelude.{◌≡◌, ◌<◌, ℕ, pos, IsSome};
ghost use Rattle.cola_mapped.specs.Region.{bytes_in};
ghost use Rattle.cola_tools.specs.Checking.{Checks};
ghost use Rattle.cola_tools.specs.Growing.{Grows};
ghost use Rattle.cola_c.specs.Tools.{fault_number, flaw_number, verdict_number, found_of, TellsCheck, TellsGrow};

use cola_handle::Answer;
use cola_mapped::Region;
use cola_outside::Steps;
use cola_tools::ToolFault;
use cola_verdict::{Flaw, Verdict};
use std::alloc::Global;
use std::marker::Brand;
use std::sync::ledger::{Blank, Ledger};

/// What a test found, as C gets it.
#[repr(C)]
#[derive(Clone, Copy, Debug, PartialEq, Eq, Drop)]
pub struct Found {
    /// How many keys the store has; 0 where it has a flaw.
    pub keys: u64,
    /// The number of the cell with the flaw.
    pub cell: u64,
    /// 0 where there is none. Else what the first test looked for that the store fails: 1 cells, 2 the order of a run, 3 its
    /// sample, 4 its length, 5 a shadow, 6 live keys, 7 the count, 8 the stamps.
    pub flaw: u32,
    /// The level with the flaw.
    pub level: u32,
}

/// The number of a refusal.
pub(crate) fn fault_code(fault: ToolFault) -> i32
    ensures { result ≡ pos (fault_number fault) }
{
    match fault {
        ToolFault::Small => Answer::Small.code(),
        ToolFault::NotStore => Answer::NotStore.code(),
        ToolFault::NotClosed => Answer::NotClosed.code(),
        ToolFault::Memory => Answer::Memory.code(),
        ToolFault::Options => Answer::Options.code(),
        ToolFault::NotEmpty => Answer::NotEmpty.code(),
        ToolFault::BadCell => Answer::BadCell.code(),
        ToolFault::Length => Answer::Length.code(),
        ToolFault::Full => Answer::Full.code(),
        ToolFault::Order => 19,
        ToolFault::Fewer => 20,
    }
}

/// The number of a flaw.
fn flaw_code(flaw: Flaw) -> u32
    ensures { result ≡ flaw_number flaw }
{
    match flaw {
        Flaw::Cell => 1,
        Flaw::Order => 2,
        Flaw::Sample => 3,
        Flaw::Length => 4,
        Flaw::Shadow => 5,
        Flaw::Live => 6,
        Flaw::Count => 7,
        Flaw::Stamp => 8,
    }
}

/// A verdict, as C gets it.
fn as_found(verdict: Verdict) -> Found
    ensures { result ≡ found_of verdict }
{
    match verdict {
        Verdict::Sound(keys) => Found {
            keys,
            cell: 0,
            flaw: 0,
            level: 0,
        },
        Verdict::Broken(flaw, level, cell) => Found {
            keys: 0,
            cell,
            flaw: flaw_code(flaw),
            level: u32::from(level),
        },
    }
}

/// The number of a verdict: 21 where there is a flaw.
fn verdict_code(verdict: Verdict) -> i32
    ensures { result ≡ pos (verdict_number verdict) }
{
    match verdict {
        Verdict::Sound(_) => Answer::Done.code(),
        Verdict::Broken(_, _, _) => 21,
    }
}

/// A test, on a ledger that the blank opens.
fn check_on<L: Ledger>(blank: Blank, alloc: Global, bytes: &[u8]) -> Result<Verdict, ToolFault>
    requires name { blank.name ≡ L.name }
    requires parts { blank.parts ≡ L.parts }
    requires some { 0 < L.parts }
    ensures { (from : ℕ) × ((to : ℕ) × Checks bytes.now from to result) }
{
    let mut steps = Steps::<L>::begin(blank);
    cola_tools::check(alloc, bytes, &mut steps)
}

/// Tests whether the bytes of a closed store stand for a map, and tells how many keys it has, or its flaw. Where they are none
/// of a closed store, nothing is told.
#[unsafe(no_mangle)]
pub extern "C" fn cola_core_check(alloc: Global, bytes: &[u8], told: &mut Found) -> i32
    ensures { TellsCheck bytes.now told.old told.new result }
{
    match check_on::<Brand>(Blank::new(1), alloc, bytes) {
        Ok(verdict) => {
            *told = as_found(verdict);
            verdict_code(verdict)
        }
        Err(fault) => fault_code(fault),
    }
}

/// A copy, on a ledger that the blank opens.
fn grow_on<L: Ledger>(
    blank: Blank,
    alloc: Global,
    from: &[u8],
    into: Region,
    keys: u64,
    block: u8,
) -> (Region, Result<u64, ToolFault>)
    requires name { blank.name ≡ L.name }
    requires parts { blank.parts ≡ L.parts }
    requires some { 0 < L.parts }
    requires bytes { IsSome into.bytes }
    ensures grows { (old : ℕ) × ((new : ℕ) ×
        Grows keys block from.now (bytes_in into.bytes) (bytes_in result.0.bytes) old new result.1) }
    ensures back { IsSome result.0.bytes }
    ensures at { result.0.at ≡ into.at }
    ensures len { result.0.len ≡ into.len }
{
    let mut steps = Steps::<L>::begin(blank);
    cola_tools::grow(alloc, from, into, keys, block, &mut steps)
}

/// Copies the map of a closed store into a region of zero bytes, as a store for so many keys with such blocks, and tells how many
/// keys the map has. The region is where it was, whatever is answered; but for a damaged store, a refusal leaves its bytes.
#[unsafe(no_mangle)]
pub extern "C" fn cola_core_grow(
    alloc: Global,
    from: &[u8],
    into: &mut Region,
    keys: u64,
    block: u8,
    count: &mut u64,
) -> i32
    requires { IsSome into.old.bytes }
    ensures { TellsGrow keys block from.now into.old into.new count.old count.new result }
{
    let bytes = std::mem::replace(into, Region::none());
    let (bytes, answer) = grow_on::<Brand>(Blank::new(1), alloc, from, bytes, keys, block);
    *into = bytes;
    match answer {
        Ok(keys) => {
            *count = keys;
            Answer::Done.code()
        }
        Err(fault) => fault_code(fault),
    }
}
