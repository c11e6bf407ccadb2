//! The map of a closed store in lent bytes, copied into other bytes.
ghost use Rattle.std.specs.Prelude.{◌≡◌, ◌↔◌, ◌≤◌, ◌<◌, ℕ, length, slice_index, EachIndex, IsTrue, IsFalse, IsSome};
ghost use Rattle.cola_layout.specs.declared.fault.LayoutFault.{LayoutFault};
ghost use Rattle.cola_layout.specs.Geometry.{AreKeys, Refuses};
ghost use Rattle.cola_load.specs.Grow.{Suits};
ghost use Rattle.cola_mapped.specs.Region.{bytes_in};
ghost use Rattle.cola_mapped.specs.Mapped.{IsLent};
ghost use Rattle.cola_tools.specs.Growing.{AreZero, Grows, refusal};

use crate::fault::ToolFault;
use crate::new_device::NewDevice;
use crate::shown::Shown;
use cola_cell::Format;
use cola_layout::Geometry;
use cola_load::GrowFault;
use cola_mapped::{Lent, Region};
use cola_outside::Steps;
use std::alloc::Global;
use std::sync::ledger::Ledger;

/// Whether every byte is zero. No byte ends the loop, so that the compiler reads many at a time.
pub(crate) fn is_zero(bytes: &[u8]) -> bool
    ensures { IsTrue result ↔ EachIndex bytes.now (λ k. slice_index bytes.now k ≡ 0) }
{
    let mut ones = 0;
    for index in 0..bytes.len() {
        ones |= bytes[index];
    }
    ones == 0
}

/// Whether a store can be for so many keys, with blocks of `2^block_exp` cells: the format does not matter.
fn suits(keys: u64, block_exp: u8) -> bool
    ensures yes { IsTrue result → AreKeys keys × Suits keys block_exp }
    ensures no { IsFalse result → (fault : LayoutFault) × Refuses keys block_exp fault }
{
    match Geometry::of_format(keys, block_exp, Format::One) {
        Ok(_) => true,
        Err(_) => false,
    }
}

/// The refusal of a copy. Of the two devices only the new one fails, where there is no room for the new store; and it has no
/// byte before.
fn refusal(fault: GrowFault) -> ToolFault
    ensures { result ≡ refusal fault }
{
    match fault {
        GrowFault::Small | GrowFault::NotEmpty | GrowFault::Device => ToolFault::Small,
        GrowFault::NotStore => ToolFault::NotStore,
        GrowFault::NotClosed => ToolFault::NotClosed,
        GrowFault::Fewer(_) => ToolFault::Fewer,
        GrowFault::OutOfMemory => ToolFault::Memory,
        GrowFault::BadCell(_) | GrowFault::Disorder(_) => ToolFault::BadCell,
    }
}

/// Copies the map into bytes that were lent, which are zero.
fn grow_into<L: Ledger>(
    alloc: Global,
    from: &[u8],
    into: Lent,
    keys: u64,
    block_exp: u8,
    steps: &mut Steps<L>,
) -> (Region, Result<u64, ToolFault>)
    requires some { 0 < length from.now }
    requires lent { IsLent into.bytes }
    requires zero { AreZero (bytes_in into.bytes) }
    requires keys { AreKeys keys }
    requires block { Suits keys block_exp }
    ensures grows { Grows keys block_exp from.now (bytes_in into.bytes) (bytes_in result.0.bytes) steps.old steps.new result.1 }
    ensures back { IsSome result.0.bytes }
    ensures at { result.0.at ≡ into.at }
    ensures len { result.0.len ≡ into.len }
{
    let mut device = NewDevice::over(into);
    let (_, answer) = cola_load::grow(
        alloc,
        Shown::over(from),
        &mut device,
        keys,
        block_exp,
        steps,
    );
    match answer {
        Ok(count) => (device.into_region(), Ok(count)),
        Err(fault) => (device.into_region(), Err(refusal(fault))),
    }
}

/// Copies the map of a closed store into zero bytes, as a store for so many keys, with blocks of `2^block_exp` cells, in the
/// same version: with the same keys, values and stamps. Answers how many keys the map has. `from` is only read, and the region
/// comes back where it was.
///
/// `Options` where no store is of these numbers. `Small`: `from` has fewer bytes than its store, or the region than the new
/// store. `NotEmpty` where a byte of the region is not zero. `NotStore`, `NotClosed`: `from` has no store that was closed.
/// `Fewer` where it has more keys than the new store is for. `Memory`: there was none. These leave the region. `BadCell`: a cell
/// of `from` is damaged, or its keys do not rise; the region has no store's header.
pub fn grow<L: Ledger>(
    alloc: Global,
    from: &[u8],
    into: Region,
    keys: u64,
    block_exp: u8,
    steps: &mut Steps<L>,
) -> (Region, Result<u64, ToolFault>)
    requires bytes { IsSome into.bytes }
    ensures grows { Grows keys block_exp from.now (bytes_in into.bytes) (bytes_in result.0.bytes) steps.old steps.new result.1 }
    ensures back { IsSome result.0.bytes }
    ensures at { result.0.at ≡ into.at }
    ensures len { result.0.len ≡ into.len }
{
    let into = Lent::of(into);
    if !suits(keys, block_exp) {
        return (into.into_region(), Err(ToolFault::Options));
    }
    if from.is_empty() || into.size() == 0 {
        return (into.into_region(), Err(ToolFault::Small));
    }
    if !is_zero(into.shown()) {
        return (into.into_region(), Err(ToolFault::NotEmpty));
    }
    grow_into(alloc, from, into, keys, block_exp, steps)
}
