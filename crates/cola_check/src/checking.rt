//! The test of a closed file.
ghost use Rattle.std.specs.Prelude.{◌≡◌};
ghost use Rattle.cola_device.specs.Bytes.{HasRange};
ghost use Rattle.cola_run.specs.Cells.{file_bytes};
ghost use Rattle.cola_check.specs.Check.{IsLevelOf, Judges, Checks, TestsAnswer, ReadsCells, TestsMade};
ghost use Rattle.cola_run.specs.Store.{device_of};

use crate::fault::CheckFault;
use crate::testing::test_cells;
use cola_cell::ReadFault;
use cola_device::Device;
use cola_layout::Header;
use cola_opening::{ClosedFault, read_closed};
use cola_outside::Steps;
use cola_run::RunStore;
use cola_verdict::{Flaw, Verdict};
use std::alloc::Global;
use std::sync::ledger::Ledger;

/// The level in whose slots the cell with this number stands.
fn level_of(number: u64) -> u8
    ensures { IsLevelOf number result }
{
    let mut level = 0;
    while level < 22 && number >= 1u64 << (level + 4) {
        level += 1;
    }
    level
}

/// The answer of a test by that of its cells: a cell that is bad is the verdict.
fn judged(answer: Result<Verdict, ReadFault>) -> Result<Verdict, CheckFault>
    ensures { Judges answer result }
{
    match answer {
        Ok(verdict) => Ok(verdict),
        Err(ReadFault::BadCell(number)) => {
            Ok(Verdict::Broken(Flaw::Cell, level_of(number), number))
        }
        Err(ReadFault::Device) => Err(CheckFault::Device),
    }
}

/// Loads the cells of a store and tests them.
fn test_store<D: Device, L: Ledger>(
    runs: &mut RunStore<D>,
    header: &Header,
    steps: &mut Steps<L>,
) -> Result<Verdict, CheckFault>
    requires { header.now.geometry ≡ runs.old.geometry }
    ensures answer { TestsAnswer D.Device header.now
        (device_of runs.old) (device_of runs.new) result }
    ensures reads { ReadsCells D.Device header.now
        (device_of runs.old) (device_of runs.new) steps.old steps.new }
    ensures kept { D.kept (device_of runs.new) ≡ D.kept (device_of runs.old) }
{
    match runs.load(header) {
        Ok(()) => judged(test_cells(runs, header, steps)),
        Err(fault) => judged(Err(fault)),
    }
}

/// Takes the memory of a test, and tests the cells of a file with this header.
fn test_file<D: Device, L: Ledger>(
    alloc: Global,
    device: D,
    header: &Header,
    steps: &mut Steps<L>,
) -> (D, Result<Verdict, CheckFault>)
    requires { HasRange (D.bytes device) 0 (file_bytes header.now.geometry) }
    ensures tests { TestsMade D.Device header.now device result.0 steps.old steps.new result.1 }
    ensures kept { D.kept result.0 ≡ D.kept device }
{
    let mut runs = match RunStore::new(alloc, device, header.geometry, 0) {
        Ok(runs) => runs,
        Err((device, _)) => return (device, Err(CheckFault::OutOfMemory)),
    };
    let answer = test_store(&mut runs, header, steps);
    (runs.into_device(), answer)
}

/// Tests whether a closed file stands for a map: the verdict, `Sound` with the number of its keys, or the first test that it
/// fails, with the level and the number of the cell. It is for a file that came from elsewhere, before that is trusted.
///
/// In this order: the size is asked, and `Small` where it is below 512 bytes; the first 512 bytes are read, and `NotStore`
/// where they spell no header; `Small` where the file has fewer bytes than the cells of the store; `NotClosed` where the
/// state byte is 1; all memory is taken, or `OutOfMemory`; the cells of the runs are read and tested. `Device` where the
/// device refused a call. Nothing is written, and the file is not marked as in use, whatever is answered. Each cell of a
/// run is read a fixed number of times, with at most five ticks for each cell of the file. Where no read is refused, the
/// device is read at most ten times for each block of cells that the runs fill, 41 times for each level, and three times more.
///
/// The device comes back whatever is answered. What is said of the verdict holds where it tells its bytes.
pub fn check<D: Device, L: Ledger>(
    alloc: Global,
    device: D,
    steps: &mut Steps<L>,
) -> (D, Result<Verdict, CheckFault>)
    ensures checks { Checks D.Device device result.0 steps.old steps.new result.1 }
    ensures no_write { (D.counts result.0).writes ≡ (D.counts device).writes }
    ensures kept { D.kept result.0 ≡ D.kept device }
{
    let mut device = device;
    match read_closed(&mut device) {
        Ok(header) => test_file(alloc, device, &header, steps),
        Err(ClosedFault::NotStore) => (device, Err(CheckFault::NotStore)),
        Err(ClosedFault::Small) => (device, Err(CheckFault::Small)),
        Err(ClosedFault::NotClosed) => (device, Err(CheckFault::NotClosed)),
        Err(ClosedFault::Device) => (device, Err(CheckFault::Device)),
    }
}
