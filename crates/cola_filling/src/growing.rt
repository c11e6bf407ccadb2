//! The map of a file, copied into a new file for another number of keys.
ghost use Rattle.std.specs.Prelude.{◌≡◌};
ghost use Rattle.cola_words.specs.Sizes.{SuitStore};
ghost use Rattle.cola_filling.specs.Grows.{grow_status, Tells, GrowEnds};

use crate::loading::line_of_rows;
use cola_device::Device;
use cola_io::Sink;
use cola_load::{GrowFault, grow};
use cola_outside::Steps;
use cola_report::write_line;
use cola_status::Status;
use std::alloc::Global;
use std::sync::ledger::Ledger;

/// The status of a file that was not grown.
fn refusal(fault: GrowFault) -> u8
    ensures { result ≡ grow_status fault }
{
    match fault {
        GrowFault::Small => Status::NotStore as u8,
        GrowFault::NotStore => Status::NotStore as u8,
        GrowFault::NotClosed => Status::NotClosed as u8,
        GrowFault::Fewer(_) => Status::TooFewKeys as u8,
        GrowFault::OutOfMemory => Status::OutOfMemory as u8,
        GrowFault::BadCell(_) => Status::BadCell as u8,
        GrowFault::NotEmpty => Status::NotEmpty as u8,
        GrowFault::Disorder(_) => Status::BadCell as u8,
        GrowFault::Device => Status::DeviceFailed as u8,
    }
}

/// Writes how many rows a file was filled with, where it was, and gives the status.
fn write_answer<K: Sink>(answer: Result<u64, GrowFault>, sink: &mut K) -> u8
    ensures { Tells K.Sink answer sink.old sink.new result }
{
    match answer {
        Ok(rows) => write_line(line_of_rows(rows).as_slice(), Status::Done as u8, sink),
        Err(fault) => refusal(fault),
    }
}

/// Copies the map of the closed file of a device into a new file of the second device, for so many keys, in blocks of
/// `2^block_exp` cells and in the same format, and writes the number of its rows as one line, `loaded N`. It gives the first
/// device, and the status: 0 where that is done, 4 where it is and the sink failed, and, with nothing written, 1 for want of
/// memory, 5 where a device refused a call, 6 where the file has no store or not all of one, 7 where its store is in use, 8
/// where the second device has bytes, 10 where a cell is no spelling or the keys do not rise, and 15 where the file has more
/// keys than the new one is for. The first device is not written.
pub fn grow_file<K: Sink, D: Device, L: Ledger>(
    alloc: Global,
    keys: u64,
    block_exp: u8,
    sink: &mut K,
    device: D,
    second: &mut D,
    steps: &mut Steps<L>,
) -> (D, u8)
    requires { SuitStore keys block_exp }
    ensures ends { GrowEnds K.Sink D.Device keys block_exp device result.0 second.old second.new sink.old sink.new steps.old steps.new result.1 }
    ensures no_write { (D.counts result.0).writes ≡ (D.counts device).writes }
    ensures kept { D.kept result.0 ≡ D.kept device }
    ensures second_kept { D.kept second.new ≡ D.kept second.old }
{
    let (device, answer) = grow(alloc, device, second, keys, block_exp, steps);
    let status = write_answer(answer, sink);
    (device, status)
}
