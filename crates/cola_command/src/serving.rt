//! A session over the file of a device, line by line, and the status that it ends with.
ghost use Rattle.std.specs.Prelude.{◌≤◌};
ghost use Rattle.cola_command.specs.Headline.{FileEnds};
ghost use Rattle.cola_command.specs.Turns.{EndsAfter};

use crate::file::Session;
use cola_device::Device;
use cola_io::{Sink, Source};
use cola_outside::Steps;
use cola_session::serve_lines;
use cola_status::Status;
use cola_workload::opening_status;
use std::alloc::Global;
use std::sync::ledger::Ledger;

/// Ends a session whose lines ended with this status, and gives the device and the status. Where it was 0, it is 5 if the
/// store could not be closed, or if a line that was to open the file met a fault and none opened it since.
fn end_session<D: Device>(session: Session<D>, status: u8) -> (D, u8)
    ensures { EndsAfter D.Device session status result.0 result.1 }
{
    let cut_off = session.is_cut_off();
    let (device, closed) = session.end();
    if status == Status::Done as u8 && (cut_off || !closed) {
        return (device, Status::DeviceFailed as u8);
    }
    (device, status)
}

/// A session over the file of a device, behind a cache of up to `cache` blocks: it opens the store, carries out the lines
/// of the source, writes their replies, and closes the store where it is not closed then. It gives the device, and the
/// status:
///
/// - 0 where the end of the source was met before 2^40 bytes were taken, all replies were written, and the store is closed;
/// - 1 where there was no memory for the store;
/// - 3 or 4 where the source or the sink failed, and 9 where 2^40 bytes were taken;
/// - 5 where the device refused a call of the opening, or, in place of 0 alone, of the close at the end or of a line that
///   was to open the file, behind which no line opened it;
/// - 6 where the file is no store or too small, 7 where its store is in use, and 10 where a cell that the opening reads is
///   damaged.
pub(crate) fn serve_file<S: Source, K: Sink, D: Device, L: Ledger>(
    alloc: Global,
    cache: u32,
    cost: bool,
    source: &mut S,
    sink: &mut K,
    device: D,
    steps: &mut Steps<L>,
) -> (D, u8)
    requires { cache ≤ 4096 }
    ensures { FileEnds S.Source K.Sink D.Device cache cost source.old source.new sink.old sink.new device result.0 steps.old steps.new result.1 }
{
    match Session::begin(alloc, device, cache, cost, steps) {
        Ok(session) => {
            let (session, status) = serve_lines(alloc, session, source, sink, steps);
            end_session(session, status)
        }
        Err((device, fault)) => (device, opening_status(fault)),
    }
}
