//! Where the store of a session is, and what the lines that close it and open it are answered.
ghost use Rattle.std.specs.Prelude.{◌≡◌, ◌≤◌};
ghost use Rattle.cola_line.specs.Replied.{reply_of};
ghost use Rattle.cola_command.specs.File.{device_of};
ghost use Rattle.cola_command.specs.Turns.{refused_reply, CloseCause, OpenCause};
ghost use Rattle.cola_command.specs.declared.place.Place.TheVariants as place;
ghost use Rattle.cola_store.specs.Store.{device_in};
ghost use Rattle.cola_run.specs.Store as run;

use cola_device::Device;
use cola_line::{Failure, Refusal, Reply};
use cola_outside::Steps;
use cola_store::{Closing, OpenFault, Store};
use cola_table::Table;
use std::alloc::Global;
use std::sync::ledger::Ledger;

/// Where the store of a session is: open, not closed yet after an attempt that failed, or closed on its device.
#[derive(Drop)]
pub enum Place<D: Device> {
    Open(Store<D>),
    Closing(Closing<D>),
    Closed(D),
}

/// Why a file was not opened again.
fn refused(fault: OpenFault) -> Reply
    ensures { reply_of result ≡ refused_reply fault }
{
    match fault {
        OpenFault::NotStore => Reply::Refused(Refusal::NotStore),
        OpenFault::NotClosed => Reply::Refused(Refusal::NotClosed),
        OpenFault::Small => Reply::Refused(Refusal::Small),
        OpenFault::Device => Reply::Failed(Failure::Fault),
        OpenFault::OutOfMemory => Reply::Refused(Refusal::Memory),
        OpenFault::BadCell(cell) => Reply::Failed(Failure::Damaged(cell)),
    }
}

/// Closes an open store.
fn close_store<D: Device>(store: Store<D>) -> (Place<D>, Reply)
    ensures cause { CloseCause D.Device (place.Open store) (reply_of result.1) result.0 }
    ensures kept { D.kept (device_of result.0) ≡ D.kept (device_in store) }
{
    match store.close() {
        Ok(device) => (Place::Closed(device), Reply::Closed),
        Err(closing) => (Place::Closing(closing), Reply::Failed(Failure::Fault)),
    }
}

/// Tries again to close a store.
fn close_again<D: Device>(closing: Closing<D>) -> (Place<D>, Reply)
    ensures cause { CloseCause D.Device (place.Closing closing) (reply_of result.1) result.0 }
    ensures kept { D.kept (device_of result.0) ≡ D.kept (run.device_of closing.runs) }
{
    match closing.close() {
        Ok(device) => (Place::Closed(device), Reply::Closed),
        Err(closing) => (Place::Closing(closing), Reply::Failed(Failure::Fault)),
    }
}

/// Opens the store on a device again.
fn reopen<D: Device, L: Ledger>(
    alloc: Global,
    device: D,
    cache: u32,
    steps: &mut Steps<L>,
) -> (Place<D>, Reply)
    requires { cache ≤ 4096 }
    ensures cause { OpenCause D.Device cache (place.Closed device) (reply_of result.1) result.0 }
    ensures kept { D.kept (device_of result.0) ≡ D.kept device }
    ensures no_tick { steps.new ≡ steps.old }
{
    match Store::open_on(alloc, device, cache, steps) {
        Ok(store) => {
            let keys = store.count();
            (Place::Open(store), Reply::Opened(keys))
        }
        Err((device, fault)) => (Place::Closed(device), refused(fault)),
    }
}

/// Answers `close`.
pub(crate) fn close<D: Device>(place: Place<D>) -> (Place<D>, Reply)
    ensures cause { CloseCause D.Device place (reply_of result.1) result.0 }
    ensures kept { D.kept (device_of result.0) ≡ D.kept (device_of place) }
{
    match place {
        Place::Open(store) => close_store(store),
        Place::Closing(closing) => close_again(closing),
        Place::Closed(device) => (Place::Closed(device), Reply::Already),
    }
}

/// Answers `open`.
pub(crate) fn open<D: Device, L: Ledger>(
    alloc: Global,
    place: Place<D>,
    cache: u32,
    steps: &mut Steps<L>,
) -> (Place<D>, Reply)
    requires { cache ≤ 4096 }
    ensures cause { OpenCause D.Device cache place (reply_of result.1) result.0 }
    ensures kept { D.kept (device_of result.0) ≡ D.kept (device_of place) }
    ensures no_tick { steps.new ≡ steps.old }
{
    match place {
        Place::Closed(device) => reopen(alloc, device, cache, steps),
        Place::Open(store) => (Place::Open(store), Reply::Already),
        Place::Closing(closing) => (Place::Closing(closing), Reply::Already),
    }
}
