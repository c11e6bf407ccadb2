//! How a store is opened on the file that a device has, and closed.
ghost use Rattle.std.specs.Prelude.{◌≡◌, ◌≤◌, IfOk, IfErr};
ghost use Rattle.cola_chain.specs.Account.{IsContents};
ghost use Rattle.cola_run.specs.Store as run;
ghost use Rattle.cola_store.specs.Sessions.{OpensStore, ClosesStore, device_of};
ghost use Rattle.cola_store.specs.Store.{device_in};

use crate::closing::Closing;
use crate::fault::OpenFault;
use crate::opening::open_runs;
use crate::store::Store;
use cola_chain::Chain;
use cola_device::{Counts, Device};
use cola_outside::Steps;
use std::alloc::Global;
use std::sync::ledger::Ledger;

/// Says what a chain is. Nothing is done.
fn know_chain<D: Device>(chain: &Chain<D>)
    ensures { IsContents D.bytes D.counts chain.now }
{
    let (_reads, _writes) = chain.transfers();
}

impl<D: Device> Store<D> {
    /// Opens the store in the file of a device, of either format, behind a cache of up to `cache` blocks, and marks the file
    /// as in use. All memory that the store will ever take is taken here. A file may have more bytes than the cells of its
    /// store; they stay. An error gives `device` back. It makes no tick.
    ///
    /// In this order: the size is asked, and `Small` where it is below 512 bytes; the first 512 bytes are read, and `NotStore`
    /// where they spell no header; `Small` where the file has fewer bytes than the cells of the store; `NotClosed` where the
    /// state byte is 1; memory is taken, or `OutOfMemory`; the first two blocks are read, and for each level on the device
    /// whose shadow ends within a block that block, and `BadCell` where a cell of a run of the first two blocks is no
    /// spelling, with the number of the lowest; the state byte is written as 1, and the device settles. `Device` where the
    /// device refused a call. A refusal before the state byte is written changes no byte; one in that leaves any byte in its
    /// place, and all else.
    pub fn open_on<L: Ledger>(
        alloc: Global,
        device: D,
        cache: u32,
        steps: &mut Steps<L>,
    ) -> Result<Store<D>, (D, OpenFault)>
        requires { cache ≤ 4096 }
        ensures opens { OpensStore D.Device device cache result }
        ensures kept { D.kept (device_of D.Device result) ≡ D.kept device }
        ensures no_tick { steps.new ≡ steps.old }
    {
        let opened = Counts {
            faults: device.faults(),
            reads: device.reads(),
            writes: device.writes(),
            others: 0,
        };
        match open_runs(alloc, device, cache) {
            Ok((runs, header, room)) => {
                let chain = Chain::new(runs, room, &header);
                Ok(Store::of(chain, header.count, header.last, opened))
            }
            Err(refusal) => Err(refusal),
        }
    }

    /// Closes the store: writes what its file does not have yet, the header last, and gives the device. An error comes only
    /// where the device refused a call; what it gives owes all still, and may be closed again.
    pub fn close(self) -> Result<D, Closing<D>>
        ensures closes { ClosesStore D.Device self result }
        ensures kept_device { IfOk result (λ now. D.kept now ≡ D.kept (device_in self)) }
        ensures kept { IfErr result (λ now. D.kept (run.device_of now.runs) ≡ D.kept (device_in self)) }
    {
        let (chain, count, last) = self.into_parts();
        know_chain(&chain);
        let mut header = chain.header(count, true);
        header.last = last;
        Closing::new(chain.into_runs(), header).close()
    }
}
