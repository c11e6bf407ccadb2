//! A store that is made, opened, closed, and kept safe in between.
ghost use Rattle.std.specs.Prelude.{◌≡◌, ◌<◌, OnOk, IfOk, IfErr, IfSome, MatchResult};
ghost use Rattle.cola_outside.specs.Faults.{Rose};
ghost use Rattle.cola_device.specs.Settling.{IsSettled};
ghost use Rattle.cola_spec.specs.Map.{Map, count};
ghost use Rattle.cola_run.specs.Store as run;
ghost use Rattle.cola_store.specs.Create.{CountsOneWrite};
ghost use Rattle.cola_store.specs.Sessions.{ClosesStore, Owes};
ghost use Rattle.cola_kv.specs.Kv.{Holds, geometry_of, levels_of, device_of, faults_of};
ghost use Rattle.cola_kv.specs.Opened.{IsMade, CreateCause, HasGeometry, IsOpen, OpenCause, IsOpenRefusal, StandsFor, IsSaved, IsLeft, Reopens, UnfinishedCause};

use crate::error::Error;
use crate::kv::{Kv, Unfinished};
use crate::options::Options;
use cola_cell::Format;
use cola_device::Device;
use cola_outside::Steps;
use cola_store::{Closing, Store, create_as};
use cola_table::Table;
use std::alloc::Global;
use std::marker::Brand;
use std::sync::ledger::{Blank, Ledger};

/// The most blocks that a cache has.
const MOST_CACHED: u32 = 4096;

/// Makes the file of a store with no keys on an empty device, and settles. No memory is taken.
///
/// `Keys` and `Block` where there is no store of these numbers: the device is not called. `NotEmpty` where the device has
/// bytes, which stay. `Device` where it refused a call: a device that was empty may then have any part of a file.
pub fn create<D: Device>(device: &mut D, options: &Options) -> Result<(), Error>
    ensures made { OnOk result (IsMade D.Device options.now device.old device.new) }
    ensures cause { IfErr result (CreateCause D.Device options.now device.old device.new) }
    ensures kept { D.kept device.new ≡ D.kept device.old }
    ensures counts { CountsOneWrite (D.counts device.old) (D.counts device.new) }
{
    create_as(device, options.keys, options.block_exp, options.format)?;
    Ok(())
}

/// Opens the store in the file of a device, with a ledger that nobody else has.
fn open_store<D: Device, L: Ledger>(
    blank: Blank,
    alloc: Global,
    device: D,
    cache: u32,
) -> Result<Kv<D>, (D, Error)>
    requires name { blank.name ≡ L.name }
    requires parts { blank.parts ≡ L.parts }
    requires some { 0 < L.parts }
    ensures open { IfOk result (IsOpen D.Device device cache) }
    ensures cause { IfErr result (λ refusal. OpenCause D.Device device refusal.0 refusal.1) }
    ensures sound { (m : Map) → StandsFor D.Device device m → MatchResult result
        (λ kv. Holds D.Device kv m) (λ refusal. IsOpenRefusal D.Device device refusal.0 refusal.1) }
    ensures kept { MatchResult result (λ kv. D.kept (device_of kv) ≡ D.kept device)
        (λ refusal. D.kept refusal.0 ≡ D.kept device) }
{
    let mut steps = Steps::<L>::begin(blank);
    let cache = cache.min(MOST_CACHED);
    match Store::open_on(alloc, device, cache, &mut steps) {
        Ok(store) => Ok(Kv {
            store,
            cache,
            ticks: 0,
        }),
        Err((device, fault)) => Err((device, Error::from(fault))),
    }
}

impl<D: Device> Kv<D> {
    /// Opens the store in the file of a device, of either version, behind a cache of up to `cache` blocks, at most 4096, and
    /// marks the file as in use. All memory that the store will ever take is taken here. An error gives the device back.
    ///
    /// `NotStore`, `Small` and `NotClosed` where the file is no store that was closed. `BadCell` where one of the cells that
    /// are read here is damaged. `OutOfMemory`. `Device` where the device refused a call.
    pub fn open(alloc: Global, device: D, cache: u32) -> Result<Kv<D>, (D, Error)>
        ensures open { IfOk result (IsOpen D.Device device cache) }
        ensures cause { IfErr result (λ refusal. OpenCause D.Device device refusal.0 refusal.1) }
        // the file that stands for a map is opened, unless there is no memory or the device fails
        ensures sound { (m : Map) → StandsFor D.Device device m → MatchResult result
            (λ kv. Holds D.Device kv m) (λ refusal. IsOpenRefusal D.Device device refusal.0 refusal.1) }
        ensures kept { MatchResult result (λ kv. D.kept (device_of kv) ≡ D.kept device)
            (λ refusal. D.kept refusal.0 ≡ D.kept device) }
    {
        open_store::<D, Brand>(Blank::new(1), alloc, device, cache)
    }

    /// The number of keys.
    pub fn count(&self) -> u64
        ensures stored { result ≡ self.now.store.count }
        ensures counted { (m : Map) → Holds D.Device self.now m → result ≡ count m }
    {
        self.store.count()
    }

    /// The version of its file, by which keys and values have their room.
    pub fn format(&self) -> Format
        ensures { result ≡ (geometry_of self.now).format }
    {
        self.store.format()
    }

    /// The number of its levels, 4 to 23, by which the ticks of a call are bounded.
    pub fn levels(&self) -> u8
        ensures { result ≡ levels_of self.now }
    {
        self.store.levels()
    }

    /// The number of ticks of the last call that was answered, and 0 where none was yet. A range leaves it.
    pub fn ticks(&self) -> u32
        ensures { result ≡ self.now.ticks }
    {
        self.ticks
    }

    /// Closes the store: writes what its file does not have yet, and gives the device. An error comes only where the device
    /// refused a call; what it gives owes all still, and may be closed again.
    pub fn close(self) -> Result<D, Closing<D>>
        ensures given { ClosesStore D.Device self.store result }
        ensures file { IfOk result (λ device. IfSome (D.bytes device) (HasGeometry (geometry_of self))) }
        ensures stands { (m : Map) → Holds D.Device self m → IfOk result (λ device. StandsFor D.Device device m) }
        ensures settled { IfOk result (IsSettled D.Device) }
        ensures owes { (m : Map) → Holds D.Device self m → IfErr result (λ closing. Owes D.Device closing m) }
        ensures cause { IfErr result
            (λ closing. Rose (faults_of D.Device self) (D.counts (run.device_of closing.runs)).faults) }
        ensures kept { MatchResult result (λ device. D.kept device ≡ D.kept (device_of self))
            (λ closing. D.kept (run.device_of closing.runs) ≡ D.kept (device_of self)) }
    {
        self.store.close()
    }

    /// Closes the store and opens it again, in one call: a process that dies later has lost only what came after it. What the
    /// store counted since its opening begins anew.
    pub fn checkpoint(self, alloc: Global) -> Result<Kv<D>, Unfinished<D>>
        ensures map_stays { (m : Map) → Holds D.Device self m → IfOk result (λ kv. Holds D.Device kv m) }
        ensures saved { (m : Map) → Holds D.Device self m →
            IfOk result (λ kv. IsSaved D.Device m (device_of kv)) }
        ensures left { (m : Map) → Holds D.Device self m → IfErr result (IsLeft D.Device m) }
        ensures reopens { IfOk result (Reopens D.Device self) }
        ensures cause { IfErr result (UnfinishedCause D.Device self) }
        ensures cache_stays { IfOk result (λ kv. kv.cache ≡ self.cache) }
    {
        let cache = self.cache;
        match self.close() {
            Ok(device) => match Kv::open(alloc, device, cache) {
                Ok(kv) => Ok(kv),
                Err((device, error)) => Err(Unfinished::Closed(device, error)),
            },
            Err(closing) => Err(Unfinished::Owed(closing)),
        }
    }
}
