//! How a store is closed.
ghost use Rattle.std.specs.Prelude.{◌≡◌, true, length};
ghost use Rattle.cola_layout.specs.Fields.{fields_of};
ghost use Rattle.cola_layout.specs.Header.{IsSpelling};
ghost use Rattle.cola_run.specs.Store.{device_of};
ghost use Rattle.cola_store.specs.Close.{HasWholeFile};

use cola_device::Device;
use cola_layout::Header;
use cola_run::RunStore;

/// The spelling of a header.
fn bytes_of(header: &Header) -> [u8; 512]
    ensures spelled { IsSpelling (fields_of header.now) result }
    ensures size { length result ≡ 512 }
{
    let mut bytes = [0u8; 512];
    header.encode(&mut bytes);
    bytes
}

/// Says that the device of a store has its whole file. Nothing is done.
fn know_whole_file<D: Device>(runs: &RunStore<D>)
    ensures { HasWholeFile D.Device runs.now }
{
    let (_reads, _writes) = runs.transfers();
}

/// A store that was not closed yet, and all that it owes to its file: the cells and the header, which says that the store
/// is closed.
#[derive(Drop)]
pub struct Closing<D: Device> {
    pub(crate) runs: RunStore<D>,
    pub(crate) header: Header,
    pub ghost closed: { header.closed ≡ true },
    pub ghost fits: { header.geometry ≡ runs.geometry },
}

impl<D: Device> Closing<D> {
    ghost use Rattle.std.specs.Prelude.{IfOk, IfErr};
    ghost use Rattle.cola_store.specs.Close.{IsClosed, StillOwes};
    ghost use Rattle.cola_store.specs.Sessions.{PaysMap};

    /// What a store with this header, of a closed store, owes to its file.
    pub fn new(runs: RunStore<D>, header: Header) -> Closing<D>
        requires closed { header.closed ≡ true }
        requires fits { header.geometry ≡ runs.geometry }
        ensures runs { result.runs ≡ runs }
        ensures header { result.header ≡ header }
    {
        Closing { runs, header }
    }

    /// Closes the store: writes what its file does not have yet, the header last, and gives the device. An error comes
    /// only where the device refused a call; it still owes all, and may be tried again.
    pub fn close(self) -> Result<D, Closing<D>>
        ensures closed { IfOk result (IsClosed D.Device self.header self.runs) }
        ensures owes { IfErr result
            (λ now. StillOwes D.Device self.header self.runs now.runs now.header) }
        // where a map is owed, the file stands for it, or it is owed still
        ensures map { PaysMap D.Device self result }
        ensures kept_device { IfOk result (λ now. D.kept now ≡ D.kept (device_of self.runs)) }
        ensures kept { IfErr result (λ now. D.kept (device_of now.runs) ≡ D.kept (device_of self.runs)) }
    {
        let Closing { mut runs, header } = self;
        let bytes = bytes_of(&header);
        let flushed = runs.flush(&bytes);
        know_whole_file(&runs);
        match flushed {
            Ok(()) => Ok(runs.into_device()),
            Err(_) => Err(Closing { runs, header }),
        }
    }

    /// Gives up, and hands the device back as it is. No call of it is made. Its file is in use where no attempt to close was
    /// made; else it is what the last attempt left.
    pub fn into_device(self) -> D
        ensures { result ≡ device_of self.runs }
    {
        self.runs.into_device()
    }
}
