//! Laws of openings, over any device that tells its bytes. Each function does nothing: its clauses are the law.
ghost use Rattle.cola_store.specs.Laws.{ClosedFileOpens, FileInUseIsNotClosed, AnotherStateIsNoStore, NewFileOpens, ClosedStoreOpensAgain};

use cola_device::Device;

/// The file that stands for a map is opened, and the store holds the map, unless there is no memory, or the device failed and
/// its count of faults rose.
pub fn a_closed_file_opens<D: Device>()
    ensures { ClosedFileOpens D.Device }
{}

/// The same file with the state byte 1 is answered as not closed, unless the device failed and its count of faults rose.
pub fn a_file_in_use_is_not_closed<D: Device>()
    ensures { FileInUseIsNotClosed D.Device }
{}

/// The same file with a state byte above 1 is no store, unless the device failed and its count of faults rose.
pub fn another_state_is_no_store<D: Device>()
    ensures { AnotherStateIsNoStore D.Device }
{}

/// A new file is opened, and the store holds the empty map, unless there is no memory, or the device failed and its count of
/// faults rose.
pub fn a_new_file_opens<D: Device>()
    ensures { NewFileOpens D.Device }
{}

/// What a store was closed to is opened again, and the store holds the same map, unless there is no memory, or the device
/// failed and its count of faults rose.
pub fn a_closed_store_opens_again<D: Device>()
    ensures { ClosedStoreOpensAgain D.Device }
{}
