//! The status of a file that was not opened.
ghost use Rattle.std.specs.Prelude.{◌≡◌};
ghost use Rattle.cola_workload.specs.Refused.{refusal_status};

use cola_status::Status;
use cola_store::OpenFault;

/// The status of a file that was not opened, as its number: 1 where there was no memory, 5 where the device failed, 6 where
/// the file has no store or not all of one, 7 where its store is in use, and 10 where a cell is no spelling.
pub fn opening_status(fault: OpenFault) -> u8
    ensures { result ≡ refusal_status fault }
{
    match fault {
        OpenFault::OutOfMemory => Status::OutOfMemory as u8,
        OpenFault::Device => Status::DeviceFailed as u8,
        OpenFault::NotStore => Status::NotStore as u8,
        OpenFault::Small => Status::NotStore as u8,
        OpenFault::NotClosed => Status::NotClosed as u8,
        OpenFault::BadCell(_) => Status::BadCell as u8,
    }
}
