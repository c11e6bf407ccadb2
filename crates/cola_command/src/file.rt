//! A session over a store in a file.
ghost use Rattle.std.specs.Prelude.{◌≤◌};

use crate::place::Place;
use cola_cell::Format;
use cola_device::Device;

/// A session over a store in a file: where the store is, how many blocks its cache may keep, whether costs are printed,
/// the format of the store when it was open last, and whether the last file that was to be opened met a fault.
#[derive(Drop)]
pub struct Session<D: Device> {
    pub(crate) place: Place<D>,
    pub(crate) cache: u32,
    pub(crate) cost: bool,
    pub(crate) format: Format,
    pub(crate) cut_off: bool,
    pub ghost small: { cache ≤ 4096 },
}
