//! An open store, and what is left of one that was not opened again.
ghost use Rattle.std.specs.Prelude.{◌≤◌};

use crate::error::Error;
use cola_device::Device;
use cola_store::{Closing, Store};

/// An open store over the device `D`: an ordered map from byte strings to byte strings.
#[derive(Drop)]
pub struct Kv<D: Device> {
    /// Its table, for what is generic over tables.
    pub store: Store<D>,
    pub(crate) cache: u32,
    /// How many ticks the last call made that was answered.
    pub(crate) ticks: u32,
    pub ghost few: { cache ≤ 4096 },
}

/// What is left of a checkpoint that was not finished.
#[derive(Drop)]
pub enum Unfinished<D: Device> {
    /// The device refused a call of the closing: all is owed still, and may be closed again.
    Owed(Closing<D>),
    /// The store is closed and safe, and was not opened again for this reason: no memory, or a call that the device refused.
    Closed(D, Error),
}
