//! What a caller of a search over a file knows afterwards, by the contracts alone.
ghost use Rattle.std.specs.Prelude.{◌≡◌, All, option_map};
ghost use Rattle.cola_look.specs.Runs.{HasRun};
ghost use Rattle.cola_run.specs.Store.{held_of, beside, device_of};

use arrayvec::ArrayVec;
use cola_cell::{Item, Key, MOST_LEVELS, ReadFault, Run};
use cola_device::Device;
use cola_outside::Steps;
use cola_run::RunStore;
use cola_search::find;
use std::sync::ledger::Ledger;

/// The item of a key in runs of a store. The device is as long as before, and what it has beside the levels on it is what
/// it had: the blocks of the front, and the bytes behind the store's cells.
pub fn found_in_store<D: Device, L: Ledger>(
    store: &mut RunStore<D>,
    runs: &ArrayVec<Run, MOST_LEVELS>,
    key: &Key,
    steps: &mut Steps<L>,
) -> Result<Option<Item>, ReadFault>
    requires { All (HasRun (held_of D.bytes store.old)) runs.now.items }
    ensures geometry { store.new.geometry ≡ store.old.geometry }
    ensures beside { option_map (beside store.new.geometry)
        (D.bytes (device_of store.new)) ≡ option_map (beside store.old.geometry)
        (D.bytes (device_of store.old)) }
{
    find(store, runs, key, steps)
}
