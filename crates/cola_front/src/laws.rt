//! Laws of what a store leaves on a device.
ghost use Rattle.cola_front.specs.Laws.{StoredCellsAreLoaded};

/// What a store leaves is what a load takes: the bytes of each place behind the header spell what stands there.
pub fn stored_cells_are_loaded()
    ensures { StoredCellsAreLoaded }
{}
