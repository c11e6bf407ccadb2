//! Room for the levels of a chain.
ghost use Rattle.std.specs.Prelude.{◌≡◌};

use arrayvec::ArrayVec;
use cola_cell::MOST_LEVELS;
use cola_level::Level;
use std::alloc::{AllocError, Global};

/// Room on the heap for the levels of a chain. They are most of a chain, with the cells that their merges hold, and so it is
/// moved without them. It is taken before the store is loaded, and a chain takes no memory.
#[derive(Drop)]
pub struct Room {
    levels: Box<ArrayVec<Level, MOST_LEVELS>>,
}

impl Room {
    /// Takes the memory. No level stands in it yet.
    pub fn new(alloc: Global) -> Result<Room, AllocError> {
        let levels = Box::new(alloc, ArrayVec::new())?;
        Ok(Room { levels })
    }

    /// The levels, in the room.
    pub(crate) fn with(
        self,
        levels: ArrayVec<Level, MOST_LEVELS>,
    ) -> Box<ArrayVec<Level, MOST_LEVELS>>
        ensures { result.value ≡ levels }
    {
        let Room { levels: mut room } = self;
        let _ = Box::replace(&mut room, levels);
        room
    }
}
