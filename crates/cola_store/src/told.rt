//! What an open store is: its sizes, and how far each of its levels is filled. Nothing is read, and nothing changes.
ghost use Rattle.std.specs.Prelude.{◌≡◌};
ghost use Rattle.cola_store.specs.Store.{geometry_of};
ghost use Rattle.cola_store.specs.Told.{level_of};

use crate::store::Store;
use cola_device::Device;
use cola_layout::Geometry;

/// How far a level is filled, in cells, as C has it too. The room is that of each of its two runs.
#[repr(C)]
#[derive(Clone, Copy, Debug, PartialEq, Eq, Drop)]
pub struct LevelInfo {
    /// The cells of its visible run, which searches read.
    pub visible: u64,
    /// The cells of its shadow, the run that it builds.
    pub shadow: u64,
    /// The cells that either may have.
    pub room: u64,
}

impl<D: Device> Store<D> {
    /// Its sizes: the keys that it is for, its levels, its blocks and its format.
    pub fn geometry(&self) -> &Geometry
        ensures { result.now ≡ geometry_of self.now }
    {
        self.chain().runs().geometry()
    }

    /// How far the level of this number is filled, 0 for the level that takes a put; none where the store has no such level.
    pub fn level(&self, number: u8) -> Option<LevelInfo>
        ensures { result ≡ level_of self.now number }
    {
        let chain = self.chain();
        if number >= self.levels() {
            return None;
        }
        let header = chain.header(0, false);
        let marks = header.levels.as_slice()[number as usize];
        Some(LevelInfo {
            visible: u64::from(marks.visible),
            shadow: u64::from(marks.shadow),
            room: 1 << (number + 2),
        })
    }
}
