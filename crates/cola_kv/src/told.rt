//! What an open store is: its sizes, its bounds and its levels. Nothing is read, and nothing changes.
ghost use Rattle.std.specs.Prelude.{◌≡◌};
ghost use Rattle.cola_layout.specs.Header.{version_of};
ghost use Rattle.cola_spec.specs.Map.{Map, count};
ghost use Rattle.cola_kv.specs.Kv.{Holds, geometry_of};
ghost use Rattle.cola_kv.specs.Told.{info_of, level_of};

use crate::kv::Kv;
use cola_cell::Format;
use cola_device::Device;
use cola_opening::size_of;
use cola_store::LevelInfo;
use cola_table::Table;

/// What an open store is, as C has it too.
#[repr(C)]
#[derive(Clone, Copy, Debug, PartialEq, Eq, Drop)]
pub struct Info {
    /// The most keys that it may have.
    pub keys: u64,
    /// The keys that it has.
    pub count: u64,
    /// The bytes that it takes of its file.
    pub bytes: u64,
    /// The most cell accesses of a put or a delete: 40 for each level.
    pub write_bound: u64,
    /// The most cell accesses of a get or a stamp: 8 for each level.
    pub get_bound: u64,
    /// The version of its file, 1 or 2.
    pub version: u8,
    /// A block has two to this power cells, 3 to 9.
    pub block: u8,
    /// The number of its levels, 4 to 23.
    pub levels: u8,
}

/// The number of a version.
fn number_of(format: Format) -> u8
    ensures { result ≡ version_of format }
{
    match format {
        Format::One => 1,
        Format::Two => 2,
    }
}

impl<D: Device> Kv<D> {
    /// The most keys that it may have.
    pub fn keys(&self) -> u64
        ensures { result ≡ (geometry_of self.now).keys }
    {
        self.store.geometry().keys
    }

    /// The version of its file, 1 or 2.
    pub fn version(&self) -> u8
        ensures { result ≡ version_of (geometry_of self.now).format }
    {
        number_of(self.store.format())
    }

    /// A block has two to this power cells, 3 to 9.
    pub fn block(&self) -> u8
        ensures { result ≡ (geometry_of self.now).block_exp }
    {
        self.store.geometry().block_exp
    }

    /// All of these, the bytes of its file, and the bounds on the cell accesses of a call.
    pub fn info(&self) -> Info
        ensures told { result ≡ info_of self.now }
        ensures counted { (m : Map) → Holds D.Device self.now m → result.count ≡ count m }
    {
        let levels = u64::from(self.levels());
        Info {
            keys: self.keys(),
            count: self.count(),
            bytes: size_of(self.store.geometry()),
            write_bound: 40 * levels,
            get_bound: 8 * levels,
            version: self.version(),
            block: self.block(),
            levels: self.levels(),
        }
    }

    /// How far the level of this number is filled, 0 for the level that takes a put; none where the store has no such level.
    pub fn level(&self, number: u8) -> Option<LevelInfo>
        ensures { result ≡ level_of self.now number }
    {
        self.store.level(number)
    }
}
