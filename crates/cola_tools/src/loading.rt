//! A new store in lent bytes, filled with rows by rising keys in one pass.
ghost use Rattle.std.specs.Prelude.{◌≡◌, ◌≤◌, ◌<◌, length, IsSome, IfOk, IfErr, IfSome, IfNone, IsTrue, IsFalse};
ghost use Rattle.cola_cell.specs.Format.{stamp_limit};
ghost use Rattle.cola_load.specs.Loading.{IsAbove};
ghost use Rattle.cola_mapped.specs.Region.{bytes_in};
ghost use Rattle.cola_mapped.specs.Mapped.{IsLent};
ghost use Rattle.cola_run.specs.Cells.{file_bytes};
ghost use Rattle.cola_tools.specs.Growing.{AreZero, HasNoHeader};
ghost use Rattle.cola_tools.specs.New.{place_of};
ghost use Rattle.cola_tools.specs.Loading.{stamp_at, last_of, geometry_of as store_of, place_in, HasBegun, HasSizes, LacksSizes, IsBegun, IsUnbegun};
ghost use Rattle.cola_tools.specs.Loading.{IsRow, MayFollow, HasOneMore, Rows, Ends};

use crate::fault::ToolFault;
use crate::growing::is_zero;
use crate::new_device::NewDevice;
use cola_cell::{Format, Key, Value};
use cola_layout::Geometry;
use cola_load::Loader;
use cola_mapped::{Lent, Region};
use cola_opening::size_of;
use std::alloc::Global;
use std::marker::Model;

/// A load that was begun: the rows so far are in the lent bytes and in memory, and the bytes have no store's header.
///
/// In a store of version 2 the row with number n has the stamp n, and the next put has one above the number of keys that the
/// store is for.
#[derive(Drop)]
pub struct Load {
    loader: Loader,
    device: NewDevice,
    geometry: Geometry,
    rows: u64,
    key: Option<Key>,
}

impl Model for Load {
    ghost use Rattle.cola_tools.specs.Loading.{Loads, IsLoad};

    ghost Value = { Loads };

    ghost view = { λ l. record { loader = l.loader; device = l.device } };

    ghost invariant = { λ l. IsLoad l.loader l.device l.geometry l.rows l.key };
}

/// The sizes of a store for so many keys, with blocks of `2^block_exp` cells, in a version.
fn geometry_of(keys: u64, block_exp: u8, version: u8) -> Option<Geometry>
    ensures sizes { IfSome result (HasSizes keys block_exp version) }
    ensures refused { IfNone result (LacksSizes keys block_exp version) }
{
    let format = match version {
        1 => Format::One,
        2 => Format::Two,
        _ => return None,
    };
    Geometry::of_format(keys, block_exp, format).ok()
}

/// The stamp of the row with a number.
fn stamp_of(format: Format, number: u64) -> u64
    ensures { result ≡ stamp_at format number }
{
    match format {
        Format::One => 0,
        Format::Two => number,
    }
}

/// The last stamp of a store with this geometry.
fn last_stamp(geometry: &Geometry) -> u64
    ensures value { result ≡ last_of geometry.now }
    ensures fits { result ≤ stamp_limit geometry.now.format }
{
    stamp_of(geometry.format, geometry.keys)
}

impl Load {
    /// Begins a store with this geometry in zero bytes that were lent, enough for it. An error gives them back as they were: there
    /// was no memory.
    fn begin_in(alloc: Global, lent: Lent, geometry: Geometry) -> Result<Load, Region>
        requires lent { IsLent lent.bytes }
        requires zero { AreZero (bytes_in lent.bytes) }
        requires room { file_bytes geometry ≤ length (bytes_in lent.bytes) }
        ensures begun { IfOk result (HasBegun geometry (place_in lent.at lent.len (bytes_in lent.bytes))) }
        ensures left { IfErr result (λ region. region.bytes ≡ lent.bytes) }
        ensures at { IfErr result (λ region. region.at ≡ lent.at) }
        ensures len { IfErr result (λ region. region.len ≡ lent.len) }
    {
        let last = last_stamp(&geometry);
        let mut device = NewDevice::over(lent);
        let begun = Loader::begin(alloc, &mut device, geometry, last);
        device.is_sound();
        match begun {
            Ok(loader) => Ok(Load {
                loader,
                device,
                geometry,
                rows: 0,
                key: None,
            }),
            // The device has no byte, and room for the file: there was no memory.
            Err(_) => Err(device.into_region()),
        }
    }

    /// Begins a store for so many keys, with blocks of `2^block_exp` cells, in a version, in a region of zero bytes, which
    /// becomes the load's. An error gives it back as it was.
    ///
    /// In this order: `Options` where no store is of these numbers. `Small` where there are fewer bytes than it has. `NotEmpty`
    /// where a byte is not zero. `Memory`: there was none. No memory is taken later.
    pub fn begin(
        alloc: Global,
        region: Region,
        keys: u64,
        block_exp: u8,
        version: u8,
    ) -> Result<Load, (Region, ToolFault)>
        requires { IsSome region.bytes }
        ensures begun { IfOk result (IsBegun keys block_exp version (bytes_in region.bytes)
            (place_in region.at region.len (bytes_in region.bytes))) }
        ensures cause { IfErr result (λ refusal. IsUnbegun keys block_exp version (bytes_in region.bytes) refusal.1) }
        ensures left { IfErr result (λ refusal. refusal.0.bytes ≡ region.bytes) }
        ensures at { IfErr result (λ refusal. refusal.0.at ≡ region.at) }
        ensures len { IfErr result (λ refusal. refusal.0.len ≡ region.len) }
    {
        let lent = Lent::of(region);
        let Some(geometry) = geometry_of(keys, block_exp, version) else {
            return Err((lent.into_region(), ToolFault::Options));
        };
        if (lent.size() as u64) < size_of(&geometry) {
            return Err((lent.into_region(), ToolFault::Small));
        }
        if !is_zero(lent.shown()) {
            return Err((lent.into_region(), ToolFault::NotEmpty));
        }
        match Load::begin_in(alloc, lent, geometry) {
            Ok(load) => Ok(load),
            Err(region) => Err((region, ToolFault::Memory)),
        }
    }

    /// Whether a key may come behind the rows so far.
    fn is_above(&self, key: &Key) -> bool
        ensures yes { IsTrue result → IsAbove self.now.loader.key key.now }
        ensures no { IsFalse result → IsAbove self.now.loader.key key.now → ⊥ }
    {
        match &self.key {
            Some(before) => before.cmp(key).is_lt(),
            None => true,
        }
    }

    /// The key and the value of these bytes, where the format has room for them.
    fn row_of(&self, key: &[u8], value: &[u8]) -> Option<(Key, Value)>
        ensures key { IfSome result (λ row. row.0 ≡ key.now) }
        ensures value { IfSome result (λ row. row.1 ≡ value.now) }
        ensures fits { IfSome result (λ row. IsRow (store_of self.now).format row.0 row.1) }
        ensures refused { IfNone result (IsRow (store_of self.now).format key.now value.now → ⊥) }
    {
        let (Some(key), Some(value)) = (Key::of(key), Value::of(value)) else {
            return None;
        };
        if key.fits(self.geometry.format) && value.fits(self.geometry.format) {
            return Some((key, value));
        }
        None
    }

    /// Puts a row behind those so far, which may follow them.
    fn push(&mut self, key: &Key, value: &Value)
        requires { MayFollow self.old key.now value.now }
        ensures { HasOneMore self.old key.now value.now self.new }
    {
        let stamp = stamp_of(self.geometry.format, self.rows + 1);
        self.device.is_sound();
        let pushed = self.loader.push(&mut self.device, key, value, stamp);
        self.device.is_sound();
        match pushed {
            Ok(()) => {
                self.rows += 1;
                self.key = Some(*key);
            }
            Err(_) => unreachable!(),
        }
    }

    /// Puts a row behind those so far.
    ///
    /// In this order: `Length` where the key has no byte, or one of the two has more than the version allows. `Order` where the
    /// key is not above that of the row before. `Full` where there are as many rows as the store is for. A refused row leaves
    /// all as it was, and others may follow.
    pub fn row(&mut self, key: &[u8], value: &[u8]) -> Result<(), ToolFault>
        ensures { Rows self.old self.new key.now value.now result }
    {
        let Some((key, value)) = self.row_of(key, value) else {
            return Err(ToolFault::Length);
        };
        if !self.is_above(&key) {
            return Err(ToolFault::Order);
        }
        if self.rows == self.geometry.keys {
            return Err(ToolFault::Full);
        }
        self.push(&key, &value);
        Ok(())
    }

    /// Makes the store of the rows: the region has its file, and is where it was. Answers how many rows there are.
    pub fn end(self) -> (Region, u64)
        ensures made { Ends self (bytes_in result.0.bytes) }
        ensures rows { result.1 ≡ self.loader.rows }
        ensures back { IsSome result.0.bytes }
        ensures place { place_in result.0.at result.0.len (bytes_in result.0.bytes) ≡ place_of self.device }
    {
        let Load { loader, device, .. } = self;
        let mut device = device;
        device.is_sound();
        let ended = loader.finish(&mut device);
        device.is_sound();
        match ended {
            Ok(rows) => (device.into_region(), rows),
            Err(_) => unreachable!(),
        }
    }

    /// Gives the load up: the region comes back where it was, with no store's header, and with zeros where no block was written.
    pub fn give_up(self) -> Region
        ensures no_header { HasNoHeader (bytes_in result.bytes) }
        ensures unwritten { self.device.writes ≡ 0 → AreZero (bytes_in result.bytes) }
        ensures back { IsSome result.bytes }
        ensures place { place_in result.at result.len (bytes_in result.bytes) ≡ place_of self.device }
    {
        let Load { device, .. } = self;
        device.into_region()
    }
}
