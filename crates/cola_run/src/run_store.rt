//! The cells of a store over a device.
ghost use Rattle.std.specs.Prelude.{◌≡◌, ◌+◌, ◌*◌, ◌^◌, ◌≤◌, IfOk, IfErr};
ghost use Rattle.std.specs.Box.{boxed_slice_items};
ghost use Rattle.cola_device.specs.Bytes.{HasRange};
ghost use Rattle.cola_cache.specs.Blocks.{AreFew};
ghost use Rattle.cola_front.specs.Front.{new_front};
ghost use Rattle.cola_run.specs.Cells.{block_bytes, file_bytes};
ghost use Rattle.cola_run.specs.Store.{Store, IsStore, new_store, new_shadows, new_tails};

use crate::tails::{Tails, cells_of_block, levels_on_device};
use crate::weaving::FRONT_ROOM;
use cola_cache::Buffers;
use cola_cell::{Format, Shadow};
use cola_device::Device;
use cola_front::Front;
use cola_layout::Geometry;
use std::alloc::{AllocError, Global};
use std::boxed::BoxedSlice;
use std::marker::Model;

/// The cells of a store's runs over the device `D`, which has the store's file.
///
/// The levels of the front are in memory. Of the other levels, the cells of a shadow's last block are in memory until
/// that is full or the shadow is finished, and blocks that are read stay in memory: one for searches and one for each
/// reader and level, above a cache of blocks. Only [`RunStore::new`] takes memory.
#[derive(Drop)]
pub struct RunStore<D: Device> {
    pub(crate) buffers: Buffers<D>,
    pub(crate) geometry: Geometry,
    pub(crate) front: Front,
    pub(crate) shadows: BoxedSlice<Shadow>,
    pub(crate) tails: Tails,
    pub(crate) ticked: u64,
    /// Where a merge into the front puts its cells before they are copied there. A contract does not see it. It is on the heap,
    /// so that neither a store that is moved nor a merge that begins clears it.
    pub(crate) room: Box<[u8; FRONT_ROOM]>,
}

impl<D: Device> Model for RunStore<D> {
    ghost use Rattle.std.specs.Box.{boxed_slice_items};
    ghost use Rattle.cola_run.specs.Store.{Store, IsStore};

    ghost Value = { Store D };

    ghost view = { λ s. record {
      buffers = s.buffers;
      geometry = s.geometry;
      front = s.front;
      shadows = boxed_slice_items s.shadows;
      tails = s.tails;
      ticked = s.ticked;
    } };

    ghost invariant = { λ s. IsStore (D.bytes s.buffers.cache.device) (record {
      buffers = s.buffers;
      geometry = s.geometry;
      front = s.front;
      shadows = boxed_slice_items s.shadows;
      tails = s.tails;
      ticked = s.ticked;
    }) };
}

/// The exponent of a block's bytes, counted from 64 bytes on.
fn exponent_of_bytes(geometry: &Geometry) -> u8
    ensures bytes { 64 * 2 ^ result ≡ block_bytes geometry.now }
    ensures least { 3 ≤ result }
    ensures most { result ≤ 10 }
{
    match geometry.format {
        Format::One => geometry.block_exp,
        Format::Two => geometry.block_exp + 1,
    }
}

/// The front, the shadows and the tails of a store, in which no cell stands yet, and a room for merges into the front.
fn parts(
    alloc: Global,
    geometry: &Geometry,
) -> Result<(Front, BoxedSlice<Shadow>, Tails, Box<[u8; FRONT_ROOM]>), AllocError>
    ensures front { IfOk result (λ made.
        made.0 ≡ new_front geometry.now.block_exp geometry.now.format) }
    ensures shadows { IfOk result (λ made.
        boxed_slice_items made.1 ≡ new_shadows geometry.now) }
    ensures tails { IfOk result (λ made. made.2 ≡ new_tails geometry.now) }
{
    let front = Front::new(alloc, geometry.block_exp, geometry.format)?;
    let empty = Shadow {
        slot: 1,
        len: 0,
        saved: true,
    };
    let shadows = vec![in alloc; empty; geometry.levels() as usize]?.into_boxed_slice();
    let tails = Tails::new(alloc, geometry)?;
    let room = Box::new(alloc, [0; FRONT_ROOM])?;
    Ok((front, shadows, tails, room))
}

impl<D: Device> RunStore<D> {
    /// The cells of a store with this geometry over a device that has its file, behind a cache of up to `cache` blocks.
    /// No cell is loaded yet: each shadow is empty and stands in slot 1. All memory is taken here, and no call of the
    /// device is made. An error gives `device` back.
    pub fn new(
        alloc: Global,
        device: D,
        geometry: Geometry,
        cache: u32,
    ) -> Result<RunStore<D>, (D, AllocError)>
        requires cache { cache ≤ 4096 }
        requires inside { HasRange (D.bytes device) 0 (file_bytes geometry) }
        ensures made { IfOk result (λ store.
            store ≡ new_store device (D.counts device) geometry cache) }
        ensures back { IfErr result (λ error. error.0 ≡ device) }
    {
        let (front, shadows, tails, room) = match parts(alloc, &geometry) {
            Ok(parts) => parts,
            Err(error) => return Err((device, error)),
        };
        let blocks = geometry.cells() / cells_of_block(&geometry) as u64;
        let many = 1 + 3 * levels_on_device(&geometry) as u32;
        let exponent = exponent_of_bytes(&geometry);
        match Buffers::new(alloc, device, cache, exponent, blocks, many) {
            Ok(buffers) => Ok(RunStore {
                buffers,
                geometry,
                front,
                shadows,
                tails,
                ticked: 0,
                room,
            }),
            Err(error) => Err(error),
        }
    }

    /// The geometry of the store.
    pub fn geometry(&self) -> &Geometry
        ensures { result.now ≡ self.now.geometry }
    {
        &self.geometry
    }

    /// The format of the store's cells.
    pub fn format(&self) -> Format
        ensures { result ≡ self.now.geometry.format }
    {
        self.geometry.format
    }

    /// How many reads and writes the device made. Where the cache has room for every block of the file and the device
    /// met no fault since the store was made, it made no more reads since then than the file has blocks.
    pub fn transfers(&self) -> (u64, u64)
        ensures reads { result.0 ≡ (D.counts self.now.buffers.cache.device).reads }
        ensures writes { result.1 ≡ (D.counts self.now.buffers.cache.device).writes }
        ensures few { AreFew self.now.buffers (D.counts self.now.buffers.cache.device) }
        ensures sound { IsStore (D.bytes self.now.buffers.cache.device) self.now }
    {
        let _ = &self.geometry;
        (self.buffers.reads(), self.buffers.writes())
    }

    /// The device, as it is. No call of it is made.
    pub fn into_device(self) -> D
        ensures { result ≡ self.buffers.cache.device }
    {
        let RunStore { buffers, .. } = self;
        buffers.into_device()
    }
}
