//! Loading a store from its file, and flushing it to that.
ghost use Rattle.std.specs.Prelude.{◌≡◌, ◌+◌, ◌≤◌, ◌<◌, [], ◌∷◌, Option, IfSome, None, OnOk, length, true};
ghost use Rattle.cola_cell.specs.Places.{slot_size};
ghost use Rattle.cola_cell.specs.Shadows.{emptied};
ghost use Rattle.cola_device.specs.Settling.{IsSettled};
ghost use Rattle.cola_cache.specs.Blocks.{Stays};
ghost use Rattle.cola_front.specs.Front.{IsFront, InOrder, SameShape, block_size, image};
ghost use Rattle.cola_clock.specs.Clock.{visible_slot};
ghost use Rattle.cola_layout.specs.Marks.{marks_of};
ghost use Rattle.cola_run.specs.Cells.{IsShadow, IsShape, AreCells, block_cells, block_bytes, file_blocks, tails_bytes, cells_by, IsLowerBacked};
ghost use Rattle.cola_run.specs.Store.{held_of, kept_of, lower_of, device_of};
ghost use Rattle.cola_run.specs.Parts.{OneShadow};
ghost use Rattle.cola_run.specs.Saving.{header_shadow, run_len, SameReads, SameSpots};
ghost use Rattle.cola_run.specs.Calls.{AllUnsavedHaveRoom, StandByHeader, IsFrontOf, OnlyReads, OnlyWrites, BlocksWrote, BothTell, LoadSays, LoadCosts, AreFlushed, BlocksFrontLast, BlocksSettleTwice, LoadsFile, FlushesFile, StoreFrontLast, StoreSettlesTwice, StoreKeepsBehind, StoreCalled};
ghost use Rattle.cola_run.specs.Loading.{BadInRun, BadInLevel, BadInFront, NoneBadInFront, loaded_shadow, StaySound, StayRead, SameCells, AreSavedBelow, NoneBadInRun, NoneBadInLevel};

use crate::device_cells::{finish_on_device, set_shadow};
use crate::run_store::RunStore;
use crate::tails::{Tails, block_at, cells_of_block};
use cola_cache::Buffers;
use cola_cell::{ReadFault, Shadow};
use cola_clock::visible_slot;
use cola_device::{Device, DeviceFault, MAX_TRANSFER};
use cola_front::Front;
use cola_layout::{Geometry, Header, Marks};

/// The marks of a level by a header, whose runs fit their slots.
fn marks_at(header: &Header, level: u8) -> Marks
    requires { level ≤ header.now.geometry.bottom }
    ensures value { result ≡ marks_of header.now.levels.items level }
    ensures visible { result.visible ≤ slot_size level }
    ensures shadow { result.shadow ≤ slot_size level }
{
    header.levels[level as usize]
}

/// In which slot the visible run of a level stands by a header.
pub(crate) fn visible_at(header: &Header, level: u8) -> u8
    requires { level ≤ header.now.geometry.bottom }
    ensures value { result ≡ visible_slot header.now.clock level }
    ensures within { result < 2 }
{
    visible_slot(header.clock, level)
}

/// How the shadow of a level stands by a header.
fn shadow_of_header(header: &Header, level: u8) -> Shadow
    requires { level ≤ header.now.geometry.bottom }
    ensures value { result ≡ header_shadow header.now level }
    ensures stands { IsShadow level result }
{
    Shadow {
        slot: 1 - visible_at(header, level),
        len: marks_at(header, level).shadow,
        saved: true,
    }
}

/// How many cells the run in a slot of a level has by a header.
fn len_of_run(header: &Header, level: u8, slot: u8) -> u32
    requires level { level ≤ header.now.geometry.bottom }
    ensures value { result ≡ run_len header.now level slot }
    ensures within { result ≤ slot_size level }
{
    let marks = marks_at(header, level);
    if slot == visible_at(header, level) {
        return marks.visible;
    }
    marks.shadow
}

/// The first cell of a run of the front whose bytes spell none, by its number.
fn bad_in_run(front: &Front, geometry: &Geometry, level: u8, slot: u8, len: u32) -> Option<u64>
    requires level { level + 2 < geometry.now.block_exp }
    requires within_bottom { level ≤ geometry.now.bottom }
    requires slot { slot < 2 }
    requires len { len ≤ slot_size level }
    requires block { front.now.block ≡ block_cells geometry.now }
    ensures some { IfSome result (λ number. BadInRun front.now level slot len number) }
    ensures none { result ≡ None → NoneBadInRun front.now level slot len }
{
    for index in 0..len {
        let number = geometry.place(level, slot, index);
        if !front.is_there(number) {
            return Some(number);
        }
    }
    None
}

/// The first cell of the runs of a level of the front whose bytes spell none, by its number.
fn bad_in_level(front: &Front, geometry: &Geometry, header: &Header, level: u8) -> Option<u64>
    requires level { level + 2 < geometry.now.block_exp }
    requires within_bottom { level ≤ geometry.now.bottom }
    requires geometry { header.now.geometry ≡ geometry.now }
    requires block { front.now.block ≡ block_cells geometry.now }
    ensures some { IfSome result (λ number. BadInLevel header.now front.now level number) }
    ensures none { result ≡ None → NoneBadInLevel header.now front.now level }
{
    match bad_in_run(front, geometry, level, 0, len_of_run(header, level, 0)) {
        Some(number) => Some(number),
        None => bad_in_run(front, geometry, level, 1, len_of_run(header, level, 1)),
    }
}

/// The first cell of the runs of the front whose bytes spell none, by its number.
fn first_bad(front: &Front, geometry: &Geometry, header: &Header) -> Option<u64>
    requires geometry { header.now.geometry ≡ geometry.now }
    requires block { front.now.block ≡ block_cells geometry.now }
    ensures some { IfSome result (λ number. BadInFront header.now front.now number) }
    ensures none { result ≡ None → NoneBadInFront header.now front.now }
{
    for level in 0..geometry.front_levels() {
        match bad_in_level(front, geometry, header, level) {
            Some(number) => return Some(number),
            None => {}
        }
    }
    None
}

/// Reads blocks 0 and 1 into the front.
fn load_front<D: Device>(buffers: &mut Buffers<D>, front: &mut Front) -> Result<(), DeviceFault>
    requires buffer { 0 < length buffers.old.lasts }
    requires many { 1 < buffers.old.many }
    requires size { buffers.old.cache.size ≡ block_size front.old }
    ensures loaded { OnOk result (IsFrontOf D.Device buffers.old front.new) }
    ensures shape { SameShape front.old front.new }
    ensures reading { OnlyReads D.Device buffers.old buffers.new 2 result }
{
    match buffers.turn_to(0, 0) {
        Ok(()) => {
            front.take_first(buffers.copy(0));
            match buffers.turn_to(0, 1) {
                Ok(()) => {
                    front.take_second(buffers.copy(0));
                    Ok(())
                }
                Err(fault) => Err(fault),
            }
        }
        Err(fault) => Err(fault),
    }
}

/// An empty shadow.
fn empty_in(slot: u8) -> Shadow
    ensures { result ≡ emptied slot }
{
    let len = 0;
    let saved = true;
    Shadow { slot, len, saved }
}

/// Takes a shadow as it stands on the device: where it ends within a block, that is read into its tail.
fn load_shadow<D: Device>(
    buffers: &mut Buffers<D>,
    geometry: &Geometry,
    shadows: &mut [Shadow],
    tails: &mut Tails,
    level: u8,
    shadow: Shadow,
) -> Result<(), DeviceFault>
    requires level { level ≤ geometry.now.bottom }
    requires shadows { level < length shadows.old }
    requires stands { IsShadow level shadow }
    requires saved { shadow.saved ≡ true }
    requires tails { length tails.old ≡ tails_bytes geometry.now }
    requires buffer { 0 < length buffers.old.lasts }
    requires size { buffers.old.cache.size ≡ block_bytes geometry.now }
    requires many { buffers.old.many ≡ file_blocks geometry.now }
    ensures one { OneShadow shadows.old shadows.new level (loaded_shadow result shadow) }
    ensures sound { StaySound geometry.now (lower_of D.bytes buffers.old shadows.old tails.old)
        (lower_of D.bytes buffers.new shadows.new tails.new) }
    ensures tails { length tails.new ≡ length tails.old }
    ensures reading { OnlyReads D.Device buffers.old buffers.new 1 result }
{
    set_shadow(shadows, level, empty_in(shadow.slot));
    if level < geometry.front_levels() {
        set_shadow(shadows, level, shadow);
        return Ok(());
    }
    if shadow.len % cells_of_block(geometry) == 0 {
        set_shadow(shadows, level, shadow);
        return Ok(());
    }
    match buffers.turn_to(0, block_at(geometry, level, shadow.slot, shadow.len)) {
        Ok(()) => {
            tails.put_block(geometry, level, buffers.copy(0));
            set_shadow(shadows, level, shadow);
            Ok(())
        }
        Err(fault) => Err(fault),
    }
}

/// Takes the shadow of each level as it stands on the device by a header.
fn load_shadows<D: Device>(
    buffers: &mut Buffers<D>,
    geometry: &Geometry,
    shadows: &mut [Shadow],
    tails: &mut Tails,
    header: &Header,
) -> Result<(), DeviceFault>
    requires geometry { header.now.geometry ≡ geometry.now }
    requires shadows { length shadows.old ≡ geometry.now.bottom + 1 }
    requires tails { length tails.old ≡ tails_bytes geometry.now }
    requires buffer { 0 < length buffers.old.lasts }
    requires size { buffers.old.cache.size ≡ block_bytes geometry.now }
    requires many { buffers.old.many ≡ file_blocks geometry.now }
    ensures loaded { OnOk result (StandByHeader geometry.now header.now shadows.new) }
    ensures sound { StaySound geometry.now (lower_of D.bytes buffers.old shadows.old tails.old)
        (lower_of D.bytes buffers.new shadows.new tails.new) }
    ensures tails { length tails.new ≡ length tails.old }
    ensures reading { OnlyReads D.Device buffers.old buffers.new
        (geometry.now.bottom + 1) result }
{
    for level in 0..geometry.levels() {
        match load_shadow(
            buffers,
            geometry,
            shadows,
            tails,
            level,
            shadow_of_header(header, level),
        ) {
            Ok(()) => {}
            Err(fault) => return Err(fault),
        }
    }
    Ok(())
}

/// Writes each tail that is not on the device yet.
fn save_tails<D: Device>(
    buffers: &mut Buffers<D>,
    geometry: &Geometry,
    shadows: &mut [Shadow],
    tails: &Tails,
) -> Result<(), DeviceFault>
    requires shadows { length shadows.old ≡ geometry.now.bottom + 1 }
    requires shape { AllUnsavedHaveRoom geometry.now shadows.old }
    requires tails { length tails.now ≡ tails_bytes geometry.now }
    requires size { buffers.old.cache.size ≡ block_bytes geometry.now }
    requires many { buffers.old.many ≡ file_blocks geometry.now }
    ensures saved { OnOk result (AreSavedBelow geometry.now shadows.new (geometry.now.bottom + 1)) }
    ensures sound { StaySound geometry.now (lower_of D.bytes buffers.old shadows.old tails.now)
        (lower_of D.bytes buffers.new shadows.new tails.now) }
    ensures stays { StayRead geometry.now (lower_of D.bytes buffers.old shadows.old tails.now)
        (lower_of D.bytes buffers.new shadows.new tails.now) }
    ensures writing { OnlyWrites D.Device buffers.old buffers.new
        (geometry.now.bottom + 1) 0 result }
{
    for level in geometry.front_levels()..geometry.levels() {
        match finish_on_device(buffers, geometry, shadows, tails, level) {
            Ok(()) => {}
            Err(_) => return Err(DeviceFault),
        }
    }
    Ok(())
}

/// Writes block 1, then block 0 with the header as its first 512 bytes.
fn save_front<D: Device>(
    buffers: &mut Buffers<D>,
    front: &Front,
    header: &[u8; 512],
) -> Result<(), DeviceFault>
    requires many { 1 < buffers.old.many }
    requires size { buffers.old.cache.size ≡ block_size front.now }
    ensures wrote { BlocksWrote D.Device buffers.old buffers.new 0
        (image front.now header.now) result }
    ensures in_order { BothTell D.Device buffers.old buffers.new (InOrder result front.now) }
    ensures sound { IsFront front.now }
    ensures writing { OnlyWrites D.Device buffers.old buffers.new 2 0 result }
{
    let size = buffers.block_size();
    let mut room = [0u8; MAX_TRANSFER];
    let block = &mut room[..size];
    front.put_second(block);
    match buffers.write_block(1, block) {
        Ok(()) => {
            front.put_first(header, block);
            buffers.write_block(0, block)
        }
        Err(refusal) => Err(refusal),
    }
}

/// Takes the front and the shadows as they stand on the device by a header.
fn load_parts<D: Device>(
    buffers: &mut Buffers<D>,
    geometry: &Geometry,
    front: &mut Front,
    shadows: &mut [Shadow],
    tails: &mut Tails,
    header: &Header,
) -> Result<(), ReadFault>
    requires geometry { header.now.geometry ≡ geometry.now }
    requires shape { IsShape geometry.now front.old shadows.old tails.old }
    requires buffer { 0 < length buffers.old.lasts }
    requires size { buffers.old.cache.size ≡ block_bytes geometry.now }
    requires many { buffers.old.many ≡ file_blocks geometry.now }
    ensures front { OnOk result (IsFrontOf D.Device buffers.old front.new) }
    ensures shadows { OnOk result (StandByHeader geometry.now header.now shadows.new) }
    ensures answer { LoadSays D.Device buffers.old buffers.new header.now result }
    ensures shape { SameShape front.old front.new }
    ensures sound { StaySound geometry.now (lower_of D.bytes buffers.old shadows.old tails.old)
        (lower_of D.bytes buffers.new shadows.new tails.new) }
    ensures bytes_stay { D.bytes buffers.new.cache.device ≡ D.bytes buffers.old.cache.device }
    ensures kept { D.kept buffers.new.cache.device ≡ D.kept buffers.old.cache.device }
    ensures stays { Stays buffers.old buffers.new }
    ensures lasts { length buffers.new.lasts ≡ length buffers.old.lasts }
    ensures spends { LoadCosts D.Device buffers.old buffers.new geometry.now result }
{
    match load_front(buffers, front) {
        Ok(()) => match load_shadows(buffers, geometry, shadows, tails, header) {
            Ok(()) => match first_bad(front, geometry, header) {
                Some(number) => Err(ReadFault::BadCell(number)),
                None => Ok(()),
            },
            Err(_) => Err(ReadFault::Device),
        },
        Err(_) => Err(ReadFault::Device),
    }
}

/// Writes what is not on the device yet, and then the front with the header.
fn flush_parts<D: Device>(
    buffers: &mut Buffers<D>,
    geometry: &Geometry,
    front: &Front,
    shadows: &mut [Shadow],
    tails: &Tails,
    header: &[u8; 512],
) -> Result<(), DeviceFault>
    requires shape { IsShape geometry.now front.now shadows.old tails.now }
    requires backed { IsLowerBacked geometry.now
        (lower_of D.bytes buffers.old shadows.old tails.now) }
    requires size { buffers.old.cache.size ≡ block_bytes geometry.now }
    requires many { buffers.old.many ≡ file_blocks geometry.now }
    ensures flushed { OnOk result (AreFlushed header.now
        (cells_by geometry.now front.now (lower_of D.bytes buffers.new shadows.new tails.now))) }
    ensures cells { AreCells
        (cells_by geometry.now front.now (lower_of D.bytes buffers.new shadows.new tails.now)) }
    ensures reads { SameCells geometry.now front.now
        (lower_of D.bytes buffers.old shadows.old tails.now)
        (lower_of D.bytes buffers.new shadows.new tails.now) }
    ensures order { BlocksFrontLast D.Device buffers.old buffers.new
        (cells_by geometry.now front.now (lower_of D.bytes buffers.new shadows.new tails.now)) }
    ensures settles { OnOk result
        (BlocksSettleTwice D.Device buffers.old buffers.new geometry.now) }
    ensures writing { OnlyWrites D.Device buffers.old buffers.new
        (geometry.now.bottom + 3) 2 result }
{
    match save_tails(buffers, geometry, shadows, tails) {
        Ok(()) => match buffers.settle() {
            Ok(()) => match save_front(buffers, front, header) {
                Ok(()) => buffers.settle(),
                Err(fault) => Err(fault),
            },
            Err(unsettled) => Err(unsettled),
        },
        Err(fault) => Err(fault),
    }
}

impl<D: Device> RunStore<D> {
    /// Takes the cells of the store from its file, which has this header: reads blocks 0 and 1, and for each level on the
    /// device whose shadow ends within a block that block. `BadCell` where these reads succeed and a cell of a run of the
    /// front is no spelling: the lowest such. After an error nothing is said of the cells of the store. No byte of the
    /// device changes.
    pub fn load(&mut self, header: &Header) -> Result<(), ReadFault>
        requires { header.now.geometry ≡ self.old.geometry }
        ensures loaded { OnOk result (LoadsFile D.Device self.old self.new header.now) }
        ensures answer { LoadSays D.Device self.old.buffers self.new.buffers header.now result }
        ensures bytes_stay { D.bytes (device_of self.new) ≡ D.bytes (device_of self.old) }
        ensures kept { kept_of D.bytes D.counts D.kept self.new ≡
            kept_of D.bytes D.counts D.kept self.old }
        ensures fixed { (held_of D.bytes self.new).fixed ≡ (held_of D.bytes self.old).fixed }
        ensures ticked { self.new.ticked ≡ self.old.ticked }
        ensures spends { LoadCosts D.Device self.old.buffers self.new.buffers
            self.old.geometry result }
    {
        load_parts(
            &mut self.buffers,
            &self.geometry,
            &mut self.front,
            &mut self.shadows,
            &mut self.tails,
            header,
        )
    }

    /// Writes the state byte of a store in use, and settles. No cell of the store changes.
    pub fn mark_in_use(&mut self) -> Result<(), DeviceFault>
        ensures wrote { BlocksWrote D.Device self.old.buffers self.new.buffers
            14 (1 ∷ []) result }
        ensures settled { OnOk result (IsSettled D.Device (device_of self.new)) }
        ensures fixed { (held_of D.bytes self.new).fixed ≡ (held_of D.bytes self.old).fixed }
        ensures shadows { (held_of D.bytes self.new).shadows ≡
            (held_of D.bytes self.old).shadows }
        ensures cells_stay { SameSpots (held_of D.bytes self.old) (held_of D.bytes self.new) }
        ensures geometry { self.new.geometry ≡ self.old.geometry }
        ensures cache { self.new.buffers.cache.blocks ≡ self.old.buffers.cache.blocks }
        ensures kept { D.kept (device_of self.new) ≡ D.kept (device_of self.old) }
        ensures ticked { self.new.ticked ≡ self.old.ticked }
        ensures counts { StoreCalled D.Device self.old self.new 0 1 1 result }
    {
        let _ = &self.geometry;
        match self.buffers.write_byte(14, 1) {
            Ok(()) => self.buffers.settle(),
            Err(fault) => Err(fault),
        }
    }

    /// Makes the file that of the store, with this header: writes every tail that is not on the device yet, settles, writes
    /// the two blocks of the front, of which the first begins with the header, and settles. After an error the store reads
    /// as before, and the call may be repeated. The first two blocks of the file are as before then, or the levels on the
    /// device were settled with every cell before any of the two was written, and block 0 is as before or the file has
    /// every cell behind it.
    pub fn flush(&mut self, header: &[u8; 512]) -> Result<(), DeviceFault>
        ensures flushed { OnOk result (FlushesFile D.Device self.old self.new header.now) }
        ensures reads { SameReads (held_of D.bytes self.old) (held_of D.bytes self.new) }
        ensures order { StoreFrontLast D.Device self.old self.new }
        ensures settles { OnOk result (StoreSettlesTwice D.Device self.old self.new) }
        ensures behind { StoreKeepsBehind D.Device self.old self.new }
        ensures geometry { self.new.geometry ≡ self.old.geometry }
        ensures cache { self.new.buffers.cache.blocks ≡ self.old.buffers.cache.blocks }
        ensures kept { D.kept (device_of self.new) ≡ D.kept (device_of self.old) }
        ensures ticked { self.new.ticked ≡ self.old.ticked }
        ensures counts { StoreCalled D.Device self.old self.new
            0 (self.old.geometry.bottom + 3) 2 result }
    {
        flush_parts(
            &mut self.buffers,
            &self.geometry,
            &self.front,
            &mut self.shadows,
            &self.tails,
            header,
        )
    }
}
