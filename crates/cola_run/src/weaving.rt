//! The bytes of runs where they lie, as a device lends them or a buffer has them, and a merge or a search over them.
ghost use Rattle.std.specs.Prelude.{◌≡◌, ◌≢◌, ℕ, ◌+◌, ◌*◌, ◌^◌, ◌≤◌, ◌<◌, Bool, true, false, List, Option, None, Some, is_some, IfSome, Result, Err, OnOk, IsOk, length};
ghost use Rattle.cola_cell.specs.declared.cell.Cell.{Cell};
ghost use Rattle.cola_cell.specs.declared.fault.ReadFault.{ReadFault};
ghost use Rattle.cola_cell.specs.declared.fault.ReadFault.TheVariants.{Device};
ghost use Rattle.cola_cell.specs.Flat.{shadow_at};
ghost use Rattle.cola_cell.specs.Places.{slot_size};
ghost use Rattle.cola_cell.specs.Format.{width};
ghost use Rattle.cola_cell.specs.Windows.{AreSpelled, IsReach, Weaves, grown};
ghost use Rattle.cola_device.specs.Bytes.{part};
ghost use Rattle.cola_front.specs.Front.{FrontCells};
ghost use Rattle.cola_run.specs.Cells.{IsOnDevice, block_bytes, block_cells, device_levels, file_blocks, tails_bytes};
ghost use Rattle.cola_run.specs.Store.{kept_of, reader_number, state_of};
ghost use Rattle.cola_run.specs.Turns.{buffer_index, IsReadAfter, OnlyTurns};
ghost use Rattle.cola_run.specs.Weaving.{IsRunHere, IsBelow, IsInFront, IsFound, IsTurnedTo, HasWindow, HaveWindows, AreAtHand, PutInFront, WoveBelow, WoveInFront, RunsBelow, RunsInFront, ScansThere, SearchTurns, as_read, room_cells, is_at_hand};

use crate::device_cells::{cells_of_slot, set_shadow, shadow_of};
use crate::run_store::RunStore;
use crate::tails::{block_at, cells_of_block, place_in_tails};
use cola_cache::Buffers;
use cola_cell::{
    Passed, Reach, ReadFault, Reader, Shadow, Window, WindowMerge, WindowSearch, tick_all,
};
use cola_device::{Device, DeviceFault};
use cola_front::Front;
use cola_layout::Geometry;
use cola_outside::Steps;
use std::sync::ledger::Ledger;

/// How many bytes of cells a merge puts into the front at once: 32 cells, or 16 of format Two.
pub(crate) const FRONT_ROOM: usize = 2048;

/// Which of the three buffers of a level a reader has.
#[inline]
fn number_of_reader(reader: Reader) -> usize
    ensures { result ≡ reader_number reader }
{
    match reader {
        Reader::Own => 0,
        Reader::Incoming => 1,
        Reader::Sample => 2,
    }
}

/// The buffer of a reader at a level on the device, or that of searches.
#[inline]
pub(crate) fn buffer_of(geometry: &Geometry, reader: Option<Reader>, level: u8) -> usize
    requires { IsOnDevice geometry.now level }
    ensures { result ≡ buffer_index geometry.now reader level }
{
    match reader {
        Some(reader) => {
            1 + 3 * (level + 2 - geometry.block_exp) as usize + number_of_reader(reader)
        }
        None => 0,
    }
}

/// So many cells of a block, from one on.
#[inline(always)]
fn cells_in(block: &[u8], at: usize, count: usize, width: usize) -> &[u8]
    requires { at * width + count * width ≤ length block.now }
    ensures { result.now ≡ part block.now (at * width) (count * width) }
{
    let at = at * width;
    &block[at..at + count * width]
}

/// The bytes of a run from an index on, in the block that a buffer holds, which is that of the cell there: as many as lie in it.
#[inline(always)]
fn window_held<'a, D: Device>(
    buffers: &'a Buffers<D>,
    geometry: &Geometry,
    reader: Option<Reader>,
    reach: Reach,
) -> Window<'a>
    requires some { reach.from < reach.run.len }
    requires there { IsRunHere geometry.now reach }
    requires whole { geometry.now.block_exp ≤ reach.run.level + 2 }
    requires size { buffers.now.cache.size ≡ block_bytes geometry.now }
    requires buffers { length buffers.now.lasts ≡ 1 + 3 * device_levels geometry.now }
    requires turned { IsTurnedTo geometry.now buffers.now.lasts reader reach }
    ensures { IsBelow false (D.bytes buffers.now.cache.device) geometry.now reach result.bytes.now result.is_last }
{
    let Reach { run, from } = reach;
    let block = cells_of_block(geometry);
    let at = from % block;
    let ahead = run.len - from;
    let count = ahead.min(block - at);
    let bytes = cells_in(
        buffers.copy(buffer_of(geometry, reader, run.level)),
        at as usize,
        count as usize,
        geometry.format.width(),
    );
    let is_last = count == ahead;
    Window { bytes, is_last }
}

/// The bytes of a run from an index on, in the block that a buffer holds; none where that is another block.
#[inline(always)]
fn window_in_block<'a, D: Device>(
    buffers: &'a Buffers<D>,
    geometry: &Geometry,
    reader: Option<Reader>,
    reach: Reach,
) -> Option<Window<'a>>
    requires some { reach.from < reach.run.len }
    requires there { IsRunHere geometry.now reach }
    requires whole { geometry.now.block_exp ≤ reach.run.level + 2 }
    requires size { buffers.now.cache.size ≡ block_bytes geometry.now }
    requires buffers { length buffers.now.lasts ≡ 1 + 3 * device_levels geometry.now }
    ensures found { IfSome result (λ window. IsBelow false (D.bytes buffers.now.cache.device) geometry.now reach window.bytes.now window.is_last) }
    ensures none { result ≡ None → IsTurnedTo geometry.now buffers.now.lasts reader reach → ⊥ }
{
    let Reach { run, from } = reach;
    let buffer = buffer_of(geometry, reader, run.level);
    if !buffers.holds(buffer, block_at(geometry, run.level, run.slot, from)) {
        return None;
    }
    Some(window_held(buffers, geometry, reader, reach))
}

/// The bytes of a run of the front from an index on.
#[inline(always)]
fn window_in_front<'a>(front: &'a Front, geometry: &Geometry, reach: Reach) -> Window<'a>
    requires some { reach.from < reach.run.len }
    requires there { IsRunHere geometry.now reach }
    requires level { reach.run.level + 2 < geometry.now.block_exp }
    requires block { front.now.block ≡ block_cells geometry.now }
    ensures { IsInFront front.now reach result.bytes.now result.is_last }
{
    let Reach { run, from } = reach;
    let bytes = front.window(geometry.place(run.level, run.slot, from), run.len - from);
    let is_last = true;
    Window { bytes, is_last }
}

/// The bytes of a run on the device from an index on, where the device lends them: all.
#[inline(always)]
fn window_lent<'a, D: Device>(
    buffers: &'a Buffers<D>,
    geometry: &Geometry,
    reach: Reach,
) -> Option<Window<'a>>
    requires some { reach.from < reach.run.len }
    requires there { IsRunHere geometry.now reach }
    requires whole { geometry.now.block_exp ≤ reach.run.level + 2 }
    requires size { buffers.now.cache.size ≡ block_bytes geometry.now }
    requires many { buffers.now.many ≡ file_blocks geometry.now }
    ensures found { IfSome result (λ window. IsBelow D.lends (D.bytes buffers.now.cache.device) geometry.now reach window.bytes.now window.is_last) }
    ensures lent { is_some result ≡ true → D.lends ≡ true }
    ensures none { result ≡ None → D.lends ≡ false }
{
    let count = reach.run.len - reach.from;
    let width = geometry.format.width();
    let number = geometry.place(reach.run.level, reach.run.slot, reach.from);
    let bytes = buffers.lent(number * width as u64, count as usize * width)?;
    let is_last = true;
    Some(Window { bytes, is_last })
}

/// The bytes of a run on the device from an index on: all, where the device lends them, and else those in the block that a
/// reader's buffer holds; none where that is another block.
#[inline(always)]
fn window_below<'a, D: Device>(
    buffers: &'a Buffers<D>,
    geometry: &Geometry,
    reader: Option<Reader>,
    reach: Reach,
) -> Option<Window<'a>>
    requires some { reach.from < reach.run.len }
    requires there { IsRunHere geometry.now reach }
    requires whole { geometry.now.block_exp ≤ reach.run.level + 2 }
    requires size { buffers.now.cache.size ≡ block_bytes geometry.now }
    requires many { buffers.now.many ≡ file_blocks geometry.now }
    requires buffers { length buffers.now.lasts ≡ 1 + 3 * device_levels geometry.now }
    ensures found { IfSome result (λ window. IsBelow D.lends (D.bytes buffers.now.cache.device) geometry.now reach window.bytes.now window.is_last) }
    ensures none { result ≡ None → HasWindow D.lends geometry.now buffers.now.lasts reader reach → ⊥ }
{
    match window_lent(buffers, geometry, reach) {
        Some(window) => Some(window),
        None => window_in_block(buffers, geometry, reader, reach),
    }
}

/// The bytes of cells of a run from an index on, where they can be looked at.
#[inline(always)]
fn window_of<'a, D: Device>(
    front: &'a Front,
    buffers: &'a Buffers<D>,
    geometry: &Geometry,
    reader: Option<Reader>,
    reach: Reach,
) -> Option<Window<'a>>
    requires there { reach.from < reach.run.len → IsRunHere geometry.now reach }
    requires block { front.now.block ≡ block_cells geometry.now }
    requires size { buffers.now.cache.size ≡ block_bytes geometry.now }
    requires many { buffers.now.many ≡ file_blocks geometry.now }
    requires buffers { length buffers.now.lasts ≡ 1 + 3 * device_levels geometry.now }
    ensures found { IfSome result (λ window. IsFound D.lends (D.bytes buffers.now.cache.device) geometry.now front.now reach window.bytes.now window.is_last) }
    ensures none { result ≡ None → HasWindow D.lends geometry.now buffers.now.lasts reader reach → ⊥ }
{
    if reach.from >= reach.run.len {
        let bytes: &'a [u8] = &[];
        let is_last = true;
        return Some(Window { bytes, is_last });
    }
    if reach.run.level + 2 < geometry.block_exp {
        return Some(window_in_front(front, geometry, reach));
    }
    window_below(buffers, geometry, reader, reach)
}

/// The bytes of a run from a cell on where no buffer has to be turned: those of the front, and of a device that lends them.
#[inline(always)]
fn window_at_once<'a, D: Device>(
    front: &'a Front,
    buffers: &'a Buffers<D>,
    geometry: &Geometry,
    reach: Reach,
) -> Option<Window<'a>>
    requires some { reach.from < reach.run.len }
    requires there { IsRunHere geometry.now reach }
    requires block { front.now.block ≡ block_cells geometry.now }
    requires size { buffers.now.cache.size ≡ block_bytes geometry.now }
    requires many { buffers.now.many ≡ file_blocks geometry.now }
    ensures found { IfSome result (λ window. IsFound D.lends (D.bytes buffers.now.cache.device) geometry.now front.now reach window.bytes.now window.is_last) }
    ensures lent { is_some result ≡ true → geometry.now.block_exp ≤ reach.run.level + 2 → D.lends ≡ true }
    ensures whole { result ≡ None → geometry.now.block_exp ≤ reach.run.level + 2 }
    ensures none { result ≡ None → D.lends ≡ false }
{
    if reach.run.level + 2 < geometry.block_exp {
        return Some(window_in_front(front, geometry, reach));
    }
    window_lent(buffers, geometry, reach)
}

/// Turns the buffer of searches to the block of a cell of a run on the device.
#[inline(always)]
fn turn_for_search<D: Device>(
    buffers: &mut Buffers<D>,
    geometry: &Geometry,
    reach: Reach,
) -> Result<(), DeviceFault>
    requires some { reach.from < reach.run.len }
    requires there { IsRunHere geometry.now reach }
    requires whole { geometry.now.block_exp ≤ reach.run.level + 2 }
    requires many { buffers.old.many ≡ file_blocks geometry.now }
    requires buffers { length buffers.old.lasts ≡ 1 + 3 * device_levels geometry.now }
    ensures turned { OnOk result (IsTurnedTo geometry.now buffers.new.lasts None reach) }
    ensures calm { IsTurnedTo geometry.now buffers.old.lasts None reach → (buffers.new ≡ buffers.old) × IsOk result }
    ensures turns { (answer : Result Cell ReadFault) → IsReadAfter result answer → SearchTurns D.counts D.lends geometry.now buffers.old buffers.new reach answer }
    ensures keeps { OnlyTurns D.Device buffers.old buffers.new }
{
    let Reach { run, from } = reach;
    let search = buffer_of(geometry, None, run.level);
    buffers.turn_to(search, block_at(geometry, run.level, run.slot, from))
}

/// Lets a search run over a window, the bytes of a run from a cell on. It is refused where the bytes of that cell spell none.
#[inline(always)]
fn search_in<S: WindowSearch>(
    geometry: &Geometry,
    reach: Reach,
    window: Window,
    search: &mut S,
    probe: &S::Probe,
) -> Result<u32, ReadFault>
    requires can { S.can search.old }
    requires some { reach.from < reach.run.len }
    requires there { IsRunHere geometry.now reach }
    ensures { (lends : Bool) (told : Option (List ℕ)) (front : FrontCells) → IsFound lends told geometry.now front reach window.entry.bytes.now window.entry.is_last →
        ScansThere S.sought lends told geometry.now front reach search.old search.new probe.now result }
{
    let accessed = search.seek(probe, geometry.format, window.bytes);
    if accessed == 0 {
        let Reach { run, from } = reach;
        return Err(ReadFault::BadCell(geometry.place(run.level, run.slot, from)));
    }
    Ok(accessed)
}

/// Lets a search run over the bytes of a run from a cell on. Where that is on a device that lends no bytes, the buffer of searches
/// is turned to its block.
#[inline(always)]
pub(crate) fn search_run<D: Device, S: WindowSearch>(
    front: &Front,
    buffers: &mut Buffers<D>,
    geometry: &Geometry,
    reach: Reach,
    search: &mut S,
    probe: &S::Probe,
) -> Result<u32, ReadFault>
    requires can { S.can search.old }
    requires some { reach.from < reach.run.len }
    requires there { IsRunHere geometry.now reach }
    requires block { front.now.block ≡ block_cells geometry.now }
    requires size { buffers.old.cache.size ≡ block_bytes geometry.now }
    requires many { buffers.old.many ≡ file_blocks geometry.now }
    requires buffers { length buffers.old.lasts ≡ 1 + 3 * device_levels geometry.now }
    ensures runs { result ≢ Err Device →
        ScansThere S.sought D.lends (D.bytes buffers.old.cache.device) geometry.now front.now reach search.old search.new probe.now result }
    ensures calm { HasWindow D.lends geometry.now buffers.old.lasts None reach → (buffers.new ≡ buffers.old) × (result ≢ Err Device) }
    ensures turns { (cell : Cell) → SearchTurns D.counts D.lends geometry.now buffers.old buffers.new reach (as_read cell result) }
    ensures keeps { OnlyTurns D.Device buffers.old buffers.new }
{
    if let Some(window) = window_at_once(front, buffers, geometry, reach) {
        return search_in(geometry, reach, window, search, probe);
    }
    match turn_for_search(buffers, geometry, reach) {
        Ok(()) => {
            let window = window_held(buffers, geometry, None, reach);
            search_in(geometry, reach, window, search, probe)
        }
        Err(_) => Err(ReadFault::Device),
    }
}

/// How many cells the shadow of a level takes before the push that fills a block.
#[inline]
fn cells_of_room(geometry: &Geometry, level: u8, len: u32) -> u32
    requires level { level ≤ 22 }
    requires len { len ≤ slot_size level }
    ensures { result ≡ room_cells geometry.now level len }
{
    let block = cells_of_block(geometry);
    (block - 1 - len % block).min(cells_of_slot(level) - len)
}

/// The shadow that is so many cells longer, and fills no block.
#[inline]
fn longer_by(shadow: Shadow, count: u32) -> Shadow
    requires { shadow.len + count < 2 ^ 32 }
    ensures { result ≡ grown count shadow }
{
    if count == 0 {
        return shadow;
    }
    Shadow {
        slot: shadow.slot,
        len: shadow.len + count,
        saved: false,
    }
}

/// Lets a merge run over the runs where their bytes lie, into the tail of a level on the device.
#[inline(always)]
fn weave_on_device<D: Device, M: WindowMerge>(
    front: &Front,
    buffers: &Buffers<D>,
    geometry: &Geometry,
    shadows: &mut [Shadow],
    tails: &mut [u8],
    level: u8,
    own: Reach,
    incoming: Reach,
    sample: Reach,
    merge: &mut M,
    job: &M::Job,
) -> Option<Passed>
    requires can { M.can merge.old job.now geometry.now.format }
    requires level { IsOnDevice geometry.now level }
    requires shadows { level < length shadows.old }
    requires within { (shadow_at shadows.old level).len ≤ slot_size level }
    requires own { own.from < own.run.len → IsRunHere geometry.now own }
    requires incoming { incoming.from < incoming.run.len → IsRunHere geometry.now incoming }
    requires sample { sample.from < sample.run.len → IsRunHere geometry.now sample }
    requires tails { length tails.old ≡ tails_bytes geometry.now }
    requires block { front.now.block ≡ block_cells geometry.now }
    requires size { buffers.now.cache.size ≡ block_bytes geometry.now }
    requires many { buffers.now.many ≡ file_blocks geometry.now }
    requires buffers { length buffers.now.lasts ≡ 1 + 3 * device_levels geometry.now }
    ensures wove { IfSome result (λ passed. WoveBelow M.wove D.lends (D.bytes buffers.now.cache.device) geometry.now front.now shadows.old shadows.new
        tails.old tails.new level own incoming sample merge.old merge.new job.now passed) }
    ensures still { result ≡ None → (shadows.new ≡ shadows.old) × (tails.new ≡ tails.old) × (merge.new ≡ merge.old) }
    ensures runs { HaveWindows D.lends geometry.now buffers.now.lasts own incoming sample → result ≡ None → ⊥ }
{
    let own = window_of(front, buffers, geometry, Some(Reader::Own), own)?;
    let incoming = window_of(front, buffers, geometry, Some(Reader::Incoming), incoming)?;
    let sample = window_of(front, buffers, geometry, Some(Reader::Sample), sample)?;
    let shadow = shadow_of(shadows, level);
    let width = geometry.format.width();
    let at = width * place_in_tails(geometry, level, shadow.len);
    let room = width * cells_of_room(geometry, level, shadow.len) as usize;
    let passed = merge.pass(
        job,
        geometry.format,
        own,
        incoming,
        sample,
        &mut tails[at..at + room],
    );
    set_shadow(shadows, level, longer_by(shadow, passed.cells));
    Some(passed)
}

/// Puts spelled cells behind the shadow of a level of the front.
fn put_woven(
    front: &mut Front,
    geometry: &Geometry,
    shadows: &mut [Shadow],
    level: u8,
    count: u32,
    cells: &[u8],
)
    requires level { level + 2 < geometry.now.block_exp }
    requires low { level ≤ geometry.now.bottom }
    requires shadows { level < length shadows.old }
    requires slot { (shadow_at shadows.old level).slot < 2 }
    requires room { (shadow_at shadows.old level).len + count ≤ slot_size level }
    requires format { front.old.format ≡ geometry.now.format }
    requires block { front.old.block ≡ block_cells geometry.now }
    requires size { count * width geometry.now.format ≤ length cells.now }
    requires spelled { AreSpelled geometry.now.format count cells.now }
    ensures { PutInFront geometry.now front.old front.new shadows.old shadows.new level count cells.now }
{
    if count == 0 {
        return;
    }
    let shadow = shadow_of(shadows, level);
    front.put_spelled(geometry.place(level, shadow.slot, shadow.len), count, cells);
    set_shadow(shadows, level, longer_by(shadow, count));
}

/// Lets a merge run over the runs where their bytes lie, by way of a room into a level of the front.
#[inline(always)]
fn weave_into_front<D: Device, M: WindowMerge>(
    front: &mut Front,
    buffers: &Buffers<D>,
    geometry: &Geometry,
    shadows: &mut [Shadow],
    bytes: &mut [u8; FRONT_ROOM],
    level: u8,
    own: Reach,
    incoming: Reach,
    sample: Reach,
    merge: &mut M,
    job: &M::Job,
) -> Option<Passed>
    requires can { M.can merge.old job.now geometry.now.format }
    requires level { level + 2 < geometry.now.block_exp }
    requires low { level ≤ geometry.now.bottom }
    requires shadows { level < length shadows.old }
    requires slot { (shadow_at shadows.old level).slot < 2 }
    requires within { (shadow_at shadows.old level).len ≤ slot_size level }
    requires own { own.from < own.run.len → IsRunHere geometry.now own }
    requires incoming { incoming.from < incoming.run.len → IsRunHere geometry.now incoming }
    requires sample { sample.from < sample.run.len → IsRunHere geometry.now sample }
    requires format { front.old.format ≡ geometry.now.format }
    requires block { front.old.block ≡ block_cells geometry.now }
    requires size { buffers.now.cache.size ≡ block_bytes geometry.now }
    requires many { buffers.now.many ≡ file_blocks geometry.now }
    requires buffers { length buffers.now.lasts ≡ 1 + 3 * device_levels geometry.now }
    ensures wove { IfSome result (λ passed. WoveInFront M.wove D.lends (D.bytes buffers.now.cache.device) geometry.now front.old front.new
        shadows.old shadows.new level own incoming sample merge.old merge.new job.now passed) }
    ensures still { result ≡ None → (front.new ≡ front.old) × (shadows.new ≡ shadows.old) × (merge.new ≡ merge.old) }
    ensures runs { HaveWindows D.lends geometry.now buffers.now.lasts own incoming sample → result ≡ None → ⊥ }
{
    let width = geometry.format.width();
    let len = shadow_of(shadows, level).len;
    let cells = (cells_of_room(geometry, level, len) as usize).min(FRONT_ROOM / width);
    let room = &mut bytes[..width * cells];
    let passed = merge.pass(
        job,
        geometry.format,
        window_of(front, buffers, geometry, Some(Reader::Own), own)?,
        window_of(front, buffers, geometry, Some(Reader::Incoming), incoming)?,
        window_of(front, buffers, geometry, Some(Reader::Sample), sample)?,
        room,
    );
    put_woven(front, geometry, shadows, level, passed.cells, room);
    Some(passed)
}

impl<D: Device> RunStore<D> {
    /// Whether the cells of a run that lie ahead are all in the front or on the device.
    #[inline]
    pub(crate) fn is_at_hand(&self, reach: Reach) -> bool
        requires level { reach.from < reach.run.len → reach.run.level < self.now.geometry.bottom + 1 }
        ensures { result ≡ is_at_hand self.now.geometry self.now.shadows reach }
    {
        if reach.from >= reach.run.len || reach.run.level + 2 < self.geometry.block_exp {
            return true;
        }
        let shadow = shadow_of(&self.shadows, reach.run.level);
        reach.run.slot != shadow.slot || shadow.saved
    }

    /// A merge over the bytes of runs that are at hand, into a level on the device.
    #[inline(always)]
    pub(crate) fn weave_below<M: WindowMerge, L: Ledger>(
        &mut self,
        level: u8,
        own: Reach,
        incoming: Reach,
        sample: Reach,
        merge: &mut M,
        job: &M::Job,
        steps: &mut Steps<L>,
    ) -> u32
        requires level { IsOnDevice self.old.geometry level }
        requires can { M.can merge.old job.now self.old.geometry.format }
        requires own { IsReach (state_of D.bytes D.counts self.old).held level own }
        requires incoming { IsReach (state_of D.bytes D.counts self.old).held level incoming }
        requires sample { IsReach (state_of D.bytes D.counts self.old).held level sample }
        requires there { AreAtHand self.old.geometry self.old.shadows own incoming sample }
        ensures kept { kept_of D.bytes D.counts D.kept self.new ≡ kept_of D.bytes D.counts D.kept self.old }
        ensures weaves { Weaves M.wove (state_of D.bytes D.counts self.old) (state_of D.bytes D.counts self.new) level own incoming sample
            merge.old merge.new job.now steps.old steps.new result }
        ensures runs { HaveWindows D.lends self.old.geometry self.old.buffers.lasts own incoming sample →
            RunsBelow M.wove D.lends (D.bytes self.old.buffers.cache.device) self.old.geometry self.old.front self.old.shadows self.new.shadows
            self.old.tails self.new.tails level own incoming sample merge.old merge.new job.now result }
    {
        let tails = &mut self.tails;
        let woven = weave_on_device(
            &self.front,
            &self.buffers,
            &self.geometry,
            &mut self.shadows,
            &mut tails.bytes,
            level,
            own,
            incoming,
            sample,
            merge,
            job,
        );
        match woven {
            Some(passed) => {
                self.ticked = self.ticked.wrapping_add(passed.ticks as u64);
                tick_all(steps, passed.ticks);
                passed.steps
            }
            None => 0,
        }
    }

    /// A merge over the bytes of runs that are at hand, into a level of the front.
    #[inline(always)]
    pub(crate) fn weave_in_front<M: WindowMerge, L: Ledger>(
        &mut self,
        level: u8,
        own: Reach,
        incoming: Reach,
        sample: Reach,
        merge: &mut M,
        job: &M::Job,
        steps: &mut Steps<L>,
    ) -> u32
        requires level { level + 2 < self.old.geometry.block_exp }
        requires low { level ≤ self.old.geometry.bottom }
        requires can { M.can merge.old job.now self.old.geometry.format }
        requires own { IsReach (state_of D.bytes D.counts self.old).held level own }
        requires incoming { IsReach (state_of D.bytes D.counts self.old).held level incoming }
        requires sample { IsReach (state_of D.bytes D.counts self.old).held level sample }
        requires there { AreAtHand self.old.geometry self.old.shadows own incoming sample }
        ensures kept { kept_of D.bytes D.counts D.kept self.new ≡ kept_of D.bytes D.counts D.kept self.old }
        ensures weaves { Weaves M.wove (state_of D.bytes D.counts self.old) (state_of D.bytes D.counts self.new) level own incoming sample
            merge.old merge.new job.now steps.old steps.new result }
        ensures runs { HaveWindows D.lends self.old.geometry self.old.buffers.lasts own incoming sample →
            RunsInFront M.wove D.lends (D.bytes self.old.buffers.cache.device) self.old.geometry self.old.front self.new.front
            self.old.shadows self.new.shadows level own incoming sample merge.old merge.new job.now result }
    {
        let woven = weave_into_front(
            &mut self.front,
            &self.buffers,
            &self.geometry,
            &mut self.shadows,
            self.room.as_mut(),
            level,
            own,
            incoming,
            sample,
            merge,
            job,
        );
        match woven {
            Some(passed) => {
                self.ticked = self.ticked.wrapping_add(passed.ticks as u64);
                tick_all(steps, passed.ticks);
                passed.steps
            }
            None => 0,
        }
    }
}
