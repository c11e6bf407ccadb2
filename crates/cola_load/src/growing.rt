//! The map of a closed file, copied into a new file for another number of keys.
ghost use Rattle.std.specs.Prelude.{◌≡◌, ◌⊎◌, ◌+◌, ◌-◌, ◌≤◌, ◌<◌, List, ℕ, [], ◌∷◌, length, All, IfSome, IfOk, OnOk, IsTrue, IsFalse, None, MatchOption, option_map};
ghost use Rattle.cola_cell.specs.Held.{Held};
ghost use Rattle.cola_cell.specs.Places.{slot_size};
ghost use Rattle.cola_cell.specs.Format.{stamp_limit};
ghost use Rattle.cola_clock.specs.Clock.{visible_slot};
ghost use Rattle.cola_cursor.specs.Lines.{Reading, all_left};
ghost use Rattle.cola_cursor.specs.Seeking.{LevelsRise, range_ticks};
ghost use Rattle.cola_cursor.specs.Standing.{Stands};
ghost use Rattle.cola_device.specs.Bytes.{HasRange};
ghost use Rattle.cola_device.specs.Settling.{IsSettled};
ghost use Rattle.cola_layout.specs.Geometry.{AreKeys};
ghost use Rattle.cola_layout.specs.Marks.{numbers_of, marks_of};
ghost use Rattle.cola_look.specs.Runs.{HasRun};
ghost use Rattle.cola_opening.specs.Counted.{Spends};
ghost use Rattle.cola_run.specs.Cells.{device_levels, file_bytes};
ghost use Rattle.cola_run.specs.Store.{beside, device_of};
ghost use Rattle.cola_load.specs.Filled.{Row};
ghost use Rattle.cola_load.specs.Loading.{HoldsRows, full_blocks};
ghost use Rattle.cola_load.specs.Growing.{runs_in, least, Breaks, Admits, IsFillingOf, IsCopied, CopiesNext, CopiesAll, Walks, BothCalm, WritesNext, WritesRows, unread_as};
ghost use Rattle.cola_load.specs.Grow.{Suits, IsFor, Copies, Grows, IsSpent, refused_as, unbegun_as};

use crate::fault::{GrowFault, LoadFault};
use crate::loader::Loader;
use arrayvec::ArrayVec;
use cola_cell::{CellSource, Format, Key, MOST_LEVELS, ReadFault, Run, Value};
use cola_clock::visible_slot;
use cola_cursor::Cursor;
use cola_device::Device;
use cola_layout::{Geometry, Header, Marks};
use cola_opening::{ClosedFault, read_closed};
use cola_outside::Steps;
use cola_run::RunStore;
use std::alloc::Global;
use std::sync::ledger::Ledger;

/// How far a new file is filled: for which store, with which last number, with how many rows, and the key of the last of them.
#[derive(Clone, Copy, Debug, Drop)]
pub(crate) struct Filling {
    pub geometry: Geometry,
    pub last: u64,
    pub rows: u64,
    pub key: Option<Key>,
}

impl Filling {
    ghost use Rattle.std.specs.Prelude.{◌≡◌, ◌+◌, ◌<◌, ◌≤◌, IsTrue, IsFalse, Some};
    ghost use Rattle.cola_load.specs.Growing.{Breaks, Admits};

    /// Whether a row may be pushed next.
    fn admits(&self, key: &Key, value: &Value, stamp: u64) -> bool
        requires { self.now.rows ≤ self.now.geometry.keys }
        ensures yes { IsTrue result →
            Admits self.now (record { key = key.now; value = value.now; stamp = stamp }) }
        ensures no { IsFalse result → Breaks self.now.geometry self.now.last
            self.now.rows self.now.key
            (record { key = key.now; value = value.now; stamp = stamp }) }
    {
        if self.rows == self.geometry.keys {
            return false;
        }
        if !key.fits(self.geometry.format) {
            return false;
        }
        if !value.fits(self.geometry.format) {
            return false;
        }
        if stamp > self.last {
            return false;
        }
        match &self.key {
            Some(before) => before.cmp(key).is_lt(),
            None => true,
        }
    }

    /// With one row more.
    fn with(&self, key: &Key) -> Filling
        requires { self.now.rows < self.now.geometry.keys }
        ensures geometry { result.geometry ≡ self.now.geometry }
        ensures last { result.last ≡ self.now.last }
        ensures rows { result.rows ≡ self.now.rows + 1 }
        ensures key { result.key ≡ Some key.now }
    {
        Filling {
            geometry: self.geometry,
            last: self.last,
            rows: self.rows + 1,
            key: Some(*key),
        }
    }
}

/// The marks of a level.
fn marks_at(header: &Header, level: u8) -> Marks
    requires { level ≤ header.now.geometry.bottom }
    ensures value { result ≡ marks_of header.now.levels.items level }
    ensures visible { result.visible ≤ slot_size level }
{
    header.levels[level as usize]
}

/// In which slot the visible run of a level stands.
fn visible_at(header: &Header, level: u8) -> u8
    requires { level ≤ header.now.geometry.bottom }
    ensures value { result ≡ visible_slot header.now.clock level }
    ensures within { result < 2 }
{
    visible_slot(header.clock, level)
}

/// The visible runs of a file by its header, from level 0 on.
fn visible_runs(header: &Header) -> ArrayVec<Run, MOST_LEVELS>
    ensures runs { result.items ≡ runs_in header.now }
    ensures has { (held : Held) → held.fixed.levels ≡ header.now.geometry.bottom + 1 →
        All (HasRun held) result.items }
    ensures rise { LevelsRise 0 result.items }
{
    let mut runs = ArrayVec::new();
    for level in 0..header.geometry.levels() {
        runs.push(Run {
            level,
            slot: visible_at(header, level),
            len: marks_at(header, level).visible,
        });
    }
    runs
}

/// The least key: the one byte 0.
fn least_key() -> Key
    ensures { result ≡ least }
{
    match Key::of(&[0u8]) {
        Some(key) => key,
        None => unreachable!(),
    }
}

/// The geometry of a new file, which there is.
fn geometry_for(keys: u64, block_exp: u8, format: Format) -> Geometry
    requires keys { AreKeys keys }
    requires block { Suits keys block_exp }
    ensures { IsFor keys block_exp format result }
{
    match Geometry::of_format(keys, block_exp, format) {
        Ok(geometry) => geometry,
        Err(_) => unreachable!(),
    }
}

/// Why nothing is copied where the header is not found.
fn refused(fault: ClosedFault) -> GrowFault
    ensures { result ≡ refused_as fault }
{
    match fault {
        ClosedFault::NotStore => GrowFault::NotStore,
        ClosedFault::Small => GrowFault::Small,
        ClosedFault::NotClosed => GrowFault::NotClosed,
        ClosedFault::Device => GrowFault::Device,
    }
}

/// Why a cell is not read.
fn unread(fault: ReadFault) -> GrowFault
    ensures { result ≡ unread_as fault }
{
    match fault {
        ReadFault::BadCell(number) => GrowFault::BadCell(number),
        ReadFault::Device => GrowFault::Device,
    }
}

/// Why the new file is not begun.
fn unbegun(fault: LoadFault) -> GrowFault
    ensures { result ≡ unbegun_as fault }
{
    match fault {
        LoadFault::NotEmpty => GrowFault::NotEmpty,
        LoadFault::OutOfMemory => GrowFault::OutOfMemory,
        LoadFault::Device => GrowFault::Device,
    }
}

/// Copies the next pair of a walk, if there is one.
fn copy_next<W: CellSource, E: Device, L: Ledger>(
    work: &mut W,
    cursor: &mut Cursor,
    to: &mut E,
    loader: &mut Loader,
    filling: &Filling,
    steps: &mut Steps<L>,
) -> Result<Option<Filling>, GrowFault>
    requires stands { Stands (W.state work.old).held cursor.old }
    requires filling { IsFillingOf filling.now loader.old }
    requires few { filling.now.rows ≤ filling.now.geometry.keys }
    requires inside { HasRange (E.bytes to.old) 0 (file_bytes filling.now.geometry) }
    ensures copies { (begun : Cursor) (rows : List Row) →
        IsCopied (W.state work.old).held begun cursor.old loader.old (E.bytes to.old) rows →
        CopiesNext (W.state work.old).held begun filling.now.geometry filling.now.last rows
        cursor.new loader.new (E.bytes to.new) result }
    ensures next { IfOk result (λ more. IfSome more (λ next. next.rows ≡ filling.now.rows + 1)) }
    ensures same { IfOk result (λ more. IfSome more (λ next.
        (next.geometry ≡ filling.now.geometry) × (next.last ≡ filling.now.last))) }
    ensures room { IfOk result (λ more.
        IfSome more (λ next. next.rows ≤ filling.now.geometry.keys)) }
    ensures stands { OnOk result (Stands (W.state work.new).held cursor.new) }
    ensures left { OnOk result (steps.new + all_left cursor.new.lines.items
        ≤ steps.old + all_left cursor.old.lines.items) }
    ensures at_most { steps.new ≤ steps.old + all_left cursor.old.lines.items }
    ensures reading { Reading (W.state work.old) (W.state work.new) steps.old steps.new }
    ensures faults { BothCalm (W.state work.old).spent.faults (W.state work.new).spent.faults
        (E.counts to.old).faults (E.counts to.new).faults result }
    ensures cells_stay { (W.state work.new).held ≡ (W.state work.old).held }
    ensures kept { W.kept work.new ≡ W.kept work.old }
    ensures writes { WritesNext filling.now (E.counts to.old) (E.counts to.new) result }
    ensures stays { IfOk result (λ more.
        MatchOption more (loader.new ≡ loader.old) (λ next. Unit {0})) }
    ensures other_kept { E.kept to.new ≡ E.kept to.old }
{
    let (key, value, stamp) = match cursor.next_stamped(work, steps) {
        Ok(Some(pair)) => pair,
        Ok(None) => return Ok(None),
        Err(fault) => return Err(unread(fault)),
    };
    if !filling.admits(&key, &value, stamp) {
        return Err(GrowFault::Disorder(filling.rows + 1));
    }
    match loader.push(to, &key, &value, stamp) {
        Ok(()) => Ok(Some(filling.with(&key))),
        Err(_) => Err(GrowFault::Device),
    }
}

/// Copies all pairs of a walk, and answers how many there are.
fn copy_all<W: CellSource, E: Device, L: Ledger>(
    work: &mut W,
    cursor: &mut Cursor,
    to: &mut E,
    loader: &mut Loader,
    begun: &Filling,
    steps: &mut Steps<L>,
) -> Result<u64, GrowFault>
    requires stands { Stands (W.state work.old).held cursor.old }
    requires filling { IsFillingOf begun.now loader.old }
    requires none { begun.now.rows ≡ 0 }
    requires no_key { begun.now.key ≡ None }
    requires holds { IfSome (E.bytes to.old) (λ bytes. HoldsRows loader.old bytes []) }
    ensures copies { CopiesAll (W.state work.old).held cursor.old begun.now.geometry begun.now.last
        cursor.new loader.new (E.bytes to.new) result }
    ensures geometry { OnOk result (loader.new.geometry ≡ begun.now.geometry) }
    ensures last { OnOk result (loader.new.last ≡ begun.now.last) }
    ensures at_most { steps.new ≤ steps.old + all_left cursor.old.lines.items }
    ensures reading { Reading (W.state work.old) (W.state work.new) steps.old steps.new }
    ensures faults { BothCalm (W.state work.old).spent.faults (W.state work.new).spent.faults
        (E.counts to.old).faults (E.counts to.new).faults result }
    ensures cells_stay { (W.state work.new).held ≡ (W.state work.old).held }
    ensures kept { W.kept work.new ≡ W.kept work.old }
    ensures writes { WritesRows begun.now.geometry (E.counts to.old) (E.counts to.new) 0 0 result }
    ensures other_kept { E.kept to.new ≡ E.kept to.old }
{
    let mut filling = *begun;
    while let Some(next) = copy_next(work, cursor, to, loader, &filling, steps)? {
        filling = next;
    }
    Ok(filling.rows)
}

/// Fills a file with the pairs of runs.
fn fill<W: CellSource, E: Device, L: Ledger>(
    work: &mut W,
    runs: &ArrayVec<Run, MOST_LEVELS>,
    to: &mut E,
    loader: Loader,
    begun: &Filling,
    steps: &mut Steps<L>,
) -> Result<u64, GrowFault>
    requires runs { All (HasRun (W.state work.old).held) runs.now.items }
    requires levels { LevelsRise 0 runs.now.items }
    requires filling { IsFillingOf begun.now loader }
    requires none { begun.now.rows ≡ 0 }
    requires no_key { begun.now.key ≡ None }
    requires holds { IfSome (E.bytes to.old) (λ bytes. HoldsRows loader bytes []) }
    ensures walks { Walks (W.state work.old).held runs.now.items begun.now.geometry begun.now.last
        (E.counts to.old) (E.counts to.new) (E.bytes to.new) result }
    ensures settled { OnOk result (IsSettled E.Device to.new) }
    ensures at_most { steps.new ≤ steps.old + range_ticks (W.state work.old).held.fixed.levels }
    ensures reading { Reading (W.state work.old) (W.state work.new) steps.old steps.new }
    ensures faults { BothCalm (W.state work.old).spent.faults (W.state work.new).spent.faults
        (E.counts to.old).faults (E.counts to.new).faults result }
    ensures kept { W.kept work.new ≡ W.kept work.old }
    ensures writes { WritesRows begun.now.geometry (E.counts to.old) (E.counts to.new)
        (device_levels begun.now.geometry + 2) 2 result }
    ensures other_kept { E.kept to.new ≡ E.kept to.old }
{
    let mut loader = loader;
    let mut cursor = match Cursor::seek(work, runs, &least_key(), None, steps) {
        Ok(cursor) => cursor,
        Err(fault) => return Err(unread(fault)),
    };
    match copy_all(work, &mut cursor, to, &mut loader, begun, steps) {
        Ok(_) => match loader.finish(to) {
            Ok(rows) => Ok(rows),
            Err(_) => Err(GrowFault::Device),
        },
        Err(fault) => Err(fault),
    }
}

/// Loads the cells of a file, and copies its pairs into a new file with this geometry.
fn copy_store<D: Device, E: Device, L: Ledger>(
    alloc: Global,
    runs: &mut RunStore<D>,
    to: &mut E,
    header: &Header,
    geometry: Geometry,
    steps: &mut Steps<L>,
) -> Result<u64, GrowFault>
    requires same { header.now.geometry ≡ runs.old.geometry }
    requires format { geometry.format ≡ header.now.geometry.format }
    requires few { header.now.count ≤ geometry.keys }
    ensures copies { Copies E.Device header.now geometry (D.bytes (device_of runs.old))
        to.old to.new result }
    ensures faults { BothCalm (D.counts (device_of runs.old)).faults
        (D.counts (device_of runs.new)).faults
        (E.counts to.old).faults (E.counts to.new).faults result }
    ensures spent { IsSpent D.Device E.Device (device_of runs.old)
        (device_of runs.new) to.old to.new steps.old steps.new
        0 header.now.geometry.bottom geometry result }
    ensures beside_stays { option_map (beside header.now.geometry)
        (D.bytes (device_of runs.new))
        ≡ option_map (beside header.now.geometry) (D.bytes (device_of runs.old)) }
    ensures kept { D.kept (device_of runs.new) ≡ D.kept (device_of runs.old) }
    ensures other_kept { E.kept to.new ≡ E.kept to.old }
{
    match runs.load(header) {
        Ok(()) => {}
        Err(fault) => return Err(unread(fault)),
    }
    match Loader::begin(alloc, to, geometry, header.last) {
        Ok(loader) => {
            let begun = Filling {
                geometry,
                last: header.last,
                rows: 0,
                key: None,
            };
            fill(runs, &visible_runs(header), to, loader, &begun, steps)
        }
        Err(fault) => Err(unbegun(fault)),
    }
}

/// Takes the memory for a file's cells, and copies its pairs into a new file with this geometry.
fn copy_file<D: Device, E: Device, L: Ledger>(
    alloc: Global,
    from: D,
    to: &mut E,
    header: &Header,
    geometry: Geometry,
    steps: &mut Steps<L>,
) -> (D, Result<u64, GrowFault>)
    requires inside { HasRange (D.bytes from) 0 (file_bytes header.now.geometry) }
    requires format { geometry.format ≡ header.now.geometry.format }
    requires few { header.now.count ≤ geometry.keys }
    ensures copies { Copies E.Device header.now geometry (D.bytes from) to.old to.new result.1 }
    ensures faults { BothCalm (D.counts from).faults (D.counts result.0).faults
        (E.counts to.old).faults (E.counts to.new).faults result.1 }
    ensures spent { IsSpent D.Device E.Device from result.0 to.old to.new
        steps.old steps.new 0 header.now.geometry.bottom geometry result.1 }
    ensures beside_stays { option_map (beside header.now.geometry) (D.bytes result.0)
        ≡ option_map (beside header.now.geometry) (D.bytes from) }
    ensures kept { D.kept result.0 ≡ D.kept from }
    ensures other_kept { E.kept to.new ≡ E.kept to.old }
{
    let mut runs = match RunStore::new(alloc, from, header.geometry, 0) {
        Ok(runs) => runs,
        Err((from, _)) => return (from, Err(GrowFault::OutOfMemory)),
    };
    let answer = copy_store(alloc, &mut runs, to, header, geometry, steps);
    (runs.into_device(), answer)
}

/// Copies the map of a closed file into an empty device, as the file of a store for so many keys, with blocks of `2^block_exp`
/// cells, in the same format: the new file has the same keys, values and stamps, and the same last number. Answers how many
/// keys the map has.
///
/// In this order: the header of `from` is read, and it is `Small`, `NotStore`, `Small` or `NotClosed` as [`read_closed`] says;
/// `Fewer` where the new store is for fewer keys than the file has; memory for the cells of `from` is taken, or `OutOfMemory`;
/// blocks 0 and 1 and the ends of its shadows are read; the size of `to` is asked, and `NotEmpty` where it is not 0; memory for
/// the new file is taken, or `OutOfMemory`; it is laid out; the pairs of the visible runs are read by rising keys and pushed.
///
/// `BadCell` where the bytes of a cell that is read spell none. `Disorder` where a pair is not above the one before it, is one
/// more than the new store is for, has a stamp above the last number of `from`, or does not fit the format: no file that
/// stands for a map has one. `Device` where one of the two refused a call.
///
/// After `BadCell` the new file was not called, or was empty and has no header: its first 512 bytes are zero. After `Disorder` it
/// was empty and has none. After `Device` it was not called, kept its bytes where it refused to tell its size, has any bytes, and
/// was not written, where it refused to be laid out, has no header where the call was refused before the last row was pushed, and
/// behind that as [`Loader::finish`] says: only by a fault of its own device in the layout or behind the last row may it have a
/// header. After `NotEmpty` and `OutOfMemory` it keeps its bytes and was asked for its size at most; after the other refusals
/// it was not called. One that had a byte keeps its bytes, whatever is answered. `from` is not written, and comes back. As many
/// ticks are made at most as by a range over all.
pub fn grow<D: Device, E: Device, L: Ledger>(
    alloc: Global,
    from: D,
    to: &mut E,
    keys: u64,
    block_exp: u8,
    steps: &mut Steps<L>,
) -> (D, Result<u64, GrowFault>)
    requires keys { AreKeys keys }
    requires block { Suits keys block_exp }
    ensures grows { Grows D.Device E.Device from result.0 to.old to.new
        steps.old steps.new keys block_exp result.1 }
    ensures no_write { (D.counts result.0).writes ≡ (D.counts from).writes }
    ensures kept { D.kept result.0 ≡ D.kept from }
    ensures other_kept { E.kept to.new ≡ E.kept to.old }
{
    let mut from = from;
    let header = match read_closed(&mut from) {
        Ok(header) => header,
        Err(fault) => return (from, Err(refused(fault))),
    };
    if keys < header.count {
        let count = header.count;
        return (from, Err(GrowFault::Fewer(count)));
    }
    let geometry = geometry_for(keys, block_exp, header.geometry.format);
    copy_file(alloc, from, to, &header, geometry, steps)
}
