//! Cells as their bytes.
ghost use Rattle.std.specs.Prelude.{◌≡◌, ◌≤◌, ◌<◌, ◌%◌, ◌^◌, ◌↔◌, ℕ, List, length, take, drop, slice_index, IsTrue, IsFalse, false, if◌then◌else◌};
ghost use Rattle.std.specs.Bool.{MatchBool};
ghost use Rattle.std.specs.Ordering.{nat_cmp};
ghost use Rattle.std.specs.Cmp.Lexicographic.{slice_cmp};
ghost use Rattle.byteorder.specs.Endian.{little_bytes};
ghost use Rattle.cola_cell.specs.declared.cell.Cell.{Cell};
ghost use Rattle.cola_cell.specs.declared.format.Format.{Format};
ghost use Rattle.cola_cell.specs.Bytes.{padded, Fills};
ghost use Rattle.cola_cell.specs.Cell.{key_of, link_of, value_of, stamp_of};
ghost use Rattle.cola_cell.specs.Format.{width, key_limit, CellFits};
ghost use Rattle.cola_cell.specs.Order.{key_cmp};
ghost use Rattle.cola_cell.specs.Decoded.{standing, spelling};
ghost use Rattle.cola_cell.specs.Packed.{is_look, is_tombstone, is_young, item_of, renewed, passed, MayPass};
ghost use Rattle.cola_cell.specs.Spelling.{part, key_at, value_at, IsSpelling, IsNoSpelling, Decodes};

use crate::cell::{Cell, Item};
use crate::format::Format;
use crate::key::{Key, words_cmp};
use crate::short::is_filled;
use crate::spelling::{encode_in, is_kind, put, put_stamp, stamp_in, zeros};
use crate::value::Value;
use byteorder::{ByteOrder, LittleEndian};
use std::cmp::Ordering;
use std::marker::Model;

/// What becomes of a cell that a merge passes on: the item with this youth and link, or a lookahead cell of its key.
#[derive(Clone, Copy, Debug, PartialEq, Eq, Drop)]
pub enum Pass {
    Item { young: bool, link: u32 },
    Look { link: u32 },
}

impl Pass {
    /// As which the cell is passed on unchanged.
    pub fn keeping(cell: &Cell) -> Pass
        ensures same { passed result cell.now ≡ cell.now }
        ensures may { MayPass result cell.now }
    {
        match cell {
            Cell::Item { young, link, .. } => Pass::Item {
                young: *young,
                link: *link,
            },
            Cell::Look { link, .. } => Pass::Look { link: *link },
        }
    }
}

/// A cell in memory that is its bytes in a format. A contract sees the cell.
#[derive(Drop)]
pub struct Packed {
    format: Format,
    bytes: [u8; 128],
}

impl Model for Packed {
    ghost use Rattle.std.specs.Prelude.{take};
    ghost use Rattle.cola_cell.specs.declared.cell.Cell.{Cell};
    ghost use Rattle.cola_cell.specs.Format.{width};
    ghost use Rattle.cola_cell.specs.Decoded.{standing};
    ghost use Rattle.cola_cell.specs.Spelling.{IsSpelling};

    ghost Value = { Cell };

    ghost view = { λ p. standing p.format (take (width p.format) p.bytes) };

    ghost invariant = { λ p. IsSpelling p.format (standing p.format (take (width p.format) p.bytes)) (take (width p.format) p.bytes) };
}

impl Packed {
    /// The cell that the bytes spell in the format; none exactly on invalid bytes.
    #[inline]
    pub fn of(format: Format, bytes: &[u8]) -> Option<Packed>
        requires { length bytes.now ≡ width format }
        ensures { Decodes format bytes.now result }
    {
        if !is_cell(format, bytes) {
            return None;
        }
        let mut room = [0u8; 128];
        room[..bytes.len()].copy_from_slice(bytes);
        Some(Packed {
            format,
            bytes: room,
        })
    }

    /// A room for a cell that is still to be read: any cell.
    pub fn blank() -> Packed {
        let mut bytes = [0u8; 128];
        bytes[0] = 2;
        bytes[2] = 1;
        Packed {
            format: Format::One,
            bytes,
        }
    }

    /// The cell, packed.
    pub fn of_cell(format: Format, cell: &Cell) -> Packed
        requires { CellFits format cell.now }
        ensures { result ≡ cell.now }
    {
        let mut bytes = [0u8; 128];
        encode_in(format, cell, &mut bytes[..format.width()]);
        Packed { format, bytes }
    }

    /// The order of its key and this one.
    #[inline]
    pub fn key_cmp(&self, key: &Key) -> Ordering
        ensures { result ≡ key_cmp (key_of self.now) key.now }
    {
        key_cmp_in(self.format, &self.bytes[..self.format.width()], key)
    }

    /// The order of the keys of two cells.
    #[inline]
    pub fn cmp_keys(&self, other: &Packed) -> Ordering
        ensures { result ≡ key_cmp (key_of self.now) (key_of other.now) }
    {
        let format = self.format;
        if is_same(format, other.format) {
            let width = format.width();
            return cmp_keys_in(format, &self.bytes[..width], &other.bytes[..width]);
        }
        self.key_cmp(&other.key())
    }

    /// Its key.
    #[inline]
    pub fn key(&self) -> Key
        ensures { result ≡ key_of self.now }
    {
        key_in(self.format, &self.bytes[..self.format.width()])
    }

    /// Its link.
    #[inline]
    pub fn link(&self) -> u32
        ensures { result ≡ link_of self.now }
    {
        link_in(self.format, &self.bytes[..self.format.width()])
    }

    /// Whether it is a lookahead cell.
    #[inline]
    pub fn is_look(&self) -> bool
        ensures { result ≡ is_look self.now }
    {
        is_look_in(self.format, &self.bytes[..self.format.width()])
    }

    /// Whether it is a tombstone.
    #[inline]
    pub fn is_tombstone(&self) -> bool
        ensures { result ≡ is_tombstone self.now }
    {
        is_tombstone_in(self.format, &self.bytes[..self.format.width()])
    }

    /// Whether it is a young item.
    #[inline]
    pub fn is_young(&self) -> bool
        ensures { result ≡ is_young self.now }
    {
        is_young_in(self.format, &self.bytes[..self.format.width()])
    }

    /// The item with this youth and link.
    #[inline]
    fn with(&self, young: bool, link: u32) -> Packed
        requires { is_look self.now ≡ false }
        ensures value { result ≡ renewed young link self.now }
        ensures fits { (format : Format) → CellFits format self.now → CellFits format result }
    {
        let mut renewed = self.copy();
        renewed.set(young, link);
        renewed
    }

    /// Its item, if it has one.
    #[inline]
    pub fn item(&self) -> Option<Item>
        ensures { result ≡ item_of self.now }
    {
        item_in(self.format, &self.bytes[..self.format.width()])
    }

    /// The cell, unpacked.
    pub fn cell(&self) -> Cell
        ensures { result ≡ self.now }
    {
        let key = self.key();
        let link = self.link();
        match self.item() {
            Some(item) => Cell::Item {
                key,
                item,
                young: self.is_young(),
                link,
            },
            None => Cell::Look { key, link },
        }
    }

    /// Writes the cell in the format, in the one way that it has there.
    #[inline(always)]
    pub fn write(&self, format: Format, into: &mut [u8])
        requires size { length into.old ≡ width format }
        requires fits { CellFits format self.now }
        ensures { IsSpelling format self.now into.new }
    {
        if is_same(format, self.format) {
            copy_in(format, &self.bytes[..self.format.width()], into);
        } else {
            self.write_other(format, into);
        }
    }

    /// Writes the cell in another format than its own.
    #[inline(never)]
    fn write_other(&self, format: Format, into: &mut [u8])
        requires size { length into.old ≡ width format }
        requires fits { CellFits format self.now }
        ensures { IsSpelling format self.now into.new }
    {
        encode_in(format, &self.cell(), into);
    }

    /// Gives the item this youth and link.
    #[inline]
    fn set(&mut self, young: bool, link: u32)
        requires { is_look self.old ≡ false }
        ensures value { self.new ≡ renewed young link self.old }
        ensures fits { (format : Format) → CellFits format self.old → CellFits format self.new }
    {
        put_start(youth(young), link, &mut self.bytes);
    }

    /// Takes the cell that the bytes spell in the format in its place. False exactly on invalid bytes, and then it stays.
    #[inline(always)]
    pub fn refill(&mut self, format: Format, bytes: &[u8]) -> bool
        requires { length bytes.now ≡ width format }
        ensures cell { MatchBool result (IsSpelling format self.new bytes.now)
            (IsNoSpelling format bytes.now) }
        ensures stays { IsFalse result → self.new ≡ self.old }
    {
        if !is_cell(format, bytes) {
            return false;
        }
        copy_in(format, bytes, &mut self.bytes[..format.width()]);
        self.format = format;
        true
    }

    /// Takes another cell in its place. Only the bytes of its format are copied.
    #[inline(always)]
    pub fn copy_from(&mut self, other: &Packed)
        ensures { self.new ≡ other.now }
    {
        let format = other.format;
        let width = format.width();
        copy_in(format, &other.bytes[..width], &mut self.bytes[..width]);
        self.format = format;
    }

    /// Takes what becomes of another cell in its place. Only the bytes of its format are copied.
    #[inline(always)]
    pub fn take_as(&mut self, other: &Packed, pass: Pass)
        requires { MayPass pass other.now }
        ensures value { self.new ≡ passed pass other.now }
        ensures fits { (format : Format) → CellFits format other.now → CellFits format self.new }
    {
        match pass {
            Pass::Item { young, link } => {
                self.copy_from(other);
                self.set(young, link);
            }
            Pass::Look { link } => self.take_look(other, link),
        }
    }

    /// Takes the lookahead cell of the key of another cell with this link in its place.
    fn take_look(&mut self, other: &Packed, link: u32)
        ensures value { self.new ≡ Cell.Look (key_of other.now) link }
        ensures fits { (format : Format) → CellFits format other.now → CellFits format self.new }
    {
        let format = other.format;
        let width = format.width();
        look_in(
            format,
            &other.bytes[..width],
            link,
            &mut self.bytes[..width],
        );
        self.format = format;
    }

    /// Writes the item with this youth and link in the format.
    #[inline(always)]
    pub fn write_renewed(&self, format: Format, young: bool, link: u32, into: &mut [u8])
        requires size { length into.old ≡ width format }
        requires item { is_look self.now ≡ false }
        requires fits { CellFits format self.now }
        ensures { IsSpelling format (renewed young link self.now) into.new }
    {
        self.write(format, into);
        put_start(youth(young), link, into);
    }

    /// Writes the lookahead cell of its key with this link in the format.
    #[inline(always)]
    pub fn write_look(&self, format: Format, link: u32, into: &mut [u8])
        requires size { length into.old ≡ width format }
        requires fits { CellFits format self.now }
        ensures { IsSpelling format (Cell.Look (key_of self.now) link) into.new }
    {
        if is_same(format, self.format) {
            look_in(format, &self.bytes[..self.format.width()], link, into);
        } else {
            self.write_other_look(format, link, into);
        }
    }

    /// Writes the lookahead cell of its key in another format than its own.
    #[inline(never)]
    fn write_other_look(&self, format: Format, link: u32, into: &mut [u8])
        requires size { length into.old ≡ width format }
        requires fits { CellFits format self.now }
        ensures { IsSpelling format (Cell.Look (key_of self.now) link) into.new }
    {
        let key = self.key();
        encode_in(format, &Cell::Look { key, link }, into);
    }

    /// Writes in the format what becomes of the cell.
    #[inline(always)]
    pub fn write_as(&self, format: Format, pass: Pass, into: &mut [u8])
        requires size { length into.old ≡ width format }
        requires may { MayPass pass self.now }
        requires fits { CellFits format self.now }
        ensures { IsSpelling format (passed pass self.now) into.new }
    {
        match pass {
            Pass::Item { young, link } => self.write_renewed(format, young, link, into),
            Pass::Look { link } => self.write_look(format, link, into),
        }
    }

    /// What becomes of the cell.
    #[inline]
    pub fn copy_as(&self, pass: Pass) -> Packed
        requires { MayPass pass self.now }
        ensures value { result ≡ passed pass self.now }
        ensures fits { (format : Format) → CellFits format self.now → CellFits format result }
    {
        match pass {
            Pass::Item { young, link } => self.with(young, link),
            Pass::Look { link } => self.look(link),
        }
    }

    /// Does nothing: it says that the cell, where it fits a format, has a spelling there.
    #[inline(always)]
    pub fn know(&self, format: Format)
        requires { CellFits format self.now }
        ensures { IsSpelling format self.now (spelling format self.now) }
    {
        know_in(self.format, &self.bytes[..self.format.width()], format);
    }

    /// What becomes of the cell, unpacked.
    pub fn cell_as(&self, pass: Pass) -> Cell
        requires { MayPass pass self.now }
        ensures value { result ≡ passed pass self.now }
        ensures fits { (format : Format) → CellFits format self.now → CellFits format result }
    {
        match (pass, self.item()) {
            (Pass::Item { young, link }, Some(item)) => Cell::Item {
                key: self.key(),
                item,
                young,
                link,
            },
            (Pass::Item { link, .. }, None) | (Pass::Look { link }, _) => Cell::Look {
                key: self.key(),
                link,
            },
        }
    }

    /// A copy.
    #[inline]
    pub fn copy(&self) -> Packed
        ensures { result ≡ self.now }
    {
        Packed {
            format: self.format,
            bytes: self.bytes,
        }
    }

    /// The lookahead cell of its key with this link.
    fn look(&self, link: u32) -> Packed
        ensures value { result ≡ Cell.Look (key_of self.now) link }
        ensures fits { (format : Format) → CellFits format self.now → CellFits format result }
    {
        let key = self.key();
        fits_in(self.format, &self.bytes[..self.format.width()]);
        Packed::of_cell(self.format, &Cell::Look { key, link })
    }
}

/// Whether the bytes spell a cell in the format.
#[inline(always)]
pub fn is_cell(format: Format, bytes: &[u8]) -> bool
    requires { length bytes.now ≡ width format }
    ensures { MatchBool result (IsSpelling format (standing format bytes.now) bytes.now)
        (IsNoSpelling format bytes.now) }
{
    let key_room = &bytes[format.key_at()..format.value_at()];
    let value_room = &bytes[format.value_at()..format.width()];
    if bytes[2] == 0 || !is_filled(key_room, bytes[2]) || !is_filled(value_room, bytes[3]) {
        return false;
    }
    let stamp = match stamp_in(format, bytes) {
        Some(stamp) => stamp,
        None => return false,
    };
    if !is_kind(bytes[0], bytes[1], bytes[3], stamp) {
        return false;
    }
    true
}

/// The order of the key of the cell and this one.
#[inline(always)]
pub fn key_cmp_in(format: Format, bytes: &[u8], key: &Key) -> Ordering
    requires { IsSpelling format (standing format bytes.now) bytes.now }
    ensures { result ≡ key_cmp (key_of (standing format bytes.now)) key.now }
{
    let room = &bytes[format.key_at()..format.value_at()];
    let len = key.len();
    let whole = key.room(40);
    match words_cmp(room, &whole[..room.len()]) {
        Ordering::Equal => (bytes[2] as usize).cmp(&len),
        order => order,
    }
}

/// The order of the keys of two cells in one format.
#[inline(always)]
pub fn cmp_keys_in(format: Format, left: &[u8], right: &[u8]) -> Ordering
    requires left { IsSpelling format (standing format left.now) left.now }
    requires right { IsSpelling format (standing format right.now) right.now }
    ensures { result ≡ key_cmp (key_of (standing format left.now))
        (key_of (standing format right.now)) }
{
    let from = format.key_at();
    let to = format.value_at();
    match words_cmp(&left[from..to], &right[from..to]) {
        Ordering::Equal => left[2].cmp(&right[2]),
        order => order,
    }
}

/// The key of the cell.
#[inline(always)]
fn key_in(format: Format, bytes: &[u8]) -> Key
    requires { IsSpelling format (standing format bytes.now) bytes.now }
    ensures { result ≡ key_of (standing format bytes.now) }
{
    Key::of_room(&bytes[format.key_at()..format.value_at()], bytes[2])
}

/// The link of the cell.
#[inline(always)]
pub fn link_in(format: Format, bytes: &[u8]) -> u32
    requires { IsSpelling format (standing format bytes.now) bytes.now }
    ensures { result ≡ link_of (standing format bytes.now) }
{
    LittleEndian::read_u32(&bytes[4..8])
}

/// The value of the cell, none where it has none.
#[inline(always)]
fn value_in(format: Format, bytes: &[u8]) -> Value
    requires { IsSpelling format (standing format bytes.now) bytes.now }
    ensures { result ≡ value_of (standing format bytes.now) }
{
    Value::of_room(&bytes[format.value_at()..format.width()], bytes[3])
}

/// The stamp of the cell, 0 where it has none.
#[inline(always)]
fn stamp_there(format: Format, bytes: &[u8]) -> u64
    requires { IsSpelling format (standing format bytes.now) bytes.now }
    ensures { result ≡ stamp_of (standing format bytes.now) }
{
    match format {
        Format::One => 0,
        Format::Two => LittleEndian::read_u64(&bytes[8..16]),
    }
}

/// The item of the cell, if it has one.
#[inline(always)]
pub fn item_in(format: Format, bytes: &[u8]) -> Option<Item>
    requires { IsSpelling format (standing format bytes.now) bytes.now }
    ensures { result ≡ item_of (standing format bytes.now) }
{
    if bytes[0] == 0 {
        let value = value_in(format, bytes);
        let stamp = stamp_there(format, bytes);
        return Some(Item::Value { value, stamp });
    }
    if bytes[0] == 1 {
        return Some(Item::Tombstone);
    }
    None
}

/// Whether the cell is a lookahead cell.
#[inline(always)]
pub fn is_look_in(format: Format, bytes: &[u8]) -> bool
    requires { IsSpelling format (standing format bytes.now) bytes.now }
    ensures { result ≡ is_look (standing format bytes.now) }
{
    bytes[0] == 2
}

/// Whether the cell is a tombstone.
#[inline(always)]
pub fn is_tombstone_in(format: Format, bytes: &[u8]) -> bool
    requires { IsSpelling format (standing format bytes.now) bytes.now }
    ensures { result ≡ is_tombstone (standing format bytes.now) }
{
    bytes[0] == 1
}

/// Whether the cell is a young item.
#[inline(always)]
pub fn is_young_in(format: Format, bytes: &[u8]) -> bool
    requires { IsSpelling format (standing format bytes.now) bytes.now }
    ensures { result ≡ is_young (standing format bytes.now) }
{
    bytes[1] == 1
}

/// Does nothing: the cell that bytes spell fits the format.
#[inline(always)]
fn fits_in(format: Format, bytes: &[u8])
    requires { IsSpelling format (standing format bytes.now) bytes.now }
    ensures { CellFits format (standing format bytes.now) }
{}

/// Does nothing: it says that the cell, where it fits another format, has a spelling there.
#[inline(always)]
fn know_in(own: Format, bytes: &[u8], format: Format)
    requires spelled { IsSpelling own (standing own bytes.now) bytes.now }
    requires fits { CellFits format (standing own bytes.now) }
    ensures { IsSpelling format (standing own bytes.now)
        (spelling format (standing own bytes.now)) }
{}

/// Writes the lookahead cell of the key of a cell.
#[inline(always)]
pub fn look_in(format: Format, from: &[u8], link: u32, into: &mut [u8])
    requires spelled { IsSpelling format (standing format from.now) from.now }
    requires size { length into.old ≡ width format }
    ensures { IsSpelling format (Cell.Look (key_of (standing format from.now)) link) into.new }
{
    let mut number = [0u8; 4];
    LittleEndian::write_u32(&mut number, link);
    put(into, 0, &[2, 0, from[2], 0]);
    put(into, 4, &number);
    put_stamp(format, 0, into);
    put(
        into,
        format.key_at(),
        &from[format.key_at()..format.value_at()],
    );
    put(into, format.value_at(), zeros(format.value_limit()));
}

/// Writes the item of a cell with this youth and link.
#[inline(always)]
pub fn renew_in(format: Format, from: &[u8], young: bool, link: u32, into: &mut [u8])
    requires spelled { IsSpelling format (standing format from.now) from.now }
    requires item { is_look (standing format from.now) ≡ false }
    requires size { length into.old ≡ width format }
    ensures { IsSpelling format (renewed young link (standing format from.now)) into.new }
{
    copy_in(format, from, into);
    put_start(youth(young), link, into);
}

/// Writes the youth and the link of a cell.
#[inline(always)]
fn put_start(young: u8, link: u32, bytes: &mut [u8])
    requires { 8 ≤ length bytes.old }
    ensures size { length bytes.new ≡ length bytes.old }
    ensures kind { slice_index bytes.new 0 ≡ slice_index bytes.old 0 }
    ensures young { slice_index bytes.new 1 ≡ young }
    ensures key { slice_index bytes.new 2 ≡ slice_index bytes.old 2 }
    ensures value { slice_index bytes.new 3 ≡ slice_index bytes.old 3 }
    ensures link { part 4 8 bytes.new ≡ little_bytes 4 link }
    ensures rest { drop 8 bytes.new ≡ drop 8 bytes.old }
{
    bytes[1] = young;
    LittleEndian::write_u32(&mut bytes[4..8], link);
}

/// The byte of youth.
#[inline(always)]
fn youth(young: bool) -> u8
    ensures { result ≡ (if young then 1 else 0) }
{
    young as u8
}

/// Whether two formats are the same.
#[inline(always)]
fn is_same(first: Format, second: Format) -> bool
    ensures { IsTrue result ↔ first ≡ second }
{
    first == second
}

/// Copies the bytes of a cell.
#[inline(always)]
fn copy_in(format: Format, from: &[u8], into: &mut [u8])
    requires from { length from.now ≡ width format }
    requires into { length into.old ≡ width format }
    ensures { into.new ≡ from.now }
{
    match format {
        Format::One => copy_narrow(from, into),
        Format::Two => copy_wide(from, into),
    }
}

/// Copies 64 bytes.
#[inline(always)]
fn copy_narrow(from: &[u8], into: &mut [u8])
    requires from { length from.now ≡ 64 }
    requires into { length into.old ≡ 64 }
    ensures { into.new ≡ from.now }
{
    into[..64].copy_from_slice(&from[..64]);
}

/// Copies 128 bytes.
#[inline(always)]
fn copy_wide(from: &[u8], into: &mut [u8])
    requires from { length from.now ≡ 128 }
    requires into { length into.old ≡ 128 }
    ensures { into.new ≡ from.now }
{
    into[..128].copy_from_slice(&from[..128]);
}
