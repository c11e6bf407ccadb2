//! How many levels and cells a store has, and where each cell stands.

ghost use Rattle.std.specs.Prelude.{◌≡◌, ◌<◌, ◌≤◌, ◌^◌, ◌+◌, ◌-◌, min, ℕ, IfOk, IfErr};
ghost use Rattle.cola_layout.specs.Geometry.{IsBottom, AreKeys, IsBlock, Refuses};
ghost use Rattle.cola_cell.specs.Places.{number_of};

use crate::fault::LayoutFault;
use cola_cell::Format;

/// The sizes of a store, in cells: it is for `keys` keys, has the levels 0 to `bottom`, and its blocks have `2^block_exp`
/// cells of the width of its format.
#[derive(Clone, Copy, Debug, PartialEq, Eq, Drop)]
pub struct Geometry {
    pub keys: u64,
    pub block_exp: u8,
    pub bottom: u8,
    pub format: Format,
    pub ghost keys_in_range: { AreKeys keys },
    pub ghost bottom_fits: { IsBottom keys bottom },
    pub ghost block_fits: { IsBlock block_exp bottom },
    pub ghost shallow: { bottom ≤ 22 },
}

impl Geometry {
    /// The geometry of a store in format One for so many keys, with blocks of `2^block_exp` cells. `Keys` where there are
    /// no keys or more than `2^24`, else `Block` where `block_exp` is below 3, above 9 or above the lowest level plus 2.
    pub fn of(keys: u64, block_exp: u8) -> Result<Geometry, LayoutFault>
        ensures keys { IfOk result (λ g. g.keys ≡ keys) }
        ensures block { IfOk result (λ g. g.block_exp ≡ block_exp) }
        ensures format { IfOk result (λ g. g.format ≡ Format.One) }
        ensures refused { IfErr result (λ fault. Refuses keys block_exp fault) }
    {
        Geometry::of_format(keys, block_exp, Format::One)
    }

    /// The same in the format that is asked for.
    pub fn of_format(keys: u64, block_exp: u8, format: Format) -> Result<Geometry, LayoutFault>
        ensures keys { IfOk result (λ g. g.keys ≡ keys) }
        ensures block { IfOk result (λ g. g.block_exp ≡ block_exp) }
        ensures format { IfOk result (λ g. g.format ≡ format) }
        ensures refused { IfErr result (λ fault. Refuses keys block_exp fault) }
    {
        if keys == 0 || keys > 1 << 24 {
            return Err(LayoutFault::Keys);
        }
        let bottom = bottom_of(keys);
        if block_exp < 3 || block_exp > 9.min(bottom + 2) {
            return Err(LayoutFault::Block);
        }
        Ok(Geometry {
            keys,
            block_exp,
            bottom,
            format,
        })
    }

    /// The number of levels, 4 to 23.
    pub fn levels(&self) -> u8
        ensures value { result ≡ self.now.bottom + 1 }
        ensures bound { result ≤ 23 }
    {
        self.bottom + 1
    }

    /// The number of cells of the store's file, the header's 8 among them.
    pub fn cells(&self) -> u64
        ensures value { result ≡ 2 ^ (self.now.bottom + 4) }
        ensures bound { result ≤ 2 ^ 26 }
    {
        1 << (self.bottom + 4)
    }

    /// The number of levels of the front: the levels below this number are in blocks 0 and 1, behind the header, and in
    /// memory while the store is open. The others are on the device.
    pub fn front_levels(&self) -> u8
        ensures value { result ≡ self.now.block_exp - 2 }
        ensures some { 1 ≤ result }
        ensures within { result ≤ self.now.bottom }
    {
        self.block_exp - 2
    }

    /// The number of the cell at an index of a slot of a level. Level j has two slots, 0 and 1, of `2^(j+2)` cells each.
    pub fn place(&self, level: u8, slot: u8, index: u32) -> u64
        requires level_exists { level ≤ self.now.bottom }
        requires slot_exists { slot ≤ 1 }
        requires index_exists { index < 2 ^ (level + 2) }
        ensures value { result ≡ number_of level slot index }
        ensures behind_header { 8 ≤ result }
        ensures within { result < 2 ^ (self.now.bottom + 4) }
    {
        cell_at(level, slot, index)
    }
}

/// The number of the cell at an index of a slot of a level.
fn cell_at(level: u8, slot: u8, index: u32) -> u64
    requires level_in_range { level ≤ 22 }
    requires slot_exists { slot ≤ 1 }
    requires index_exists { index < 2 ^ (level + 2) }
    ensures { result ≡ number_of level slot index }
{
    ((2 + u64::from(slot)) << (level + 2)) + u64::from(index)
}

/// The lowest level of a store for so many keys.
fn bottom_of(keys: u64) -> u8
    requires some { 1 ≤ keys }
    requires few { keys ≤ 2 ^ 24 }
    ensures is { IsBottom keys result }
    ensures shallow { result ≤ 22 }
{
    let exponent = u64::BITS - (keys - 1).leading_zeros();
    (exponent.max(5) - 2) as u8
}
