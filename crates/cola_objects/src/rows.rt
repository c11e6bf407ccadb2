//! Cells whose keys and values are one byte, as plain cells, and tables of them.
ghost use Rattle.std.specs.Prelude.{IfSome};
ghost use Rattle.cola_cell.specs.declared.format.Format.TheVariants.{One};
ghost use Rattle.cola_cell.specs.Format.{CellFits, ItemFits, KeyFits};

use cola_cell::{Cell, Item, Key, Value};
use cola_plain_runs::cells::{PlainCell, PlainItem};
use std::alloc::{AllocError, Global};

/// A cell with a key and a value of one byte.
pub type Row = PlainCell<u8, u8>;

/// What stands at neighbouring keys of a run.
#[derive(Clone, Copy)]
pub enum What {
    /// Lookahead cells.
    Look,
    /// Old items, the first with this value and each next one with a value one greater.
    Old(u8),
    /// The same, young.
    Young(u8),
    /// Old tombstones.
    Deleted,
    /// Young tombstones.
    JustDeleted,
}

/// So many neighbouring keys of a run: the first key, how many, what stands there, and the link of all.
pub type Stretch = (u8, u8, What, u64);

/// The key of a byte.
pub fn key_of(byte: u8) -> Option<Key>
    ensures { IfSome result (KeyFits One) }
{
    Key::of(&[byte])
}

/// A pair of bytes as a key and its value.
pub fn pair_of(pair: (u8, u8)) -> Option<(Key, Value)> {
    Some((key_of(pair.0)?, Value::of(&[pair.1])?))
}

/// The item of a plain one, with stamp 0.
pub fn item_of(item: &PlainItem<u8>) -> Option<Item>
    ensures { IfSome result (ItemFits One) }
{
    match item {
        PlainItem::Value(byte) => {
            let value = Value::of(&[*byte])?;
            Some(Item::Value { value, stamp: 0 })
        }
        PlainItem::Tombstone => Some(Item::Tombstone),
    }
}

/// The cell that a row is; none where its link is too great.
pub fn cell_of(row: &Row) -> Option<Cell>
    ensures { IfSome result (CellFits One) }
{
    match row {
        PlainCell::Entry {
            key,
            item,
            young,
            link,
        } => {
            let key = key_of(*key)?;
            let link = u32::try_from(*link).ok()?;
            let item = item_of(item)?;
            Some(Cell::Item {
                key,
                item,
                young: *young,
                link,
            })
        }
        PlainCell::Look { key, link } => {
            let key = key_of(*key)?;
            let link = u32::try_from(*link).ok()?;
            Some(Cell::Look { key, link })
        }
    }
}

/// The row of a stretch at a distance from its first key.
fn row_of(stretch: &Stretch, at: u8) -> Row {
    let (first, _, what, link) = *stretch;
    let key = first.wrapping_add(at);
    let (item, young) = match what {
        What::Look => return PlainCell::Look { key, link },
        What::Old(value) => (PlainItem::Value(value.wrapping_add(at)), false),
        What::Young(value) => (PlainItem::Value(value.wrapping_add(at)), true),
        What::Deleted => (PlainItem::Tombstone, false),
        What::JustDeleted => (PlainItem::Tombstone, true),
    };
    PlainCell::Entry {
        key,
        item,
        young,
        link,
    }
}

/// The rows of stretches, one behind the other.
pub fn rows_of(alloc: Global, stretches: &[Stretch]) -> Result<Vec<Row>, AllocError> {
    let mut rows = Vec::new(alloc);
    for stretch in stretches {
        for at in 0..stretch.1 {
            rows.push(row_of(stretch, at))?;
        }
    }
    Ok(rows)
}
