//! The cells of a file as plain ones.

ghost use Rattle.std.specs.Prelude.{◌≡◌, ◌↔◌, ℕ, List, IsTrue, IfOk};
ghost use Rattle.cola_cell.specs.Held.{as_cell, as_item};
ghost use Rattle.cola_plain_runs.specs.Runs.{as_cell as plain_as_cell, as_item as plain_as_item, as_run};
ghost use Rattle.cola_plain_files.specs.Levels.{found_cells};

use cola_cell::{Cell, Item, Key, Value};
use cola_plain_runs::cells::{PlainCell, PlainItem};
use std::alloc::{AllocError, Global};
use std::marker::Model;

/// A value with its stamp.
#[derive(Clone, Copy)]
pub struct PlainValue {
    pub value: Value,
    pub stamp: u64,
}

impl Model for PlainValue {
    ghost use Rattle.std.specs.Prelude.{◌<◌, ◌^◌};
    ghost use Rattle.cola_cell.specs.Held.{Stamped};

    ghost Value = { Stamped };

    ghost view = { λ v. record { value = v.value; stamp = v.stamp } };

    ghost invariant = { λ v. v.stamp < 2 ^ 64 };

    ghost inverse = { λ v. record { value = v.value; stamp = v.stamp } };
}

/// The stamp of a value.
pub fn stamp_of(value: &PlainValue) -> u64
    ensures { result ≡ value.now.stamp }
{
    value.stamp
}

/// A cell of a run of a file.
pub type FileCell = PlainCell<Key, PlainValue>;

/// The item as a plain one.
fn plain_item(item: &Item) -> PlainItem<PlainValue>
    ensures { plain_as_item result ≡ as_item item.now }
{
    match item {
        Item::Value { value, stamp } => PlainItem::Value(PlainValue {
            value: *value,
            stamp: *stamp,
        }),
        Item::Tombstone => PlainItem::Tombstone,
    }
}

/// The cell as a plain one.
fn plain_cell(cell: &Cell) -> FileCell
    ensures { plain_as_cell result ≡ as_cell cell.now }
{
    match cell {
        Cell::Item {
            key,
            item,
            young,
            link,
        } => PlainCell::Entry {
            key: *key,
            item: plain_item(item),
            young: *young,
            link: u64::from(*link),
        },
        Cell::Look { key, link } => PlainCell::Look {
            key: *key,
            link: u64::from(*link),
        },
    }
}

/// The cells that were found, as plain ones.
pub fn plain_run(alloc: Global, found: &[Option<Cell>]) -> Result<Vec<FileCell>, AllocError>
    ensures { IfOk result (λ run. as_run run.items ≡ found_cells found.now) }
{
    let _item: Option<PlainItem<PlainValue>> = None;
    let mut run = Vec::new(alloc);
    for place in found {
        if let Some(cell) = place {
            run.push(plain_cell(cell))?;
        }
    }
    Ok(run)
}

/// Whether two items are the same.
pub fn is_same_item(item: &PlainItem<PlainValue>, other: &PlainItem<PlainValue>) -> bool
    ensures { IsTrue result ↔ plain_as_item item.now ≡ plain_as_item other.now }
{
    match (item, other) {
        (PlainItem::Value(value), PlainItem::Value(second)) => {
            value.value == second.value && value.stamp == second.stamp
        }
        (PlainItem::Tombstone, PlainItem::Tombstone) => true,
        _ => false,
    }
}

/// Whether two cells are the same.
pub fn is_same_cell(cell: &FileCell, other: &FileCell) -> bool
    ensures { IsTrue result ↔ plain_as_cell cell.now ≡ plain_as_cell other.now }
{
    match (cell, other) {
        (
            PlainCell::Entry {
                key,
                item,
                young,
                link,
            },
            PlainCell::Entry {
                key: second,
                item: its_item,
                young: its_flag,
                link: its_link,
            },
        ) => {
            key == second && is_same_item(item, its_item) && young == its_flag && link == its_link
        }
        (
            PlainCell::Look { key, link },
            PlainCell::Look {
                key: second,
                link: its_link,
            },
        ) => key == second && link == its_link,
        _ => false,
    }
}

/// Whether two runs are the same.
pub fn is_same_run(run: &[FileCell], other: &[FileCell]) -> bool
    ensures { IsTrue result ↔ as_run run.now ≡ as_run other.now }
{
    let _item: Option<PlainItem<PlainValue>> = None;
    if run.len() != other.len() {
        return false;
    }
    for (i, cell) in run.iter().enumerate() {
        if !is_same_cell(cell, &other[i]) {
            return false;
        }
    }
    true
}
