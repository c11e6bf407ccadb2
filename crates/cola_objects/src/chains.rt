//! Chains of four runs, each with the sample of the next: made by a number, and the worked one.
ghost use Rattle.std.specs.Prelude.{◌≡◌, length, IfOk};

use crate::rows::{Row, Stretch, What, rows_of};
use cola_plain_runs::cells::{PlainCell, PlainItem, PlainPart};
use cola_plain_runs::weave::{sample, weave};
use std::alloc::{AllocError, Global};

/// A number that looks drawn at random.
fn mixed(seed: u32, level: u32, key: u32) -> u32 {
    let mixed = (seed
        .wrapping_mul(31)
        .wrapping_add(level)
        .wrapping_mul(37)
        .wrapping_add(key))
    .wrapping_mul(2_654_435_761);
    mixed / 65_536
}

/// At most so many items of even keys from 2 to 68, some of them tombstones.
fn made_items(alloc: Global, seed: u32, level: u8, room: usize) -> Result<Vec<Row>, AllocError> {
    let mut items = Vec::new(alloc);
    for half in 1..35u8 {
        let drawn = mixed(seed, level as u32, half as u32);
        if drawn % 4 != 0 && items.len() < room {
            let item = if drawn % 7 == 0 {
                PlainItem::Tombstone
            } else {
                PlainItem::Value(half + 40 * (level % 4))
            };
            items.push(PlainCell::Entry {
                key: 2 * half,
                item,
                young: drawn % 2 == 0,
                link: 0,
            })?;
        }
    }
    Ok(items)
}

/// A level's run: its items, at most so many, with the sample of the run below.
fn made_run(
    alloc: Global,
    seed: u32,
    level: u8,
    room: usize,
    below: &Vec<Row>,
) -> Result<Vec<Row>, AllocError> {
    let items = made_items(alloc, seed, level, room)?;
    let keys = sample(alloc, below.as_slice())?;
    let none: [Row; 0] = [];
    let part = PlainPart {
        only_young: false,
        marks_young: true,
        drops_tombstones: false,
    };
    if items.len() > 40 || keys.len() > 40 {
        return Ok(items);
    }
    weave(alloc, &part, &none, items.as_slice(), keys.as_slice())
}

/// Four runs in a list.
fn four(
    alloc: Global,
    zero: Vec<Row>,
    one: Vec<Row>,
    two: Vec<Row>,
    three: Vec<Row>,
) -> Result<Vec<Vec<Row>>, AllocError>
    ensures { IfOk result (λ chain. length chain.items ≡ 4) }
{
    let mut chain = Vec::new(alloc);
    chain.push(zero)?;
    chain.push(one)?;
    chain.push(two)?;
    chain.push(three)?;
    Ok(chain)
}

/// The runs of levels 0 to 3 that a number makes, of even keys up to 68.
pub fn made_chain(alloc: Global, seed: u32) -> Result<Vec<Vec<Row>>, AllocError>
    ensures { IfOk result (λ chain. length chain.items ≡ 4) }
{
    let three = made_run(alloc, seed, 3, 32, &Vec::new(alloc))?;
    let two = made_run(alloc, seed, 2, 12, &three)?;
    let one = made_run(alloc, seed, 1, 6, &two)?;
    let zero = made_run(alloc, seed, 0, 3, &one)?;
    four(alloc, zero, one, two, three)
}

const LEVEL_0: [Stretch; 2] = [(21, 3, What::Old(53), 0), (32, 1, What::Look, 0)];

const LEVEL_1: [Stretch; 3] = [
    (9, 1, What::Look, 0),
    (15, 6, What::Old(47), 8),
    (32, 1, What::Look, 8),
];

const LEVEL_2: [Stretch; 6] = [
    (3, 6, What::Old(35), 0),
    (8, 1, What::Look, 0),
    (9, 6, What::Old(41), 8),
    (16, 1, What::Look, 8),
    (24, 1, What::Look, 16),
    (32, 1, What::Look, 24),
];

const LEVEL_3: [Stretch; 2] = [(1, 2, What::Old(33), 0), (3, 30, What::Old(3), 0)];

/// The visible runs of a store for thirty-two keys after fifty-five puts of them in turn.
pub fn worked_chain(alloc: Global) -> Result<Vec<Vec<Row>>, AllocError>
    ensures { IfOk result (λ chain. length chain.items ≡ 4) }
{
    let zero = rows_of(alloc, &LEVEL_0)?;
    let one = rows_of(alloc, &LEVEL_1)?;
    let two = rows_of(alloc, &LEVEL_2)?;
    let three = rows_of(alloc, &LEVEL_3)?;
    four(alloc, zero, one, two, three)
}
