//! A chain of a store over a device in memory: each of its calls refused in turn, and what it counts.
ghost use Rattle.std.specs.Prelude.{◌≡◌, ◌<◌, IfSome};
ghost use Rattle.cola_cell.specs.Format.{ItemFits, KeyFits};

use cola_cell::{CellSource, Format, Item, Key, Reader, Value};
use cola_chain::{Chain, Room};
use cola_device::{Device, MemoryDevice};
use cola_layout::{Geometry, Header};
use cola_outside::Steps;
use cola_run::RunStore;
use std::alloc::Global;
use std::marker::Brand;
use std::process::Abort;
use std::sync::ledger::{Blank, Ledger};

/// A key of one byte.
fn key_in(format: Format, key: u8) -> Option<Key>
    ensures { IfSome result (KeyFits format) }
{
    let key = Key::of(&[key])?;
    if key.fits(format) { Some(key) } else { None }
}

/// A number as a value of one byte.
fn item_in(format: Format, number: u8) -> Option<Item>
    ensures { IfSome result (ItemFits format) }
{
    let value = Value::of(&[number])?;
    if !value.fits(format) {
        return None;
    }
    Some(Item::Value { value, stamp: 0 })
}

/// One step: the key gets the number's item.
fn put<D: Device, L: Ledger>(
    chain: &mut Chain<D>,
    key: u8,
    number: u8,
    steps: &mut Steps<L>,
) -> Option<()> {
    let format = chain.runs().format();
    let key = key_in(format, key)?;
    let item = item_in(format, number)?;
    chain.step(&key, &item, steps).ok()
}

/// The chain of a store with this header over a device with these bytes, whose calls of these numbers fail; none where one
/// of them fails that loads it.
fn chain_of(
    alloc: Global,
    header: &Header,
    bytes: Vec<u8>,
    failing: Vec<u64>,
) -> Option<Chain<MemoryDevice>> {
    let geometry = header.geometry;
    if bytes.len() < geometry.format.width() * geometry.cells() as usize {
        return None;
    }
    let device = MemoryDevice::holding(bytes, failing);
    let mut runs = RunStore::new(alloc, device, geometry, 0).ok()?;
    let room = Room::new(alloc).ok()?;
    match runs.load(header) {
        Ok(()) => Some(Chain::new(runs, room, header)),
        Err(_) => None,
    }
}

/// The chain of a new store for thirty-two keys, in format One and blocks of eight cells.
fn new_chain(alloc: Global) -> Option<Chain<MemoryDevice>> {
    let geometry = Geometry::of_format(32, 3, Format::One).ok()?;
    let bytes = vec![in alloc; 0u8; geometry.format.width() * geometry.cells() as usize].ok()?;
    chain_of(alloc, &Header::empty(geometry), bytes, Vec::new(alloc))
}

/// The header of a chain and its file, which is asked for once more where it is refused.
fn closed(chain: Chain<MemoryDevice>) -> Option<(Header, Vec<u8>)> {
    let header = chain.header(0, true);
    let mut text = [0u8; 512];
    header.encode(&mut text);
    let mut runs = chain.into_runs();
    if runs.flush(&text).is_err() {
        runs.flush(&text).ok()?;
    }
    Some((header, runs.into_device().into_bytes()))
}

/// Forty-three puts of thirty-two keys in turn; whether none was refused.
fn put_all<D: Device, L: Ledger>(chain: &mut Chain<D>, steps: &mut Steps<L>) -> bool {
    for turn in 0..43u8 {
        if put(chain, turn % 32, turn + 1, steps).is_none() {
            return false;
        }
    }
    true
}

/// A chain after these puts: the shadow of level 3 has 23 cells, of which the last seven fill no block.
fn forty_three<L: Ledger>(alloc: Global, steps: &mut Steps<L>) -> Option<Chain<MemoryDevice>> {
    let mut chain = new_chain(alloc)?;
    if put_all(&mut chain, steps) {
        Some(chain)
    } else {
        None
    }
}

/// A put of the twelfth key, which is asked for once more where it is refused; whether it was made.
fn put_twice<D: Device, L: Ledger>(chain: &mut Chain<D>, steps: &mut Steps<L>) -> bool {
    put(chain, 11, 44, steps).is_some() || put(chain, 11, 44, steps).is_some()
}

/// The file after a put of the twelfth key, in a chain whose device refuses the call of this number, and the closing of the
/// chain. What is refused is asked for once more; none where it is refused then, or a call fails that loads the chain.
fn put_over_a_fault<L: Ledger>(
    alloc: Global,
    header: &Header,
    bytes: &[u8],
    number: u64,
    steps: &mut Steps<L>,
) -> Option<Vec<u8>> {
    let bytes = bytes.to_vec(alloc).ok()?;
    let mut chain = chain_of(alloc, header, bytes, vec![in alloc; number].ok()?)?;
    if !put_twice(&mut chain, steps) {
        return None;
    }
    match closed(chain) {
        Some(file) => Some(file.1),
        None => None,
    }
}

/// How many of the calls leave this file, where none leaves another.
fn count_same<L: Ledger>(
    alloc: Global,
    header: &Header,
    bytes: &[u8],
    whole: &[u8],
    steps: &mut Steps<L>,
) -> Option<u32> {
    let mut same = 0u32;
    for number in 1..60u64 {
        if let Some(file) = put_over_a_fault(alloc, header, bytes, number, steps) {
            if file.as_slice() != whole {
                return None;
            }
            same = same.wrapping_add(1);
        }
    }
    Some(same)
}

/// Whichever call of the device is refused: where what was refused is asked for again, the file is the same in the end. How
/// often that was so.
fn each_call_fails<L: Ledger>(alloc: Global, steps: &mut Steps<L>) -> Option<u32> {
    let (header, bytes) = closed(forty_three(alloc, steps)?)?;
    let whole = put_over_a_fault(alloc, &header, &bytes, 0, steps)?;
    count_same(alloc, &header, &bytes, &whole, steps)
}

/// What a chain counts of a read for a reader from outside, and a step then: neither is counted.
fn read_from_outside<L: Ledger>(alloc: Global, steps: &mut Steps<L>) -> Option<(u64, u64)> {
    let mut chain = new_chain(alloc)?;
    let _cell = chain.read_for(Reader::Own, 0, 0, 0, steps);
    if put(&mut chain, 1, 1, steps).is_none() {
        return None;
    }
    Some(chain.transfers())
}

fn one_store<L: Ledger>(rt: &impl Abort, alloc: Global, blank: Blank)
    requires name { blank.name ≡ L.name }
    requires parts { blank.parts ≡ L.parts }
    requires some { 0 < L.parts }
{
    let mut steps = Steps::<L>::begin(blank);
    assert!(rt; read_from_outside(alloc, &mut steps) == Some((0, 0)));
    let same = each_call_fails(alloc, &mut steps);
    assert!(rt; matches!(same, Some(51..)));
}

#[test]
fn one_store_meets_faults(rt: HostRuntime) {
    one_store::<Brand>(&rt, rt.alloc(), Blank::new(1));
}
