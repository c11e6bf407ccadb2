//! What C calls to fill a new store with rows by rising keys, in bytes that it lends until the end.
ghost use Rattle.std.specs.Prelude.{◌≡◌, pos, None, IsSome, IfOk, IfErr};
ghost use Rattle.cola_handle.specs.declared.answer.Answer.TheVariants as answer;
ghost use Rattle.cola_handle.specs.Numbers.{number};
ghost use Rattle.cola_mapped.specs.Region.{bytes_in};
ghost use Rattle.cola_tools.specs.Loading.{IsBegun, IsUnbegun, place_in};
ghost use Rattle.cola_c.specs.Loads.{IfIdle, IfLoading, BeginsLoad, IsLoadRefused, AnswersRow, EndsLoad, row_number};

use crate::load_handle::LoadHandle;
use crate::tools::fault_code;
use cola_handle::Answer;
use cola_mapped::Region;
use cola_tools::{Load, ToolFault};
use std::alloc::Global;

/// Begins a load, and puts it on the heap. An error gives the region back as it was.
fn begin_on_heap(
    alloc: Global,
    region: Region,
    keys: u64,
    block: u8,
    version: u8,
) -> Result<Box<Load>, (Region, ToolFault)>
    requires { IsSome region.bytes }
    ensures begun { IfOk result (λ load. IsBegun keys block version (bytes_in region.bytes)
        (place_in region.at region.len (bytes_in region.bytes)) load.value) }
    ensures cause { IfErr result (λ refusal. IsUnbegun keys block version (bytes_in region.bytes) refusal.1) }
    ensures left { IfErr result (λ refusal. refusal.0.bytes ≡ region.bytes) }
    ensures at { IfErr result (λ refusal. refusal.0.at ≡ region.at) }
    ensures len { IfErr result (λ refusal. refusal.0.len ≡ region.len) }
{
    let load = match Load::begin(alloc, region, keys, block, version) {
        Ok(load) => load,
        Err(refusal) => return Err(refusal),
    };
    match Box::new(alloc, load) {
        Ok(load) => Ok(load),
        Err(refused) => Err((refused.value.give_up(), ToolFault::Memory)),
    }
}

/// Begins a store for so many keys, with such blocks, in a version, in a region of zero bytes, which becomes the load's: then an
/// empty one is left. An error leaves its bytes.
#[unsafe(no_mangle)]
pub extern "C" fn cola_core_load_begin(
    alloc: Global,
    load: &mut LoadHandle,
    region: &mut Region,
    keys: u64,
    block: u8,
    version: u8,
) -> i32
    requires { IsSome region.old.bytes }
    ensures in_use { IfLoading load.old (λ _. (result ≡ pos (number answer.InUse)) × (load.new ≡ load.old)
        × (region.new ≡ region.old)) }
    ensures begun { IfIdle load.old (IfLoading load.new (λ new. (result ≡ pos (number answer.Done))
        × BeginsLoad keys block version region.old new)) }
    ensures taken { IfIdle load.old (IfLoading load.new (λ _. region.new.bytes ≡ None)) }
    ensures refused { IfIdle load.old (IfIdle load.new (IsLoadRefused keys block version region.old region.new result)) }
{
    if load.is_open() {
        return Answer::InUse.code();
    }
    let bytes = std::mem::replace(region, Region::none());
    match begin_on_heap(alloc, bytes, keys, block, version) {
        Ok(begun) => {
            load.put(alloc, begun);
            Answer::Done.code()
        }
        Err((bytes, fault)) => {
            *region = bytes;
            fault_code(fault)
        }
    }
}

/// The number of the answer of a row.
fn row_code(answer: Result<(), ToolFault>) -> i32
    ensures { result ≡ pos (row_number answer) }
{
    match answer {
        Ok(()) => Answer::Done.code(),
        Err(fault) => fault_code(fault),
    }
}

/// Puts a row behind those so far. A refused row leaves the load as it was.
#[unsafe(no_mangle)]
pub extern "C" fn cola_core_load_row(
    alloc: Global,
    load: &mut LoadHandle,
    key: &[u8],
    value: &[u8],
) -> i32
    ensures closed { IfIdle load.old ((result ≡ pos (number answer.Closed)) × (load.new.owned.load ≡ None)) }
    ensures answered { IfLoading load.old (λ old. AnswersRow old key.now value.now load.new result) }
{
    let Some(mut it) = load.take(alloc) else {
        return Answer::Closed.code();
    };
    let answer = it.row(key, value);
    load.put(alloc, it);
    row_code(answer)
}

/// Makes the store of the rows, gives its bytes back in the region, where they were, and tells how many rows there are.
#[unsafe(no_mangle)]
pub extern "C" fn cola_core_load_end(
    alloc: Global,
    load: &mut LoadHandle,
    region: &mut Region,
    rows: &mut u64,
) -> i32
    ensures closed { IfIdle load.old ((result ≡ pos (number answer.Closed)) × (region.new ≡ region.old)
        × (rows.new ≡ rows.old)) }
    ensures left { load.new.owned.load ≡ None }
    ensures done { IfLoading load.old (λ old. (result ≡ pos (number answer.Done)) × EndsLoad old region.new
        × (rows.new ≡ old.loader.rows)) }
{
    let Some(it) = load.take(alloc) else {
        return Answer::Closed.code();
    };
    let (bytes, many) = Box::into_inner(it).end();
    *region = bytes;
    *rows = many;
    Answer::Done.code()
}
