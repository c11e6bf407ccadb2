//! The store for C: what `include/cola.h` promises, but for the tests for NULL. C starts a handle with zeros, a region is a
//! pointer and a length, a slice crosses as its pointer and its length, and nothing of the allocator crosses.
#![tactic(auto)]

ghost use Rattle.std.specs.Prelude.{◌≡◌, ◌<◌, ◌≤◌, ℕ, pos, true, false, List, length, take, Result, Ok, None, IsSome, IfOk};
ghost use Rattle.std.specs.Result.{result_unwrap_or};
ghost use Rattle.cola_spec.specs.Map.{Map, count, pairs_between};
ghost use Rattle.cola_handle.specs.declared.answer.Answer.TheVariants as answer;
ghost use Rattle.cola_handle.specs.Cursors.{are_short, IsSet, ahead, end_at, gave};
ghost use Rattle.cola_handle.specs.Numbers.{number, found, made, made_if};
ghost use Rattle.cola_handle.specs.Open.{HoldsMap};
ghost use Rattle.cola_c.specs.Exports.{IfClosed, IfOpen, AnswersClosed, Answered, TellsValue, TellsStamp, Deletes, TellsPut, TellsPutIf, Nexts, AnswersNext, IsAbsentAtEnd, Tells, Opens, IsRefused, Closes, Checkpoints, Unfinished, Sizes, SizesStored};
ghost use Rattle.cola_c.specs.Marked.{GivesMarks};
ghost use Rattle.cola_handle.specs.Created.{Creates};
ghost use Rattle.cola_handle.specs.Stored.{Begins};

pub mod checkpoint_laws;
mod journal;
mod laws;
mod laws_of_walks;
mod load_handle;
pub mod load_laws;
mod loads;
mod log;
mod marked;
mod told;
pub mod tool_laws;
pub mod tools;
mod walks;

use cola_handle::{
    Answer, Cola, Cursor, LentMarks, Row, Session, tell_delete, tell_put, tell_put_if, tell_stamp,
    tell_value,
};
use cola_kv::Error;
use cola_mapped::Region;
use cola_outside::Steps;
pub use laws::{
    deletes_are_told, few_pages_are_marked, gets_are_told, openings_are_told, puts_are_told,
    rows_are_told, sizes_are_told, stamps_are_told, what_was_lent_stays,
};
pub use laws_of_walks::{prevs_are_told, seeks_of_prefixes_are_told};
use std::alloc::Global;
use std::marker::Brand;
use std::sync::ledger::{Blank, Ledger};
pub use told::{cola_core_info, cola_core_level};
pub use walks::{cola_core_prev, cola_core_seek_last, cola_core_seek_prefix};

/// How many bytes a store takes.
#[unsafe(no_mangle)]
pub extern "C" fn cola_core_size(keys: u64, block: u8, version: u8, bytes: &mut u64) -> i32
    ensures { Tells result (Sizes keys block version bytes.old bytes.new) }
{
    match cola_handle::size(keys, block, version) {
        Some(size) => {
            *bytes = size;
            Answer::Done.code()
        }
        None => Answer::Options.code(),
    }
}

/// How many bytes the closed store of a file takes, by the file's first 512 bytes, or all of a shorter one, and its length.
#[unsafe(no_mangle)]
pub extern "C" fn cola_core_stored_size(head: &[u8], size: u64, bytes: &mut u64) -> i32
    ensures { (file : List ℕ) → Begins head.now size file →
        Tells result (SizesStored file bytes.old bytes.new) }
{
    match cola_handle::stored_size(head, size) {
        Ok(stored) => {
            *bytes = stored;
            Answer::Done.code()
        }
        Err(why) => why.code(),
    }
}

/// Makes the store of a new file in zero bytes.
#[unsafe(no_mangle)]
pub extern "C" fn cola_core_create(bytes: &mut [u8], keys: u64, block: u8, version: u8) -> i32
    ensures { Tells result (Creates keys block version bytes.old bytes.new) }
{
    cola_handle::create(bytes, keys, block, version).code()
}

/// Opens the store in the region, which becomes the store's: then an empty one is left. An error leaves its bytes, but where
/// there was no memory; then they are those of the same store.
#[unsafe(no_mangle)]
pub extern "C" fn cola_core_open(alloc: Global, cola: &mut Cola, region: &mut Region) -> i32
    requires { IsSome region.old.bytes }
    ensures in_use { IfOpen cola.old (λ _. (result ≡ pos (number answer.InUse)) × (cola.new ≡ cola.old)
        × (region.new ≡ region.old)) }
    ensures opened { IfClosed cola.old (IfOpen cola.new (λ session. (result ≡ pos (number answer.Done))
        × (region.new.bytes ≡ None) × Opens region.old None session)) }
    ensures refused { IfClosed cola.old (IfClosed cola.new (Tells result (IsRefused region.old region.new))) }
{
    if cola.is_open() {
        return Answer::InUse.code();
    }
    let bytes = std::mem::replace(region, Region::none());
    match cola_handle::open(alloc, bytes, LentMarks::none()) {
        Ok(session) => {
            cola.put(alloc, session);
            Answer::Done.code()
        }
        Err((bytes, _, answer)) => {
            *region = bytes;
            answer.code()
        }
    }
}

/// Gives a key a value.
#[unsafe(no_mangle)]
pub extern "C" fn cola_core_put(
    alloc: Global,
    cola: &mut Cola,
    key: &[u8],
    value: &[u8],
    was: &mut bool,
) -> i32
    ensures closed { IfClosed cola.old (AnswersClosed cola.new result × (was.new ≡ was.old)) }
    ensures answered { IfOpen cola.old (λ session. Answered cola.new result made
        (TellsPut session key.now value.now was.old was.new)) }
{
    let Some(mut session) = cola.take(alloc) else {
        return Answer::Closed.code();
    };
    let answer = session.kv.put(key, value);
    cola.put(alloc, session);
    tell_put(answer, was)
}

/// Gives a key a value where it has the stamp that was seen.
#[unsafe(no_mangle)]
pub extern "C" fn cola_core_put_if(
    alloc: Global,
    cola: &mut Cola,
    key: &[u8],
    seen: u64,
    value: &[u8],
    stamp: &mut u64,
) -> i32
    ensures closed { IfClosed cola.old (AnswersClosed cola.new result × (stamp.new ≡ stamp.old)) }
    ensures answered { IfOpen cola.old (λ session. Answered cola.new result made_if
        (TellsPutIf session key.now seen value.now stamp.old stamp.new)) }
{
    let Some(mut session) = cola.take(alloc) else {
        return Answer::Closed.code();
    };
    let answer = session.kv.put_if(key, seen, value);
    cola.put(alloc, session);
    tell_put_if(answer, stamp)
}

/// The value of a key.
#[unsafe(no_mangle)]
pub extern "C" fn cola_core_get(
    alloc: Global,
    cola: &mut Cola,
    key: &[u8],
    into: &mut [u8],
    len: &mut usize,
) -> i32
    requires { 72 ≤ length into.old }
    ensures closed { IfClosed cola.old (AnswersClosed cola.new result × (into.new ≡ into.old)
        × (len.new ≡ len.old)) }
    ensures answered { IfOpen cola.old (λ session. Answered cola.new result found
        (TellsValue session key.now into.old into.new len.old len.new)) }
{
    let Some(mut session) = cola.take(alloc) else {
        return Answer::Closed.code();
    };
    let answer = session.kv.get(key);
    cola.put(alloc, session);
    tell_value(answer, into, len)
}

/// The stamp of a key.
#[unsafe(no_mangle)]
pub extern "C" fn cola_core_stamp(
    alloc: Global,
    cola: &mut Cola,
    key: &[u8],
    stamp: &mut u64,
) -> i32
    ensures closed { IfClosed cola.old (AnswersClosed cola.new result × (stamp.new ≡ stamp.old)) }
    ensures answered { IfOpen cola.old (λ session. Answered cola.new result found
        (TellsStamp session key.now stamp.old stamp.new)) }
{
    let Some(mut session) = cola.take(alloc) else {
        return Answer::Closed.code();
    };
    let answer = session.kv.stamp(key);
    cola.put(alloc, session);
    tell_stamp(answer, stamp)
}

/// Takes a key out.
#[unsafe(no_mangle)]
pub extern "C" fn cola_core_delete(alloc: Global, cola: &mut Cola, key: &[u8]) -> i32
    ensures closed { IfClosed cola.old (AnswersClosed cola.new result) }
    ensures answered { IfOpen cola.old (λ session. Answered cola.new result found (Deletes session key.now)) }
{
    let Some(mut session) = cola.take(alloc) else {
        return Answer::Closed.code();
    };
    let answer = session.kv.delete(key);
    cola.put(alloc, session);
    tell_delete(answer)
}

/// The number of keys.
#[unsafe(no_mangle)]
pub extern "C" fn cola_core_count(alloc: Global, cola: &mut Cola, keys: &mut u64) -> i32
    ensures closed { IfClosed cola.old (AnswersClosed cola.new result × (keys.new ≡ keys.old)) }
    ensures stays { cola.new.owned.session ≡ cola.old.owned.session }
    ensures done { IfOpen cola.old (λ _. result ≡ pos (number answer.Done)) }
    ensures stored { IfOpen cola.old (λ session. keys.new ≡ session.kv.store.count) }
    ensures answered { IfOpen cola.old (λ session. (m : Map) → HoldsMap session m → keys.new ≡ count m) }
{
    let Some(session) = cola.take(alloc) else {
        return Answer::Closed.code();
    };
    *keys = session.kv.count();
    cola.put(alloc, session);
    Answer::Done.code()
}

/// Sets a cursor before the first key from a low end on.
#[unsafe(no_mangle)]
pub extern "C" fn cola_core_seek(cursor: &mut Cursor, low: &[u8], high: &[u8], bounded: bool) -> i32
    ensures set { are_short low.now high.now ≡ true →
        (result ≡ pos (number answer.Done)) × IsSet low.now high.now bounded cursor.new }
    ensures ahead { (m : Map) → are_short low.now high.now ≡ true →
        ahead m cursor.new ≡ pairs_between m low.now (end_at bounded high.now) }
    ensures long { are_short low.now high.now ≡ false →
        (result ≡ pos (number answer.Length)) × (cursor.new ≡ cursor.old) }
{
    match Cursor::seek(low, high, bounded) {
        Ok(place) => {
            *cursor = place;
            Answer::Done.code()
        }
        Err(error) => Answer::of(error).code(),
    }
}

/// The next rows of a cursor, on a ledger that the blank opens.
fn next_on<L: Ledger>(
    blank: Blank,
    session: &mut Session,
    cursor: &mut Cursor,
    rows: &mut [Row],
) -> Result<usize, Error>
    requires name { blank.name ≡ L.name }
    requires parts { blank.parts ≡ L.parts }
    requires some { 0 < L.parts }
    ensures { Nexts session.old cursor.old rows.old session.new cursor.new rows.new result }
{
    let mut steps = Steps::<L>::begin(blank);
    cola_handle::next(session, cursor, rows, &mut steps)
}

/// Of the next rows: how many they are.
pub(crate) fn tell_next(next: Result<usize, Error>, wanted: usize, given: &mut usize) -> i32
    ensures number { result ≡ pos (number (gave wanted next)) }
    ensures given { given.new ≡ result_unwrap_or next given.old }
{
    match next {
        Ok(count) => {
            *given = count;
            if wanted > 0 && count == 0 {
                return Answer::Absent.code();
            }
            Answer::Done.code()
        }
        Err(error) => Answer::of(error).code(),
    }
}

/// The next rows of a cursor.
#[unsafe(no_mangle)]
pub extern "C" fn cola_core_next(
    alloc: Global,
    cola: &mut Cola,
    cursor: &mut Cursor,
    rows: &mut [Row],
    given: &mut usize,
) -> i32
    ensures closed { IfClosed cola.old (AnswersClosed cola.new result × (cursor.new ≡ cursor.old)
        × (rows.new ≡ rows.old) × (given.new ≡ given.old)) }
    ensures answered { IfOpen cola.old (λ session. AnswersNext session cursor.old rows.old cola.new result
        cursor.new rows.new given.old given.new) }
    ensures ended { IfOpen cola.old (λ session. IsAbsentAtEnd session cursor.old rows.old result) }
{
    let Some(mut session) = cola.take(alloc) else {
        return Answer::Closed.code();
    };
    let next = next_on::<Brand>(Blank::new(1), &mut session, cursor, rows);
    cola.put(alloc, session);
    tell_next(next, rows.len(), given)
}

/// Closes the store and opens it again. An error gives the bytes back: then the handle is closed.
#[unsafe(no_mangle)]
pub extern "C" fn cola_core_checkpoint(alloc: Global, cola: &mut Cola, region: &mut Region) -> i32
    ensures closed { IfClosed cola.old (AnswersClosed cola.new result × (region.new ≡ region.old)) }
    ensures done { IfOpen cola.old (λ old. IfOpen cola.new (λ new. (result ≡ pos (number answer.Done))
        × (region.new ≡ region.old) × Checkpoints old new)) }
    ensures refused { IfOpen cola.old (λ old. IfClosed cola.new (Tells result (Unfinished old region.new))) }
{
    let Some(session) = cola.take(alloc) else {
        return Answer::Closed.code();
    };
    let (bytes, marks) = cola_handle::close(Box::into_inner(session));
    match cola_handle::open(alloc, bytes, marks) {
        Ok(session) => {
            cola.put(alloc, session);
            Answer::Done.code()
        }
        Err((left, _, answer)) => {
            *region = left;
            answer.code()
        }
    }
}

/// Closes the store, and gives its bytes back in the region, where they were, and its marks: each page that has none is as it was
/// when the store was opened. Of a store that was opened with no marks, an empty region.
#[unsafe(no_mangle)]
pub extern "C" fn cola_core_close(
    alloc: Global,
    cola: &mut Cola,
    region: &mut Region,
    marks: &mut Region,
) -> i32
    ensures closed { IfClosed cola.old ((result ≡ pos (number answer.Closed)) × (region.new ≡ region.old)
        × (marks.new ≡ marks.old)) }
    ensures left { cola.new.owned.session ≡ None }
    ensures done { IfOpen cola.old (λ session. (result ≡ pos (number answer.Done)) × Closes session region.new) }
    ensures marked { IfOpen cola.old (λ session. GivesMarks session region.new marks.new) }
{
    let Some(session) = cola.take(alloc) else {
        return Answer::Closed.code();
    };
    let (bytes, lent) = cola_handle::close(Box::into_inner(session));
    *region = bytes;
    *marks = lent.into_region();
    Answer::Done.code()
}
