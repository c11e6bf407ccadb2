//! Rows by falling keys, and of the keys that begin with a prefix.
ghost use Rattle.std.specs.Prelude.{◌≡◌, ◌<◌, pos, true, false, [], length, reverse, nat_le};
ghost use Rattle.cola_spec.specs.Map.{Map};
ghost use Rattle.cola_kv.specs.Prefix.{KeysAreBytes, pairs_with};
ghost use Rattle.cola_handle.specs.declared.answer.Answer.TheVariants as answer;
ghost use Rattle.cola_handle.specs.Behind.{HasBytes, IsSetLast, behind, pairs_below};
ghost use Rattle.cola_handle.specs.Cursors.{ahead, end_at};
ghost use Rattle.cola_handle.specs.Numbers.{number};
ghost use Rattle.cola_handle.specs.Prefixed.{IsSetPrefix};
ghost use Rattle.cola_c.specs.Exports.{AnswersClosed, IfClosed, IfOpen};
ghost use Rattle.cola_c.specs.Walks.{AnswersPrev, IsAbsentAtStart, Prevs};

use crate::tell_next;
use cola_handle::{Answer, Cola, Cursor, Row, Session};
use cola_kv::Error;
use cola_outside::Steps;
use std::alloc::Global;
use std::marker::Brand;
use std::sync::ledger::{Blank, Ledger};

/// Sets a cursor behind the last key below a high end, or behind every key.
#[unsafe(no_mangle)]
pub extern "C" fn cola_core_seek_last(cursor: &mut Cursor, high: &[u8], bounded: bool) -> i32
    ensures set { nat_le (length high.now) 40 ≡ true →
        (result ≡ pos (number answer.Done)) × IsSetLast high.now bounded cursor.new }
    ensures behind { (m : Map) → HasBytes m → nat_le (length high.now) 40 ≡ true →
        behind m cursor.new ≡ reverse (pairs_below m (end_at bounded high.now)) }
    ensures none_ahead { (m : Map) → HasBytes m → nat_le (length high.now) 40 ≡ true →
        ahead m cursor.new ≡ [] }
    ensures long { nat_le (length high.now) 40 ≡ false →
        (result ≡ pos (number answer.Length)) × (cursor.new ≡ cursor.old) }
{
    match Cursor::seek_last(high, bounded) {
        Ok(place) => {
            *cursor = place;
            Answer::Done.code()
        }
        Err(error) => Answer::of(error).code(),
    }
}

/// Sets a cursor before the first of the keys that begin with a prefix, which alone are ahead of it.
#[unsafe(no_mangle)]
pub extern "C" fn cola_core_seek_prefix(cursor: &mut Cursor, prefix: &[u8]) -> i32
    ensures set { nat_le (length prefix.now) 40 ≡ true →
        (result ≡ pos (number answer.Done)) × IsSetPrefix prefix.now cursor.new }
    ensures ahead { (m : Map) → KeysAreBytes m → nat_le (length prefix.now) 40 ≡ true →
        ahead m cursor.new ≡ pairs_with m prefix.now }
    ensures long { nat_le (length prefix.now) 40 ≡ false →
        (result ≡ pos (number answer.Length)) × (cursor.new ≡ cursor.old) }
{
    match Cursor::seek_prefix(prefix) {
        Ok(place) => {
            *cursor = place;
            Answer::Done.code()
        }
        Err(error) => Answer::of(error).code(),
    }
}

/// The rows before a cursor, on a ledger that the blank opens.
fn prev_on<L: Ledger>(
    blank: Blank,
    session: &mut Session,
    cursor: &mut Cursor,
    rows: &mut [Row],
) -> Result<usize, Error>
    requires name { blank.name ≡ L.name }
    requires parts { blank.parts ≡ L.parts }
    requires some { 0 < L.parts }
    ensures { Prevs session.old cursor.old rows.old session.new cursor.new rows.new result }
{
    let mut steps = Steps::<L>::begin(blank);
    cola_handle::prev(session, cursor, rows, &mut steps)
}

/// The rows before a cursor, by falling keys.
#[unsafe(no_mangle)]
pub extern "C" fn cola_core_prev(
    alloc: Global,
    cola: &mut Cola,
    cursor: &mut Cursor,
    rows: &mut [Row],
    given: &mut usize,
) -> i32
    ensures closed { IfClosed cola.old (AnswersClosed cola.new result × (cursor.new ≡ cursor.old)
        × (rows.new ≡ rows.old) × (given.new ≡ given.old)) }
    ensures answered { IfOpen cola.old (λ session. AnswersPrev session cursor.old rows.old cola.new result
        cursor.new rows.new given.old given.new) }
    ensures ended { IfOpen cola.old (λ session. IsAbsentAtStart session cursor.old rows.old result) }
{
    let Some(mut session) = cola.take(alloc) else {
        return Answer::Closed.code();
    };
    let prev = prev_on::<Brand>(Blank::new(1), &mut session, cursor, rows);
    cola.put(alloc, session);
    tell_next(prev, rows.len(), given)
}
