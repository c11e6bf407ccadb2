//! A log of calls for C, which brings the bytes and has the files. Its state is plain bytes, which C may copy.
ghost use Rattle.std.specs.Prelude.{◌≡◌, pos};
ghost use Rattle.cola_handle.specs.Numbers.{made, number};
ghost use Rattle.cola_log.specs.Appended.{IsReadTo};
ghost use Rattle.cola_log.specs.Format.{Put, PutIf, Delete, told, first_sum};
ghost use Rattle.cola_c.specs.Exports.{IfClosed, IfOpen, AnswersClosed, Answered};
ghost use Rattle.cola_c.specs.Logged.{TellsRecord, TellsReplayed, sum_told, whole_told, done_told};

use cola_handle::{Answer, Cola};
use cola_kv::Error;
use cola_log::{Call, LogSum};
use cola_replay::Replayed;
use std::alloc::Global;

/// Begins a log that follows a closed file with this first page, which are its first 4,096 bytes: the log's first 32 bytes are
/// the state's.
#[unsafe(no_mangle)]
pub extern "C" fn cola_core_log_begin(page: &[u8], log: &mut LogSum)
    ensures { log.new.sum ≡ first_sum page.now }
{
    *log = LogSum::begin(page);
}

/// Writes the record of a call, and tells its length; 0 where there is none.
fn append(log: &mut LogSum, call: &Call, into: &mut [u8]) -> usize
    ensures { TellsRecord log.old.sum log.new.sum (told call.now) into.old into.new result }
{
    match log.append(call, into) {
        Some(size) => size,
        None => 0,
    }
}

/// Writes the record of a put to the front of some bytes, and tells its length. 0 where the key or the value has more than 255
/// bytes, or the room is too small: then nothing is written.
#[unsafe(no_mangle)]
pub extern "C" fn cola_core_log_put(
    log: &mut LogSum,
    key: &[u8],
    value: &[u8],
    into: &mut [u8],
) -> usize
    ensures { TellsRecord log.old.sum log.new.sum (Put key.now value.now) into.old into.new result }
{
    append(log, &Call::Put(key, value), into)
}

/// The same of a put that depends on the stamp seen.
#[unsafe(no_mangle)]
pub extern "C" fn cola_core_log_put_if(
    log: &mut LogSum,
    key: &[u8],
    seen: u64,
    value: &[u8],
    into: &mut [u8],
) -> usize
    ensures { TellsRecord log.old.sum log.new.sum (PutIf key.now seen value.now) into.old into.new result }
{
    append(log, &Call::PutIf(key, seen, value), into)
}

/// The same of a delete.
#[unsafe(no_mangle)]
pub extern "C" fn cola_core_log_delete(log: &mut LogSum, key: &[u8], into: &mut [u8]) -> usize
    ensures { TellsRecord log.old.sum log.new.sum (Delete key.now) into.old into.new result }
{
    append(log, &Call::Delete(key), into)
}

/// Goes behind the records at the front of some bytes, up to the first that does not bear its sum, and tells how many bytes
/// they have.
#[unsafe(no_mangle)]
pub extern "C" fn cola_core_log_pass(log: &mut LogSum, bytes: &[u8]) -> usize
    ensures { IsReadTo log.old.sum bytes.now log.new.sum result }
{
    log.pass(bytes)
}

/// Tells how far a log was made again.
fn tell(
    answer: Result<Replayed, Error>,
    log: &mut LogSum,
    whole: &mut usize,
    done: &mut usize,
) -> i32
    ensures number { result ≡ pos (number (made answer)) }
    ensures sum { log.new.sum ≡ sum_told answer log.old.sum }
    ensures whole { whole.new ≡ whole_told answer whole.old }
    ensures done { done.new ≡ done_told answer done.old }
{
    match answer {
        Ok(replayed) => {
            *log = replayed.sum;
            *whole = replayed.whole;
            *done = replayed.done;
            Answer::Done.code()
        }
        Err(error) => Answer::of(error).code(),
    }
}

/// Makes the calls of a log again on the store that was opened of the file with this first page, as it lay closed, and tells
/// the state behind the log's last whole record, how many of its bytes are whole, and how many calls were made. 0 bytes are whole
/// of a log that follows another file: none of its calls is made. Where a damaged store refuses a call, some were made, and
/// nothing is told.
#[unsafe(no_mangle)]
pub extern "C" fn cola_core_log_replay(
    alloc: Global,
    cola: &mut Cola,
    page: &[u8],
    bytes: &[u8],
    log: &mut LogSum,
    whole: &mut usize,
    done: &mut usize,
) -> i32
    ensures closed { IfClosed cola.old (AnswersClosed cola.new result × (log.new ≡ log.old)
        × (whole.new ≡ whole.old) × (done.new ≡ done.old)) }
    ensures answered { IfOpen cola.old (λ session. Answered cola.new result made
        (TellsReplayed session page.now bytes.now log.old.sum log.new.sum whole.old whole.new done.old done.new)) }
{
    let Some(mut session) = cola.take(alloc) else {
        return Answer::Closed.code();
    };
    let answer = cola_replay::replay(&mut session.kv, page, bytes);
    cola.put(alloc, session);
    tell(answer, log, whole, done)
}
