//! The calls of a log, made again on an open store.
ghost use Rattle.std.specs.Prelude.{◌≡◌};
ghost use Rattle.cola_log.specs.Format.{Put, PutIf, Delete, told};
ghost use Rattle.cola_replay.specs.Replays.{failed_by, Remakes, ReplaysRecords, Replays};

use cola_device::Device;
use cola_kv::{Error, Kv};
use cola_log::{Call, LogSum};

/// How far a log was made again.
#[derive(Clone, Copy, Debug, PartialEq, Eq, Drop)]
pub struct Replayed {
    /// The sum behind its last whole record, behind which the next one is written.
    pub sum: LogSum,
    /// How many of its bytes are whole, in bytes from its first on; 0 where it follows another file.
    pub whole: usize,
    /// How many calls were made.
    pub done: usize,
}

/// The error, if it is none with which a map refuses a call.
fn failed_by(error: Error) -> Option<Error>
    ensures { result ≡ failed_by error }
{
    match error {
        Error::KeyLength | Error::ValueLength | Error::Full | Error::Worn => None,
        Error::Keys
        | Error::Block
        | Error::NotEmpty
        | Error::NotStore
        | Error::Small
        | Error::NotClosed
        | Error::BadCell(_)
        | Error::OutOfMemory
        | Error::Overfull(_)
        | Error::Device => Some(error),
    }
}

/// Makes a put.
fn put<D: Device>(kv: &mut Kv<D>, key: &[u8], value: &[u8]) -> Option<Error>
    ensures { Remakes D.Device kv.old kv.new (Put key.now value.now) result }
{
    match kv.put(key, value) {
        Ok(_) => None,
        Err(error) => failed_by(error),
    }
}

/// Makes a put that depends on the stamp seen.
fn put_if<D: Device>(kv: &mut Kv<D>, key: &[u8], seen: u64, value: &[u8]) -> Option<Error>
    ensures { Remakes D.Device kv.old kv.new (PutIf key.now seen value.now) result }
{
    match kv.put_if(key, seen, value) {
        Ok(_) => None,
        Err(error) => failed_by(error),
    }
}

/// Makes a delete.
fn delete<D: Device>(kv: &mut Kv<D>, key: &[u8]) -> Option<Error>
    ensures { Remakes D.Device kv.old kv.new (Delete key.now) result }
{
    match kv.delete(key) {
        Ok(_) => None,
        Err(error) => failed_by(error),
    }
}

/// Makes a call. One that the map refuses is refused as it was, and changes nothing; any other error is told.
fn make<D: Device>(kv: &mut Kv<D>, call: &Call) -> Option<Error>
    ensures { Remakes D.Device kv.old kv.new (told call.now) result }
{
    match call {
        Call::Put(key, value) => put(kv, key, value),
        Call::PutIf(key, seen, value) => put_if(kv, key, *seen, value),
        Call::Delete(key) => delete(kv, key),
    }
}

/// Makes the calls of records, up to the first that does not bear its sum, and tells how many bytes they have and how many
/// they are.
fn replay_records<D: Device>(
    kv: &mut Kv<D>,
    sum: &mut LogSum,
    bytes: &[u8],
) -> Result<(usize, usize), Error>
    ensures { ReplaysRecords D.Device kv.old kv.new sum.old.sum sum.new.sum bytes.now result }
{
    let mut rest = bytes;
    let mut done = 0;
    while let Some((call, after, behind)) = sum.next_record(rest) {
        if let Some(error) = make(kv, &call) {
            return Err(error);
        }
        *sum = after;
        rest = behind;
        done += 1;
    }
    Ok((bytes.len() - rest.len(), done))
}

/// Makes the calls of a log that follows a closed file with this first page, on the store that was opened of it. Of a log that
/// follows another one none are made. An error is one of the device, or of a damaged store: then some were made.
pub fn replay<D: Device>(kv: &mut Kv<D>, page: &[u8], log: &[u8]) -> Result<Replayed, Error>
    ensures { Replays D.Device kv.old kv.new page.now log.now result }
{
    let mut sum = LogSum::begin(page);
    let Some(records) = sum.records(log) else {
        return Ok(Replayed {
            sum,
            whole: 0,
            done: 0,
        });
    };
    let (size, done) = replay_records(kv, &mut sum, records)?;
    Ok(Replayed {
        sum,
        whole: 32 + size,
        done,
    })
}
