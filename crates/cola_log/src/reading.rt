//! The records of a log, read.
ghost use Rattle.std.specs.Prelude.{◌≡◌, ◌+◌, ◌<◌, ◌≤◌, ℕ, List, None, Some, true, false, bytes_eq, length, drop, take, slice_index, IfSome};
ghost use Rattle.cola_log.specs.Format.{told, told_with, call_with, call_of, record_at, body_size};
ghost use Rattle.cola_log.specs.Appended.{IsReadTo};

use crate::call::Call;
use crate::writing::{LogSum, chained};
use byteorder::{ByteOrder, LittleEndian};

/// How many bytes stand before the sum of the record at the front of some bytes; none where it is not whole.
fn body_size(bytes: &[u8]) -> Option<usize>
    ensures none { result ≡ None → length bytes.now < 32 + body_size bytes.now }
    ensures some { IfSome result (λ size. (size ≡ body_size bytes.now) × (32 + size ≤ length bytes.now)) }
{
    if bytes.len() < 43 {
        return None;
    }
    let size = 11 + bytes[1] as usize + bytes[2] as usize;
    if bytes.len() < size + 32 {
        return None;
    }
    Some(size)
}

/// The call of this kind, or none.
fn call_with<'a>(kind: u8, seen: u64, key: &'a [u8], value: &'a [u8]) -> Option<Call<'a>>
    ensures { told_with result ≡ call_with kind seen key.now value.now }
{
    if kind == 1 && seen == 0 {
        Some(Call::Put(key, value))
    } else if kind == 2 {
        Some(Call::PutIf(key, seen, value))
    } else if kind == 3 && seen == 0 && value.is_empty() {
        Some(Call::Delete(key))
    } else {
        None
    }
}

/// The call of a record's bytes before its sum.
fn call_of<'a>(body: &'a [u8]) -> Option<Call<'a>>
    requires { length body.now ≡ body_size body.now }
    ensures { told_with result ≡ call_of body.now }
{
    let seen = LittleEndian::read_u64(&body[3..]);
    let (key, value) = body[11..].split_at(body[1] as usize);
    call_with(body[0], seen, key, value)
}

/// The first 32 bytes, or all where there are fewer.
fn front(log: &[u8]) -> &[u8]
    ensures { result.now ≡ take 32 log.now }
{
    if log.len() < 32 { log } else { &log[..32] }
}

/// What follows them.
fn behind_front(log: &[u8]) -> &[u8]
    ensures { result.now ≡ drop 32 log.now }
{
    if log.len() < 32 { &[] } else { &log[32..] }
}

impl LogSum {
    /// What stands behind this sum at the front of a log; none where it begins with other bytes.
    pub fn records<'a>(&self, log: &'a [u8]) -> Option<&'a [u8]>
        ensures none { result ≡ None → bytes_eq (take 32 log.now) self.now.sum ≡ false }
        ensures some { IfSome result (λ rest. (bytes_eq (take 32 log.now) self.now.sum ≡ true) × (rest.now ≡ drop 32 log.now)) }
    {
        if front(log) == self.sum.as_slice() {
            Some(behind_front(log))
        } else {
            None
        }
    }

    /// The call of the record at the front of some bytes, where one stands there that bears its sum behind this one; the sum
    /// behind it; and what follows it.
    pub fn next_record<'a>(&self, bytes: &'a [u8]) -> Option<(Call<'a>, LogSum, &'a [u8])>
        ensures none { result ≡ None → record_at self.now.sum bytes.now ≡ None }
        ensures some { IfSome result (λ it. record_at self.now.sum bytes.now ≡ Some (told it.0, it.1.sum, it.2.now)) }
    {
        let size = body_size(bytes)?;
        let (body, behind) = bytes.split_at(size);
        let (found, rest) = behind.split_at(32);
        let sum = chained(&self.sum, body);
        if found != sum.as_slice() {
            return None;
        }
        let call = call_of(body)?;
        Some((call, LogSum { sum }, rest))
    }

    /// Goes behind the records at the front of some bytes, up to the first that does not bear its sum, and tells how many
    /// bytes they have.
    pub fn pass(&mut self, bytes: &[u8]) -> usize
        ensures { IsReadTo self.old.sum bytes.now self.new.sum result }
    {
        let mut rest = bytes;
        while let Some((_, sum, behind)) = self.next_record(rest) {
            *self = sum;
            rest = behind;
        }
        bytes.len() - rest.len()
    }
}
