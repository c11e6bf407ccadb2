//! Files of made sessions of which bytes were changed: what the mode `check` says of each,
//! beside the verdict of the plain program.
use crate::fault::Fault;
use crate::files::{device_of, file_after_puts, simple_session};
use crate::talk::{Talk, WITH_STAMPS, WITHOUT_STAMPS, next_number};
use cola_layout::Header;
use cola_plain::shape::Shape;
use cola_plain_files::verdict::verdict_of;
use cola_verdict::{Flaw, Verdict};
use std::alloc::{AllocError, Global};

/// The word of a flaw.
fn word_of(flaw: Flaw) -> &'static str {
    match flaw {
        Flaw::Cell => "cell",
        Flaw::Order => "order",
        Flaw::Sample => "sample",
        Flaw::Length => "length",
        Flaw::Shadow => "shadow",
        Flaw::Live => "live",
        Flaw::Count => "count",
        Flaw::Stamp => "stamp",
    }
}

/// The line of a verdict, and the status that goes with it.
fn told(alloc: Global, verdict: Verdict) -> Result<(String, u8), AllocError> {
    match verdict {
        Verdict::Sound(keys) => Ok((format!(in alloc; "sound {keys}\n")?, 0)),
        Verdict::Broken(flaw, level, cell) => {
            let word = word_of(flaw);
            Ok((format!(in alloc; "broken {word} {level} {cell}\n")?, 13))
        }
    }
}

/// The header in the first bytes of a file.
fn header_of(bytes: &[u8]) -> Option<Header> {
    if bytes.len() < 512 {
        return None;
    }
    let mut head = [0u8; 512];
    head.copy_from_slice(&bytes[..512]);
    Header::decode(&head)
}

/// What `check` has to write of a file, and its status, by the plain program.
fn plain_answer(alloc: Global, bytes: &[u8]) -> Result<(String, u8), AllocError> {
    let Some(header) = header_of(bytes) else {
        return Ok((String::new(alloc), 6));
    };
    let cells = header.geometry.cells();
    if (bytes.len() as u64) < cells.saturating_mul(header.geometry.format.width() as u64) {
        return Ok((String::new(alloc), 6));
    }
    if !header.closed {
        return Ok((String::new(alloc), 7));
    }
    told(alloc, verdict_of(alloc, &header, bytes)?)
}

/// Whether `check` says of a file what the plain program says.
fn is_alike(alloc: Global, bytes: &[u8]) -> Result<bool, AllocError> {
    let (line, status) = plain_answer(alloc, bytes)?;
    let copy = Vec::from_slice(alloc, bytes)?;
    let device = device_of(alloc, copy, 0, Vec::new(alloc))?;
    let ended = simple_session(alloc, "check F", b"", device)?;
    Ok(ended.status == status && ended.replies.as_slice() == line.as_bytes())
}

/// The bytes with another value at a place.
fn changed(alloc: Global, bytes: &[u8], place: usize, value: u8) -> Result<Vec<u8>, AllocError> {
    let mut copy = Vec::from_slice(alloc, bytes)?;
    if let Some(byte) = copy.get_mut(place) {
        *byte = value;
    }
    Ok(copy)
}

/// The first place at which a file with another byte is judged otherwise by the two, with each byte as 0, as 255, and with
/// all bits but the lowest turned over.
fn first_difference(alloc: Global, bytes: &[u8]) -> Result<Option<usize>, AllocError> {
    for place in 0..bytes.len() {
        let byte = bytes.get(place).copied().unwrap_or(0);
        for value in [0, 255, byte ^ 254] {
            if !is_alike(alloc, &changed(alloc, bytes, place, value)?)? {
                return Ok(Some(place));
            }
        }
    }
    Ok(None)
}

/// The file that a session of made lines leaves, by a number: of either version, for 40 keys.
fn file_by(alloc: Global, number: u32) -> Result<Vec<u8>, AllocError> {
    let stamped = (number >> 10) % 2 == 1;
    let shape = Shape {
        limit: 40,
        key_limit: if stamped { 40 } else { 24 },
        value_limit: if stamped { 72 } else { 32 },
        stamped,
    };
    let mut talk = Talk::new(alloc, shape, number);
    let mix = if stamped {
        &WITH_STAMPS
    } else {
        &WITHOUT_STAMPS
    };
    talk.make(alloc, mix, (number >> 11) % 400)?;
    let words = if stamped {
        "create F --keys 40 --block 3 --version 2"
    } else {
        "create F --keys 40"
    };
    let room = device_of(alloc, Vec::new(alloc), 1 << 20, Vec::new(alloc))?;
    let made = simple_session(alloc, words, b"", room)?;
    let ended = simple_session(alloc, "run F", &talk.lines, made.device)?;
    Ok(ended.device.device.into_bytes())
}

/// The bytes with up to four of them changed, by a number: each second time one of the header.
fn spoiled(alloc: Global, bytes: Vec<u8>, number: u32) -> Result<Vec<u8>, AllocError> {
    let mut copy = bytes;
    let mut number = number;
    for _ in 0..(number >> 20) % 5 {
        number = next_number(number);
        let most = if (number >> 7) % 2 == 0 {
            160
        } else {
            copy.len()
        };
        let place = (number >> 8) as usize % most.max(1);
        number = next_number(number);
        copy = changed(alloc, &copy, place, ((number >> 13) % 256) as u8)?;
    }
    Ok(copy)
}

/// Compares so many files, each changed by a number of its own. Answers the first number whose file is judged otherwise.
fn first_otherwise(alloc: Global, seed: u32, count: u32) -> Result<Option<u32>, AllocError> {
    let mut number = seed;
    for _ in 0..count {
        number = next_number(number);
        let bytes = spoiled(alloc, file_by(alloc, number)?, number)?;
        if !is_alike(alloc, &bytes)? {
            return Ok(Some(number));
        }
    }
    Ok(None)
}

/// Compares the file of fifty-five puts, of one version, with each of its bytes changed in three ways, and adds what came.
fn compare_bytes(alloc: Global, version: &str, out: &mut String) -> Result<bool, Fault> {
    let bytes = file_after_puts(alloc, "32", "5", version, 55)?;
    match first_difference(alloc, &bytes)? {
        Some(place) => {
            writeln!(out, "version {version}: byte {place} is judged otherwise")?;
            Ok(false)
        }
        None => {
            writeln!(
                out,
                "version {version}: each byte of a file changed in three ways"
            )?;
            Ok(true)
        }
    }
}

/// Compares what `check` says of changed files with the plain program: each byte of two files, and so many files by a seed.
/// Adds what came, and answers whether all are judged alike.
pub(crate) fn compare_judged(
    alloc: Global,
    seed: u32,
    count: u32,
    out: &mut String,
) -> Result<bool, Fault> {
    if !compare_bytes(alloc, "1", out)? || !compare_bytes(alloc, "2", out)? {
        return Ok(false);
    }
    match first_otherwise(alloc, seed, count)? {
        Some(number) => {
            writeln!(out, "the file of number {number} is judged otherwise")?;
            Ok(false)
        }
        None => {
            writeln!(out, "{count} files with bytes changed")?;
            Ok(true)
        }
    }
}
