//! The file of a device, and the work on it.
ghost use Rattle.std.specs.Prelude.{◌≡◌, ◌↔◌, true, IsTrue};
ghost use Rattle.std.specs.IoError.{error_kind};
ghost use Rattle.std.specs.declared.io.ErrorKind.TheVariants.{Interrupted};
ghost use Rattle.cola_filedev.specs.Opening.{options, OpenedAs, AskedFor, wanted_of};
ghost use Rattle.cola_filedev.specs.Work.{InPieces, Put, Written, Laid};

use crate::access::{OpenedFile, Opener};
use std::fs::OpenOptions;
use std::io::{self, ErrorKind};

/// How often an interrupted read or write is made again.
const TRIES: u32 = 1000;

/// How many bytes a header has. It stands first in a file.
pub(crate) const HEADER: usize = 512;

#[derive(Drop)]
pub(crate) enum Handle<O, F> {
    /// It is opened when it is first needed.
    Unopened(O),
    Open(F),
    /// It could not be opened, or there is none.
    Refused,
}

/// The file is opened for reading and writing, what it holds stays, and it is made where it is not there if
/// `make` is true.
fn options_of(make: bool) -> OpenOptions
    ensures { result ≡ options make }
{
    let mut options = OpenOptions::new();
    options.read(true).write(true).create(make);
    options
}

fn open<O: Opener>(opener: O, path: &str, make: bool) -> Handle<O, O::File>
    ensures { OpenedAs O.opened opener (path.now, make) result }
{
    match opener.open(path, &options_of(make)) {
        Ok(file) => Handle::Open(file),
        Err(_) => Handle::Refused,
    }
}

/// What a device has after it asked for its file: a path is opened where that was not done yet.
pub(crate) fn asked<O: Opener>(
    handle: Handle<O, O::File>,
    wanted: Option<(&str, bool)>,
) -> Handle<O, O::File>
    ensures { AskedFor O.opened (wanted_of wanted.entry) handle result }
{
    match handle {
        Handle::Unopened(opener) => match wanted {
            Some((path, make)) => open(opener, path, make),
            None => Handle::Refused,
        },
        asked => asked,
    }
}

/// What it held is cut off first, so that all its bytes are zero.
pub(crate) fn lay_out<F: OpenedFile>(file: &mut F, size: u64) -> io::Result<()>
    ensures { Laid F.cut size file.old result file.new }
{
    file.set_size(0)?;
    file.set_size(size)
}

fn is_interrupted(error: &io::Error) -> bool
    ensures { IsTrue result ↔ (error_kind error.now ≡ Interrupted) }
{
    error.kind() == ErrorKind::Interrupted
}

/// All of `into` is filled: an end of file within it is a refusal.
pub(crate) fn read<F: OpenedFile>(file: &mut F, at: u64, into: &mut [u8]) -> io::Result<()>
    ensures { InPieces F.gave file.old at into.old result into.new file.new }
{
    if into.len() as u64 > u64::MAX - at {
        return Err(io::Error::from(ErrorKind::InvalidInput));
    }
    let mut done = 0;
    let mut tries = TRIES;
    while done < into.len() {
        match file.read_at(at + done as u64, &mut into[done..]) {
            Ok(0) => return Err(io::Error::from(ErrorKind::UnexpectedEof)),
            Ok(count) => done += count,
            Err(error) => {
                if tries == 0 || !is_interrupted(&error) {
                    return Err(error);
                }
                tries -= 1;
            }
        }
    }
    Ok(())
}

/// The header, if it is among the bytes, is written once all else is synced: so it says of the file what is so, whenever
/// the process or the machine stops.
pub(crate) fn write<F: OpenedFile>(file: &mut F, at: u64, from: &[u8]) -> io::Result<()>
    ensures { Written F.took F.synced file.old at from.now result file.new }
{
    if at > 0 {
        return put(file, at, from);
    }
    let (header, behind) = from.split_at(from.len().min(HEADER));
    put(file, HEADER as u64, behind)?;
    file.sync()?;
    put(file, 0, header)
}

/// All of `from` is taken: a write that takes none of it is a refusal.
pub(crate) fn put<F: OpenedFile>(file: &mut F, at: u64, from: &[u8]) -> io::Result<()>
    ensures { Put F.took file.old at from.now result file.new }
{
    if from.len() as u64 > u64::MAX - at {
        return Err(io::Error::from(ErrorKind::InvalidInput));
    }
    let mut done = 0;
    let mut tries = TRIES;
    while done < from.len() {
        match file.write_at(at + done as u64, &from[done..]) {
            Ok(0) => return Err(io::Error::from(ErrorKind::WriteZero)),
            Ok(count) => done += count,
            Err(error) => {
                if tries == 0 || !is_interrupted(&error) {
                    return Err(error);
                }
                tries -= 1;
            }
        }
    }
    Ok(())
}
