//! The program `cola`: its words, its files, standard input and standard output, and the exit status.
#![tactic(auto)]

ghost use Rattle.std.specs.Prelude.{◌≡◌, ◌<◌};

mod replies;

use crate::replies::{Asking, Replies, Waiting};
use cola_command::serve;
use cola_filedev::{LockedDevice, Locks};
use cola_io::{StdSink, StdSource};
use cola_outside::Steps;
use cola_status::Status;
use cola_words::{Opening, files_of};
use std::cell::RefCell;
use std::fs::File;
use std::io::BufWriter;
use std::marker::Brand;
use std::process::ExitCode;
use std::rt::{Env, Files};
use std::sync::ledger::{Blank, Ledger};
use std::{env, io};

/// The words after the program's name; none where they cannot be taken.
fn take_words<R: Env + AllocGlobal>(rt: &R) -> Option<Vec<String>> {
    let mut words = Vec::new(rt.alloc());
    for word in env::args(rt).ok()?.skip(1) {
        words.push(word).ok()?;
    }
    Some(words)
}

/// The file that a word names, opened so by the first call on it, and locked; none where a mode has none.
fn file_of<'a, R: Files<File = File>>(
    locks: &'a Locks<'a, R>,
    words: &'a [String],
    opening: Option<Opening>,
) -> LockedDevice<'a, R> {
    let (place, make) = match opening {
        Some(Opening::Existing(place)) => (place, false),
        Some(Opening::Made(place)) => (place, true),
        None => return LockedDevice::none(locks.opener()),
    };
    match words.get(place as usize) {
        Some(path) => LockedDevice::new(locks.opener(), path.as_str(), make),
        None => LockedDevice::none(locks.opener()),
    }
}

/// Serves the words over their files, standard input and standard output, with steps on a ledger of their own.
fn run<L: Ledger, R: Files<File = File> + Input + Print + AllocGlobal>(
    blank: Blank,
    rt: &R,
    words: &[String],
) -> u8
    requires name { blank.name ≡ L.name }
    requires parts { blank.parts ≡ L.parts }
    requires some { 0 < L.parts }
{
    let Ok(writer) = BufWriter::new(rt.alloc(), io::writer(rt)) else {
        return Status::OutOfMemory.number();
    };
    let replies = RefCell::new(Replies::new(writer));
    let mut source = StdSource::new(Asking {
        reader: rt.reader(),
        replies: &replies,
    });
    let mut sink = StdSink::new(Waiting { replies: &replies });
    let mut steps = Steps::<L>::begin(blank);
    let (first, second) = files_of(words);
    let locks = Locks::new(rt);
    let first = file_of(&locks, words, first);
    let second = file_of(&locks, words, second);
    let served = serve(
        rt.alloc(),
        words,
        &mut source,
        &mut sink,
        first,
        second,
        &mut steps,
    );
    match replies.try_borrow_mut() {
        Ok(mut waiting) => {
            if waiting.send() {
                served.status
            } else {
                Status::SinkFailed.number()
            }
        }
        Err(_) => Status::SinkFailed.number(),
    }
}

fn main(rt: HostRuntime) -> ExitCode {
    let Some(words) = take_words(&rt) else {
        return ExitCode::from(Status::OutOfMemory.number());
    };
    ExitCode::from(run::<Brand, HostRuntime>(Blank::new(1), &rt, words.as_slice()))
}
