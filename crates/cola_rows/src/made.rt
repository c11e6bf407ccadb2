//! Sessions of many made lines, in memory and over files, beside the plain session.
use crate::allowed::{is_cut_off, script_of};
use crate::files::{Simple, device_of, session_over, simple_session};
use crate::outside::Watched;
use crate::talk::{Ask, MOSTLY_STAMPS, Talk, WITH_STAMPS, WITHOUT_STAMPS, next_number, whole_map};
use crate::text::push_escaped;
use cola_device::Device;
use cola_plain::script::requests;
use cola_plain::session::Session;
use cola_plain::shape::Shape;
use cola_plain::turn::{faulted_steps, turns_text};
use std::alloc::{AllocError, Global};

/// The most lines of one session.
const AT_ONCE: u32 = 2000;

/// The most lines of one session with failing calls.
const AT_ONCE_WITH_FAULTS: u32 = 500;

/// What a session is over.
#[derive(Clone, Copy, Drop)]
enum Home {
    Memory,
    File,
    /// A file on a device of which calls fail.
    FailingFile,
    /// A mirror over two files, of which calls of one fail.
    Mirror,
}

/// A kind of sessions: how a file is made and served, and which lines are made.
#[derive(Drop)]
struct Kind {
    name: &'static str,
    home: Home,
    create: &'static str,
    run: &'static str,
    limit: usize,
    /// Whether puts take stamps, as in files of version 2.
    stamped: bool,
    mix: &'static [Ask; 16],
}

/// A session in memory, or over files of version 1.
fn plainly(
    name: &'static str,
    home: Home,
    create: &'static str,
    run: &'static str,
    limit: usize,
) -> Kind {
    Kind {
        name,
        home,
        create,
        run,
        limit,
        stamped: false,
        mix: &WITHOUT_STAMPS,
    }
}

/// A session over files of version 2.
fn stamped(
    name: &'static str,
    home: Home,
    create: &'static str,
    run: &'static str,
    limit: usize,
) -> Kind {
    Kind {
        name,
        home,
        create,
        run,
        limit,
        stamped: true,
        mix: &WITH_STAMPS,
    }
}

impl Kind {
    /// What the map of such a session may hold.
    fn shape(&self) -> Shape {
        Shape {
            limit: self.limit,
            key_limit: if self.stamped { 40 } else { 24 },
            value_limit: if self.stamped { 72 } else { 32 },
            stamped: self.stamped,
        }
    }
}

/// All kinds.
fn kinds() -> [Kind; 13] {
    let small = "create F --keys 150 --block 3";
    let small_2 = "create F --keys 150 --block 3 --version 2";
    let large = "create F --keys 512";
    let large_2 = "create F --keys 512 --version 2";
    let large_3 = "create F --keys 512 --block 3";
    let large_4 = "create F --keys 512 --block 3 --version 2";
    let failing = Home::FailingFile;
    let mut mostly = stamped("stamps", Home::File, large_2, "run F --cache 1", 512);
    mostly.mix = &MOSTLY_STAMPS;
    [
        plainly("memory, roomy", Home::Memory, "", "mem 512", 512),
        plainly("memory, full", Home::Memory, "", "mem 150", 150),
        plainly(
            "version 1, roomy",
            Home::File,
            large,
            "run F --cache 4",
            512,
        ),
        plainly("version 1, full", Home::File, small, "run F", 150),
        stamped(
            "version 2, roomy",
            Home::File,
            large_2,
            "run F --cache 4",
            512,
        ),
        stamped("version 2, full", Home::File, small_2, "run F", 150),
        mostly,
        plainly(
            "version 1, roomy, with faults",
            failing,
            large_3,
            "run F --cache 4",
            512,
        ),
        plainly("version 1, full, with faults", failing, small, "run F", 150),
        stamped(
            "version 2, roomy, with faults",
            failing,
            large_4,
            "run F --cache 4",
            512,
        ),
        stamped(
            "version 2, full, with faults",
            failing,
            small_2,
            "run F",
            150,
        ),
        plainly(
            "version 1, a side of a mirror fails",
            Home::Mirror,
            large_3,
            "run F --mirror G --cache 4",
            512,
        ),
        stamped(
            "version 2, a side of a mirror fails",
            Home::Mirror,
            small_2,
            "run F --mirror G",
            150,
        ),
    ]
}

/// How a session compares with the plain one.
#[derive(Drop)]
enum Found {
    Same,
    /// The lines of replies from a number on differ.
    Reply(usize, Vec<u8>, Vec<u8>),
    /// The status is another.
    Status(u8, u8),
    /// The device counts other faults than the replies have.
    Faults(u64, u64),
}

/// The line of replies with this number, from 0.
fn line_at(alloc: Global, replies: &[u8], number: usize) -> Result<Vec<u8>, AllocError> {
    let mut place = 0usize;
    for line in replies.split(|byte| *byte == b'\n') {
        if place == number {
            return Vec::from_slice(alloc, line);
        }
        place = place.saturating_add(1);
    }
    Ok(Vec::new(alloc))
}

/// Compares replies and a status.
fn compare(alloc: Global, ended: &Simple, replies: &[u8], status: u8) -> Result<Found, AllocError> {
    let mut number = 0usize;
    for (got, plain) in ended.replies.iter().zip(replies.iter()) {
        if got != plain {
            break;
        }
        if *got == b'\n' {
            number = number.saturating_add(1);
        }
    }
    if ended.replies.as_slice() != replies {
        let got = line_at(alloc, &ended.replies, number)?;
        let plain = line_at(alloc, replies, number)?;
        return Ok(Found::Reply(number, got, plain));
    }
    if ended.status != status {
        return Ok(Found::Status(ended.status, status));
    }
    Ok(Found::Same)
}

/// A device with nothing on it.
fn empty_device(alloc: Global) -> Result<Watched, AllocError> {
    device_of(alloc, Vec::new(alloc), 1 << 20, Vec::new(alloc))
}

/// A new file of such sessions; in memory none.
fn new_file(alloc: Global, kind: &Kind) -> Result<Watched, AllocError> {
    let device = empty_device(alloc)?;
    match kind.home {
        Home::Memory => Ok(device),
        Home::File | Home::FailingFile | Home::Mirror => {
            let made = simple_session(alloc, kind.create, b"", device)?;
            Ok(made.device)
        }
    }
}

/// Whether a file, served by these words, serves the map of an open plain session.
fn holds(
    alloc: Global,
    kind: &Kind,
    run: &str,
    plain: &mut Session,
    device: Watched,
) -> Result<Found, AllocError> {
    let shape = kind.shape();
    let lines = whole_map(alloc, &shape)?;
    let replies = plain.run(alloc, &shape, lines.as_bytes())?;
    let ended = simple_session(alloc, run, lines.as_bytes(), device)?;
    compare(alloc, &ended, &replies, 0)
}

/// Compares a session in which nothing fails, and then the map that its file holds.
fn serves_alike(alloc: Global, kind: &Kind, count: u32, number: u32) -> Result<Found, AllocError> {
    let mut talk = Talk::new(alloc, kind.shape(), number);
    talk.make(alloc, kind.mix, count)?;
    let device = new_file(alloc, kind)?;
    let ended = simple_session(alloc, kind.run, &talk.lines, device)?;
    let found = compare(alloc, &ended, &talk.replies, 0)?;
    match (kind.home, &found) {
        (Home::File, Found::Same) => { holds(alloc, kind, kind.run, &mut talk.plain, ended.device) }
        _ => Ok(found),
    }
}

/// How many calls come before the first line: in them a file is opened.
const OPENING_CALLS: u64 = 20;

/// The numbers of calls of a device that fail: about one in 26, and none of the first ones.
fn failing_calls(alloc: Global, first: u32, before: u64) -> Result<Vec<u64>, AllocError> {
    let mut calls = Vec::new(alloc);
    let mut number = first;
    let mut call = before;
    for _ in 0..400 {
        number = next_number(number);
        let apart = (number >> 8) % 50;
        call = call.saturating_add(apart as u64);
        calls.push(call)?;
        call = call.saturating_add(1);
    }
    Ok(calls)
}

/// The file of a device, on one that does not fail.
fn without_faults(alloc: Global, device: Watched) -> Result<Watched, AllocError> {
    device_of(alloc, device.device.into_bytes(), 0, Vec::new(alloc))
}

/// Compares a session over a device with failing calls with a history of the machine that has a fault for each reply `fault`.
/// Where it ended well, the file serves the map of that run. It gives the number of faults too.
fn serves_with_faults(
    alloc: Global,
    kind: &Kind,
    count: u32,
    number: u32,
) -> Result<(Found, u64), AllocError> {
    let shape = kind.shape();
    let mut talk = Talk::new(alloc, kind.shape(), number);
    talk.make(alloc, kind.mix, count)?;
    let bytes = new_file(alloc, kind)?.device.into_bytes();
    let device = device_of(
        alloc,
        bytes,
        0,
        failing_calls(alloc, number, OPENING_CALLS)?,
    )?;
    let ended = simple_session(alloc, kind.run, &talk.lines, device)?;
    let script = script_of(alloc, &ended.replies)?;
    let asked = requests(alloc, &shape, &talk.lines)?;
    let mut plain = Session::new(alloc);
    let turns = plain.scripted_run(alloc, &shape, &asked, &script)?;
    let replies = turns_text(alloc, &turns, false)?;
    let faults = faulted_steps(&turns) as u64;
    let counted = ended.device.faults();
    // (beside the faults that were answered, the close at the end may meet one)
    let of_last_close = counted.wrapping_sub(faults);
    if of_last_close > 1 {
        return Ok((Found::Faults(counted, faults), faults));
    }
    let ends_well = of_last_close == 0 && !is_cut_off(&turns);
    let found = compare(alloc, &ended, &replies, if ends_well { 0 } else { 5 })?;
    match (ends_well, &found) {
        (true, Found::Same) => {
            let _opened = plain.run(alloc, &shape, b"close\nopen\n")?;
            let device = without_faults(alloc, ended.device)?;
            Ok((holds(alloc, kind, kind.run, &mut plain, device)?, faults))
        }
        _ => Ok((found, faults)),
    }
}

/// Compares a session over a mirror of which calls of one side fail with the plain one, in which nothing does, and then the
/// map that the other side holds. Where no side was lost both files are the same. It gives the number of faults too.
fn serves_mirrored(
    alloc: Global,
    kind: &Kind,
    count: u32,
    number: u32,
) -> Result<(Found, u64), AllocError> {
    let mut talk = Talk::new(alloc, kind.shape(), number);
    talk.make(alloc, kind.mix, count)?;
    let bytes = new_file(alloc, kind)?.device.into_bytes();
    // (the two are compared first: the size, and pieces of 512 bytes)
    let compared = (bytes.len() as u64 / 512).saturating_add(1);
    let before = compared.saturating_add(OPENING_CALLS);
    let sound = device_of(alloc, bytes.clone()?, 0, Vec::new(alloc))?;
    let failing = device_of(alloc, bytes, 0, failing_calls(alloc, number, before)?)?;
    let fails_first = number % 2 == 0;
    let (first, second) = if fails_first {
        (failing, sound)
    } else {
        (sound, failing)
    };
    let ended = session_over(alloc, kind.run, &talk.lines, first, second)?;
    let lost = if fails_first { 17 } else { 18 };
    let is_lost = ended.status == lost;
    let found = compare(alloc, &ended, &talk.replies, if is_lost { lost } else { 0 })?;
    let Simple { device, second, .. } = ended;
    let are_same = device.device.as_bytes() == second.device.as_bytes();
    let (failing, sound) = if fails_first {
        (device, second)
    } else {
        (second, device)
    };
    let faults = failing.faults();
    match found {
        Found::Same if !is_lost && !are_same => Ok((Found::Status(0, lost), faults)),
        Found::Same => Ok((holds(alloc, kind, "run F", &mut talk.plain, sound)?, faults)),
        found => Ok((found, faults)),
    }
}

/// Adds how a session differs from the plain one.
fn push_found(out: &mut String, found: &Found, kind: &Kind, seed: u32) -> Result<(), AllocError> {
    let name = kind.name;
    match found {
        Found::Same => Ok(()),
        Found::Reply(number, got, plain) => {
            let number = number.saturating_add(1);
            writeln!(
                out,
                "{name}, seed {seed}: line {number} of the replies differs"
            )?;
            out.push_str("= ")?;
            push_escaped(out, got)?;
            out.push_str("\nplain ")?;
            push_escaped(out, plain)?;
            out.push_str("\n")
        }
        Found::Status(got, want) => {
            writeln!(out, "{name}, seed {seed}: status {got} and not {want}")
        }
        Found::Faults(got, want) => {
            writeln!(
                out,
                "{name}, seed {seed}: {got} faults, of which {want} are answered"
            )
        }
    }
}

/// Compares sessions of a kind, of so many lines together. Answers whether all are as the plain ones.
fn compare_kind(
    alloc: Global,
    kind: &Kind,
    seed: u32,
    count: u32,
    out: &mut String,
) -> Result<bool, AllocError> {
    let at_once = match kind.home {
        Home::FailingFile | Home::Mirror => AT_ONCE_WITH_FAULTS,
        _ => AT_ONCE,
    };
    let mut number = seed;
    let mut done = 0u32;
    let mut all_faults = 0u64;
    for _ in 0..count {
        let lines = at_once.min(count.saturating_sub(done));
        if lines == 0 {
            break;
        }
        let (found, faults) = match kind.home {
            Home::FailingFile => serves_with_faults(alloc, kind, lines, number)?,
            Home::Mirror => serves_mirrored(alloc, kind, lines, number)?,
            _ => (serves_alike(alloc, kind, lines, number)?, 0),
        };
        if !matches!(found, Found::Same) {
            push_found(out, &found, kind, number)?;
            return Ok(false);
        }
        done = done.saturating_add(lines);
        all_faults = all_faults.saturating_add(faults);
        number = number.wrapping_add(1);
    }
    write!(out, "{}: {count} lines", kind.name)?;
    if let Home::FailingFile | Home::Mirror = kind.home {
        write!(out, ", {all_faults} faults")?;
    }
    out.push('\n')?;
    Ok(true)
}

/// Compares sessions of each kind with the plain one, of so many made lines each, and adds what came. Answers whether all
/// are alike.
pub(crate) fn compare_made(
    alloc: Global,
    seed: u32,
    count: u32,
    out: &mut String,
) -> Result<bool, AllocError> {
    for kind in &kinds() {
        if !compare_kind(alloc, kind, seed, count, out)? {
            return Ok(false);
        }
    }
    Ok(true)
}
