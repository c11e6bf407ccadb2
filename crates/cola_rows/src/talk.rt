//! Made lines, and the replies of the plain session to them.
ghost use Rattle.std.specs.Prelude.{◌<◌};

use cola_plain::command::Command;
use cola_plain::reply::Reply;
use cola_plain::session::Session;
use cola_plain::shape::Shape;
use std::alloc::{AllocError, Global};

/// What a made line asks for. Some lines of the last kind ask for nothing, and some for what the rest does not.
#[derive(Clone, Copy, Drop)]
pub(crate) enum Ask {
    Put,
    PutIf,
    Del,
    Get,
    Stamp,
    Range,
    Scan,
    Count,
    Odd,
}

/// Most lines put and delete; a file of version 1 takes all but the odd ones.
pub(crate) const WITHOUT_STAMPS: [Ask; 16] = [
    Ask::Put,
    Ask::Put,
    Ask::Put,
    Ask::Put,
    Ask::Put,
    Ask::Put,
    Ask::Del,
    Ask::Del,
    Ask::Del,
    Ask::Get,
    Ask::Get,
    Ask::Range,
    Ask::Scan,
    Ask::Count,
    Ask::Odd,
    Ask::Odd,
];

/// The same with stamps: a file of version 2 takes all but some odd ones.
pub(crate) const WITH_STAMPS: [Ask; 16] = [
    Ask::Put,
    Ask::Put,
    Ask::Put,
    Ask::PutIf,
    Ask::PutIf,
    Ask::PutIf,
    Ask::Del,
    Ask::Del,
    Ask::Del,
    Ask::Get,
    Ask::Stamp,
    Ask::Range,
    Ask::Scan,
    Ask::Count,
    Ask::Odd,
    Ask::Odd,
];

/// Most lines ask for a stamp, or name one.
pub(crate) const MOSTLY_STAMPS: [Ask; 16] = [
    Ask::Put,
    Ask::Put,
    Ask::PutIf,
    Ask::PutIf,
    Ask::PutIf,
    Ask::PutIf,
    Ask::PutIf,
    Ask::PutIf,
    Ask::PutIf,
    Ask::Del,
    Ask::Del,
    Ask::Stamp,
    Ask::Stamp,
    Ask::Stamp,
    Ask::Get,
    Ask::Scan,
];

/// Lines that are no command, that have no reply, or that are commands of version 2 alone.
const ODD: [&str; 16] = [
    "putt k1 v",
    "GET k1",
    "get",
    "get k1 ",
    "get  k1",
    " get k1",
    "count ",
    "range k1",
    "scan k1 12345678901",
    "scan k1 -1",
    "put k1 v w",
    "get k\x001",
    "stamp k1",
    "putif k1 0 v",
    "",
    "\r",
];

/// The next number of a sequence that visits all numbers of 32 bits, by the rule of Knuth and Lewis.
pub(crate) fn next_number(number: u32) -> u32 {
    number.wrapping_mul(1_664_525).wrapping_add(1_013_904_223)
}

/// How many keys the made lines are about.
const KEYS: u32 = 300;

/// The key of a number, of the greatest length for one number in 16.
fn key_of(alloc: Global, number: u32, shape: &Shape) -> Result<String, AllocError> {
    let mut key = format!(in alloc; "k{number}")?;
    if number % 16 == 5 {
        lengthen(&mut key, shape.key_limit)?;
    }
    Ok(key)
}

/// Adds to a text up to a length.
fn lengthen(text: &mut String, length: usize) -> Result<(), AllocError> {
    for _ in text.len()..length {
        text.push('-')?;
    }
    Ok(())
}

/// A line for each key that made lines are about, which asks for its stamp, behind lines that ask for the keys with their
/// values.
pub(crate) fn whole_map(alloc: Global, shape: &Shape) -> Result<String, AllocError> {
    let mut lines = String::from_str(alloc, "count\nscan k 9999\n")?;
    for number in 0..KEYS {
        let key = key_of(alloc, number, shape)?;
        lines.push_str("stamp ")?;
        lines.push_str(&key)?;
        lines.push('\n')?;
    }
    Ok(lines)
}

/// Lines that were made so far, the plain session's replies, and the plain session after them.
#[derive(Drop)]
pub(crate) struct Talk {
    pub(crate) shape: Shape,
    pub(crate) plain: Session,
    pub(crate) lines: Vec<u8>,
    pub(crate) replies: Vec<u8>,
    number: u32,
}

impl Talk {
    /// No line yet, over an empty map of this shape. The lines to come are made from the number.
    pub(crate) fn new(alloc: Global, shape: Shape, number: u32) -> Talk {
        Talk {
            shape,
            plain: Session::new(alloc),
            lines: Vec::new(alloc),
            replies: Vec::new(alloc),
            number,
        }
    }

    /// The next made number below another.
    fn draw(&mut self, below: u32) -> u32
        requires { 0 < below }
        ensures { result < below }
    {
        self.number = next_number(self.number);
        (self.number >> 8) % below
    }

    fn key(&mut self, alloc: Global) -> Result<String, AllocError> {
        let number = self.draw(KEYS);
        key_of(alloc, number, &self.shape)
    }

    /// A value: now and then the empty one, or one of the greatest length.
    fn value(&mut self, alloc: Global) -> Result<String, AllocError> {
        let number = self.draw(1000);
        let mut value = format!(in alloc; "v{number}")?;
        match number % 8 {
            0 => value = String::new(alloc),
            1 => lengthen(&mut value, self.shape.value_limit)?,
            _ => {}
        }
        Ok(value)
    }

    /// The stamp of a key, 0 where it has none; every second time one that is up to 15 lower.
    fn seen(&mut self, alloc: Global, key: &str) -> Result<u64, AllocError> {
        let asked = Some(Command::Stamp(key.as_bytes()));
        let stamp = match self.plain.answer(alloc, &self.shape, asked)? {
            Reply::Stamped(Some(stamp)) => stamp,
            _ => 0,
        };
        let lower = match self.draw(2) {
            0 => 0,
            _ => self.draw(16),
        };
        Ok(stamp.saturating_sub(lower as u64))
    }

    /// A line that is a command of neither format, or of one alone.
    fn odd(&mut self, alloc: Global) -> Result<String, AllocError> {
        let mut key = self.key(alloc)?;
        let mut value = self.value(alloc)?;
        match self.draw(8) {
            0 => {
                lengthen(&mut key, self.shape.key_limit.saturating_add(1))?;
                format!(in alloc; "get {key}")
            }
            1 => {
                lengthen(&mut value, self.shape.value_limit.saturating_add(1))?;
                format!(in alloc; "put {key} {value}")
            }
            2 => {
                lengthen(&mut value, 160)?;
                Ok(value)
            }
            3 => {
                lengthen(&mut value, 161)?;
                Ok(value)
            }
            _ => String::from_str(alloc, ODD[self.draw(16) as usize]),
        }
    }

    /// The next made line.
    fn line(&mut self, alloc: Global, ask: Ask) -> Result<String, AllocError> {
        let key = self.key(alloc)?;
        match ask {
            Ask::Put => {
                let value = self.value(alloc)?;
                format!(in alloc; "put {key} {value}")
            }
            Ask::PutIf => {
                let seen = self.seen(alloc, &key)?;
                let value = self.value(alloc)?;
                format!(in alloc; "putif {key} {seen} {value}")
            }
            Ask::Del => format!(in alloc; "del {key}"),
            Ask::Get => format!(in alloc; "get {key}"),
            Ask::Stamp => format!(in alloc; "stamp {key}"),
            Ask::Range => {
                let high = self.key(alloc)?;
                format!(in alloc; "range {key} {high}")
            }
            Ask::Scan => {
                let most = self.draw(24);
                format!(in alloc; "scan {key} {most}")
            }
            Ask::Count => String::from_str(alloc, "count"),
            Ask::Odd => self.odd(alloc),
        }
    }

    /// Adds a line and its reply.
    fn add(&mut self, alloc: Global, line: &str) -> Result<(), AllocError> {
        let ended = format!(in alloc; "{line}\n")?;
        let reply = self.plain.run(alloc, &self.shape, ended.as_bytes())?;
        self.lines.extend_from_slice(ended.as_bytes())?;
        self.replies.extend_from_slice(&reply)?;
        Ok(())
    }

    /// Adds so many made lines, and behind each hundred of them lines that close the map and open it.
    pub(crate) fn make(
        &mut self,
        alloc: Global,
        mix: &[Ask; 16],
        count: u32,
    ) -> Result<(), AllocError> {
        for place in 1..=count {
            let ask = mix[self.draw(16) as usize];
            let mut line = self.line(alloc, ask)?;
            if self.draw(16) == 0 {
                line.push('\r')?;
            }
            self.add(alloc, &line)?;
            if place % 100 == 0 {
                for line in ["close", "get k1", "close", "open", "open"] {
                    self.add(alloc, line)?;
                }
            }
        }
        Ok(())
    }
}
