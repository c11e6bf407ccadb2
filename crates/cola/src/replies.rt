//! Replies that wait together, and go out before the program waits for input.
ghost use Rattle.std.specs.Prelude.{◌≤◌, IfOk, length};

use std::cell::RefCell;
use std::io::{BufWriter, Error, ErrorKind, Read, Result, Write};

/// Replies that wait, and whether some were lost, since the writer failed.
#[derive(Drop)]
pub struct Replies<W: Write + Drop> {
    writer: BufWriter<W>,
    lost: bool,
}

/// What is answered where replies were lost.
fn loss() -> Error {
    Error::from(ErrorKind::WriteZero)
}

impl<W: Write + Drop> Replies<W> {
    /// None waits yet.
    pub fn new(writer: BufWriter<W>) -> Replies<W> {
        Replies {
            writer,
            lost: false,
        }
    }

    /// Writes those that wait. Whether none was lost.
    pub fn send(&mut self) -> bool {
        if !self.lost && self.writer.flush().is_err() {
            self.lost = true;
        }
        !self.lost
    }

    /// Puts bytes of a reply behind those that wait, and answers how many. An error where some were lost.
    fn put(&mut self, from: &[u8]) -> Result<usize>
        ensures { IfOk result (λ count. count ≤ length from.now) }
    {
        if self.lost {
            return Err(loss());
        }
        let put = self.writer.write(from);
        if put.is_err() {
            self.lost = true;
        }
        put
    }
}

/// The replies as a writer.
#[derive(Drop)]
pub struct Waiting<'a, W: Write + Drop> {
    pub replies: &'a RefCell<Replies<W>>,
}

impl<'a, W: Write + Drop> Write for Waiting<'a, W> {
    fn write(&mut self, from: &[u8]) -> Result<usize> {
        match self.replies.try_borrow_mut() {
            Ok(mut replies) => replies.put(from),
            Err(_) => Err(loss()),
        }
    }

    fn flush(&mut self) -> Result<()> {
        match self.replies.try_borrow_mut() {
            Ok(mut replies) => { if replies.send() { Ok(()) } else { Err(loss()) } }
            Err(_) => Err(loss()),
        }
    }
}

/// A reader that sends the replies before each read. Where some were lost no more is read.
#[derive(Drop)]
pub struct Asking<'a, R: Drop, W: Write + Drop> {
    pub reader: R,
    pub replies: &'a RefCell<Replies<W>>,
}

impl<'a, R: Read + Drop, W: Write + Drop> Read for Asking<'a, R, W> {
    fn read(&mut self, into: &mut [u8]) -> Result<usize> {
        let sent = match self.replies.try_borrow_mut() {
            Ok(mut replies) => replies.send(),
            Err(_) => false,
        };
        if sent {
            self.reader.read(into)
        } else {
            Err(loss())
        }
    }
}
