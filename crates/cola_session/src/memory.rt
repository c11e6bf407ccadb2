//! A session over a table in memory.
ghost use Rattle.std.specs.Prelude.{◌≡◌, true};
ghost use Rattle.cola_line.specs.Replied.{reply_of};
ghost use Rattle.cola_session.specs.Memory.{MemoryEnds, close_answer, open_answer};

use crate::home::Home;
use crate::session::serve_lines;
use cola_cell::Format;
use cola_io::{Sink, SinkFault, Source};
use cola_line::{Command, Reply, answer, write_reply};
use cola_outside::Steps;
use cola_status::Status;
use cola_table::{FlatTable, Table};
use std::alloc::Global;
use std::sync::ledger::Ledger;

/// A session over a table in memory, which stays as it is while the session is closed.
#[derive(Drop)]
pub struct MemorySession {
    pub table: FlatTable,
    pub is_open: bool,
}

impl MemorySession {
    /// An open session over the table.
    pub fn begin(table: FlatTable) -> MemorySession
        ensures { result ≡ record { table = table; is_open = true } }
    {
        MemorySession {
            table,
            is_open: true,
        }
    }
}

/// What `close` is answered.
fn close_reply(is_open: bool) -> Reply
    ensures { reply_of result ≡ close_answer is_open }
{
    if is_open {
        Reply::Closed
    } else {
        Reply::Already
    }
}

/// What `open` is answered.
fn open_reply(is_open: bool, table: &FlatTable) -> Reply
    ensures { reply_of result ≡ open_answer is_open table.now.map }
{
    if is_open {
        Reply::Already
    } else {
        Reply::Opened(table.count())
    }
}

impl Home for MemorySession {
    ghost use Rattle.cola_session.specs.Memory.{memory_home};

    type Table = FlatTable;

    ghost home = { memory_home };

    fn format(&self) -> Format {
        Format::One
    }

    fn cost(&self) -> bool {
        false
    }

    fn know(&self) {}

    fn ask<K: Sink, L: Ledger>(
        &mut self,
        command: &Command,
        sink: &mut K,
        steps: &mut Steps<L>,
    ) -> Result<(), SinkFault> {
        if self.is_open {
            answer(&mut self.table, command, false, sink, steps)
        } else {
            write_reply(&Reply::Shut, false, 0, sink)
        }
    }

    fn close<K: Sink>(self, sink: &mut K) -> (MemorySession, Result<(), SinkFault>) {
        let MemorySession { table, is_open } = self;
        let written = write_reply(&close_reply(is_open), false, 0, sink);
        (
            MemorySession {
                table,
                is_open: false,
            },
            written,
        )
    }

    fn reopen<K: Sink, L: Ledger>(
        self,
        _alloc: Global,
        sink: &mut K,
        _steps: &mut Steps<L>,
    ) -> (MemorySession, Result<(), SinkFault>) {
        let MemorySession { table, is_open } = self;
        let written = write_reply(&open_reply(is_open, &table), false, 0, sink);
        (
            MemorySession {
                table,
                is_open: true,
            },
            written,
        )
    }
}

/// A session over a new table in memory, and its status.
pub fn serve_memory<S: Source, K: Sink, L: Ledger>(
    alloc: Global,
    keys: u32,
    source: &mut S,
    sink: &mut K,
    steps: &mut Steps<L>,
) -> u8
    ensures { MemoryEnds S.Source K.Sink keys source.old source.new sink.old sink.new steps.old steps.new result }
{
    match FlatTable::new(alloc, keys) {
        Ok(table) => {
            let (_, status) = serve_lines(alloc, MemorySession::begin(table), source, sink, steps);
            status
        }
        Err(_) => Status::OutOfMemory as u8,
    }
}
