//! What a session over a store in a file does line by line.
ghost use Rattle.std.specs.Prelude.{◌≡◌, ◌≤◌, option_copied};
ghost use Rattle.cola_io.specs.Counted.{CountsFaults};
ghost use Rattle.cola_store.specs.Table.{store_table};
ghost use Rattle.cola_line.specs.Replied.{reply_of};
ghost use Rattle.cola_command.specs.File.{device_of, format_of};
ghost use Rattle.cola_session.specs.Home.{Leads, cut_by};
ghost use Rattle.cola_command.specs.Moves.{AreFew};
ghost use Rattle.cola_session.specs.Reading.{line_read};
ghost use Rattle.cola_command.specs.Turns.{file_home, Begins, Ended, device_begun};

use crate::file::Session;
use crate::place::{Place, close, open};
use cola_cell::Format;
use cola_device::Device;
use cola_io::{Sink, SinkFault};
use cola_line::{Command, Failure, Reply, answer, write_reply};
use cola_outside::Steps;
use cola_session::{Home, carry_out};
use cola_store::{OpenFault, Store};
use cola_table::Table;
use std::alloc::Global;
use std::sync::ledger::Ledger;

/// The format of lines: that of the store while it is open, else the last one.
fn format_of<D: Device>(place: &Place<D>, last: Format) -> Format
    ensures { result ≡ format_of place.now last }
{
    match place {
        Place::Open(store) => store.format(),
        _ => last,
    }
}

/// Whether the last file that was to be opened met a fault, after one that was answered so.
fn cut_after(reply: &Reply, before: bool) -> bool
    ensures { result ≡ cut_by (reply_of reply.now) before }
{
    match reply {
        Reply::Failed(Failure::Fault) => true,
        Reply::Opened(_) => false,
        _ => before,
    }
}

impl<D: Device> Session<D> {
    /// Opens the store in the file of a device behind a cache of up to `cache` blocks, at most 4096, and begins an open
    /// session over it. Where `cost` is asked for, the number of ticks of a call stands behind its reply. It makes no tick.
    ///
    /// An error is that of the opening, and gives the device back.
    pub fn begin<L: Ledger>(
        alloc: Global,
        device: D,
        cache: u32,
        cost: bool,
        steps: &mut Steps<L>,
    ) -> Result<Session<D>, (D, OpenFault)>
        requires { cache ≤ 4096 }
        ensures begins { Begins D.Device device cache cost result }
        ensures kept { D.kept (device_begun result) ≡ D.kept device }
        ensures no_tick { steps.new ≡ steps.old }
    {
        match Store::open_on(alloc, device, cache, steps) {
            Ok(store) => {
                let format = store.format();
                Ok(Session {
                    place: Place::Open(store),
                    cache,
                    cost,
                    format,
                    cut_off: false,
                })
            }
            Err(refusal) => Err(refusal),
        }
    }

    /// Carries out a line, of which the text is given, or none where it was too long, and writes its reply. An empty line
    /// has none. At a fault of the sink the line is carried out all the same, and some front of the reply was written.
    ///
    /// What is no command of the store's format is answered `bad`. `close` closes the store in one attempt: `closed`, or
    /// `fault` where the device refused a call, and then the store is not closed yet, and the next `close` tries again.
    /// `open` opens a closed store: `open` with the number of its keys, or the word of the opening's refusal, which leaves it
    /// closed. Where there is nothing to close or to open, both are answered `already`. All other commands are answered by
    /// the store while it is open, and `shut` else. The format is that of the store while it is open, and the last one else.
    ///
    /// The device's count of faults rises where the reply is `fault`, or ends in it, and in no other line. The sink's count
    /// stays at `Ok`, and is one more at `Err`. A put, a delete, a get and a stamp make at most 40 or 8 ticks for each level, a
    /// range and a scan at most as many as the store's walk, and no other line makes one. No memory is taken but by `open`.
    pub fn line<K: Sink, L: Ledger>(
        self,
        alloc: Global,
        text: Option<&[u8]>,
        sink: &mut K,
        steps: &mut Steps<L>,
    ) -> (Session<D>, Result<(), SinkFault>)
        ensures line { Leads (store_table D.Device) (file_home D.Device) K.Sink
            (line_read (option_copied text.entry)) result.1 self result.0 sink.old sink.new steps.old steps.new }
        ensures faults_counted { CountsFaults result.1 (K.faults sink.old) (K.faults sink.new) }
        ensures faults_kept { K.faults sink.old ≤ K.faults sink.new }
    {
        carry_out(self, alloc, text, sink, steps)
    }

    /// Whether an `open` met a fault, and none succeeded since.
    pub fn is_cut_off(&self) -> bool
        ensures { result ≡ self.now.cut_off }
    {
        self.cut_off
    }

    /// Closes the store where it is not closed, in one attempt, and gives the device, and whether the store is closed. It is
    /// not only where the device refused a call.
    pub fn end(self) -> (D, bool)
        ensures ended { Ended D.Device self result.0 result.1 }
        ensures kept { D.kept result.0 ≡ D.kept (device_of self.place) }
        ensures few { AreFew D.Device self.place }
    {
        self.know();
        let Session { place, .. } = self;
        let (place, _) = close(place);
        match place {
            Place::Open(_) => unreachable!(),
            Place::Closing(closing) => (closing.into_device(), false),
            Place::Closed(device) => (device, true),
        }
    }
}

impl<D: Device> Home for Session<D> {
    type Table = Store<D>;

    ghost home = { file_home D.Device };

    /// The format of the store while it is open; while it is not, the format that it had when it was open last.
    fn format(&self) -> Format {
        format_of(&self.place, self.format)
    }

    fn cost(&self) -> bool {
        self.cost
    }

    fn know(&self) {
        match &self.place {
            Place::Open(store) => {
                let (_reads, _writes) = store.transfers();
            }
            Place::Closing(_) => {}
            Place::Closed(_) => {}
        }
    }

    fn ask<K: Sink, L: Ledger>(
        &mut self,
        command: &Command,
        sink: &mut K,
        steps: &mut Steps<L>,
    ) -> Result<(), SinkFault> {
        let cost = self.cost;
        match &mut self.place {
            Place::Open(store) => answer(store, command, cost, sink, steps),
            Place::Closing(_) => write_reply(&Reply::Shut, cost, 0, sink),
            Place::Closed(_) => write_reply(&Reply::Shut, cost, 0, sink),
        }
    }

    fn close<K: Sink>(self, sink: &mut K) -> (Session<D>, Result<(), SinkFault>) {
        let format = format_of(&self.place, self.format);
        let Session {
            place,
            cache,
            cost,
            cut_off,
            ..
        } = self;
        let (place, reply) = close(place);
        let written = write_reply(&reply, cost, 0, sink);
        (
            Session {
                place,
                cache,
                cost,
                format,
                cut_off,
            },
            written,
        )
    }

    fn reopen<K: Sink, L: Ledger>(
        self,
        alloc: Global,
        sink: &mut K,
        steps: &mut Steps<L>,
    ) -> (Session<D>, Result<(), SinkFault>) {
        let Session {
            place,
            cache,
            cost,
            format,
            cut_off,
        } = self;
        let (place, reply) = open(alloc, place, cache, steps);
        let written = write_reply(&reply, cost, 0, sink);
        let cut_off = cut_after(&reply, cut_off);
        (
            Session {
                place,
                cache,
                cost,
                format,
                cut_off,
            },
            written,
        )
    }
}
