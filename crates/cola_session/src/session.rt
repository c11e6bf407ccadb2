//! A session over any home: what a line does, and the lines of a source one after another.
ghost use Rattle.std.specs.Prelude.{◌≡◌, ◌≤◌, option_copied};
ghost use Rattle.cola_io.specs.Counted.{CountsFaults};
ghost use Rattle.cola_session.specs.Home.{Leads, LinesEnd};
ghost use Rattle.cola_session.specs.Reading.{line_read};

use crate::home::Home;
use crate::reading::{INPUT_LIMIT, text_of};
use cola_io::{LineReader, Next, Sink, SinkFault, Source};
use cola_line::{Command, Reply, parse_line, write_reply};
use cola_outside::Steps;
use cola_status::Status;
use std::alloc::Global;
use std::sync::ledger::Ledger;

/// Carries out a line, of which the text is given, or none where it was too long, and writes its reply. An empty line has
/// none. At a fault of the sink the line is carried out all the same, and some front of the reply was written.
///
/// What is no command of the home's format is answered `bad`. The home closes and opens its table by `close` and `open`; all
/// other commands are answered by the table while it is open, and `shut` else.
pub fn carry_out<H: Home, K: Sink, L: Ledger>(
    home: H,
    alloc: Global,
    text: Option<&[u8]>,
    sink: &mut K,
    steps: &mut Steps<L>,
) -> (H, Result<(), SinkFault>)
    ensures line { Leads H.Table.Table H.home K.Sink
        (line_read (option_copied text.entry)) result.1 home result.0 sink.old sink.new steps.old steps.new }
    ensures faults_counted { CountsFaults result.1 (K.faults sink.old) (K.faults sink.new) }
    ensures faults_kept { K.faults sink.old ≤ K.faults sink.new }
{
    home.know();
    let Some(text) = text else {
        let written = write_reply(&Reply::Bad, home.cost(), 0, sink);
        return (home, written);
    };
    if text.is_empty() {
        return (home, Ok(()));
    }
    match parse_line(text, home.format()) {
        Some(Command::Close) => home.close(sink),
        Some(Command::Reopen) => home.reopen(alloc, sink, steps),
        Some(command) => {
            let mut home = home;
            let written = home.ask(&command, sink, steps);
            (home, written)
        }
        None => {
            let written = write_reply(&Reply::Bad, home.cost(), 0, sink);
            (home, written)
        }
    }
}

/// Carries out the lines of the source, and gives the home and the status: 0 where the end of the source was met, 3 where it
/// failed, 4 where the sink failed, and 9 where all bytes that may be taken were.
pub fn serve_lines<S: Source, K: Sink, H: Home, L: Ledger>(
    alloc: Global,
    home: H,
    source: &mut S,
    sink: &mut K,
    steps: &mut Steps<L>,
) -> (H, u8)
    ensures { LinesEnd H.Table.Table H.home K.Sink S.Source home result.0 source.old source.new sink.old sink.new steps.old steps.new result.1 }
{
    let mut home = home;
    let mut reader = LineReader::new(INPUT_LIMIT);
    'lines: loop {
        let next = reader.next_line(source);
        match next {
            Next::End => return (home, Status::Done as u8),
            Next::Fault => return (home, Status::SourceFailed as u8),
            Next::Budget => return (home, Status::Spent as u8),
            _ => {}
        }
        let text = text_of(&reader, next);
        let (after, written) = carry_out(home, alloc, text, sink, steps);
        home = after;
        if let Err(_) = written {
            return (home, Status::SinkFailed as u8);
        }
    }
}
