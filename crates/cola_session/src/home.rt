//! Where a session has its table.
ghost use Rattle.std.specs.Prelude.{◌≡◌, ◌≤◌, ℕ, Some};
ghost use Rattle.cola_io.specs.Counted.{CountsFaults};
ghost use Rattle.cola_spec.specs.Command.{Close, Reopen};
ghost use Rattle.cola_spec.specs.Machine.{State, Turn};
ghost use Rattle.cola_line.specs.Spoken.{spoken, CommandFits, IsOfTable};
ghost use Rattle.cola_session.specs.Home as specs;
ghost use Rattle.cola_session.specs.Home.{Turned};

use cola_cell::Format;
use cola_io::{Sink, SinkFault};
use cola_line::Command;
use cola_outside::Steps;
use cola_table::Table;
use std::alloc::Global;
use std::sync::ledger::Ledger;

/// The home of a session: which table is open, how it is closed, and how it is opened again.
///
/// Each call that carries out a command writes the command's reply to the sink. At a fault of the sink the command is carried
/// out all the same, and some front of the reply was written; the sink's count of faults stays at `Ok`, and is one more at
/// `Err`.
pub trait Home {
    /// What is open.
    type Table: Table;

    /// What the lines see of it.
    ghost home: { specs.Home Self Self.Table };

    /// The format of lines.
    fn format(&self) -> Format
        ensures { result ≡ home.format self.now };

    /// Whether the number of ticks of a call stands behind its reply.
    fn cost(&self) -> bool
        ensures { result ≡ home.cost self.now };

    /// For proofs alone: nothing is done. Behind this call a caller knows that the open table has kept its bounds on reads and
    /// writes, and that whoever leaves the home as it is has kept what each line keeps.
    fn know(&self)
        ensures few { home.few self.now }
        ensures stays { home.keeps self.now self.now };

    /// Carries out a command that neither closes nor opens: the table answers it while it is open, and else it is `shut`.
    fn ask<K: Sink, L: Ledger>(
        &mut self,
        command: &Command,
        sink: &mut K,
        steps: &mut Steps<L>,
    ) -> Result<(), SinkFault>
        requires of_table { IsOfTable command.now }
        requires fits { CommandFits (home.format self.old) command.now }
        ensures turn { (state : State) →
            (turn : Turn)
            × Turned Self.Table.Table home K.Sink state
            (Some (spoken command.now)) result self.old self.new sink.old sink.new steps.old steps.new turn }
        ensures faults_counted { CountsFaults result (K.faults sink.old) (K.faults sink.new) }
        ensures faults_kept { K.faults sink.old ≤ K.faults sink.new };

    /// Carries out `close`.
    fn close<K: Sink>(self, sink: &mut K) -> (Self, Result<(), SinkFault>)
        ensures turn { (state : State) (steps : ℕ) →
            (turn : Turn)
            × Turned Self.Table.Table home K.Sink state
            (Some Close) result.1 self result.0 sink.old sink.new steps steps turn }
        ensures faults_counted { CountsFaults result.1 (K.faults sink.old) (K.faults sink.new) }
        ensures faults_kept { K.faults sink.old ≤ K.faults sink.new };

    /// Carries out `open`.
    fn reopen<K: Sink, L: Ledger>(
        self,
        alloc: Global,
        sink: &mut K,
        steps: &mut Steps<L>,
    ) -> (Self, Result<(), SinkFault>)
        ensures turn { (state : State) →
            (turn : Turn)
            × Turned Self.Table.Table home K.Sink state
            (Some Reopen) result.1 self result.0 sink.old sink.new steps.old steps.new turn }
        ensures faults_counted { CountsFaults result.1 (K.faults sink.old) (K.faults sink.new) }
        ensures faults_kept { K.faults sink.old ≤ K.faults sink.new };
}
