//! The reply that a table gives to a command.
ghost use Rattle.std.specs.Prelude.{◌≡◌, ◌-◌, ◌≤◌, Bool};
ghost use Rattle.cola_io.specs.Counted.{CountsFaults};
ghost use Rattle.cola_spec.specs.Map.{Map};
ghost use Rattle.cola_spec.specs.Reply.{reply_text};
ghost use Rattle.cola_spec.specs.Machine.{Turn};
ghost use Rattle.cola_spec.specs.Bounds.{command_bound};
ghost use Rattle.cola_table.specs.Replies.{turn_of};
ghost use Rattle.cola_line.specs.Spoken.{spoken, CommandFits, IsOfTable, IsOfOneLine};
ghost use Rattle.cola_line.specs.Replied.{reply_of};
ghost use Rattle.cola_line.specs.Answered.{Answered, Calls, GaveTurn};

use crate::ask::{delete, get, put, put_if, stamp};
use crate::command::Command;
use crate::reply::{Reply, write_reply};
use crate::rows::write_rows;
use cola_io::{Sink, SinkFault};
use cola_outside::Steps;
use cola_table::Table;
use std::sync::ledger::Ledger;

/// The reply to a command that is answered by one line, and the ticks that were made for it.
fn ask<T: Table, L: Ledger>(table: &mut T, command: &Command, steps: &mut Steps<L>) -> (Reply, u32)
    requires one_line { IsOfOneLine command.now }
    requires fits { CommandFits (T.terms table.old).format command.now }
    ensures turn { GaveTurn T.Table table.old
        (turn_of (spoken command.now) (reply_of result.0) (steps.new - steps.old)) table.new }
    ensures call { Calls T.Table table.old table.new steps.old steps.new
        (command_bound (T.terms table.old).depth (spoken command.now)) }
    ensures ticks { (cost : Bool) →
        reply_text cost result.1 (reply_of result.0) ≡ reply_text cost (steps.new - steps.old)
        (reply_of result.0) }
{
    match command {
        Command::Put(key, value) => put(table, key, value, steps),
        Command::PutIf(key, seen, value) => put_if(table, key, *seen, value, steps),
        Command::Del(key) => delete(table, key, steps),
        Command::Get(key) => get(table, key, steps),
        Command::Stamp(key) => stamp(table, key, steps),
        Command::Count => (Reply::Counted(table.count()), 0),
        _ => unreachable!(),
    }
}

/// Writes the reply to a command that a table answers: one line, or the rows of a range or a scan and
/// the line that ends them. Where costs are asked for, the ticks of a call stand behind its reply.
///
/// What is written is one turn. It is the one that the table gave, whether the table holds a map or
/// not, and where it holds one it is a step of the session from that map. Where the sink fails amid
/// rows it is the turn with all rows of the map.
///
/// At a fault of the sink some front of the reply was written; what the table did stays done. The
/// sink's count of faults stays at `Ok`, and is one more at `Err`. The table's count stays unless the
/// reply is `fault`, or ends in it.
pub fn answer<T: Table, K: Sink, L: Ledger>(
    table: &mut T,
    command: &Command,
    cost: bool,
    sink: &mut K,
    steps: &mut Steps<L>,
) -> Result<(), SinkFault>
    requires of_table { IsOfTable command.now }
    requires fits { CommandFits (T.terms table.old).format command.now }
    ensures turn { (m : Map) →
        (turn : Turn)
        × Answered T.Table K.Sink m
        (spoken command.now) cost result table.old table.new sink.old sink.new steps.old steps.new turn }
    ensures call { Calls T.Table table.old table.new steps.old steps.new
        (command_bound (T.terms table.old).depth (spoken command.now)) }
    ensures faults_counted { CountsFaults result (K.faults sink.old) (K.faults sink.new) }
    ensures faults_kept { K.faults sink.old ≤ K.faults sink.new }
{
    match command {
        Command::Range(low, high) => write_rows(table, low, Some(high), None, sink, steps),
        Command::Scan(low, most) => write_rows(table, low, None, Some(*most), sink, steps),
        _ => {
            let (reply, ticks) = ask(table, command, steps);
            write_reply(&reply, cost, ticks, sink)
        }
    }
}
