//! The replies to ranges and scans, row by row.
ghost use Rattle.std.specs.Prelude.{◌≡◌, ◌+◌, ◌-◌, ◌++◌, ◌≤◌, Option, Some, None, Ok, option_copied, codes, decimal};
ghost use Rattle.cola_io.specs.Counted.{CountsFaults};
ghost use Rattle.cola_spec.specs.Map.{Map};
ghost use Rattle.cola_spec.specs.Reply.{row_text, line, Reply as Answer};
ghost use Rattle.cola_spec.specs.Bounds.{range_bound};
ghost use Rattle.cola_line.specs.Replied.{Wrote};
ghost use Rattle.cola_line.specs.Given.{wants};
ghost use Rattle.cola_line.specs.Listed.{Listed};
ghost use Rattle.cola_line.specs.Answered.{Calls};

use crate::ask::failed_read;
use crate::reply::{Reply, Text, push_bytes, push_number, write_reply};
use cola_cell::{Key, ReadFault, Value};
use cola_io::{Sink, SinkFault, put_all};
use cola_outside::Steps;
use cola_table::Table;
use std::sync::ledger::Ledger;

/// Writes a pair as a row.
fn write_row<K: Sink>(row: &(Key, Value), sink: &mut K) -> Result<(), SinkFault>
    ensures wrote { Wrote (row_text row.now) result (K.written sink.old) (K.written sink.new) }
    ensures faults_counted { CountsFaults result (K.faults sink.old) (K.faults sink.new) }
    ensures faults_kept { K.faults sink.old ≤ K.faults sink.new }
{
    let (key, value) = row;
    let mut text = Text::new();
    push_bytes(&mut text, b"row ");
    push_bytes(&mut text, key.bytes());
    push_bytes(&mut text, b" ");
    push_bytes(&mut text, value.bytes());
    push_bytes(&mut text, b"\n");
    put_all(sink, text.as_slice())
}

/// Writes the line after the last row.
fn write_end<K: Sink>(rows: u64, sink: &mut K) -> Result<(), SinkFault>
    ensures wrote { Wrote (line (codes "end " ++ decimal rows)) result (K.written sink.old)
        (K.written sink.new) }
    ensures faults_counted { CountsFaults result (K.faults sink.old) (K.faults sink.new) }
    ensures faults_kept { K.faults sink.old ≤ K.faults sink.new }
{
    let mut text = Text::new();
    push_bytes(&mut text, b"end ");
    push_number(&mut text, rows);
    push_bytes(&mut text, b"\n");
    put_all(sink, text.as_slice())
}

/// Whether another row is wanted after so many.
fn is_wanted(most: Option<u64>, rows: u64) -> bool
    ensures { result ≡ wants most rows }
{
    match most {
        None => true,
        Some(most) => rows < most,
    }
}

/// Writes the pairs from `low` on and below `high` as rows, at most `most` of them where that is
/// given, and then the line that ends them, or that of a failure.
///
/// The sink's count of faults stays at `Ok`, and is one more at `Err`; then some front of all that was
/// written.
pub fn write_rows<T: Table, K: Sink, L: Ledger>(
    table: &mut T,
    low: &Key,
    high: Option<&Key>,
    most: Option<u64>,
    sink: &mut K,
    steps: &mut Steps<L>,
) -> Result<(), SinkFault>
    ensures rows { (m : Map) →
        (answer : Answer)
        × Listed T.Table K.Sink m low.now
        (option_copied high.entry) most result table.old table.new sink.old sink.new answer }
    ensures sound { (m : Map) → T.holds table.old m → T.holds table.new m }
    ensures call { Calls T.Table table.old table.new steps.old steps.new
        (range_bound (T.terms table.old).depth) }
    ensures faults_counted { CountsFaults result (K.faults sink.old) (K.faults sink.new) }
    ensures faults_kept { K.faults sink.old ≤ K.faults sink.new }
{
    let mut walk = match table.range(low, high, steps) {
        Ok(walk) => walk,
        Err(fault) => return write_reply(&Reply::Failed(failed_read(fault)), false, 0, sink),
    };
    let mut rows: u64 = 0;
    'rows: while is_wanted(most, rows) {
        let pair = match table.next(&mut walk, steps) {
            Ok(pair) => pair,
            Err(fault) => return write_reply(&Reply::Failed(failed_read(fault)), false, 0, sink),
        };
        let Some(row) = pair else {
            return write_end(rows, sink);
        };
        if let Err(fault) = write_row(&row, sink) {
            return Err(fault);
        }
        rows += 1;
    }
    write_end(rows, sink)
}
