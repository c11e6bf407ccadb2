//! A step that changes one line alone.
ghost use Rattle.std.specs.Prelude.{drop, IsFalse, IsTrue};
ghost use Rattle.std.specs.List.{AllByRecursion};
ghost use Rattle.cola_cursor.specs.Giving.{OneGives};
ghost use Rattle.cola_cursor.specs.Lines.{IsReady};
ghost use Rattle.cola_cursor.specs.Passing.{NoneHas};
ghost use Rattle.cola_cursor.specs.Saving.{cursor_at};
ghost use Rattle.cola_cursor.specs.Standing.{StandsAlong};

use crate::line::Line;
use crate::lines::least_key;
use cola_cell::{CellSource, Item, Key, ReadFault, Value};
use cola_outside::Steps;
use std::sync::ledger::Ledger;

/// Whether each line is ready.
fn are_ready(lines: &[Line]) -> bool
    ensures { IsTrue result → AllByRecursion IsReady lines.now }
{
    for line in lines {
        if !line.is_ready() {
            return false;
        }
    }
    true
}

/// Whether a line from a number on has this key next.
fn any_has(lines: &[Line], from: usize, key: &Key) -> bool
    ensures { IsFalse result → NoneHas key.now (drop from lines.now) }
{
    for i in from..lines.len() {
        if lines[i].has_key(key) {
            return true;
        }
    }
    false
}

/// The next pair of the lines, where one line alone has to be changed for it: each line is ready, the least key is next in
/// one of them, and is there a value. Else none, and nothing is done. After a refusal the line is as it was.
pub(crate) fn simple_step<W: CellSource, L: Ledger>(
    work: &mut W,
    lines: &mut [Line],
    end: &Option<Key>,
    falls: bool,
    steps: &mut Steps<L>,
) -> Result<Option<(Key, Value, u64)>, ReadFault>
    requires { StandsAlong falls (W.state work.old).held (cursor_at lines.old end.now falls) }
    ensures { OneGives falls W.CellSource work.old work.new end.now lines.old lines.new
        steps.old steps.new result }
{
    if !are_ready(lines) {
        return Ok(None);
    }
    let Some(least) = least_key(lines, end, falls) else {
        return Ok(None);
    };
    let i = least.first;
    if i >= lines.len() || any_has(lines, i + 1, &least.key) {
        return Ok(None);
    }
    if !lines[i].has_key(&least.key) || !lines[i].has_value() {
        return Ok(None);
    }
    let line = lines[i].copy();
    match lines[i].pass(work, &least.key, falls, steps) {
        Ok(item) => match item {
            Some(item) => match item {
                Item::Value { value, stamp } => Ok(Some((least.key, value, stamp))),
                Item::Tombstone => Ok(None),
            },
            None => Ok(None),
        },
        Err(fault) => {
            lines[i] = line;
            Err(fault)
        }
    }
}
