//! A line of a cursor: where it stands in one run.
ghost use Rattle.std.specs.Prelude.{◌≡◌, ◌+◌, ◌<◌, ◌≤◌, IfOk, IsTrue};
ghost use Rattle.cola_cursor.specs.Way.{at};

use cola_cell::{CellRoom, CellSource, Item, Key, ReadFault, Run};
use cola_outside::Steps;
use std::sync::ledger::Ledger;

/// Where a cursor stands in a run: the index of the next cell, or the run's length, in cells; and that cell, once
/// it is read.
#[derive(Drop)]
pub struct Line {
    pub run: Run,
    pub place: u32,
    pub head: CellRoom,
}

impl Default for Line {
    fn default() -> Line {
        let run = Run {
            level: 0,
            slot: 0,
            len: 0,
        };
        Line::at(run, 0)
    }
}

/// The index of the cell that comes after so many in a direction.
#[inline]
fn index_at(len: u32, place: u32, falls: bool) -> u32
    requires { place < len }
    ensures { result ≡ at falls len place }
{
    if falls { len - 1 - place } else { place }
}

impl Line {
    ghost use Rattle.std.specs.Prelude.{◌≡◌, ◌+◌, ◌<◌, ◌≤◌, IfOk, OnOk, IsTrue, Some, None};
    ghost use Rattle.cola_cell.specs.Looks.{OnlyLooks};
    ghost use Rattle.cola_cursor.specs.Causes.{HasLineCause};
    ghost use Rattle.cola_cursor.specs.Lines.{LineFits, IsReady, left_of, Reading};
    ghost use Rattle.cola_cursor.specs.Passing.{Passes, has_key};
    ghost use Rattle.cola_cursor.specs.Turning.{turned_line, line_at};
    ghost use Rattle.cola_cursor.specs.Results.{Fetches, left_after, item_of, is_value};

    /// The line in a run at an index, or at the run's length, whose cell is not read yet.
    #[inline(always)]
    pub(crate) fn at(run: Run, place: u32) -> Line
        ensures { result ≡ line_at run place }
    {
        Line {
            run,
            place,
            head: CellRoom::empty(),
        }
    }

    /// Reads its next cell, unless that is read, or it is at the end.
    pub(crate) fn read_head<W: CellSource, L: Ledger>(
        &mut self,
        work: &mut W,
        falls: bool,
        steps: &mut Steps<L>,
    ) -> Result<(), ReadFault>
        requires { LineFits falls (W.state work.old).held self.old }
        ensures fetches { OnOk result (Fetches falls (W.state work.old).held self.old self.new) }
        ensures left { steps.new + left_after result self.new ≤ steps.old + left_of self.old }
        ensures reading { Reading (W.state work.old) (W.state work.new) steps.old steps.new }
        ensures cause { HasLineCause falls W.CellSource work.old work.new self.old result }
        ensures looks { OnlyLooks W.CellSource work.old work.new result }
    {
        if self.head.has_cell() || self.place == self.run.len {
            return Ok(());
        }
        let run = self.run;
        let index = index_at(run.len, self.place, falls);
        self.head
            .read(work, None, run.level, run.slot, index, steps)
    }

    /// A copy.
    pub(crate) fn copy(&self) -> Line
        ensures { result ≡ self.now }
    {
        Line {
            run: self.run,
            place: self.place,
            head: self.head.copy(),
        }
    }

    /// The line that goes back from where it stands.
    pub(crate) fn turned(&self) -> Line
        requires { self.now.place ≤ self.now.run.len }
        ensures { result ≡ turned_line self.now }
    {
        Line::at(self.run, self.run.len - self.place)
    }

    /// Whether its next cell is read, or it is at the end.
    #[inline]
    pub(crate) fn is_ready(&self) -> bool
        ensures { IsTrue result → IsReady self.now }
    {
        self.head.has_cell() || self.place == self.run.len
    }

    /// Whether the next cell has this key.
    #[inline]
    pub(crate) fn has_key(&self, key: &Key) -> bool
        ensures { result ≡ has_key key.now self.now.head }
    {
        match self.head.cell() {
            Some(cell) => cell.key_cmp(key).is_eq(),
            None => false,
        }
    }

    /// The item of the next cell, if it is one.
    fn item(&self) -> Option<Item>
        ensures { result ≡ item_of self.now.head }
    {
        match self.head.cell() {
            Some(cell) => cell.item(),
            None => None,
        }
    }

    /// Whether the next cell is an item with a value.
    #[inline]
    pub(crate) fn has_value(&self) -> bool
        ensures { result ≡ is_value (item_of self.now.head) }
    {
        match self.head.cell() {
            Some(cell) => !cell.is_look() && !cell.is_tombstone(),
            None => false,
        }
    }

    /// Goes behind its next cell.
    fn go_behind(&mut self)
        requires { self.old.place < self.old.run.len }
        ensures run { self.new.run ≡ self.old.run }
        ensures place { self.new.place ≡ self.old.place + 1 }
        ensures head { self.new.head ≡ None }
    {
        if self.place < self.run.len {
            self.place += 1;
        }
        self.head.clear();
    }

    /// Passes the cells at its front that have this key, reads its next cell, and gives the first item among those.
    pub(crate) fn pass<W: CellSource, L: Ledger>(
        &mut self,
        work: &mut W,
        key: &Key,
        falls: bool,
        steps: &mut Steps<L>,
    ) -> Result<Option<Item>, ReadFault>
        requires fits { LineFits falls (W.state work.old).held self.old }
        requires ready { IsReady self.old }
        ensures passes { IfOk result (Passes falls (W.state work.old).held key.now self.old self.new) }
        ensures first { IfOk result (λ item. IsTrue (has_key key.now self.old.head)
            → IsTrue (is_value (item_of self.old.head)) → IsTrue (is_value item)) }
        ensures left { steps.new + left_after result self.new ≤ steps.old + left_of self.old }
        ensures reading { Reading (W.state work.old) (W.state work.new) steps.old steps.new }
        ensures cause { HasLineCause falls W.CellSource work.old work.new self.old result }
        ensures looks { OnlyLooks W.CellSource work.old work.new result }
    {
        let mut item: Option<Item> = None;
        while self.has_key(key) {
            item = item.or(self.item());
            self.go_behind();
            self.read_head(work, falls, steps)?;
        }
        Ok(item)
    }
}
