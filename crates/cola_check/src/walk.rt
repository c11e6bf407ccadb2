//! A walk over one run, cell by cell.
ghost use Rattle.std.specs.Prelude.{◌≡◌, Some, cond};
ghost use Rattle.cola_cell.specs.Cell.{key_of};
ghost use Rattle.cola_cell.specs.Looks.{OnlyLooks};
ghost use Rattle.cola_check.specs.Walks.{found_of, lesser};

use cola_cell::{CellRoom, CellSource, Item, Key, Packed, ReadFault, Reader, Run};
use cola_outside::Steps;
use std::sync::ledger::Ledger;

/// What a run has of a key: no item, an old one or a young one.
#[derive(Clone, Copy, Debug, Drop)]
pub(crate) enum Found {
    Nothing,
    Old(Item),
    Young(Item),
}

/// Where a walk stands in a run: how many cells lie behind it, and the next cell, once it is read. A walk reads by one
/// reader, and each cell once. After a refusal it is not asked again.
#[derive(Drop)]
pub(crate) struct Walk {
    pub run: Run,
    pub reader: Reader,
    pub at: u32,
    pub head: CellRoom,
}

/// What a cell has of its key.
#[inline]
fn found_in(cell: &Packed) -> Found
    ensures { result ≡ found_of (Some cell.now) }
{
    match cell.item() {
        Some(item) => {
            if cell.is_young() {
                Found::Young(item)
            } else {
                Found::Old(item)
            }
        }
        None => Found::Nothing,
    }
}

/// Whether a cell has a lesser key than another.
#[inline(always)]
fn leads(cell: &Packed, other: &Packed) -> bool
    ensures { cond result (Some (key_of cell.now)) (Some (key_of other.now))
        ≡ lesser (Some (key_of other.now)) (Some cell.now) }
{
    cell.cmp_keys(other).is_lt()
}

impl Found {
    ghost use Rattle.std.specs.Prelude.{◌≡◌, option_map};
    ghost use Rattle.cola_runs.specs.Seen.{holds};
    ghost use Rattle.cola_cell.specs.Held.{as_item};
    ghost use Rattle.cola_check.specs.Walks.{as_seen, found_or};

    /// The item, if there is one, whatever its flag.
    pub(crate) fn item(&self) -> Option<Item>
        ensures { option_map as_item result ≡ holds (as_seen self.now) }
    {
        match self {
            Found::Nothing => None,
            Found::Old(item) => Some(*item),
            Found::Young(item) => Some(*item),
        }
    }

    /// This, or what was found later where nothing was found before.
    fn or(self, later: Found) -> Found
        ensures { result ≡ found_or self later }
    {
        match self {
            Found::Nothing => later,
            Found::Old(item) => Found::Old(item),
            Found::Young(item) => Found::Young(item),
        }
    }
}

impl Walk {
    ghost use Rattle.std.specs.Prelude.{◌≡◌, ◌+◌, ◌<◌, [], ◌∷◌, IfOk, OnOk, None};
    ghost use Rattle.cola_look.specs.Runs.{HasRun};
    ghost use Rattle.cola_check.specs.Reading.{ReadsAhead};
    ghost use Rattle.cola_check.specs.Walks.{WalkFits, IsReady, unread, unread_after, unread_begun, unbegun};
    ghost use Rattle.cola_check.specs.Walks.{ReadsOn, Begins, Fetches, Passes, has_key, found_of, key_in, lesser};

    /// A walk before the first cell of a run, with that cell read, if there is one.
    pub(crate) fn begin<W: CellSource, L: Ledger>(
        work: &mut W,
        run: &Run,
        reader: Reader,
        steps: &mut Steps<L>,
    ) -> Result<Walk, ReadFault>
        requires run { HasRun (W.state work.old).held run.now }
        ensures begins { IfOk result (Begins (W.state work.old).held run.now reader) }
        ensures reads { ReadsAhead (W.state work.old) (W.state work.new) steps.old steps.new
            (run.now ∷ []) run.now.len (unread_begun result) result }
        ensures blocks { IfOk result (ReadsOn (W.state work.old) (W.state work.new)
            (unbegun run.now reader)) }
        ensures looks { OnlyLooks W.CellSource work.old work.new result }
    {
        let mut walk = Walk {
            run: *run,
            reader,
            at: 0,
            head: CellRoom::empty(),
        };
        walk.fetch(work, steps)?;
        Ok(walk)
    }

    /// Reads the next cell, unless it is read or the walk is at the end.
    pub(crate) fn fetch<W: CellSource, L: Ledger>(
        &mut self,
        work: &mut W,
        steps: &mut Steps<L>,
    ) -> Result<(), ReadFault>
        requires fits { WalkFits (W.state work.old).held self.old }
        ensures fetches { OnOk result (Fetches (W.state work.old).held self.old self.new) }
        ensures reads { ReadsAhead (W.state work.old) (W.state work.new) steps.old steps.new
            (self.old.run ∷ []) (unread self.old) (unread_after self.new result) result }
        ensures blocks { OnOk result (ReadsOn (W.state work.old) (W.state work.new) self.old self.new) }
        ensures looks { OnlyLooks W.CellSource work.old work.new result }
    {
        if self.head.has_cell() || self.at == self.run.len {
            return Ok(());
        }
        let run = self.run;
        self.head.read(work, Some(self.reader), run.level, run.slot, self.at, steps)
    }

    /// Whether the next cell has this key.
    #[inline(always)]
    pub(crate) fn has_key(&self, key: &Key) -> bool
        ensures { result ≡ has_key key.now self.now.head }
    {
        match self.head.cell() {
            Some(cell) => cell.key_cmp(key).is_eq(),
            None => false,
        }
    }

    /// What the next cell has of its key.
    fn found(&self) -> Found
        ensures { result ≡ found_of self.now.head }
    {
        match self.head.cell() {
            Some(cell) => found_in(cell),
            None => Found::Nothing,
        }
    }

    /// The cell with the lesser key, of one and the next cell, where there is one of them or both: the first where the keys
    /// are equal.
    #[inline]
    pub(crate) fn lesser<'a>(&'a self, least: Option<&'a Packed>) -> Option<&'a Packed>
        ensures { key_in result ≡ lesser (key_in least.entry) self.now.head }
    {
        match self.head.cell() {
            Some(cell) => match least {
                Some(least) => {
                    if leads(cell, least) {
                        Some(cell)
                    } else {
                        Some(least)
                    }
                }
                None => Some(cell),
            },
            None => least,
        }
    }

    /// Leaves the lesser of a key and the next cell's, where there is one of them or both.
    #[inline]
    pub(crate) fn lower(&self, least: &mut Option<Key>)
        ensures { least.new ≡ lesser least.old self.now.head }
    {
        let Some(cell) = self.head.cell() else {
            return;
        };
        let is_less = match least {
            Some(least) => cell.key_cmp(least).is_lt(),
            None => true,
        };
        if is_less {
            *least = Some(cell.key());
        }
    }

    /// Goes behind the next cell.
    #[inline]
    pub(crate) fn advance(&mut self)
        requires { self.old.at < self.old.run.len }
        ensures run { self.new.run ≡ self.old.run }
        ensures reader { self.new.reader ≡ self.old.reader }
        ensures at { self.new.at ≡ self.old.at + 1 }
        ensures head { self.new.head ≡ None }
    {
        let _len = self.run.len;
        self.at += 1;
        self.head.clear();
    }

    /// Passes the cells at its front that have this key, and reads its next cell; what the first item among them is.
    pub(crate) fn pass<W: CellSource, L: Ledger>(
        &mut self,
        work: &mut W,
        key: &Key,
        steps: &mut Steps<L>,
    ) -> Result<Found, ReadFault>
        requires fits { WalkFits (W.state work.old).held self.old }
        requires ready { IsReady self.old }
        ensures passes { IfOk result (Passes (W.state work.old).held key.now self.old self.new) }
        ensures reads { ReadsAhead (W.state work.old) (W.state work.new) steps.old steps.new
            (self.old.run ∷ []) (unread self.old) (unread_after self.new result) result }
        ensures blocks { OnOk result (ReadsOn (W.state work.old) (W.state work.new) self.old self.new) }
        ensures looks { OnlyLooks W.CellSource work.old work.new result }
    {
        let mut found = Found::Nothing;
        while self.has_key(key) {
            found = found.or(self.found());
            self.advance();
            self.fetch(work, steps)?;
        }
        Ok(found)
    }
}
