//! Cursors and the heads that are held.
ghost use Rattle.std.specs.Prelude.{◌≡◌, ◌+◌, ◌<◌, ◌≤◌, ◌^◌, None, is_some, if◌then◌else◌, option_copied};
ghost use Rattle.cola_cell.specs.declared.format.Format.{Format};
ghost use Rattle.cola_cell.specs.Format.{CellFits};
ghost use Rattle.cola_cell.specs.Held.{Held};

use crate::aims::Feed;
use cola_cell::{Cell, CellRoom, CellSource, Format, Packed, ReadFault, Reader};
use cola_outside::Steps;
use std::marker::Model;
use std::sync::ledger::Ledger;

/// How many cells of a feed were consumed, and the next one, where it was read already. A contract sees these two.
#[derive(Drop)]
pub(crate) struct Head {
    at: u32,
    room: CellRoom,
}

impl Model for Head {
    ghost use Rattle.cola_merge.specs.Fetched.{Head};

    ghost Value = { Head };

    ghost view = { λ h. record { at = h.at; cell = h.room } };
}

impl Head {
    ghost use Rattle.cola_merge.specs.Feeds.{IsFeed, feed_len};
    ghost use Rattle.cola_merge.specs.Heads.{head_at, held_at, IsHead, held_head};
    ghost use Rattle.cola_merge.specs.Weaving.{gone};
    ghost use Rattle.cola_merge.specs.States.{Fetch};

    /// The head behind so many consumed cells, not read yet.
    #[inline(always)]
    pub(crate) fn behind(at: u32) -> Head
        ensures { result ≡ head_at at }
    {
        Head {
            at,
            room: CellRoom::empty(),
        }
    }

    /// How many cells were consumed.
    #[inline(always)]
    pub(crate) fn at(&self) -> u32
        ensures { result ≡ self.now.at }
    {
        self.at
    }

    /// The cell that is held.
    #[inline(always)]
    pub(crate) fn cell(&self) -> Option<&Packed>
        ensures { option_copied result ≡ self.now.cell }
    {
        self.room.cell()
    }

    /// The cell that is held, where it is asked for.
    #[inline(always)]
    pub(crate) fn cell_if(&self, is_asked: bool) -> Option<&Packed>
        ensures { option_copied result ≡ (if is_asked then self.now.cell else None) }
    {
        if is_asked { self.room.cell() } else { None }
    }

    /// Whether a cell is held.
    #[inline(always)]
    pub(crate) fn has_cell(&self) -> bool
        ensures { result ≡ is_some self.now.cell }
    {
        self.room.has_cell()
    }

    /// Holds this cell, where it stands. It is a call of its own, so that no fetch makes room for a cell that it seldom packs.
    #[inline(never)]
    fn hold(&mut self, cell: &Cell)
        requires { CellFits Format.Two cell.now }
        ensures { self.new ≡ held_at self.old.at cell.now }
    {
        self.room.put(&Packed::of_cell(Format::Two, cell));
    }

    /// Goes on behind the cell, where it stands.
    #[inline(always)]
    pub(crate) fn pass(&mut self)
        requires { self.old.at + 1 < 2 ^ 32 }
        ensures { self.new ≡ head_at (self.old.at + 1) }
    {
        self.at += 1;
        self.room.clear();
    }

    /// Goes on by so many cells of a window, which stand so many bytes behind one another, and holds the cell that stands
    /// there, where its bytes spell one. Says how many cells that were which were not held.
    #[inline(always)]
    pub(crate) fn go(&mut self, format: Format, window: &[u8], count: u32, step: usize) -> u32
        requires at { self.old.at + count < 2 ^ 32 }
        requires count { count ≤ 65536 }
        requires step { step ≤ 1024 }
        ensures gone { self.new ≡ gone format step count window.now self.old }
        ensures ticks { result + held_head self.old.cell ≡ count + held_head self.new.cell }
    {
        if count == 0 && self.room.has_cell() {
            return 0;
        }
        let was_held = self.room.has_cell();
        self.at += count;
        let begin = (count as usize * step).min(window.len());
        self.room.refill(format, &window[begin..]);
        count + u32::from(self.room.has_cell()) - u32::from(was_held)
    }

    /// Reads the head where it is not held and the feed, which has so many cells, has one.
    #[inline(always)]
    pub(crate) fn fetch<W: CellSource, L: Ledger>(
        &mut self,
        reader: Reader,
        feed: &Feed,
        len: u32,
        work: &mut W,
        steps: &mut Steps<L>,
    ) -> Result<(), ReadFault>
        requires len { len ≡ feed_len feed.now }
        requires feed { IsFeed (W.state work.old).held.fixed feed.now }
        requires head { IsHead (W.state work.old).held feed.now self.old }
        ensures kept { W.kept work.new ≡ W.kept work.old }
        ensures fetch { Fetch (W.state work.old) (W.state work.new) reader feed.now self.old self.new
            steps.old steps.new result }
    {
        if self.room.has_cell() || self.at >= len {
            return Ok(());
        }
        self.read(reader, feed, work, steps)
    }

    /// Reads the next cell of the feed, which has one. It is a call of its own, which has the whole way to the bytes in its
    /// code: of the three heads of a step one at most is to be read, but for the first step.
    #[inline(never)]
    fn read<W: CellSource, L: Ledger>(
        &mut self,
        reader: Reader,
        feed: &Feed,
        work: &mut W,
        steps: &mut Steps<L>,
    ) -> Result<(), ReadFault>
        requires feed { IsFeed (W.state work.old).held.fixed feed.now }
        requires head { IsHead (W.state work.old).held feed.now self.old }
        requires missing { self.old.cell ≡ None }
        requires left { self.old.at < feed_len feed.now }
        ensures kept { W.kept work.new ≡ W.kept work.old }
        ensures fetch { Fetch (W.state work.old) (W.state work.new) reader feed.now self.old self.new
            steps.old steps.new result }
    {
        let Some(next) = feed.place(self.at) else {
            if let Feed::One(cell) = feed {
                self.hold(cell);
            }
            return Ok(());
        };
        let run = next.run;
        self.room
            .read(work, Some(reader), run.level, run.slot, next.from, steps)
    }
}
