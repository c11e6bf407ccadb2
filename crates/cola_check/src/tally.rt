//! Counts of live keys, from each of several levels down.
ghost use Rattle.std.specs.Prelude.{◌≡◌, length};
ghost use Rattle.std.specs.List.{AllByRecursion};
ghost use Rattle.cola_check.specs.Tally.{HasRoom, visible_said, shadow_said, counted};

use crate::level_walks::LevelWalks;
use arrayvec::ArrayVec;
use cola_cell::{Item, MOST_LEVELS, Packed};

/// What runs have of a key: nothing, a tombstone, or a value with this stamp.
#[derive(Clone, Copy, Debug, Drop)]
pub(crate) enum Said {
    Nothing,
    Gone,
    Live(u64),
}

/// How many keys are live from a level down: in its visible run and those below it, and in its shadow and the runs that
/// will lie below that.
#[derive(Clone, Copy, Debug, Default, Drop)]
pub(crate) struct LiveCount {
    pub visible: u64,
    pub shadow: u64,
}

/// What the same two lists of runs have of one key.
#[derive(Clone, Copy, Debug, Drop)]
pub(crate) struct Answers {
    pub visible: Said,
    pub shadow: Said,
}

/// The live keys that were counted: so many for each level, level 0 first, and whether no key that is live from level 0
/// down has a stamp above a number.
#[derive(Drop)]
pub(crate) struct Tally {
    pub counts: ArrayVec<LiveCount, MOST_LEVELS>,
    pub stamped: bool,
}

impl Said {
    ghost use Rattle.std.specs.Prelude.{◌≡◌, ◌↔◌, Some, IsTrue};
    ghost use Rattle.cola_check.specs.Walks.{found_of};
    ghost use Rattle.cola_check.specs.Tally.{said_of_item, said_of, said_or, live_one, IsWithin};

    /// What a cell says of its key. The value is not looked at.
    #[inline]
    pub(crate) fn of_cell(cell: &Packed) -> Said
        ensures { result ≡ said_of (found_of (Some cell.now)) }
    {
        match cell.item() {
            Some(item) => Said::of_item(&item),
            None => Said::Nothing,
        }
    }

    /// What an item says of its key.
    #[inline]
    fn of_item(item: &Item) -> Said
        ensures { result ≡ said_of_item item.now }
    {
        match item {
            Item::Value { stamp, .. } => Said::Live(*stamp),
            Item::Tombstone => Said::Gone,
        }
    }

    /// This, or what is found later where this is nothing.
    #[inline]
    pub(crate) fn or(self, below: Said) -> Said
        ensures { result ≡ said_or self below }
    {
        match self {
            Said::Nothing => below,
            Said::Gone => Said::Gone,
            Said::Live(stamp) => Said::Live(stamp),
        }
    }

    /// One where the key is live, else none.
    fn count(self) -> u64
        ensures { result ≡ live_one self }
    {
        match self {
            Said::Live(_) => 1,
            _ => 0,
        }
    }

    /// Whether no live stamp is above this number.
    fn is_within(self, last: u64) -> bool
        ensures { IsTrue result ↔ IsWithin last self }
    {
        match self {
            Said::Live(stamp) => stamp <= last,
            _ => true,
        }
    }
}

impl Answers {
    ghost use Rattle.std.specs.Prelude.{◌≡◌, cond};
    ghost use Rattle.cola_check.specs.Tally.{said_or};

    /// The answers where the runs of one more level lie above: the shadow of a level in an odd period lies above the next
    /// shadow, in an even one above what is visible.
    fn under(&self, level: &LevelWalks) -> Answers
        ensures visible { result.visible ≡ said_or level.now.visible.said self.now.visible }
        ensures shadow { result.shadow ≡
            said_or level.now.shadow.said (cond level.now.odd self.now.shadow self.now.visible) }
    {
        let below = if level.odd { self.shadow } else { self.visible };
        Answers {
            visible: level.visible.said.or(self.visible),
            shadow: level.shadow.said.or(below),
        }
    }
}

impl LiveCount {
    ghost use Rattle.std.specs.Prelude.{◌≡◌, ◌+◌};
    ghost use Rattle.cola_check.specs.Tally.{HasRoom, live_one};

    /// The counts with one key more.
    fn with(&self, answers: &Answers) -> LiveCount
        requires { HasRoom self.now }
        ensures visible { result.visible ≡ self.now.visible + live_one answers.now.visible }
        ensures shadow { result.shadow ≡ self.now.shadow + live_one answers.now.shadow }
    {
        LiveCount {
            visible: self.visible + answers.visible.count(),
            shadow: self.shadow + answers.shadow.count(),
        }
    }
}

/// Counts the key that these levels passed last, from each of them down; and what the runs from the first of them down have
/// of it.
fn add_live(counts: &mut [LiveCount], levels: &[LevelWalks]) -> Answers
    requires same { length counts.old ≡ length levels.now }
    requires rooms { AllByRecursion HasRoom counts.old }
    ensures visible { result.visible ≡ visible_said levels.now }
    ensures shadow { result.shadow ≡ shadow_said levels.now }
    ensures counted { counts.new ≡ counted counts.old levels.now }
{
    let mut answers = Answers {
        visible: Said::Nothing,
        shadow: Said::Nothing,
    };
    let mut left = levels.len();
    while left > 0 {
        left -= 1;
        let level = &levels[left];
        answers = answers.under(level);
        let count = counts[left];
        counts[left] = count.with(&answers);
    }
    answers
}

impl Tally {
    ghost use Rattle.std.specs.Prelude.{◌≡◌, ◌≤◌, ◌↔◌, true, IsTrue, length, replicate};
    ghost use Rattle.std.specs.List.{AllByRecursion};
    ghost use Rattle.cola_check.specs.Tally.{HasRoom, no_count, visible_said, IsWithin, counted};

    /// Nothing counted yet, for so many levels.
    pub(crate) fn none(levels: usize) -> Tally
        requires { levels ≤ 23 }
        ensures counts { result.counts.items ≡ replicate levels no_count }
        ensures stamped { result.stamped ≡ true }
    {
        let mut counts = ArrayVec::new();
        for _level in 0..levels {
            counts.push(LiveCount::default());
        }
        Tally {
            counts,
            stamped: true,
        }
    }

    /// Counts the key that these levels passed last, and looks at its stamp, if it is live from the first of them down.
    pub(crate) fn count(&mut self, levels: &[LevelWalks], last: u64)
        requires same { length self.old.counts.items ≡ length levels.now }
        requires rooms { AllByRecursion HasRoom self.old.counts.items }
        ensures counted { self.new.counts.items ≡ counted self.old.counts.items levels.now }
        ensures stamped { IsTrue self.new.stamped ↔
            (IsTrue self.old.stamped × IsWithin last (visible_said levels.now)) }
    {
        let answers = add_live(self.counts.as_mut_slice(), levels);
        self.stamped = self.stamped && answers.visible.is_within(last);
    }
}
