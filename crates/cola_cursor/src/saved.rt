//! Lines that were changed, each as it was, so that a refusal can put them back.
ghost use Rattle.std.specs.Prelude.{◌≡◌, ◌<◌, ◌≤◌, length, IsTrue};
ghost use Rattle.cola_cursor.specs.Saving.{is_saved, SavedOnce, Saves, restored};

use crate::line::Line;
use arrayvec::ArrayVec;
use cola_cell::MOST_LEVELS;

/// A line as it was, and its number.
#[derive(Drop)]
pub(crate) struct Saved {
    pub number: usize,
    pub line: Line,
}

impl Default for Saved {
    #[inline]
    fn default() -> Saved {
        Saved {
            number: 0,
            line: Line::default(),
        }
    }
}

/// Whether the line of this number is saved.
fn is_saved(saved: &[Saved], number: usize) -> bool
    ensures { result ≡ is_saved number saved.now }
{
    for one in saved {
        if one.number == number {
            return true;
        }
    }
    false
}

/// Saves the line of this number, unless it was saved before.
pub(crate) fn save(lines: &[Line], saved: &mut ArrayVec<Saved, MOST_LEVELS>, number: usize)
    requires within { number < length lines.now }
    requires few { length lines.now ≤ 23 }
    requires once { SavedOnce (length lines.now) saved.old.items }
    ensures saved { IsTrue (is_saved number saved.new.items) }
    ensures saves { Saves lines.now lines.now saved.old.items saved.new.items }
{
    if !is_saved(saved.as_slice(), number) {
        let line = lines[number].copy();
        saved.push(Saved { number, line });
    }
}

/// Puts the saved lines back, the last saved one first.
pub(crate) fn put_back(lines: &mut [Line], saved: &mut ArrayVec<Saved, MOST_LEVELS>)
    requires few { length lines.old ≤ 23 }
    requires once { SavedOnce (length lines.old) saved.old.items }
    ensures { lines.new ≡ restored saved.old.items lines.old }
{
    while let Some(one) = saved.pop() {
        let Saved { number, line } = one;
        lines[number] = line;
    }
}
