//! A search of a window of cells where their bytes lie.
ghost use Rattle.std.specs.Prelude.{◌≡◌, ◌≤◌, ◌<◌, ◌+◌, ◌*◌, ℕ, length, take, drop};
ghost use Rattle.cola_cell.specs.Format.{width};
ghost use Rattle.cola_window.specs.Seeking.{SeekStops, AllBelow, HasCell, nth};

use crate::windows::{front, has_front, rest};
use cola_cell::{Format, Key, is_cell, key_cmp_in};
use std::cmp::Ordering;

/// Why a search of a window stopped.
#[derive(Clone, Copy, Debug, PartialEq, Eq)]
pub enum Stop {
    /// At a cell whose key is the key sought.
    Equal,
    /// At a cell whose key is above it.
    Above,
    /// At bytes that spell no cell.
    Bad,
    /// No cell is left of the window, or of those that were to be looked at.
    End,
}

/// The first of at most `most` cells of a window whose key is at least this one: how many are before it, and why the
/// search stopped there.
#[inline(always)]
fn seek_in<const COPY: usize>(format: Format, window: &[u8], key: &Key, most: u32) -> (u32, Stop)
    ensures few { result.0 ≤ most }
    ensures below { AllBelow format key.now window.now result.0 }
    ensures stops { SeekStops format key.now window.now most result.0 result.1 }
{
    let mut left = window;
    for index in 0..most {
        if !has_front(format, left) {
            return (index, Stop::End);
        }
        let cell = front(format, left);
        if !is_cell(format, cell) {
            return (index, Stop::Bad);
        }
        match key_cmp_in(format, cell, key) {
            Ordering::Less => {}
            Ordering::Equal => return (index, Stop::Equal),
            Ordering::Greater => return (index, Stop::Above),
        }
        left = rest(left, format.width());
    }
    (most, Stop::End)
}

/// The first of at most `most` cells of a window whose key is at least this one: how many are before it, and why the
/// search stopped there.
#[inline(never)]
pub fn seek_window(format: Format, window: &[u8], key: &Key, most: u32) -> (u32, Stop)
    ensures few { result.0 ≤ most }
    ensures below { AllBelow format key.now window.now result.0 }
    ensures stops { SeekStops format key.now window.now most result.0 result.1 }
{
    match format {
        Format::One => seek_in::<1>(Format::One, window, key, most),
        Format::Two => seek_in::<2>(Format::Two, window, key, most),
    }
}

/// The bytes of the cell of this number in a window.
#[inline(always)]
pub fn nth_cell(format: Format, window: &[u8], n: u32) -> &[u8]
    requires { HasCell format window.now n }
    ensures { result.now ≡ nth format window.now n }
{
    front(format, rest(window, n as usize * format.width()))
}
