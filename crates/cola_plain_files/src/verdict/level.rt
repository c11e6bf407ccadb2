//! A level of a file.

ghost use Rattle.std.specs.Prelude.{◌≤◌, ◌^◌, vec_len};

use crate::verdict::cells::FileCell;

/// A level: its runs, and how many cells of its three sources its build has consumed. A run has at most `2^24` cells.
#[derive(Drop)]
pub struct PlainLevel {
    pub visible: Vec<FileCell>,
    pub shadow: Vec<FileCell>,
    pub own: usize,
    pub incoming: usize,
    pub sampled: usize,
    pub ghost visible_small: { vec_len visible ≤ 2 ^ 24 },
    pub ghost shadow_small: { vec_len shadow ≤ 2 ^ 24 },
}
