//! The header of a file that is filled with rows.
ghost use Rattle.std.specs.Prelude.{◌≡◌, ◌≤◌};
ghost use Rattle.cola_cell.specs.Format.{stamp_limit};
ghost use Rattle.cola_layout.specs.Fields.{fields_of};
ghost use Rattle.cola_load.specs.Filled.{run_len, filled_marks, marks_from, filled_header};

use arrayvec::ArrayVec;
use cola_cell::MOST_LEVELS;
use cola_layout::{Geometry, Header, Marks};

/// How many cells the run so many levels above the bottom has.
pub(crate) fn len_of_run(rows: u64, height: u8) -> u64
    ensures value { result ≡ run_len rows height }
    ensures most { result ≤ rows }
{
    let mut len = rows;
    for _level in 0..height {
        len /= 8;
    }
    len
}

/// The marks of a level with so many visible cells, and nothing else.
fn marks_of_len(len: u32) -> Marks
    ensures { result ≡ filled_marks len }
{
    Marks {
        visible: len,
        shadow: 0,
        own: 0,
        incoming: 0,
        sample: 0,
    }
}

/// The marks of all levels.
fn marks_of_levels(geometry: &Geometry, rows: u64) -> ArrayVec<Marks, MOST_LEVELS>
    requires { rows ≤ geometry.now.keys }
    ensures { result.items ≡ marks_from rows geometry.now.bottom }
{
    let mut levels = ArrayVec::new();
    for level in 0..geometry.levels() {
        levels.push(marks_of_len(len_of_run(rows, geometry.bottom - level) as u32));
    }
    levels
}

/// The header of a closed store at clock 0, filled with so many rows.
pub(crate) fn header_of(geometry: Geometry, last: u64, rows: u64) -> Header
    requires rows { rows ≤ geometry.keys }
    requires last { last ≤ stamp_limit geometry.format }
    ensures { fields_of result ≡ filled_header geometry last rows }
{
    let levels = marks_of_levels(&geometry, rows);
    Header {
        geometry,
        closed: true,
        count: rows,
        clock: 0,
        last,
        levels,
    }
}
