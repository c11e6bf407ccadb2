//! The cells of a block, copied from format One to format Two.
ghost use Rattle.std.specs.Prelude.{◌≡◌, ◌*◌, ◌^◌, ◌≤◌, ◌↔◌, IsTrue, MatchBool, MatchResult, length};
ghost use Rattle.cola_cell.specs.declared.format.Format.TheVariants.{One};
ghost use Rattle.cola_cell.specs.Spelling.{IsNoSpelling};
ghost use Rattle.cola_layout.specs.Fields.{fields_of};
ghost use Rattle.cola_wide.specs.Runs.{IsAmong, IsOfLevel, IsOfRun};
ghost use Rattle.cola_wide.specs.Copied.{SpellSameCell, IsCopied, IsBad, IsBlockCopied, IsBlockBad};

use cola_cell::{decode, encode_wide};
use cola_clock::visible_slot;
use cola_layout::Header;

/// Whether a number is one of so many from a first one on.
fn is_among(number: u64, first: u64, count: u32) -> bool
    ensures { IsTrue result ↔ IsAmong number first count }
{
    first <= number && number - first < u64::from(count)
}

/// Whether the cell with this number is one of the visible run of a level, or of its shadow.
fn is_of_level(header: &Header, level: u8, number: u64) -> bool
    requires { level ≤ header.now.geometry.bottom }
    ensures { IsTrue result ↔ IsOfLevel (fields_of header.now) level number }
{
    let first = header.geometry.place(level, 0, 0);
    if number < first {
        return false;
    }
    if number - first >= first {
        return false;
    }
    let marks = header.levels[level as usize];
    let slot = visible_slot(header.clock, level);
    let visible = header.geometry.place(level, slot, 0);
    let shadow = header.geometry.place(level, 1 - slot, 0);
    is_among(number, visible, marks.visible) || is_among(number, shadow, marks.shadow)
}

/// Whether the cell with this number is one of a run.
fn is_of_run(header: &Header, number: u64) -> bool
    ensures { IsTrue result ↔ IsOfRun (fields_of header.now) number }
{
    for level in 0..=header.geometry.bottom {
        if is_of_level(header, level, number) {
            return true;
        }
    }
    false
}

/// Spells the cell of these bytes in format Two; false where they spell none.
fn widen(narrow: &[u8], wide: &mut [u8]) -> bool
    requires narrow { length narrow.now ≡ 64 }
    requires wide { length wide.old ≡ 128 }
    ensures { MatchBool result (SpellSameCell narrow.now wide.new) (IsNoSpelling One narrow.now) }
{
    let mut spelled = [0u8; 64];
    spelled.copy_from_slice(narrow);
    match decode(&spelled) {
        Some(cell) => {
            let mut bytes = [0u8; 128];
            encode_wide(&cell, &mut bytes);
            wide.copy_from_slice(&bytes);
            true
        }
        None => false,
    }
}

/// Copies the cell with this number: one of a run is spelled in format Two, any other is zero; false where one of a run is
/// no spelling.
fn copy_cell(header: &Header, number: u64, narrow: &[u8], wide: &mut [u8]) -> bool
    requires narrow { length narrow.now ≡ 64 }
    requires wide { length wide.old ≡ 128 }
    ensures { MatchBool result (IsCopied (fields_of header.now) number narrow.now wide.new)
        (IsBad (fields_of header.now) number narrow.now) }
{
    if is_of_run(header, number) {
        return widen(narrow, wide);
    }
    wide.fill(0);
    true
}

/// Copies the cells of a block, whose first has this number; the number of the lowest that is one of a run and no spelling
/// where there is one.
pub(crate) fn copy_cells(
    header: &Header,
    first: u64,
    count: usize,
    narrow: &[u8],
    wide: &mut [u8],
) -> Result<(), u64>
    requires few { count ≤ 512 }
    requires first { first ≤ 2 ^ 26 }
    requires narrow { length narrow.now ≡ 64 * count }
    requires wide { length wide.old ≡ 128 * count }
    ensures copied { MatchResult result
        (λ _. IsBlockCopied (fields_of header.now) first count narrow.now wide.new)
        (λ number. IsBlockBad (fields_of header.now) first count narrow.now number) }
{
    for place in 0..count {
        let number = first + place as u64;
        let from = &narrow[64 * place..64 * place + 64];
        let into = &mut wide[128 * place..128 * place + 128];
        if !copy_cell(header, number, from, into) {
            return Err(number);
        }
    }
    Ok(())
}
