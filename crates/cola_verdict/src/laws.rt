//! Laws of the verdict on a file. Each function does nothing: its clauses are the law.

ghost use Rattle.std.specs.Prelude.{◌≡◌, ◌↔◌, ℕ, ◌+◌, ◌*◌, ◌^◌, ◌≤◌, true, List, length, take};
ghost use Rattle.cola_cell.specs.Format.{width};
ghost use Rattle.cola_cell.specs.Held.{Spots};
ghost use Rattle.cola_clock.specs.Marks.{AreChainMarks};
ghost use Rattle.cola_image.specs.Standing.{HeaderStandsFor, FileStandsFor};
ghost use Rattle.cola_layout.specs.Header.{Fields, IsSpelling};
ghost use Rattle.cola_spec.specs.Map.{Map, count};
ghost use Rattle.cola_verdict.specs.Alike.{told_by, AreCellsAlike};
ghost use Rattle.cola_verdict.specs.Tests.{Tested, tested_of};
ghost use Rattle.cola_verdict.specs.Verdict.{IsVerdict};
ghost use Rattle.cola_verdict.specs.declared.verdict.Flaw.{Flaw};
ghost use Rattle.cola_verdict.specs.declared.verdict.Verdict.{Verdict};

use crate::verdict::Verdict;

/// A file that passes all tests stands for a map, where its first 512 bytes spell the header of a closed store, and it has
/// all its cells. The map has as many keys as the verdict says.
pub fn sound_files_stand()
    ensures { (header : Fields) (bytes : List ℕ) (keys : ℕ) → IsSpelling header (take 512 bytes) →
        header.closed ≡ true →
        width header.format * 2 ^ (header.bottom + 4) ≤ length bytes → IsVerdict (tested_of header bytes) (Verdict.Sound keys) →
        (m : Map) × HeaderStandsFor header bytes m × (count m ≡ keys) }
{}

/// A file that stands for a map passes all tests, and its verdict says how many keys the map has.
pub fn standing_files_are_sound()
    ensures { (header : Fields) (bytes : List ℕ) (m : Map) → HeaderStandsFor header bytes m →
        IsVerdict (tested_of header bytes) (Verdict.Sound (count m)) }
{}

/// A file with a flaw stands for no map.
pub fn broken_files_stand_for_nothing()
    ensures { (header : Fields) (bytes : List ℕ) (flaw : Flaw) (level number : ℕ) →
        IsSpelling header (take 512 bytes) →
        IsVerdict (tested_of header bytes) (Verdict.Broken flaw level number) → (m : Map) → ¬ FileStandsFor bytes m }
{}

/// No file is without a verdict, whatever header and bytes it has: it is not so that none is its verdict.
pub fn no_file_lacks_a_verdict()
    ensures { (header : Fields) (bytes : List ℕ) →
        ¬ ((verdict : Verdict) → ¬ IsVerdict (tested_of header bytes) verdict) }
{}

/// A file has one verdict at most, where its marks keep the rules of the clock, as those of every header do: they say that
/// runs fit their slots, so that the number of a cell tells its level.
pub fn one_verdict_of_a_file()
    ensures { (file : Tested) → AreChainMarks file.clock file.marks → (verdict other : Verdict) →
        IsVerdict file verdict → IsVerdict file other → verdict ≡ other }
{}

/// A verdict depends on the header and the cells of the runs alone: whatever all other places tell, it is the same.
pub fn verdict_by_its_cells()
    ensures { (file : Tested) (others : Spots) → AreCellsAlike file others →
        (verdict : Verdict) → IsVerdict file verdict ↔ IsVerdict (told_by file others) verdict }
{}
