//! Laws of levels and files that stand for a map. Each function does nothing: its clauses are the law.

ghost use Rattle.std.specs.Prelude.{◌≡◌, ℕ, ◌+◌, ◌*◌, ◌^◌, ◌≤◌, true, List, length, take, replicate};
ghost use Rattle.cola_cell.specs.Format.{width};
ghost use Rattle.cola_cell.specs.Held.{Spots};
ghost use Rattle.cola_clock.specs.Marks.{Marks};
ghost use Rattle.cola_layout.specs.Geometry.{IsBottom};
ghost use Rattle.cola_layout.specs.Header.{Fields, IsSpelling};
ghost use Rattle.cola_layout.specs.Marks.{all_numbers, no_marks};
ghost use Rattle.cola_spec.specs.Bounds.{levels_of};
ghost use Rattle.cola_spec.specs.Map.{Map, empty_map};
ghost use Rattle.cola_layout.specs.Cells.{file_spots};
ghost use Rattle.cola_image.specs.Standing.{AreRunsAlike, AreRunsTold, LevelsStandFor, HeaderStandsFor, FileStandsFor};
ghost use Rattle.cola_image.specs.Worked.{puts_to, map_after, file_of_four, file_of_eight, file_of_eleven, file_of_sixteen, crowded_file, crowded_header};

/// A file stands for one map at most.
pub fn one_map_of_a_file()
    ensures { (bytes : List ℕ) (m n : Map) → FileStandsFor bytes m → FileStandsFor bytes n → m ≡ n }
{}

/// Levels stand for a map by the cells of their runs alone: they do so as well in another object, or in another file,
/// that tells these cells alike, whatever it tells of all others.
pub fn levels_stand_by_their_cells()
    ensures { (most t : ℕ) (marks : List Marks) (spots others : Spots) (m : Map) →
        AreRunsAlike spots others t 0 marks → LevelsStandFor most t marks spots m → LevelsStandFor most t marks others m }
{}

/// A closed file of a store with no keys, at clock 0 and with no runs, stands for the empty map, whatever the bytes
/// behind its header are.
pub fn empty_file_stands()
    ensures { (header : Fields) (bytes : List ℕ) → IsSpelling header (take 512 bytes) →
        header.closed ≡ true →
        header.count ≡ 0 → header.clock ≡ 0 → header.last ≡ 0 → header.levels ≡ replicate (header.bottom + 1) no_marks →
        width header.format * 2 ^ (header.bottom + 4) ≤ length bytes → HeaderStandsFor header bytes empty_map }
{}

/// A store for so many keys has one level more than the number of its bottom: the levels by which the bounds on cell
/// accesses are counted are those of its file.
pub fn levels_are_counted()
    ensures { (keys bottom : ℕ) → IsBottom keys bottom → levels_of keys ≡ bottom + 1 }
{}

/// Worked files, byte by byte, of a store for 32 keys: after four, eight, eleven and sixteen puts, of the keys k01 and so on
/// with the values 1 and so on, each stands for the map after these puts.
pub fn worked_files_stand()
    ensures four { FileStandsFor file_of_four (map_after (puts_to 4)) }
    ensures eight { FileStandsFor file_of_eight (map_after (puts_to 8)) }
    ensures eleven { FileStandsFor file_of_eleven (map_after (puts_to 11)) }
    ensures sixteen { FileStandsFor file_of_sixteen (map_after (puts_to 16)) }
{}

/// A worked file that stands for no map, though its first 512 bytes spell the header of a closed file, and it is as long
/// as that says: its level 0 is full of old items at clock 0.
pub fn full_top_stands_for_nothing()
    ensures spelled { IsSpelling crowded_header (take 512 crowded_file) }
    ensures whole { width crowded_header.format * 2 ^
        (crowded_header.bottom + 4) ≤ length crowded_file }
    ensures told { AreRunsTold
        (file_spots crowded_header.format crowded_file) crowded_header.clock 0
        (all_numbers crowded_header.levels) }
    ensures none { (m : Map) → ¬ FileStandsFor crowded_file m }
{}
