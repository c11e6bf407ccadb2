//! A file that is filled with rows, and the map that these rows give. Each function does nothing: its clauses are the law.

ghost use Rattle.std.specs.Prelude.{◌≡◌, ◌≤◌, ℕ, List, [], ◌∷◌, length, map};
ghost use Rattle.std.specs.FinMap as finite;
ghost use Rattle.cola_cell.specs.declared.cell.Cell.TheVariants.{Look};
ghost use Rattle.cola_cell.specs.declared.format.Format.{Format};
ghost use Rattle.cola_cell.specs.Format.{stamp_limit};
ghost use Rattle.cola_layout.specs.Cells.{slot_cells, file_spots};
ghost use Rattle.cola_image.specs.Standing.{HeaderStandsFor};
ghost use Rattle.cola_image.specs.Worked.{key_of_put};
ghost use Rattle.cola_laws.specs.Plain.{loaded};
ghost use Rattle.cola_laws.specs.Slots.{levels_of};
ghost use Rattle.cola_layout.specs.declared.geometry.Geometry.{Geometry};
ghost use Rattle.cola_layout.specs.Header.{IsSound};
ghost use Rattle.cola_layout.specs.Marks.{all_numbers};
ghost use Rattle.cola_spec.specs.Map.{Shape, Map, IsMap, count};
ghost use Rattle.cola_shapes.specs.Shapes.{shape_of};
ghost use Rattle.cola_load.specs.Filled.{Row, entry_of, map_of, rows_of, AreRows, worked_rows};
ghost use Rattle.cola_load.specs.Filled.{run_len, filled_cell, bottom_run, filled_header, HasFilledCells, IsFilled};

/// A file that is filled with rows stands for the map that they give: its bottom has the rows, each level above it has the
/// sample of the run below it, and the header says so.
pub fn filled_files_stand()
    ensures stands { (geometry : Geometry) (last : ℕ) (rows : List Row) (bytes : List ℕ) →
        last ≤ stamp_limit geometry.format →
        AreRows (shape_of geometry.format geometry.keys) last rows → IsFilled geometry last rows bytes →
        HeaderStandsFor (filled_header geometry last (length rows)) bytes (map_of last rows) }
    ensures levels { (geometry : Geometry) (last : ℕ) (rows : List Row) (bytes : List ℕ) →
        HasFilledCells geometry rows bytes →
        levels_of (slot_cells (file_spots geometry.format bytes)) 0 0
        (all_numbers (filled_header geometry last (length rows)).levels)
        ≡ loaded geometry.bottom (bottom_run rows) }
{}

/// The header of a file that is filled with at most as many rows as the store is for keeps the rules of headers: so it has a
/// spelling, and its levels fit their slots.
pub fn filled_headers_are_sound()
    ensures { (geometry : Geometry) (last many : ℕ) → last ≤ stamp_limit geometry.format →
        many ≤ geometry.keys → IsSound (filled_header geometry last many) }
{}

/// The map that rows give has these rows as its entries, in their order, and no other. Where the last number is one that the
/// format has, it is a map of the format.
pub fn rows_of_their_map()
    ensures entries { (shape : Shape) (last : ℕ) (rows : List Row) → AreRows shape last rows →
        finite.entries (map_of last rows).entries ≡ map entry_of rows }
    ensures counted { (shape : Shape) (last : ℕ) (rows : List Row) → AreRows shape last rows →
        count (map_of last rows) ≡ length rows }
    ensures rows { (shape : Shape) (last : ℕ) (rows : List Row) → AreRows shape last rows →
        rows_of (map_of last rows) ≡ rows }
    ensures is_map { (format : Format) (keys last : ℕ) (rows : List Row) →
        last ≤ stamp_limit format → AreRows (shape_of format keys) last rows →
        IsMap (shape_of format keys) (map_of last rows) }
{}

/// The rows of a map give the map, and are rows that a store of its format may be filled with.
pub fn map_of_its_rows()
    ensures again { (m : Map) → map_of m.last (rows_of m) ≡ m }
    ensures are_rows { (shape : Shape) (m : Map) → IsMap shape m →
        AreRows shape m.last (rows_of m) }
{}

/// A store for 32 keys, with the levels 0 to 3, that is filled with the rows k01 to k32: levels 0 and 1 are empty, and level 2
/// has the key of each eighth row, each with the link to the first of the eight rows that it stands for.
pub fn worked_file()
    ensures lengths { map (run_len 32) (3 ∷ 2 ∷ 1 ∷ 0 ∷ []) ≡ 0 ∷ 0 ∷ 4 ∷ 32 ∷ [] }
    ensures sample { map (filled_cell (worked_rows 32) 1) (0 ∷ 1 ∷ 2 ∷ 3 ∷ [])
        ≡ Look (key_of_put 8) 0 ∷ Look (key_of_put 16) 8 ∷ Look (key_of_put 24) 16 ∷
        Look (key_of_put 32) 24 ∷ [] }
{}
