//! Laws of the lists of cells that are taken of an object. Each function does nothing: its clauses are the law.

ghost use Rattle.std.specs.Prelude.{◌≡◌, ℕ, length};
ghost use Rattle.cola_cell.specs.Held.{Spot};
ghost use Rattle.cola_cell.specs.Laws.{ToldRunIsItsCells, RunIsTold, RunHasItsCells};
ghost use Rattle.cola_cell.specs.ToldCells.{cells};

/// The list has as many cells as were asked for, whatever the object tells.
pub fn cells_have_their_length()
    ensures { (spots : ℕ → Spot) (index count : ℕ) → length (cells spots index count) ≡ count }
{}

/// A run of which each cell is told is the list of its cells, and no other.
pub fn told_run_is_its_cells()
    ensures is { ToldRunIsItsCells }
    ensures told { RunIsTold }
    ensures same { RunHasItsCells }
{}
