//! Laws of the table: they hold of all values of their variables, and running them does nothing.
ghost use Rattle.std.specs.Prelude.{◌≡◌, ℕ, All};
ghost use Rattle.std.specs.FinMap.{entries};
ghost use Rattle.cola_cell.specs.declared.format.Format.{Format};
ghost use Rattle.cola_cell.specs.declared.cell.Item.TheVariants.{Value};
ghost use Rattle.cola_cell.specs.Format.{KeyFits, ItemFits};
ghost use Rattle.cola_cell.specs.Held.{Stamped};
ghost use Rattle.cola_spec.specs.Map.{Map, IsMap, Stored};
ghost use Rattle.cola_shapes.specs.Shapes.{shape_of};
ghost use Rattle.cola_shapes.specs.Shapes.{stamped_of, stored_of};

/// What a map stores of a key and what the laws of runs have of it in a cell are one: a value with a
/// stamp. Each is the other with the same value and the same stamp.
pub fn stored_is_stamped()
    ensures there { (s : Stored) → stored_of (stamped_of s) ≡ s }
    ensures back { (s : Stamped) → stamped_of (stored_of s) ≡ s }
{}

/// The entries of a map fit the cells of its format: key, value and stamp are within their limits.
pub fn entries_fit_cells()
    ensures { (format : Format) (limit : ℕ) (m : Map) → IsMap (shape_of format limit) m →
        All (λ entry. KeyFits format entry.0 × ItemFits format (Value entry.1.value entry.1.stamp))
        (entries m.entries) }
{}
