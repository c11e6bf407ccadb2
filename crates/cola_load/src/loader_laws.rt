//! Laws of a load. Each function does nothing: its clauses are the law.
ghost use Rattle.std.specs.Prelude.{ℕ, ◌+◌, ◌*◌, ◌/◌, ◌≤◌};
ghost use Rattle.cola_layout.specs.declared.geometry.Geometry.{Geometry as AnyGeometry};
ghost use Rattle.cola_run.specs.Cells.{block_cells, device_levels};
ghost use Rattle.cola_load.specs.Loading.{full_blocks};

/// A load of so many rows writes little more blocks than eight sevenths of those that the rows fill, and a few for each level.
pub fn loads_write_few_blocks()
    ensures { (geometry : AnyGeometry) (rows : ℕ) →
        full_blocks geometry rows + (device_levels geometry + 2)
        ≤ 8 * rows / (7 * block_cells geometry) + (geometry.bottom + 1) + 3 }
{}

/// More rows fill no fewer blocks.
pub fn full_blocks_rise()
    ensures { (geometry : AnyGeometry) (rows more : ℕ) → rows ≤ more →
        full_blocks geometry rows ≤ full_blocks geometry more }
{}
