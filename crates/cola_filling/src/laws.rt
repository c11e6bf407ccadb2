//! What follows from how the modes end. Each function does nothing: its clauses are the law.
ghost use Rattle.std.specs.Prelude.{◌≡◌, ◌⊎◌, ◌+◌, ◌*◌, ◌/◌, ◌<◌, ℕ, List, length, Some, IsSomeAnd};
ghost use Rattle.cola_cell.specs.declared.format.Format.{Format};
ghost use Rattle.cola_layout.specs.declared.geometry.Geometry.{Geometry};
ghost use Rattle.cola_opening.specs.Counted.{Spends};
ghost use Rattle.cola_run.specs.Cells.{block_cells};
ghost use Rattle.cola_session.specs.Ends.{ReadToEnd};
ghost use Rattle.cola_shapes.specs.Shapes.{shape_of};
ghost use Rattle.cola_filling.specs.GrowLaws.{GrowAnswers};
ghost use Rattle.cola_filling.specs.Grows.{GrowEnds};
ghost use Rattle.cola_filling.specs.LoadLaws.{LoadAnswers};
ghost use Rattle.cola_filling.specs.Loads.{LoadEnds, StandsForLines, CanBeLoaded};

use cola_device::Device;
use cola_io::{Sink, Source};

/// At status 0 the source was read to its end, and the new file stands for the map of the rows of its lines, of which none has a
/// word. A load that nothing keeps from its end has status 0, or 1 where there was no memory.
pub fn loaded_files_stand<S: Source, K: Sink, D: Device>()
    ensures stands { (keys block_exp : ℕ) (format : Format) (source source' : S) (sink sink' : K) (device device' : D) (bytes : List ℕ) →
        LoadEnds S.Source K.Sink D.Device keys block_exp format source source' sink sink' device device' 0 → D.bytes device' ≡ Some bytes →
        ReadToEnd S.Source K.Sink source source' sink sink (StandsForLines keys block_exp format bytes) }
    ensures complete { (keys block_exp status : ℕ) (format : Format) (source source' : S) (sink sink' : K) (device device' : D) →
        LoadEnds S.Source K.Sink D.Device keys block_exp format source source' sink sink' device device' status →
        CanBeLoaded S.Source K.Sink D.Device (shape_of format keys) source source' sink sink' device device' → (status ≡ 0) ⊎ (status ≡ 1) }
{}

/// How a load ends, in plain terms: by the status, what was read and written, and what the device had and has. However it ends,
/// the device is not read, is written at most as for a file with a row for each key, and is called beside at most four times; one
/// that had a byte keeps its bytes.
pub fn loads_are_answered<S: Source, K: Sink, D: Device>()
    ensures says { (keys block_exp status : ℕ) (format : Format) (source source' : S) (sink sink' : K) (device device' : D) →
        LoadEnds S.Source K.Sink D.Device keys block_exp format source source' sink sink' device device' status →
        (geometry : Geometry) × ((geometry.keys ≡ keys) × ((geometry.block_exp ≡ block_exp) × ((geometry.format ≡ format)
        × (LoadAnswers S.Source K.Sink D.Device geometry source source' sink sink' device device' status
        × Spends (D.counts device) (D.counts device') 0 (8 * geometry.keys / (7 * block_cells geometry) + (geometry.bottom + 1) + 3) 4)))) }
    ensures occupied { (keys block_exp status : ℕ) (format : Format) (source source' : S) (sink sink' : K) (device device' : D) →
        LoadEnds S.Source K.Sink D.Device keys block_exp format source source' sink sink' device device' status →
        IsSomeAnd (D.bytes device) (λ bytes. 0 < length bytes) → D.bytes device' ≡ D.bytes device }
{}

/// How the growing of a file ends, in plain terms: by the status, the answer of `grow`, and what was written.
pub fn grows_are_told<K: Sink, D: Device>()
    ensures { (keys block_exp steps steps' status : ℕ) (device device' second second' : D) (sink sink' : K) →
        GrowEnds K.Sink D.Device keys block_exp device device' second second' sink sink' steps steps' status →
        GrowAnswers K.Sink D.Device keys block_exp device device' second second' sink sink' steps steps' status }
{}
