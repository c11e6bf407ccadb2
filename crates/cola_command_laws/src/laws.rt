//! What follows from how a session over a table in memory, or making a file, ends, and the numbers of a session.
ghost use Rattle.std.specs.Prelude.{◌≡◌, ◌⊎◌, ℕ, ◌^◌, ◌<◌, List, length, Option, IsSomeAnd};
ghost use Rattle.cola_cell.specs.declared.format.Format.{Format};
ghost use Rattle.cola_outside.specs.Faults.{Rose};
ghost use Rattle.cola_io.specs.Reads.{Read, bytes_read};
ghost use Rattle.cola_spec.specs.Lines.{Line, line_limit};
ghost use Rattle.cola_session.specs.Ends.{NothingFails};
ghost use Rattle.cola_session.specs.Memory.{MemoryEnds};
ghost use Rattle.cola_session.specs.Reading.{input_limit, ReadFor};
ghost use Rattle.cola_command.specs.Serves.{CreateEnds, Serves};
ghost use Rattle.cola_status.specs.Statuses.{IsStatus};
ghost use Rattle.cola_words.specs.declared.mode.Mode.{Mode};

use cola_device::Device;
use cola_io::{Sink, Source};

/// A source that tells fewer than 2^40 bytes gives fewer than 2^40.
pub fn few_bytes_are_read<S: Source>()
    ensures { (answered : List Line) (source source' : S) (reads : List Read) →
        IsSomeAnd (S.left source) (λ bytes. length bytes < 2 ^ 40) →
        ReadFor S.Source answered source reads source' → length (bytes_read reads) < 2 ^ 40 }
{}

/// Completeness: where fewer than 2^40 bytes were read, with no fault of the source or the
/// sink, a session ends with status 0, or with 1 where there was no memory for its table.
pub fn memory_sessions_complete<S: Source, K: Sink>()
    ensures { (keys status steps steps' : ℕ) (source source' : S) (sink sink' : K) →
        MemoryEnds S.Source K.Sink keys source source' sink sink' steps steps' status →
        NothingFails S.Source K.Sink source source' sink sink' → (status ≡ 0) ⊎ (status ≡ 1) }
{}

/// Completeness of making a file: on a device that tells that it is empty, with no fault of it, the
/// status is 0.
pub fn new_files_complete<D: Device>()
    ensures { (format : Format) (keys block_exp status : ℕ) (device device' : D) →
        CreateEnds D.Device format keys block_exp device device' status →
        IsSomeAnd (D.bytes device) (λ bytes. length bytes ≡ 0) →
        (Rose (D.counts device).faults (D.counts device').faults → ⊥) → status ≡ 0 }
{}

/// The numbers that the contracts of a session name: 2^40 bytes of input, and 160 bytes of a line before
/// its end.
pub fn session_limits()
    ensures input { input_limit ≡ 1099511627776 }
    ensures line { line_limit ≡ 160 }
{}

/// What `serve` ends with is the number of a status.
pub fn statuses_are_known<S: Source, K: Sink, D: Device>()
    ensures { (source source' : S) (sink sink' : K) (device device' second second' : D) (steps steps' status : ℕ) (mode : Option Mode) → Serves S.Source K.Sink D.Device source source' sink sink' device device' second second' steps steps' status mode → IsStatus status }
{}
