//! What follows from how a session over the file of a device ends. Each function does nothing: its clauses are the law.
ghost use Rattle.std.specs.Prelude.{◌≡◌, ℕ, ◌+◌, ◌*◌, ◌≤◌, Bool, List, [], ◌∷◌, map, All, length, IsSomeAnd};
ghost use Rattle.cola_outside.specs.Faults.{Rose, RoseBy};
ghost use Rattle.cola_spec.specs.Bounds.{request_bound};
ghost use Rattle.cola_spec.specs.Kinds.{requests_bound};
ghost use Rattle.cola_spec.specs.Machine.{Turn, faulted_steps, ticks_of};
ghost use Rattle.cola_spec.specs.Map.{Map};
ghost use Rattle.cola_spec.specs.Told.{printed_cost};
ghost use Rattle.cola_image.specs.Standing.{FileStandsFor};
ghost use Rattle.cola_command.specs.File.{Sizes};
ghost use Rattle.cola_session.specs.Home.{FaultsOver};
ghost use Rattle.cola_command.specs.Headline.{FileEnds, StandsAs, asked};
ghost use Rattle.cola_session.specs.Ends.{ReadToEnd};
ghost use Rattle.cola_command.specs.RunTransfers.{mutations, searches, by_store, most_writes, most_reads, cached_reads};
ghost use Rattle.cola_command_laws.specs.Example.{example, example_sizes};
ghost use Rattle.cola_command_laws.specs.HeadlineLaws.{NoneFails, TransferredFew, Completes, NoneFaulted, AreWithin, printed_sum, unprinted_bound};

use cola_device::Device;
use cola_io::{Sink, Source};

/// Completeness: over a file that stands for a map, where fewer than 2^40 bytes were read, with no fault of the
/// source, the sink or the device, a session ends with status 0, and every line is answered as by the map, but that an
/// opening of a closed store may find no memory; or with status 1, where there was no memory for its store.
pub fn file_sessions_complete<S: Source, K: Sink, D: Device>()
    ensures { (cache status steps steps' : ℕ) (cost : Bool) (m : Map) (source source' : S) (sink sink' : K) (device device' : D) →
        FileEnds S.Source K.Sink D.Device cache cost source source' sink sink' device device' steps steps' status →
        NoneFails S.Source K.Sink D.Device m source source' sink sink' device device' →
        Completes S.Source K.Sink D.Device cache cost m source source' sink sink' device device' steps steps' status }
{}

/// Over a file that stands for a map, with status 0 and no fault of the device, a session writes at most what its stores may,
/// each from its opening to its close, by the mutations that were accepted in it; where no range and no scan is asked, it
/// reads at most what these may, by their mutations and searches, and one block more for each opening that found no memory;
/// and where the cache has room for every block of the file, it reads at most as many blocks for each store as the file has,
/// one for each level and 4, and one more for each opening that found no memory.
pub fn file_sessions_transfer_few<S: Source, K: Sink, D: Device>()
    ensures { (cache steps steps' : ℕ) (cost : Bool) (m : Map) (source source' : S) (sink sink' : K) (device device' : D) →
        FileEnds S.Source K.Sink D.Device cache cost source source' sink sink' device device' steps steps' 0 →
        IsSomeAnd (D.bytes device) (λ bytes. FileStandsFor bytes m) → (Rose (D.counts device).faults (D.counts device').faults → ⊥) →
        ReadToEnd S.Source K.Sink source source' sink sink' (TransferredFew K.Sink D.Device cost m sink sink' device device' cache) }
{}

/// The turns of a session by their stores, and what these may read and write, worked out: a put, a close, a put that is shut
/// out, an opening, two deletes of which one finds its key, and a get; in a file of 8 levels, with blocks of 8 cells.
pub fn stores_of_turns()
    ensures stores { map length (by_store example) ≡ 3 ∷ 4 ∷ [] }
    ensures mutations { map mutations (by_store example) ≡ 1 ∷ 1 ∷ [] }
    ensures searches { map searches (by_store example) ≡ 1 ∷ 3 ∷ [] }
    ensures writes { most_writes example_sizes 1 ≡ 4 + 256 + 8 + 4 }
    ensures reads { most_reads example_sizes 1 3 ≡ 14 + 4 * 256 + 8 * 3 + 8 + 4 }
    ensures cached { cached_reads example_sizes ≡ 256 + 8 + 4 }
{}

/// Of the faults over turns: there are at most as many faulted turns as the count of faults rose, unless it stands at its
/// last value; and where it did not rise no turn is faulted.
pub fn turns_count_faults()
    ensures at_most { (turns : List Turn) (before now : ℕ) → FaultsOver turns before now →
        RoseBy (faulted_steps turns) before now }
    ensures none { (turns : List Turn) (before now : ℕ) → FaultsOver turns before now →
        (Rose before now → ⊥) → NoneFaulted turns }
{}

/// Of turns within their bounds: their cell accesses are at most the sum of the bounds. Where costs are printed, each number
/// is within the bound of its line; the sum of the numbers is at most all cell accesses, and these are at most that sum and
/// the bounds of the turns that print none.
pub fn turns_keep_bounds()
    ensures ticks { (levels : ℕ) (turns : List Turn) → AreWithin levels turns →
        ticks_of turns ≤ requests_bound levels (asked turns) }
    ensures printed { (cost : Bool) (levels : ℕ) (turns : List Turn) → AreWithin levels turns →
        All (λ (turn : Turn). printed_cost cost turn ≤ request_bound levels turn.request) turns }
    ensures sum_at_most { (cost : Bool) (turns : List Turn) →
        printed_sum cost turns ≤ ticks_of turns }
    ensures sum_at_least { (cost : Bool) (levels : ℕ) (turns : List Turn) → AreWithin levels turns →
        ticks_of turns ≤ printed_sum cost turns + unprinted_bound cost levels turns }
{}

/// A file with a header of its sizes that stands for a map is a file that stands for it.
pub fn files_stand()
    ensures { (sizes : Sizes) (m : Map) (bytes : List ℕ) → StandsAs sizes m bytes →
        FileStandsFor bytes m }
{}
