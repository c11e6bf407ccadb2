//! What follows from how a session over two files ends. Each function does nothing: its clauses are the law.
ghost use Rattle.std.specs.Prelude.{◌≡◌, ℕ, ◌+◌, Bool, true, false, List, Ok, Err};
ghost use Rattle.cola_outside.specs.Faults.{RoseBy};
ghost use Rattle.cola_spec.specs.Machine.{Turn, faulted_steps};
ghost use Rattle.cola_spec.specs.Map.{Map};
ghost use Rattle.cola_mirror.specs.Differ.{IfBoth, DifferAt};
ghost use Rattle.cola_mirror.specs.Mirror.{Pair, IsSound};
ghost use Rattle.cola_mirror.specs.Sides.{has_first, has_second};
ghost use Rattle.cola_mirror.specs.declared.fault.RebuildFault.TheVariants as rebuild;
ghost use Rattle.cola_mirror.specs.declared.sides.Sides.{Sides};
ghost use Rattle.cola_mirror.specs.declared.sides.Sides.TheVariants.{Both, First, Second};
ghost use Rattle.cola_session.specs.Home.{FaultsOver};
ghost use Rattle.cola_command.specs.Mirrored.{MirrorEnds, mirrored_status, rebuild_status};
ghost use Rattle.cola_command_laws.specs.MirrorLaws.{LeftOn, OneAnswers, MirrorCompletes};

use cola_device::Device;
use cola_io::{Sink, Source};

/// The status of a session over two files, by that of its lines and the sides that are in use at the end; and that of a
/// rebuild, by its answer.
pub fn mirrors_have_statuses()
    ensures both { mirrored_status 0 Both ≡ 0 }
    ensures first_lost { mirrored_status 0 Second ≡ 17 }
    ensures second_lost { mirrored_status 0 First ≡ 18 }
    ensures others { (status : ℕ) (sides : Sides) →
        mirrored_status (status + 1) sides ≡ status + 1 }
    ensures rebuilt { rebuild_status (Ok tt) ≡ 0 }
    ensures small { rebuild_status (Err rebuild.Small) ≡ 6 }
    ensures no_store { rebuild_status (Err rebuild.NotStore) ≡ 6 }
    ensures in_use { rebuild_status (Err rebuild.NotClosed) ≡ 7 }
    ensures other { (many : ℕ) → rebuild_status (Err (rebuild.Other many)) ≡ 8 }
    ensures device { rebuild_status (Err rebuild.Device) ≡ 5 }
{}

/// Two files that differ end a session with 16, before anything else is touched: where both are told, the place is the first
/// at which they differ; no byte of them changed, and neither met a fault.
pub fn files_that_differ<S: Source, K: Sink, D: Device>()
    ensures { (cache steps steps' : ℕ) (cost : Bool) (source source' : S) (sink sink' : K) (device device' second second' : D) → MirrorEnds S.Source K.Sink D.Device cache cost source source' sink sink' device device' second second' steps steps' 16 →
        ((place : ℕ) × IfBoth (D.bytes device) (D.bytes second) (λ xs ys. DifferAt xs ys place))
        × ((D.bytes device' ≡ D.bytes device) × ((D.bytes second' ≡ D.bytes second) × (((D.counts device').faults ≡ (D.counts device).faults) × (((D.counts second').faults ≡ (D.counts second).faults) × ((source' ≡ source) × ((sink' ≡ sink) × (steps' ≡ steps))))))) }
{}

/// What a session over two files leaves: at 0 both have the bytes that the session over their mirror left, which ended with
/// 0; at 17 the second has, and at 18 the first.
pub fn mirrored_files_are_left<S: Source, K: Sink, D: Device>()
    ensures both { (cache steps steps' : ℕ) (cost : Bool) (source source' : S) (sink sink' : K) (device device' second second' : D) → MirrorEnds S.Source K.Sink D.Device cache cost source source' sink sink' device device' second second' steps steps' 0 →
        LeftOn S.Source K.Sink D.Device cache cost source source' sink sink' device device' second second' steps steps' true true 0 }
    ensures second { (cache steps steps' : ℕ) (cost : Bool) (source source' : S) (sink sink' : K) (device device' second second' : D) → MirrorEnds S.Source K.Sink D.Device cache cost source source' sink sink' device device' second second' steps steps' 17 →
        LeftOn S.Source K.Sink D.Device cache cost source source' sink sink' device device' second second' steps steps' false true 17 }
    ensures first { (cache steps steps' : ℕ) (cost : Bool) (source source' : S) (sink sink' : K) (device device' second second' : D) → MirrorEnds S.Source K.Sink D.Device cache cost source source' sink sink' device device' second second' steps steps' 18 →
        LeftOn S.Source K.Sink D.Device cache cost source source' sink sink' device device' second second' steps steps' true false 18 }
{}

/// Over a mirror there are at most as many faulted turns as the count of faults of each side that is in use at the end rose
/// since the mirror was made, unless that count stands at its last value.
pub fn mirrored_turns_count_faults<D: Device>()
    ensures first { (turns : List Turn) (last : Pair D D) → IsSound D.Device D.Device last →
        FaultsOver turns 0 last.counts.faults → has_first last.sides ≡ true →
        RoseBy (faulted_steps turns) last.first_faults (D.counts last.first).faults }
    ensures second { (turns : List Turn) (last : Pair D D) → IsSound D.Device D.Device last →
        FaultsOver turns 0 last.counts.faults → has_second last.sides ≡ true →
        RoseBy (faulted_steps turns) last.second_faults (D.counts last.second).faults }
{}

/// Completeness: over two files with the same bytes, which stand for a map, where fewer than 2^40 bytes were read, with no
/// fault of the source, of the sink or of one of the two devices, every line is answered as by the map, but that an opening
/// of a closed store may find no memory, and the status is 0, 17 or 18; or it is 1, where there was no memory for the store;
/// or it is 5, where the other device failed as the two were compared, and nothing else was touched.
pub fn mirrored_sessions_complete<S: Source, K: Sink, D: Device>()
    ensures { (cache status steps steps' : ℕ) (cost : Bool) (m : Map) (source source' : S) (sink sink' : K) (device device' second second' : D) →
        MirrorEnds S.Source K.Sink D.Device cache cost source source' sink sink' device device' second second' steps steps' status →
        OneAnswers S.Source K.Sink D.Device cache cost source source' sink sink' device device' second second' steps steps' m →
        MirrorCompletes S.Source K.Sink D.Device cache cost source source' sink sink' device device' second second' steps steps' m status }
{}
