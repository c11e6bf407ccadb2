//! What follows from how the test of a file ends. The function does nothing: its clauses are the law.
ghost use Rattle.std.specs.Prelude.{◌≡◌, ◌⊎◌, ℕ, List, ◌++◌, codes, decimal, Some};
ghost use Rattle.cola_outside.specs.Faults.{Rose};
ghost use Rattle.cola_image.specs.Standing.{FileStandsFor};
ghost use Rattle.cola_io.specs.Streams.{Appended};
ghost use Rattle.cola_spec.specs.Map.{Map, count};
ghost use Rattle.cola_spec.specs.Reply.{line};
ghost use Rattle.cola_command.specs.Checked.{CheckEnds};

use cola_device::Device;
use cola_io::Sink;

/// Status 0 says that the file stands for a map, and the line that was written how many keys that has; status 13 that it
/// stands for none. Where it stands for one, and no count of faults rose, the status is 0, or 1 where there was no memory.
pub fn checked_files_are_judged<K: Sink, D: Device>()
    ensures sound { (device device' : D) (sink sink' : K) (steps steps' : ℕ) (bytes : List ℕ) →
        CheckEnds K.Sink D.Device device device' sink sink' steps steps' 0 →
        D.bytes device ≡ Some bytes →
        (m : Map) × (FileStandsFor bytes m × Appended (line (codes "sound " ++ decimal (count m))) (K.written sink) (K.written sink')) }
    ensures broken { (device device' : D) (sink sink' : K) (steps steps' : ℕ) (bytes : List ℕ) (m : Map) → CheckEnds K.Sink D.Device device device' sink sink' steps steps' 13 → D.bytes device ≡ Some bytes →
        ¬ FileStandsFor bytes m }
    ensures complete { (device device' : D) (sink sink' : K) (steps steps' status : ℕ) (bytes : List ℕ) (m : Map) → CheckEnds K.Sink D.Device device device' sink sink' steps steps' status → D.bytes device ≡ Some bytes →
        FileStandsFor bytes m → (Rose (D.counts device).faults (D.counts device').faults → ⊥) → (Rose (K.faults sink) (K.faults sink') → ⊥) → (status ≡ 0) ⊎ (status ≡ 1) }
{}
