//! What a test says of maps. The function does nothing: its clauses are the law.
ghost use Rattle.std.specs.Prelude.{◌≡◌, ℕ, List, Ok, Result};
ghost use Rattle.cola_image.specs.Standing.{FileStandsFor};
ghost use Rattle.cola_spec.specs.Map.{Map, count};
ghost use Rattle.cola_verdict.specs.declared.verdict.Flaw.{Flaw};
ghost use Rattle.cola_verdict.specs.declared.verdict.Verdict.{Verdict};
ghost use Rattle.cola_tools.specs.declared.fault.ToolFault.{ToolFault};
ghost use Rattle.cola_tools.specs.Checking.{Checks, IsCountOrMemory};

/// Bytes that are found sound stand for a map with so many keys, and bytes with a flaw stand for none. Bytes that stand for a map
/// are found sound with the number of its keys, or there was no memory.
pub fn tests_tell_of_maps()
    ensures sound { (bytes : List ℕ) (from to keys : ℕ) → Checks bytes from to (Ok (Verdict.Sound keys)) →
        (m : Map) × (FileStandsFor bytes m × (count m ≡ keys)) }
    ensures broken { (bytes : List ℕ) (from to : ℕ) (flaw : Flaw) (level cell : ℕ) (m : Map) →
        Checks bytes from to (Ok (Verdict.Broken flaw level cell)) → ¬ FileStandsFor bytes m }
    ensures complete { (bytes : List ℕ) (from to : ℕ) (result : Result Verdict ToolFault) (m : Map) →
        FileStandsFor bytes m → Checks bytes from to result → IsCountOrMemory (count m) result }
{}
