//! What follows from how a test ends. Each function does nothing: its clauses are the law.
ghost use Rattle.std.specs.Prelude.{◌≡◌, ◌≢◌, ◌⊎◌, ℕ, ◌+◌, ◌*◌, ◌/◌, ◌^◌, ◌≤◌, [], ◌∷◌, List, Some, Result};
ghost use Rattle.cola_layout.specs.Header.{Fields};
ghost use Rattle.cola_opening.specs.Judged.{IsClosedWith};
ghost use Rattle.cola_verdict.specs.declared.verdict.Flaw.TheVariants.{Cell};
ghost use Rattle.cola_verdict.specs.declared.verdict.Verdict.{Verdict};
ghost use Rattle.cola_verdict.specs.declared.verdict.Verdict.TheVariants.{Broken};
ghost use Rattle.cola_check.specs.declared.fault.CheckFault.{CheckFault as AnyFault};
ghost use Rattle.cola_check.specs.Check.{Checks, IsTested, runs_cells};
ghost use Rattle.cola_check.specs.CheckLaws.{CheckSays};

use cola_device::Device;

/// What the test of a file whose bytes are told costs, by its header, in plain numbers: at most 80 ticks for each of the
/// `2^bottom` steps of the lowest level's period, and at most ten reads of the device for each block of cells that the runs
/// fill, 41 for each level, and three. It is so too where the bytes are not told and the verdict is not that a cell is bad.
pub fn tested_files_are_read_by_blocks<D: Device>()
    ensures ticks { (device device' : D) (from to : ℕ) (verdict : Verdict) (bytes : List ℕ) →
        IsTested D.Device device device' from to verdict → D.bytes device ≡ Some bytes →
        (header : Fields) × IsClosedWith header bytes × (to ≤ from + 80 * 2 ^ header.bottom) }
    ensures reads { (device device' : D) (from to : ℕ) (verdict : Verdict) (bytes : List ℕ) →
        IsTested D.Device device device' from to verdict → D.bytes device ≡ Some bytes →
        (header : Fields) × IsClosedWith header bytes
        × ((D.counts device').reads ≤ (D.counts device).reads + (10 * (runs_cells header.levels / 2 ^ header.block_exp) + 41 * (header.bottom + 1) + 3)) }
    ensures untold { (device device' : D) (from to : ℕ) (verdict : Verdict) →
        IsTested D.Device device device' from to verdict → ((level number : ℕ) → verdict ≢ Broken Cell level number) →
        (header : Fields) × ((D.counts device').reads ≤ (D.counts device).reads + (10 * (runs_cells header.levels / 2 ^ header.block_exp) + 41 * (header.bottom + 1) + 3)) }
    ensures cells { runs_cells (record { visible = 1; shadow = 2; own = 0; incoming = 0; sample = 0 }
        ∷ record { visible = 30; shadow = 400; own = 5; incoming = 6; sample = 7 } ∷ []) ≡ 433 }
{}

/// What each answer says of the device and of the count of cell accesses, in plain terms.
pub fn tests_are_answered<D: Device>()
    ensures { (device device' : D) (from to : ℕ) (result : Result Verdict AnyFault) →
        Checks D.Device device device' from to result → CheckSays D.Device device device' from to result }
{}
