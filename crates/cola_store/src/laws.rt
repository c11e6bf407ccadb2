//! Laws of new files, and of what a store counts. Each function does nothing: its clauses are the law.
ghost use Rattle.std.specs.Prelude.{ℕ, List};
ghost use Rattle.cola_spec.specs.Command as spec;
ghost use Rattle.cola_store.specs.Laws.{NewFileIsMade, NewFileStands, KeepsReads, CountKeepsReads, PutStaysCalm, PutIfStaysCalm, DeleteStaysCalm, LeavesCalm};

use cola_device::Device;

/// On a device that tells that it is empty, with keys and a block that suit each other, a file is made unless the
/// device's count of faults rises.
pub fn new_file_is_made<D: Device>()
    ensures { NewFileIsMade D.Device }
{}

/// A new file stands for the empty map.
pub fn new_file_stands()
    ensures { NewFileStands }
{}

/// On a store that stands for a map, a turn that is no range keeps the account of reads: a search turns to one block for
/// each level at most, and a step to as many blocks as it is counted for.
pub fn turns_keep_reads<D: Device>()
    ensures puts { (key value : List ℕ) → KeepsReads D.Device (spec.Put key value) }
    ensures conditional_puts { (key : List ℕ) (seen : ℕ) (value : List ℕ) →
        KeepsReads D.Device (spec.PutIf key seen value) }
    ensures deletes { (key : List ℕ) → KeepsReads D.Device (spec.Del key) }
    ensures gets { (key : List ℕ) → KeepsReads D.Device (spec.Get key) }
    ensures stamps { (key : List ℕ) → KeepsReads D.Device (spec.Stamp key) }
    ensures counts { CountKeepsReads D.Device }
{}

/// On a store that stands for a map, a step is refused only where the device's count of faults rose: where it did not, the
/// account stays as calm as it was. A turn that makes no step leaves it so on every store.
pub fn calm_stays<D: Device>()
    ensures puts { PutStaysCalm D.Device }
    ensures conditional_puts { PutIfStaysCalm D.Device }
    ensures deletes { DeleteStaysCalm D.Device }
    ensures gets { (key : List ℕ) → LeavesCalm D.Device (spec.Get key) }
    ensures stamps { (key : List ℕ) → LeavesCalm D.Device (spec.Stamp key) }
    ensures counts { LeavesCalm D.Device spec.Count }
{}
