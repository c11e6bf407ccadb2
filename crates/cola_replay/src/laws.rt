//! Laws of logs beside stores. Each is a function with nothing to run: what it ensures is the law.
ghost use Rattle.std.specs.Prelude.{◌≡◌, true, ℕ, List, [], Option, Some, None};
ghost use Rattle.cola_journal.specs.Disk.{Contents, Pages};
ghost use Rattle.cola_replay.specs.Again.{AreMadeAgain};
ghost use Rattle.cola_replay.specs.Crash.{Happening, IsRun, CanHappen, happens, behind, begin_with, durable, IsFront, IsKept, IsAnswered};
ghost use Rattle.cola_spec.specs.Map.{Shape, Map};
ghost use Rattle.cola_replay.specs.Maps.{Stands, AllSave, AreMapsKept, AreMapsAnswered};

use cola_device::Device;

/// The calls of a store that held a map, of which none failed, took it to the map to which its log takes one that holds the
/// same map.
pub fn calls_are_made_again<D: Device>()
    ensures { AreMadeAgain D.Device }
{}

/// After a failure of the power at any moment of any run of calls, syncs of the log, checkpoints by a journal, crashes and
/// openings, an opening finds a front of the calls that has all whose sync ended; each happening keeps those; and where only
/// the process died, all that were made are found.
pub fn synced_calls_are_kept()
    ensures kept { (reads : List ℕ → Option Pages) → reads [] ≡ None
        → ((bytes : List ℕ) (pages : Pages) → reads bytes ≡ Some pages → pages.has 14 ≡ true)
        → (file : Contents) (its : List Happening) → IsRun reads (begin_with file) its
        → IsKept reads (behind reads (begin_with file) its) }
    ensures durable { (reads : List ℕ → Option Pages) → reads [] ≡ None
        → ((bytes : List ℕ) (pages : Pages) → reads bytes ≡ Some pages → pages.has 14 ≡ true)
        → (file : Contents) (its : List Happening) (it : Happening) → IsRun reads (begin_with file) its
        → CanHappen reads (behind reads (begin_with file) its) it
        → IsFront (durable (behind reads (begin_with file) its)) (durable (happens reads (behind reads (begin_with file) its) it)) }
    ensures answered { (reads : List ℕ → Option Pages) → reads [] ≡ None
        → ((bytes : List ℕ) (pages : Pages) → reads bytes ≡ Some pages → pages.has 14 ≡ true)
        → (file : Contents) (its : List Happening) → IsRun reads (begin_with file) its
        → IsAnswered reads (behind reads (begin_with file) its) }
{
    cola_journal::laws::checkpoints_are_kept();
}

/// And so it is of the maps: where each checkpoint begins with a file that stands for the map behind all calls that were made, an
/// opening behind a failure of the power finds a file and calls that lead to the map behind a front of the calls that has all whose
/// sync ended; and where only the process died, behind all that were made.
pub fn maps_are_kept()
    ensures kept { (reads : List ℕ → Option Pages) → reads [] ≡ None
        → ((bytes : List ℕ) (pages : Pages) → reads bytes ≡ Some pages → pages.has 14 ≡ true)
        → (size : ℕ) (shape : Shape) (m : Map) (file : Contents) → Stands size file m
        → (its : List Happening) → IsRun reads (begin_with file) its → AllSave reads size shape m (begin_with file) its
        → AreMapsKept reads size shape m (behind reads (begin_with file) its) }
    ensures answered { (reads : List ℕ → Option Pages) → reads [] ≡ None
        → ((bytes : List ℕ) (pages : Pages) → reads bytes ≡ Some pages → pages.has 14 ≡ true)
        → (size : ℕ) (shape : Shape) (m : Map) (file : Contents) → Stands size file m
        → (its : List Happening) → IsRun reads (begin_with file) its → AllSave reads size shape m (begin_with file) its
        → AreMapsAnswered reads size shape m (behind reads (begin_with file) its) }
{
    cola_journal::laws::checkpoints_are_kept();
    synced_calls_are_kept();
}
