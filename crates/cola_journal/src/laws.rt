//! Laws of checkpoints, of any runs. Each is a function with nothing to run: what it ensures is the law.
ghost use Rattle.std.specs.Prelude.{◌≡◌, ◌⊎◌, true, ℕ, List, [], Option, Some, None};
ghost use Rattle.cola_journal.specs.declared.stage.Stage.TheVariants.{Rest};
ghost use Rattle.cola_journal.specs.Disk.{Contents, Pages, LeavesFile, IsHeaderWhole};
ghost use Rattle.cola_journal.specs.Runs.{Event, IsRun, CanHappen, happens, behind, begin_with, HeadersStay, under_way, IsSafe, IsSettled, IsTold, Stands};

/// After a crash at any moment of any run, a recovery leaves the checkpoint that holds or the one under way; only the one
/// under way comes to hold; and at rest the file has what holds. To those who know of no journal a file in the middle of a
/// checkpoint says that it is in use, as long as headers are written whole or not at all.
pub fn checkpoints_are_kept()
    ensures safe { (reads : List ℕ → Option Pages) → reads [] ≡ None
        → ((bytes : List ℕ) (pages : Pages) → reads bytes ≡ Some pages → pages.has 14 ≡ true)
        → (file : Contents) (events : List Event) → IsRun reads (begin_with file) events
        → IsSafe reads (behind reads (begin_with file) events) }
    ensures settled { (reads : List ℕ → Option Pages) → reads [] ≡ None
        → ((bytes : List ℕ) (pages : Pages) → reads bytes ≡ Some pages → pages.has 14 ≡ true)
        → (file : Contents) (events : List Event) → IsRun reads (begin_with file) events
        → (behind reads (begin_with file) events).stage ≡ Rest
        → IsSettled reads (behind reads (begin_with file) events) }
    ensures turns { (reads : List ℕ → Option Pages) → reads [] ≡ None
        → ((bytes : List ℕ) (pages : Pages) → reads bytes ≡ Some pages → pages.has 14 ≡ true)
        → (file : Contents) (events : List Event) (event : Event) → IsRun reads (begin_with file) events
        → CanHappen reads (behind reads (begin_with file) events) event
        → Stands (behind reads (begin_with file) events) (happens reads (behind reads (begin_with file) events) event).held }
    ensures told { (reads : List ℕ → Option Pages) → reads [] ≡ None
        → ((bytes : List ℕ) (pages : Pages) → reads bytes ≡ Some pages → pages.has 14 ≡ true)
        → (file : Contents) (events : List Event) → IsRun reads (begin_with file) events
        → HeadersStay reads (begin_with file) events
        → (left : Contents) → LeavesFile (under_way (behind reads (begin_with file) events)) left
        → IsHeaderWhole (under_way (behind reads (begin_with file) events)) left
        → IsTold (behind reads (begin_with file) events) left }
{}
