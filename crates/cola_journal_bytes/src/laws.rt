//! Laws of journals as bytes. Each is a function with nothing to run: what it ensures is the law.
ghost use Rattle.std.specs.Prelude.{◌≡◌, ◌+◌, ◌<◌, ◌^◌, [], List, ℕ, Some, None, length, slice_index};
ghost use Rattle.cola_journal.specs.declared.stage.Stage.TheVariants.{Rest};
ghost use Rattle.cola_journal.specs.Disk.{Contents, LeavesFile, IsHeaderWhole};
ghost use Rattle.cola_journal.specs.Runs.{Event, IsRun, CanHappen, happens, behind, begin_with, HeadersStay, under_way, IsSafe, IsSettled, IsTold, Stands};
ghost use Rattle.cola_journal_bytes.specs.Applied.{pages_read};
ghost use Rattle.cola_journal_bytes.specs.Format.{Piece, AllFit, journal_of, read_journal};

/// What was written is read.
pub fn written_pieces_are_read()
    ensures { (pieces : List Piece) → AllFit pieces → length pieces < 2 ^ 64 → read_journal (journal_of pieces) ≡ Some pieces }
{}

/// What is read was written: a journal has one spelling.
pub fn what_is_read_was_written()
    ensures { (bytes : List ℕ) (pieces : List Piece) → ((k : ℕ) → slice_index bytes k < 256) → read_journal bytes ≡ Some pieces
        → bytes ≡ journal_of pieces }
{}

/// No bytes are no journal.
pub fn no_bytes_are_no_journal()
    ensures { read_journal [] ≡ None }
{}

/// Checkpoints by way of such journals are kept, as the laws of the protocol have it.
pub fn checkpoints_are_kept()
    ensures safe { (file : Contents) (events : List Event) → IsRun pages_read (begin_with file) events
        → IsSafe pages_read (behind pages_read (begin_with file) events) }
    ensures settled { (file : Contents) (events : List Event) → IsRun pages_read (begin_with file) events
        → (behind pages_read (begin_with file) events).stage ≡ Rest
        → IsSettled pages_read (behind pages_read (begin_with file) events) }
    ensures turns { (file : Contents) (events : List Event) (event : Event) → IsRun pages_read (begin_with file) events
        → CanHappen pages_read (behind pages_read (begin_with file) events) event
        → Stands (behind pages_read (begin_with file) events) (happens pages_read (behind pages_read (begin_with file) events) event).held }
    ensures told { (file : Contents) (events : List Event) → IsRun pages_read (begin_with file) events
        → HeadersStay pages_read (begin_with file) events
        → (left : Contents) → LeavesFile (under_way (behind pages_read (begin_with file) events)) left
        → IsHeaderWhole (under_way (behind pages_read (begin_with file) events)) left
        → IsTold (behind pages_read (begin_with file) events) left }
{
    cola_journal::laws::checkpoints_are_kept();
}
